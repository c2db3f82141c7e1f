// Calls on a book, and what is answered.
use std::fmt;

// A call; a measure goes by its place in the list of measures, a claim by its place in the purse.
#[derive(Clone, Copy)]
pub enum Call<'a> {
    Enrol(i64),
    Figures(&'a [i64]),
    Load(&'a [i64]),
    Resource(&'a [i64]),
    Trade(&'a [i64]),
    Void(usize),
    Short(usize, i64),
    Cover(i64, i64),
    Strike(usize),
    Share(i64),
    Claim(i64, i64),
    Charge(usize),
    HandBack(usize),
    Reopen,
}

// A refusal's number, and the first bad place of a bad figure.
#[derive(Clone, Copy, PartialEq, Eq)]
pub struct Refusal {
    pub number: usize,
    pub place: Option<usize>,
}

#[derive(Clone, Copy, PartialEq, Eq)]
pub enum Answer {
    NotAllowed,
    Refused(Refusal),
    Granted,
    Number(i64),
    Numbers(i64, i64),
    // a share where T is 0
    NobodyShort,
}

impl fmt::Display for Answer {
    fn fmt<W: fmt::Write>(&self, f: &mut fmt::Formatter<W>) -> fmt::Result {
        match *self {
            Answer::NotAllowed => write!(f, "not allowed"),
            Answer::Refused(Refusal { number, place }) => {
                write!(f, "refused {number}")?;
                match place {
                    Some(place) => write!(f, " place {place}"),
                    None => Ok(()),
                }
            }
            Answer::Granted => write!(f, "granted"),
            Answer::Number(number) => write!(f, "granted {number}"),
            Answer::Numbers(first, second) => write!(f, "granted {first} {second}"),
            Answer::NobodyShort => write!(f, "granted none"),
        }
    }
}
