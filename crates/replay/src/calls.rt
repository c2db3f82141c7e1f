// Calls on a book and the answers that they are given.
use book::books::{OpenBook, StruckBook};
use rows::fault::Fault;

// A call; a measure goes by its place in the list of measures, a claim by its place in the purse.
#[derive(Clone, Copy)]
pub enum Call<'a> {
    Figures(&'a [i64]),
    Load(&'a [i64]),
    Resource(&'a [i64]),
    Trade(&'a [i64]),
    Enrol(i64),
    Void(usize),
    Short(usize, i64),
    Cover(i64, i64),
    Strike(usize),
    Share(i64),
    Claim(i64, i64),
    Charge(usize),
    HandBack(usize),
    Reopen,
}

// What a call is answered: one level of cases and no `Result`, since not every refusal has a fault and runs are stated
// by these cases.
#[derive(Clone, Copy)]
pub enum Answer {
    // the book's state does not permit the call, or it names no measure or no claim
    NotAllowed,
    Refused(Fault),
    // granted, with nothing to say
    Granted,
    // the place of a trade
    Placed(usize),
    Shortfall(u64),
    Uncovered(u64),
    Total(u32),
    // a QSE's shortfall and T, or nothing where T is 0
    Shared(Option<(u32, u32)>),
    // the place of a claim in the purse
    Claimed(usize),
    // pot and rest
    Charged(u32, u32),
}

// A call with its answer beside it.
#[derive(Clone, Copy)]
pub struct Entry<'a> {
    pub call: Call<'a>,
    pub answer: Answer,
}

// A book in either state.
#[derive(Drop)]
pub enum AnyBook {
    Open(OpenBook),
    Struck(StruckBook),
}
