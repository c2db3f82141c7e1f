// The lines up to the one that opens the book.
use super::answers::say;
use super::lengths::Lengths;
use super::lines::Line;
use super::opened::Opened;
use super::requests::Request;
use book::books::OpenBook;
use replay::calls::Answer;
use std::alloc::AllocError;

// Nothing where no line opens a book.
pub(crate) fn open_book<'a>(
    lines: &'a [Line<'a>],
    out: &mut String,
) -> Result<Option<Opened<'a>>, AllocError> {
    let mut lengths = Lengths::usual();
    for (place, line) in lines.iter().enumerate() {
        let answer = match line.request() {
            None => None,
            Some(Request::Call(_)) => Some(Answer::NotAllowed),
            Some(Request::Tables(given)) => {
                lengths = given;
                continue;
            }
            Some(Request::Open(number)) => match OpenBook::open(number) {
                Err(fault) => Some(Answer::Refused(fault)),
                Ok(book) => {
                    say(out, line, Some(Answer::Granted))?;
                    return Ok(Some(Opened {
                        book,
                        lengths,
                        rest: &lines[place + 1..],
                    }));
                }
            },
        };
        say(out, line, answer)?;
    }
    Ok(None)
}
