// The lines of a journal.
use super::heads::Head;
use super::requests::Request;
use super::verbs::Verb;
use std::alloc::{AllocError, Global};

// A line that is not skipped. Its numbers are lent from the list of those of all lines: a list for each line takes more
// memory than the journal itself.
#[derive(Clone, Copy)]
pub struct Line<'a> {
    // counted from 1, skipped lines too
    pub number: usize,
    // none where a word is no verb, no edition or no number
    pub verb: Option<Verb>,
    numbers: &'a [i64],
}

impl<'a> Line<'a> {
    // What the line asks for, or nothing where it is unreadable.
    pub(crate) fn request(&self) -> Option<Request<'a>> {
        Request::of(self.verb?, self.numbers)
    }
}

// The lines of these heads, whose numbers follow one another in the list.
pub(crate) fn lines_of<'a>(
    heap: Global,
    heads: Vec<Head>,
    numbers: &'a [i64],
) -> Result<Vec<Line<'a>>, AllocError> {
    let mut lines = Vec::with_capacity(heap, heads.len())?;
    let mut rest = numbers;
    for head in heads.as_slice() {
        let (own, more) = rest.split_at(head.count.min(rest.len()));
        rest = more;
        lines.push(Line {
            number: head.number,
            verb: head.verb,
            numbers: own,
        })?;
    }
    Ok(lines)
}
