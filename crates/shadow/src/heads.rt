// The lines of a journal as they are read, before the list of their numbers is whole.
use super::verbs::Verb;
use std::alloc::{AllocError, Global};

#[derive(Clone, Copy)]
pub struct Head {
    // counted from 1, skipped lines too
    pub number: usize,
    // none where a word is no verb, no edition or no number
    pub verb: Option<Verb>,
    // how many numbers the list has of it
    pub count: usize,
}

// A decimal number within 64 signed bits. Only a minus may stand before it, and `parse` takes a plus too.
fn number_of(word: &str) -> Option<i64> {
    if word.starts_with('+') {
        return None;
    }
    word.parse::<i64>().ok()
}

impl Head {
    // Nothing where the line is blank or begins with #. Where a word is no verb, no edition or no number, no numbers of the
    // line are kept. They are read all the same: with the loop under a test of the verb the compiler no longer puts the
    // search for a word into it, and long lines take a quarter more instructions.
    fn read(number: usize, text: &str, numbers: &mut Vec<i64>) -> Result<Option<Head>, AllocError> {
        let mut words = text.split_whitespace();
        let Some(first) = words.next() else {
            return Ok(None);
        };
        if first.starts_with('#') {
            return Ok(None);
        }
        let from = numbers.len();
        let mut verb = Verb::read(first, &mut words);
        for word in words {
            match number_of(word) {
                Some(n) => numbers.push(n)?,
                None => verb = None,
            }
        }
        if verb.is_none() {
            numbers.truncate(from);
        }
        Ok(Some(Head {
            number,
            verb,
            count: numbers.len().saturating_sub(from),
        }))
    }
}

// The heads of the lines that are not skipped, and their numbers, line after line. Bytes that are no text make no word
// that is known. The text is let go with the last head.
pub(crate) fn read_heads(
    heap: Global,
    bytes: &[u8],
    numbers: &mut Vec<i64>,
) -> Result<Vec<Head>, AllocError> {
    let text = String::from_utf8_lossy(heap, bytes)?;
    let mut heads = Vec::new(heap);
    for (number, line) in (1usize..).zip(text.as_str().lines()) {
        if let Some(head) = Head::read(number, line, numbers)? {
            heads.push(head)?;
        }
    }
    Ok(heads)
}
