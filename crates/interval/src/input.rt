// Lines of the input: a word and its numbers.
use super::refusal::Refusal;
use std::alloc::Global;

#[derive(Drop)]
pub enum Input {
    Figures(Vec<i64>),
    Load(Vec<i64>),
    Resource(Vec<i64>),
    Trade(Vec<i64>),
    Cost(Vec<i64>),
}

// Nothing where the line is blank or begins with #. A line of `shadow` is read apart: there a line that cannot be read
// keeps its number and its verb, and what both do alike is two calls of `str`.
pub(crate) fn read(heap: Global, text: &str) -> Result<Option<Input>, Refusal> {
    let mut words = text.split_whitespace();
    let Some(first) = words.next() else {
        return Ok(None);
    };
    if first.starts_with('#') {
        return Ok(None);
    }
    let mut numbers = Vec::new(heap);
    for word in words {
        numbers.push(word.parse::<i64>().ok().ok_or(Refusal::Unreadable)?)?;
    }
    Ok(Some(match first {
        "figures" => Input::Figures(numbers),
        "load" => Input::Load(numbers),
        "resource" => Input::Resource(numbers),
        "trade" => Input::Trade(numbers),
        "cost" => Input::Cost(numbers),
        _ => return Err(Refusal::Unreadable),
    }))
}
