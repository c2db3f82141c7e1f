// The calls after the opening, and what is printed of their answers.
use super::lines::Line;
use super::requests::Request;
use replay::calls::{Answer, Entry};
use std::alloc::{AllocError, Global};

// The calls of the lines, in their order.
pub(crate) fn calls_of<'a>(heap: Global, lines: &[Line<'a>]) -> Result<Vec<Entry<'a>>, AllocError> {
    let mut calls = Vec::new(heap);
    for line in lines {
        if let Some(Request::Call(call)) = line.request() {
            calls.push(Entry {
                call,
                answer: Answer::NotAllowed,
            })?;
        }
    }
    Ok(calls)
}

// A line of the output for each line; the calls are those of the lines, answered. Lines and calls are passed in step:
// `replay` takes the calls as one slice, and a line may ask for none.
pub(crate) fn say_answers(
    out: &mut String,
    lines: &[Line],
    calls: &[Entry],
) -> Result<(), AllocError> {
    let mut answers = calls.iter().map(|entry| entry.answer);
    for line in lines {
        let answer = match line.request() {
            None => None,
            Some(Request::Call(_)) => answers.next(),
            Some(_) => Some(Answer::NotAllowed),
        };
        say(out, line, answer)?;
    }
    Ok(())
}

// A line without an answer is unreadable.
pub(crate) fn say(out: &mut String, line: &Line, answer: Option<Answer>) -> Result<(), AllocError> {
    match (line.verb, answer) {
        (Some(verb), Some(answer)) => writeln!(out, "{} {verb} {answer}", line.number),
        _ => writeln!(out, "{} unreadable", line.number),
    }
}
