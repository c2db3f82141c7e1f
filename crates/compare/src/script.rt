// The list of calls of a seed, made and answered by the second book.
use super::asks::Ask;
use super::chooser::Chooser;
use super::play::Piece;
use super::scene::Scene;
use replay::calls::{Answer as FirstAnswer, Entry};
use second::account::Account;
use second::book::{Book, Lent};
use second::calls::Answer as SecondAnswer;
use std::alloc::{AllocError, Global};

// What is expected of a cover: its limits by the account, and what it leaves uncovered.
#[derive(Drop)]
pub(crate) struct Expected {
    pub(crate) account: Account,
    pub(crate) left: i64,
}

#[derive(Drop)]
pub(crate) struct Asked {
    pub(crate) ask: Ask,
    pub(crate) answer: SecondAnswer,
    // of a granted cover
    pub(crate) expected: Option<Expected>,
}

pub(crate) fn write_script(
    scene: &Scene,
    chooser: &mut Chooser,
    book: &mut Book,
) -> Result<Vec<Asked>, AllocError> {
    let mut script = Vec::new(chooser.heap);
    for step in 0..scene.steps {
        let ask = match scene.theme.next(chooser, step, book)? {
            Some(ask) => ask,
            None => chooser.next(step, book)?,
        };
        script.push(answered(ask, book, scene.lent)?)?;
    }
    Ok(script)
}

pub(crate) fn answered(ask: Ask, book: &mut Book, lent: Lent) -> Result<Asked, AllocError> {
    let answer = book.answer(lent, ask.second())?;
    let expected = expected_of(&ask, answer, book)?;
    Ok(Asked {
        ask,
        answer,
        expected,
    })
}

fn expected_of(
    ask: &Ask,
    answer: SecondAnswer,
    book: &Book,
) -> Result<Option<Expected>, AllocError> {
    if let (Ask::Cover(qse, side), SecondAnswer::Number(left)) = (ask, answer) {
        if let Some(account) = book.account_of(*qse, *side)? {
            return Ok(Some(Expected { account, left }));
        }
    }
    Ok(None)
}

pub(crate) fn pieces_of<'a>(
    heap: Global,
    script: &'a [Asked],
) -> Result<Vec<Piece<'a>>, AllocError> {
    let mut pieces = Vec::new(heap);
    let mut calls = Vec::new(heap);
    for asked in script {
        calls.push(Entry {
            call: asked.ask.first(),
            answer: FirstAnswer::NotAllowed,
        })?;
        if let Some(expected) = &asked.expected {
            pieces.push(piece(calls, Some(expected)))?;
            calls = Vec::new(heap);
        }
    }
    pieces.push(piece(calls, None))?;
    Ok(pieces)
}

fn piece<'a>(calls: Vec<Entry<'a>>, expected: Option<&'a Expected>) -> Piece<'a> {
    Piece {
        calls,
        expected,
        is_good: false,
    }
}
