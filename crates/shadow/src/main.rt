// shadow: a journal of calls on a book, answered line by line.
#![tactic(auto)]

mod answers;
mod blanks;
mod closing;
mod desk;
mod heads;
mod lengths;
mod lines;
mod opened;
mod opening;
mod purse;
mod requests;
mod settling;
mod verbs;

use heads::read_heads;
use lines::lines_of;
use opening::open_book;
use settling::settle;
use std::alloc::{AllocError, Global};
use std::io;
use std::io::{Read, Write};

fn main(rt: HostRuntime) -> anyhow::Result<()> {
    run(&rt)
}

fn run(rt: &HostRuntime) -> anyhow::Result<()> {
    let bytes = read_all(rt)?;
    let out = answer(rt.alloc(), bytes.as_slice())?;
    rt.stdout().write_all(out.as_bytes())?;
    Ok(())
}

fn read_all(rt: &HostRuntime) -> io::Result<Vec<u8>> {
    let mut bytes = Vec::new(rt.alloc());
    rt.stdin().read_to_end(&mut bytes)?;
    Ok(bytes)
}

// The whole output for a journal.
fn answer(heap: Global, bytes: &[u8]) -> Result<String, AllocError> {
    let mut numbers = Vec::new(heap);
    let heads = read_heads(heap, bytes, &mut numbers)?;
    let lines = lines_of(heap, heads, numbers.as_slice())?;
    let mut out = String::new(heap);
    match open_book(lines.as_slice(), &mut out)? {
        Some(opened) => settle(heap, opened, &mut out)?,
        None => out.push_str("no book\n")?,
    }
    Ok(out)
}
