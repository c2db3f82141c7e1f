// compare: books drawn from seeds, each answered by two implementations of the rules that share no code.
#![tactic(auto)]

mod asks;
mod blanks;
mod chooser;
mod closing;
mod desk;
mod dice;
mod doubled;
mod ends;
mod foreign;
mod lists;
mod play;
mod purse;
mod request;
mod scene;
mod script;
mod seeds;
mod stranger;
mod struck_end;
mod tally;
mod themes;

use request::Request;
use seeds::compare_seed;
use std::alloc::{AllocError, Global};
use std::io;
use std::io::{Read, Write};
use tally::Tally;

fn main(rt: HostRuntime) -> anyhow::Result<()> {
    run(&rt)
}

fn run(rt: &HostRuntime) -> anyhow::Result<()> {
    let bytes = read_all(rt)?;
    let out = answer(rt.alloc(), bytes.as_slice())?;
    rt.stdout().write_all(out.as_bytes())?;
    Ok(())
}

fn read_all(rt: &HostRuntime) -> io::Result<Vec<u8>> {
    let mut bytes = Vec::new(rt.alloc());
    rt.stdin().read_to_end(&mut bytes)?;
    Ok(bytes)
}

fn answer(heap: Global, bytes: &[u8]) -> Result<String, AllocError> {
    let text = String::from_utf8_lossy(heap, bytes)?;
    match Request::read(text.as_str()) {
        None => String::from_str(heap, "the first line is to be FIRST COUNT, two numbers\n"),
        Some(request) => compare_all(heap, request),
    }
}

fn compare_all(heap: Global, request: Request) -> Result<String, AllocError> {
    let mut tally = Tally::new(heap);
    for step in 0..request.count {
        compare_seed(heap, request.first.wrapping_add(step), &mut tally)?;
        tally.books = tally.books.saturating_add(1);
    }
    tally.report()
}
