// interval: what one interval will cost each QSE, from its rows, before the operator's statement arrives.
#![tactic(auto)]

mod charge;
mod desk;
mod input;
mod interval;
mod names;
mod refusal;
mod report;
mod side;

use desk::Desk;
use input::{Input, read};
use refusal::Refusal;
use report::report;
use std::alloc::Global;
use std::io;
use std::io::{BufRead, BufReader};

fn main(rt: HostRuntime) -> io::Result<()> {
    let heap = rt.alloc();
    let mut desk = Desk::new(heap);
    let lines = BufReader::new(heap, rt.stdin())?.lines(heap);
    for (number, line) in (1u64..).zip(lines) {
        let text = line?;
        if let Err(refusal) = enter(&mut desk, heap, text.as_str()) {
            println!(rt; "line {number} {refusal}")?;
        }
    }
    report(&rt, &desk)
}

// One line of the input: a row entered, the cost set, or nothing.
fn enter(desk: &mut Desk, heap: Global, text: &str) -> Result<(), Refusal> {
    let Some(input) = read(heap, text)? else {
        return Ok(());
    };
    match input {
        Input::Figures(list) => desk.figures(list.as_slice()),
        Input::Load(list) => desk.load(list.as_slice()),
        Input::Resource(list) => desk.resource(list.as_slice()),
        Input::Trade(list) => desk.trade(list.as_slice()),
        Input::Cost(list) => desk.set_cost(list.as_slice()),
    }
}
