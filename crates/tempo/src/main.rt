// tempo: how long the measures and the cover of an account take.
#![tactic(auto)]

mod dump;
mod fleet;
mod timing;
mod work;

use account::counted::not_below_zero;
use anyhow::{Context, anyhow};
use cover::sub_type::SubType;
use cover::uncovered::least_uncovered;
use dump::dump;
use fleet::Fleet;
use measure::grouped::Grouped;
use std::env;
use timing::timed;
use work::{Covered, Valued};

const SIZES: [u32; 3] = [8, 64, 512];

fn main(rt: HostRuntime) -> anyhow::Result<()> {
    run(&rt)
}

fn run(rt: &HostRuntime) -> anyhow::Result<()> {
    let mut words = env::args(rt)?.skip(1);
    let Some(first) = words.next() else {
        return time_all(rt);
    };
    let count = words.next().context("a number of units is missing")?;
    if first.as_str() != "dump" {
        return Err(anyhow!("the word is not dump"));
    }
    let fleet = Fleet::drawn(rt.alloc(), count.as_str().parse::<u32>()?)?;
    dump(rt, &fleet)
}

fn time_all(rt: &HostRuntime) -> anyhow::Result<()> {
    for count in &SIZES {
        time_one(rt, &Fleet::drawn(rt.alloc(), *count)?)?;
    }
    Ok(())
}

// The sum of the positions as they count.
fn owed(fleet: &Fleet) -> anyhow::Result<u64> {
    let standing = fleet.account(fleet.tables()?, 0).standing();
    Ok(
        standing.positions.iter().fold(
            0u64,
            |sum, position| sum.saturating_add(not_below_zero(*position)),
        ),
    )
}

// Answers go to the output and times, in microseconds, to the error output.
fn time_one(rt: &HostRuntime, fleet: &Fleet) -> anyhow::Result<()> {
    let units = fleet.size();
    let mut covered = Covered::new(rt.alloc(), units)?;
    let grouped = timed(rt, fleet, &mut Valued(Grouped {}))?;
    let sub_type = timed(rt, fleet, &mut Valued(SubType {}))?;
    let cover = timed(rt, fleet, &mut covered)?;
    if covered.given().saturating_add(cover.answer) != owed(fleet)? {
        return Err(anyhow!("the cover does not add up"));
    }
    if cover.answer != least_uncovered(&fleet.account(fleet.tables()?, 0)) {
        return Err(anyhow!("the cover does not leave the least"));
    }
    let (a, b, c) = (grouped.answer, sub_type.answer, cover.answer);
    println!(rt; "units {units} grouped {a} subtype {b} uncovered {c}")?;
    let (a, b, c) = (grouped.micros, sub_type.micros, cover.micros);
    eprintln!(rt; "units {units} grouped {a:.2} subtype {b:.2} cover {c:.2}")?;
    Ok(())
}
