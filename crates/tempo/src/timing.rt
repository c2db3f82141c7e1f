// The time of a call, and what it answers.
use super::fleet::Fleet;
use super::work::Work;
use anyhow::Context;
use std::time::{Duration, Instant};

const BATCHES: usize = 20;

// Units of all the calls of a batch.
const BATCH: usize = 2048;

#[derive(Clone, Copy)]
pub struct Taken {
    pub answer: u64,
    // of one call, the least mean of a batch
    pub micros: f64,
}

fn batch<W: Work>(fleet: &Fleet, work: &mut W, calls: usize) -> anyhow::Result<u64> {
    let tables = fleet.tables()?;
    let mut most = 0u64;
    for turn in 0..calls {
        let account = fleet.account(tables, turn);
        most = most.max(work.run(&account).context("no answer")?);
    }
    Ok(most)
}

fn micros_of(span: Duration, calls: usize) -> f64 {
    span.as_secs_f64() * 1e6 / std::num::nearest_u64_to_f64(calls as u64)
}

pub(crate) fn timed<W: Work>(
    rt: &HostRuntime,
    fleet: &Fleet,
    work: &mut W,
) -> anyhow::Result<Taken> {
    let calls = BATCH / fleet.size().max(1);
    let mut answer = 0u64;
    let mut least = Duration::MAX;
    for _ in 0..BATCHES {
        let start = Instant::now(rt)?;
        answer = answer.max(batch(fleet, work, calls)?);
        least = least.min(start.elapsed(rt)?);
    }
    Ok(Taken {
        answer,
        micros: micros_of(least, calls),
    })
}
