// The time of a strike of a full book.
use super::full::drawn;
use cover::sub_type::SubType;
use measure::grouped::Grouped;
use measure::measure::Measure;
use std::time::{Duration, Instant};

const STRIKES: usize = 200;

// The sum of the shortfalls, and the least time of a strike in milliseconds.
fn timed_strikes<M: Measure>(rt: &HostRuntime, m: &M) -> anyhow::Result<(u32, f64)> {
    let (mut book, mut lent) = drawn(rt.alloc())?;
    let mut most = 0u32;
    let mut least = Duration::MAX;
    for _ in 0..STRIKES {
        let start = Instant::now(rt)?;
        let (opened, total) = lent.strike(book, m)?;
        least = least.min(start.elapsed(rt)?);
        most = most.max(total);
        book = opened;
    }
    Ok((most, least.as_secs_f64() * 1e3))
}

// Answers go to the output and times, in milliseconds, to the error output.
pub(crate) fn time_strikes(rt: &HostRuntime) -> anyhow::Result<()> {
    let (a, grouped) = timed_strikes(rt, &Grouped {})?;
    let (b, sub_type) = timed_strikes(rt, &SubType {})?;
    println!(rt; "strike grouped {a} subtype {b}")?;
    eprintln!(rt; "strike grouped {grouped:.3} subtype {sub_type:.3}")?;
    Ok(())
}
