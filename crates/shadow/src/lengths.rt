// The lengths of the tables.
use rows::limits::{MAX_QSES, MAX_ROWS};

#[derive(Clone, Copy)]
pub struct Lengths {
    pub qses: usize,
    pub loads: usize,
    pub resources: usize,
    pub trades: usize,
    pub covers: usize,
}

// The tables have to fit in memory.
const MAX_LENGTH: usize = 1_000_000;

fn length_of(number: i64) -> Option<usize> {
    usize::try_from(number).ok().filter(|n| *n <= MAX_LENGTH)
}

impl Lengths {
    // As long as a book can fill them.
    pub(crate) fn usual() -> Lengths {
        Lengths {
            qses: MAX_QSES,
            loads: MAX_ROWS,
            resources: MAX_ROWS,
            trades: MAX_ROWS,
            covers: MAX_ROWS,
        }
    }

    pub(crate) fn of(numbers: &[i64]) -> Option<Lengths> {
        let [qses, loads, resources, trades, covers] = numbers else {
            return None;
        };
        Some(Lengths {
            qses: length_of(*qses)?,
            loads: length_of(*loads)?,
            resources: length_of(*resources)?,
            trades: length_of(*trades)?,
            covers: length_of(*covers)?,
        })
    }
}
