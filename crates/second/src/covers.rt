// A cover that was written elsewhere, judged by the page's limits.
use super::account::Account;
use super::flow::PAIRS;
use super::line::Line;
use super::reserves::{Amounts, RESERVES};

impl Account {
    // How many rows of a table a cover has.
    pub fn line_count(&self) -> usize {
        self.lines.len()
    }

    // What a cover leaves uncovered, if it is within the limits and has a row for each line.
    pub fn left_by(&self, rows: &[[u32; 14]]) -> Option<i64> {
        let mut covered = Amounts::zero();
        for (place, line) in self.lines.iter().enumerate() {
            let row = rows.get(place)?;
            if !is_within(line, row) {
                return None;
            }
            for ((_, position), kw) in PAIRS.iter().zip(row.iter()) {
                covered.add(*position, i64::from(*kw));
            }
        }
        left(self, &covered)
    }
}

fn left(account: &Account, covered: &Amounts) -> Option<i64> {
    let mut left: i64 = 0;
    for position in RESERVES {
        let uncovered = account
            .positions
            .of(position)
            .saturating_sub(covered.of(position));
        if uncovered < 0 {
            return None;
        }
        left = left.saturating_add(uncovered);
    }
    Some(left)
}

fn is_within(line: &Line, row: &[u32; 14]) -> bool {
    let mut used = Amounts::zero();
    for ((capability, _), kw) in PAIRS.iter().zip(row.iter()) {
        used.add(*capability, i64::from(*kw));
    }
    for capability in RESERVES {
        if used.of(capability) > line.capabilities.of(capability) {
            return false;
        }
    }
    used.sum_of(&RESERVES) <= line.room
}
