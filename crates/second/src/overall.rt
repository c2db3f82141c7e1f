// The overall part of a measure.
use super::account::Account;
use super::reserves::{Reserve, SLOW};

const PROMPT: [Reserve; 4] = [Reserve::Ru, Reserve::Pfr, Reserve::Ufr, Reserve::Ffr];

// Without the storage net, and not cut at zero.
pub(crate) fn overall_before_storage(account: &Account) -> i64 {
    let mut given: i64 = 0;
    let mut off_line: i64 = 0;
    for line in &account.lines {
        given = given
            .saturating_add(line.available)
            .saturating_add(line.load_part);
        off_line = off_line.saturating_add(line.off_line);
    }
    let slow = account.positions.sum_of(&SLOW).saturating_sub(off_line);
    let obliged = account
        .positions
        .sum_of(&PROMPT)
        .saturating_add(slow.max(0));
    account
        .load
        .saturating_mul(4)
        .saturating_add(obliged)
        .saturating_sub(given)
        .saturating_sub(account.net)
}
