// The grouped edition.
use super::account::Account;
use super::overall::overall_before_storage;
use super::reserves::{Reserve, UPWARD};

const REG_UP: [Reserve; 1] = [Reserve::Ru];

const REG_DOWN: [Reserve; 1] = [Reserve::Rd];

const RRS: [Reserve; 3] = [Reserve::Pfr, Reserve::Ufr, Reserve::Ffr];

const WITH_RRS: [Reserve; 4] = [Reserve::Ru, Reserve::Pfr, Reserve::Ufr, Reserve::Ffr];

const WITH_ECRS: [Reserve; 6] = [
    Reserve::Ru,
    Reserve::Pfr,
    Reserve::Ufr,
    Reserve::Ffr,
    Reserve::Ecs,
    Reserve::Ecm,
];

fn level(account: &Account, group: &[Reserve]) -> i64 {
    let mut level = account.positions.sum_of(group);
    for line in &account.lines {
        level = level.saturating_sub(line.room.min(line.capabilities.sum_of(group)));
    }
    level.max(0)
}

fn reserve_part(account: &Account) -> i64 {
    let upward = level(account, &REG_UP)
        .max(level(account, &RRS))
        .max(level(account, &WITH_RRS))
        .max(level(account, &WITH_ECRS))
        .max(level(account, &UPWARD));
    upward.saturating_add(level(account, &REG_DOWN))
}

pub(crate) fn grouped_value(account: &Account) -> i64 {
    overall_before_storage(account)
        .max(0)
        .max(reserve_part(account))
}
