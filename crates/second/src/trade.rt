// The rows of trades.
use super::account::Side;
use super::limits::{CODES_TO_3, QSE, RESERVE, TRADED_POWER, at};
use super::reserves::{RESERVES, Reserve};

pub(crate) const TRADE_NUMBERS: usize = 6;

const POSITION: i64 = 3;

#[derive(Clone, Copy)]
pub(crate) struct Trade {
    // the sub-type, for a trade of a position
    pub(crate) reserve: Option<Reserve>,
    on_snapshot: bool,
    on_adjusted: bool,
    pub(crate) seller: i64,
    pub(crate) buyer: i64,
    pub(crate) kw: i64,
    pub(crate) is_void: bool,
}

pub(crate) fn is_good(list: &[i64], place: usize) -> bool {
    let number = at(list, place);
    match place {
        1 | 3 => CODES_TO_3.hold(number),
        2 => {
            if at(list, 1) == POSITION {
                RESERVE.hold(number)
            } else {
                number == 0
            }
        }
        4 | 5 => QSE.hold(number),
        _ => TRADED_POWER.hold(number),
    }
}

impl Trade {
    pub(crate) fn read(list: &[i64]) -> Trade {
        let sides = at(list, 3);
        Trade {
            reserve: reserve_of(list),
            on_snapshot: sides == 1 || sides == 3,
            on_adjusted: sides == 2 || sides == 3,
            seller: at(list, 4),
            buyer: at(list, 5),
            kw: at(list, 6),
            is_void: false,
        }
    }

    pub(crate) fn counts_on(&self, side: Side) -> bool {
        let is_on = match side {
            Side::Snapshot => self.on_snapshot,
            Side::Adjusted => self.on_adjusted,
        };
        is_on && !self.is_void
    }
}

fn reserve_of(list: &[i64]) -> Option<Reserve> {
    if at(list, 1) != POSITION {
        return None;
    }
    let place = usize::try_from(at(list, 2)).ok()?.checked_sub(1)?;
    RESERVES.get(place).copied()
}
