// The rows of loads.
use super::limits::{KWH, POINT, QSE, at};

pub(crate) const LOAD_NUMBERS: usize = 3;

#[derive(Clone, Copy)]
pub struct LoadRow {
    pub qse: i64,
    pub kwh: i64,
    pub cents: i64,
}

pub(crate) fn is_good(list: &[i64], place: usize) -> bool {
    let limits = match place {
        1 => QSE,
        2 => POINT,
        _ => KWH,
    };
    limits.hold(at(list, place))
}

impl LoadRow {
    pub(crate) fn read(list: &[i64]) -> LoadRow {
        LoadRow {
            qse: at(list, 1),
            kwh: at(list, 3),
            cents: 0,
        }
    }
}
