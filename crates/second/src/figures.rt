// The figures of a QSE, and its row.
use super::limits::{MARK, POWER, QSE, SIGNED_POWER, at};
use super::reserves::Amounts;

pub(crate) const FIGURES: usize = 27;

#[derive(Clone, Copy)]
pub(crate) struct FiguresSide {
    pub(crate) import: i64,
    pub(crate) storage_net: i64,
    pub(crate) positions: Amounts,
}

#[derive(Clone, Copy)]
pub(crate) struct Figures {
    pub(crate) credit: i64,
    pub(crate) purchase: i64,
    pub(crate) sale: i64,
    pub(crate) is_tied: bool,
    pub(crate) snapshot: FiguresSide,
    pub(crate) adjusted: FiguresSide,
}

#[derive(Clone, Copy)]
pub struct QseRow {
    pub number: i64,
    pub(crate) figures: Figures,
    pub shortfall: i64,
    pub cents: i64,
}

pub(crate) fn is_good(list: &[i64], place: usize) -> bool {
    let limits = match place {
        1 => QSE,
        5 => MARK,
        7 | 18 => SIGNED_POWER,
        _ => POWER,
    };
    limits.hold(at(list, place))
}

impl FiguresSide {
    fn read(list: &[i64], import: usize, storage_net: usize, positions: usize) -> FiguresSide {
        FiguresSide {
            import: at(list, import),
            storage_net: at(list, storage_net),
            positions: Amounts::read(list, positions),
        }
    }
}

impl Figures {
    pub(crate) fn read(list: &[i64]) -> Figures {
        Figures {
            credit: at(list, 2),
            purchase: at(list, 3),
            sale: at(list, 4),
            is_tied: at(list, 5) == 1,
            snapshot: FiguresSide::read(list, 6, 7, 8),
            adjusted: FiguresSide::read(list, 17, 18, 19),
        }
    }
}

impl QseRow {
    pub(crate) fn enrolled(number: i64) -> QseRow {
        QseRow {
            number,
            figures: Figures::read(&[]),
            shortfall: 0,
            cents: 0,
        }
    }
}
