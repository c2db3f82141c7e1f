// Resources: what is entered of a unit.
use super::limits::{CODES_TO_4, MARK, POWER, QSE, SIGNED_POWER, STATUS, at};
use super::reserves::Amounts;

pub(crate) const UNIT_NUMBERS: usize = 67;

#[derive(Clone, Copy, PartialEq, Eq)]
pub(crate) enum Kind {
    Generation,
    WindOrSolar,
    Storage,
    LoadResource,
}

#[derive(Clone, Copy, PartialEq, Eq)]
pub(crate) enum Status {
    Absent,
    On,
    Off,
    QuickStart,
}

#[derive(Clone, Copy)]
pub(crate) struct UnitSide {
    pub(crate) status: Status,
    pub(crate) hsl: i64,
    pub(crate) lsl: i64,
    pub(crate) potential: i64,
    pub(crate) offered: Amounts,
    pub(crate) cop: Amounts,
    pub(crate) qualified: Amounts,
}

#[derive(Clone, Copy)]
pub(crate) struct Unit {
    pub(crate) qse: i64,
    pub(crate) kind: Kind,
    pub(crate) is_out: bool,
    pub(crate) is_decommitted: bool,
    pub(crate) kw_before: i64,
    pub(crate) snapshot: UnitSide,
    pub(crate) adjusted: UnitSide,
}

impl Kind {
    // Of a number that was judged.
    fn of(number: i64) -> Kind {
        match number {
            1 => Kind::Generation,
            2 => Kind::WindOrSolar,
            3 => Kind::Storage,
            _ => Kind::LoadResource,
        }
    }

    fn takes_marks(self) -> bool {
        self == Kind::Generation || self == Kind::Storage
    }
}

impl Status {
    // Of a number that was judged.
    fn of(number: i64) -> Status {
        match number {
            1 => Status::On,
            2 => Status::Off,
            3 => Status::QuickStart,
            _ => Status::Absent,
        }
    }
}

// The kind comes before all that depends on it, so a bad kind is found first.
pub(crate) fn is_good(list: &[i64], place: usize) -> bool {
    let number = at(list, place);
    let kind = Kind::of(at(list, 2));
    match place {
        1 => QSE.hold(number),
        2 => CODES_TO_4.hold(number),
        3 | 4 => MARK.hold(number) && (number == 0 || kind.takes_marks()),
        5 => POWER.hold(number) && (number == 0 || at(list, 4) == 1),
        6 | 37 => STATUS.hold(number),
        8 => is_good_lsl(number, at(list, 7), kind),
        39 => is_good_lsl(number, at(list, 38), kind),
        9 | 40 => POWER.hold(number) && (number == 0 || kind == Kind::WindOrSolar),
        _ => POWER.hold(number),
    }
}

fn is_good_lsl(lsl: i64, hsl: i64, kind: Kind) -> bool {
    SIGNED_POWER.hold(lsl) && lsl <= hsl && (lsl >= 0 || kind == Kind::Storage)
}

impl Unit {
    pub(crate) fn read(list: &[i64]) -> Unit {
        Unit {
            qse: at(list, 1),
            kind: Kind::of(at(list, 2)),
            is_out: at(list, 3) == 1,
            is_decommitted: at(list, 4) == 1,
            kw_before: at(list, 5),
            snapshot: UnitSide {
                status: Status::of(at(list, 6)),
                hsl: at(list, 7),
                lsl: at(list, 8),
                potential: at(list, 9),
                offered: Amounts::read(list, 10),
                cop: Amounts::read(list, 19),
                qualified: Amounts::read(list, 28),
            },
            adjusted: UnitSide {
                status: Status::of(at(list, 37)),
                hsl: at(list, 38),
                lsl: at(list, 39),
                potential: at(list, 40),
                offered: Amounts::read(list, 41),
                cop: Amounts::read(list, 50),
                qualified: Amounts::read(list, 59),
            },
        }
    }
}
