// The limits of entered numbers.

#[derive(Clone, Copy)]
pub(crate) struct Limits {
    low: i64,
    high: i64,
}

pub(crate) const POWER: Limits = Limits {
    low: 0,
    high: 10_000_000,
};

pub(crate) const SIGNED_POWER: Limits = Limits {
    low: -10_000_000,
    high: 10_000_000,
};

pub(crate) const QSE: Limits = Limits {
    low: 1,
    high: 65_535,
};

pub(crate) const POINT: Limits = Limits {
    low: 0,
    high: 65_535,
};

pub(crate) const KWH: Limits = Limits {
    low: 0,
    high: 1_000_000,
};

pub(crate) const MARK: Limits = Limits { low: 0, high: 1 };

pub(crate) const TRADED_POWER: Limits = Limits {
    low: 1,
    high: 10_000_000,
};

pub(crate) const CODES_TO_3: Limits = Limits { low: 1, high: 3 };

pub(crate) const CODES_TO_4: Limits = Limits { low: 1, high: 4 };

pub(crate) const STATUS: Limits = Limits { low: 0, high: 3 };

pub(crate) const RESERVE: Limits = Limits { low: 1, high: 9 };

pub(crate) const SIDE: Limits = Limits { low: 1, high: 2 };

pub(crate) const BOOK: Limits = Limits {
    low: 0,
    high: 4_294_967_295,
};

pub(crate) const CLAIMED_CENTS: Limits = Limits {
    low: 1,
    high: 1_000_000_000,
};

pub(crate) const RATE: Limits = Limits {
    low: 0,
    high: 1_000_000,
};

pub(crate) const MAX_TOTAL: i64 = 4_000_000_000;
// a charge adds at most a thousand million to a row, which is not to pass a million million
pub(crate) const MAX_CENTS_BEFORE_CHARGE: i64 = 999_000_000_000;

pub(crate) const MAX_CLAIMS: i64 = 1_000;

pub(crate) const MAX_QSES: usize = 64;

pub(crate) const MAX_ROWS: usize = 512;

impl Limits {
    pub(crate) fn hold(self, number: i64) -> bool {
        self.low <= number && number <= self.high
    }
}

// The number at a place of a list; places count from 1, and a missing number is 0.
pub(crate) fn at(list: &[i64], place: usize) -> i64 {
    match place.checked_sub(1) {
        Some(index) => list.get(index).copied().unwrap_or(0),
        None => 0,
    }
}

// The first of the places up to `last` at which a list is bad.
pub(crate) fn first_bad<F: Fn(&[i64], usize) -> bool>(
    list: &[i64],
    last: usize,
    is_good: F,
) -> Option<usize>
    requires { F.IsAlwaysCallable is_good }
{
    for place in 1..=last {
        if !is_good(list, place) {
            return Some(place);
        }
    }
    None
}
