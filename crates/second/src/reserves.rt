// The nine sub-types and a number of kW for each.

#[derive(Clone, Copy, PartialEq, Eq)]
pub enum Reserve {
    Ru,
    Rd,
    Pfr,
    Ufr,
    Ffr,
    Ecs,
    Ecm,
    Nss,
    Nsm,
}

// In the order by which they are entered.
pub const RESERVES: [Reserve; 9] = [
    Reserve::Ru,
    Reserve::Rd,
    Reserve::Pfr,
    Reserve::Ufr,
    Reserve::Ffr,
    Reserve::Ecs,
    Reserve::Ecm,
    Reserve::Nss,
    Reserve::Nsm,
];

// All but RD.
pub(crate) const UPWARD: [Reserve; 8] = [
    Reserve::Ru,
    Reserve::Pfr,
    Reserve::Ufr,
    Reserve::Ffr,
    Reserve::Ecs,
    Reserve::Ecm,
    Reserve::Nss,
    Reserve::Nsm,
];

// Those that an off-line unit can give.
pub(crate) const SLOW: [Reserve; 4] = [Reserve::Ecs, Reserve::Ecm, Reserve::Nss, Reserve::Nsm];

#[derive(Clone, Copy)]
pub struct Amounts {
    kw: [i64; 9],
}

impl Amounts {
    pub(crate) fn zero() -> Amounts {
        Amounts { kw: [0; 9] }
    }

    // The nine numbers of a list from a place on.
    pub(crate) fn read(list: &[i64], first: usize) -> Amounts {
        let mut amounts = Amounts::zero();
        for (kw, place) in amounts.kw.iter_mut().zip(first..) {
            *kw = super::limits::at(list, place);
        }
        amounts
    }

    pub fn of(&self, reserve: Reserve) -> i64 {
        self.kw.get(reserve as usize).copied().unwrap_or(0)
    }

    pub(crate) fn set(&mut self, reserve: Reserve, kw: i64) {
        if let Some(place) = self.kw.get_mut(reserve as usize) {
            *place = kw;
        }
    }

    pub(crate) fn add(&mut self, reserve: Reserve, kw: i64) {
        self.set(reserve, self.of(reserve).saturating_add(kw));
    }

    pub(crate) fn sum_of(&self, group: &[Reserve]) -> i64 {
        let mut sum: i64 = 0;
        for reserve in group {
            sum = sum.saturating_add(self.of(*reserve));
        }
        sum
    }
}
