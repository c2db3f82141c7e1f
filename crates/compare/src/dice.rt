// Numbers drawn for a seed: small ones and, in some books, numbers at their limits.
use drawn::draws::Draws;
use std::alloc::Global;

const MAX_POWER: i64 = 10_000_000;

#[derive(Drop)]
pub(crate) struct Dice {
    draws: Draws,
    scale: u32,
    has_extremes: bool,
}

impl Dice {
    pub(crate) fn new(heap: Global, seed: u64) -> Dice {
        // seeds beside each other are to give books that differ
        let mut draws = Draws::new(heap, seed.wrapping_mul(0x9E37_79B9_7F4A_7C15));
        let scale = match draws.up_to(5) {
            0 => 3,
            1 => 12,
            2 | 3 => 100,
            4 => 5_000,
            _ => 2_000_000,
        };
        let has_extremes = draws.up_to(2) == 0;
        Dice {
            draws,
            scale,
            has_extremes,
        }
    }

    pub(crate) fn up_to(&mut self, most: u32) -> u32 {
        self.draws.up_to(most)
    }

    pub(crate) fn one_in(&mut self, count: u32) -> bool {
        self.draws.up_to(count.saturating_sub(1)) == 0
    }

    pub(crate) fn number(&mut self, least: i64, more: u32) -> i64 {
        least.saturating_add(i64::from(self.draws.up_to(more)))
    }

    pub(crate) fn length(&mut self, most: u32) -> usize {
        self.draws.up_to(most) as usize
    }

    // A power of some times the scale at most.
    pub(crate) fn power(&mut self, times: u32) -> i64 {
        if self.has_extremes && self.one_in(14) {
            return MAX_POWER.saturating_sub(self.number(0, 1));
        }
        let most = self.scale.saturating_mul(times);
        self.number(0, most).min(MAX_POWER)
    }

    // Zero in two of five draws.
    pub(crate) fn amount(&mut self) -> i64 {
        if self.up_to(4) < 2 { 0 } else { self.power(1) }
    }

    pub(crate) fn signed_power(&mut self) -> i64 {
        let power = self.power(1);
        match self.up_to(2) {
            0 => 0,
            1 => power,
            _ => power.saturating_neg(),
        }
    }

    pub(crate) fn kwh(&mut self) -> i64 {
        if self.has_extremes && self.one_in(8) {
            return self.number(999_999, 1);
        }
        if self.one_in(4) {
            return 0;
        }
        let most = self.scale / 3;
        self.number(0, most.saturating_add(1)).min(1_000_000)
    }

    // One that is outside the limits of most figures, or just inside.
    pub(crate) fn bad_number(&mut self) -> i64 {
        match self.up_to(12) {
            0 => -1,
            1 => 10_000_001,
            2 => -10_000_001,
            3 => 65_536,
            4 => 1_000_001,
            5 => i64::MAX,
            6 => i64::MIN,
            7 => 10,
            8 => 4,
            9 => 5,
            10 => 0,
            11 => 1,
            _ => -10_000_000,
        }
    }
}
