// A QSE weighs as much as its shortfall.
ghost use Rattle.division.specs.Weighed.{PaidQse};
ghost use Rattle.std.proofs.Common.{rules};

use super::weighed::Weighed;
use rows::limits::MAX_CENTS;
use rows::qse::QseRow;

impl Weighed for QseRow {
    ghost weighs = { λ x. x.shortfall };

    ghost holds = { λ x. x.cents };

    ghost paid = { PaidQse };

    ghost adds = { Prim.search rules };

    ghost keeps = { Prim.search rules };

    fn weight(&self) -> u32 {
        self.shortfall
    }

    fn cents(&self) -> u64 {
        self.cents
    }

    fn add_cents(&mut self, n: u32) {
        self.cents = MAX_CENTS.min(self.cents + u64::from(n));
    }
}
