// A load weighs as much as its energy.
ghost use Rattle.division.specs.Weighed.{PaidLoad};
ghost use Rattle.std.proofs.Common.{rules};

use super::weighed::Weighed;
use rows::limits::MAX_CENTS;
use rows::load::LoadRow;

// `cents` and `add_cents` stand in both row types, since a trait has no fields: the one reads the field, and the field is under a limit, so no `&mut` of it can be lent out.
impl Weighed for LoadRow {
    ghost weighs = { λ x. x.kwh };

    ghost holds = { λ x. x.cents };

    ghost paid = { PaidLoad };

    ghost adds = { Prim.search rules };

    ghost keeps = { Prim.search rules };

    fn weight(&self) -> u32 {
        self.kwh
    }

    fn cents(&self) -> u64 {
        self.cents
    }

    fn add_cents(&mut self, n: u32) {
        self.cents = MAX_CENTS.min(self.cents + u64::from(n));
    }
}
