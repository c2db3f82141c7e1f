// The greater of two measures.
ghost use Rattle.std.specs.Prelude.{ℕ, ◌+◌, ◌-◌, max, length};
ghost use Rattle.std.proofs.Common.{rules};

use super::measure::Measure;
use account::account::Account;

#[derive(Clone, Copy)]
pub struct Greater<A, B> {
    pub one: A,
    pub other: B,
}

impl<A: Measure, B: Measure> Measure for Greater<A, B> {
    ghost meaning = { λ s v. max (A.Measure.meaning s.one v) (B.Measure.meaning s.other v) };

    ghost order = { Prim.search rules };

    ghost pool = { Prim.search rules };

    ghost help = { Prim.search rules };

    ghost nothing = { Prim.search rules };

    ghost bound = { Prim.search rules };

    fn value(&self, a: &Account) -> u64 {
        let x = self.one.value(a);
        let y = self.other.value(a);
        x.max(y)
    }
}
