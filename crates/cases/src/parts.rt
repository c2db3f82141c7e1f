// Cases 10 and 11: cents divided by weight.
ghost use Rattle.std.specs.Prelude.{◌≡◌, ◌<◌, map, sum_by};
ghost use Rattle.std.specs.List.{AllByRecursion};
ghost use Rattle.cases.specs.Parts.{parts};
ghost use Rattle.cases.specs.Worked.{claimed};

use super::entered::load;
use division::division::divide;
use division::weighed::Weighed;

// Puts the pot on rows without cents.
pub(crate) fn pay<T: Weighed>(rows: &mut [T], pot: u32)
    requires none { AllByRecursion (λ x. T.holds x ≡ 0) rows.old }
    requires some { 0 < sum_by T.weighs rows.old }
    ensures { map T.holds rows.new ≡ parts pot (map T.weighs rows.old) }
{
    divide(rows, pot).unwrap();
}

pub(crate) fn even() -> [u64; 3]
    ensures { result ≡ claimed.even }
{
    let mut thirds = [load(&[1, 1, 1]), load(&[1, 1, 1]), load(&[1, 1, 1])];
    pay(&mut thirds, 100);
    [thirds[0].cents, thirds[1].cents, thirds[2].cents]
}

pub(crate) fn one_weight() -> [u64; 3]
    ensures { result ≡ claimed.one_weight }
{
    let mut rows = [load(&[1, 1, 0]), load(&[1, 1, 5]), load(&[1, 1, 0])];
    pay(&mut rows, 7);
    [rows[0].cents, rows[1].cents, rows[2].cents]
}
