// The grouped edition of the rules, a measure.
ghost use Rattle.measure.specs.Grouped.{grouped as groupedOf};
ghost use Rattle.measure.specs.GroupedLawful.{lawful_grouped, grouped_bound};

use super::grouped_parts::break_down;
use super::measure::Measure;
use account::account::Account;

#[derive(Clone, Copy)]
pub struct Grouped {}

impl Measure for Grouped {
    ghost meaning = { λ _. groupedOf };

    ghost order = { λ s. lawful_grouped.order };

    ghost pool = { λ s. lawful_grouped.pool };

    ghost help = { λ s. lawful_grouped.help };

    ghost nothing = { λ s. lawful_grouped.nothing };

    ghost bound = { λ s. grouped_bound };

    fn value(&self, a: &Account) -> u64 {
        break_down(a).value
    }
}
