// The division of a pot of cents over rows by their weight.
ghost use Rattle.std.specs.Prelude.{◌≡◌, ℕ, ◌+◌, ◌^◌, ◌<◌, ◌≤◌, true, false, sum_by};
ghost use Rattle.division.specs.Division.{HasRoom, TooFull, Spread, Divides};

use super::split::Split;
use super::weighed::{Weighed, has_room};
use rows::fault::Fault;

// Puts the pot on the rows, and says how many cents were put: none where no row has a weight. A row
// that could pass its limit is found before any is written.
pub fn divide<T: Weighed>(rows: &mut [T], pot: u32) -> Result<u32, Fault>
    ensures { Divides T.weighs T.holds T.paid pot rows.old rows.new result }
{
    if !all_have_room(rows, pot) {
        return Err(Fault::BrokenTable);
    }
    let all = sum_of_weights(rows);
    if all == 0 {
        return Ok(0);
    }
    spread(rows, Split { pot, all });
    Ok(pot)
}

// No sum wraps: a slice has fewer than 2^64 rows, and each weight is below 2^32.
pub fn sum_of_weights<T: Weighed>(rows: &[T]) -> u128
    ensures value { result ≡ sum_by T.weighs rows.now }
    ensures small { result < 2 ^ 96 }
{
    rows.iter().map(|row| u128::from(row.weight())).sum()
}

// Whether each row can take the whole pot.
fn all_have_room<T: Weighed>(rows: &[T], pot: u32) -> bool
    ensures { elim result [ true ↦ HasRoom T.holds pot rows.now | false ↦ TooFull T.holds pot rows.now ] }
{
    rows.iter().all(|row| has_room(row.cents(), pot))
}

// Gives each row what the pot has for the weights up to it, less what it has for those before it, so
// that what rounding leaves goes to a later row.
fn spread<T: Weighed>(rows: &mut [T], split: Split)
    requires sum { split.all ≡ sum_by T.weighs rows.old }
    requires room { HasRoom T.holds split.pot rows.old }
    ensures { Spread T.weighs T.holds T.paid split.pot rows.old rows.new split.all }
{
    let mut before = 0u128;
    for row in rows.iter_mut() {
        let after = before + u128::from(row.weight());
        row.pay(split.share(before, after));
        before = after;
    }
}
