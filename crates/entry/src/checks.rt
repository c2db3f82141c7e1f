// A list against its places.
ghost use Rattle.std.specs.Prelude.{◌≡◌, ◌<◌, Decides};
ghost use Rattle.entry.specs.Places.{size as size_of, at};
ghost use Rattle.entry.specs.Keeps.{Keeps, Checked, Within};

use super::form::Form;
use rows::fault::Fault;

// The number at place k, and 0 past the end.
fn figure(list: &[i64], k: usize) -> i64
    ensures { result ≡ at list.now k }
{
    list.get(k).copied().unwrap_or(0)
}

// Whether a number lies between the two, or is one of them.
pub fn is_within(x: i64, low: i64, high: i64) -> bool
    ensures { Decides result (Within x low high) }
{
    low <= x && x <= high
}

// Whether the number at place k, counted from 0, is in its limits and keeps its rule.
fn keeps(form: Form, list: &[i64], k: usize) -> bool
    requires { k < size_of form }
    ensures { Decides result (Keeps form list.now k) }
{
    let (low, high, rule) = form.place(k);
    let x = figure(list, k);
    let previous = figure(list, k.saturating_sub(1));
    is_within(x, low, high) && rule.keeps(x, previous, figure(list, 1))
}

// Every number is kept, or the first that is not.
pub fn check(form: Form, list: &[i64]) -> Result<(), Fault>
    ensures { Checked form list.now result }
{
    let n = form.size();
    if list.len() != n {
        return Err(Fault::WrongLength);
    }
    // over places, since each number is judged with the one before it; a search by `find` was tried, and what it gives
    // could not be shown to be the first bad place
    for i in 0..n {
        if !keeps(form, list, i) {
            return Err(Fault::OutOfLimits {
                place: (i + 1) as u8,
            });
        }
    }
    Ok(())
}
