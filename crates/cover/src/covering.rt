// A cover of an account's positions by its lines that leaves the least uncovered.
ghost use Rattle.std.specs.Prelude.{◌≡◌, ℕ, ◌+◌, ◌<◌, ◌≤◌, count_by, length, slice_index};
ghost use Rattle.rows.specs.Rows.{plain_resource};
ghost use Rattle.account.specs.Own.{owns_resource};
ghost use Rattle.account.specs.Account.{account_view};
ghost use Rattle.cover.specs.Sets.{Under};
ghost use Rattle.cover.specs.Covered.{CoveredBy, CoverOf};

use super::given::Given;
use super::lacking::{asked_of, worst_set};
use super::pending::Pending;
use account::account::Account;
use rows::fault::Fault;

// How many of the resources are the account's.
pub fn own_rows(a: &Account) -> usize
    ensures { result ≡ count_by (λ r. owns_resource a.now.qse (plain_resource r)) a.now.resources.now }
{
    a.resources.iter().filter(|row| a.owns(row)).count()
}

// What may stay uncovered counts as one more line, which reaches every set but the empty one.
fn add_budget(rest: &mut [u64; 144], budget: u64)
    requires few { Under 20000000000 rest.old }
    requires small { budget ≤ 46170000000 }
    ensures none { slice_index rest.new 0 ≡ slice_index rest.old 0 }
    ensures more { (k : ℕ) → k < 144 → 0 < k → slice_index rest.new k ≡ slice_index rest.old k + budget }
{
    for sum in &mut rest[1..] {
        *sum += budget;
    }
}

fn write_cover(a: &Account, out: &mut [[u32; 14]]) -> u64
    requires { length (account_view a.now).lines ≤ length out.old }
    ensures { CoveredBy (account_view a.now) out.old out.new result }
{
    let standing = a.standing();
    let left = asked_of(&standing);
    let mut rest = Given::of(a).reached;
    let least = worst_set(&rest, &left).lack;
    add_budget(&mut rest, least);
    let mut pending = Pending { left, rest };
    // rows are counted, since only some of the resources have a line and the proof goes by resources
    let mut n = 0;
    for row in a.resources {
        if let Some(line) = a.line(row) {
            out[n] = pending.serve(&line);
            n += 1;
        }
    }
    least
}

// The table is the caller's, who may lend a longer one: no heap is used in the library.
//
// Writes fourteen amounts for each of the account's lines in their order, and gives what they leave
// uncovered. Nothing is written where `out` has fewer rows than the account has lines.
pub fn cover(a: &Account, out: &mut [[u32; 14]]) -> Result<u64, Fault>
    ensures { CoverOf (account_view a.now) out.old out.new result }
{
    if out.len() < own_rows(a) {
        return Err(Fault::CoverTooShort);
    }
    Ok(write_cover(a, out))
}
