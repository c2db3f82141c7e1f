// What the lines of an account give together, in one pass.
ghost use Rattle.std.specs.Prelude.{◌≡◌, ℕ, ◌+◌, ◌<◌, min, slice_index};
ghost use Rattle.account.specs.Account.{account_view};
ghost use Rattle.cover.specs.Sets.{Under, sum_to};
ghost use Rattle.cover.specs.Given.{Within, AddsRow, IsGiven};

use super::offer::Offer;
use account::account::Account;
use account::line::Line;
use rows::resource::ResourceRow;

// The totals of `measure` have the same two sums beside another third part. One generic type would want a trait of that
// part, with a start, a step, a relation and a bound, for these two uses.
#[derive(Clone, Copy)]
pub struct Given {
    // of each closed set, no line beyond its room
    pub reached: [u64; 144],
    // available power and load parts
    pub supply: u64,
    // what off-line units serve
    pub offline: u64,
}

// `take_reach` in giving.rt is its counterpart.
fn add_reach(reached: &mut [u64; 144], offer: &Offer)
    requires { Under 20000000000 reached.old }
    ensures more { (k : ℕ) → k < 144 → slice_index reached.new k ≡ slice_index reached.old k + min offer.now.room (sum_to 9 k offer.now.capability.figures) }
    ensures small { (m : ℕ) → Under m reached.old → Under (m + offer.now.room) reached.new }
{
    for (k, sum) in reached.iter_mut().enumerate() {
        *sum += offer.reach(k);
    }
}

impl Given {
    // The row's line more, where the row is the account's; most rows are another's.
    fn add_row(&mut self, a: &Account, row: &ResourceRow)
        requires { Within self.old 20000000000 }
        ensures value { AddsRow a.now self.old row.now self.new }
        ensures small { (m : ℕ) → Within self.old m → Within self.new (m + 30000000) }
    {
        if !a.owns(row) {
            return;
        }
        let line = Line::of(row, a.side);
        add_reach(&mut self.reached, &Offer::of(&line));
        self.supply += u64::from(line.available) + u64::from(line.load_part);
        self.offline += u64::from(line.offline);
    }

    // One pass over the resources, in which each line is derived once.
    pub fn of(a: &Account) -> Given
        ensures value { IsGiven (account_view a.now) result }
        ensures small { Within result 15360000000 }
    {
        let mut given = Given {
            reached: [0; 144],
            supply: 0,
            offline: 0,
        };
        for row in a.resources {
            given.add_row(a, row);
        }
        given
    }
}
