// The totals of an account, line by line.
ghost use Rattle.std.specs.Prelude.{ℕ, ◌+◌, min, slice_index};
ghost use Rattle.account.specs.View.{over};
ghost use Rattle.account.specs.Account.{account_view};
ghost use Rattle.measure.specs.Levels.{IsLevels, AtMost};
ghost use Rattle.measure.specs.Totals.{Under, Adds, AddsRow, IsTotals};

use super::levels::Levels;
use super::totals::Totals;
use account::account::Account;
use account::line::Line;
use rows::resource::ResourceRow;

// What a line serves of each level.
fn served_by(line: &Line) -> Levels
    ensures value { IsLevels result (λ ks. min line.now.room (over ks (λ k. slice_index line.now.capability k))) }
    ensures small { AtMost result 20000000 }
{
    Levels::of(&line.capabilities()).within(u64::from(line.room))
}

impl Totals {
    // One line more.
    fn with(self, line: &Line) -> Totals
        requires { Under self 20000000000 }
        ensures value { Adds self line.now result }
        ensures small { (m : ℕ) → Under self m → Under result (m + 30000000) }
    {
        Totals {
            supply: self.supply + u64::from(line.available) + u64::from(line.load_part),
            offline: self.offline + u64::from(line.offline),
            served: self.served.plus(served_by(line)),
        }
    }

    // The row's line more, where the row is the account's.
    fn with_row(self, a: &Account, row: &ResourceRow) -> Totals
        requires { Under self 20000000000 }
        ensures value { AddsRow a.now self row.now result }
        ensures small { (m : ℕ) → Under self m → Under result (m + 30000000) }
    {
        // most rows are another's: no line is made of them
        if !a.owns(row) {
            return self;
        }
        self.with(&Line::of(row, a.side))
    }

    // One pass over the resources, in which each line is derived once.
    pub fn of(a: &Account) -> Totals
        ensures value { IsTotals (account_view a.now) result }
        ensures small { Under result 15360000000 }
    {
        let mut totals = Totals::default();
        for row in a.resources {
            totals = totals.with_row(a, row);
        }
        totals
    }
}
