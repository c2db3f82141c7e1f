// The least that any cover of an account's positions leaves uncovered.
ghost use Rattle.std.specs.Prelude.{◌≡◌, ℕ, ◌≤◌};
ghost use Rattle.account.specs.Account.{account_view};
ghost use Rattle.account.specs.View.{View};
ghost use Rattle.least.specs.Cover.{Duality};
ghost use Rattle.least.specs.SubType.{reserve, LeastUncovered};

use super::lacking::worst_of;
use account::account::Account;

// The greatest lack of a closed set, which is that least. `always` and `duality` say why, of all accounts and all lines.
pub fn least_uncovered(a: &Account) -> u64
    ensures value { result ≡ reserve (account_view a.now) }
    ensures least { LeastUncovered (account_view a.now) result }
    ensures small { result ≤ 46170000000 }
    ensures always { (v : View) → LeastUncovered v (reserve v) }
    ensures duality { Duality }
{
    worst_of(a).lack
}
