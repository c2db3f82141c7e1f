// What a measure is.
ghost use Rattle.std.specs.Prelude.{◌≡◌, ℕ};
ghost use Rattle.account.specs.Account.{account_view};
ghost use Rattle.account.specs.View.{View};
ghost use Rattle.measure.specs.Laws.{Order, Pool, Help, Nothing, Bound};

use account::account::Account;

// A whole number of kW for every account, by its figures and lines alone, under the laws.
pub trait Measure {
    ghost meaning: { Self → View → ℕ };

    fn value(&self, a: &Account) -> u64
        ensures { result ≡ meaning self.now (account_view a.now) };

    ghost order: { (s : Self) → Order (meaning s) };

    ghost pool: { (s : Self) → Pool (meaning s) };

    ghost help: { (s : Self) → Help (meaning s) };

    ghost nothing: { (s : Self) → Nothing (meaning s) };

    ghost bound: { (s : Self) → Bound (meaning s) };
}
