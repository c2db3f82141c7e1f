// Rows that have a weight and are paid cents.
ghost use Rattle.std.specs.Prelude.{◌≡◌, ℕ, ◌+◌, ◌<◌, ◌≤◌, true, false};
ghost use Rattle.rows.specs.Limits.{max_cents};

use rows::limits::MAX_CENTS;

pub trait Weighed {
    ghost weighs: { Self → ℕ };

    // the cents on it
    ghost holds: { Self → ℕ };

    // `paid x n y`: y is x with n cents more, and all else as it was. A relation, since a row
    // carries the proof of its limits, so that no function of n alone makes it.
    ghost paid: { Self → ℕ → Self → Type 0 };

    fn weight(&self) -> u32
        ensures { result ≡ weighs self.now };

    fn cents(&self) -> u64
        ensures { result ≡ holds self.now };

    // Puts cents on a row that has room for them; says nothing of another row.
    fn add_cents(&mut self, n: u32)
        ensures { holds self.old + n ≤ max_cents → paid self.old n self.new };

    // A row that would pass its limit is left as it was.
    fn pay(&mut self, n: u32)
        ensures paid { holds self.old + n ≤ max_cents → paid self.old n self.new }
        ensures kept { max_cents < holds self.old + n → self.new ≡ self.old }
    {
        if has_room(self.cents(), n) {
            self.add_cents(n);
        }
    }

    ghost adds: { (x : Self) (n : ℕ) (y : Self) → paid x n y → holds y ≡ holds x + n };

    ghost keeps: { (x : Self) (n : ℕ) (y : Self) → paid x n y → weighs y ≡ weighs x };
}

// Whether a row that holds these cents can take `n` more.
pub fn has_room(cents: u64, n: u32) -> bool
    ensures { elim result [ true ↦ cents + n ≤ max_cents | false ↦ max_cents < cents + n ] }
{
    cents <= MAX_CENTS - u64::from(n)
}
