// What the lines of an account put behind its load and reserves. It is made from the totals of the edition at hand, of
// which each has its own.
ghost use Rattle.std.specs.Prelude.{◌≤◌};

#[derive(Clone, Copy)]
pub struct Backing {
    // available power and load parts
    pub supply: u64,
    // what off-line units serve
    pub offline: u64,
    ghost small: { (supply ≤ 15360000000) × (offline ≤ 15360000000) },
}
