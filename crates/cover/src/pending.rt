// What is still to do while the lines are served, one after another.
ghost use Rattle.std.specs.Prelude.{◌≡◌, ℕ, length};
ghost use Rattle.cover.specs.Sets.{Under};

use super::sums::Summed;

// The positions left, and what the lines to come reach of each closed set.
#[derive(Clone, Copy)]
pub(crate) struct Pending {
    pub(crate) left: Summed,
    pub(crate) rest: [u64; 144],
    ghost long: { length rest ≡ 144 },
    ghost few: { Under 100000000000 rest },
}
