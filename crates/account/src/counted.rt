// Numbers as they count: 0 where they are below 0.
ghost use Rattle.std.specs.Prelude.{◌≡◌, ℕ, ◌<◌, ◌≤◌, pos, slice_index, slice_index_or};
ghost use Rattle.account.specs.View.{counted as countedOf};

use super::standing::Standing;
use std::array;

pub fn not_below_zero(z: i64) -> u64
    ensures { result ≡ countedOf z }
{
    z.max(0) as u64
}

impl Standing {
    fn counted_at(&self, k: usize) -> u64
        requires { k < 9 }
        ensures { result ≡ countedOf (slice_index_or self.now.positions k (pos 0)) }
    {
        not_below_zero(self.positions[k])
    }

    // The positions as they count. Their bound stands in the clauses of those that read one: a type for a single number would
    // be opened at once.
    pub fn counted(&self) -> [u64; 9]
        ensures each { (k : ℕ) → k < 9 → slice_index result k ≡ countedOf (slice_index_or self.now.positions k (pos 0)) }
        ensures small { (k : ℕ) → slice_index result k ≤ 5130000000 }
    {
        array::from_fn(|k| self.counted_at(k))
    }
}
