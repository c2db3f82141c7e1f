// Nine figures with their sums over the closed sets, so that a sum is read and not made.
ghost use Rattle.std.specs.Prelude.{◌≡◌, ℕ, ◌+◌, ◌-◌, ◌<◌, ◌≤◌, cond, length, slice_index, slice_set};
ghost use Rattle.least.specs.Chains.{mem};
ghost use Rattle.cover.specs.Sets.{Under, sum_to};

use super::sets::{STARTS, member};

#[derive(Clone, Copy)]
pub struct Summed {
    pub figures: [u64; 9],
    pub sums: [u64; 144],
    ghost long: { (length figures ≡ 9) × (length sums ≡ 144) },
    ghost low: { Under 5130000000 figures },
    ghost each: { (k : ℕ) → k < 144 → slice_index sums k ≡ sum_to 9 k figures },
}

// The figure added to each of the sums before `from` gives those from there to `to`. By index, since each reads
// an earlier sum of the table that it is written to.
fn extend(sums: &mut [u64; 144], from: usize, to: usize, figure: u64)
    requires order { (from ≤ to) × ((to ≤ from + from) × (to ≤ 144)) }
    requires few { (k : ℕ) → k < from → slice_index sums.old k ≤ 46170000000 }
    requires low { figure ≤ 5130000000 }
    ensures kept { (k : ℕ) → k < from → slice_index sums.new k ≡ slice_index sums.old k }
    ensures more { (k : ℕ) → from ≤ k → k < to → slice_index sums.new k ≡ slice_index sums.old (k - (to - from)) + figure }
{
    let width = to - from;
    for k in from..to {
        sums[k] = sums[k - width] + figure;
    }
}

// What the sum over the set number `k` loses with `d` at place `j`.
fn lost(k: usize, j: usize, d: u64) -> u64
    requires number { k < 144 }
    requires place { j < 9 }
    ensures { result ≡ cond (mem k j) d 0 }
{
    if member(k, j) { d } else { 0 }
}

impl Summed {
    pub(crate) fn of(figures: [u64; 9]) -> Summed
        requires { Under 5130000000 figures }
        ensures { result.figures ≡ figures }
    {
        let mut sums = [0; 144];
        for (j, figure) in figures.iter().enumerate() {
            extend(&mut sums, STARTS[j], STARTS[j + 1], *figure);
        }
        Summed { figures, sums }
    }

    // Takes `d` from the figure at place `j`.
    pub(crate) fn take(&mut self, j: usize, d: u64)
        requires place { j < 9 }
        requires there { d ≤ slice_index self.old.figures j }
        ensures { self.new.figures ≡ slice_set self.old.figures j (slice_index self.old.figures j - d) }
    {
        self.figures[j] -= d;
        for (k, sum) in self.sums.iter_mut().enumerate() {
            *sum -= lost(k, j, d);
        }
    }
}
