// The 144 closed sets of sub-types: each holds, with a position, every capability that may cover it.
ghost use Rattle.std.specs.Prelude.{◌≡◌, ℕ, ◌<◌};
ghost use Rattle.least.specs.Chains.{mem};

// The sets are numbered so that those from the number at `j` to the next hold the sub-type at place `j` and none
// after it: each is the set as many numbers before it as there are of these, with `j`.
pub(crate) const STARTS: [usize; 10] = [1, 2, 4, 8, 12, 16, 32, 48, 96, 144];

// The members of each set: bit `j` stands for the sub-type at place `j`. Nine truths for each would say no more in
// nine times the table.
const MASKS: [u16; 144] = [
    0, 1, 2, 3, 4, 5, 6, 7, 12, 13, 14, 15, 28, 29, 30, 31, 32, 33, 34, 35, 36, 37, 38, 39, 44, 45,
    46, 47, 60, 61, 62, 63, 96, 97, 98, 99, 100, 101, 102, 103, 108, 109, 110, 111, 124, 125, 126,
    127, 128, 129, 130, 131, 132, 133, 134, 135, 140, 141, 142, 143, 156, 157, 158, 159, 160, 161,
    162, 163, 164, 165, 166, 167, 172, 173, 174, 175, 188, 189, 190, 191, 224, 225, 226, 227, 228,
    229, 230, 231, 236, 237, 238, 239, 252, 253, 254, 255, 384, 385, 386, 387, 388, 389, 390, 391,
    396, 397, 398, 399, 412, 413, 414, 415, 416, 417, 418, 419, 420, 421, 422, 423, 428, 429, 430,
    431, 444, 445, 446, 447, 480, 481, 482, 483, 484, 485, 486, 487, 492, 493, 494, 495, 508, 509,
    510, 511,
];

// Whether the sub-type at place `j` belongs to the set number `k`. Both stay plain indices: tables of figures and of
// sums are gone through by them, in loops that know their bounds.
pub(crate) fn member(k: usize, j: usize) -> bool
    requires number { k < 144 }
    requires place { j < 9 }
    ensures { result ≡ mem k j }
{
    MASKS[k] >> j & 1 == 1
}
