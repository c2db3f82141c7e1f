// Which capability may cover which position.
ghost use Rattle.std.specs.Prelude.{ℕ, ◌<◌};

// Capability first, both by the place of the sub-type from 0. A cover's amounts stand in this order. Pairs of plain
// numbers, which `specs/` reads as they stand; `Pair` adds the limits that an index needs.
pub const PAIRS: [(usize, usize); 14] = [
    (0, 0),
    (1, 1),
    (2, 2),
    (2, 3),
    (2, 4),
    (3, 3),
    (3, 4),
    (4, 4),
    (5, 5),
    (5, 6),
    (6, 6),
    (7, 7),
    (7, 8),
    (8, 8),
];

// One of them.
#[derive(Clone, Copy)]
pub(crate) struct Pair {
    pub(crate) capability: usize,
    pub(crate) position: usize,
    ghost places: { (capability < 9) × (position < 9) },
}
