// What trades move for a QSE as one party.
ghost use Rattle.std.specs.Prelude.{ℕ, ◌≤◌, slice_index};

#[derive(Clone, Copy)]
pub struct Moved {
    // by the number of the sub-type; capacity and energy stand at 0
    pub kw: [u64; 10],
    ghost few: { (s : ℕ) → slice_index kw s ≤ 5120000000 },
}
