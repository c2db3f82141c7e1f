// The capabilities of a line as sums of them are made.
ghost use Rattle.std.specs.Prelude.{◌≡◌};
ghost use Rattle.rows.specs.Limits.{Powers};

use super::line::Line;
use std::array;

impl Line {
    pub fn capabilities(&self) -> [u64; 9]
        ensures same { result ≡ self.now.capability }
        ensures small { Powers result }
    {
        array::from_fn(|k| u64::from(self.capability[k]))
    }
}
