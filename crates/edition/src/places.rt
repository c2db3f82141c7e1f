// The editions in a list.
ghost use Rattle.std.specs.Prelude.{◌≡◌, slice_index_or};
ghost use Rattle.edition.specs.Edition.{all_editions};

use super::edition::Edition;

impl Edition {
    // Its place in the list of all.
    pub fn place(self) -> usize
        ensures { (d : Edition) → slice_index_or all_editions result d ≡ self }
    {
        self as usize
    }
}

pub fn editions() -> [Edition; 3]
    ensures { result ≡ all_editions }
{
    [Edition::Grouped, Edition::SubType, Edition::Greater]
}
