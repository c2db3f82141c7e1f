// Power figures by sub-type.
ghost use Rattle.std.specs.Prelude.{◌≡◌, map, replicate, pos};
ghost use Rattle.entry.specs.Parts.{Fits};
ghost use Rattle.entry.specs.Places.{power, sub_types};

use rows::limits::SUB_TYPES;
use rows::reserves::Reserves;
use std::array;

// One for each sub-type.
pub(crate) fn nine(list: &[i64]) -> Reserves
    requires { Fits (replicate sub_types power) list.now }
    ensures { map pos result.kw ≡ list.now }
{
    Reserves {
        kw: array::from_fn(|k| list[k] as u32),
    }
}
