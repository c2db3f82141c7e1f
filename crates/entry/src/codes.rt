// Codes of numbers that were judged before, and what two numbers stand for together.
ghost use Rattle.std.specs.Prelude.{◌≡◌, ◌≤◌, pos, is_some};
ghost use Rattle.rows.specs.Limits.{max_power};
ghost use Rattle.rows.specs.Codes.{status_number, sides_number, traded_number, traded_sub, kw_before};
ghost use Rattle.entry.specs.Keeps.{Within};
ghost use Rattle.entry.specs.Numbers.{mark};
ghost use Rattle.entry.specs.Rules.{TypedFor, ZeroUnless};

use rows::codes::{Sides, Status, SubType, Traded};

pub(crate) fn status_of(x: i64) -> Status
    requires { Within x (pos 0) (pos 3) }
    ensures { pos (status_number result) ≡ x }
{
    Status::try_from(x).unwrap()
}

pub(crate) fn sides_of(x: i64) -> Sides
    requires { Within x (pos 1) (pos 3) }
    ensures { pos (sides_number result) ≡ x }
{
    Sides::try_from(x).unwrap()
}

// What a trade moves: its kind, with the sub-type of a position. No `TryFrom`: it takes two numbers, judged before, and
// cannot fail.
pub(crate) fn traded_of(x: i64, sub: i64) -> Traded
    requires kind { Within x (pos 1) (pos 3) }
    requires sub { Within sub (pos 0) (pos 9) }
    requires typed { TypedFor sub x }
    ensures kind { pos (traded_number result) ≡ x }
    ensures sub { pos (traded_sub result) ≡ sub }
{
    match x {
        1 => Traded::Capacity,
        2 => Traded::Energy,
        _ => Traded::Position {
            sub_type: SubType::try_from(sub).unwrap(),
        },
    }
}

// The kW before a decommitment, where its mark is set.
pub(crate) fn decommitted_at(marked: i64, kw: i64) -> Option<u32>
    requires marked { Within marked (pos 0) (pos 1) }
    requires kw { Within kw (pos 0) (pos max_power) }
    requires rule { ZeroUnless kw marked (pos 1) }
    ensures mark { mark (is_some result) ≡ marked }
    ensures kw { pos (kw_before result) ≡ kw }
    ensures limit { kw_before result ≤ max_power }
{
    if marked == 1 { Some(kw as u32) } else { None }
}
