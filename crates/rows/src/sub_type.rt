// The numbers of sub-types and of trades.
ghost use Rattle.std.specs.Prelude.{◌≡◌, ℕ, ◌<◌, pos};
ghost use Rattle.rows.specs.Codes.{sub_number, traded_number, traded_sub};

use super::codes::{SubType, Traded};

impl SubType {
    // The number by which the sub-type is entered, 1 to 9.
    pub fn number(self) -> usize
        ensures value { result ≡ sub_number self }
        ensures nine { result < 10 }
    {
        self as usize
    }
}

impl Traded {
    // Its kind, 1 to 3.
    pub fn number(self) -> i64
        ensures { result ≡ pos (traded_number self) }
    {
        match self {
            Traded::Capacity => 1,
            Traded::Energy => 2,
            Traded::Position { sub_type: _ } => 3,
        }
    }

    // The number of the sub-type, and 0 for capacity and energy: it is entered so, and sums by sub-type stand by it.
    // An `Option` would be turned into that number again at each use.
    pub fn sub_type_number(self) -> usize
        ensures value { result ≡ traded_sub self }
        ensures ten { result < 10 }
    {
        match self {
            Traded::Capacity => 0,
            Traded::Energy => 0,
            Traded::Position { sub_type } => sub_type.number(),
        }
    }
}
