// A trade.
ghost use Rattle.std.specs.Prelude.{◌≡◌, ◌==◌, ◌+◌, IfOk, if◌then◌else◌};
ghost use Rattle.rows.specs.Codes.{sides_number as sides_code, sub_number, traded_number as traded_code, traded_sub};
ghost use Rattle.drawn.specs.Draws.{next_state, number_at};
ghost use Rattle.drawn.specs.Lists.{drawn_trade};

use super::draws::Draws;
use rows::codes::{Sides, SubType, Traded};
use std::alloc::AllocError;

// Greatest kW of a trade, but for one.
const MOST_TRADED: u32 = 100;

impl Draws {
    fn sub_type(&mut self) -> SubType
        ensures state { self.new.state ≡ next_state self.old.state }
        ensures number { sub_number result ≡ number_at self.new.state 8 + 1 }
    {
        SubType::try_from(i64::from(self.up_to(8)) + 1).unwrap()
    }

    // A sub-type is drawn for each kind.
    fn traded(&mut self) -> Traded
        ensures state { self.new.state ≡ next_state (next_state self.old.state) }
        ensures kind { traded_code result ≡ number_at (next_state self.old.state) 2 + 1 }
        ensures sub_type { traded_sub result ≡ (if number_at (next_state self.old.state) 2 == 2 then number_at self.new.state 8 + 1 else 0) }
    {
        let kind = self.up_to(2);
        let sub_type = self.sub_type();
        match kind {
            0 => Traded::Capacity,
            1 => Traded::Energy,
            _ => Traded::Position { sub_type },
        }
    }

    fn sides(&mut self) -> Sides
        ensures state { self.new.state ≡ next_state self.old.state }
        ensures number { sides_code result ≡ number_at self.new.state 2 + 1 }
    {
        Sides::try_from(i64::from(self.up_to(2)) + 1).unwrap()
    }

    // A trade between the QSEs: of capacity, energy or a position, on one side or both.
    pub fn trade(&mut self, seller: i64, buyer: i64) -> Result<Vec<i64>, AllocError>
        ensures list { IfOk result (λ l. l.items ≡ drawn_trade self.old.state seller buyer) }
        ensures state { self.new.state ≡ next_state (next_state (next_state (next_state self.old.state))) }
    {
        let traded = self.traded();
        let sides = self.sides();
        let kw = i64::from(self.up_to(MOST_TRADED)) + 1;
        Ok(vec![in self.heap;
            traded.number(),
            traded.sub_type_number() as i64,
            sides as i64,
            seller,
            buyer,
            kw,
        ]?)
    }
}
