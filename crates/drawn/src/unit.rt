// A unit.
ghost use Rattle.std.specs.Prelude.{◌≡◌, IfOk, pos};
ghost use Rattle.drawn.specs.Draws.{next_state};
ghost use Rattle.drawn.specs.Lists.{amount_of, amount_state, amounts, amounts_state, drawn_kind, drawn_unit, drawn_unit_side, lsl_of, lsl_state, unit_side_state, unit_state};

use super::draws::Draws;
use rows::codes::{Kind, Status};
use rows::limits::SUB_TYPES;
use std::alloc::AllocError;

// Greatest kW of a sub-type that a unit offers.
const MOST_OFFERED: u32 = 300;

impl Draws {
    fn kind(&mut self) -> Kind
        ensures state { self.new.state ≡ next_state self.old.state }
        ensures kind { result ≡ drawn_kind self.new.state }
    {
        match self.up_to(2) {
            0 => Kind::Generation,
            1 => Kind::Storage,
            _ => Kind::LoadResource,
        }
    }

    // A generator has a floor, storage can charge.
    fn lsl(&mut self, kind: Kind, hsl: u32) -> i64
        ensures state { self.new.state ≡ lsl_state kind self.old.state }
        ensures lsl { result ≡ lsl_of kind hsl self.old.state }
    {
        match kind {
            Kind::Generation => i64::from(self.up_to(100)),
            Kind::Storage => -i64::from(self.up_to(hsl)),
            _ => 0,
        }
    }

    // Nothing of one sub-type in four.
    #[tactic(auto, unfolding(crate::specs::Lists::amount_of, crate::specs::Lists::amount_state))]
    fn amount(&mut self) -> i64
        ensures state { self.new.state ≡ amount_state self.old.state }
        ensures amount { result ≡ pos (amount_of self.old.state) }
    {
        if self.up_to(3) == 0 {
            0
        } else {
            i64::from(self.up_to(MOST_OFFERED))
        }
    }

    // Nine, as of positions, by another draw: the statement of a common one would be handed both rules of the draws.
    #[tactic(auto, unfolding(crate::specs::Lists::amounts, crate::specs::Lists::amounts_state))]
    fn amounts(&mut self) -> Result<Vec<i64>, AllocError>
        ensures list { IfOk result (λ l. l.items ≡ amounts 9 self.old.state) }
        ensures state { IfOk result (λ _. self.new.state ≡ amounts_state 9 self.old.state) }
    {
        let mut amounts = Vec::new(self.heap);
        for _place in 0..SUB_TYPES {
            amounts.push(self.amount())?;
        }
        Ok(amounts)
    }

    fn unit_side(&mut self, kind: Kind) -> Result<Vec<i64>, AllocError>
        ensures list { IfOk result (λ l. l.items ≡ drawn_unit_side self.old.state kind) }
        ensures state { IfOk result (λ _. self.new.state ≡ unit_side_state kind self.old.state) }
    {
        let hsl = self.up_to(600) + 200;
        let lsl = self.lsl(kind, hsl);
        let amounts = self.amounts()?;
        let mut side = vec![in self.heap; Status::On as i64, i64::from(hsl), lsl, 0]?;
        side.extend_from_slice(amounts.as_slice())?; // offered
        side.extend_from_slice(amounts.as_slice())?; // in the COP
        side.extend_from_slice(amounts.as_slice())?; // qualified
        Ok(side)
    }

    // A unit of the QSE that is ON, the same on both sides.
    pub fn unit(&mut self, qse: i64) -> Result<Vec<i64>, AllocError>
        ensures list { IfOk result (λ l. l.items ≡ drawn_unit self.old.state qse) }
        ensures state { IfOk result (λ _. self.new.state ≡ unit_state self.old.state) }
    {
        let kind = self.kind();
        let mut list = vec![in self.heap; qse, kind as i64, 0, 0, 0]?;
        let side = self.unit_side(kind)?;
        list.extend_from_slice(side.as_slice())?;
        list.extend_from_slice(side.as_slice())?;
        Ok(list)
    }
}
