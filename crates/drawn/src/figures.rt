// The figures of a QSE.
ghost use Rattle.std.specs.Prelude.{◌≡◌, IfOk};
ghost use Rattle.drawn.specs.Lists.{drawn_figures, drawn_figures_side, numbers, state_after, times};

use super::draws::Draws;
use rows::limits::SUB_TYPES;
use std::alloc::AllocError;

// Greatest kW of a sub-type that a QSE owes for each of its units.
const MOST_OWED: u32 = 130;

// Enough bought for each unit that only reserves are short.
const BOUGHT: u32 = 2000;

impl Draws {
    #[tactic(auto, unfolding(crate::specs::Lists::numbers, crate::specs::Lists::state_after))]
    fn positions(&mut self, most: u32) -> Result<Vec<i64>, AllocError>
        ensures list { IfOk result (λ l. l.items ≡ numbers 9 self.old.state most) }
        ensures state { IfOk result (λ _. self.new.state ≡ state_after 9 self.old.state) }
    {
        let mut positions = Vec::new(self.heap);
        for _place in 0..SUB_TYPES {
            positions.push(i64::from(self.up_to(most)))?;
        }
        Ok(positions)
    }

    fn figures_side(&mut self, units: u32) -> Result<Vec<i64>, AllocError>
        ensures list { IfOk result (λ l. l.items ≡ drawn_figures_side self.old.state units) }
        ensures state { IfOk result (λ _. self.new.state ≡ state_after 9 self.old.state) }
    {
        let positions = self.positions(units.saturating_mul(MOST_OWED))?;
        let mut side = vec![in self.heap; 0, 0]?;
        side.extend_from_slice(positions.as_slice())?;
        Ok(side)
    }

    // The figures of a QSE with so many units, the same on both sides.
    pub fn figures(&mut self, qse: i64, units: u32) -> Result<Vec<i64>, AllocError>
        ensures list { IfOk result (λ l. l.items ≡ drawn_figures self.old.state qse units) }
        ensures state { IfOk result (λ _. self.new.state ≡ state_after 9 self.old.state) }
    {
        let bought = i64::from(units.saturating_mul(BOUGHT));
        let mut list = vec![in self.heap; qse, 0, bought, 0, 0]?;
        let side = self.figures_side(units)?;
        list.extend_from_slice(side.as_slice())?;
        list.extend_from_slice(side.as_slice())?;
        Ok(list)
    }
}
