// A load.
ghost use Rattle.std.specs.Prelude.{◌≡◌, IfOk};
ghost use Rattle.drawn.specs.Draws.{next_state};
ghost use Rattle.drawn.specs.Lists.{drawn_load};

use super::draws::Draws;
use std::alloc::AllocError;

const MOST_KWH: u32 = 500;

impl Draws {
    // A load of the QSE at the settlement point 1.
    pub fn load(&mut self, qse: i64) -> Result<Vec<i64>, AllocError>
        ensures list { IfOk result (λ l. l.items ≡ drawn_load self.old.state qse) }
        ensures state { self.new.state ≡ next_state self.old.state }
    {
        let kwh = i64::from(self.up_to(MOST_KWH));
        Ok(vec![in self.heap; qse, 1, kwh]?)
    }
}
