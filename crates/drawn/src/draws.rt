// Numbers that look drawn and are the same in every run.
ghost use Rattle.std.specs.Prelude.{◌≡◌, ◌≤◌};
ghost use Rattle.drawn.specs.Draws.{next_state, number_at};

use std::alloc::Global;

// The state of the draws, and the heap on which their lists are made.
#[derive(Clone, Copy)]
pub struct Draws {
    pub state: u64,
    pub heap: Global,
}

impl Draws {
    pub fn new(heap: Global, seed: u64) -> Draws
        ensures { result.state ≡ seed }
    {
        Draws { state: seed, heap }
    }

    // One of the numbers from 0 to `most`.
    #[tactic(auto, unfolding(crate::specs::Draws::next_state, crate::specs::Draws::number_at))]
    pub fn up_to(&mut self, most: u32) -> u32
        ensures state { self.new.state ≡ next_state self.old.state }
        ensures number { result ≡ number_at self.new.state most }
        ensures limit { result ≤ most }
    {
        let product = self.state.wrapping_mul(6364136223846793005);
        self.state = product.wrapping_add(1442695040888963407);
        let high = (self.state >> 32) as u32;
        high % most.saturating_add(1)
    }
}
