// What a line can give.
ghost use Rattle.std.specs.Prelude.{◌≡◌, ℕ, ◌<◌, ◌≤◌, min};
ghost use Rattle.cover.specs.Sets.{sum_to};

use super::sums::Summed;
use account::line::Line;

// What is free of a line's room and of its capabilities.
#[derive(Clone, Copy)]
pub(crate) struct Offer {
    pub(crate) room: u64,
    pub(crate) capability: Summed,
    ghost small: { room ≤ 20000000 },
}

impl Offer {
    pub(crate) fn of(line: &Line) -> Offer
        ensures room { result.room ≡ line.now.room }
        ensures capability { result.capability.figures ≡ line.now.capability }
    {
        Offer {
            room: u64::from(line.room),
            capability: Summed::of(line.capabilities()),
        }
    }

    // What it reaches of the set number `k`.
    pub(crate) fn reach(&self, k: usize) -> u64
        requires { k < 144 }
        ensures { result ≡ min self.now.room (sum_to 9 k self.now.capability.figures) }
    {
        self.room.min(self.capability.sums[k])
    }
}
