// How much a line may give to a position before the lines to come cannot cover the others.
ghost use Rattle.std.specs.Prelude.{◌≡◌, ℕ, ◌<◌};
ghost use Rattle.cover.specs.Sets.{spare_at, LimitTo};

use super::offer::Offer;
use super::pairs::Pair;
use super::pending::Pending;
use super::sets::member;

impl Pending {
    // What is spare of the set number `k` for the pair's position, where that is outside it.
    fn spare(&self, offer: &Offer, pair: Pair, k: usize) -> u64
        requires { k < 144 }
        ensures { result ≡ spare_at self.now.rest offer.now.room offer.now.capability.figures self.now.left.figures pair.capability k }
    {
        let gain = if member(k, pair.capability) {
            offer.reach(k)
        } else {
            offer.room
        };
        (self.rest[k] + gain).saturating_sub(self.left.sums[k])
    }

    // The most, up to `b`, that the offer may give at the pair. By number, since a set has a place in four tables.
    pub(crate) fn limit(&self, offer: &Offer, pair: Pair, b: u64) -> u64
        ensures { LimitTo 144 self.now.rest offer.now.room offer.now.capability.figures self.now.left.figures pair.capability pair.position b result }
    {
        let mut d = b;
        for k in 0..144 {
            if !member(k, pair.position) {
                d = d.min(self.spare(offer, pair, k));
            }
        }
        d
    }
}
