// One line served: what it gives to the positions, pair after pair.
ghost use Rattle.std.specs.Prelude.{◌≡◌, ℕ, ◌-◌, ◌<◌, ◌≤◌, min, slice_index, slice_set};
ghost use Rattle.cover.specs.Sets.{sum_to, LimitTo};
ghost use Rattle.cover.specs.Amounts.{Served};

use super::offer::Offer;
use super::pairs::{PAIRS, Pair};
use super::pending::Pending;
use account::line::Line;

impl Pending {
    // As much as the offer may give at the pair, taken from both; a pair with nothing to give is passed at once.
    fn give(&mut self, offer: &mut Offer, pair: Pair) -> u64
        ensures limit { let caps = offer.old.capability.figures in let left = self.old.left.figures in LimitTo 144 self.old.rest offer.old.room caps left pair.capability pair.position (min offer.old.room (min (slice_index caps pair.capability) (slice_index left pair.position))) result }
        ensures rest { self.new.rest ≡ self.old.rest }
        ensures room { offer.new.room ≡ offer.old.room - result }
        ensures capability { offer.new.capability.figures ≡ slice_set offer.old.capability.figures pair.capability (slice_index offer.old.capability.figures pair.capability - result) }
        ensures left { self.new.left.figures ≡ slice_set self.old.left.figures pair.position (slice_index self.old.left.figures pair.position - result) }
    {
        let most = offer.room.min(offer.capability.figures[pair.capability].min(
            self.left.figures[pair.position],
        ));
        if most == 0 {
            return 0;
        }
        let d = self.limit(offer, pair, most);
        if d > 0 {
            offer.room -= d;
            offer.capability.take(pair.capability, d);
            self.left.take(pair.position, d);
        }
        d
    }

    // Gives as long as the lines to come, by their sums, can cover what is left. No `from_fn`: what is given at a pair
    // changes what the next may give, and the proof goes from pair to pair.
    fn give_all(&mut self, offer: &mut Offer) -> [u32; 14]
        ensures rest { self.new.rest ≡ self.old.rest }
        ensures served { Served self.old.rest offer.old.room offer.old.capability.figures self.old.left.figures self.new.left.figures result }
    {
        let mut row = [0; 14];
        for (t, &(capability, position)) in PAIRS.iter().enumerate() {
            let pair = Pair {
                capability,
                position,
            };
            row[t] = self.give(offer, pair) as u32;
        }
        row
    }

    // The sign and the bound that it keeps are all that this does not share with `add_reach`.
    fn take_reach(&mut self, offer: &Offer)
        requires { (k : ℕ) → k < 144 → min offer.now.room (sum_to 9 k offer.now.capability.figures) ≤ slice_index self.old.rest k }
        ensures rest { (k : ℕ) → k < 144 → slice_index self.new.rest k ≡ slice_index self.old.rest k - min offer.now.room (sum_to 9 k offer.now.capability.figures) }
        ensures left { self.new.left ≡ self.old.left }
    {
        for (k, sum) in self.rest.iter_mut().enumerate() {
            *sum -= offer.reach(k);
        }
    }

    // Takes the line from the sums of the lines to come, and serves the positions from it.
    pub(crate) fn serve(&mut self, line: &Line) -> [u32; 14]
        requires { (k : ℕ) → k < 144 → min line.now.room (sum_to 9 k line.now.capability) ≤ slice_index self.old.rest k }
        ensures taken { (k : ℕ) → k < 144 → slice_index self.new.rest k ≡ slice_index self.old.rest k - min line.now.room (sum_to 9 k line.now.capability) }
        ensures served { Served self.new.rest line.now.room line.now.capability self.old.left.figures self.new.left.figures result }
    {
        let mut offer = Offer::of(line);
        self.take_reach(&offer);
        self.give_all(&mut offer)
    }
}
