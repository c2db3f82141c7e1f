// Levels of nine figures, and their arithmetic.
ghost use Rattle.std.specs.Prelude.{◌≡◌, ℕ, ◌+◌, ◌-◌, ◌≤◌, min, max, List, slice_index};
ghost use Rattle.account.specs.View.{over};
ghost use Rattle.measure.specs.Levels.{IsLevels, AtMost, Made};

use super::levels::Levels;

impl Levels {
    // The sum of the figures of each group.
    pub(crate) fn of(figures: &[u64; 9]) -> Levels
        requires { (k : ℕ) → slice_index figures.now k ≤ 5130000000 }
        ensures value { IsLevels result (λ ks. over ks (λ k. slice_index figures.now k)) }
        ensures small { AtMost result 46170000000 }
    {
        let [reg_up, reg_down, pfr, ufr, ffr, ecs, ecm, nss, nsm] = *figures;
        let rrs = pfr + ufr + ffr;
        let fast = reg_up + rrs;
        let with_ecrs = fast + ecs + ecm;
        let upward = with_ecrs + nss + nsm;
        Levels {
            reg_up,
            rrs,
            fast,
            with_ecrs,
            upward,
            reg_down,
        }
    }

    // Each level made of the two at its place.
    fn zip_with<F: Fn(u64, u64) -> u64>(self, other: Levels, f: F) -> Levels
        requires { Made (λ x y _. F.pre f x y) self other self }
        ensures { Made (λ x y z. F.post f x y z) self other result }
    {
        Levels {
            reg_up: f(self.reg_up, other.reg_up),
            rrs: f(self.rrs, other.rrs),
            fast: f(self.fast, other.fast),
            with_ecrs: f(self.with_ecrs, other.with_ecrs),
            upward: f(self.upward, other.upward),
            reg_down: f(self.reg_down, other.reg_down),
        }
    }

    // No level above the room.
    pub(crate) fn within(self, room: u64) -> Levels
        ensures value { (f : List ℕ → ℕ) → IsLevels self f → IsLevels result (λ ks. min room (f ks)) }
        ensures small { AtMost result room }
    {
        self.zip_with(self, |level, _| room.min(level))
    }

    pub(crate) fn plus(self, more: Levels) -> Levels
        requires { (AtMost self 20000000000) × (AtMost more 20000000) }
        ensures value { (f g : List ℕ → ℕ) → IsLevels self f → IsLevels more g → IsLevels result (λ ks. f ks + g ks) }
        ensures small { (m : ℕ) → AtMost self m → AtMost result (m + 20000000) }
    {
        self.zip_with(more, |level, added| level + added)
    }

    // What is asked beyond what is served.
    pub(crate) fn less(self, served: Levels) -> Levels
        ensures value { (f g : List ℕ → ℕ) → IsLevels self f → IsLevels served g → IsLevels result (λ ks. f ks - g ks) }
        ensures small { (m : ℕ) → AtMost self m → AtMost result m }
    {
        self.zip_with(served, u64::saturating_sub)
    }

    // The worst of the levels that look upward.
    pub(crate) fn worst_upward(self) -> u64
        ensures value { result ≡ max self.reg_up (max self.rrs (max self.fast (max self.with_ecrs self.upward))) }
        ensures small { (m : ℕ) → AtMost self m → result ≤ m }
    {
        self.reg_up.max(self.rrs.max(self.fast.max(self.with_ecrs.max(self.upward))))
    }
}
