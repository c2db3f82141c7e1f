// A pot of cents, split by weights that sum to `all`.
ghost use Rattle.std.specs.Prelude.{◌≡◌, ℕ, ◌*◌, ◌/◌, ◌^◌, ◌<◌, ◌≤◌};
ghost use Rattle.division.specs.Division.{share as share_of};

#[derive(Clone, Copy)]
pub(crate) struct Split {
    pub(crate) pot: u32,
    pub(crate) all: u128,
    ghost some: { 0 < all },
    ghost small: { all < 2 ^ 96 },
}

impl Split {
    // What the pot has for rows of this weight together.
    fn upto(self, weight: u128) -> u128
        requires { weight ≤ self.all }
        ensures { result ≡ self.pot * weight / self.all }
    {
        u128::from(self.pot) * weight / self.all
    }

    // What a row gets that takes the running sum of weights from `before` to `after`.
    pub(crate) fn share(self, before: u128, after: u128) -> u32
        requires order { before ≤ after }
        requires within { after ≤ self.all }
        ensures value { result ≡ share_of self.pot self.all before after }
        ensures most { result ≤ self.pot }
    {
        (self.upto(after) - self.upto(before)) as u32
    }
}
