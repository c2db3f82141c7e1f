// Claims in a purse: a table of places, each free or with a claim.
ghost use Rattle.std.specs.Prelude.{◌≡◌, ℕ, ◌<◌, length, Some, None, Decides, slice_index_or, slice_set};
ghost use Rattle.replay.specs.Runs.{Free};

use book::books::Claim;

// The claim at a place, taken out.
pub(crate) fn take_claim(purse: &mut [Option<Claim>], place: usize) -> Option<Claim>
    ensures value { result ≡ slice_index_or purse.old place None }
    ensures after { purse.new ≡ slice_set purse.old place None }
{
    if place < purse.len() {
        purse[place].take()
    } else {
        None
    }
}

// Puts a claim into a free place.
pub(crate) fn put_claim(purse: &mut [Option<Claim>], place: usize, claim: Claim)
    requires within { place < length purse.old }
    requires free { slice_index_or purse.old place None ≡ None }
    ensures { purse.new ≡ slice_set purse.old place (Some claim) }
{
    match purse[place].replace(claim) {
        None => {}
        Some(_) => unreachable(),
    }
}

// Whether a place is there and free.
pub(crate) fn is_free(purse: &[Option<Claim>], place: usize) -> bool
    ensures { Decides result (Free purse.now place) }
{
    matches!(purse.get(place), Some(None))
}
