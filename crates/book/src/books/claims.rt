// Claims made and handed back.
ghost use Rattle.std.specs.Prelude.{◌≡◌, Decides};
ghost use Rattle.book.specs.State.{state_of, struck_book};
ghost use Rattle.book.specs.Claims.{Claims, HandsBack};
ghost use Rattle.book.specs.Causes.{Foreign};

use super::super::judge::is_broken;
use super::{Claim, StruckBook};
use entry::checks::is_within;
use rows::fault::Fault;
use rows::limits::{MAX_CLAIMS, MAX_COST, MAX_RATE};
use rows::load::LoadRow;
use rows::qse::QseRow;
use rows::resource::ResourceRow;
use rows::trade::TradeRow;

// Whether the claim is another book's, or none of this book's is outstanding.
pub(super) fn is_foreign(claim: &Claim, book: &StruckBook) -> bool
    ensures { Decides result (Foreign claim.now.book book.now.ledger.number book.now.ledger.outstanding) }
{
    claim.book != book.ledger.number || book.ledger.outstanding == 0
}

impl StruckBook {
    // A claim to charge these cents, at a rate in cents per MW.
    pub fn claim(
        &mut self,
        qses: &[QseRow],
        loads: &[LoadRow],
        resources: &[ResourceRow],
        trades: &[TradeRow],
        cents: i64,
        rate: i64,
    ) -> Result<Claim, Fault>
        ensures { Claims cents rate (state_of (struck_book self.old) qses.now loads.now resources.now trades.now) (state_of (struck_book self.new) qses.now loads.now resources.now trades.now) result }
    {
        if is_broken(self.ledger.counts, qses, loads, resources, trades) {
            return Err(Fault::BrokenTable);
        }
        if !is_within(cents, 1, MAX_COST as i64) {
            return Err(Fault::OutOfLimits { place: 1 });
        }
        if !is_within(rate, 0, MAX_RATE as i64) {
            return Err(Fault::OutOfLimits { place: 2 });
        }
        if self.ledger.made >= MAX_CLAIMS {
            return Err(Fault::ClaimsUsedUp);
        }
        self.ledger.made += 1;
        self.ledger.outstanding += 1;
        Ok(Claim {
            book: self.ledger.number,
            cents: cents as u32,
            rate: rate as u32,
            spent: false,
        })
    }

    // The claim is taken back and spent, or returned as it was.
    pub fn hand_back(
        &mut self,
        qses: &[QseRow],
        loads: &[LoadRow],
        resources: &[ResourceRow],
        trades: &[TradeRow],
        mut claim: Claim,
    ) -> Result<(), (Claim, Fault)>
        ensures { HandsBack claim (state_of (struck_book self.old) qses.now loads.now resources.now trades.now) (state_of (struck_book self.new) qses.now loads.now resources.now trades.now) result }
    {
        if is_broken(self.ledger.counts, qses, loads, resources, trades) {
            return Err((claim, Fault::BrokenTable));
        }
        if is_foreign(&claim, self) {
            return Err((claim, Fault::ForeignClaim));
        }
        claim.spent = true;
        self.ledger.outstanding -= 1;
        Ok(())
    }
}
