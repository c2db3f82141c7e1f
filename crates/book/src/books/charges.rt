// Claims charged to the rows.
ghost use Rattle.std.specs.Prelude.{◌≡◌, ℕ, ◌<◌, ◌≤◌, map, length, take, drop, Decides, sum_by};
ghost use Rattle.std.specs.List.{AllByRecursion};
ghost use Rattle.rows.specs.Rows.{plain_qse, plain_load};
ghost use Rattle.division.specs.Division.{HasRoom, Divided};
ghost use Rattle.book.specs.State.{state_of, struck_book};
ghost use Rattle.book.specs.Charging.{pot_of, Fit, Charges};

use super::super::judge::is_broken;
use super::claims::is_foreign;
use super::{Claim, StruckBook};
use division::division::{divide, sum_of_weights};
use division::weighed::Weighed;
use rows::fault::Fault;
use rows::load::LoadRow;
use rows::qse::QseRow;
use rows::resource::ResourceRow;
use rows::trade::TradeRow;

// A row with no more cents than these can take any claim.
const LOW_CENTS: u64 = 999_000_000_000;

// The part of the claim that short QSEs pay: the total is in kW, the rate in cents per MW.
fn pot_of(claim: &Claim, total: u32) -> u32
    ensures value { result ≡ pot_of claim.now total }
    ensures most { result ≤ claim.now.cents }
{
    let most = u64::from(claim.rate) * u64::from(total) / 1000;
    most.min(u64::from(claim.cents)) as u32
}

// Whether each row can take any claim.
fn all_low<T: Weighed>(rows: &[T]) -> bool
    ensures { Decides result (AllByRecursion (λ x. T.holds x ≤ 999000000000) rows.now) }
{
    rows.iter().all(|row| row.cents() <= LOW_CENTS)
}

// Whether the rows are as a strike left them: a table may have been changed between calls.
fn is_fit(total: u32, qses: &[QseRow], loads: &[LoadRow]) -> bool
    ensures { Decides result (Fit total (map plain_qse qses.now) (map plain_load loads.now)) }
{
    if sum_of_weights(qses) != u128::from(total) {
        return false;
    }
    all_low(qses) && all_low(loads)
}

// Whether cents remain that no load takes.
fn lacks_load(rest: u32, loads: &[LoadRow]) -> bool
    ensures { Decides result ((0 < rest) × (sum_by (λ l. l.kwh) (map plain_load loads.now) ≡ 0)) }
{
    rest > 0 && sum_of_weights(loads) == 0
}

// Puts the whole pot on the first `count` rows. The division refuses nothing: each row has room.
fn pay<T: Weighed>(rows: &mut [T], count: usize, pot: u32)
    requires within { count ≤ length rows.old }
    requires room { HasRoom T.holds pot (take count rows.old) }
    requires some { sum_by T.weighs (take count rows.old) ≡ 0 → pot ≡ 0 }
    ensures divided { Divided T.weighs T.holds T.paid pot (take count rows.old) (take count rows.new) pot }
    ensures later { drop count rows.new ≡ drop count rows.old }
{
    let _given = divide(&mut rows[0..count], pot);
}

impl StruckBook {
    // The claim is spent on the rows, or returned as it was; the pot, and the rest.
    pub fn charge(
        &mut self,
        qses: &mut [QseRow],
        loads: &mut [LoadRow],
        resources: &[ResourceRow],
        trades: &[TradeRow],
        mut claim: Claim,
    ) -> Result<(u32, u32), (Claim, Fault)>
        ensures { Charges claim (state_of (struck_book self.old) qses.old loads.old resources.now trades.now) (state_of (struck_book self.new) qses.new loads.new resources.now trades.now) result }
    {
        if is_broken(self.ledger.counts, qses, loads, resources, trades) {
            return Err((claim, Fault::BrokenTable));
        }
        let q = self.ledger.counts.qses;
        let l = self.ledger.counts.loads;
        if !is_fit(self.total, &qses[0..q], &loads[0..l]) {
            return Err((claim, Fault::BrokenTable));
        }
        if is_foreign(&claim, self) {
            return Err((claim, Fault::ForeignClaim));
        }
        let pot = pot_of(&claim, self.total);
        let rest = claim.cents - pot;
        if lacks_load(rest, &loads[0..l]) {
            return Err((claim, Fault::NoLoad));
        }
        claim.spent = true;
        self.ledger.outstanding -= 1;
        pay(qses, q, pot);
        pay(loads, l, rest);
        Ok((pot, rest))
    }
}
