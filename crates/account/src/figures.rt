// The figures of an account: load, net, storage net and positions.
ghost use Rattle.std.specs.Prelude.{◌≡◌, ℕ, ◌+◌, ◌<◌, ◌≤◌, length, ℤ, pos, negsuc, ◌+ℤ◌, ◌-ℤ◌, ◌≤ℤ◌, slice_index, slice_index_or, sum_by};
ghost use Rattle.rows.specs.Limits.{max_rows};
ghost use Rattle.rows.specs.Rows.{plain_figures, plain_figures_side};
ghost use Rattle.account.specs.Own.{figures_on, import_side};
ghost use Rattle.account.specs.Account.{account_view, load_in, Stands};

use super::account::Account;
use super::moved::Moved;
use super::party::Party;
use super::standing::Standing;
use rows::codes::Side;
use rows::figures::{Figures, FiguresSide};
use rows::load::LoadRow;
use rows::reserves::Reserves;
use std::array;

// A pick by side, as `side_of` in plan.rt; both would still be here over a generic one, which says no more than a match.
fn figures_on(figures: &Figures, side: Side) -> &FiguresSide
    ensures { plain_figures_side result.now ≡ figures_on side (plain_figures figures.now) }
{
    match side {
        Side::Snapshot => &figures.snapshot,
        Side::Adjusted => &figures.adjusted,
    }
}

// The side whose import counts.
fn import_side(figures: &Figures, side: Side) -> Side
    ensures { result ≡ import_side side (plain_figures figures.now) }
{
    if figures.tie { Side::Snapshot } else { side }
}

// The kWh of a load that is the QSE's; 0 for another's.
fn load_in(l: &LoadRow, qse: u16) -> u64
    ensures value { result ≡ load_in qse l.now }
    ensures small { result ≤ 1000000 }
{
    if l.qse == qse { u64::from(l.kwh) } else { 0 }
}

fn loads_of(rows: &[LoadRow], qse: u16) -> u64
    requires { length rows.now ≤ max_rows }
    ensures { result ≡ sum_by (load_in qse) rows.now }
{
    rows.iter().map(|l| load_in(l, qse)).sum()
}

// Purchase less sale, bought less sold, and the import.
fn balance(figures: &Figures, bought: &Moved, sold: &Moved, import: &FiguresSide) -> i64
    ensures near { (negsuc 5129999999 ≤ℤ result) × (result ≤ℤ pos 5140000000) }
    ensures value { result ≡ pos figures.now.purchase -ℤ pos figures.now.sale +ℤ pos (slice_index bought.now.kw 0) -ℤ pos (slice_index sold.now.kw 0) +ℤ pos import.now.dc_import }
{
    let plus = u64::from(figures.purchase) + bought.kw[0] + u64::from(import.dc_import);
    let minus = u64::from(figures.sale) + sold.kw[0];
    plus as i64 - minus as i64
}

// Entered, with what was sold and without what was bought.
fn position(entered: u32, sold: u64, bought: u64) -> i64
    requires { (entered ≤ 10000000) × ((sold ≤ 5120000000) × (bought ≤ 5120000000)) }
    ensures value { result ≡ pos entered +ℤ pos sold -ℤ pos bought }
    ensures low { result ≤ℤ pos 5130000000 }
{
    i64::from(entered) + sold as i64 - bought as i64
}

// The nine positions; what is traded stands by the number of the sub-type, one beyond its place.
fn positions(entered: &Reserves, sold: &Moved, bought: &Moved) -> [i64; 9]
    ensures each { (k : ℕ) → k < 9 → slice_index_or result k (pos 0) ≡ pos (slice_index entered.now.kw k) +ℤ pos (slice_index sold.now.kw (k + 1)) -ℤ pos (slice_index bought.now.kw (k + 1)) }
    ensures low { (k : ℕ) → slice_index_or result k (pos 0) ≤ℤ pos 5130000000 }
{
    array::from_fn(|k| position(entered.kw[k], sold.kw[k + 1], bought.kw[k + 1]))
}

impl Account<'_> {
    pub fn load(&self) -> u64
        ensures value { result ≡ (account_view self.now).load }
        ensures small { result ≤ 512000000 }
    {
        loads_of(self.loads, self.qse)
    }

    // Load, net, storage net and positions, after one look at the trades for each party.
    pub fn standing(&self) -> Standing
        ensures { Stands self.now result }
    {
        let figures = self.figures;
        let own = figures_on(figures, self.side);
        let sold = self.traded(Party::Seller);
        let bought = self.traded(Party::Buyer);
        let import = figures_on(figures, import_side(figures, self.side));
        Standing {
            load: self.load(),
            net: balance(figures, &bought, &sold, import),
            storage_net: i64::from(own.storage_net),
            positions: positions(&own.positions, &sold, &bought),
        }
    }
}
