// What trades move for the QSE of an account.
ghost use Rattle.std.specs.Prelude.{◌≡◌, ℕ, ◌<◌, ◌≤◌, slice_index};
ghost use Rattle.rows.specs.Rows.{plain_trade};
ghost use Rattle.account.specs.Own.{on_side, party_of, moved_of};
ghost use Rattle.account.specs.Account.{account_own, counts_for};

use super::account::Account;
use super::moved::Moved;
use super::party::Party;
use rows::codes::{Side, Sides};
use rows::trade::TradeRow;

fn on_side(sides: Sides, side: Side) -> bool
    ensures { result ≡ on_side side sides }
{
    match sides {
        Sides::SnapshotOnly => side == Side::Snapshot,
        Sides::AdjustedOnly => side == Side::Adjusted,
        Sides::Both => true,
    }
}

fn party_of(t: &TradeRow, party: Party) -> u16
    ensures { result ≡ party_of party (plain_trade t.now) }
{
    match party {
        Party::Seller => t.seller,
        Party::Buyer => t.buyer,
    }
}

impl Account<'_> {
    // The kW of a trade that the QSE is that party to; 0 for another's, on the other side, or void.
    fn moved_by(&self, t: &TradeRow, party: Party) -> u64
        ensures value { result ≡ counts_for party self.now t.now }
        ensures small { result ≤ 10000000 }
    {
        if t.counts && on_side(t.sides, self.side) && party_of(t, party) == self.qse {
            u64::from(t.kw)
        } else {
            0
        }
    }

    // What the QSE sold, or bought, by the number of the sub-type; capacity and energy stand at 0.
    pub fn traded(&self, party: Party) -> Moved
        ensures { (s : ℕ) → s < 10 → slice_index result.kw s ≡ moved_of party self.now.side (account_own self.now) s }
    {
        let mut sums = [0u64; 10];
        for t in self.trades {
            let kw = self.moved_by(t, party);
            // so it is with most trades, and a sum that is left alone takes no time
            if kw == 0 {
                continue;
            }
            let s = t.traded.sub_type_number();
            sums[s] += kw;
        }
        Moved { kw: sums }
    }
}
