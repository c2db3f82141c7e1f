// The row of a trade.
ghost use Rattle.rows.specs.Rows.{plain_trade};
ghost use Rattle.entry.specs.Keeps.{Entered};
ghost use Rattle.entry.specs.Numbers.{trade_numbers, Counting};

use super::checks::check;
use super::codes::{sides_of, traded_of};
use super::form::Form;
use rows::fault::Fault;
use rows::trade::TradeRow;

// A new trade counts.
pub fn trade_row(list: &[i64]) -> Result<TradeRow, Fault>
    ensures entered { Entered Form.Trade (λ t. trade_numbers (plain_trade t)) list.now result }
    ensures counting { Counting result }
{
    check(Form::Trade, list)?;
    let [kind, sub, sides, seller, buyer, kw] = list else {
        return Err(Fault::WrongLength);
    };
    Ok(TradeRow {
        traded: traded_of(*kind, *sub),
        sides: sides_of(*sides),
        seller: *seller as u16,
        buyer: *buyer as u16,
        kw: *kw as u32,
        counts: true,
    })
}
