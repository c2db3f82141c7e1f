// The rows of two QSEs, of which the second sells capacity to the first.
ghost use Rattle.cases.specs.Trade.{Enters};

use super::entered::{load, qse, trade, unit};
use super::lists::{ASK_NOTHING, LOAD, SALE, SELLER, SELLERS_3000, SELLERS_LOAD};
use rows::load::LoadRow;
use rows::qse::QseRow;
use rows::resource::ResourceRow;
use rows::trade::TradeRow;

#[derive(Clone, Copy)]
pub(crate) struct Rows {
    pub(crate) qses: [QseRow; 2],
    pub(crate) loads: [LoadRow; 2],
    pub(crate) units: [ResourceRow; 1],
    pub(crate) trades: [TradeRow; 1],
}

pub(crate) fn two_qses() -> Rows
    ensures { Enters result }
{
    Rows {
        qses: [qse(&ASK_NOTHING), qse(&SELLER)],
        loads: [load(&LOAD), load(&SELLERS_LOAD)],
        units: [unit(&SELLERS_3000)],
        trades: [trade(&SALE)],
    }
}
