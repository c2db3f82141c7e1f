// The tables that are lent to the book.
use super::blanks::{blank_load, blank_qse, blank_resource, blank_trade};
use super::lengths::Lengths;
use rows::load::LoadRow;
use rows::qse::QseRow;
use rows::resource::ResourceRow;
use rows::trade::TradeRow;
use std::alloc::{AllocError, Global};

#[derive(Drop)]
pub struct Desk {
    pub qses: Vec<QseRow>,
    pub loads: Vec<LoadRow>,
    pub resources: Vec<ResourceRow>,
    pub trades: Vec<TradeRow>,
    pub covers: Vec<[u32; 14]>,
}

impl Desk {
    pub(crate) fn new(heap: Global, lengths: Lengths) -> Result<Desk, AllocError> {
        let qses = vec![in heap; blank_qse(); lengths.qses]?;
        let loads = vec![in heap; blank_load(); lengths.loads]?;
        let resources = vec![in heap; blank_resource(); lengths.resources]?;
        let trades = vec![in heap; blank_trade(); lengths.trades]?;
        let covers = vec![in heap; [0; 14]; lengths.covers]?;
        Ok(Desk {
            qses,
            loads,
            resources,
            trades,
            covers,
        })
    }
}
