// The tables that are lent to the first book.
use super::blanks::{blank_load, blank_qse, blank_resource, blank_trade};
use rows::load::LoadRow;
use rows::qse::QseRow;
use rows::resource::ResourceRow;
use rows::trade::TradeRow;
use second::book::Lent;
use std::alloc::{AllocError, Global};

#[derive(Drop)]
pub struct Desk {
    pub qses: Vec<QseRow>,
    pub loads: Vec<LoadRow>,
    pub resources: Vec<ResourceRow>,
    pub trades: Vec<TradeRow>,
    pub covers: Vec<[u32; 14]>,
}

impl Desk {
    pub(crate) fn new(heap: Global, lent: Lent) -> Result<Desk, AllocError> {
        let qses = vec![in heap; blank_qse(); lent.qses]?;
        let loads = vec![in heap; blank_load(); lent.loads]?;
        let resources = vec![in heap; blank_resource(); lent.resources]?;
        let trades = vec![in heap; blank_trade(); lent.trades]?;
        let covers = vec![in heap; [7; 14]; lent.covers]?;
        Ok(Desk {
            qses,
            loads,
            resources,
            trades,
            covers,
        })
    }
}

// The first rows of a table, or all of a shorter one.
pub(crate) fn front<T>(table: &[T], length: usize) -> &[T] {
    table.get(..length).unwrap_or(table)
}

pub(crate) fn front_mut<T>(table: &mut [T], length: usize) -> &mut [T] {
    let length = length.min(table.len());
    table.split_at_mut(length).0
}
