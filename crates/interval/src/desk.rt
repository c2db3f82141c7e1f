// The rows of one interval as they are entered.
ghost use Rattle.std.specs.Prelude.{◌≤◌, length};

use super::refusal::Refusal;
use entry::load::load_row;
use entry::qse::qse_row;
use entry::resource::resource_row;
use entry::trade::trade_row;
use rows::fault::Fault;
use rows::limits::{MAX_COST, MAX_QSES, MAX_ROWS};
use rows::load::LoadRow;
use rows::qse::QseRow;
use rows::resource::ResourceRow;
use rows::trade::TradeRow;
use std::alloc::Global;

// Its tables grow as rows are entered; those of `shadow` have their lengths from the start.
#[derive(Drop)]
pub struct Desk {
    pub qses: Vec<QseRow>,
    pub loads: Vec<LoadRow>,
    pub resources: Vec<ResourceRow>,
    pub trades: Vec<TradeRow>,
    pub cost: Option<u32>,
}

// A row more, unless the table has its most.
fn append<T: Drop>(table: &mut Vec<T>, most: usize, row: T) -> Result<(), Refusal>
    ensures { length table.old.items ≤ most → length table.new.items ≤ most }
{
    if table.len() >= most {
        return Err(Refusal::Fault(Fault::NoPlace));
    }
    table.push(row)?;
    Ok(())
}

impl Desk {
    pub(crate) fn new(heap: Global) -> Desk {
        Desk {
            qses: Vec::new(heap),
            loads: Vec::new(heap),
            resources: Vec::new(heap),
            trades: Vec::new(heap),
            cost: None,
        }
    }

    fn known(&self, qse: u16) -> Result<(), Fault> {
        if self.qses.iter().any(|q| q.number == qse) {
            Ok(())
        } else {
            Err(Fault::NotEnrolled)
        }
    }

    // The figures of a new QSE, or in place of its old ones.
    pub(crate) fn figures(&mut self, list: &[i64]) -> Result<(), Refusal> {
        let row = qse_row(list)?;
        if let Some(q) = self.qses.iter_mut().find(|q| q.number == row.number) {
            q.figures = row.figures;
            return Ok(());
        }
        append(&mut self.qses, MAX_QSES, row)
    }

    // Loads and resources go the same way; a common one would be handed the row, the table and the QSE.
    pub(crate) fn load(&mut self, list: &[i64]) -> Result<(), Refusal> {
        let row = load_row(list)?;
        self.known(row.qse)?;
        append(&mut self.loads, MAX_ROWS, row)
    }

    pub(crate) fn resource(&mut self, list: &[i64]) -> Result<(), Refusal> {
        let row = resource_row(list)?;
        self.known(row.qse)?;
        append(&mut self.resources, MAX_ROWS, row)
    }

    pub(crate) fn trade(&mut self, list: &[i64]) -> Result<(), Refusal> {
        let row = trade_row(list)?;
        self.known(row.seller)?;
        self.known(row.buyer)?;
        if row.seller == row.buyer {
            return Err(Refusal::Fault(Fault::BuyerIsSeller));
        }
        append(&mut self.trades, MAX_ROWS, row)
    }

    // The cost to divide, in cents; a later one takes its place.
    pub(crate) fn set_cost(&mut self, list: &[i64]) -> Result<(), Refusal> {
        let [cents] = list else {
            return Err(Refusal::Fault(Fault::WrongLength));
        };
        let cost = u32::try_from(*cents)
            .ok()
            .filter(|cost| 1 <= *cost && *cost <= MAX_COST);
        self.cost = Some(cost.ok_or(Fault::OutOfLimits { place: 1 })?);
        Ok(())
    }
}
