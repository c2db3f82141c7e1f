// A full book: as many QSEs and rows as it takes.
use anyhow::{Context, anyhow};
use book::books::OpenBook;
use drawn::draws::Draws;
use entry::load::load_row;
use entry::qse::qse_row;
use entry::resource::resource_row;
use entry::trade::trade_row;
use measure::measure::Measure;
use rows::limits::{MAX_QSES, MAX_ROWS};
use rows::load::LoadRow;
use rows::qse::QseRow;
use rows::resource::ResourceRow;
use rows::trade::TradeRow;
use std::alloc::Global;

const SEED: u64 = 20260702;

const QSES: u32 = MAX_QSES as u32;

// Loads, resources and trades for each QSE.
const ROWS_EACH: u32 = 8;

// The tables that are lent to every call: always full, so that no lengths are asked for as a journal does.
#[derive(Drop)]
pub struct Lent {
    qses: Vec<QseRow>,
    loads: Vec<LoadRow>,
    resources: Vec<ResourceRow>,
    trades: Vec<TradeRow>,
}

// Places for a full book, each held by some row until the book's own is entered.
fn places(heap: Global, draws: &mut Draws) -> anyhow::Result<Lent> {
    let qse = qse_row(draws.figures(1, ROWS_EACH)?.as_slice());
    let load = load_row(draws.load(1)?.as_slice());
    let resource = resource_row(draws.unit(1)?.as_slice());
    let trade = trade_row(draws.trade(1, 2)?.as_slice());
    Ok(Lent {
        qses: vec![in heap; qse.ok().context("the figures are refused")?; MAX_QSES]?,
        loads: vec![in heap; load.ok().context("a load is refused")?; MAX_ROWS]?,
        resources: vec![in heap; resource.ok().context("a unit is refused")?; MAX_ROWS]?,
        trades: vec![in heap; trade.ok().context("a trade is refused")?; MAX_ROWS]?,
    })
}

impl Lent {
    // One QSE more, with its figures.
    fn enrol(&mut self, book: &mut OpenBook, number: i64, list: &[i64]) -> anyhow::Result<()> {
        let (loads, resources) = (self.loads.as_slice(), self.resources.as_slice());
        let trades = self.trades.as_slice();
        let qses = self.qses.as_mut_slice();
        let enrolled = book.enrol(qses, loads, resources, trades, number);
        enrolled.ok().context("a QSE is refused")?;
        let figured = book.figures(qses, loads, resources, trades, list);
        figured.ok().context("the figures are refused")
    }

    // Each of the three lends another table for writing, and says its own words of a refusal.
    fn load(&mut self, book: &mut OpenBook, list: &[i64]) -> anyhow::Result<()> {
        let done = book.load(
            self.qses.as_slice(),
            self.loads.as_mut_slice(),
            self.resources.as_slice(),
            self.trades.as_slice(),
            list,
        );
        done.ok().context("a load is refused")
    }

    fn resource(&mut self, book: &mut OpenBook, list: &[i64]) -> anyhow::Result<()> {
        let done = book.resource(
            self.qses.as_slice(),
            self.loads.as_slice(),
            self.resources.as_mut_slice(),
            self.trades.as_slice(),
            list,
        );
        done.ok().context("a unit is refused")
    }

    fn trade(&mut self, book: &mut OpenBook, list: &[i64]) -> anyhow::Result<()> {
        let done = book.trade(
            self.qses.as_slice(),
            self.loads.as_slice(),
            self.resources.as_slice(),
            self.trades.as_mut_slice(),
            list,
        );
        done.ok().context("a trade is refused")?;
        Ok(())
    }

    // A load, a unit and a trade more for every QSE.
    fn round(&mut self, draws: &mut Draws, book: &mut OpenBook) -> anyhow::Result<()> {
        for place in 0..QSES {
            let qse = i64::from(place) + 1;
            let other = i64::from((place + 1 + draws.up_to(QSES - 2)) % QSES) + 1;
            self.load(book, draws.load(qse)?.as_slice())?;
            self.resource(book, draws.unit(qse)?.as_slice())?;
            self.trade(book, draws.trade(qse, other)?.as_slice())?;
        }
        Ok(())
    }

    // Strikes the book and opens it again; the sum of the shortfalls.
    pub(crate) fn strike<M: Measure>(
        &mut self,
        book: OpenBook,
        m: &M,
    ) -> anyhow::Result<(OpenBook, u32)> {
        let (loads, resources) = (self.loads.as_slice(), self.resources.as_slice());
        let trades = self.trades.as_slice();
        let struck = book.strike(m, self.qses.as_mut_slice(), loads, resources, trades);
        let Ok((book, total)) = struck else {
            return Err(anyhow!("the strike is refused"));
        };
        let Ok(book) = book.reopen(self.qses.as_slice(), loads, resources, trades) else {
            return Err(anyhow!("the book stays struck"));
        };
        Ok((book, total))
    }
}

pub(crate) fn drawn(heap: Global) -> anyhow::Result<(OpenBook, Lent)> {
    let mut draws = Draws::new(heap, SEED);
    let mut lent = places(heap, &mut draws)?;
    let mut book = OpenBook::open(1).ok().context("the book is refused")?;
    for place in 0..QSES {
        let qse = i64::from(place) + 1;
        lent.enrol(&mut book, qse, draws.figures(qse, ROWS_EACH)?.as_slice())?;
    }
    for _ in 0..ROWS_EACH {
        lent.round(&mut draws, &mut book)?;
    }
    Ok((book, lent))
}
