// One QSE with a number of units.
use account::account::{Account, Tables};
use anyhow::Context;
use drawn::draws::Draws;
use entry::qse::qse_row;
use entry::resource::resource_row;
use rows::codes::Side;
use rows::qse::QseRow;
use rows::resource::ResourceRow;
use std::alloc::Global;

const SEED: u64 = 20260701;

const QSE: i64 = 1;

#[derive(Drop)]
pub struct Fleet {
    // one row, held twice
    even: QseRow,
    odd: QseRow,
    units: Vec<ResourceRow>,
}

impl Fleet {
    pub(crate) fn drawn(heap: Global, count: u32) -> anyhow::Result<Fleet> {
        let mut draws = Draws::new(heap, SEED);
        let list = draws.figures(QSE, count)?;
        let row = qse_row(list.as_slice())
            .ok()
            .context("the figures are refused")?;
        let mut units = Vec::new(heap);
        for _ in 0..count {
            let list = draws.unit(QSE)?;
            units.push(
                resource_row(list.as_slice())
                    .ok()
                    .context("a unit is refused")?,
            )?;
        }
        Ok(Fleet {
            even: row,
            odd: row,
            units,
        })
    }

    pub(crate) fn size(&self) -> usize {
        self.units.len()
    }

    pub(crate) fn tables(&self) -> anyhow::Result<Tables> {
        Tables::new(&[], self.units.as_slice(), &[]).context("too many units")
    }

    // The account at the snapshot. Even and odd turns read the row at two places, so that no turn's work
    // is done before its time.
    pub(crate) fn account<'a>(&'a self, tables: Tables<'a>, turn: usize) -> Account<'a> {
        let row = if turn % 2 == 0 { &self.even } else { &self.odd };
        Account::new(row, Side::Snapshot, tables)
    }
}
