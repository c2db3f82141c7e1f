// The account of a QSE on a side.
use super::figures::{Figures, FiguresSide, QseRow};
use super::line::Line;
use super::load::LoadRow;
use super::reserves::{Amounts, RESERVES};
use super::trade::Trade;
use super::unit::Unit;
use std::alloc::{AllocError, Global};

#[derive(Clone, Copy, PartialEq, Eq)]
pub enum Side {
    Snapshot,
    Adjusted,
}

impl Side {
    pub(crate) fn of(number: i64) -> Side {
        if number == 1 {
            Side::Snapshot
        } else {
            Side::Adjusted
        }
    }
}

#[derive(Drop)]
pub struct Account {
    pub(crate) load: i64,
    pub(crate) net: i64,
    pub(crate) storage_net: i64,
    // as they count, none below zero
    pub(crate) positions: Amounts,
    pub(crate) lines: Vec<Line>,
}

// The rows of which accounts are made.
#[derive(Clone, Copy)]
pub(crate) struct Rows<'a> {
    pub(crate) loads: &'a [LoadRow],
    pub(crate) units: &'a [Unit],
    pub(crate) trades: &'a [Trade],
}

impl Account {
    pub(crate) fn of(
        heap: Global,
        qse: &QseRow,
        rows: Rows,
        side: Side,
    ) -> Result<Account, AllocError> {
        let own = side_of(&qse.figures, side);
        Ok(Account {
            load: load_of(qse.number, rows.loads),
            net: net_of(qse, rows.trades, side),
            storage_net: own.storage_net,
            positions: positions_of(qse.number, own, rows.trades, side),
            lines: lines_of(heap, qse.number, rows.units, side)?,
        })
    }
}

fn side_of(figures: &Figures, side: Side) -> &FiguresSide {
    match side {
        Side::Snapshot => &figures.snapshot,
        Side::Adjusted => &figures.adjusted,
    }
}

fn load_of(number: i64, loads: &[LoadRow]) -> i64 {
    let mut sum: i64 = 0;
    for row in loads {
        if row.qse == number {
            sum = sum.saturating_add(row.kwh);
        }
    }
    sum
}

fn net_of(qse: &QseRow, trades: &[Trade], side: Side) -> i64 {
    let figures = &qse.figures;
    let import = if figures.is_tied {
        figures.snapshot.import
    } else {
        side_of(figures, side).import
    };
    let day_ahead = figures.purchase.saturating_sub(figures.sale);
    let mut net = day_ahead.saturating_add(import);
    for trade in trades {
        if trade.reserve.is_none() && trade.counts_on(side) {
            if trade.buyer == qse.number {
                net = net.saturating_add(trade.kw);
            }
            if trade.seller == qse.number {
                net = net.saturating_sub(trade.kw);
            }
        }
    }
    net
}

fn positions_of(number: i64, own: &FiguresSide, trades: &[Trade], side: Side) -> Amounts {
    let mut positions = own.positions;
    for trade in trades {
        if let Some(reserve) = trade.reserve {
            if trade.counts_on(side) && trade.seller == number {
                positions.add(reserve, trade.kw);
            }
            if trade.counts_on(side) && trade.buyer == number {
                positions.add(reserve, trade.kw.saturating_neg());
            }
        }
    }
    let mut counted = Amounts::zero();
    for reserve in RESERVES {
        counted.set(reserve, positions.of(reserve).max(0));
    }
    counted
}

fn lines_of(
    heap: Global,
    number: i64,
    units: &[Unit],
    side: Side,
) -> Result<Vec<Line>, AllocError> {
    let mut lines = Vec::new(heap);
    for unit in units {
        if unit.qse == number {
            lines.push(Line::of(unit, side))?;
        }
    }
    Ok(lines)
}
