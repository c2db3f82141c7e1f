// Rows to fill tables with before a book writes them.
use rows::codes::{Kind, Sides, Status, Traded};
use rows::figures::NO_FIGURES;
use rows::load::LoadRow;
use rows::qse::QseRow;
use rows::reserves::NO_RESERVES;
use rows::resource::{ResourceRow, ResourceSide};
use rows::trade::TradeRow;

// What stands past a count is nobody's: a QSE that a call may name, with cents.
pub(crate) fn blank_qse() -> QseRow {
    QseRow {
        number: 5,
        figures: NO_FIGURES,
        shortfall: 3,
        cents: 999_500_000_000,
    }
}

pub(crate) fn blank_load() -> LoadRow {
    LoadRow {
        qse: 5,
        point: 0,
        kwh: 77,
        cents: 999_500_000_000,
    }
}

pub(crate) fn blank_resource() -> ResourceRow {
    let side = ResourceSide {
        status: Status::On,
        hsl: 50,
        lsl: 0,
        potential: 0,
        offered: NO_RESERVES,
        cop: NO_RESERVES,
        qualified: NO_RESERVES,
    };
    ResourceRow {
        qse: 5,
        kind: Kind::Generation,
        outage: false,
        decommitted: None,
        snapshot: side,
        adjusted: side,
    }
}

pub(crate) fn blank_trade() -> TradeRow {
    TradeRow {
        traded: Traded::Capacity,
        sides: Sides::Both,
        seller: 5,
        buyer: 13_111,
        kw: 1,
        counts: true,
    }
}
