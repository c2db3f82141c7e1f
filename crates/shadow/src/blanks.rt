// Rows to fill tables with before a book writes them.
use rows::codes::{Kind, Sides, Status, Traded};
use rows::figures::NO_FIGURES;
use rows::load::LoadRow;
use rows::qse::QseRow;
use rows::reserves::NO_RESERVES;
use rows::resource::{ResourceRow, ResourceSide};
use rows::trade::TradeRow;

pub(crate) fn blank_qse() -> QseRow {
    QseRow {
        number: 1,
        figures: NO_FIGURES,
        shortfall: 0,
        cents: 0,
    }
}

pub(crate) fn blank_load() -> LoadRow {
    LoadRow {
        qse: 1,
        point: 0,
        kwh: 0,
        cents: 0,
    }
}

pub(crate) fn blank_resource() -> ResourceRow {
    let side = ResourceSide {
        status: Status::Absent,
        hsl: 0,
        lsl: 0,
        potential: 0,
        offered: NO_RESERVES,
        cop: NO_RESERVES,
        qualified: NO_RESERVES,
    };
    ResourceRow {
        qse: 1,
        kind: Kind::Generation,
        outage: false,
        decommitted: None,
        snapshot: side,
        adjusted: side,
    }
}

pub(crate) fn blank_trade() -> TradeRow {
    TradeRow {
        traded: Traded::Capacity,
        sides: Sides::Both,
        seller: 1,
        buyer: 1,
        kw: 1,
        counts: false,
    }
}
