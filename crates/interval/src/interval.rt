// The rows of one interval, lent for reading.
use super::desk::Desk;
use account::account::Tables;
use rows::qse::QseRow;

#[derive(Clone, Copy)]
pub(crate) struct Interval<'a> {
    pub(crate) qses: &'a [QseRow],
    // the rows of all QSEs
    pub(crate) tables: Tables<'a>,
}

impl<'a> Interval<'a> {
    pub(crate) fn of(desk: &'a Desk) -> Option<Interval<'a>> {
        let tables = Tables::new(
            desk.loads.as_slice(),
            desk.resources.as_slice(),
            desk.trades.as_slice(),
        )?;
        Some(Interval {
            qses: desk.qses.as_slice(),
            tables,
        })
    }
}
