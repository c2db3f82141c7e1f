// Calls that enter rows.
use super::book::{Book, Lent};
use super::calls::Answer;
use super::causes::{Cause, Causes};
use super::figures::{FIGURES, Figures, QseRow};
use super::limits::{MAX_QSES, MAX_ROWS, QSE, at, first_bad};
use super::load::{LOAD_NUMBERS, LoadRow};
use super::trade::{TRADE_NUMBERS, Trade};
use super::unit::{UNIT_NUMBERS, Unit};
use super::{figures, load, trade, unit};
use std::alloc::AllocError;

// A table longer than the limit does not raise it.
fn is_full(count: usize, lent: usize, limit: usize) -> bool {
    count >= lent.min(limit)
}

impl Book {
    pub(crate) fn enrol(&mut self, lent: Lent, number: i64) -> Result<Answer, AllocError> {
        let mut causes = self.causes(lent);
        causes.note_bad(if QSE.hold(number) { None } else { Some(1) });
        causes.note(Cause::Enrolled, self.place_of(number).is_some());
        causes.note(
            Cause::NoPlace,
            is_full(self.qses.len(), lent.qses, MAX_QSES),
        );
        if let Some(refusal) = causes.least() {
            return Ok(Answer::Refused(refusal));
        }
        self.qses.push(QseRow::enrolled(number))?;
        Ok(Answer::Granted)
    }

    pub(crate) fn figures(&mut self, lent: Lent, list: &[i64]) -> Answer {
        let mut causes = self.causes(lent);
        causes.note(Cause::WrongLength, list.len() != FIGURES);
        causes.note_bad(first_bad(list, FIGURES, figures::is_good));
        self.note_unknown(&mut causes, at(list, 1));
        if let Some(refusal) = causes.least() {
            return Answer::Refused(refusal);
        }
        let place = self.place_of(at(list, 1));
        if let Some(row) = place.and_then(|place| self.qses.get_mut(place)) {
            row.figures = Figures::read(list);
        }
        Answer::Granted
    }

    pub(crate) fn load(&mut self, lent: Lent, list: &[i64]) -> Result<Answer, AllocError> {
        let mut causes = self.causes(lent);
        causes.note(Cause::WrongLength, list.len() != LOAD_NUMBERS);
        causes.note_bad(first_bad(list, LOAD_NUMBERS, load::is_good));
        self.note_unknown(&mut causes, at(list, 1));
        causes.note(
            Cause::NoPlace,
            is_full(self.loads.len(), lent.loads, MAX_ROWS),
        );
        if let Some(refusal) = causes.least() {
            return Ok(Answer::Refused(refusal));
        }
        self.loads.push(LoadRow::read(list))?;
        Ok(Answer::Granted)
    }

    pub(crate) fn resource(&mut self, lent: Lent, list: &[i64]) -> Result<Answer, AllocError> {
        let mut causes = self.causes(lent);
        causes.note(Cause::WrongLength, list.len() != UNIT_NUMBERS);
        causes.note_bad(first_bad(list, UNIT_NUMBERS, unit::is_good));
        self.note_unknown(&mut causes, at(list, 1));
        causes.note(
            Cause::NoPlace,
            is_full(self.units.len(), lent.resources, MAX_ROWS),
        );
        if let Some(refusal) = causes.least() {
            return Ok(Answer::Refused(refusal));
        }
        self.units.push(Unit::read(list))?;
        Ok(Answer::Granted)
    }

    pub(crate) fn trade(&mut self, lent: Lent, list: &[i64]) -> Result<Answer, AllocError> {
        let (seller, buyer) = (at(list, 4), at(list, 5));
        let mut causes = self.causes(lent);
        causes.note(Cause::WrongLength, list.len() != TRADE_NUMBERS);
        causes.note_bad(first_bad(list, TRADE_NUMBERS, trade::is_good));
        self.note_unknown(&mut causes, seller);
        self.note_unknown(&mut causes, buyer);
        causes.note(Cause::SoldToItself, seller == buyer);
        causes.note(
            Cause::NoPlace,
            is_full(self.trades.len(), lent.trades, MAX_ROWS),
        );
        if let Some(refusal) = causes.least() {
            return Ok(Answer::Refused(refusal));
        }
        let place = self.trades.len();
        self.trades.push(Trade::read(list))?;
        Ok(Answer::Number(i64::try_from(place).unwrap_or(-1)))
    }

    pub(crate) fn void(&mut self, lent: Lent, place: usize) -> Answer {
        let mut causes = self.causes(lent);
        let counts = self.trades.get(place).is_some_and(|trade| !trade.is_void);
        causes.note(Cause::NoTrade, !counts);
        if let Some(refusal) = causes.least() {
            return Answer::Refused(refusal);
        }
        if let Some(trade) = self.trades.get_mut(place) {
            trade.is_void = true;
        }
        Answer::Granted
    }

    fn note_unknown(&self, causes: &mut Causes, number: i64) {
        causes.note(Cause::Unknown, self.place_of(number).is_none());
    }
}
