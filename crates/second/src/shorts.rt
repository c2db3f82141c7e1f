// Calls that measure: short, cover and strike.
use super::account::Side;
use super::book::{Book, Lent};
use super::calls::Answer;
use super::causes::{Cause, Causes};
use super::edition::Edition;
use super::figures::QseRow;
use super::flow::uncovered_of;
use super::limits::{MAX_TOTAL, QSE, SIDE};
use std::alloc::AllocError;

fn first_bad_of(number: i64, side: i64) -> Option<usize> {
    if !QSE.hold(number) {
        Some(1)
    } else if !SIDE.hold(side) {
        Some(2)
    } else {
        None
    }
}

impl Book {
    // The causes against a call that names a QSE alone.
    pub(crate) fn causes_of(&self, lent: Lent, number: i64) -> Causes {
        let mut causes = self.causes(lent);
        causes.note_bad(if QSE.hold(number) { None } else { Some(1) });
        causes.note(Cause::Unknown, self.place_of(number).is_none());
        causes
    }

    fn shortfall_of(&self, edition: Edition, qse: &QseRow) -> Result<i64, AllocError> {
        let snapshot = edition.value(self.heap, &self.account(qse, Side::Snapshot)?)?;
        let adjusted = edition.value(self.heap, &self.account(qse, Side::Adjusted)?)?;
        let beyond = snapshot.max(adjusted).saturating_sub(qse.figures.credit);
        Ok(beyond.max(0))
    }

    pub(crate) fn short(
        &mut self,
        lent: Lent,
        measure: usize,
        number: i64,
    ) -> Result<Answer, AllocError> {
        let Some(edition) = Edition::at(measure) else {
            return Ok(Answer::NotAllowed);
        };
        if let Some(refusal) = self.causes_of(lent, number).least() {
            return Ok(Answer::Refused(refusal));
        }
        let row = self.place_of(number).and_then(|place| self.qses.get(place));
        match row {
            Some(qse) => Ok(Answer::Number(self.shortfall_of(edition, qse)?)),
            None => Ok(Answer::NotAllowed),
        }
    }

    pub(crate) fn cover(
        &mut self,
        lent: Lent,
        number: i64,
        side: i64,
    ) -> Result<Answer, AllocError> {
        let mut causes = self.causes_of(lent, number);
        causes.note_bad(first_bad_of(number, side));
        causes.note(Cause::ShortCover, lent.covers < self.unit_count(number));
        if let Some(refusal) = causes.least() {
            return Ok(Answer::Refused(refusal));
        }
        let row = self.place_of(number).and_then(|place| self.qses.get(place));
        match row {
            Some(qse) => {
                let account = self.account(qse, Side::of(side))?;
                Ok(Answer::Number(uncovered_of(self.heap, &account)?))
            }
            None => Ok(Answer::NotAllowed),
        }
    }

    pub(crate) fn strike(&mut self, lent: Lent, measure: usize) -> Result<Answer, AllocError> {
        let Some(edition) = Edition::at(measure) else {
            return Ok(Answer::NotAllowed);
        };
        let mut total: i64 = 0;
        let mut shortfalls = Vec::new(self.heap);
        for qse in &self.qses {
            let shortfall = self.shortfall_of(edition, qse)?;
            shortfalls.push(shortfall)?;
            total = total.saturating_add(shortfall);
        }
        let mut causes = self.causes(lent);
        causes.note(Cause::TooMuch, total > MAX_TOTAL);
        if let Some(refusal) = causes.least() {
            return Ok(Answer::Refused(refusal));
        }
        for (row, shortfall) in self.qses.iter_mut().zip(shortfalls.iter()) {
            row.shortfall = *shortfall;
        }
        self.total = total;
        self.is_struck = true;
        Ok(Answer::Number(total))
    }
}
