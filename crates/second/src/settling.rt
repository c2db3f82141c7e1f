// Calls on a struck book.
use super::book::{Book, Lent, Slip};
use super::calls::Answer;
use super::causes::{Cause, Causes};
use super::cents::{share, sum_of};
use super::limits::{CLAIMED_CENTS, MAX_CENTS_BEFORE_CHARGE, MAX_CLAIMS, RATE};
use std::alloc::AllocError;

fn first_bad_of(cents: i64, rate: i64) -> Option<usize> {
    if !CLAIMED_CENTS.hold(cents) {
        Some(1)
    } else if !RATE.hold(rate) {
        Some(2)
    } else {
        None
    }
}

// What the short QSEs pay of a claim.
fn pot_of(slip: Slip, total: i64) -> i64 {
    let most = slip.rate.saturating_mul(total).div_euclid(1000);
    slip.cents.min(most)
}

impl Book {
    pub(crate) fn share(&self, lent: Lent, number: i64) -> Answer {
        if let Some(refusal) = self.causes_of(lent, number).least() {
            return Answer::Refused(refusal);
        }
        if self.total == 0 {
            return Answer::NobodyShort;
        }
        match self.place_of(number).and_then(|place| self.qses.get(place)) {
            Some(row) => Answer::Numbers(row.shortfall, self.total),
            None => Answer::NotAllowed,
        }
    }

    pub(crate) fn claim(&mut self, lent: Lent, cents: i64, rate: i64) -> Answer {
        let made = usize::try_from(self.made).unwrap_or(usize::MAX);
        if !matches!(self.purse.get(made), Some(None)) {
            return Answer::NotAllowed;
        }
        let mut causes = self.causes(lent);
        causes.note_bad(first_bad_of(cents, rate));
        causes.note(Cause::NoMoreClaims, self.made >= MAX_CLAIMS);
        if let Some(refusal) = causes.least() {
            return Answer::Refused(refusal);
        }
        if let Some(place) = self.purse.get_mut(made) {
            *place = Some(Slip {
                book: self.number,
                cents,
                rate,
            });
        }
        let answer = Answer::Number(self.made);
        self.made = self.made.saturating_add(1);
        self.outstanding = self.outstanding.saturating_add(1);
        answer
    }

    fn slip_at(&self, place: usize) -> Option<Slip> {
        self.purse.get(place).copied().flatten()
    }

    fn spend(&mut self, place: usize) {
        if let Some(slip) = self.purse.get_mut(place) {
            *slip = None;
        }
        self.outstanding = self.outstanding.saturating_sub(1);
    }

    fn causes_against(&self, lent: Lent, slip: Slip) -> Causes {
        let mut causes = self.causes(lent);
        causes.note(
            Cause::NotOurs,
            slip.book != self.number || self.outstanding == 0,
        );
        causes
    }

    pub(crate) fn hand_back(&mut self, lent: Lent, place: usize) -> Answer {
        let Some(slip) = self.slip_at(place) else {
            return Answer::NotAllowed;
        };
        if let Some(refusal) = self.causes_against(lent, slip).least() {
            return Answer::Refused(refusal);
        }
        self.spend(place);
        Answer::Granted
    }

    pub(crate) fn reopen(&mut self, lent: Lent) -> Answer {
        let mut causes = self.causes(lent);
        causes.note(Cause::Outstanding, self.outstanding > 0);
        if let Some(refusal) = causes.least() {
            return Answer::Refused(refusal);
        }
        self.is_struck = false;
        Answer::Granted
    }

    pub(crate) fn charge(&mut self, lent: Lent, place: usize) -> Result<Answer, AllocError> {
        let Some(slip) = self.slip_at(place) else {
            return Ok(Answer::NotAllowed);
        };
        let shortfalls: Vec<i64> = self
            .qses
            .iter()
            .map(|row| row.shortfall)
            .collect(self.heap)?;
        let kwh: Vec<i64> = self.loads.iter().map(|row| row.kwh).collect(self.heap)?;
        let pot = pot_of(slip, self.total);
        let rest = slip.cents.saturating_sub(pot);
        let mut causes = self.causes_against(lent, slip);
        causes.note(
            Cause::ShortTable,
            sum_of(shortfalls.as_slice()) != self.total || self.has_rich_row(),
        );
        causes.note(Cause::NoLoad, rest > 0 && sum_of(kwh.as_slice()) == 0);
        if let Some(refusal) = causes.least() {
            return Ok(Answer::Refused(refusal));
        }
        self.pay(pot, shortfalls.as_slice(), rest, kwh.as_slice());
        self.spend(place);
        Ok(Answer::Numbers(pot, rest))
    }

    fn has_rich_row(&self) -> bool {
        let rich_qse = self
            .qses
            .iter()
            .any(|row| row.cents > MAX_CENTS_BEFORE_CHARGE);
        let rich_load = self
            .loads
            .iter()
            .any(|row| row.cents > MAX_CENTS_BEFORE_CHARGE);
        rich_qse || rich_load
    }

    fn pay(&mut self, pot: i64, shortfalls: &[i64], rest: i64, kwh: &[i64]) {
        for (place, row) in self.qses.iter_mut().enumerate() {
            row.cents = row.cents.saturating_add(share(pot, shortfalls, place));
        }
        for (place, row) in self.loads.iter_mut().enumerate() {
            row.cents = row.cents.saturating_add(share(rest, kwh, place));
        }
    }
}
