// The book: its rows, its numbers and the purse of claims.
use super::account::{Account, Rows, Side};
use super::calls::{Answer, Call};
use super::causes::{Cause, Causes};
use super::figures::QseRow;
use super::limits::BOOK;
use super::load::LoadRow;
use super::trade::Trade;
use super::unit::Unit;
use std::alloc::{AllocError, Global};

// How many rows the tables have that are lent to a call.
#[derive(Clone, Copy)]
pub struct Lent {
    pub qses: usize,
    pub loads: usize,
    pub resources: usize,
    pub trades: usize,
    pub covers: usize,
}

#[derive(Clone, Copy)]
pub struct Slip {
    pub book: i64,
    pub cents: i64,
    pub rate: i64,
}

#[derive(Drop)]
pub struct Book {
    pub(crate) heap: Global,
    pub(crate) number: i64,
    pub(crate) is_struck: bool,
    pub(crate) total: i64,
    pub made: i64,
    pub outstanding: i64,
    pub qses: Vec<QseRow>,
    pub loads: Vec<LoadRow>,
    pub(crate) units: Vec<Unit>,
    pub(crate) trades: Vec<Trade>,
    pub purse: Vec<Option<Slip>>,
}

// Whether a number may be a book's.
pub fn open_answer(number: i64) -> Answer {
    let mut causes = Causes::none();
    causes.note_bad(if BOOK.hold(number) { None } else { Some(1) });
    match causes.least() {
        Some(refusal) => Answer::Refused(refusal),
        None => Answer::Granted,
    }
}

impl Book {
    // An open book with a purse in which foreign claims may stand.
    pub fn new(heap: Global, number: i64, purse: Vec<Option<Slip>>) -> Book {
        Book {
            heap,
            number,
            is_struck: false,
            total: 0,
            made: 0,
            outstanding: 0,
            qses: Vec::new(heap),
            loads: Vec::new(heap),
            units: Vec::new(heap),
            trades: Vec::new(heap),
            purse,
        }
    }

    pub fn is_struck(&self) -> bool {
        self.is_struck
    }

    pub fn trade_count(&self) -> usize {
        self.trades.len()
    }

    pub fn resource_count(&self) -> usize {
        self.units.len()
    }

    pub(crate) fn unit_count(&self, number: i64) -> usize {
        self.units.iter().filter(|unit| unit.qse == number).count()
    }

    // The first place of the purse with a claim of this book's number.
    pub fn first_held(&self) -> Option<usize> {
        for (place, slip) in self.purse.iter().enumerate() {
            if slip.is_some_and(|slip| slip.book == self.number) {
                return Some(place);
            }
        }
        None
    }

    pub fn answer(&mut self, lent: Lent, call: Call) -> Result<Answer, AllocError> {
        if self.is_struck {
            self.answer_struck(lent, call)
        } else {
            self.answer_open(lent, call)
        }
    }

    fn answer_open(&mut self, lent: Lent, call: Call) -> Result<Answer, AllocError> {
        match call {
            Call::Enrol(number) => self.enrol(lent, number),
            Call::Figures(list) => Ok(self.figures(lent, list)),
            Call::Load(list) => self.load(lent, list),
            Call::Resource(list) => self.resource(lent, list),
            Call::Trade(list) => self.trade(lent, list),
            Call::Void(place) => Ok(self.void(lent, place)),
            Call::Short(measure, number) => self.short(lent, measure, number),
            Call::Cover(number, side) => self.cover(lent, number, side),
            Call::Strike(measure) => self.strike(lent, measure),
            Call::Share(_)
            | Call::Claim(_, _)
            | Call::Charge(_)
            | Call::HandBack(_)
            | Call::Reopen => Ok(Answer::NotAllowed),
        }
    }

    fn answer_struck(&mut self, lent: Lent, call: Call) -> Result<Answer, AllocError> {
        match call {
            Call::Share(number) => Ok(self.share(lent, number)),
            Call::Claim(cents, rate) => Ok(self.claim(lent, cents, rate)),
            Call::Charge(place) => self.charge(lent, place),
            Call::HandBack(place) => Ok(self.hand_back(lent, place)),
            Call::Reopen => Ok(self.reopen(lent)),
            Call::Enrol(_)
            | Call::Figures(_)
            | Call::Load(_)
            | Call::Resource(_)
            | Call::Trade(_)
            | Call::Void(_)
            | Call::Short(_, _)
            | Call::Cover(_, _)
            | Call::Strike(_) => Ok(Answer::NotAllowed),
        }
    }

    // Every call is refused where a table is shorter than its count.
    pub(crate) fn causes(&self, lent: Lent) -> Causes {
        let mut causes = Causes::none();
        causes.note(
            Cause::ShortTable,
            lent.qses < self.qses.len()
                || lent.loads < self.loads.len()
                || lent.resources < self.units.len()
                || lent.trades < self.trades.len(),
        );
        causes
    }

    pub(crate) fn place_of(&self, number: i64) -> Option<usize> {
        for (place, row) in self.qses.iter().enumerate() {
            if row.number == number {
                return Some(place);
            }
        }
        None
    }

    pub(crate) fn account(&self, qse: &QseRow, side: Side) -> Result<Account, AllocError> {
        let rows = Rows {
            loads: self.loads.as_slice(),
            units: self.units.as_slice(),
            trades: self.trades.as_slice(),
        };
        Account::of(self.heap, qse, rows, side)
    }

    // The account of a QSE by its number, if it is enrolled.
    pub fn account_of(&self, number: i64, side: i64) -> Result<Option<Account>, AllocError> {
        match self.place_of(number).and_then(|place| self.qses.get(place)) {
            Some(qse) => Ok(Some(self.account(qse, Side::of(side))?)),
            None => Ok(None),
        }
    }
}
