// The next call of a list, drawn by what stands in the book.
use super::asks::Ask;
use super::dice::Dice;
use super::lists::{figures_list, load_list, resource_list, spoil, trade_list};
use second::book::Book;
use std::alloc::{AllocError, Global};

// QSEs stand this far apart, so that the sixth has the greatest number.
const QSE_STEP: i64 = 13_106;

#[derive(Drop)]
pub(crate) struct Chooser {
    pub(crate) heap: Global,
    pub(crate) dice: Dice,
    qses: u32,
}

impl Chooser {
    pub(crate) fn new(heap: Global, seed: u64) -> Chooser {
        let mut dice = Dice::new(heap, seed);
        let qses = dice.up_to(5).saturating_add(1);
        Chooser { heap, dice, qses }
    }

    // A QSE that is probably enrolled.
    pub(crate) fn qse(&mut self) -> i64 {
        let place = self.dice.up_to(self.qses.saturating_sub(1));
        QSE_STEP.saturating_mul(i64::from(place)).saturating_add(5)
    }

    // The same, but now and then one that is not, or no number of a QSE.
    fn any_qse(&mut self) -> i64 {
        if self.dice.one_in(14) {
            return if self.dice.one_in(2) {
                self.dice.bad_number()
            } else {
                self.dice.number(1, 65_534)
            };
        }
        self.qse()
    }

    pub(crate) fn next(&mut self, step: usize, book: &Book) -> Result<Ask, AllocError> {
        if book.is_struck() {
            if self.dice.one_in(16) {
                return self.open_call(book);
            }
            return Ok(self.struck_call(book));
        }
        let qses = self.qses as usize;
        if step < qses {
            let place = i64::try_from(step).unwrap_or(0);
            return Ok(Ask::Enrol(QSE_STEP.saturating_mul(place).saturating_add(5)));
        }
        if step < qses.saturating_mul(5) {
            return self.entry();
        }
        if self.dice.one_in(32) {
            return Ok(self.struck_call(book));
        }
        self.open_call(book)
    }

    fn entry(&mut self) -> Result<Ask, AllocError> {
        let qse = self.any_qse();
        let (heap, dice) = (self.heap, &mut self.dice);
        Ok(match dice.up_to(9) {
            0..=2 => Ask::Figures(figures_list(heap, dice, qse)?),
            3 | 4 => Ask::Load(load_list(heap, dice, qse)?),
            5..=7 => Ask::Resource(resource_list(heap, dice, qse)?),
            _ => self.trade()?,
        })
    }

    fn trade(&mut self) -> Result<Ask, AllocError> {
        let seller = self.any_qse();
        let buyer = self.any_qse();
        Ok(Ask::Trade(trade_list(self.heap, &mut self.dice, seller, buyer)?))
    }

    fn spoilt_entry(&mut self) -> Result<Ask, AllocError> {
        let mut ask = self.entry()?;
        if let Ask::Figures(list)
        | Ask::Load(list)
        | Ask::Resource(list)
        | Ask::Trade(list) = &mut ask
        {
            spoil(&mut self.dice, list)?;
        }
        Ok(ask)
    }

    pub(crate) fn measure(&mut self) -> usize {
        if self.dice.one_in(30) {
            return 3;
        }
        self.dice.length(2)
    }

    pub(crate) fn open_call(&mut self, book: &Book) -> Result<Ask, AllocError> {
        let qse = self.any_qse();
        Ok(match self.dice.up_to(31) {
            0..=8 => self.entry()?,
            9..=11 => self.spoilt_entry()?,
            12 => self.trade()?,
            13 | 14 => Ask::Void(self.trade_place(book)),
            15..=19 => Ask::Short(self.measure(), qse),
            20..=26 => Ask::Cover(qse, self.side()),
            27 => Ask::Enrol(qse),
            28 => Ask::Enrol(self.dice.number(-1, 65_540)),
            _ => Ask::Strike(self.measure()),
        })
    }

    // A trade, or the place after the last.
    fn trade_place(&mut self, book: &Book) -> usize {
        let most = u32::try_from(book.trade_count()).unwrap_or(0);
        self.dice.length(most)
    }

    fn side(&mut self) -> i64 {
        if self.dice.one_in(15) {
            return self.dice.bad_number();
        }
        self.dice.number(1, 1)
    }

    fn struck_call(&mut self, book: &Book) -> Ask {
        match self.dice.up_to(15) {
            0..=3 => Ask::Share(self.any_qse()),
            4..=7 => self.claim(),
            8..=10 => Ask::Charge(self.claim_place(book)),
            11 | 12 => Ask::HandBack(self.claim_place(book)),
            _ => self.towards_reopening(book),
        }
    }

    fn towards_reopening(&mut self, book: &Book) -> Ask {
        match book.first_held() {
            Some(place) if !self.dice.one_in(4) => {
                if self.dice.one_in(2) {
                    Ask::Charge(place)
                } else {
                    Ask::HandBack(place)
                }
            }
            _ => Ask::Reopen,
        }
    }

    // A claim that is held, or any place.
    fn claim_place(&mut self, book: &Book) -> usize {
        if self.dice.one_in(40) {
            return usize::MAX;
        }
        if self.dice.one_in(2) {
            let made = u32::try_from(book.made).unwrap_or(0);
            return self.dice.length(made.saturating_add(1));
        }
        book.first_held().unwrap_or(0)
    }

    pub(crate) fn claim(&mut self) -> Ask {
        let cents = match self.dice.up_to(7) {
            0 => 1_000_000_000,
            1 => 1,
            2 => self.dice.bad_number(),
            3 => self.dice.number(999_999_999, 2),
            4 => self.dice.number(1, 30),
            _ => self.dice.number(1, 2_000_000),
        };
        let rate = match self.dice.up_to(7) {
            0 => 1_000_000,
            1 => 0,
            2 => self.dice.bad_number(),
            3 => self.dice.number(999_999, 2),
            4 => self.dice.number(1, 30),
            _ => self.dice.number(1, 200_000),
        };
        Ask::Claim(cents, rate)
    }
}
