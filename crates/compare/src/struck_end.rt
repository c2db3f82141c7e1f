// A struck book after its list: none of its own claims is left.
ghost use Rattle.std.specs.Prelude.{◌≡◌, ℕ, ◌<◌};

use super::desk::{Desk, front};
use super::ends::cut;
use super::stranger::{Stranger, slip_of};
use super::tally::Tally;
use book::books::StruckBook;
use replay::calls::Answer as FirstAnswer;
use rows::load::LoadRow;
use rows::qse::QseRow;
use rows::resource::ResourceRow;
use rows::trade::TradeRow;
use second::book::{Book, Lent};
use second::calls::{Answer as SecondAnswer, Call};
use std::alloc::{AllocError, Global};

const MAX_CENTS: u64 = 1_000_000_000_000;

// The most cents of a row at a charge, one more, and none again.
const CENTS: [u64; 3] = [999_000_000_000, 999_000_000_001, 0];

#[derive(Drop)]
pub(crate) struct StruckEnd {
    pub(crate) heap: Global,
    pub(crate) seed: u64,
    pub(crate) struck: StruckBook,
    pub(crate) desk: Desk,
    pub(crate) second: Book,
    pub(crate) lent: Lent,
}

impl StruckEnd {
    pub(crate) fn compare(self, qse: i64, tally: &mut Tally) -> Result<(), AllocError> {
        let mut end = self;
        let lent = end.lent;
        end.give_back(tally)?;
        end.ask_strangers(lent, tally)?;
        for table in 0..4 {
            if let Some(cut) = cut(lent, &end.second, table) {
                end.ask_strangers(cut, tally)?;
                end.ask_cut(cut, qse, tally)?;
            }
        }
        end.charge_rich(tally)?;
        end.reopen(tally)
    }

    // With a cut table, so that the book stays struck; no call comes after it.
    fn reopen(self, tally: &mut Tally) -> Result<(), AllocError> {
        let StruckEnd {
            heap: _,
            seed,
            struck,
            desk,
            mut second,
            lent,
        } = self;
        let Some(cut) = cut(lent, &second, 0) else {
            return Ok(());
        };
        let answer = match struck.reopen(
            front(desk.qses.as_slice(), cut.qses),
            front(desk.loads.as_slice(), cut.loads),
            front(desk.resources.as_slice(), cut.resources),
            front(desk.trades.as_slice(), cut.trades),
        ) {
            Ok(_) => FirstAnswer::Granted,
            Err((_, fault)) => FirstAnswer::Refused(fault),
        };
        tally.answers(seed, 0, answer, second.answer(cut, Call::Reopen)?)
    }

    // The first book took its claims back, and so does the second.
    fn give_back(&mut self, tally: &mut Tally) -> Result<(), AllocError> {
        for _ in 0..self.second.purse.len() {
            let Some(place) = self.second.first_held() else {
                break;
            };
            let answer = self.second.answer(self.lent, Call::HandBack(place))?;
            tally.answers(self.seed, 0, FirstAnswer::Granted, answer)?;
        }
        Ok(())
    }

    // Claims of another book, and of one with the same number: none of this book's is outstanding.
    fn ask_strangers(&mut self, lent: Lent, tally: &mut Tally) -> Result<(), AllocError> {
        let own = i64::from(self.struck.ledger.number);
        for number in [own, own ^ 1] {
            self.charge(number, lent, tally)?;
            if let Some(stranger) = Stranger::new(number) {
                let first = stranger.handed_back(&mut self.struck, &self.desk, lent);
                let second = self.answer_on(number, lent, Call::HandBack(0))?;
                tally.answers(self.seed, 0, first, second)?;
            }
        }
        Ok(())
    }

    fn charge(&mut self, number: i64, lent: Lent, tally: &mut Tally) -> Result<(), AllocError> {
        if let Some(stranger) = Stranger::new(number) {
            let first = stranger.charged(&mut self.struck, &mut self.desk, lent);
            let second = self.answer_on(number, lent, Call::Charge(0))?;
            tally.answers(self.seed, 0, first, second)?;
        }
        Ok(())
    }

    // The second book, with a claim of the book of a number in its purse alone.
    fn answer_on(
        &mut self,
        number: i64,
        lent: Lent,
        call: Call,
    ) -> Result<SecondAnswer, AllocError> {
        self.second.purse = vec![in self.heap; Some(slip_of(number))]?;
        self.second.answer(lent, call)
    }

    fn ask_cut(&mut self, lent: Lent, qse: i64, tally: &mut Tally) -> Result<(), AllocError> {
        let share = self.share(qse, lent);
        let second = self.second.answer(lent, Call::Share(qse))?;
        tally.answers(self.seed, 0, share, second)?;
        let made = usize::from(self.struck.ledger.made);
        let claim = self.claim(lent);
        self.second.purse = vec![in self.heap; None; made.saturating_add(1)]?;
        let second = self.second.answer(lent, Call::Claim(5, 5))?;
        tally.answers(self.seed, 0, claim, second)
    }

    fn share(&self, qse: i64, lent: Lent) -> FirstAnswer {
        match self.struck.share(
            front(self.desk.qses.as_slice(), lent.qses),
            front(self.desk.loads.as_slice(), lent.loads),
            front(self.desk.resources.as_slice(), lent.resources),
            front(self.desk.trades.as_slice(), lent.trades),
            qse,
        ) {
            Ok(share) => FirstAnswer::Shared(share),
            Err(fault) => FirstAnswer::Refused(fault),
        }
    }

    fn claim(&mut self, lent: Lent) -> FirstAnswer {
        claim_and_back(
            &mut self.struck,
            front(self.desk.qses.as_slice(), lent.qses),
            front(self.desk.loads.as_slice(), lent.loads),
            front(self.desk.resources.as_slice(), lent.resources),
            front(self.desk.trades.as_slice(), lent.trades),
        )
    }

    // A row at the most cents that can be charged is no cause, and one cent more is; so is a shortfall that is not
    // in T.
    fn charge_rich(&mut self, tally: &mut Tally) -> Result<(), AllocError> {
        let other = i64::from(self.struck.ledger.number) ^ 1;
        for cents in CENTS {
            self.set_qse_cents(cents);
            self.charge(other, self.lent, tally)?;
        }
        for cents in CENTS {
            self.set_load_cents(cents);
            self.charge(other, self.lent, tally)?;
        }
        self.raise_shortfall();
        self.charge(other, self.lent, tally)
    }

    fn set_qse_cents(&mut self, cents: u64) {
        if let (Some(one), Some(other)) = (self.desk.qses.get_mut(0), self.second.qses.get_mut(0)) {
            one.cents = cents.min(MAX_CENTS);
            other.cents = i64::try_from(cents).unwrap_or(0);
        }
    }

    fn set_load_cents(&mut self, cents: u64) {
        if let (Some(one), Some(other)) = (
            self.desk.loads.get_mut(0),
            self.second.loads.get_mut(0),
        ) {
            one.cents = cents.min(MAX_CENTS);
            other.cents = i64::try_from(cents).unwrap_or(0);
        }
    }

    fn raise_shortfall(&mut self) {
        if let (Some(one), Some(other)) = (self.desk.qses.get_mut(0), self.second.qses.get_mut(0)) {
            if one.shortfall < 4_000_000_000 {
                one.shortfall += 1;
                other.shortfall = other.shortfall.saturating_add(1);
            }
        }
    }
}

// A claim that is granted goes back at once.
fn claim_and_back(
    struck: &mut StruckBook,
    qses: &[QseRow],
    loads: &[LoadRow],
    resources: &[ResourceRow],
    trades: &[TradeRow],
) -> FirstAnswer {
    match struck.claim(qses, loads, resources, trades, 5, 5) {
        Err(fault) => FirstAnswer::Refused(fault),
        Ok(claim) => {
            match struck.hand_back(qses, loads, resources, trades, claim) {
                Ok(()) => {}
                Err(_) => unreachable(),
            }
            FirstAnswer::Claimed(0)
        }
    }
}
