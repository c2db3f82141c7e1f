// How often each kind of answer was compared, and what differed.
use replay::calls::Answer as FirstAnswer;
use second::calls::Answer as SecondAnswer;
use std::alloc::{AllocError, Global};
use std::fmt;

const MAX_LINES: u64 = 20;

#[derive(Drop)]
pub(crate) struct Tally {
    heap: Global,
    pub(crate) books: u64,
    answers: u64,
    differ: u64,
    lines: String,
    shortfalls: u64,
    uncovered: u64,
    totals: u64,
    shares: u64,
    claims: u64,
    charges: u64,
    trades: u64,
    grants: u64,
    not_allowed: u64,
    refusals: [u64; 14],
    covers: u64,
    cents: u64,
}

fn raise(count: &mut u64) {
    *count = count.saturating_add(1);
}

impl Tally {
    pub(crate) fn new(heap: Global) -> Tally {
        Tally {
            heap,
            books: 0,
            answers: 0,
            differ: 0,
            lines: String::new(heap),
            shortfalls: 0,
            uncovered: 0,
            totals: 0,
            shares: 0,
            claims: 0,
            charges: 0,
            trades: 0,
            grants: 0,
            not_allowed: 0,
            refusals: [0; 14],
            covers: 0,
            cents: 0,
        }
    }

    // Two answers to a call, compared as they are printed; the calls before and after a list have the number 0.
    pub(crate) fn answers(
        &mut self,
        seed: u64,
        call: usize,
        first: FirstAnswer,
        second: SecondAnswer,
    ) -> Result<(), AllocError> {
        self.count(first);
        let one = format!(in self.heap; "{first}")?;
        let other = format!(in self.heap; "{second}")?;
        if one.as_str() != other.as_str() {
            let (one, other) = (one.as_str(), other.as_str());
            self.differ(format_args!("seed {seed} call {call}: first {one}; second {other}"))?;
        }
        Ok(())
    }

    fn count(&mut self, answer: FirstAnswer) {
        raise(&mut self.answers);
        match answer {
            FirstAnswer::NotAllowed => raise(&mut self.not_allowed),
            FirstAnswer::Refused(fault) => {
                let place = usize::from(fault.number()).saturating_sub(1);
                if let Some(count) = self.refusals.get_mut(place) {
                    raise(count);
                }
            }
            FirstAnswer::Granted => raise(&mut self.grants),
            FirstAnswer::Placed(_) => raise(&mut self.trades),
            FirstAnswer::Shortfall(_) => raise(&mut self.shortfalls),
            FirstAnswer::Uncovered(_) => raise(&mut self.uncovered),
            FirstAnswer::Total(_) => raise(&mut self.totals),
            FirstAnswer::Shared(_) => raise(&mut self.shares),
            FirstAnswer::Claimed(_) => raise(&mut self.claims),
            FirstAnswer::Charged(_, _) => raise(&mut self.charges),
        }
    }

    pub(crate) fn count_cents(&mut self) {
        raise(&mut self.cents);
    }

    pub(crate) fn count_cover(&mut self) {
        raise(&mut self.covers);
    }

    pub(crate) fn differ<D: fmt::Display + Drop>(&mut self, what: D) -> Result<(), AllocError> {
        raise(&mut self.differ);
        if self.differ <= MAX_LINES {
            writeln!(self.lines, "{what}")?;
        }
        Ok(())
    }

    pub(crate) fn report(&self) -> Result<String, AllocError> {
        let mut out = self.lines.clone()?;
        writeln!(out, "shortfalls {}", self.shortfalls)?;
        writeln!(out, "uncovered totals {}", self.uncovered)?;
        writeln!(out, "totals T {}", self.totals)?;
        writeln!(out, "shares {}", self.shares)?;
        writeln!(out, "claims {}", self.claims)?;
        writeln!(out, "pots and rests {}", self.charges)?;
        writeln!(out, "places of trades {}", self.trades)?;
        writeln!(out, "grants with nothing to say {}", self.grants)?;
        writeln!(out, "not allowed {}", self.not_allowed)?;
        for (number, count) in (1usize..).zip(self.refusals.iter()) {
            writeln!(out, "refused {number}: {count}")?;
        }
        writeln!(out, "covers within their limits {}", self.covers)?;
        writeln!(out, "rows with shortfall and cents {}", self.cents)?;
        let (books, answers, differ) = (self.books, self.answers, self.differ);
        writeln!(
            out,
            "compared {books} books, {answers} answers, {differ} differ"
        )?;
        Ok(out)
    }
}
