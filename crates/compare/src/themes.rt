// Lists that the draws alone would not come to: the greatest total, every claim made, every table full.
use super::asks::Ask;
use super::chooser::Chooser;
use super::lists::{load_list, resource_list, trade_list};
use second::book::{Book, Lent};
use std::alloc::AllocError;

#[derive(Clone, Copy, PartialEq, Eq)]
pub(crate) enum Theme {
    Usual,
    GreatTotal,
    ClaimsUsedUp,
    FullTables,
}

const SELLER: i64 = 7;

const BUYER: i64 = 9;
// trades of the greatest power that make the greatest total
const GREATEST_TRADES: usize = 400;

impl Theme {
    pub(crate) fn of(seed: u64) -> Theme {
        match seed % 50 {
            7 => Theme::GreatTotal,
            23 => Theme::ClaimsUsedUp,
            41 => Theme::FullTables,
            _ => Theme::Usual,
        }
    }

    pub(crate) fn steps(self, chooser: &mut Chooser) -> usize {
        let drawn = chooser.dice.length(120).saturating_add(30);
        let scripted = match self {
            Theme::Usual => 0,
            Theme::GreatTotal => 414,
            Theme::ClaimsUsedUp => 2_040,
            Theme::FullTables => 1_650,
        };
        drawn.saturating_add(scripted)
    }

    // How long the tables are: some shorter than the list needs, some longer than the limits.
    pub(crate) fn lent(self, chooser: &mut Chooser) -> Lent {
        let dice = &mut chooser.dice;
        if self != Theme::Usual {
            let more = dice.length(8);
            return Lent {
                qses: more.saturating_add(61),
                loads: more.saturating_add(509),
                resources: more.saturating_add(509),
                trades: more.saturating_add(509),
                covers: dice.length(20),
            };
        }
        let mut length = |short: u32, long: usize| {
            if dice.one_in(4) {
                dice.length(short)
            } else {
                long
            }
        };
        Lent {
            qses: length(6, 70),
            loads: length(6, 160),
            resources: length(8, 160),
            trades: length(6, 160),
            covers: length(3, 160),
        }
    }

    // The next call of the script, if it is not yet at its end.
    pub(crate) fn next(
        self,
        chooser: &mut Chooser,
        step: usize,
        book: &Book,
    ) -> Result<Option<Ask>, AllocError> {
        match self {
            Theme::Usual => Ok(None),
            Theme::GreatTotal => greatest_total(chooser, step, book),
            Theme::ClaimsUsedUp => Ok(claims_used_up(chooser, step, book)),
            Theme::FullTables => full_tables(chooser, step),
        }
    }
}

// All that is sold is lacked by the seller, at the limit and then by one kW above it.
fn greatest_total(
    chooser: &mut Chooser,
    step: usize,
    book: &Book,
) -> Result<Option<Ask>, AllocError> {
    let Some(after) = step.checked_sub(GREATEST_TRADES.saturating_add(2)) else {
        return Ok(Some(match step {
            0 => Ask::Enrol(SELLER),
            1 => Ask::Enrol(BUYER),
            _ => Ask::Trade(vec![in chooser.heap; 1, 0, 3, SELLER, BUYER, 10_000_000]?),
        }));
    };
    Ok(match after {
        0 => Some(Ask::Strike(chooser.dice.length(2))),
        1 => Some(Ask::Share(SELLER)),
        2 => Some(Ask::Claim(1_000_000_000, 1_000_000)),
        3 => Some(Ask::Charge(book.first_held().unwrap_or(0))),
        4 => Some(Ask::Reopen),
        5 => Some(Ask::Trade(vec![in chooser.heap; 2, 0, 1, SELLER, BUYER, 1]?)),
        6 => Some(Ask::Short(2, SELLER)),
        7..=9 => Some(Ask::Strike(chooser.dice.length(2))),
        10 => Some(Ask::Void(GREATEST_TRADES)),
        11 => Some(Ask::Strike(chooser.dice.length(2))),
        _ => None,
    })
}

// A claim at a time, charged or handed back, until none can be made.
fn claims_used_up(chooser: &mut Chooser, step: usize, book: &Book) -> Option<Ask> {
    if step < 30 || book.made >= 1_000 {
        return None;
    }
    if !book.is_struck() {
        return Some(Ask::Strike(chooser.dice.length(2)));
    }
    match book.first_held() {
        None => Some(if chooser.dice.one_in(3) {
            chooser.claim()
        } else {
            Ask::Claim(1_000_000_000, 1_000_000)
        }),
        Some(place) if chooser.dice.one_in(6) => Some(Ask::HandBack(place)),
        Some(place) => Some(Ask::Charge(place)),
    }
}

// More rows of each table than a book may have.
fn full_tables(chooser: &mut Chooser, step: usize) -> Result<Option<Ask>, AllocError> {
    let heap = chooser.heap;
    let seller = chooser.dice.number(1, 63);
    let buyer = chooser.dice.number(1, 63);
    let dice = &mut chooser.dice;
    Ok(match step {
        0..=65 => Some(Ask::Enrol(i64::try_from(step).unwrap_or(0).saturating_add(1))),
        66..=590 => Some(Ask::Resource(resource_list(heap, dice, seller)?)),
        591..=1_110 => Some(Ask::Load(load_list(heap, dice, seller)?)),
        1_111..=1_640 => Some(Ask::Trade(trade_list(heap, dice, seller, buyer)?)),
        _ => None,
    })
}
