// A book with a claim outstanding, asked to spend the claim of another: both books are made for it and have no rows.
use super::stranger::{Meeting, Stranger, slip_of};
use super::tally::Tally;
use replay::calls::Answer;
use second::book::{Book, Lent};
use second::calls::Call;
use std::alloc::{AllocError, Global};

const NO_TABLES: Lent = Lent {
    qses: 0,
    loads: 0,
    resources: 0,
    trades: 0,
    covers: 0,
};

pub(crate) fn compare_foreign(
    heap: Global,
    seed: u64,
    number: i64,
    tally: &mut Tally,
) -> Result<(), AllocError> {
    let Some(meeting) = meet(number, number ^ 1) else {
        return Ok(());
    };
    let mut second = Book::new(heap, number, vec![in heap; None; 2]?);
    let _ = second.answer(NO_TABLES, Call::Strike(0))?;
    let _ = second.answer(NO_TABLES, Call::Claim(5, 5))?;
    if let Some(place) = second.purse.get_mut(1) {
        *place = Some(slip_of(number ^ 1));
    }
    let handed_back = second.answer(NO_TABLES, Call::HandBack(1))?;
    let charged = second.answer(NO_TABLES, Call::Charge(1))?;
    tally.answers(seed, 0, Answer::Refused(meeting.handed_back), handed_back)?;
    tally.answers(seed, 0, Answer::Refused(meeting.charged), charged)
}

fn meet(here: i64, there: i64) -> Option<Meeting> {
    let here = Stranger::new(here)?;
    match Stranger::new(there) {
        None => {
            here.end();
            None
        }
        Some(there) => here.meets(there),
    }
}
