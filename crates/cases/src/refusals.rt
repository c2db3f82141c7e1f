// What no journal meets, since a journal's tables are its book's alone.
ghost use Rattle.std.specs.Prelude.{ℕ, ◌≤◌};

use book::books::{Claim, OpenBook, StruckBook};
use measure::grouped::Grouped;
use rows::fault::Fault;
use rows::figures::NO_FIGURES;
use rows::limits::MAX_NUMBER;
use rows::load::LoadRow;
use rows::qse::QseRow;
use std::process::Abort;

// Rows as tables hold them before a book writes them.
const BLANK: QseRow = QseRow {
    number: MAX_NUMBER,
    figures: NO_FIGURES,
    shortfall: 0,
    cents: 0,
};

const BLANK_LOAD: LoadRow = LoadRow {
    qse: MAX_NUMBER,
    point: 0,
    kwh: 0,
    cents: 0,
};

const ONE: Option<u8> = Some(1);

// 3,000 kW bought in the day-ahead market
const BOUGHT: [i64; 27] = [
    7, 0, 3000, 0, 0, 0, 0, 0, 0, 0, 0, 0, 0, 0, 0, 0, 0, 0, 0, 0, 0, 0, 0, 0, 0, 0, 0,
];

// The refusal's number, where the call is refused.
fn number<T: Drop>(answer: Result<T, Fault>) -> Option<u8> {
    answer.err().map(|fault| fault.number())
}

// The number of a refusal, after which the claim goes back to its book.
fn charge_number<T: Drop>(
    rt: &impl Abort,
    answer: Result<T, (Claim, Fault)>,
    book: &mut StruckBook,
    qses: &[QseRow],
    loads: &[LoadRow],
) -> Option<u8> {
    match answer {
        Ok(_) => None,
        Err((claim, fault)) => match book.hand_back(qses, loads, &[], &[], claim) {
            Ok(()) => Some(fault.number()),
            Err(_) => panic!(rt; "a claim is left"),
        },
    }
}

// A book of the QSEs 7 and 8, each with a load of 1,000 kWh.
fn two_qses(number: i64, qses: &mut [QseRow], loads: &mut [LoadRow]) -> Result<OpenBook, Fault> {
    let mut book = OpenBook::open(number)?;
    book.enrol(qses, loads, &[], &[], 7)?;
    book.enrol(qses, loads, &[], &[], 8)?;
    book.load(qses, loads, &[], &[], &[7, 1, 1000])?;
    book.load(qses, loads, &[], &[], &[8, 1, 1000])?;
    Ok(book)
}

fn struck(book: OpenBook, qses: &mut [QseRow], loads: &[LoadRow]) -> Result<StruckBook, Fault> {
    match book.strike(&Grouped {}, qses, loads, &[], &[]) {
        Ok((struck, _)) => Ok(struck),
        Err((_, fault)) => Err(fault),
    }
}

fn open_with_short_tables() -> Result<[Option<u8>; 8], Fault> {
    let (mut qses, mut loads) = ([BLANK; 2], [BLANK_LOAD; 2]);
    let (mut few, mut few_loads) = ([BLANK; 1], [BLANK_LOAD; 1]);
    let mut book = two_qses(1, &mut qses, &mut loads)?;
    let m = Grouped {};
    Ok([
        number(book.short(&m, &qses, &loads, &[], &[], 8)),
        number(book.short(&m, &few, &loads, &[], &[], 7)),
        number(book.short(&m, &qses, &few_loads, &[], &[], 7)),
        number(book.enrol(&mut few, &loads, &[], &[], 7)),
        number(book.figures(&mut few, &loads, &[], &[], &[])),
        number(book.load(&qses, &mut few_loads, &[], &[], &[])),
        number(book.cover(&few, &loads, &[], &[], &mut [], 7, 1)),
        number(struck(book, &mut few, &loads)),
    ])
}

fn struck_with_short_tables(rt: &impl Abort) -> Result<[Option<u8>; 4], Fault> {
    let (mut qses, mut loads) = ([BLANK; 2], [BLANK_LOAD; 2]);
    let (few, mut few_loads) = ([BLANK; 1], [BLANK_LOAD; 1]);
    let mut book = struck(two_qses(1, &mut qses, &mut loads)?, &mut qses, &loads)?;
    let claim = book.claim(&qses, &loads, &[], &[], 100, 0)?;
    let granted = number(book.share(&qses, &loads, &[], &[], 7));
    let by_qses = number(book.share(&few, &loads, &[], &[], 7));
    let by_loads = number(book.share(&qses, &few_loads, &[], &[], 7));
    let charged = book.charge(&mut qses, &mut few_loads, &[], &[], claim);
    let charge = charge_number(rt, charged, &mut book, &qses, &loads);
    Ok([granted, by_qses, by_loads, charge])
}

#[test]
fn a_table_shorter_than_its_count_is_refused(rt: HostRuntime) {
    assert_eq!(rt;
        open_with_short_tables().ok(),
        Some([None, ONE, ONE, ONE, ONE, ONE, ONE, ONE])
    );
    assert_eq!(rt;
        struck_with_short_tables(&rt).ok(),
        Some([None, ONE, ONE, ONE])
    );
}

// What becomes of a charge of 100 cents on rows that no call wrote, and the cents of the first row after it.
fn charge_on(rt: &impl Abort, qse: QseRow, load: LoadRow) -> Result<(Option<u8>, u64), Fault> {
    let (mut qses, mut loads) = ([BLANK; 2], [BLANK_LOAD; 2]);
    let mut book = struck(two_qses(1, &mut qses, &mut loads)?, &mut qses, &loads)?;
    let claim = book.claim(&qses, &loads, &[], &[], 100, 1)?;
    qses[1] = qse;
    loads[1] = load;
    let charged = book.charge(&mut qses, &mut loads, &[], &[], claim);
    let number = charge_number(rt, charged, &mut book, &qses, &loads);
    Ok((number, qses[0].cents))
}

fn qse_row(shortfall: u32, cents: u64) -> QseRow
    requires { (shortfall ≤ 4000000000) × (cents ≤ 1000000000000) }
{
    QseRow {
        number: 8,
        figures: NO_FIGURES,
        shortfall,
        cents,
    }
}

fn load_row(cents: u64) -> LoadRow
    requires { cents ≤ 1000000000000 }
{
    LoadRow {
        qse: 8,
        point: 1,
        kwh: 1000,
        cents,
    }
}

#[test]
fn a_charge_on_rows_that_no_call_wrote_is_refused(rt: HostRuntime) {
    assert_eq!(rt;
        charge_on(&rt, qse_row(4000, 0), load_row(0)).ok(),
        Some((None, 4))
    );
    assert_eq!(rt;
        charge_on(&rt, qse_row(3999, 0), load_row(0)).ok(),
        Some((ONE, 0))
    );
    assert_eq!(rt;
        charge_on(&rt, qse_row(4000, 999_000_000_000), load_row(0)).ok(),
        Some((None, 4))
    );
    assert_eq!(rt;
        charge_on(&rt, qse_row(4000, 999_000_000_001), load_row(0)).ok(),
        Some((ONE, 0))
    );
    assert_eq!(rt;
        charge_on(&rt, qse_row(4000, 0), load_row(999_000_000_001)).ok(),
        Some((ONE, 0))
    );
}

// A claim of book 1 charged on that book after the book `other` has refused it: both numbers, and the cents that the
// refusal left in the first row.
fn charged_elsewhere(rt: &impl Abort, other: i64) -> Result<(u8, u64, Option<u8>), Fault> {
    let (mut qses, mut loads) = ([BLANK; 2], [BLANK_LOAD; 2]);
    let (mut qses_of_other, mut loads_of_other) = ([BLANK; 2], [BLANK_LOAD; 2]);
    let opened = two_qses(1, &mut qses, &mut loads)?;
    let mut book = struck(opened, &mut qses, &loads)?;
    let opened = two_qses(other, &mut qses_of_other, &mut loads_of_other)?;
    let mut foreign = struck(opened, &mut qses_of_other, &loads_of_other)?;
    let claim = book.claim(&qses, &loads, &[], &[], 100, 1)?;
    match foreign.charge(&mut qses_of_other, &mut loads_of_other, &[], &[], claim) {
        Ok(_) => Err(Fault::NoPlace),
        Err((claim, fault)) => {
            let after = qses_of_other[0].cents;
            let charged = book.charge(&mut qses, &mut loads, &[], &[], claim);
            let number = charge_number(rt, charged, &mut book, &qses, &loads);
            Ok((fault.number(), after, number))
        }
    }
}

// The same of a claim handed back.
fn handed_elsewhere(rt: &impl Abort, other: i64) -> Result<(u8, Option<u8>), Fault> {
    let (mut qses, mut loads) = ([BLANK; 2], [BLANK_LOAD; 2]);
    let opened = two_qses(1, &mut qses, &mut loads)?;
    let mut book = struck(opened, &mut qses, &loads)?;
    let opened = OpenBook::open(other)?;
    let mut foreign = struck(opened, &mut [], &[])?;
    let claim = book.claim(&qses, &loads, &[], &[], 100, 1)?;
    match foreign.hand_back(&[], &[], &[], &[], claim) {
        Ok(_) => Err(Fault::NoPlace),
        Err((claim, fault)) => {
            let handed = book.hand_back(&qses, &loads, &[], &[], claim);
            let number = charge_number(rt, handed, &mut book, &qses, &loads);
            Ok((fault.number(), number))
        }
    }
}

// A book of another number, and one of this number that has made no claim.
#[test]
fn a_foreign_claim_is_refused_and_comes_back(rt: HostRuntime) {
    assert_eq!(rt; charged_elsewhere(&rt, 2).ok(), Some((12, 0, None)));
    assert_eq!(rt; charged_elsewhere(&rt, 1).ok(), Some((12, 0, None)));
    assert_eq!(rt; handed_elsewhere(&rt, 2).ok(), Some((12, None)));
    assert_eq!(rt; handed_elsewhere(&rt, 1).ok(), Some((12, None)));
}

// A QSE in two rows, figures entered after that: the first row's shortfall as `short` and `share` give it, the second's.
fn twice() -> Result<(u64, Option<(u32, u32)>, u32), Fault> {
    let (mut qses, mut loads) = ([BLANK; 2], [BLANK_LOAD; 2]);
    let book = two_qses(1, &mut qses, &mut loads)?;
    qses[1] = qses[0];
    book.figures(&mut qses, &loads, &[], &[], &BOUGHT)?;
    let short = book.short(&Grouped {}, &qses, &loads, &[], &[], 7)?;
    let book = struck(book, &mut qses, &loads)?;
    let share = book.share(&qses, &loads, &[], &[], 7)?;
    Ok((short, share, qses[1].shortfall))
}

#[test]
fn a_call_goes_by_the_earliest_row_and_a_strike_by_each(rt: HostRuntime) {
    assert_eq!(rt; twice().ok(), Some((1000, Some((1000, 5000)), 4000)));
}
