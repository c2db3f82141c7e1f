// Accounts of one QSE whose covers are known.
use super::lists::{
    ASK_NOTHING, ASK_PFR, ASK_REGULATION, ASK_RRS, ASK_UFR, BOTH_RRS, GENERATOR_PFR, LOAD_UFR,
    ONLY_UFR, REGULATION,
};
use account::account::{Account, Tables};
use cover::covering::cover;
use cover::uncovered::least_uncovered;
use entry::qse::qse_row;
use entry::resource::resource_row;
use measure::grouped_parts::break_down;
use rows::codes::Side;
use rows::fault::Fault;
use rows::qse::QseRow;
use rows::resource::ResourceRow;

// a generator that is absent
const ABSENT: [i64; 67] = [
    1, 1, 0, 0, 0, 0, 500, 0, 0, 100, 0, 0, 0, 0, 0, 0, 0, 0, 100, 0, 0, 0, 0, 0, 0, 0, 0, 100, 0,
    0, 0, 0, 0, 0, 0, 0, 0, 500, 0, 0, 100, 0, 0, 0, 0, 0, 0, 0, 0, 100, 0, 0, 0, 0, 0, 0, 0, 0,
    100, 0, 0, 0, 0, 0, 0, 0, 0,
];

// positions far above every capability
const ASK_ALL: [i64; 27] = [
    1, 0, 0, 0, 0, 0, 0, 10000000, 10000000, 10000000, 10000000, 10000000, 10000000, 10000000,
    10000000, 10000000, 0, 0, 10000000, 10000000, 10000000, 10000000, 10000000, 10000000, 10000000,
    10000000, 10000000,
];

// The account at the snapshot of a QSE that has those units.
fn account<'a>(row: &'a QseRow, units: &'a [ResourceRow]) -> Result<Account<'a>, Fault> {
    let tables = Tables::new(&[], units, &[]).ok_or(Fault::NoPlace)?;
    Ok(Account::new(row, Side::Snapshot, tables))
}

// The reserve parts of the grouped and of the sub-type edition.
fn reserves(row: &QseRow, units: &[ResourceRow]) -> Result<(u64, u64), Fault> {
    let a = account(row, units)?;
    Ok((break_down(&a).reserve, least_uncovered(&a)))
}

fn none(list: &[i64]) -> Result<(u64, u64), Fault> {
    reserves(&qse_row(list)?, &[])
}

fn one(list: &[i64], unit: &[i64]) -> Result<(u64, u64), Fault> {
    reserves(&qse_row(list)?, &[resource_row(unit)?])
}

fn two(list: &[i64], unit: &[i64], other: &[i64]) -> Result<(u64, u64), Fault> {
    reserves(
        &qse_row(list)?,
        &[resource_row(unit)?, resource_row(other)?],
    )
}

// What a cover into those rows leaves uncovered.
fn cover_into(list: &[i64], unit: &[i64], out: &mut [[u32; 14]]) -> Result<u64, Fault> {
    let row = qse_row(list)?;
    let units = [resource_row(unit)?];
    cover(&account(&row, &units)?, out)
}

#[test]
fn two_units_share_rrs(rt: HostRuntime) {
    assert_eq!(rt; two(&ASK_RRS, &BOTH_RRS, &ONLY_UFR).ok(), Some((0, 0)));
    assert_eq!(rt; two(&ASK_RRS, &ONLY_UFR, &BOTH_RRS).ok(), Some((0, 0)));
    assert_eq!(rt; two(&ASK_RRS, &BOTH_RRS, &BOTH_RRS).ok(), Some((0, 0)));
}

#[test]
fn kilowatts_stand_behind_one_reserve(rt: HostRuntime) {
    assert_eq!(rt; one(&ASK_REGULATION, &REGULATION).ok(), Some((0, 100)));
}

#[test]
fn ufr_is_no_pfr(rt: HostRuntime) {
    assert_eq!(rt; one(&ASK_PFR, &LOAD_UFR).ok(), Some((0, 50)));
    assert_eq!(rt; one(&ASK_UFR, &GENERATOR_PFR).ok(), Some((0, 0)));
}

#[test]
fn odd_accounts_are_answered(rt: HostRuntime) {
    assert_eq!(rt; none(&ASK_NOTHING).ok(), Some((0, 0)));
    assert_eq!(rt; none(&ASK_PFR).ok(), Some((50, 50)));
    assert_eq!(rt; one(&ASK_REGULATION, &ABSENT).ok(), Some((200, 200)));
    assert_eq!(rt;
        one(&ASK_ALL, &REGULATION).ok(),
        Some((89_999_800, 89_999_900))
    );
}

#[test]
fn a_cover_wants_a_row_for_each_unit(rt: HostRuntime) {
    let mut none: [[u32; 14]; 0] = [];
    assert_eq!(rt;
        cover_into(&ASK_PFR, &GENERATOR_PFR, &mut none).map_err(Fault::number),
        Err(9)
    );
    let mut rows = [[7u32; 14]; 2];
    assert_eq!(rt;
        cover_into(&ASK_PFR, &GENERATOR_PFR, &mut rows).map_err(Fault::number),
        Ok(0)
    );
    assert_eq!(rt; rows[0], [0, 0, 50, 0, 0, 0, 0, 0, 0, 0, 0, 0, 0, 0]);
    assert_eq!(rt; rows[1], [7; 14]);
}
