// Cases 1 to 8: the values of one QSE.
ghost use Rattle.std.specs.Prelude.{◌≡◌, ◌≤◌, [], map, length};
ghost use Rattle.rows.specs.Limits.{max_rows};
ghost use Rattle.rows.specs.Rows.{plain_load, plain_qse, plain_resource};
ghost use Rattle.account.specs.Own.{qse_own};
ghost use Rattle.shortfall.specs.Shortfall.{shortfall_of};
ghost use Rattle.cases.specs.Both.{IsBoth};
ghost use Rattle.cases.specs.Cases.{nothing, bare_load, served_load, one_kw_less, regulated, ufr_for_pfr, pfr_for_ufr, two_units};

use super::entered::{load, qse, unit};
use super::figures::Both;
use super::lists::{
    ASK_NOTHING, ASK_PFR, ASK_REGULATION, ASK_RRS, ASK_UFR, BOTH_RRS, GENERATOR_3999,
    GENERATOR_4000, GENERATOR_PFR, LOAD, LOAD_UFR, ONLY_UFR, REGULATION,
};
use super::shorts::shorts;
use account::account::Tables;
use rows::load::LoadRow;
use rows::qse::QseRow;
use rows::resource::ResourceRow;

// There is no credit, so that the shortfall is the value.
pub(crate) fn values(row: &QseRow, loads: &[LoadRow], units: &[ResourceRow]) -> Both
    requires { (length loads.now ≤ max_rows) × (length units.now ≤ max_rows) }
    ensures { IsBoth result (λ m. shortfall_of m (qse_own (plain_qse row.now) (record { loads = map plain_load loads.now; resources = map plain_resource units.now; trades = [] }))) }
{
    let tables = Tables {
        loads,
        resources: units,
        trades: &[],
    };
    shorts(row, tables)
}

pub(crate) fn nothing() -> Both
    ensures { result ≡ nothing.figures }
{
    values(&qse(&ASK_NOTHING), &[], &[])
}

pub(crate) fn bare_load() -> Both
    ensures { result ≡ bare_load.figures }
{
    values(&qse(&ASK_NOTHING), &[load(&LOAD)], &[])
}

pub(crate) fn served_load() -> Both
    ensures { result ≡ served_load.figures }
{
    values(&qse(&ASK_NOTHING), &[load(&LOAD)], &[unit(&GENERATOR_4000)])
}

pub(crate) fn one_kw_less() -> Both
    ensures { result ≡ one_kw_less.figures }
{
    values(&qse(&ASK_NOTHING), &[load(&LOAD)], &[unit(&GENERATOR_3999)])
}

pub(crate) fn regulated() -> Both
    ensures { result ≡ regulated.figures }
{
    values(&qse(&ASK_REGULATION), &[], &[unit(&REGULATION)])
}

pub(crate) fn ufr_for_pfr() -> Both
    ensures { result ≡ ufr_for_pfr.figures }
{
    values(&qse(&ASK_PFR), &[], &[unit(&LOAD_UFR)])
}

pub(crate) fn pfr_for_ufr() -> Both
    ensures { result ≡ pfr_for_ufr.figures }
{
    values(&qse(&ASK_UFR), &[], &[unit(&GENERATOR_PFR)])
}

pub(crate) fn two_units() -> Both
    ensures { result ≡ two_units.figures }
{
    values(&qse(&ASK_RRS), &[], &[unit(&BOTH_RRS), unit(&ONLY_UFR)])
}
