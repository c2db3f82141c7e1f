// The twelve cases.
ghost use Rattle.std.specs.Prelude.{◌≡◌};
ghost use Rattle.cases.specs.Worked.{Worked, claimed};

use super::charges::charges;
use super::figures::CaseFigures;
use super::parts::{even, one_weight};
use super::trades::trades;
use super::values::{
    bare_load, nothing, one_kw_less, pfr_for_ufr, regulated, served_load, two_units, ufr_for_pfr,
};

// Each figure is made by the library from rows that are entered as lists.
pub fn worked_cases() -> CaseFigures
    ensures figures { result ≡ claimed }
    ensures worked { Worked result }
{
    CaseFigures {
        values: [
            nothing(),
            bare_load(),
            served_load(),
            one_kw_less(),
            regulated(),
            ufr_for_pfr(),
            pfr_for_ufr(),
            two_units(),
        ],
        traded: trades(),
        even: even(),
        one_weight: one_weight(),
        charged: charges(),
    }
}
