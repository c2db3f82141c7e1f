// What each place of a list may hold.
ghost use Rattle.std.specs.Prelude.{◌≡◌, ℕ, ◌+◌, ◌-◌, ◌<◌, ◌≤◌, length};
ghost use Rattle.entry.specs.Places.{places as places_of, place_at, size as size_of, with_powers, two_sided};

use super::form::{Form, Rule};
use rows::limits::{MAX_KWH, MAX_NUMBER, MAX_POINT, MAX_POWER, SUB_TYPES};

// The least and the greatest number, and the rule beside them. A triple, since the tables below read as rows of one.
pub type Place = (i64, i64, Rule);

// A signed figure lies between this and its negative.
const HIGHEST: i64 = MAX_POWER as i64;

const POWER: Place = (0, HIGHEST, Rule::Free);

const SIGNED: Place = (-HIGHEST, HIGHEST, Rule::Free);

const QSE: Place = (1, MAX_NUMBER as i64, Rule::Free);

const FLAG: Place = (0, 1, Rule::Free);

const POINT: Place = (0, MAX_POINT as i64, Rule::Free);

const KWH: Place = (0, MAX_KWH as i64, Rule::Free);

const KIND: Place = (1, 4, Rule::Free);

const MARK: Place = (0, 1, Rule::Mark);

const BEFORE: Place = (0, HIGHEST, Rule::Before);

const STATUS: Place = (0, 3, Rule::Free);

const LSL: Place = (-HIGHEST, HIGHEST, Rule::Lsl);

const POTENTIAL: Place = (0, HIGHEST, Rule::Potential);

const TRADED: Place = (1, 3, Rule::Free);

const SUB_TYPE: Place = (0, 9, Rule::SubTyped);

const SIDES: Place = (1, 3, Rule::Free);

const KW: Place = (1, HIGHEST, Rule::Free);

// QSE, credit, day-ahead purchase and sale, tie mark.
const FIGURES_HEAD: [Place; 5] = [QSE, POWER, POWER, POWER, FLAG];

// A side begins with the DC import and the storage net; then come the positions.
const FIGURES_FIRST: [Place; 2] = [POWER, SIGNED];

// QSE, settlement point, kWh.
const LOAD: [Place; 3] = [QSE, POINT, KWH];

// QSE, kind, outage mark, decommitment mark, kW before it.
const RESOURCE_HEAD: [Place; 5] = [QSE, KIND, MARK, MARK, BEFORE];

// A side begins with the status, HSL, LSL and the potential; then come what is offered, what the COP
// has and what the unit is qualified for.
const RESOURCE_FIRST: [Place; 4] = [STATUS, POWER, LSL, POTENTIAL];

// Kind, sub-type, sides, seller, buyer, kW.
const TRADE: [Place; 6] = [TRADED, SUB_TYPE, SIDES, QSE, QSE, KW];

// Where the parts of a side stand in it, and how many numbers it has.
pub const POSITIONS: usize = FIGURES_FIRST.len();

pub const FIGURES_SIDE_SIZE: usize = POSITIONS + SUB_TYPES;

pub const OFFERED: usize = RESOURCE_FIRST.len();

pub const COP: usize = OFFERED + SUB_TYPES;

pub const QUALIFIED: usize = COP + SUB_TYPES;

pub const RESOURCE_SIDE_SIZE: usize = QUALIFIED + SUB_TYPES;

// The place k of a side, which has only powers after its first places.
fn in_side(first: &[Place], k: usize) -> Place
    ensures { (n : ℕ) → k < length first.now + n → result ≡ place_at (with_powers first.now n) k }
{
    if k < first.len() { first[k] } else { POWER }
}

// The place k of a list that has two sides of that size after its head.
fn two_sided(head: &[Place], first: &[Place], size: usize, k: usize) -> Place
    requires long { length first.now ≤ size }
    requires inside { k < length head.now + (size + size) }
    ensures { result ≡ place_at (two_sided head.now (with_powers first.now (size - length first.now))) k }
{
    if k < head.len() {
        return head[k];
    }
    let after = k - head.len();
    if after < size {
        in_side(first, after)
    } else {
        in_side(first, after - size)
    }
}

impl Form {
    // How many numbers the list has.
    pub(crate) fn size(self) -> usize
        ensures { result ≡ size_of self }
    {
        match self {
            Form::Figures => FIGURES_HEAD.len() + 2 * FIGURES_SIDE_SIZE,
            Form::Load => LOAD.len(),
            Form::Resource => RESOURCE_HEAD.len() + 2 * RESOURCE_SIDE_SIZE,
            Form::Trade => TRADE.len(),
        }
    }

    // The place k, counted from 0.
    pub(crate) fn place(self, k: usize) -> Place
        requires { k < size_of self }
        ensures { result ≡ place_at (places_of self) k }
    {
        match self {
            Form::Figures => two_sided(&FIGURES_HEAD, &FIGURES_FIRST, FIGURES_SIDE_SIZE, k),
            Form::Load => LOAD[k],
            Form::Resource => two_sided(&RESOURCE_HEAD, &RESOURCE_FIRST, RESOURCE_SIDE_SIZE, k),
            Form::Trade => TRADE[k],
        }
    }
}
