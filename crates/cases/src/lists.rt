// Lists of numbers as rows are entered by them. Those of a QSE and of a unit are the same on both sides.

// no positions
pub(crate) const ASK_NOTHING: [i64; 27] = [
    1, 0, 0, 0, 0, 0, 0, 0, 0, 0, 0, 0, 0, 0, 0, 0, 0, 0, 0, 0, 0, 0, 0, 0, 0, 0, 0,
];

// another QSE without positions
pub(crate) const SELLER: [i64; 27] = [
    2, 0, 0, 0, 0, 0, 0, 0, 0, 0, 0, 0, 0, 0, 0, 0, 0, 0, 0, 0, 0, 0, 0, 0, 0, 0, 0,
];

// 100 kW of Reg-Up and as much of Reg-Down
pub(crate) const ASK_REGULATION: [i64; 27] = [
    1, 0, 0, 0, 0, 0, 0, 100, 100, 0, 0, 0, 0, 0, 0, 0, 0, 0, 100, 100, 0, 0, 0, 0, 0, 0, 0,
];

// 50 kW of PFR
pub(crate) const ASK_PFR: [i64; 27] = [
    1, 0, 0, 0, 0, 0, 0, 0, 0, 50, 0, 0, 0, 0, 0, 0, 0, 0, 0, 0, 50, 0, 0, 0, 0, 0, 0,
];

// 50 kW of UFR
pub(crate) const ASK_UFR: [i64; 27] = [
    1, 0, 0, 0, 0, 0, 0, 0, 0, 0, 50, 0, 0, 0, 0, 0, 0, 0, 0, 0, 0, 50, 0, 0, 0, 0, 0,
];

// 30 kW of PFR and as much of UFR
pub(crate) const ASK_RRS: [i64; 27] = [
    1, 0, 0, 0, 0, 0, 0, 0, 0, 30, 30, 0, 0, 0, 0, 0, 0, 0, 0, 0, 30, 30, 0, 0, 0, 0, 0,
];

// loads of 1,000 and of 500 kWh, and one of the seller
pub(crate) const LOAD: [i64; 3] = [1, 1, 1000];

pub(crate) const LOAD_500: [i64; 3] = [1, 1, 500];

pub(crate) const SELLERS_LOAD: [i64; 3] = [2, 1, 500];

// capacity of 1,500 kW that the seller sells on both sides
pub(crate) const SALE: [i64; 6] = [1, 0, 3, 2, 1, 1500];

// a generator of 4,000 kW without reserves
pub(crate) const GENERATOR_4000: [i64; 67] = [
    1, 1, 0, 0, 0, 1, 4000, 0, 0, 0, 0, 0, 0, 0, 0, 0, 0, 0, 0, 0, 0, 0, 0, 0, 0, 0, 0, 0, 0, 0, 0,
    0, 0, 0, 0, 0, 1, 4000, 0, 0, 0, 0, 0, 0, 0, 0, 0, 0, 0, 0, 0, 0, 0, 0, 0, 0, 0, 0, 0, 0, 0, 0,
    0, 0, 0, 0, 0,
];

// one kW less
pub(crate) const GENERATOR_3999: [i64; 67] = [
    1, 1, 0, 0, 0, 1, 3999, 0, 0, 0, 0, 0, 0, 0, 0, 0, 0, 0, 0, 0, 0, 0, 0, 0, 0, 0, 0, 0, 0, 0, 0,
    0, 0, 0, 0, 0, 1, 3999, 0, 0, 0, 0, 0, 0, 0, 0, 0, 0, 0, 0, 0, 0, 0, 0, 0, 0, 0, 0, 0, 0, 0, 0,
    0, 0, 0, 0, 0,
];

// a generator of 3,000 kW without reserves
pub(crate) const GENERATOR_3000: [i64; 67] = [
    1, 1, 0, 0, 0, 1, 3000, 0, 0, 0, 0, 0, 0, 0, 0, 0, 0, 0, 0, 0, 0, 0, 0, 0, 0, 0, 0, 0, 0, 0, 0,
    0, 0, 0, 0, 0, 1, 3000, 0, 0, 0, 0, 0, 0, 0, 0, 0, 0, 0, 0, 0, 0, 0, 0, 0, 0, 0, 0, 0, 0, 0, 0,
    0, 0, 0, 0, 0,
];

// the same of the seller
pub(crate) const SELLERS_3000: [i64; 67] = [
    2, 1, 0, 0, 0, 1, 3000, 0, 0, 0, 0, 0, 0, 0, 0, 0, 0, 0, 0, 0, 0, 0, 0, 0, 0, 0, 0, 0, 0, 0, 0,
    0, 0, 0, 0, 0, 1, 3000, 0, 0, 0, 0, 0, 0, 0, 0, 0, 0, 0, 0, 0, 0, 0, 0, 0, 0, 0, 0, 0, 0, 0, 0,
    0, 0, 0, 0, 0,
];

// a generator of 30 kW that can give PFR or UFR
pub(crate) const BOTH_RRS: [i64; 67] = [
    1, 1, 0, 0, 0, 1, 30, 0, 0, 0, 0, 30, 30, 0, 0, 0, 0, 0, 0, 0, 30, 30, 0, 0, 0, 0, 0, 0, 0, 30,
    30, 0, 0, 0, 0, 0, 1, 30, 0, 0, 0, 0, 30, 30, 0, 0, 0, 0, 0, 0, 0, 30, 30, 0, 0, 0, 0, 0, 0, 0,
    30, 30, 0, 0, 0, 0, 0,
];

// a generator of 30 kW that can give UFR alone
pub(crate) const ONLY_UFR: [i64; 67] = [
    1, 1, 0, 0, 0, 1, 30, 0, 0, 0, 0, 0, 30, 0, 0, 0, 0, 0, 0, 0, 0, 30, 0, 0, 0, 0, 0, 0, 0, 0,
    30, 0, 0, 0, 0, 0, 1, 30, 0, 0, 0, 0, 0, 30, 0, 0, 0, 0, 0, 0, 0, 0, 30, 0, 0, 0, 0, 0, 0, 0,
    0, 30, 0, 0, 0, 0, 0,
];

// a generator of 100 kW that offers all of it as Reg-Up and again as Reg-Down
pub(crate) const REGULATION: [i64; 67] = [
    1, 1, 0, 0, 0, 1, 100, 0, 0, 100, 100, 0, 0, 0, 0, 0, 0, 0, 100, 100, 0, 0, 0, 0, 0, 0, 0, 100,
    100, 0, 0, 0, 0, 0, 0, 0, 1, 100, 0, 0, 100, 100, 0, 0, 0, 0, 0, 0, 0, 100, 100, 0, 0, 0, 0, 0,
    0, 0, 100, 100, 0, 0, 0, 0, 0, 0, 0,
];

// a load resource of 50 kW with UFR
pub(crate) const LOAD_UFR: [i64; 67] = [
    1, 4, 0, 0, 0, 1, 50, 0, 0, 0, 0, 0, 50, 0, 0, 0, 0, 0, 0, 0, 0, 50, 0, 0, 0, 0, 0, 0, 0, 0,
    50, 0, 0, 0, 0, 0, 1, 50, 0, 0, 0, 0, 0, 50, 0, 0, 0, 0, 0, 0, 0, 0, 50, 0, 0, 0, 0, 0, 0, 0,
    0, 50, 0, 0, 0, 0, 0,
];

// a generator of 50 kW with PFR
pub(crate) const GENERATOR_PFR: [i64; 67] = [
    1, 1, 0, 0, 0, 1, 50, 0, 0, 0, 0, 50, 0, 0, 0, 0, 0, 0, 0, 0, 50, 0, 0, 0, 0, 0, 0, 0, 0, 50,
    0, 0, 0, 0, 0, 0, 1, 50, 0, 0, 0, 0, 50, 0, 0, 0, 0, 0, 0, 0, 0, 50, 0, 0, 0, 0, 0, 0, 0, 0,
    50, 0, 0, 0, 0, 0, 0,
];
