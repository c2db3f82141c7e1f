// The figures of the worked cases.

// A figure by the grouped and by the sub-type edition of the rules, in kW.
#[derive(Clone, Copy)]
pub struct Both {
    pub grouped: u64,
    pub sub_type: u64,
}

// The book of two QSEs: the sum of shortfalls before the trade, and the shortfalls and the pool's after it.
#[derive(Clone, Copy)]
pub struct Traded {
    pub before: Both,
    pub buyer: Both,
    pub seller: Both,
    pub pool: Both,
}

// A claim in cents: its pot and its rest, and what each puts on the two QSEs and on their loads.
#[derive(Clone, Copy)]
pub struct Charged {
    pub pot: u32,
    pub rest: u32,
    pub on_qses: [u64; 2],
    pub on_loads: [u64; 2],
}

// All of them, in their order.
#[derive(Clone, Copy)]
pub struct CaseFigures {
    // cases 1 to 8: the values of one QSE
    pub values: [Both; 8],
    // case 9
    pub traded: Traded,
    // cases 10 and 11: cents divided over three rows
    pub even: [u64; 3],
    pub one_weight: [u64; 3],
    // case 12
    pub charged: Charged,
}
