// A number of kW for each of the six levels of the grouped edition.
#[derive(Clone, Copy, Default)]
pub struct Levels {
    pub reg_up: u64,
    pub rrs: u64,
    // Reg-Up and RRS
    pub fast: u64,
    // Reg-Up, RRS and ECRS
    pub with_ecrs: u64,
    // all but Reg-Down
    pub upward: u64,
    pub reg_down: u64,
}
