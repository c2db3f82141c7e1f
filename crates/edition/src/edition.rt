// The editions that are measured by.
#[derive(Clone, Copy)]
pub enum Edition {
    Grouped = 0,
    SubType = 1,
    // the greater of the two
    Greater = 2,
}
