// A book: single numbers, by which the tables that are lent to each call are read.
//
// The tables are the caller's, and a book keeps how many rows of each are its own: no heap is used in the library.
// Every call takes the four one by one, lent for reading or for writing as it needs them, and its signature says
// so. A struct of them was tried: lent as a whole it asks for writing where a call only reads, and a call that writes
// one table while it reads another through the struct has no rule in the borrow checker.
ghost use Rattle.std.specs.Prelude.{◌≡◌, ℕ, ◌≤◌, true};
ghost use Rattle.rows.specs.Limits.{max_rows, max_shortfall, max_qses, max_claims, max_cost, max_rate};

pub mod charges;
pub mod claims;

// How many rows of each table are the book's.
#[derive(Clone, Copy)]
pub struct Counts {
    pub qses: usize,
    pub loads: usize,
    pub resources: usize,
    pub trades: usize,
    ghost few: { (qses ≤ max_qses) × (loads ≤ max_rows) × (resources ≤ max_rows) × (trades ≤ max_rows) },
}

// What a book keeps, open or struck: the counts of its rows and of its claims.
#[derive(Clone, Copy)]
pub struct Ledger {
    pub number: u32,
    pub counts: Counts,
    pub made: u16,
    pub outstanding: u16,
    ghost claims: { (outstanding ≤ made) × (made ≤ max_claims) },
}

// A book that takes entries.
#[derive(Drop)]
pub struct OpenBook {
    pub ledger: Ledger,
}

// A book whose shortfalls are written, with their sum.
#[derive(Drop)]
pub struct StruckBook {
    pub ledger: Ledger,
    pub total: u32,
    ghost limit: { total ≤ max_shortfall },
}

// A right to charge cents to a book's rows; it is let go only once it is spent.
pub struct Claim {
    pub book: u32,
    pub cents: u32,
    pub rate: u32,
    // a flag, since a type with a `drop` cannot be taken apart where it is spent (tried in `hand_back`)
    spent: bool,
    ghost limits: { (1 ≤ cents) × (cents ≤ max_cost) × (rate ≤ max_rate) },
}

impl Drop for Claim {
    fn drop(self)
        requires { self.spent ≡ true }
    {
        let Claim {
            book: _,
            cents: _,
            rate: _,
            spent: _,
        } = self;
    }
}
