// What rows say by a code. The number beside a case is the one by which it is entered; `specs/Codes.antt` fixes it.

// What a resource is.
#[derive(Clone, Copy, PartialEq, Eq)]
pub enum Kind {
    Generation = 1,
    // wind or solar
    Renewable = 2,
    Storage = 3,
    // a load that can be curtailed
    LoadResource = 4,
}

// What a resource does on a side. A unit on-line only by RUC instruction is absent.
#[derive(Clone, Copy, PartialEq, Eq)]
pub enum Status {
    Absent = 0,
    On = 1,
    Off = 2,
    // off-line, and quick to start
    OffQs = 3,
}

// The nine sub-types of reserves: Reg-Up, Reg-Down, the three of RRS, the two of ECRS and the two
// of Non-Spin, each dispatched by SCED or not.
#[derive(Clone, Copy, PartialEq, Eq)]
pub enum SubType {
    RegUp = 1,
    RegDown = 2,
    Pfr = 3,
    Ufr = 4,
    Ffr = 5,
    Ecs = 6,
    Ecm = 7,
    Nss = 8,
    Nsm = 9,
}

// The two times at which a QSE is measured: the RUC snapshot and the end of the Adjustment Period.
#[derive(Clone, Copy, PartialEq, Eq)]
pub enum Side {
    Snapshot = 1,
    Adjusted = 2,
}

// The sides on which a trade counts.
#[derive(Clone, Copy, PartialEq, Eq)]
pub enum Sides {
    SnapshotOnly = 1,
    AdjustedOnly = 2,
    Both = 3,
}

// What a trade moves: supply, as capacity or energy, or an obligation to hold a reserve.
#[derive(Clone, Copy, PartialEq, Eq)]
pub enum Traded {
    Capacity,
    Energy,
    Position { sub_type: SubType },
}
