// Why a call is refused. `specs/Codes.antt` fixes the number of each case.
#[derive(Clone, Copy, PartialEq, Eq)]
pub enum Fault {
    // a table is shorter than its count, or holds what no call wrote
    BrokenTable,
    WrongLength,
    // places count from 1, in the call's own order
    OutOfLimits { place: u8 },
    NotEnrolled,
    AlreadyEnrolled,
    BuyerIsSeller,
    NoPlace,
    NoSuchTrade,
    CoverTooShort,
    TotalTooHigh,
    ClaimsUsedUp,
    ForeignClaim,
    NoLoad,
    ClaimOutstanding,
}
