// The number and the place by which a refusal is reported.
ghost use Rattle.std.specs.Prelude.{◌≡◌};
ghost use Rattle.rows.specs.Codes.{fault_number, fault_place};

use super::fault::Fault;
use std::fmt;

// Methods and no `From`: a refusal is reported by its number and its place together.
impl Fault {
    pub fn number(self) -> u8
        ensures { result ≡ fault_number self }
    {
        match self {
            Fault::BrokenTable => 1,
            Fault::WrongLength => 2,
            Fault::OutOfLimits { place: _ } => 3,
            Fault::NotEnrolled => 4,
            Fault::AlreadyEnrolled => 5,
            Fault::BuyerIsSeller => 6,
            Fault::NoPlace => 7,
            Fault::NoSuchTrade => 8,
            Fault::CoverTooShort => 9,
            Fault::TotalTooHigh => 10,
            Fault::ClaimsUsedUp => 11,
            Fault::ForeignClaim => 12,
            Fault::NoLoad => 13,
            Fault::ClaimOutstanding => 14,
        }
    }

    // The first bad place, where the refusal has one.
    pub fn place(self) -> Option<u8>
        ensures { result ≡ fault_place self }
    {
        match self {
            Fault::OutOfLimits { place } => Some(place),
            _ => None,
        }
    }
}

impl fmt::Display for Fault {
    fn fmt<W: fmt::Write>(&self, f: &mut fmt::Formatter<W>) -> fmt::Result {
        write!(f, "refused {}", self.number())?;
        match self.place() {
            Some(place) => write!(f, " place {place}"),
            None => Ok(()),
        }
    }
}
