// Codes read from the numbers by which they are entered.
ghost use Rattle.rows.specs.Codes.{Reads, kind_number, status_number, sub_number, side_number, sides_number};

use super::codes::{Kind, Side, Sides, Status, SubType};

// The number stands for no code.
#[derive(Clone, Copy, PartialEq, Eq)]
pub struct UnknownCode {}

impl TryFrom<i64> for Kind {
    type Error = UnknownCode;

    ghost try_from_gives = { Reads kind_number 1 4 };

    fn try_from(number: i64) -> Result<Kind, UnknownCode> {
        match number {
            1 => Ok(Kind::Generation),
            2 => Ok(Kind::Renewable),
            3 => Ok(Kind::Storage),
            4 => Ok(Kind::LoadResource),
            _ => Err(UnknownCode {}),
        }
    }
}

impl TryFrom<i64> for Status {
    type Error = UnknownCode;

    ghost try_from_gives = { Reads status_number 0 3 };

    fn try_from(number: i64) -> Result<Status, UnknownCode> {
        match number {
            0 => Ok(Status::Absent),
            1 => Ok(Status::On),
            2 => Ok(Status::Off),
            3 => Ok(Status::OffQs),
            _ => Err(UnknownCode {}),
        }
    }
}

impl TryFrom<i64> for SubType {
    type Error = UnknownCode;

    ghost try_from_gives = { Reads sub_number 1 9 };

    fn try_from(number: i64) -> Result<SubType, UnknownCode> {
        match number {
            1 => Ok(SubType::RegUp),
            2 => Ok(SubType::RegDown),
            3 => Ok(SubType::Pfr),
            4 => Ok(SubType::Ufr),
            5 => Ok(SubType::Ffr),
            6 => Ok(SubType::Ecs),
            7 => Ok(SubType::Ecm),
            8 => Ok(SubType::Nss),
            9 => Ok(SubType::Nsm),
            _ => Err(UnknownCode {}),
        }
    }
}

impl TryFrom<i64> for Side {
    type Error = UnknownCode;

    ghost try_from_gives = { Reads side_number 1 2 };

    fn try_from(number: i64) -> Result<Side, UnknownCode> {
        match number {
            1 => Ok(Side::Snapshot),
            2 => Ok(Side::Adjusted),
            _ => Err(UnknownCode {}),
        }
    }
}

impl TryFrom<i64> for Sides {
    type Error = UnknownCode;

    ghost try_from_gives = { Reads sides_number 1 3 };

    fn try_from(number: i64) -> Result<Sides, UnknownCode> {
        match number {
            1 => Ok(Sides::SnapshotOnly),
            2 => Ok(Sides::AdjustedOnly),
            3 => Ok(Sides::Both),
            _ => Err(UnknownCode {}),
        }
    }
}
