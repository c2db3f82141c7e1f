// Why a line of the input is not taken.
use rows::fault::Fault;
use std::alloc::{AllocError, AllocFailed};
use std::fmt;

#[derive(Clone, Copy)]
pub enum Refusal {
    Unreadable,
    NoMemory,
    Fault(Fault),
}

impl From<Fault> for Refusal {
    fn from(fault: Fault) -> Refusal {
        Refusal::Fault(fault)
    }
}

impl From<AllocError> for Refusal {
    fn from(_e: AllocError) -> Refusal {
        Refusal::NoMemory
    }
}

impl<T: Drop> From<AllocFailed<T>> for Refusal {
    fn from(_e: AllocFailed<T>) -> Refusal {
        Refusal::NoMemory
    }
}

// The cause in this program's words; one that no line of this input meets stands by its number alone.
fn words(fault: Fault) -> &'static str {
    match fault {
        Fault::WrongLength => "the list has another number of figures",
        Fault::OutOfLimits { place: _ } => "a figure or code is outside its limits",
        Fault::NotEnrolled => "a named QSE has no figures",
        Fault::BuyerIsSeller => "the buyer is the seller",
        Fault::NoPlace => "the table is full",
        Fault::TotalTooHigh => "the total is above 4000000000",
        _ => "refused",
    }
}

impl fmt::Display for Refusal {
    fn fmt<W: fmt::Write>(&self, f: &mut fmt::Formatter<W>) -> fmt::Result {
        match *self {
            Refusal::Unreadable => write!(f, "unreadable"),
            Refusal::NoMemory => write!(f, "found no memory"),
            Refusal::Fault(fault) => {
                let why = words(fault);
                write!(f, "{fault}: {why}")
            }
        }
    }
}
