// The causes of a refusal: all are judged, and the smallest is returned.
use super::calls::Refusal;

#[derive(Clone, Copy)]
pub(crate) enum Cause {
    ShortTable,
    WrongLength,
    BadFigure,
    Unknown,
    Enrolled,
    SoldToItself,
    NoPlace,
    NoTrade,
    ShortCover,
    TooMuch,
    NoMoreClaims,
    NotOurs,
    NoLoad,
    Outstanding,
}

#[derive(Clone, Copy)]
pub(crate) struct Causes {
    // by their order above, which is that of their numbers
    found: [bool; 14],
    first_bad: usize,
}

impl Causes {
    pub(crate) fn none() -> Causes {
        Causes {
            found: [false; 14],
            first_bad: 0,
        }
    }

    pub(crate) fn note(&mut self, cause: Cause, is_met: bool) {
        if is_met {
            if let Some(found) = self.found.get_mut(cause as usize) {
                *found = true;
            }
        }
    }

    // The first place at which a number is bad, if any is.
    pub(crate) fn note_bad(&mut self, first_bad: Option<usize>) {
        if let Some(place) = first_bad {
            self.first_bad = place;
            self.note(Cause::BadFigure, true);
        }
    }

    pub(crate) fn least(&self) -> Option<Refusal> {
        for (number, found) in (1..).zip(self.found.iter()) {
            if *found {
                let place = if number == 3 {
                    Some(self.first_bad)
                } else {
                    None
                };
                return Some(Refusal { number, place });
            }
        }
        None
    }
}
