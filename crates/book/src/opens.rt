// A book opened.
ghost use Rattle.book.specs.Entries.{Opens};

use super::books::{Counts, Ledger, OpenBook};
use rows::fault::Fault;

impl OpenBook {
    // Without rows and claims.
    pub fn open(number: i64) -> Result<OpenBook, Fault>
        ensures { Opens number result }
    {
        let Ok(number) = u32::try_from(number) else {
            return Err(Fault::OutOfLimits { place: 1 });
        };
        Ok(OpenBook {
            ledger: Ledger {
                number,
                counts: Counts {
                    qses: 0,
                    loads: 0,
                    resources: 0,
                    trades: 0,
                },
                made: 0,
                outstanding: 0,
            },
        })
    }
}
