// Case 12: a claim charged to the book of the two QSEs.
ghost use Rattle.std.specs.Prelude.{◌≡◌};
ghost use Rattle.book.specs.State.{open_book};
ghost use Rattle.cases.specs.Charge.{two_book};
ghost use Rattle.cases.specs.Worked.{charge};

use super::figures::Charged;
use super::two::{Rows, two_qses};
use book::books::{Counts, Ledger, OpenBook};
use measure::grouped::Grouped;

// With the rows of the two QSEs.
fn two_book() -> OpenBook
    ensures { open_book result ≡ two_book }
{
    OpenBook {
        ledger: Ledger {
            number: 1,
            counts: Counts {
                qses: 2,
                loads: 2,
                resources: 1,
                trades: 1,
            },
            made: 0,
            outstanding: 0,
        },
    }
}

// 1,000 cents at 200 cents per MW.
pub(crate) fn charges() -> Charged
    ensures { result ≡ charge }
{
    let Rows {
        mut qses,
        mut loads,
        units,
        trades,
    } = two_qses();
    let struck = two_book().strike(&Grouped {}, &mut qses, &loads, &units, &trades);
    let (mut book, _) = struck.unwrap();
    let claimed = book.claim(&qses, &loads, &units, &trades, 1000, 200);
    let charged = book.charge(&mut qses, &mut loads, &units, &trades, claimed.unwrap());
    let (pot, rest) = charged.unwrap();
    Charged {
        pot,
        rest,
        on_qses: [qses[0].cents, qses[1].cents],
        on_loads: [loads[0].cents, loads[1].cents],
    }
}
