// A book just opened.
ghost use Rattle.std.specs.Prelude.{◌≡◌, ℕ};

use super::lengths::Lengths;
use super::lines::Line;
use book::books::OpenBook;

#[derive(Drop)]
pub struct Opened<'a> {
    pub book: OpenBook,
    pub lengths: Lengths,
    // the lines after it
    pub rest: &'a [Line<'a>],
    ghost unclaimed: { (book.ledger.made ≡ 0) × (book.ledger.outstanding ≡ 0) },
    ghost rowless: { (book.ledger.counts.qses ≡ 0) × (book.ledger.counts.loads ≡ 0) × (book.ledger.counts.resources ≡ 0) × (book.ledger.counts.trades ≡ 0) },
}
