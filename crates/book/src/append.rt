// A row added to a table that is lent.
ghost use Rattle.book.specs.Entries.{Appends};

use rows::fault::Fault;

// The row after the first `count`, of which a book has at most `most`; how many there are then.
pub(crate) fn append<T: Copy>(
    table: &mut [T],
    count: usize,
    most: usize,
    row: T,
) -> Result<usize, Fault>
    ensures { Appends count most row table.old table.new result }
{
    if count >= most || count >= table.len() {
        return Err(Fault::NoPlace);
    }
    table[count] = row;
    Ok(count + 1)
}
