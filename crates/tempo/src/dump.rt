// An account printed for another solver.
use super::fleet::Fleet;
use account::counted::not_below_zero;
use std::io;

fn print_line(rt: &HostRuntime, room: u32, capability: &[u32; 9]) -> io::Result<()> {
    print!(rt; "{room}")?;
    for kw in capability {
        print!(rt; " {kw}")?;
    }
    println!(rt; "")
}

// The positions as they count; then of each line the room and the capabilities.
pub(crate) fn dump(rt: &HostRuntime, fleet: &Fleet) -> anyhow::Result<()> {
    let tables = fleet.tables()?;
    let account = fleet.account(tables, 0);
    for position in &account.standing().positions {
        print!(rt; "{} ", not_below_zero(*position))?;
    }
    println!(rt; "")?;
    for row in tables.resources {
        if let Some(line) = account.line(row) {
            print_line(rt, line.room, &line.capability)?;
        }
    }
    Ok(())
}
