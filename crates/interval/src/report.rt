// What is printed of an interval.
use super::charge::charge;
use super::desk::Desk;
use super::interval::Interval;
use super::side::report_side;
use account::account::Account;
use cover::sub_type::SubType;
use measure::grouped::Grouped;
use rows::codes::Side;
use rows::limits::MAX_ROWS;
use shortfall::short::short_of;
use shortfall::total::total_short;
use std::io;

// Each QSE on both sides under both editions, the totals, and the division of the cost.
pub(crate) fn report(rt: &HostRuntime, desk: &Desk) -> io::Result<()> {
    let Some(interval) = Interval::of(desk) else {
        return println!(rt; "too many rows");
    };
    let Interval { qses, tables } = interval;
    report_qses(rt, interval)?;
    let grouped = total_short(&Grouped {}, qses, tables);
    let sub_type = total_short(&SubType {}, qses, tables);
    println!(rt; "total grouped {grouped} subtype {sub_type}")?;
    match desk.cost {
        None => Ok(()),
        Some(pot) => charge(rt, interval, pot),
    }
}

fn report_qses(rt: &HostRuntime, interval: Interval) -> io::Result<()> {
    let Interval { qses, tables } = interval;
    let mut table = vec![in rt.alloc(); [0u32; 14]; MAX_ROWS]?;
    for row in qses {
        println!(rt; "qse {}", row.number)?;
        for (word, side) in [("snapshot", Side::Snapshot), ("adjusted", Side::Adjusted)] {
            report_side(
                rt,
                word,
                &Account::new(row, side, tables),
                table.as_mut_slice(),
            )?;
        }
        let grouped = short_of(&Grouped {}, row, tables);
        let sub_type = short_of(&SubType {}, row, tables);
        println!(rt; "  shortfall grouped {grouped} subtype {sub_type}")?;
    }
    Ok(())
}
