// The cost divided over the QSEs by shortfall, under both editions.
use super::interval::Interval;
use super::refusal::Refusal;
use account::account::Tables;
use cover::sub_type::SubType;
use division::division::divide;
use measure::grouped::Grouped;
use measure::measure::Measure;
use rows::fault::Fault;
use rows::qse::QseRow;
use shortfall::strike::write_shortfalls;
use std::io;

pub(crate) fn charge(rt: &HostRuntime, interval: Interval, pot: u32) -> io::Result<()> {
    report_charge(rt, "grouped", &Grouped {}, interval, pot)?;
    report_charge(rt, "subtype", &SubType {}, interval, pot)
}

// Shortfalls written into the rows, and the pot put on them.
fn settle<M: Measure>(m: &M, rows: &mut [QseRow], tables: Tables, pot: u32) -> Result<u32, Fault> {
    write_shortfalls(m, rows, tables)?;
    divide(rows, pot)
}

fn report_charge<M: Measure>(
    rt: &HostRuntime,
    edition: &str,
    m: &M,
    interval: Interval,
    pot: u32,
) -> io::Result<()> {
    let mut own = interval.qses.to_vec(rt.alloc())?;
    match settle(m, own.as_mut_slice(), interval.tables, pot) {
        Err(fault) => println!(rt; "cost {pot} {edition} {}", Refusal::Fault(fault)),
        Ok(0) => println!(rt; "cost {pot} {edition} undivided: nobody is short"),
        Ok(_) => {
            println!(rt; "cost {pot} {edition}")?;
            for row in own.as_slice() {
                println!(rt; "  qse {} cents {}", row.number, row.cents)?;
            }
            Ok(())
        }
    }
}
