// A QSE on one side: its figures, both editions, and the cover of its reserves.
use super::names::{NAMES, name_of};
use account::account::Account;
use cover::binding::binding_set;
use cover::covering::{cover, own_rows};
use cover::pairs::PAIRS;
use cover::sub_type::SubType;
use measure::backing::Backing;
use measure::breakdown::Breakdown;
use measure::grouped_parts::break_down;
use measure::measure::Measure;
use measure::overall::overall_part;
use measure::storage_net::StorageNet;
use measure::totals::Totals;
use std::io;

pub(crate) fn report_side(
    rt: &HostRuntime,
    side: &str,
    a: &Account,
    table: &mut [[u32; 14]],
) -> io::Result<()> {
    let parts = break_down(a);
    println!(rt; "  {side} load {} net {}", parts.load, parts.net)?;
    report_grouped(rt, &parts)?;
    let overall = sub_type_overall(a);
    let value = SubType {}.value(a);
    match cover(a, table) {
        Err(_) => println!(rt; "    subtype overall {overall} value {value}"),
        Ok(reserve) => {
            println!(rt; "    subtype overall {overall} reserve {reserve} value {value}")?;
            report_cover(rt, a, table)?;
            if reserve > 0 {
                report_binding(rt, a)
            } else {
                Ok(())
            }
        }
    }
}

// The overall part with the storage net.
fn sub_type_overall(a: &Account) -> u64 {
    let totals = Totals::of(a);
    let backing = Backing {
        supply: totals.supply,
        offline: totals.offline,
    };
    overall_part(&a.standing(), backing, StorageNet::Counted)
}

fn report_grouped(rt: &HostRuntime, parts: &Breakdown) -> io::Result<()> {
    let Breakdown {
        overall,
        levels,
        reserve,
        value,
        ..
    } = *parts;
    println!(rt;
        "    grouped overall {overall} levels {} {} {} {} {} {} reserve {reserve} value {value}",
        levels.reg_up, levels.rrs, levels.fast, levels.with_ecrs, levels.upward, levels.reg_down
    )
}

// A line for each unit of the QSE, counted from 1, that serves a reserve.
fn report_cover(rt: &HostRuntime, a: &Account, table: &[[u32; 14]]) -> io::Result<()> {
    for (unit, amounts) in (1usize..).zip(table.iter().take(own_rows(a))) {
        report_unit(rt, unit, amounts)?;
    }
    Ok(())
}

fn report_unit(rt: &HostRuntime, unit: usize, amounts: &[u32; 14]) -> io::Result<()> {
    for (amount, (capability, position)) in amounts.iter().zip(PAIRS.iter()) {
        if *amount > 0 {
            let (from, to) = (name_of(*capability), name_of(*position));
            println!(rt; "    unit {unit} covers {to} {amount} from {from}")?;
        }
    }
    Ok(())
}

// The services whose positions, together, no cover can meet.
fn report_binding(rt: &HostRuntime, a: &Account) -> io::Result<()> {
    let binding = binding_set(a);
    print!(rt;
        "    short of reserves by {} kW: the services that bind are",
        binding.lack
    )?;
    for (name, binds) in NAMES.iter().zip(binding.services.iter()) {
        if *binds {
            print!(rt; " {name}")?;
        }
    }
    println!(rt; "")
}
