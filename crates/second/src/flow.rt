// The reserve part of the sub-type edition: what the most that flows from units to positions leaves uncovered.
use super::account::Account;
use super::line::Line;
use super::network::{Network, SINK, SOURCE};
use super::reserves::{Amounts, RESERVES, Reserve};
use std::alloc::{AllocError, Global};

// A capability and a position that it may cover, in the order of a cover's amounts.
pub(crate) const PAIRS: [(Reserve, Reserve); 14] = [
    (Reserve::Ru, Reserve::Ru),
    (Reserve::Rd, Reserve::Rd),
    (Reserve::Pfr, Reserve::Pfr),
    (Reserve::Pfr, Reserve::Ufr),
    (Reserve::Pfr, Reserve::Ffr),
    (Reserve::Ufr, Reserve::Ufr),
    (Reserve::Ufr, Reserve::Ffr),
    (Reserve::Ffr, Reserve::Ffr),
    (Reserve::Ecs, Reserve::Ecs),
    (Reserve::Ecs, Reserve::Ecm),
    (Reserve::Ecm, Reserve::Ecm),
    (Reserve::Nss, Reserve::Nss),
    (Reserve::Nss, Reserve::Nsm),
    (Reserve::Nsm, Reserve::Nsm),
];

// The positions' nodes come after source and sink, in their order.
fn node_of(position: Reserve) -> usize {
    match position {
        Reserve::Ru => 2,
        Reserve::Rd => 3,
        Reserve::Pfr => 4,
        Reserve::Ufr => 5,
        Reserve::Ffr => 6,
        Reserve::Ecs => 7,
        Reserve::Ecm => 8,
        Reserve::Nss => 9,
        Reserve::Nsm => 10,
    }
}

pub(crate) fn uncovered_of(heap: Global, account: &Account) -> Result<i64, AllocError> {
    let mut network = with_positions(heap, &account.positions)?;
    for line in &account.lines {
        add_line(&mut network, line)?;
    }
    let asked = account.positions.sum_of(&RESERVES);
    Ok(asked.saturating_sub(network.most()?))
}

fn with_positions(heap: Global, positions: &Amounts) -> Result<Network, AllocError> {
    let mut network = Network::new(heap);
    let _source = network.add_node()?;
    let _sink = network.add_node()?;
    for position in RESERVES {
        let node = network.add_node()?;
        network.add_pipe(node, SINK, positions.of(position))?;
    }
    Ok(network)
}

// From the source by a node of the line's room to a node for each capability, and on to the positions.
fn add_line(network: &mut Network, line: &Line) -> Result<(), AllocError> {
    let room = network.add_node()?;
    network.add_pipe(SOURCE, room, line.room)?;
    for capability in RESERVES {
        let kw = line.capabilities.of(capability);
        if kw > 0 {
            let node = network.add_node()?;
            network.add_pipe(room, node, kw)?;
            add_pairs(network, node, capability, kw)?;
        }
    }
    Ok(())
}

fn add_pairs(
    network: &mut Network,
    node: usize,
    capability: Reserve,
    kw: i64,
) -> Result<(), AllocError> {
    for (from, to) in PAIRS {
        if from == capability {
            network.add_pipe(node, node_of(to), kw)?;
        }
    }
    Ok(())
}
