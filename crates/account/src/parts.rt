// What an off-line unit and a load resource serve of their capabilities.
ghost use Rattle.std.specs.Prelude.{◌≡◌, ◌≤◌, slice_index};
ghost use Rattle.account.specs.Lines.{offline_by, load_part_by};
ghost use Rattle.account.specs.View.{over, slow, up};

use rows::codes::{Kind, Status};
use rows::reserves::Reserves;

fn slow_sum(capability: &Reserves) -> u32
    ensures { result ≡ over slow (λ k. slice_index capability.now.kw k) }
{
    let [.., ecs, ecm, nss, nsm] = capability.kw;
    ecs + ecm + nss + nsm
}

fn up_sum(capability: &Reserves) -> u32
    ensures { result ≡ over up (λ k. slice_index capability.now.kw k) }
{
    let [reg_up, _, pfr, ufr, ffr, ecs, ecm, nss, nsm] = capability.kw;
    reg_up + pfr + ufr + ffr + ecs + ecm + nss + nsm
}

pub(crate) fn off_line_part(status: Status, room: u32, capability: &Reserves) -> u32
    ensures value { result ≡ offline_by status room (λ k. slice_index capability.now.kw k) }
    ensures small { result ≤ room }
{
    match status {
        Status::Absent | Status::On => 0,
        Status::Off | Status::OffQs => room.min(slow_sum(capability)),
    }
}

pub(crate) fn load_part(kind: Kind, room: u32, capability: &Reserves) -> u32
    ensures value { result ≡ load_part_by kind room (λ k. slice_index capability.now.kw k) }
    ensures small { result ≤ room }
{
    match kind {
        Kind::Generation | Kind::Renewable | Kind::Storage => 0,
        Kind::LoadResource => room.min(up_sum(capability)),
    }
}
