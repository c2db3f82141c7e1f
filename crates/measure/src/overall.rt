// The overall part of a value.
ghost use Rattle.std.specs.Prelude.{◌≡◌, ◌+◌, ◌*◌, ◌≤◌, pos, ◌-ℤ◌, slice_index_or};
ghost use Rattle.account.specs.View.{counted as countedOf};
ghost use Rattle.measure.specs.Grouped.{wanted_by};
ghost use Rattle.measure.specs.Overall.{Near, storage_of, overall_part};

use super::backing::Backing;
use super::storage_net::StorageNet;
use account::counted::not_below_zero;
use account::standing::Standing;

// Load and reserves in kW; what off-line units serve is not asked for a second time.
fn wanted(standing: &Standing, offline: u64) -> u64
    ensures value { result ≡ 4 * standing.now.load + wanted_by (λ k. countedOf (slice_index_or standing.now.positions k (pos 0))) offline }
    ensures small { result ≤ 50000000000 }
{
    let [reg_up, _, pfr, ufr, ffr, ecs, ecm, nss, nsm] = standing.counted();
    let fast = reg_up + pfr + ufr + ffr;
    let slow = (ecs + ecm + nss + nsm).saturating_sub(offline);
    4 * standing.load + (fast + slow)
}

fn stored(standing: &Standing, storage_net: StorageNet) -> i64
    ensures value { result ≡ storage_of storage_net standing.now.storage_net }
    ensures near { Near result }
{
    match storage_net {
        StorageNet::Ignored => 0,
        StorageNet::Counted => standing.storage_net,
    }
}

fn balance(wanted: u64, supply: u64, net: i64, stored: i64) -> i64
    requires small { (wanted ≤ 50000000000) × (supply ≤ 15360000000) }
    requires near { (Near net) × (Near stored) }
    ensures { result ≡ pos wanted -ℤ pos supply -ℤ net -ℤ stored }
{
    wanted as i64 - supply as i64 - net - stored
}

// What is wanted beyond what is there.
pub fn overall_part(standing: &Standing, backing: Backing, storage_net: StorageNet) -> u64
    ensures { result ≡ overall_part standing.now backing.supply backing.offline storage_net }
{
    let wanted = wanted(standing, backing.offline);
    let stored = stored(standing, storage_net);
    not_below_zero(balance(wanted, backing.supply, standing.net, stored))
}
