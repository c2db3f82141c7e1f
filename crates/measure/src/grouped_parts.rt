// The value of the grouped edition, and the figures it is made from.
ghost use Rattle.account.specs.Account.{account_view};
ghost use Rattle.measure.specs.Grouped.{BrokenDown};

use super::backing::Backing;
use super::breakdown::Breakdown;
use super::levels::Levels;
use super::overall::overall_part;
use super::storage_net::StorageNet;
use super::totals::Totals;
use account::account::Account;

pub fn break_down(a: &Account) -> Breakdown
    ensures { BrokenDown (account_view a.now) result }
{
    let standing = a.standing();
    let asked = Levels::of(&standing.counted());
    let totals = Totals::of(a);
    let levels = asked.less(totals.served);
    let reserve = levels.worst_upward() + levels.reg_down;
    let backing = Backing {
        supply: totals.supply,
        offline: totals.offline,
    };
    let overall = overall_part(&standing, backing, StorageNet::Ignored);
    Breakdown {
        load: standing.load,
        net: standing.net,
        overall,
        levels,
        reserve,
        value: overall.max(reserve),
    }
}
