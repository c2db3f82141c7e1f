// Positions, and the closed set of them that lacks most.
ghost use Rattle.std.specs.Prelude.{◌≡◌, ℕ, ◌-◌, ◌<◌, ◌≤◌, pos, slice_index, slice_index_or};
ghost use Rattle.account.specs.Account.{account_view};
ghost use Rattle.account.specs.View.{counted as countedOf};
ghost use Rattle.least.specs.Sources.{sum_in, reach_all};
ghost use Rattle.least.specs.Chains.{mem};
ghost use Rattle.least.specs.SubType.{sources, demand, reserve, LeastUncovered};
ghost use Rattle.cover.specs.Binding.{Worst};

use super::given::Given;
use super::sums::Summed;
use account::account::Account;
use account::standing::Standing;

// A closed set by its number, and what it lacks in kW. The bound of the lack stands in clauses, since it is handed on as
// a plain number.
#[derive(Clone, Copy)]
pub(crate) struct WorstSet {
    pub(crate) number: usize,
    pub(crate) lack: u64,
}

// The positions as they count.
pub(crate) fn asked_of(standing: &Standing) -> Summed
    ensures { (k : ℕ) → k < 9 → slice_index result.figures k ≡ countedOf (slice_index_or standing.now.positions k (pos 0)) }
{
    Summed::of(standing.counted())
}

// The first closed set with the greatest lack.
pub(crate) fn worst_set(reached: &[u64; 144], asked: &Summed) -> WorstSet
    ensures worst { Worst 144 reached.now asked.now.figures result.number result.lack }
    ensures small { result.lack ≤ 46170000000 }
{
    let mut worst = WorstSet { number: 0, lack: 0 };
    for (k, reach) in reached.iter().enumerate() {
        let lack = asked.sums[k].saturating_sub(*reach);
        if lack > worst.lack {
            worst = WorstSet { number: k, lack };
        }
    }
    worst
}

// What its positions ask beyond what the lines reach of it is just what no cover can help.
pub(crate) fn worst_of(a: &Account) -> WorstSet
    ensures number { result.number < 144 }
    ensures lack { result.lack ≡ sum_in 9 (mem result.number) (demand (account_view a.now)) - reach_all 9 (sources (account_view a.now).lines) (mem result.number) }
    ensures first { (k : ℕ) → k < result.number → sum_in 9 (mem k) (demand (account_view a.now)) - reach_all 9 (sources (account_view a.now).lines) (mem k) < result.lack }
    ensures value { result.lack ≡ reserve (account_view a.now) }
    ensures least { LeastUncovered (account_view a.now) result.lack }
    ensures small { result.lack ≤ 46170000000 }
{
    worst_set(&Given::of(a).reached, &asked_of(&a.standing()))
}
