// Why an account is short of reserves: the services that bind.
ghost use Rattle.std.specs.Prelude.{◌≡◌, ℕ, ◌<◌, false, slice_index_or};
ghost use Rattle.account.specs.Account.{account_view};
ghost use Rattle.least.specs.Chains.{mem};
ghost use Rattle.cover.specs.Binding.{Binds};

use super::lacking::worst_of;
use super::sets::member;
use account::account::Account;
use std::array;

// A set of sub-types, by their places, and what it lacks in kW.
#[derive(Clone, Copy)]
pub struct Binding {
    pub lack: u64,
    pub services: [bool; 9],
}

fn members(k: usize) -> [bool; 9]
    requires { k < 144 }
    ensures { (j : ℕ) → j < 9 → slice_index_or result j false ≡ mem k j }
{
    array::from_fn(|j| member(k, j))
}

// A set whose positions, beyond all that the lines reach of it, are just what no cover can help.
pub fn binding_set(a: &Account) -> Binding
    ensures { Binds (account_view a.now) result }
{
    let worst = worst_of(a);
    Binding {
        lack: worst.lack,
        services: members(worst.number),
    }
}
