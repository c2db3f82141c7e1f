// The three measures, in the order of their list.
use super::account::Account;
use super::flow::uncovered_of;
use super::grouped::grouped_value;
use super::overall::overall_before_storage;
use std::alloc::{AllocError, Global};

#[derive(Clone, Copy)]
pub(crate) enum Edition {
    Grouped,
    SubType,
    Greater,
}

impl Edition {
    pub(crate) fn at(place: usize) -> Option<Edition> {
        match place {
            0 => Some(Edition::Grouped),
            1 => Some(Edition::SubType),
            2 => Some(Edition::Greater),
            _ => None,
        }
    }

    pub(crate) fn value(self, heap: Global, account: &Account) -> Result<i64, AllocError> {
        match self {
            Edition::Grouped => Ok(grouped_value(account)),
            Edition::SubType => sub_type_value(heap, account),
            Edition::Greater => Ok(sub_type_value(heap, account)?.max(grouped_value(account))),
        }
    }
}

fn sub_type_value(heap: Global, account: &Account) -> Result<i64, AllocError> {
    let overall = overall_before_storage(account).saturating_sub(account.storage_net);
    Ok(overall.max(0).max(uncovered_of(heap, account)?))
}
