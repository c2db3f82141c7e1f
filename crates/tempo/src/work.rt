// What is timed.
use account::account::Account;
use cover::covering::cover;
use measure::measure::Measure;
use std::alloc::{AllocError, Global};

pub trait Work {
    fn run(&mut self, a: &Account) -> Option<u64>;
}

// The value of a measure.
#[derive(Clone, Copy)]
pub struct Valued<M>(pub M);

impl<M: Measure> Work for Valued<M> {
    fn run(&mut self, a: &Account) -> Option<u64> {
        Some(self.0.value(a))
    }
}

#[derive(Drop)]
pub struct Covered {
    rows: Vec<[u32; 14]>,
}

impl Covered {
    pub(crate) fn new(heap: Global, lines: usize) -> Result<Covered, AllocError> {
        Ok(Covered {
            rows: vec![in heap; [0; 14]; lines]?,
        })
    }

    // The sum of what the last cover gives.
    pub(crate) fn given(&self) -> u64 {
        let amounts = self.rows.as_slice().as_flattened();
        amounts
            .iter()
            .fold(0u64, |sum, amount| sum.saturating_add(u64::from(*amount)))
    }
}

impl Work for Covered {
    fn run(&mut self, a: &Account) -> Option<u64> {
        cover(a, self.rows.as_mut_slice()).ok()
    }
}
