// The edition of the rules that counts by sub-type, a measure.
ghost use Rattle.least.specs.SubType.{sub_type};
ghost use Rattle.least.proofs.SubTypeLawful.{lawful_subtype, subtype_bound};

use super::given::Given;
use super::lacking::{asked_of, worst_set};
use account::account::Account;
use measure::backing::Backing;
use measure::measure::Measure;
use measure::overall::overall_part;
use measure::storage_net::StorageNet;

#[derive(Clone, Copy)]
pub struct SubType {}

impl Measure for SubType {
    ghost meaning = { λ _. sub_type };

    ghost order = { λ s. lawful_subtype.order };

    ghost pool = { λ s. lawful_subtype.pool };

    ghost help = { λ s. lawful_subtype.help };

    ghost nothing = { λ s. lawful_subtype.nothing };

    ghost bound = { λ s. subtype_bound };

    // One pass over the resources gives both parts.
    fn value(&self, a: &Account) -> u64 {
        let standing = a.standing();
        let given = Given::of(a);
        let backing = Backing {
            supply: given.supply,
            offline: given.offline,
        };
        let overall = overall_part(&standing, backing, StorageNet::Counted);
        let worst = worst_set(&given.reached, &asked_of(&standing));
        overall.max(worst.lack)
    }
}
