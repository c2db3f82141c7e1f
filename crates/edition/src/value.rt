// An edition is a measure.
ghost use Rattle.edition.specs.Edition.{edition_of};
ghost use Rattle.edition.specs.Lawful.{lawful_edition, edition_bound};

use super::edition::Edition;
use account::account::Account;
use cover::sub_type::SubType;
use measure::greater::Greater;
use measure::grouped::Grouped;
use measure::measure::Measure;

impl Measure for Edition {
    ghost meaning = { edition_of };

    ghost order = { λ s. (lawful_edition s).order };

    ghost pool = { λ s. (lawful_edition s).pool };

    ghost help = { λ s. (lawful_edition s).help };

    ghost nothing = { λ s. (lawful_edition s).nothing };

    ghost bound = { λ s. edition_bound s };

    fn value(&self, a: &Account) -> u64 {
        match *self {
            Edition::Grouped => Grouped {}.value(a),
            Edition::SubType => SubType {}.value(a),
            Edition::Greater => {
                let both = Greater {
                    one: Grouped {},
                    other: SubType {},
                };
                both.value(a)
            }
        }
    }
}
