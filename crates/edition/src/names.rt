// The words for the editions.
ghost use Rattle.edition.specs.Edition.{Named};

use super::edition::Edition;

// No `FromStr`: a word that names no edition is no error here, and its place in the line says what to do.
pub fn named(word: &str) -> Option<Edition>
    ensures { Named word.now result }
{
    match word {
        "grouped" => Some(Edition::Grouped),
        "subtype" => Some(Edition::SubType),
        "greater" => Some(Edition::Greater),
        _ => None,
    }
}
