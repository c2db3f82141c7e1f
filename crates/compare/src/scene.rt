// What is drawn for a seed before its list: the book's number, its tables and the purse.
use super::chooser::Chooser;
use super::themes::Theme;
use second::book::Lent;

// One place more than claims that a book makes, so that the book itself refuses the one after its last.
const PURSE: usize = 1_001;

#[derive(Clone, Copy)]
pub(crate) struct Scene {
    pub(crate) theme: Theme,
    pub(crate) number: i64,
    pub(crate) lent: Lent,
    pub(crate) purse: usize,
    pub(crate) steps: usize,
}

impl Scene {
    pub(crate) fn new(seed: u64, chooser: &mut Chooser) -> Scene {
        let theme = Theme::of(seed);
        Scene {
            theme,
            number: book_number(chooser),
            lent: theme.lent(chooser),
            purse: purse_length(theme, chooser),
            steps: theme.steps(chooser),
        }
    }
}

fn book_number(chooser: &mut Chooser) -> i64 {
    match chooser.dice.up_to(3) {
        0 => 0,
        1 => 4_294_967_295,
        _ => chooser.dice.number(1, 1_000_000),
    }
}

fn purse_length(theme: Theme, chooser: &mut Chooser) -> usize {
    if theme != Theme::ClaimsUsedUp && chooser.dice.one_in(6) {
        return chooser.dice.length(4);
    }
    PURSE
}
