// The first words of the lines.
use edition::edition::Edition;
use edition::names::named;
use std::fmt;
use std::str::SplitWhitespace;

#[derive(Clone, Copy)]
pub enum Verb {
    Tables,
    Open,
    Enrol,
    Figures,
    Load,
    Resource,
    Trade,
    Void,
    Short(Edition),
    Cover,
    Strike(Edition),
    Share,
    Claim,
    Charge,
    HandBack,
    Reopen,
}

impl Verb {
    // The verb that a word is; one that measures has its edition in the word after it, so that a verb is not
    // read from one word by `FromStr`.
    pub(crate) fn read(word: &str, words: &mut SplitWhitespace<'_>) -> Option<Verb> {
        Some(match word {
            "tables" => Verb::Tables,
            "open" => Verb::Open,
            "enrol" => Verb::Enrol,
            "figures" => Verb::Figures,
            "load" => Verb::Load,
            "resource" => Verb::Resource,
            "trade" => Verb::Trade,
            "void" => Verb::Void,
            "short" => Verb::Short(named(words.next()?)?),
            "cover" => Verb::Cover,
            "strike" => Verb::Strike(named(words.next()?)?),
            "share" => Verb::Share,
            "claim" => Verb::Claim,
            "charge" => Verb::Charge,
            "hand_back" => Verb::HandBack,
            "reopen" => Verb::Reopen,
            _ => return None,
        })
    }
}

impl fmt::Display for Verb {
    fn fmt<W: fmt::Write>(&self, f: &mut fmt::Formatter<W>) -> fmt::Result {
        f.write_str(match *self {
            Verb::Tables => "tables",
            Verb::Open => "open",
            Verb::Enrol => "enrol",
            Verb::Figures => "figures",
            Verb::Load => "load",
            Verb::Resource => "resource",
            Verb::Trade => "trade",
            Verb::Void => "void",
            Verb::Short(_) => "short",
            Verb::Cover => "cover",
            Verb::Strike(_) => "strike",
            Verb::Share => "share",
            Verb::Claim => "claim",
            Verb::Charge => "charge",
            Verb::HandBack => "hand_back",
            Verb::Reopen => "reopen",
        })
    }
}
