// What the lines ask for.
use super::lengths::Lengths;
use super::verbs::Verb;
use replay::calls::Call;

#[derive(Clone, Copy)]
pub enum Request<'a> {
    Tables(Lengths),
    Open(i64),
    Call(Call<'a>),
}

impl<'a> Request<'a> {
    // Nothing where the verb takes another count of numbers.
    pub(crate) fn of(verb: Verb, list: &'a [i64]) -> Option<Request<'a>> {
        match (verb, list) {
            (Verb::Tables, _) => Some(Request::Tables(Lengths::of(list)?)),
            (Verb::Open, [number]) => Some(Request::Open(*number)),
            _ => Some(Request::Call(call_of(verb, list)?)),
        }
    }
}

fn call_of<'a>(verb: Verb, list: &'a [i64]) -> Option<Call<'a>> {
    Some(match (verb, list) {
        (Verb::Enrol, [number]) => Call::Enrol(*number),
        (Verb::Figures, _) => Call::Figures(list),
        (Verb::Load, [_, _, _]) => Call::Load(list),
        (Verb::Resource, _) => Call::Resource(list),
        (Verb::Trade, [_, _, _, _, _, _]) => Call::Trade(list),
        (Verb::Void, [place]) => Call::Void(place_of(*place)),
        (Verb::Short(edition), [number]) => Call::Short(edition.place(), *number),
        (Verb::Cover, [number, side]) => Call::Cover(*number, *side),
        (Verb::Strike(edition), []) => Call::Strike(edition.place()),
        (Verb::Share, [number]) => Call::Share(*number),
        (Verb::Claim, [cost, rate]) => Call::Claim(*cost, *rate),
        (Verb::Charge, [place]) => Call::Charge(place_of(*place)),
        (Verb::HandBack, [place]) => Call::HandBack(place_of(*place)),
        (Verb::Reopen, []) => Call::Reopen,
        _ => return None,
    })
}

// Places are counted from 0. Nothing stands at a negative one, nor at the greatest of all.
fn place_of(number: i64) -> usize {
    usize::try_from(number).unwrap_or(usize::MAX)
}
