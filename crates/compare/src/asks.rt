// What is asked of both books.
use replay::calls::Call as FirstCall;
use second::calls::Call as SecondCall;

#[derive(Drop)]
pub(crate) enum Ask {
    Enrol(i64),
    Figures(Vec<i64>),
    Load(Vec<i64>),
    Resource(Vec<i64>),
    Trade(Vec<i64>),
    Void(usize),
    Short(usize, i64),
    Cover(i64, i64),
    Strike(usize),
    Share(i64),
    Claim(i64, i64),
    Charge(usize),
    HandBack(usize),
    Reopen,
}

impl Ask {
    pub(crate) fn first(&self) -> FirstCall<'_> {
        match self {
            Ask::Enrol(qse) => FirstCall::Enrol(*qse),
            Ask::Figures(list) => FirstCall::Figures(list.as_slice()),
            Ask::Load(list) => FirstCall::Load(list.as_slice()),
            Ask::Resource(list) => FirstCall::Resource(list.as_slice()),
            Ask::Trade(list) => FirstCall::Trade(list.as_slice()),
            Ask::Void(place) => FirstCall::Void(*place),
            Ask::Short(measure, qse) => FirstCall::Short(*measure, *qse),
            Ask::Cover(qse, side) => FirstCall::Cover(*qse, *side),
            Ask::Strike(measure) => FirstCall::Strike(*measure),
            Ask::Share(qse) => FirstCall::Share(*qse),
            Ask::Claim(cents, rate) => FirstCall::Claim(*cents, *rate),
            Ask::Charge(place) => FirstCall::Charge(*place),
            Ask::HandBack(place) => FirstCall::HandBack(*place),
            Ask::Reopen => FirstCall::Reopen,
        }
    }

    pub(crate) fn second(&self) -> SecondCall<'_> {
        match self {
            Ask::Enrol(qse) => SecondCall::Enrol(*qse),
            Ask::Figures(list) => SecondCall::Figures(list.as_slice()),
            Ask::Load(list) => SecondCall::Load(list.as_slice()),
            Ask::Resource(list) => SecondCall::Resource(list.as_slice()),
            Ask::Trade(list) => SecondCall::Trade(list.as_slice()),
            Ask::Void(place) => SecondCall::Void(*place),
            Ask::Short(measure, qse) => SecondCall::Short(*measure, *qse),
            Ask::Cover(qse, side) => SecondCall::Cover(*qse, *side),
            Ask::Strike(measure) => SecondCall::Strike(*measure),
            Ask::Share(qse) => SecondCall::Share(*qse),
            Ask::Claim(cents, rate) => SecondCall::Claim(*cents, *rate),
            Ask::Charge(place) => SecondCall::Charge(*place),
            Ask::HandBack(place) => SecondCall::HandBack(*place),
            Ask::Reopen => SecondCall::Reopen,
        }
    }
}
