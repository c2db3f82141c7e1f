// Answers made of results, and as they are printed.
ghost use Rattle.std.specs.Prelude.{◌≡◌, MatchResult};
ghost use Rattle.std.specs.Result.{ForOk};

use super::calls::Answer;
use rows::fault::Fault;
use std::fmt;

// A refusal, or what is said of the value that a granted call gives.
pub(crate) fn answered<V, F: FnOnce(V) -> Answer>(res: Result<V, Fault>, granted: F) -> Answer
    requires { ForOk res (λ v. F.pre granted v) }
    ensures { MatchResult res (λ v. F.post granted v result) (λ e. result ≡ Answer.Refused e) }
{
    match res {
        Ok(value) => granted(value),
        Err(fault) => Answer::Refused(fault),
    }
}

impl fmt::Display for Answer {
    fn fmt<W: fmt::Write>(&self, f: &mut fmt::Formatter<W>) -> fmt::Result {
        match *self {
            Answer::NotAllowed => write!(f, "not allowed"),
            Answer::Refused(fault) => write!(f, "{fault}"),
            Answer::Granted => write!(f, "granted"),
            Answer::Placed(place) => write!(f, "granted {place}"),
            Answer::Shortfall(kw) => write!(f, "granted {kw}"),
            Answer::Uncovered(kw) => write!(f, "granted {kw}"),
            Answer::Total(kw) => write!(f, "granted {kw}"),
            Answer::Shared(None) => write!(f, "granted none"),
            Answer::Shared(Some((shortfall, total))) => write!(f, "granted {shortfall} {total}"),
            Answer::Claimed(place) => write!(f, "granted {place}"),
            Answer::Charged(pot, rest) => write!(f, "granted {pot} {rest}"),
        }
    }
}
