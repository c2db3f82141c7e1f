// The rules of places, as tests.
ghost use Rattle.std.specs.Prelude.{Decides};
ghost use Rattle.entry.specs.Rules.{Marked, ZeroUnless, Spans, TypedFor, RuleKept};

use super::form::Rule;
use rows::codes::Kind;

// The kind of a trade that moves a position; that case of `Traded` holds a sub-type, so no number can be taken from it.
const POSITION: i64 = 3;

fn marked(x: i64, kind: i64) -> bool
    ensures { Decides result (Marked x kind) }
{
    x == 0 || (kind != Kind::Renewable as i64 && kind != Kind::LoadResource as i64)
}

fn zero_unless(x: i64, y: i64, n: i64) -> bool
    ensures { Decides result (ZeroUnless x y n) }
{
    x == 0 || y == n
}

fn spans(lsl: i64, hsl: i64, kind: i64) -> bool
    ensures { Decides result (Spans lsl hsl kind) }
{
    lsl <= hsl && (lsl >= 0 || kind == Kind::Storage as i64)
}

fn typed_for(sub_type: i64, traded: i64) -> bool
    ensures { Decides result (TypedFor sub_type traded) }
{
    (sub_type == 0) == (traded != POSITION)
}

impl Rule {
    // Whether x keeps the rule, with the number before it and the kind of the resource.
    pub(crate) fn keeps(self, x: i64, previous: i64, kind: i64) -> bool
        ensures { Decides result (RuleKept self x previous kind) }
    {
        match self {
            Rule::Free => true,
            Rule::Mark => marked(x, kind),
            Rule::Before => zero_unless(x, previous, 1),
            Rule::Lsl => spans(x, previous, kind),
            Rule::Potential => zero_unless(x, kind, Kind::Renewable as i64),
            Rule::SubTyped => typed_for(x, previous),
        }
    }
}
