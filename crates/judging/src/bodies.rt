ghost use Rattle.judging.specs.Bodies.{body_literals, body_of, both};
ghost use Rattle.judging.specs.Literals.{LiteralsAre};
ghost use Rattle.semantics.specs.Programs.{Rule};
ghost use Rattle.table.specs.Tables.{contents_of};
ghost use Rattle.table.specs.View.{ShowsRule};
ghost use Rattle.std.specs.Prelude.{◌≡◌};

use super::literals::{Literal, Literals, judge_literals};
use family::Verdict;
use marking::Marking;
use table::table::{RuleView, Table};

// What a marking says of the body of a rule: it is certain; certain but for one literal that is open; refuted; or none
// of these.
#[derive(Clone, Copy, PartialEq, Eq, Debug)]
pub enum Body {
    Certain,
    ButFor(Literal),
    Refuted,
    Neither,
}

// The verdict on several aggregates, from that on some of them and that on one more.
pub(crate) fn both(all: Verdict, next: Verdict) -> Verdict
    ensures { result ≡ both all next }
{
    match (all, next) {
        (Verdict::Certain, next) => next,
        (Verdict::Impossible, _) => Verdict::Impossible,
        (Verdict::Neither, Verdict::Impossible) => Verdict::Impossible,
        (Verdict::Neither, _) => Verdict::Neither,
    }
}

// What a marking says of the positive and the negative statements of a rule.
pub(crate) fn body_literals(table: &Table, marking: &Marking, rule: RuleView) -> Literals
    ensures { (g : Rule)
        → ShowsRule (contents_of table.now) g rule
        → LiteralsAre marking.now (body_literals g) result }
{
    let negatives = judge_literals(table, marking, rule.negative, false, Literals::Met);
    judge_literals(table, marking, rule.positive, true, negatives)
}

// A body with these literals and these aggregates.
pub(crate) fn body_of(literals: Literals, aggregates: Verdict) -> Body
    ensures { result ≡ body_of literals aggregates }
{
    match (literals, aggregates) {
        (Literals::Against, _) => Body::Refuted,
        (_, Verdict::Impossible) => Body::Refuted,
        (Literals::Met, Verdict::Certain) => Body::Certain,
        (Literals::OneOpen(literal), Verdict::Certain) => Body::ButFor(literal),
        _ => Body::Neither,
    }
}
