ghost use Rattle.drawing.specs.Applying.{Applied};
ghost use Rattle.drawing.specs.Demands.{Demanded, demand_of};
ghost use Rattle.drawing.specs.Passing.{RulePassed};
ghost use Rattle.semantics.specs.Families.{Values};
ghost use Rattle.semantics.specs.Programs.{Program, Rule};
ghost use Rattle.std.specs.Prelude.{◌≡◌};

use super::forcing::{Clash, force};
use judging::{Body, Literal, Literals};
use marking::Marking;

// What a rule with this body and this head, judged by its statements being out, demands by the first and the third step:
// a literal, or nothing. A rule that is broken is a clash.
pub(crate) fn demand_of(body: Body, head: Literals) -> Result<Option<Literal>, Clash>
    ensures { result ≡ demand_of body head }
{
    match (body, head) {
        (Body::Certain, Literals::Met) => Err(Clash),
        (Body::Certain, Literals::OneOpen(last)) => Ok(Some(Literal {
            present: true,
            ..last
        })),
        (Body::ButFor(last), Literals::Met) => Ok(Some(Literal {
            present: !last.present,
            ..last
        })),
        _ => Ok(None),
    }
}

// Meets the demand of a rule.
pub(crate) fn meet(marking: &mut Marking, body: Body, head: Literals) -> Result<(), Clash>
    ensures { (value : Values) (p : Program) (g : Rule)
        → Demanded value p marking.old g (demand_of body head)
        → Applied value p marking.old marking.new result (RulePassed value marking.old g) }
{
    match demand_of(body, head)? {
        Some(literal) => force(marking, literal),
        None => Ok(()),
    }
}
