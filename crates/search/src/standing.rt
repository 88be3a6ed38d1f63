ghost use Rattle.search.specs.Nogoods.{EitherAgrees, StandingIs};
ghost use Rattle.semantics.specs.Markings.{Below, at, marked};
ghost use Rattle.std.specs.Prelude.{◌≡◌, Bool, IfSome, IsTrue, not, slice_set};

use marking::Marking;
use semantics::Mark;

// How a nogood stands under a marking that shows something: all its marks are met, or all but the one of a statement that
// is open.
#[derive(Clone, Copy)]
pub(crate) enum Standing {
    Met,
    Lacks(u16),
}

// How a nogood stands under a marking; none where it shows nothing there.
pub(crate) fn standing_of(marking: &Marking, nogood: &Marking) -> Option<Standing>
    ensures { IfSome result (StandingIs marking.now nogood.now) }
{
    let unmet = nogood.unmet(marking);
    if unmet.is_empty() {
        return Some(Standing::Met);
    }
    let lacking = unmet.only()?;
    if lacking < marking.statements() && marking.mark(lacking) == Mark::Open {
        Some(Standing::Lacks(lacking))
    } else {
        None
    }
}

// The marking with a statement of a nogood marked the other way.
pub(crate) fn turned(marking: Marking, nogood: &Marking, statement: u16) -> Marking
    ensures { (x : Bool)
        → at nogood.now statement ≡ marked x
        → result ≡ slice_set marking statement (marked (not x)) }
{
    marking.with(statement, Mark::from(nogood.mark(statement) != Mark::In))
}

// Whether one mark is in and the other out.
fn are_contrary(one: Mark, other: Mark) -> bool
    ensures { IsTrue result → (x : Bool) × (one ≡ marked x) × (other ≡ marked (not x)) }
{
    one != other && one != Mark::Open && other != Mark::Open
}

// The marks of two markings, where they do not clash.
#[tactic(auto, using(crate::proofs::Resolving::first_below))]
fn both(one: &Marking, other: &Marking) -> Option<Marking>
    ensures { IfSome result (λ m. Below one.now m × Below other.now m) }
{
    let both = one.joined(other);
    if other.is_below(&both) {
        Some(both)
    } else {
        None
    }
}

// What follows from two nogoods that have a statement marked contrary ways: the other marks of both, where those do not
// clash.
pub(crate) fn resolved(nogood: &Marking, reason: &Marking, statement: u16) -> Option<Marking>
    ensures { IfSome result (EitherAgrees nogood.now reason.now) }
{
    if !are_contrary(nogood.mark(statement), reason.mark(statement)) {
        return None;
    }
    let rest = nogood.with(statement, Mark::Open);
    both(&rest, &reason.with(statement, Mark::Open))
}
