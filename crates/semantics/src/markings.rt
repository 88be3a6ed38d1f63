ghost use Rattle.semantics.specs.Markings.{Agrees, Below, at};
ghost use Rattle.semantics.specs.Tests.{allows, is_kept};
ghost use Rattle.semantics.specs.Theorems.{DrawnOnce, Leads, StepsSound};
ghost use Rattle.std.specs.Prelude.{◌≡◌, true, ◌↔◌, IsTrue};

use super::Mark;
use super::rows::has;

// Whether a statement with this mark may be in (true) or out (false). Stays a function, so that a wrong comparison is
// refused here, and not in the proof of the chain that asks it.
fn allows(mark: Mark, present: bool) -> bool
    ensures { result ≡ allows mark present }
{
    mark != Mark::from(!present)
}

// Whether a row has what is marked in, and lacks what is marked out. An answer set that does goes on to do so after
// every step; the marking is then not broken, and no step is against a mark.
pub fn agrees(marks: &[Mark], row: &[bool]) -> bool
    ensures decided { IsTrue result ↔ Agrees marks.now row.now }
    ensures sound { result ≡ true → StepsSound marks.now row.now }
{
    marks
        .iter()
        .enumerate()
        .all(|(q, mark)| allows(*mark, has(row, q)))
}

// The mark of a statement; past the end every statement is open.
pub fn mark_at(marks: &[Mark], statement: usize) -> Mark
    ensures { result ≡ at marks.now statement }
{
    marks.get(statement).copied().unwrap_or(Mark::Open)
}

// Whether a mark is kept by another: an open one by any, the others by themselves. Stays a function as `allows` does.
fn is_kept(mark: Mark, by: Mark) -> bool
    ensures { result ≡ is_kept mark by }
{
    mark == Mark::Open || mark == by
}

// Whether a marking has every mark of another, and perhaps more. What steps reach from a start lies below the settled
// marking that they reach from it, and leads on to it; there is only one.
pub fn is_below(marks: &[Mark], more: &[Mark]) -> bool
    ensures decided { IsTrue result ↔ Below marks.now more.now }
    ensures leads { Leads marks.now more.now }
    ensures once { DrawnOnce marks.now more.now }
{
    marks
        .iter()
        .enumerate()
        .all(|(q, mark)| is_kept(*mark, mark_at(more, q)))
}
