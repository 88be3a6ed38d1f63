ghost use Rattle.marking.specs.Marks.{how_open};
ghost use Rattle.search.specs.Nogoods.{Fitting, Nogood, NarrowedTo, Sound};
ghost use Rattle.search.specs.Outcomes.{Begun, Ended, FailureStands, Stands};
ghost use Rattle.semantics.specs.FullMarkings.{Full};
ghost use Rattle.search.specs.Search.{Sought};
ghost use Rattle.semantics.specs.declared.Mark.TheVariants.{In};
ghost use Rattle.std.specs.Prelude.{◌≡◌, ◌≤◌, IfOk, IfSome, length, slice_set};

use super::effort::Effort;
use super::level::Level;
use super::memory::Memory;
use super::outcome::{Failure, Outcome};
use super::problem::{Judgement, Problem};
use super::standing::{Standing, standing_of, turned};
use marking::Marking;
use semantics::Mark;

// A nogood that looks useful under a marking: one that is stored, or one of the problem's.
fn next_nogood<P: Problem>(
    problem: &P,
    memory: &mut Memory,
    work: &mut P::Work,
    marking: &Marking,
) -> Option<Marking>
    ensures same { memory.new.nogoods ≡ memory.old.nogoods }
    ensures nogood { Sound (Fitting (P.fits problem.now) (P.size problem.now)) memory.old.nogoods.kept
        → IfSome result (Nogood (Fitting (P.fits problem.now) (P.size problem.now))) }
{
    if let Some(nogood) = memory.next_stored(marking) {
        return Some(nogood);
    }
    problem.nogood(work, marking, memory.trail.marked())
}

// Marks what nogoods show, one statement after another, until nothing more is seen; or a nogood all of whose marks are
// met, and then nothing is to be found.
fn narrow<P: Problem>(
    problem: &P,
    memory: &mut Memory,
    work: &mut P::Work,
    start: Marking,
) -> Result<Marking, Marking>
    ensures fewer { IfOk result (λ m. how_open m ≤ how_open start) }
    ensures narrowed { NarrowedTo (Fitting (P.fits problem.now) (P.size problem.now))
        memory.old.nogoods.kept memory.new.nogoods.kept start result }
{
    let mut marking = start;
    while let Some(nogood) = next_nogood(problem, memory, work, &marking) {
        match standing_of(&marking, &nogood) {
            Some(Standing::Lacks(statement)) => {
                memory.record(statement, &nogood);
                marking = turned(marking, &nogood, statement);
            }
            Some(Standing::Met) => return Err(nogood),
            None => return Ok(marking),
        }
    }
    Ok(marking)
}

// What a full marking that is narrowed from the first one of a level comes to.
fn tested<P: Problem>(problem: &P, memory: &mut Memory, level: &Level, start: Marking) -> Outcome
    ensures ended { Begun (P.fits problem.now) (P.size problem.now) level.now.whole memory.old.nogoods.kept start
        → Full start
        → Ended (P.fits problem.now) (P.size problem.now) memory.new.nogoods.kept start result }
    ensures standing { Stands level.now → FailureStands level.now.above.now result }
{
    match problem.test(&start) {
        Judgement::Fits => Outcome::Found(start),
        Judgement::Fails(nogood) => Outcome::Failed(memory.failed(level, &nogood)),
    }
}

// The marking with an open statement guessed in. Stays a function of its own: the proof of `extend` is written out, so an
// edit of the lines of `extend` breaks that first, and not a fact about the code.
fn guess(marking: Marking, statement: u16) -> Marking
    ensures { result ≡ slice_set marking statement In }
{
    marking.with(statement, Mark::In)
}

// The earliest row that fits and extends a marking, which is narrowed from the first one of a level; or a nogood that shows
// why there is none. It guesses the first open statement in. Where that comes to nothing, the nogood that says why shows
// that some statement is to be marked the other way, here or on a level above. The calls are at most as many, one below the
// other, as statements are open.
fn extend<P: Problem>(
    problem: &P,
    memory: &mut Memory,
    work: &mut P::Work,
    level: &Level,
    start: Marking,
) -> Outcome
    ensures ended { Begun (P.fits problem.now) (P.size problem.now) level.now.whole memory.old.nogoods.kept start
        → Ended (P.fits problem.now) (P.size problem.now) memory.new.nogoods.kept start result }
    ensures standing { Stands level.now → FailureStands level.now.above.now result }
{
    memory.nodes = memory.nodes.saturating_add(1);
    let marking = match narrow(problem, memory, work, start) {
        Ok(marking) => marking,
        Err(nogood) => return Outcome::Failed(memory.failed(level, &nogood)),
    };
    let Some(statement) = marking.first_open() else {
        return tested(problem, memory, level, marking);
    };
    let reached = memory.trail.length();
    memory.add_guess(statement);
    let guessed = Level {
        above: &marking,
        whole: guess(marking, statement),
        standing: Standing::Lacks(statement),
    };
    let failure = match extend(problem, memory, work, &guessed, guessed.whole) {
        Outcome::Found(found) => return Outcome::Found(found),
        Outcome::Failed(failure) => failure,
    };
    memory.go_back(reached);
    problem.go_back(work, reached);
    if let Some(standing) = standing_of(level.above, &failure.nogood) {
        return Outcome::Failed(Failure {
            standing,
            ..failure
        });
    }
    match failure.standing {
        Standing::Met => Outcome::Failed(memory.failed(level, &failure.nogood)),
        Standing::Lacks(lacking) => {
            memory.record(lacking, &failure.nogood);
            let turned = guessed.turned(&failure.nogood, lacking);
            extend(problem, memory, work, level, turned)
        }
    }
}

// The earliest row that fits and extends a marking of the problem's length, with what is remembered.
fn seek<P: Problem>(problem: &P, memory: &mut Memory, start: Marking) -> Option<Marking>
    ensures { length start ≡ P.size problem.now
        → Sound (Fitting (P.fits problem.now) (P.size problem.now)) memory.old.nogoods.kept
        → Sought (P.fits problem.now) (P.size problem.now) start result }
{
    memory.begin(&start);
    let mut work = problem.start();
    let root = Level {
        above: &start,
        whole: start,
        standing: Standing::Met,
    };
    match extend(problem, memory, &mut work, &root, start) {
        Outcome::Found(found) => Some(found),
        Outcome::Failed(failure) => match failure.standing {
            Standing::Met => None,
            Standing::Lacks(lacking) => {
                seek(problem, memory, root.turned(&failure.nogood, lacking))
            }
        },
    }
}

// The earliest row that fits and extends a marking, as a full marking; or none, and then no such row fits.
#[tactic(auto, using(crate::proofs::Following::nothing_sound))]
pub fn earliest<P: Problem>(problem: &P, start: Marking, effort: &Effort) -> Option<Marking>
    ensures { Sought (P.fits problem.now) (P.size problem.now) start result }
{
    if start.statements() != problem.statements() {
        return None;
    }
    let mut memory = Memory::new();
    let found = seek(problem, &mut memory, start);
    effort.add(memory.nodes, memory.conflicts);
    found
}
