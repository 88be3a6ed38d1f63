ghost use Rattle.drawing.specs.Applying.{Applied};
ghost use Rattle.drawing.specs.Drawings.{DrawsFrom, KeepsAnswers};
ghost use Rattle.judging.specs.Rulebooks.{program_in};
ghost use Rattle.semantics.specs.Markings.{Settled};
ghost use Rattle.std.specs.Prelude.{◌≡◌, ◌↔◌, IsTrue};

use super::forcing::Clash;
use super::rules::apply_rules;
use super::statements::apply_statements;
use super::supports::Supports;
use family::Family;
use judging::Rulebook;
use marking::Marking;

// Applies the steps once over all rules and all statements. Its time is linear in the size of the table: each rule is
// judged once, and explains at most the statements of its head.
fn sweep<F: Family>(book: &Rulebook<F>, marking: &mut Marking) -> Result<(), Clash>
    ensures { Applied (F.value book.now.family.now) (program_in book.now) marking.old marking.new result
        (Settled (F.value book.now.family.now) (program_in book.now).rules marking.old) }
{
    let mut supports = Supports::none();
    apply_rules(book, marking, &mut supports)?;
    apply_statements(book.table, marking, &supports)
}

// Whether as many statements are open as before. Stays a function of its own: the proof of `settle` is written out, so an
// edit of its own lines breaks that first, and not a fact about the code.
fn is_unchanged(before: u16, after: u16) -> bool
    ensures { IsTrue result ↔ (after ≡ before) }
{
    after == before
}

// Sweeps until no step has an open statement to mark, or there is a clash.
pub(crate) fn settle<F: Family>(book: &Rulebook<F>, start: Marking) -> Option<Marking>
    ensures drawn { DrawsFrom (F.value book.now.family.now) (program_in book.now) start result }
    ensures answers { KeepsAnswers (F.value book.now.family.now) (program_in book.now) start result }
{
    let mut marking = start;
    loop {
        let open = marking.open_count();
        let Ok(()) = sweep(book, &mut marking) else {
            return None;
        };
        if is_unchanged(open, marking.open_count()) {
            return Some(marking);
        }
    }
}
