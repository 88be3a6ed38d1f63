ghost use Rattle.std.specs.Prelude.{◌≡◌, ◌<◌, ◌↔◌, IsTrue, length};
ghost use Rattle.drawing.specs.Applying.{Applied};
ghost use Rattle.drawing.specs.Passing.{RulePassed};
ghost use Rattle.drawing.specs.Sweeps.{AllStanding, Counted, CountedMore, RulesDone};
ghost use Rattle.judging.specs.Rulebooks.{program_in, rule_in};
ghost use Rattle.judging.specs.declared.bodies.Body.TheVariants.{Refuted};

use super::demands::meet;
use super::forcing::Clash;
use super::supports::Supports;
use family::Family;
use judging::{Body, Rulebook, judge_head};
use marking::Marking;

// What a sweep changes, the marking and the supports, stays apart from the rulebook, which it only reads: a struct of all
// three would have each method promise that the rules are as before.

// Whether no step asks anything of a rule with this body, and it is counted for no statement. Stays a function of its own:
// the proof of `apply_rule` is written out, so an edit of its own lines breaks that first, and not a fact about the code.
fn is_refuted(body: Body) -> bool
    ensures { IsTrue result ↔ (body ≡ Refuted) }
{
    body == Body::Refuted
}

// Applies the first and the third step to rule i, and counts it for the statements of its head unless it is refuted.
fn apply_rule<F: Family>(
    book: &Rulebook<F>,
    marking: &mut Marking,
    supports: &mut Supports,
    i: usize,
) -> Result<(), Clash>
    ensures applied { i < length (program_in book.now).rules
        → Applied (F.value book.now.family.now) (program_in book.now) marking.old marking.new result
        (RulePassed (F.value book.now.family.now) marking.old (rule_in book.now i)) }
    ensures counted { i < length (program_in book.now).rules
        → CountedMore (F.value book.now.family.now) (program_in book.now).rules i marking.old supports.old.by supports.new.by }
{
    let body = book.judge_body(marking, i);
    if is_refuted(body) {
        return Ok(());
    }
    supports.add_heads(book.table, book.table.rule(i).head, i);
    meet(marking, body, judge_head(book.table, marking, i))
}

// Applies the first and the third step to each rule in turn, and counts for each statement the rules that are left.
pub(crate) fn apply_rules<F: Family>(
    book: &Rulebook<F>,
    marking: &mut Marking,
    supports: &mut Supports,
) -> Result<(), Clash>
    ensures { Counted (F.value book.now.family.now) (program_in book.now).rules 0 marking.old supports.old.by
        → AllStanding (F.value book.now.family.now) (program_in book.now).rules marking.old supports.old.by
        → RulesDone (F.value book.now.family.now) (program_in book.now) marking.old marking.new supports.new.by result }
{
    for i in 0..book.table.rules() {
        apply_rule(book, marking, supports, i)?;
    }
    Ok(())
}
