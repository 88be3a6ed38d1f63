ghost use Rattle.semantics.specs.FullMarkings.{row_of};
ghost use Rattle.solver.specs.Reducts.{Whole};
ghost use Rattle.solver.specs.Smaller.{SomeSmaller, removable};
ghost use Rattle.std.specs.Prelude.{◌≡◌, ◌↔◌, IsTrue, is_some, map};
ghost use Rattle.table.specs.Tables.{program_of, rules_of};

use super::parts::Parts;
use super::reduct::Reduct;
use marking::{Marking, Set};
use narrowing::Mentions;
use rulesets::Rulesets;
use search::{Effort, earliest};

// Where the search for a smaller part starts: all that is in the row may be removed, and the rest is.
fn removable(row: &Marking) -> Marking
    ensures { result ≡ map removable row.now }
{
    let statements = row.statements();
    let rest = Set::below(statements).without(row.present());
    Marking::from_sets(statements, rest, Set::none()).unwrap_or(Marking::all_open(0))
}

// What can be removed from a row so that a proper part of it is left that obeys against it; none where there is no such
// part. The search removes first: where rules have one head statement at most, what can be removed at all can be removed
// together, so no guess is wrong.
pub(crate) fn find_smaller(
    rules: &Rulesets,
    mentions: &Mentions,
    row: &Marking,
    reduct: &Reduct,
    effort: &Effort,
) -> Option<Marking>
    ensures { Whole (program_of rules.now.table.now).statements row.now
        → (IsTrue (is_some result) ↔ SomeSmaller (rules_of rules.now.table.now) reduct.now.kept (row_of row.now)) }
{
    let parts = Parts {
        rules,
        mentions,
        row,
        reduct,
    };
    earliest(&parts, removable(row), effort)
}
