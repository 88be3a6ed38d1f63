ghost use Rattle.marking.specs.Sets.{contains};
ghost use Rattle.rulesets.specs.Judging.{program_in, rule_in};
ghost use Rattle.semantics.specs.AnswerSets.{BodyTrue};
ghost use Rattle.semantics.specs.FullMarkings.{row_of};
ghost use Rattle.semantics.specs.Rows.{has};
ghost use Rattle.solver.specs.Reducts.{ReductOf, Whole};
ghost use Rattle.solver.specs.Smaller.{heads};
ghost use Rattle.std.specs.List.{list_any};
ghost use Rattle.std.specs.Prelude.{◌≡◌, ◌↔◌, ◌&&◌, IsTrue, ℕ};
ghost use Rattle.table.specs.Tables.{nth_rule};

use super::reduct::Reduct;
use family::Family;
use marking::{Marking, Set};
use rulesets::{Judge, Rulesets};

// Whether the body of rule i is true in a row.
pub(crate) fn is_body_true<F: Family>(judge: &Judge<F>, row: &Marking, i: usize) -> bool
    ensures { Whole (program_in judge.now).statements row.now
        → (IsTrue result ↔ BodyTrue (F.value judge.now.family.now) (row_of row.now) (rule_in judge.now i)) }
{
    judge.is_body_certain(row, i)
}

// The head statements of rule i that are in a row.
#[tactic(auto, using(semantics::proofs::FullMarkings::row_has))]
pub(crate) fn heads_in(rules: &Rulesets, row: &Marking, i: usize) -> Set
    ensures { (q : ℕ) → contains result q ≡ (heads (nth_rule rules.now.table.now i) q && has (row_of row.now) q) }
{
    rules.rule(i).head.common(row.present())
}

// Whether a row has a head statement of rule i.
pub(crate) fn has_head(rules: &Rulesets, row: &Marking, i: usize) -> bool
    ensures { result ≡ list_any (has (row_of row.now)) (nth_rule rules.now.table.now i).head }
{
    !heads_in(rules, row, i).is_empty()
}

// The rules that bind the parts of a row; or the number of a rule that the row does not obey.
#[derive(Drop)]
pub(crate) enum Reduced {
    To(Reduct),
    Broken(usize),
}

// The rules that bind the parts of a row, or that it does not obey itself.
pub(crate) fn reduce<F: Family>(judge: &Judge<F>, row: &Marking) -> Reduced
    ensures { Whole (program_in judge.now).statements row.now
        → ReductOf (F.value judge.now.family.now) (program_in judge.now).rules (row_of row.now) result }
{
    let mut reduct = Reduct::none();
    for i in 0..judge.rules.rules() {
        if !is_body_true(judge, row, i) {
            continue;
        }
        if !has_head(judge.rules, row, i) {
            return Reduced::Broken(i);
        }
        reduct.keep(i);
    }
    Reduced::To(reduct)
}
