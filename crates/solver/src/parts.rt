ghost use Rattle.marking.specs.Marks.{Divides};
ghost use Rattle.marking.specs.Sets.{Meets, contains};
ghost use Rattle.rulesets.specs.Rulesets.{SetsOf};
ghost use Rattle.search.specs.Nogoods.{Nogood};
ghost use Rattle.semantics.specs.FullMarkings.{Full, row_of};
ghost use Rattle.semantics.specs.Programs.{Rule};
ghost use Rattle.semantics.specs.Rows.{Part, ProperPart};
ghost use Rattle.solver.specs.Reducts.{Whole};
ghost use Rattle.solver.specs.Smaller.{FailsUnder, needs, RemovesSome, rest};
ghost use Rattle.std.specs.Prelude.{◌≡◌, ◌↔◌, IfNone, IfSome, IsTrue, length, ℕ};
ghost use Rattle.table.specs.Tables.{contents_of, nth_rule, program_of};

use super::reduct::Reduct;
use marking::{Marking, Set};
use narrowing::{Mentions, Work};
use rulesets::{Ruleset, Rulesets};
use search::{Judgement, Problem};
use semantics::Mark;

// The most that is looked at before more is marked: more than there can be.
const MOST_LOOKS: usize = 200_000;

// The proper parts of a row that obey against it, by what is removed: a statement of the row that is marked in is taken
// out of it, one that is marked out is left.
#[derive(Clone, Copy)]
pub(crate) struct Parts<'a> {
    pub rules: &'a Rulesets<'a>,
    pub mentions: &'a Mentions,
    pub row: &'a Marking,
    pub reduct: &'a Reduct,
}

// Whether a nogood is met, or all of it but one open statement. A hint.
fn is_near(removed: &Marking, nogood: &Marking) -> bool {
    let unmet = nogood.unmet(removed);
    unmet.is_empty()
        || unmet
            .only()
            .is_some_and(|statement| removed.mark(statement) == Mark::Open)
}

impl Parts<'_> {
    ghost use Rattle.solver.specs.Parts.{FailsBy, MeetsAllBy, SmallerBy};

    // The statements that a rule needs: of the members of its aggregates only those that are in the row.
    #[tactic(auto, using(semantics::proofs::FullMarkings::row_has))]
    fn needed(&self, rule: &Ruleset) -> Set
        ensures { (r : Rule)
            → SetsOf (contents_of self.now.rules.now.table.now) r rule.now
            → (q : ℕ) → contains result q ≡ needs (row_of self.now.row.now) r q }
    {
        rule.positive.union(rule.members.common(self.row.present()))
    }

    // The marks under which what is left fails rule i: its head statements are removed, and all that it needs is left; none
    // where a statement would have to be both.
    fn failing(&self, i: usize) -> Option<Marking>
        ensures { FailsUnder (row_of self.now.row.now) (nth_rule self.now.rules.now.table.now i) result }
    {
        let rule = self.rules.rule(i);
        self.marks(rule.head, self.needed(&rule))
    }

    // The marks that remove some statements and leave others; none where one is both.
    fn marks(&self, removed: Set, left: Set) -> Option<Marking>
        ensures long { IfSome result (λ m. length m ≡ length self.now.row.now) }
        ensures apart { IfSome result (λ m. Divides (length self.now.row.now) removed left m) }
        ensures meeting { IfNone result (Meets removed left) }
    {
        Marking::from_sets(self.row.statements(), removed, left)
    }

    // The nogood of rule i, where it is kept and something follows from it.
    fn examine_rule(&self, removed: &Marking, i: usize) -> Option<Marking>
        ensures { IfSome result (Nogood (SmallerBy self.now)) }
    {
        if i >= self.rules.rules() || !self.reduct.has(i) {
            return None;
        }
        let nogood = self.failing(i)?;
        is_near(removed, &nogood).then_some(nogood)
    }

    // Whether nothing is left that the row has not.
    #[tactic(auto, using(semantics::proofs::FullMarkings::row_has, crate::proofs::Comparing::left_out, crate::proofs::Comparing::out_left))]
    fn is_part(&self, removed: &Marking) -> bool
        ensures { Full removed.now → (IsTrue result ↔ Part (rest (row_of removed.now)) (row_of self.now.row.now)) }
    {
        removed.absent().is_within(self.row.present())
    }

    // Whether a statement of the row is removed.
    #[tactic(auto, using(semantics::proofs::FullMarkings::row_has))]
    fn removes_some(&self, removed: &Marking) -> bool
        ensures { IsTrue result ↔ RemovesSome (row_of self.now.row.now) (row_of removed.now) }
    {
        removed.present().meets(self.row.present())
    }

    // Whether what is left is a proper part of the row.
    fn is_proper_part(&self, removed: &Marking) -> bool
        ensures { Full removed.now → (IsTrue result ↔ ProperPart (rest (row_of removed.now)) (row_of self.now.row.now)) }
    {
        if removed.statements() != self.row.statements() {
            return false;
        }
        self.is_part(removed) && self.removes_some(removed)
    }

    // Whether what is left of the row fails rule i, which is kept.
    fn fails(&self, removed: &Marking, i: usize) -> bool
        ensures { Whole (program_of self.now.rules.now.table.now).statements removed.now
            → length removed.now ≡ length self.now.row.now
            → (IsTrue result ↔ FailsBy self.now removed.now i) }
    {
        if !self.reduct.has(i) {
            return false;
        }
        match self.failing(i) {
            Some(nogood) => nogood.is_below(removed),
            None => false,
        }
    }

    // Whether what is left of the row fails no rule that is kept.
    fn fails_none(&self, removed: &Marking) -> bool
        ensures { Whole (program_of self.now.rules.now.table.now).statements removed.now
            → length removed.now ≡ length self.now.row.now
            → (IsTrue result ↔ MeetsAllBy self.now removed.now) }
    {
        !(0..self.rules.rules()).any(|i| self.fails(removed, i))
    }

    // Whether what is left is a proper part of the row that fails no rule that is kept.
    fn is_smaller(&self, removed: &Marking) -> bool
        ensures { Whole (program_of self.now.rules.now.table.now).statements removed.now
            → (IsTrue result ↔ SmallerBy self.now (row_of removed.now)) }
    {
        self.is_proper_part(removed) && self.fails_none(removed)
    }
}

impl Problem for Parts<'_> {
    ghost use Rattle.solver.specs.Parts.{SmallerBy};

    type Work = Work;

    ghost size = { λ p. (program_of p.rules.now.table.now).statements };

    ghost fits = { SmallerBy };

    fn statements(&self) -> u16 {
        self.rules.statements()
    }

    fn start(&self) -> Work {
        Work::all(0, self.rules.rules())
    }

    fn go_back(&self, work: &mut Work, reached: usize) {
        work.go_back(reached);
    }

    // Rule by rule, those first that mention what was marked last.
    fn nogood(&self, work: &mut Work, removed: &Marking, trail: &[u16]) -> Option<Marking> {
        for _ in 0..MOST_LOOKS {
            if let Some(i) = work.next_rule() {
                let found = self.examine_rule(removed, i);
                if found.is_some() {
                    return found;
                }
                work.remove_rule(i);
            } else if let Some(statement) = trail.get(work.looked()).copied() {
                work.add_rules(self.mentions, statement);
            } else {
                return None;
            }
        }
        None
    }

    fn test(&self, removed: &Marking) -> Judgement {
        if self.is_smaller(removed) {
            Judgement::Fits
        } else {
            Judgement::Fails(*removed)
        }
    }
}
