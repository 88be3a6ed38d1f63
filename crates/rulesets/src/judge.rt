ghost use Rattle.judging.specs.Bodies.{AggregateIs, AllCertain, SomeImpossible};
ghost use Rattle.judging.specs.Weights.{open_weights, sure_weights};
ghost use Rattle.rulesets.specs.Judging.{AllMarked, Tells, aggregate_in, contents_in, rule_in};
ghost use Rattle.semantics.specs.Markings.{BodyCertain, Certain, HeadOut, Impossible};
ghost use Rattle.semantics.specs.Programs.{Aggregate};
ghost use Rattle.semantics.specs.declared.Mark.TheVariants.{In, Out};
ghost use Rattle.semantics.specs.declared.Member.{Member};
ghost use Rattle.std.specs.Prelude.{◌-◌, ◌≤◌, ◌↔◌, IsTrue, List};
ghost use Rattle.table.specs.View.{Covers};

use super::rulesets::Rulesets;
use family::{Family, Verdict};
use judging::add_marked;
use marking::{Marking, Set};
use semantics::Mark;
use table::table::{AggregateView, Run};

// The rules of a table as sets, read under a family of aggregate functions.
#[derive(Drop)]
pub struct Judge<'a, F> {
    pub rules: &'a Rulesets<'a>,
    pub family: &'a F,
}

// Whether every statement of a set is in.
fn are_in(statements: Set, marking: &Marking) -> bool
    ensures { IsTrue result ↔ AllMarked marking.now In statements }
{
    statements.is_within(marking.present())
}

// Whether every statement of a set is out.
fn are_out(statements: Set, marking: &Marking) -> bool
    ensures { IsTrue result ↔ AllMarked marking.now Out statements }
{
    statements.is_within(marking.absent())
}

impl<'a, F: Family> Judge<'a, F> {
    // The tally of a kind over the members of a set: sure weights of those that are in, open weights of those that are
    // open.
    fn filled(&self, marking: &Marking, kind: u8, members: Run) -> F::Tally
        ensures { (ms : List Member)
            → Covers (contents_in self.now).members ms members
            → members.end - members.first ≤ 128
            → F.tallies self.now.family.now result kind (sure_weights marking.now ms) (open_weights marking.now ms) }
    {
        let mut tally = self.family.start(kind);
        for k in (members.first..members.end).rev() {
            let member = self.rules.member(k);
            let mark = marking.mark(member.statement);
            add_marked(self.family, &mut tally, mark, member.weight);
        }
        tally
    }

    // Whether aggregate j is certain under the marking, or impossible.
    pub fn judge_aggregate(&self, marking: &Marking, j: usize) -> Verdict
        ensures { AggregateIs (F.value self.now.family.now) marking.now (aggregate_in self.now j) result }
    {
        let aggregate = self.rules.aggregate(j);
        let tally = self.filled(marking, aggregate.kind, aggregate.members);
        self.family
            .read(&tally)
            .judge(aggregate.relation, i64::from(aggregate.bound))
    }

    // Whether aggregate j is certain under the marking.
    fn is_aggregate_certain(&self, marking: &Marking, j: usize) -> bool
        ensures { Tells result (Certain (F.value self.now.family.now) marking.now (aggregate_in self.now j)) }
    {
        self.judge_aggregate(marking, j) == Verdict::Certain
    }

    // Whether aggregate j is impossible under the marking.
    #[tactic(auto, using(crate::proofs::Answering::impossible_told))]
    fn is_aggregate_impossible(&self, marking: &Marking, j: usize) -> bool
        ensures { Tells result (Impossible (F.value self.now.family.now) marking.now (aggregate_in self.now j)) }
    {
        self.judge_aggregate(marking, j) == Verdict::Impossible
    }

    // Whether every aggregate of a run is certain under the marking.
    pub fn are_certain(&self, marking: &Marking, run: Run) -> bool
        ensures { (gs : List Aggregate)
            → Covers (contents_in self.now).aggregates gs run
            → (IsTrue result ↔ AllCertain (F.value self.now.family.now) marking.now gs) }
    {
        (run.first..run.end).all(|j| self.is_aggregate_certain(marking, j))
    }

    // Whether some aggregate of a run is impossible under the marking.
    pub fn is_impossible(&self, marking: &Marking, run: Run) -> bool
        ensures { (gs : List Aggregate)
            → Covers (contents_in self.now).aggregates gs run
            → (IsTrue result ↔ SomeImpossible (F.value self.now.family.now) marking.now gs) }
    {
        (run.first..run.end).any(|j| self.is_aggregate_impossible(marking, j))
    }

    // Whether the body of rule i is certain under the marking.
    pub fn is_body_certain(&self, marking: &Marking, i: usize) -> bool
        ensures { IsTrue result ↔ BodyCertain (F.value self.now.family.now) marking.now (rule_in self.now i) }
    {
        let rule = self.rules.rule(i);
        are_in(rule.positive, marking)
            && are_out(rule.negative, marking)
            && self.are_certain(marking, rule.aggregates)
    }

    // Whether every head statement of rule i is out.
    pub fn is_head_out(&self, marking: &Marking, i: usize) -> bool
        ensures { IsTrue result ↔ HeadOut marking.now (rule_in self.now i) }
    {
        are_out(self.rules.rule(i).head, marking)
    }
}
