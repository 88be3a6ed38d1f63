ghost use Rattle.std.specs.Prelude.{◌-◌, ◌≤◌, List};
ghost use Rattle.judging.specs.Bodies.{AggregateIs, AggregatesAre, BodyIs};
ghost use Rattle.judging.specs.Weights.{open_weights, sure_weights};
ghost use Rattle.semantics.specs.Programs.{Aggregate};
ghost use Rattle.semantics.specs.declared.Member.{Member};
ghost use Rattle.table.specs.View.{Covers};

use super::aggregates::add_marked;
use super::bodies::{Body, body_literals, body_of, both};
use super::literals::Literals;
use family::{Family, Verdict};
use marking::Marking;
use table::table::{Run, Table};

// The rules of a table, read under a family of aggregate functions. A table is read record by record, by the place: its
// runs are no slices, so they are gone over by their places, from the last to the first.
#[derive(Drop)]
pub struct Rulebook<'a, F> {
    pub table: &'a Table<'a>,
    pub family: &'a F,
}

impl<'a, F: Family> Rulebook<'a, F> {
    ghost use Rattle.judging.specs.Rulebooks.{aggregate_in, contents_in, rule_in};

    // The tally of a kind over the members of a set: sure weights of those that are in, open weights of those that are
    // open.
    fn filled(&self, marking: &Marking, kind: u8, members: Run) -> F::Tally
        ensures { (ms : List Member)
            → Covers (contents_in self.now).members ms members
            → members.end - members.first ≤ 128
            → F.tallies self.now.family.now result kind (sure_weights marking.now ms) (open_weights marking.now ms) }
    {
        let mut tally = self.family.start(kind);
        for k in (members.first..members.end).rev() {
            let member = self.table.member(k);
            let mark = marking.mark(member.statement);
            add_marked(self.family, &mut tally, mark, member.weight);
        }
        tally
    }

    // Whether aggregate j is certain under the marking, or impossible.
    pub fn judge_aggregate(&self, marking: &Marking, j: usize) -> Verdict
        ensures { AggregateIs (F.value self.now.family.now) marking.now (aggregate_in self.now j) result }
    {
        let aggregate = self.table.aggregate(j);
        let tally = self.filled(marking, aggregate.kind, aggregate.members);
        self.family
            .read(&tally)
            .judge(aggregate.relation, i64::from(aggregate.bound))
    }

    // Whether all aggregates of a run are certain, or one is impossible.
    fn judge_aggregates(&self, marking: &Marking, run: Run) -> Verdict
        ensures { (gs : List Aggregate)
            → Covers (contents_in self.now).aggregates gs run
            → AggregatesAre (F.value self.now.family.now) marking.now gs result }
    {
        let mut all = Verdict::Certain;
        for j in (run.first..run.end).rev() {
            if all != Verdict::Impossible {
                all = both(all, self.judge_aggregate(marking, j));
            }
        }
        all
    }

    // What a marking says of the body of rule i.
    pub fn judge_body(&self, marking: &Marking, i: usize) -> Body
        ensures { BodyIs (F.value self.now.family.now) marking.now (rule_in self.now i) result }
    {
        let rule = self.table.rule(i);
        let literals = body_literals(self.table, marking, rule);
        if literals == Literals::Against {
            return Body::Refuted;
        }
        body_of(literals, self.judge_aggregates(marking, rule.aggregates))
    }
}
