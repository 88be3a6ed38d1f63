ghost use Rattle.narrowing.specs.Excluding.{Excludes};
ghost use Rattle.rulesets.specs.Judging.{program_in};

use super::narrower::Narrower;
use super::reasons::Survey;
use super::work::{Forced, Work};
use family::{Family, Verdict};
use marking::Marking;
use rulesets::Ruleset;
use semantics::Mark;
use table::table::Run;

// Which aggregates of a rule are not certain. It says only what to try.
#[derive(Clone, Copy)]
enum Uncertain<T> {
    NoAggregate,
    OneAggregate(usize, Survey<T>),
    TooMany,
}

impl<'a, F: Family> Narrower<'a, F> {
    // The aggregates of a run that are not certain; too many where one is impossible.
    fn uncertain(&self, marking: &Marking, run: Run) -> Uncertain<F::Tally> {
        let mut found = Uncertain::NoAggregate;
        for j in run.first..run.end {
            let survey = self.survey(marking, j);
            match survey.verdict {
                Verdict::Certain => {}
                Verdict::Impossible => return Uncertain::TooMany,
                Verdict::Neither => {
                    let Uncertain::NoAggregate = found else {
                        return Uncertain::TooMany;
                    };
                    found = Uncertain::OneAggregate(j, survey);
                }
            }
        }
        found
    }

    // The body is certain and the head out but for one statement: it can't be as the body, or the lacking head, wants it.
    fn one_open(&self, marking: &Marking, rule: &Ruleset, i: usize, open: u16) -> Option<Marking>
        ensures { Excludes (F.value self.now.judge.family.now) (program_in self.now.judge) result }
    {
        let with = marking.with(open, Mark::from(rule.positive.has(open)));
        self.if_broken(self.rule_reason(&with, rule), i)
    }

    // The head is out and the body certain but for one aggregate, which must be false. Gives an open member by which it
    // would be certain.
    fn must_be_false(
        &self,
        work: &mut Work,
        marking: &Marking,
        rule: &Ruleset,
        i: usize,
        j: usize,
        survey: Survey<F::Tally>,
    ) -> Option<Marking>
        ensures { Excludes (F.value self.now.judge.family.now) (program_in self.now.judge) result }
    {
        let member = self.deciding_member(j, survey, Verdict::Certain)?;
        let with = marking.with(member.statement, Mark::from(member.present));
        let nogood = self.rule_reason(&with, rule);
        work.last = Some(self.forcing(Forced::Rule(i), &nogood, j, member));
        self.if_broken(nogood, i)
    }

    // What follows from rule i, whose positives are in, and its negatives and head out, but for one that may be open.
    fn examine_unmet(
        &self,
        work: &mut Work,
        marking: &Marking,
        rule: &Ruleset,
        i: usize,
        open: Option<u16>,
    ) -> Option<Marking>
        ensures { Excludes (F.value self.now.judge.family.now) (program_in self.now.judge) result }
    {
        match (open, self.uncertain(marking, rule.aggregates)) {
            (None, Uncertain::NoAggregate) => self.if_broken(self.rule_reason(marking, rule), i),
            (None, Uncertain::OneAggregate(j, survey)) => self.must_be_false(
                work, marking, rule, i, j, survey,
            ),
            (Some(statement), Uncertain::NoAggregate) => self.one_open(marking, rule, i, statement),
            _ => None,
        }
    }

    // What follows from rule i: that its body can't be certain where its head is out.
    pub(crate) fn examine_rule(
        &self,
        work: &mut Work,
        marking: &Marking,
        i: usize,
    ) -> Option<Marking>
        ensures { Excludes (F.value self.now.judge.family.now) (program_in self.now.judge) result }
    {
        let rule = self.judge.rules.rule(i);
        let unwanted = rule.negative.union(rule.head);
        if rule.positive.meets(marking.absent()) || unwanted.meets(marking.present()) {
            return None;
        }
        let marked = marking.present().union(marking.absent());
        let open = rule.positive.union(unwanted).without(marked);
        if open.is_empty() || open.only().is_some() {
            self.examine_unmet(work, marking, &rule, i, open.first())
        } else {
            None
        }
    }
}
