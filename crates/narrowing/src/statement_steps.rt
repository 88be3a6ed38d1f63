ghost use Rattle.narrowing.specs.Excluding.{Excludes};
ghost use Rattle.rulesets.specs.Judging.{program_in};

use super::bits::MOST_RULES;
use super::narrower::Narrower;
use super::work::{Forced, Work};
use family::{Family, Verdict};
use marking::{Marking, Set};
use rulesets::Ruleset;
use semantics::Mark;

// How many rules are left that can support a statement. It says only what to try.
#[derive(Clone, Copy)]
enum Left {
    NoRule,
    OneRule(usize),
    Several,
}

impl<'a, F: Family> Narrower<'a, F> {
    // The rules that can support a statement if it is in.
    fn rules_left(&self, marking: &Marking, statement: u16) -> Left {
        let Some(mention) = self.mentions.of(statement) else {
            return Left::Several;
        };
        let set = Set::single(statement);
        let mut rules = mention.by_head;
        let mut left = Left::NoRule;
        for _ in 0..MOST_RULES {
            let Some(i) = rules.take() else {
                break;
            };
            if self.is_blocked(marking, set, i) {
                continue;
            }
            let Left::NoRule = left else {
                return Left::Several;
            };
            left = Left::OneRule(i);
        }
        left
    }

    // No rule is left for a statement: it can't be in.
    fn unsupported(&self, marking: &Marking, statement: u16) -> Option<Marking>
        ensures { Excludes (F.value self.now.judge.family.now) (program_in self.now.judge) result }
    {
        let set = Set::single(statement);
        self.if_unfounded(self.support_reason(marking, set, statement, None), set)
    }

    // A statement is in and one rule is left for it: what its body needs can't be out, and what it must not have, and the
    // other statements of its head, can't be in. Gives the first of these that is open.
    fn only_support(&self, marking: &Marking, statement: u16, i: usize) -> Option<Marking>
        ensures { Excludes (F.value self.now.judge.family.now) (program_in self.now.judge) result }
    {
        let set = Set::single(statement);
        let rule = self.judge.rules.rule(i);
        let unwanted = rule.negative.union(rule.head.without(set));
        let marked = marking.present().union(marking.absent());
        let open = rule.positive.union(unwanted).without(marked).first()?;
        let against = Mark::from(!rule.positive.has(open));
        let others = self.support_reason(marking, set, statement, Some(i));
        self.if_unfounded(others.with(open, against), set)
    }

    // A statement is in and one rule is left for it: its aggregates must be true. Gives an open member by which one would
    // be impossible.
    fn must_be_true(
        &self,
        work: &mut Work,
        marking: &Marking,
        statement: u16,
        i: usize,
    ) -> Option<Marking>
        ensures { Excludes (F.value self.now.judge.family.now) (program_in self.now.judge) result }
    {
        let set = Set::single(statement);
        let run = self.judge.rules.rule(i).aggregates;
        for j in run.first..run.end {
            let survey = self.survey(marking, j);
            let Some(member) = self.deciding_member(j, survey, Verdict::Impossible) else {
                continue;
            };
            let with = marking.with(member.statement, Mark::from(member.present));
            let others = self.support_reason(marking, set, statement, Some(i));
            let nogood = others.joined(&self.aggregate_reason(&with, j, Verdict::Impossible));
            work.last = Some(self.forcing(Forced::Statement(statement), &nogood, j, member));
            return self.if_unfounded(nogood, set);
        }
        None
    }

    // What follows from the rules that can support a statement.
    pub(crate) fn examine_statement(
        &self,
        work: &mut Work,
        marking: &Marking,
        statement: u16,
    ) -> Option<Marking>
        ensures { Excludes (F.value self.now.judge.family.now) (program_in self.now.judge) result }
    {
        let mark = marking.mark(statement);
        if mark == Mark::Out {
            return None;
        }
        let present = marking.with(statement, Mark::In);
        match self.rules_left(&present, statement) {
            Left::NoRule => self.unsupported(&present, statement),
            Left::OneRule(i) if mark == Mark::In => {
                let found = self.only_support(marking, statement, i);
                if found.is_some() {
                    return found;
                }
                self.must_be_true(work, marking, statement, i)
            }
            _ => None,
        }
    }
}
