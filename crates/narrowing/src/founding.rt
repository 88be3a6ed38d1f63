ghost use Rattle.narrowing.specs.Excluding.{Excludes};
ghost use Rattle.rulesets.specs.Judging.{program_in};

use super::narrower::Narrower;
use family::Family;
use marking::{Marking, Set};
use rulesets::Ruleset;
use semantics::Mark;

// Whether a rule may support its head by statements that are founded. It says only what to try.
fn may_found(rule: &Ruleset, marking: &Marking, founded: Set) -> bool {
    let needed = rule.positive.union(rule.members.common(marking.present()));
    let others = rule.head.common(marking.present());
    needed.is_within(founded)
        && !rule.positive.meets(marking.absent())
        && !rule.negative.meets(marking.present())
        && !others.meets(founded)
}

impl<'a, F: Family> Narrower<'a, F> {
    // The founded statements, and those that become so where each rule is tried once.
    fn found_more(&self, marking: &Marking, before: Set) -> Set {
        let mut founded = before;
        for i in 0..self.rules() {
            let rule = self.judge.rules.rule(i);
            if may_found(&rule, marking, founded) {
                founded = founded.union(rule.head.without(marking.absent()));
            }
        }
        founded
    }

    // The statements that are not out and that nothing can support but each other.
    fn unfounded(&self, marking: &Marking) -> Set {
        let mut founded = Set::none();
        for _ in 0..=marking.statements() {
            let before = founded;
            founded = self.found_more(marking, before);
            if founded == before {
                break;
            }
        }
        Set::below(marking.statements())
            .without(marking.absent())
            .without(founded)
    }

    // A set with what rule i needs of the whole, where its head meets the set and it is not blocked yet.
    fn with_need(&self, row: &Marking, whole: Set, set: Set, i: usize) -> Set {
        let rule = self.judge.rules.rule(i);
        if !rule.head.meets(set) || self.is_blocked(row, set, i) {
            return set;
        }
        let needed = rule.positive.union(rule.members.common(row.present()));
        match needed.common(whole).first() {
            Some(statement) => set.with(statement),
            None => whole,
        }
    }

    // A smaller part of an unfounded set, with one of its statements, that may be unfounded too.
    fn shrunk(&self, row: &Marking, whole: Set, statement: u16) -> Set {
        let mut set = Set::single(statement);
        for _ in 0..row.statements() {
            let before = set;
            for i in 0..self.rules() {
                set = self.with_need(row, whole, set, i);
            }
            if set == before {
                break;
            }
        }
        set
    }

    // That a statement is in, and the marks by which no rule supports it, or others of these statements, from outside.
    fn unfounded_nogood(&self, marking: &Marking, whole: Set, statement: u16) -> Option<Marking>
        ensures { Excludes (F.value self.now.judge.family.now) (program_in self.now.judge) result }
    {
        let with = marking.with(statement, Mark::In);
        let set = self.shrunk(&with, whole, statement);
        self.if_unfounded(self.support_reason(&with, set, statement, None), set)
    }

    // Where a row still obeys without these statements: that one of them is in, and the marks by which no rule supports
    // them from outside.
    pub fn removal_nogood(&self, row: &Marking, removed: Set) -> Option<Marking>
        ensures { Excludes (F.value self.now.judge.family.now) (program_in self.now.judge) result }
    {
        let whole = removed.common(row.present());
        let statement = whole.first()?;
        self.unfounded_nogood(row, whole, statement)
    }

    // What follows where statements only support each other: they can't be in. First of those that are in.
    pub(crate) fn examine_circles(&self, marking: &Marking) -> Option<Marking>
        ensures { Excludes (F.value self.now.judge.family.now) (program_in self.now.judge) result }
    {
        if !self.mentions.is_cyclic {
            return None;
        }
        let whole = self.unfounded(marking);
        let statement = whole.common(marking.present()).first().or(whole.first())?;
        self.unfounded_nogood(marking, whole, statement)
    }

    // The marks by which rule i is broken in a row, if it is.
    pub fn broken_nogood(&self, row: &Marking, i: usize) -> Option<Marking>
        ensures { Excludes (F.value self.now.judge.family.now) (program_in self.now.judge) result }
    {
        let rule = self.judge.rules.rule(i);
        self.if_broken(self.rule_reason(row, &rule), i)
    }
}
