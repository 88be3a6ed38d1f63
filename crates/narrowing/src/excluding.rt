ghost use Rattle.judging.specs.Bodies.{SomeImpossible};
ghost use Rattle.marking.specs.Sets.{contains};
ghost use Rattle.narrowing.specs.Blocking.{SomeHead, SomeIn, SomeInBut, SomeInOf, SomeLost};
ghost use Rattle.narrowing.specs.Excluding.{Excludes};
ghost use Rattle.narrowing.specs.Unfounded.{Blocked, NoAnswer, NoHelp, Refuses, Unfounded};
ghost use Rattle.rulesets.specs.Judging.{contents_in, program_in, rule_in};
ghost use Rattle.semantics.specs.Programs.{Aggregate};
ghost use Rattle.std.specs.Prelude.{◌≡◌, ◌<◌, ◌↔◌, IsTrue, List, length};
ghost use Rattle.table.specs.View.{Covers};

use super::narrower::Narrower;
use family::Family;
use marking::{Marking, Set};
use rulesets::Ruleset;

// Whether the body of a rule needs a statement that is out, or is of a set.
fn needs_lost(rule: &Ruleset, marking: &Marking, set: Set) -> bool
    ensures { IsTrue result ↔ SomeLost marking.now set rule.now.positive }
{
    rule.positive.meets(marking.absent().union(set))
}

// Whether some statement of a set is in.
fn is_some_in(set: Set, marking: &Marking) -> bool
    ensures { IsTrue result ↔ SomeIn marking.now set }
{
    set.meets(marking.present())
}

// Whether the head of a rule has a statement that is in, and not of a set.
fn has_other_head(rule: &Ruleset, marking: &Marking, set: Set) -> bool
    ensures { IsTrue result ↔ SomeInBut marking.now set rule.now.head }
{
    rule.head.without(set).meets(marking.present())
}

// Whether a member of a rule's aggregates is in, and of a set.
fn has_own_member(rule: &Ruleset, marking: &Marking, set: Set) -> bool
    ensures { IsTrue result ↔ SomeInOf marking.now set rule.now.members }
{
    rule.members.common(set).meets(marking.present())
}

// The two reasons for which no answer set agrees with a marking. All narrowing rests on these two.
impl<'a, F: Family> Narrower<'a, F> {
    // Whether the head of rule i is out under the marking, and its body certain.
    fn is_refused(&self, marking: &Marking, i: usize) -> bool
        ensures { IsTrue result ↔ Refuses (F.value self.now.judge.family.now) marking.now (rule_in self.now.judge i) }
    {
        self.judge.is_head_out(marking, i) && self.judge.is_body_certain(marking, i)
    }

    // How many rules there are.
    pub(crate) fn rules(&self) -> usize
        ensures { result ≡ length (program_in self.now.judge).rules }
    {
        self.judge.rules.rules()
    }

    // Whether there is a rule i.
    fn has_rule(&self, i: usize) -> bool
        ensures { IsTrue result ↔ (i < length (program_in self.now.judge).rules) }
    {
        i < self.rules()
    }

    // Whether rule i is broken under the marking.
    fn is_broken(&self, marking: &Marking, i: usize) -> bool
        ensures broken { IsTrue result ↔ (i < length (program_in self.now.judge).rules)
            × Refuses (F.value self.now.judge.family.now) marking.now (rule_in self.now.judge i) }
        ensures excludes { IsTrue result → NoAnswer (F.value self.now.judge.family.now) (program_in self.now.judge) marking.now }
    {
        self.has_rule(i) && self.is_refused(marking, i)
    }

    // Whether some aggregate of a rule is impossible under the marking.
    fn has_impossible(&self, marking: &Marking, rule: &Ruleset) -> bool
        ensures { (gs : List Aggregate)
            → Covers (contents_in self.now.judge).aggregates gs rule.now.aggregates
            → (IsTrue result ↔ SomeImpossible (F.value self.now.judge.family.now) marking.now gs) }
    {
        self.judge.is_impossible(marking, rule.aggregates)
    }

    // Whether rule i can support no statement of a set from outside it, under the marking.
    pub(crate) fn is_blocked(&self, marking: &Marking, set: Set, i: usize) -> bool
        ensures { IsTrue result ↔ Blocked (F.value self.now.judge.family.now) marking.now (contains set) (rule_in self.now.judge i) }
    {
        let rule = self.judge.rules.rule(i);
        if needs_lost(&rule, marking, set) {
            return true;
        }
        if is_some_in(rule.negative, marking) {
            return true;
        }
        if has_other_head(&rule, marking, set) {
            return true;
        }
        if has_own_member(&rule, marking, set) {
            return true;
        }
        self.has_impossible(marking, &rule)
    }

    // Whether rule i has a head statement in a set.
    #[tactic(auto, using(crate::proofs::Blocking::of_set, crate::proofs::Blocking::in_set))]
    fn has_head_in(&self, i: usize, set: Set) -> bool
        ensures { IsTrue result ↔ SomeHead (contains set) (rule_in self.now.judge i) }
    {
        self.judge.rules.head(i).meets(set)
    }

    // Whether rule i has no head statement in a set, or can support none of them from outside.
    fn is_no_help(&self, marking: &Marking, set: Set, i: usize) -> bool
        ensures { IsTrue result ↔ NoHelp (F.value self.now.judge.family.now) marking.now (contains set) (rule_in self.now.judge i) }
    {
        !self.has_head_in(i, set) || self.is_blocked(marking, set, i)
    }

    // Whether a set has a statement that is in under the marking, and no rule can support one of its statements from
    // outside it.
    fn is_unfounded(&self, marking: &Marking, set: Set) -> bool
        ensures unfounded { IsTrue result ↔ Unfounded (F.value self.now.judge.family.now) (program_in self.now.judge).rules marking.now (contains set) }
        ensures excludes { IsTrue result → NoAnswer (F.value self.now.judge.family.now) (program_in self.now.judge) marking.now }
    {
        if !is_some_in(set, marking) {
            return false;
        }
        for i in 0..self.rules() {
            if !self.is_no_help(marking, set, i) {
                return false;
            }
        }
        true
    }

    // The marking, if rule i is broken under it.
    pub(crate) fn if_broken(&self, marking: Marking, i: usize) -> Option<Marking>
        ensures { Excludes (F.value self.now.judge.family.now) (program_in self.now.judge) result }
    {
        if self.is_broken(&marking, i) {
            Some(marking)
        } else {
            None
        }
    }

    // The marking, if a set is unfounded under it.
    pub(crate) fn if_unfounded(&self, marking: Marking, set: Set) -> Option<Marking>
        ensures { Excludes (F.value self.now.judge.family.now) (program_in self.now.judge) result }
    {
        if self.is_unfounded(&marking, set) {
            Some(marking)
        } else {
            None
        }
    }
}
