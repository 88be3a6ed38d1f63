use super::bits::RuleBits;
use marking::Set;
use rulesets::{Ruleset, Rulesets};
use table::table::Run;

// Where to look once a statement is marked, and which rules have it in the head.
#[derive(Clone, Copy)]
pub(crate) struct Mention {
    // The rules that may be broken now, or force a mark: by the statement being in, and by its being out.
    pub when_in: RuleBits,
    pub when_out: RuleBits,
    // The statements that may have lost a rule.
    pub supports_in: Set,
    pub supports_out: Set,
    pub by_head: RuleBits,
}

impl Mention {
    fn none() -> Mention {
        Mention {
            when_in: RuleBits::none(),
            when_out: RuleBits::none(),
            supports_in: Set::none(),
            supports_out: Set::none(),
            by_head: RuleBits::none(),
        }
    }

    // A statement that is needed for the body of a rule.
    fn add_needed(&mut self, rule: &Ruleset, i: usize) {
        self.when_in.add(i);
        self.supports_out = self.supports_out.union(rule.head);
    }

    // A statement that must not be in, for the body of a rule.
    fn add_unwanted(&mut self, rule: &Ruleset, i: usize) {
        self.when_out.add(i);
        self.supports_in = self.supports_in.union(rule.head);
    }

    // A statement that is in the head of a rule: the others there support less where it is in.
    fn add_head(&mut self, rule: &Ruleset, i: usize) {
        self.add_unwanted(rule, i);
        self.by_head.add(i);
    }
}

// For each statement the rules and statements to look at, and of each aggregate the statements of its members. All this
// says only where to look, and nothing is promised of it.
#[derive(Drop)]
pub struct Mentions {
    pub(crate) statements: [Mention; 128],
    pub(crate) members: [Set; 1024],
    // Whether some statements may only support each other.
    pub(crate) is_cyclic: bool,
}

// The statements of the members of a run.
fn member_set(rules: &Rulesets, run: Run) -> Set {
    let mut set = Set::none();
    for k in run.first..run.end {
        set = set.with(rules.member(k).statement);
    }
    set
}

impl Mentions {
    // What the rules of a table mention.
    pub fn new(rules: &Rulesets) -> Mentions {
        let mut mentions = Mentions {
            statements: [Mention::none(); 128],
            members: [Set::none(); 1024],
            is_cyclic: false,
        };
        for i in 0..rules.rules() {
            mentions.add_rule(rules, i);
        }
        mentions.add_own();
        mentions.is_cyclic = is_cyclic(rules);
        mentions
    }

    // What is mentioned of a statement, if the table may have so many.
    pub(crate) fn of(&self, statement: u16) -> Option<&Mention> {
        self.statements.get(usize::from(statement))
    }

    // The statements of the members of aggregate j.
    pub(crate) fn member_set(&self, j: usize) -> Set {
        self.members.get(j).copied().unwrap_or(Set::none())
    }

    fn add_rule(&mut self, rules: &Rulesets, i: usize) {
        let rule = rules.rule(i);
        self.add_members(rules, rule.aggregates);
        for q in 0..self.statements.len() {
            self.add_mention(&rule, i, q as u16);
        }
    }

    // What a rule mentions of a statement.
    fn add_mention(&mut self, rule: &Ruleset, i: usize, statement: u16) {
        let place = usize::from(statement);
        if place >= self.statements.len() {
            return;
        }
        if rule.positive.union(rule.members).has(statement) {
            self.statements[place].add_needed(rule, i);
        }
        if rule.negative.union(rule.members).has(statement) {
            self.statements[place].add_unwanted(rule, i);
        }
        if rule.head.has(statement) {
            self.statements[place].add_head(rule, i);
        }
    }

    // The members of the aggregates of a run.
    fn add_members(&mut self, rules: &Rulesets, run: Run) {
        for j in run.first..run.end {
            if j < self.members.len() {
                self.members[j] = member_set(rules, rules.aggregate(j).members);
            }
        }
    }

    // A statement that is in has to be supported itself.
    fn add_own(&mut self) {
        for q in 0..self.statements.len() {
            let own = Set::single(q as u16);
            self.statements[q].supports_in = self.statements[q].supports_in.union(own);
        }
    }
}

// The statements none of whose rules needs a statement outside the set before.
fn needing_only(rules: &Rulesets, before: Set) -> Set {
    let mut others = Set::none();
    for i in 0..rules.rules() {
        let rule = rules.rule(i);
        if !rule.positive.union(rule.members).is_within(before) {
            others = others.union(rule.head);
        }
    }
    Set::below(rules.statements()).without(others)
}

// Whether some statements may only support each other: those that are not free. A statement is free where its rules need
// only statements that are free.
fn is_cyclic(rules: &Rulesets) -> bool {
    let mut free = Set::none();
    for _ in 0..rules.statements() {
        free = needing_only(rules, free);
    }
    free != Set::below(rules.statements())
}
