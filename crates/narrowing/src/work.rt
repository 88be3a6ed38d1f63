use super::bits::RuleBits;
use super::mentions::Mentions;
use marking::{Marking, Set};
use semantics::Mark;

// What is still to be looked at: statements, rules, and the marks from a place of the trail on. It says only where to
// look, and nothing is promised of it.
#[derive(Drop)]
pub struct Work {
    pub(crate) statements: Set,
    pub(crate) rules: RuleBits,
    pub(crate) looked: usize,
    // What forced the member of an aggregate, and may force the others.
    pub(crate) last: Option<Forcing>,
}

// A rule that must not be broken, or a statement that must be supported.
#[derive(Clone, Copy)]
pub(crate) enum Forced {
    Rule(usize),
    Statement(u16),
}

// What forced the member of an aggregate: the marks that it needs, the members, and whether these can't be in, or out.
#[derive(Clone, Copy)]
pub(crate) struct Forcing {
    pub by: Forced,
    pub marks: Marking,
    pub members: Set,
    pub present: bool,
}

impl Work {
    // Everything is to be looked at.
    pub fn all(statements: u16, rules: usize) -> Work {
        let mut work = Work {
            statements: Set::below(statements),
            rules: RuleBits::none(),
            looked: 0,
            last: None,
        };
        for i in 0..rules {
            work.rules.add(i);
        }
        work
    }

    // Nothing is to be looked at but the marks from a place of the trail on.
    pub fn go_back(&mut self, reached: usize) {
        self.statements = Set::none();
        self.rules = RuleBits::none();
        self.looked = reached;
        self.last = None;
    }

    // A statement has been marked.
    pub(crate) fn add_marked(&mut self, mentions: &Mentions, marking: &Marking, statement: u16) {
        self.looked = self.looked.saturating_add(1);
        let Some(mention) = mentions.of(statement) else {
            return;
        };
        if marking.mark(statement) == Mark::In {
            self.rules.add_all(&mention.when_in);
            self.statements = self.statements.union(mention.supports_in);
        } else {
            self.rules.add_all(&mention.when_out);
            self.statements = self.statements.union(mention.supports_out);
        }
    }

    // The next rule to look at.
    pub fn next_rule(&self) -> Option<usize> {
        self.rules.first()
    }

    // A rule has been looked at.
    pub fn remove_rule(&mut self, rule: usize) {
        self.rules.remove(rule);
    }

    // The place of the trail from which on no mark has been looked at.
    pub fn looked(&self) -> usize {
        self.looked
    }

    // All rules that mention a statement, which has been marked.
    pub fn add_rules(&mut self, mentions: &Mentions, statement: u16) {
        self.looked = self.looked.saturating_add(1);
        if let Some(mention) = mentions.of(statement) {
            self.rules.add_all(&mention.when_in);
            self.rules.add_all(&mention.when_out);
        }
    }

    pub(crate) fn remove_statement(&mut self, statement: u16) {
        self.statements = self.statements.without(Set::single(statement));
    }
}
