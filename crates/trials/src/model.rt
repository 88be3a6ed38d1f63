// Rules as the trials have them: types of their own, which no crate of the engine knows.
use super::rows::Row;
use std::alloc::{AllocError, Global};

// How a value is held against a bound, in the order of the codes in a table.
#[derive(Clone, Copy, PartialEq, Eq, Debug)]
pub(crate) enum Relation {
    Less,
    AtMost,
    Equal,
    Unequal,
    AtLeast,
    More,
}

pub(crate) const RELATIONS: [Relation; 6] = [
    Relation::Less,
    Relation::AtMost,
    Relation::Equal,
    Relation::Unequal,
    Relation::AtLeast,
    Relation::More,
];

impl Relation {
    pub(crate) fn holds(self, value: i64, bound: i64) -> bool {
        match self {
            Relation::Less => value < bound,
            Relation::AtMost => value <= bound,
            Relation::Equal => value == bound,
            Relation::Unequal => value != bound,
            Relation::AtLeast => value >= bound,
            Relation::More => value > bound,
        }
    }

    pub(crate) fn code(self) -> u8 {
        self as u8
    }
}

#[derive(Clone, Copy, PartialEq, Eq, Debug)]
pub(crate) struct Member {
    pub statement: u16,
    pub weight: i32,
}

#[derive(Drop)]
pub(crate) struct Aggregate {
    pub kind: u8,
    pub relation: Relation,
    pub bound: i32,
    pub members: Vec<Member>,
}

impl Aggregate {
    // Whether a value is a number that stands in the relation to the bound.
    pub(crate) fn admits(&self, value: Option<i64>) -> bool {
        match value {
            Some(number) => self.relation.holds(number, i64::from(self.bound)),
            None => false,
        }
    }

    // The statements of its members.
    pub(crate) fn statements(&self) -> Row {
        let mut row = Row::EMPTY;
        for member in &self.members {
            row = row.with(member.statement);
        }
        row
    }

    // The weights of those members that are in the row.
    pub(crate) fn weights_in(&self, heap: Global, row: Row) -> Result<Vec<i32>, AllocError> {
        let mut weights = Vec::new(heap);
        for member in &self.members {
            if row.has(member.statement) {
                weights.push(member.weight)?;
            }
        }
        Ok(weights)
    }
}

#[derive(Drop)]
pub(crate) struct Rule {
    pub head: Vec<u16>,
    pub positive: Vec<u16>,
    pub negative: Vec<u16>,
    pub aggregates: Vec<Aggregate>,
}

impl Rule {
    pub(crate) fn new(heap: Global) -> Rule {
        Rule {
            head: Vec::new(heap),
            positive: Vec::new(heap),
            negative: Vec::new(heap),
            aggregates: Vec::new(heap),
        }
    }

    // How many members its aggregates have.
    fn members(&self) -> usize {
        let mut members = 0usize;
        for aggregate in &self.aggregates {
            members = members.saturating_add(aggregate.members.len());
        }
        members
    }

    fn push_kinds(&self, kinds: &mut Vec<u8>) -> Result<(), AllocError> {
        for aggregate in &self.aggregates {
            kinds.push(aggregate.kind)?;
        }
        Ok(())
    }
}

// Statements by their names, and rules of them. The rules speak of the first few statements alone, the core; a
// statement behind the core stands in no rule.
#[derive(Drop)]
pub(crate) struct Program {
    pub core: u16,
    pub names: Vec<String>,
    pub rules: Vec<Rule>,
}

impl Program {
    // No statements and no rules, which is also what a table stands for that is not opened.
    pub(crate) fn empty(heap: Global) -> Program {
        Program {
            core: 0,
            names: Vec::new(heap),
            rules: Vec::new(heap),
        }
    }

    pub(crate) fn statements(&self) -> u16 {
        u16::try_from(self.names.len()).unwrap_or(u16::MAX)
    }

    // The kinds of all aggregates, in their order in the table.
    pub(crate) fn kinds(&self, heap: Global) -> Result<Vec<u8>, AllocError> {
        let mut kinds = Vec::new(heap);
        for rule in &self.rules {
            rule.push_kinds(&mut kinds)?;
        }
        Ok(kinds)
    }

    fn aggregates(&self) -> usize {
        let mut aggregates = 0usize;
        for rule in &self.rules {
            aggregates = aggregates.saturating_add(rule.aggregates.len());
        }
        aggregates
    }

    fn members(&self) -> usize {
        let mut members = 0usize;
        for rule in &self.rules {
            members = members.saturating_add(rule.members());
        }
        members
    }

    fn letters(&self) -> usize {
        let mut letters = 0usize;
        for name in &self.names {
            letters = letters.saturating_add(name.len());
        }
        letters
    }

    // How many literals all rules have.
    pub(crate) fn literals(&self) -> usize {
        let mut literals = 0usize;
        for rule in &self.rules {
            let mine = rule.head.len().saturating_add(rule.positive.len());
            literals = literals.saturating_add(mine.saturating_add(rule.negative.len()));
        }
        literals
    }

    // How many records each area of its table has.
    pub(crate) fn sizes(&self) -> [usize; 6] {
        [
            self.names.len(),
            self.rules.len(),
            self.literals(),
            self.aggregates(),
            self.members(),
            self.letters(),
        ]
    }
}
