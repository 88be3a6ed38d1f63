// The bytes of a program as a rule table of format 1. They are written from the description of the format, with no help
// of the crates that read it.
use super::model::{Aggregate, Program, Rule};
use std::alloc::{AllocError, Global};

// The six areas of a table, each as its bytes.
#[derive(Drop)]
struct Areas {
    statements: Vec<u8>,
    rules: Vec<u8>,
    literals: Vec<u8>,
    aggregates: Vec<u8>,
    members: Vec<u8>,
    names: Vec<u8>,
}

fn low_byte(number: usize) -> u8 {
    (number & 0xff) as u8
}

// A number in two bytes, the lowest first.
fn push_word(bytes: &mut Vec<u8>, number: usize) -> Result<(), AllocError> {
    bytes.extend_from_slice(&[low_byte(number), low_byte(number >> 8)])
}

// A signed number in four bytes, the lowest first.
fn push_whole(bytes: &mut Vec<u8>, number: i32) -> Result<(), AllocError> {
    bytes.extend_from_slice(&number.to_le_bytes())
}

impl Areas {
    fn new(heap: Global) -> Areas {
        Areas {
            statements: Vec::new(heap),
            rules: Vec::new(heap),
            literals: Vec::new(heap),
            aggregates: Vec::new(heap),
            members: Vec::new(heap),
            names: Vec::new(heap),
        }
    }

    fn push_statement(&mut self, name: &str) -> Result<(), AllocError> {
        push_word(&mut self.statements, self.names.len())?;
        self.statements
            .extend_from_slice(&[low_byte(name.len()), 0])?;
        self.names.extend_from_slice(name.as_bytes())
    }

    fn push_literals(&mut self, literals: &[u16]) -> Result<(), AllocError> {
        for literal in literals {
            self.literals.push(low_byte(usize::from(*literal)))?;
        }
        Ok(())
    }

    fn push_aggregate(&mut self, aggregate: &Aggregate) -> Result<(), AllocError> {
        let members = low_byte(aggregate.members.len());
        let codes = [aggregate.kind, aggregate.relation.code(), members, 0];
        self.aggregates.extend_from_slice(&codes)?;
        push_word(&mut self.aggregates, self.members.len() / 8)?;
        push_word(&mut self.aggregates, 0)?;
        push_whole(&mut self.aggregates, aggregate.bound)?;
        for member in &aggregate.members {
            let statement = low_byte(usize::from(member.statement));
            self.members.extend_from_slice(&[statement, 0, 0, 0])?;
            push_whole(&mut self.members, member.weight)?;
        }
        Ok(())
    }

    fn push_rule(&mut self, rule: &Rule) -> Result<(), AllocError> {
        let counts = [
            low_byte(rule.head.len()),
            low_byte(rule.positive.len()),
            low_byte(rule.negative.len()),
            low_byte(rule.aggregates.len()),
        ];
        self.rules.extend_from_slice(&counts)?;
        push_word(&mut self.rules, self.literals.len())?;
        push_word(&mut self.rules, self.aggregates.len() / 12)?;
        self.push_literals(&rule.head)?;
        self.push_literals(&rule.positive)?;
        self.push_literals(&rule.negative)?;
        for aggregate in &rule.aggregates {
            self.push_aggregate(aggregate)?;
        }
        Ok(())
    }

    fn push_statements(&mut self, names: &[String]) -> Result<(), AllocError> {
        for name in names {
            self.push_statement(name)?;
        }
        Ok(())
    }

    fn push_rules(&mut self, rules: &[Rule]) -> Result<(), AllocError> {
        for rule in rules {
            self.push_rule(rule)?;
        }
        Ok(())
    }

    // The header, and behind it the areas.
    fn bytes(&self, heap: Global) -> Result<Vec<u8>, AllocError> {
        let areas = [
            (self.statements.as_slice(), 4),
            (self.rules.as_slice(), 8),
            (self.literals.as_slice(), 1),
            (self.aggregates.as_slice(), 12),
            (self.members.as_slice(), 8),
            (self.names.as_slice(), 1),
        ];
        let mut header = Vec::new(heap);
        let mut body = Vec::new(heap);
        for (area, size) in areas {
            push_word(&mut header, area.len() / size)?;
            push_word(&mut header, body.len().saturating_add(28))?;
            body.extend_from_slice(area)?;
        }
        let mut bytes = Vec::new(heap);
        push_word(&mut bytes, 1)?;
        push_word(&mut bytes, body.len().saturating_add(28))?;
        bytes.extend_from_slice(&header)?;
        bytes.extend_from_slice(&body)?;
        Ok(bytes)
    }
}

pub(crate) fn table_bytes(heap: Global, program: &Program) -> Result<Vec<u8>, AllocError> {
    let mut areas = Areas::new(heap);
    areas.push_statements(&program.names)?;
    areas.push_rules(&program.rules)?;
    areas.bytes(heap)
}
