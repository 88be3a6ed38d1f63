// Answer sets straight from their definition: every row is tried, and of every row every proper part.
use super::model::{Aggregate, Program, Rule};
use super::rows::{Row, row_count};
use super::values::Reckoning;
use std::alloc::{AllocError, Global};

// What a rule that counts against a row demands of a part of it: if the part has its needs, it has a head statement.
#[derive(Clone, Copy)]
struct Demand {
    needs: Row,
    head: Row,
}

impl Demand {
    fn is_met(self, part: Row) -> bool {
        !self.needs.is_part_of(part) || self.head.meets(part)
    }
}

fn is_true(
    heap: Global,
    reckoning: Reckoning,
    aggregate: &Aggregate,
    row: Row,
) -> Result<bool, AllocError> {
    let weights = aggregate.weights_in(heap, row)?;
    Ok(aggregate.admits(reckoning.value(aggregate.kind, &weights)))
}

// Whether the row has none of the negative statements, and all aggregates are true in it.
fn counts_against(
    heap: Global,
    reckoning: Reckoning,
    rule: &Rule,
    row: Row,
) -> Result<bool, AllocError> {
    if Row::of(&rule.negative).meets(row) {
        return Ok(false);
    }
    for aggregate in &rule.aggregates {
        if !is_true(heap, reckoning, aggregate, row)? {
            return Ok(false);
        }
    }
    Ok(true)
}

// The positive statements, and those members of the aggregates that are in the row.
fn needs(rule: &Rule, row: Row) -> Row {
    let mut needs = Row::of(&rule.positive);
    for aggregate in &rule.aggregates {
        needs = needs.joined(aggregate.statements().within(row));
    }
    needs
}

fn demands(
    heap: Global,
    reckoning: Reckoning,
    rules: &[Rule],
    row: Row,
) -> Result<Vec<Demand>, AllocError> {
    let mut demands = Vec::new(heap);
    for rule in rules {
        if counts_against(heap, reckoning, rule, row)? {
            let needs = needs(rule, row);
            let head = Row::of(&rule.head);
            demands.push(Demand { needs, head })?;
        }
    }
    Ok(demands)
}

fn obeys(part: Row, demands: &[Demand]) -> bool {
    demands.iter().all(|demand| demand.is_met(part))
}

// Whether a proper part of the row obeys. The parts are gone through downwards: one less than a part, and of that only
// what the row has, is the next part.
fn has_obeying_part(row: Row, demands: &[Demand]) -> bool {
    let mut marks = row.marks;
    for _ in 0..row.marks {
        marks = marks.wrapping_sub(1) & row.marks;
        if obeys(Row { marks }, demands) {
            return true;
        }
        if marks == 0 {
            break;
        }
    }
    false
}

// Whether the row obeys against itself, and none of its proper parts does.
fn is_answer_set(
    heap: Global,
    reckoning: Reckoning,
    rules: &[Rule],
    row: Row,
) -> Result<bool, AllocError> {
    let demands = demands(heap, reckoning, rules, row)?;
    Ok(obeys(row, &demands) && !has_obeying_part(row, &demands))
}

// All answer sets of a program, in no order that matters. A statement behind the core stands in no rule, so that a set
// which has it has a part that obeys as well: it is in none.
pub(crate) fn answer_sets(
    heap: Global,
    reckoning: Reckoning,
    program: &Program,
) -> Result<Vec<Row>, AllocError> {
    let mut found = Vec::new(heap);
    for marks in 0..row_count(program.core) {
        let row = Row { marks };
        if is_answer_set(heap, reckoning, &program.rules, row)? {
            found.push(row)?;
        }
    }
    Ok(found)
}

fn body_is_true(
    heap: Global,
    reckoning: Reckoning,
    rule: &Rule,
    row: Row,
) -> Result<bool, AllocError> {
    let has_positives = Row::of(&rule.positive).is_part_of(row);
    Ok(has_positives && counts_against(heap, reckoning, rule, row)?)
}

// Whether the rule's body is true, and the statement is the only one of its head that the row may have.
fn supports(
    heap: Global,
    reckoning: Reckoning,
    rule: &Rule,
    row: Row,
    statement: u16,
) -> Result<bool, AllocError> {
    let is_head = rule.head.contains(&statement);
    let is_alone = !rule
        .head
        .iter()
        .any(|other| *other != statement && row.has(*other));
    Ok(is_head && is_alone && body_is_true(heap, reckoning, rule, row)?)
}

// The first rule, by number, that supports a statement in a row.
pub(crate) fn first_support(
    heap: Global,
    reckoning: Reckoning,
    rules: &[Rule],
    row: Row,
    statement: u16,
) -> Result<Option<usize>, AllocError> {
    for (number, rule) in rules.iter().enumerate() {
        if supports(heap, reckoning, rule, row, statement)? {
            return Ok(Some(number));
        }
    }
    Ok(None)
}
