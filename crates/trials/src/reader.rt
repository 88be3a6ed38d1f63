// What accepted bytes stand for, read from the description of the format.
use super::model::{Aggregate, Member, Program, RELATIONS, Relation, Rule};
use super::places::{AGGREGATES, Image, LITERALS, MEMBERS, NAMES, RULES, SHAPES, STATEMENTS};
use std::alloc::{AllocError, Global};

// The number of a statement, from a byte.
fn number(byte: usize) -> u16 {
    u16::try_from(byte).unwrap_or(u16::MAX)
}

// The literals from first on, so many of them.
fn literals(
    heap: Global,
    image: Image,
    first: usize,
    count: usize,
) -> Result<Vec<u16>, AllocError> {
    let mut found = Vec::new(heap);
    for step in 0..count {
        let at = image.record_at(LITERALS, first.saturating_add(step));
        found.push(number(image.byte(at)))?;
    }
    Ok(found)
}

fn members(
    heap: Global,
    image: Image,
    first: usize,
    count: usize,
) -> Result<Vec<Member>, AllocError> {
    let mut found = Vec::new(heap);
    for step in 0..count {
        let at = image.record_at(MEMBERS, first.saturating_add(step));
        let statement = number(image.byte(at));
        let weight = i32::try_from(image.whole(at.saturating_add(4))).unwrap_or(0);
        found.push(Member { statement, weight })?;
    }
    Ok(found)
}

fn aggregate(heap: Global, image: Image, number: usize) -> Result<Aggregate, AllocError> {
    let at = image.record_at(AGGREGATES, number);
    let relation = RELATIONS.get(image.byte(at.saturating_add(1))).copied();
    let first = image.word(at.saturating_add(4));
    let count = image.byte(at.saturating_add(2));
    Ok(Aggregate {
        kind: u8::try_from(image.byte(at)).unwrap_or(0),
        relation: relation.unwrap_or(Relation::Equal),
        bound: i32::try_from(image.whole(at.saturating_add(8))).unwrap_or(0),
        members: members(heap, image, first, count)?,
    })
}

fn aggregates(
    heap: Global,
    image: Image,
    first: usize,
    count: usize,
) -> Result<Vec<Aggregate>, AllocError> {
    let mut found = Vec::new(heap);
    for step in 0..count {
        found.push(aggregate(heap, image, first.saturating_add(step))?)?;
    }
    Ok(found)
}

fn rule(heap: Global, image: Image, number: usize) -> Result<Rule, AllocError> {
    let at = image.record_at(RULES, number);
    let heads = image.byte(at);
    let positives = image.byte(at.saturating_add(1));
    let negatives = image.byte(at.saturating_add(2));
    let sets = image.byte(at.saturating_add(3));
    let first = image.word(at.saturating_add(4));
    let after_head = first.saturating_add(heads);
    let after_positive = after_head.saturating_add(positives);
    Ok(Rule {
        head: literals(heap, image, first, heads)?,
        positive: literals(heap, image, after_head, positives)?,
        negative: literals(heap, image, after_positive, negatives)?,
        aggregates: aggregates(heap, image, image.word(at.saturating_add(6)), sets)?,
    })
}

fn name(heap: Global, image: Image, statement: usize) -> Result<String, AllocError> {
    let mut text = String::new(heap);
    for letter in image.name(statement) {
        text.push(char::from(*letter))?;
    }
    Ok(text)
}

fn names(heap: Global, image: Image) -> Result<Vec<String>, AllocError> {
    let mut found = Vec::new(heap);
    for statement in 0..image.count(STATEMENTS) {
        found.push(name(heap, image, statement)?)?;
    }
    Ok(found)
}

// How many records each area has, by the header.
pub(crate) fn sizes(bytes: &[u8]) -> [usize; 6] {
    let image = Image { bytes };
    [
        image.count(STATEMENTS),
        image.count(RULES),
        image.count(LITERALS),
        image.count(AGGREGATES),
        image.count(MEMBERS),
        image.count(NAMES),
    ]
}

// The program that bytes without a fault stand for. Its rules may speak of all statements.
pub(crate) fn read_program(heap: Global, bytes: &[u8]) -> Result<Program, AllocError> {
    let image = Image { bytes };
    let mut rules = Vec::new(heap);
    for number in 0..image.count(RULES) {
        rules.push(rule(heap, image, number)?)?;
    }
    let names = names(heap, image)?;
    let core = u16::try_from(names.len()).unwrap_or(u16::MAX);
    Ok(Program { core, names, rules })
}
