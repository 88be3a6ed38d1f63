// The check read plainly: all faults of some bytes are collected, in any order, and the first in checking order is
// given. After a fault of the header the later areas have no meaning, and nothing is collected of them.
use super::places::{
    AGGREGATES, HEADER, Image, LITERALS, MEMBERS, NAMES, RULES, SHAPES, STATEMENTS,
};
use std::alloc::{AllocError, Global};

// A fault with what its turn in checking depends on: the area, the stage (the records come first), the record, the
// number and the place.
#[derive(Clone, Copy, PartialEq, Eq, PartialOrd, Ord, Debug)]
struct Found {
    area: u8,
    stage: u8,
    record: usize,
    number: u8,
    place: usize,
}

// Collects the faults of one area.
#[derive(Drop)]
struct Collector {
    area: u8,
    found: Vec<Found>,
}

impl Collector {
    fn new(heap: Global) -> Collector {
        Collector {
            area: 0,
            found: Vec::new(heap),
        }
    }

    // Notes a fault of a record, where there is one.
    fn note(
        &mut self,
        is_fault: bool,
        number: u8,
        record: usize,
        place: usize,
    ) -> Result<(), AllocError> {
        self.note_after(0, is_fault, number, record, place)
    }

    // Notes a fault that is tried at a stage of its own, behind the records where that is not 0.
    fn note_after(
        &mut self,
        stage: u8,
        is_fault: bool,
        number: u8,
        record: usize,
        place: usize,
    ) -> Result<(), AllocError> {
        let area = self.area;
        if is_fault {
            self.found.push(Found {
                area,
                stage,
                record,
                number,
                place,
            })?;
        }
        Ok(())
    }

    fn first(&self) -> Option<(u8, usize)> {
        let first = self.found.iter().min()?;
        Some((first.number, first.place))
    }
}

fn collect_header(faults: &mut Collector, image: Image) -> Result<(), AllocError> {
    let length = image.bytes.len();
    faults.note(length < HEADER, 1, 0, length)?;
    faults.note(image.word(0) != 1, 2, 0, 0)?;
    faults.note(image.word(2) != length, 3, 0, 2)?;
    let mut end = HEADER;
    for shape in SHAPES {
        faults.note(image.count(shape) > shape.most, 4, 0, shape.count_at)?;
        let offset_at = shape.count_at.saturating_add(2);
        faults.note(image.offset(shape) != end, 5, 0, offset_at)?;
        end = image.record_at(shape, image.count(shape));
    }
    faults.note(end != length, 6, 0, 24)
}

// Where the name of the statement before this one ends.
fn name_start(image: Image, statement: usize) -> usize {
    if statement == 0 {
        return 0;
    }
    let before = image.record_at(STATEMENTS, statement.saturating_sub(1));
    let length = image.byte(before.saturating_add(2));
    image.word(before).saturating_add(length)
}

fn has_earlier_name(image: Image, statement: usize) -> bool {
    (0..statement).any(|earlier| image.name(earlier) == image.name(statement))
}

fn collect_statements(faults: &mut Collector, image: Image) -> Result<(), AllocError> {
    let count = image.count(STATEMENTS);
    for statement in 0..count {
        let at = image.record_at(STATEMENTS, statement);
        let length = image.byte(at.saturating_add(2));
        let wrong_length = length == 0 || length > 32;
        let wrong_start = image.word(at) != name_start(image, statement);
        faults.note(wrong_length || wrong_start, 7, statement, at)?;
        let last = at.saturating_add(3);
        faults.note(image.byte(last) != 0, 8, statement, last)?;
        let twice = has_earlier_name(image, statement);
        faults.note_after(3, twice, 11, statement, at)?;
    }
    let unfilled = name_start(image, count) != image.count(NAMES);
    faults.note_after(1, unfilled, 9, 0, 24)
}

fn collect_name_bytes(faults: &mut Collector, image: Image) -> Result<(), AllocError> {
    for number in 0..image.count(NAMES) {
        let at = image.record_at(NAMES, number);
        let letter = image.byte(at);
        faults.note_after(2, letter < 33 || letter > 126, 10, 0, at)?;
    }
    Ok(())
}

// Where the literals of the rule before this one end.
fn literal_start(image: Image, rule: usize) -> usize {
    if rule == 0 {
        return 0;
    }
    let before = image.record_at(RULES, rule.saturating_sub(1));
    let mut end = image.word(before.saturating_add(4));
    for part in 0..3 {
        end = end.saturating_add(image.byte(before.saturating_add(part)));
    }
    end
}

// Where the aggregates of the rule before this one end.
fn aggregate_start(image: Image, rule: usize) -> usize {
    if rule == 0 {
        return 0;
    }
    let before = image.record_at(RULES, rule.saturating_sub(1));
    let count = image.byte(before.saturating_add(3));
    image.word(before.saturating_add(6)).saturating_add(count)
}

fn collect_rule(faults: &mut Collector, image: Image, rule: usize) -> Result<(), AllocError> {
    let at = image.record_at(RULES, rule);
    for (part, most) in [8usize, 32, 32, 4].iter().enumerate() {
        let place = at.saturating_add(part);
        faults.note(image.byte(place) > *most, 12, rule, place)?;
    }
    let literal_at = at.saturating_add(4);
    let wrong_literal = image.word(literal_at) != literal_start(image, rule);
    faults.note(wrong_literal, 13, rule, literal_at)?;
    let aggregate_at = at.saturating_add(6);
    let wrong_aggregate = image.word(aggregate_at) != aggregate_start(image, rule);
    faults.note(wrong_aggregate, 13, rule, aggregate_at)
}

fn collect_rules(faults: &mut Collector, image: Image) -> Result<(), AllocError> {
    let count = image.count(RULES);
    for rule in 0..count {
        collect_rule(faults, image, rule)?;
    }
    let unfilled = literal_start(image, count) != image.count(LITERALS);
    faults.note_after(1, unfilled, 14, 0, 12)?;
    let unfilled = aggregate_start(image, count) != image.count(AGGREGATES);
    faults.note_after(1, unfilled, 14, 0, 16)
}

fn collect_literals(faults: &mut Collector, image: Image) -> Result<(), AllocError> {
    for number in 0..image.count(LITERALS) {
        let at = image.record_at(LITERALS, number);
        let unknown = image.byte(at) >= image.count(STATEMENTS);
        faults.note(unknown, 15, number, at)?;
    }
    Ok(())
}

// Where the members of the aggregate before this one end.
fn member_start(image: Image, aggregate: usize) -> usize {
    if aggregate == 0 {
        return 0;
    }
    let before = image.record_at(AGGREGATES, aggregate.saturating_sub(1));
    let count = image.byte(before.saturating_add(2));
    image.word(before.saturating_add(4)).saturating_add(count)
}

fn collect_aggregate(
    faults: &mut Collector,
    image: Image,
    aggregate: usize,
) -> Result<(), AllocError> {
    let at = image.record_at(AGGREGATES, aggregate);
    let relation_at = at.saturating_add(1);
    faults.note(image.byte(relation_at) > 5, 16, aggregate, relation_at)?;
    let many = image.byte(at.saturating_add(2)) > 128;
    let wrong = image.word(at.saturating_add(4)) != member_start(image, aggregate);
    faults.note(many || wrong, 17, aggregate, at)?;
    for place in [3usize, 6, 7] {
        let place = at.saturating_add(place);
        faults.note(image.byte(place) != 0, 18, aggregate, place)?;
    }
    Ok(())
}

fn collect_aggregates(faults: &mut Collector, image: Image) -> Result<(), AllocError> {
    let count = image.count(AGGREGATES);
    for aggregate in 0..count {
        collect_aggregate(faults, image, aggregate)?;
    }
    let unfilled = member_start(image, count) != image.count(MEMBERS);
    faults.note_after(1, unfilled, 19, 0, 20)
}

fn member_statement(image: Image, member: usize) -> usize {
    image.byte(image.record_at(MEMBERS, member))
}

fn collect_member(faults: &mut Collector, image: Image, member: usize) -> Result<(), AllocError> {
    let at = image.record_at(MEMBERS, member);
    faults.note(image.byte(at) >= image.count(STATEMENTS), 20, member, at)?;
    for place in [1usize, 2, 3] {
        let place = at.saturating_add(place);
        faults.note(image.byte(place) != 0, 21, member, place)?;
    }
    let weight_at = at.saturating_add(4);
    let weight = image.whole(weight_at);
    let large = weight > 1_000_000 || weight < -1_000_000;
    faults.note(large, 22, member, weight_at)
}

// The members of one set that name a statement which stands earlier in the set.
fn collect_twice(faults: &mut Collector, image: Image, aggregate: usize) -> Result<(), AllocError> {
    let at = image.record_at(AGGREGATES, aggregate);
    let first = image.word(at.saturating_add(4));
    let end = first.saturating_add(image.byte(at.saturating_add(2)));
    for member in first..end {
        let statement = member_statement(image, member);
        let twice = (first..member).any(|earlier| member_statement(image, earlier) == statement);
        faults.note(twice, 23, member, image.record_at(MEMBERS, member))?;
    }
    Ok(())
}

fn collect_members(faults: &mut Collector, image: Image) -> Result<(), AllocError> {
    for member in 0..image.count(MEMBERS) {
        collect_member(faults, image, member)?;
    }
    Ok(())
}

fn collect_sets(faults: &mut Collector, image: Image) -> Result<(), AllocError> {
    for aggregate in 0..image.count(AGGREGATES) {
        collect_twice(faults, image, aggregate)?;
    }
    Ok(())
}

// Collects the faults of all areas behind the header.
fn collect_areas(faults: &mut Collector, image: Image) -> Result<(), AllocError> {
    faults.area = 1;
    collect_statements(faults, image)?;
    collect_name_bytes(faults, image)?;
    faults.area = 2;
    collect_rules(faults, image)?;
    faults.area = 3;
    collect_literals(faults, image)?;
    faults.area = 4;
    collect_aggregates(faults, image)?;
    faults.area = 5;
    collect_members(faults, image)?;
    collect_sets(faults, image)
}

// The number and the place of the first fault of some bytes, or that they have none.
pub(crate) fn first_fault(heap: Global, bytes: &[u8]) -> Result<Option<(u8, usize)>, AllocError> {
    let image = Image { bytes };
    let mut faults = Collector::new(heap);
    collect_header(&mut faults, image)?;
    if faults.first().is_none() {
        collect_areas(&mut faults, image)?;
    }
    Ok(faults.first())
}
