// Damage to the bytes of a table: mostly in the records behind the header, so that the check gets there; some in the
// header, and some that changes the number of bytes.
use super::places::{AGGREGATES, Image, MEMBERS, NAMES, RULES, SHAPES, STATEMENTS, Shape};
use super::random::Random;
use std::alloc::{AllocError, Global};

fn set(bytes: &mut Vec<u8>, place: usize, value: u8) {
    if place < bytes.len() {
        bytes[place] = value;
    }
}

fn set_word(bytes: &mut Vec<u8>, place: usize, number: usize) {
    set(bytes, place, (number & 0xff) as u8);
    set(bytes, place.saturating_add(1), ((number >> 8) & 0xff) as u8);
}

fn byte(bytes: &[u8], place: usize) -> u8 {
    bytes.get(place).copied().unwrap_or(0)
}

// A byte that is near a limit, or near what stands there.
fn telling_byte(random: &mut Random, old: u8) -> u8 {
    let near = [old.wrapping_add(1), old.wrapping_sub(1), 0, 1];
    if random.one_in(2) {
        return random.pick(&near, 0);
    }
    let limits = [
        4u8, 5, 6, 8, 9, 15, 16, 31, 32, 33, 126, 127, 128, 129, 240, 255,
    ];
    random.pick(&limits, 0)
}

// A record of an area, the last one as often as any other together.
fn any_record(random: &mut Random, count: usize) -> usize {
    if random.one_in(2) {
        return count.saturating_sub(1);
    }
    random.place(count)
}

// Changes a byte of a record.
fn change_record(random: &mut Random, bytes: &mut Vec<u8>) {
    let shape = random.pick(&SHAPES, STATEMENTS);
    let image = Image { bytes };
    let count = image.count(shape);
    if count == 0 {
        return;
    }
    let at = image.record_at(shape, any_record(random, count));
    let place = at.saturating_add(random.place(shape.size));
    let value = telling_byte(random, byte(bytes, place));
    set(bytes, place, value);
}

// Changes a number of the header, mostly a count.
fn change_header(random: &mut Random, bytes: &mut Vec<u8>) {
    let shape = random.pick(&SHAPES, NAMES);
    let counts = shape.count_at;
    let place = if random.one_in(2) {
        counts
    } else {
        random.place(14).saturating_mul(2)
    };
    let old = Image { bytes }.word(place);
    let numbers = [
        old.saturating_add(1),
        old.saturating_sub(1),
        shape.most,
        shape.most.saturating_add(1),
        0,
        65_535,
    ];
    let number = random.pick(&numbers, 0);
    set_word(bytes, place, number);
}

// Where a record of an area begins.
fn place_of(bytes: &[u8], shape: Shape, record: usize) -> usize {
    Image { bytes }.record_at(shape, record)
}

// Copies a name, or as much of it as there is room for, over another one.
fn copy_name(random: &mut Random, bytes: &mut Vec<u8>) {
    let image = Image { bytes };
    let count = image.count(STATEMENTS);
    let (from, to) = (random.place(count), random.place(count));
    let record = image.record_at(STATEMENTS, from);
    let start = place_of(bytes, NAMES, image.word(record));
    let over = place_of(bytes, NAMES, image.word(image.record_at(STATEMENTS, to)));
    let length = image.name(from).len().min(image.name(to).len());
    for step in 0..length {
        let letter = byte(bytes, start.saturating_add(step));
        set(bytes, over.saturating_add(step), letter);
    }
}

// Lets a member name the statement of the member before it.
fn copy_member(random: &mut Random, bytes: &mut Vec<u8>) {
    let count = Image { bytes }.count(MEMBERS);
    let member = random.place(count);
    let before = place_of(bytes, MEMBERS, member.saturating_sub(1));
    let statement = byte(bytes, before);
    let place = place_of(bytes, MEMBERS, member);
    set(bytes, place, statement);
}

// Puts a weight to its limit, or one past it.
fn change_weight(random: &mut Random, bytes: &mut Vec<u8>) {
    let count = Image { bytes }.count(MEMBERS);
    if count == 0 {
        return;
    }
    let at = place_of(bytes, MEMBERS, random.place(count)).saturating_add(4);
    let weights = [1_000_000i32, 1_000_001, -1_000_000, -1_000_001];
    let weight = random.pick(&weights, 0).to_le_bytes();
    for (step, part) in weight.iter().enumerate() {
        set(bytes, at.saturating_add(step), *part);
    }
}

// Makes the last run of an area one shorter.
fn shorten_run(random: &mut Random, bytes: &mut Vec<u8>) {
    let fields = [
        (STATEMENTS, 2usize),
        (RULES, 0),
        (RULES, 1),
        (RULES, 2),
        (RULES, 3),
        (AGGREGATES, 2),
    ];
    let (shape, field) = random.pick(&fields, (STATEMENTS, 2));
    let count = Image { bytes }.count(shape);
    if count == 0 {
        return;
    }
    let place = place_of(bytes, shape, count.saturating_sub(1)).saturating_add(field);
    let value = byte(bytes, place).saturating_sub(1);
    set(bytes, place, value);
}

// Adds a byte at the end or takes the last one off, and mends the length now and then.
fn change_length(random: &mut Random, bytes: &mut Vec<u8>) -> Result<(), AllocError> {
    if random.one_in(2) {
        bytes.push((random.below(256) & 0xff) as u8)?;
    } else {
        bytes.pop();
    }
    if random.one_in(2) {
        let length = bytes.len();
        set_word(bytes, 2, length);
    }
    Ok(())
}

// Cuts the bytes short, mostly within the header.
fn cut(random: &mut Random, bytes: &mut Vec<u8>) {
    let most = if random.one_in(2) { 28 } else { bytes.len() };
    bytes.truncate(random.place(most));
}

// Makes any byte anything.
fn change_byte(random: &mut Random, bytes: &mut Vec<u8>) {
    let place = random.place(bytes.len());
    let value = (random.below(256) & 0xff) as u8;
    set(bytes, place, value);
}

fn damage(random: &mut Random, bytes: &mut Vec<u8>) -> Result<(), AllocError> {
    match random.below(24) {
        0..=9 => change_record(random, bytes),
        10..=12 => copy_name(random, bytes),
        13..=14 => copy_member(random, bytes),
        15 => change_weight(random, bytes),
        16..=18 => shorten_run(random, bytes),
        19 => change_header(random, bytes),
        20 => change_length(random, bytes)?,
        21 => cut(random, bytes),
        22 => change_byte(random, bytes),
        _ => set_word(bytes, 0, 0),
    }
    Ok(())
}

// Copies of bytes with one, two or three places damaged.
pub(crate) fn damaged(
    heap: Global,
    random: &mut Random,
    bytes: &[u8],
) -> Result<Vec<u8>, AllocError> {
    let mut copy = Vec::new(heap);
    copy.extend_from_slice(bytes)?;
    for _ in 0..random.pick(&[1u8, 1, 1, 2, 3], 1) {
        damage(random, &mut copy)?;
    }
    Ok(copy)
}
