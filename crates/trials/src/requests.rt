// Random journals: visits with good and bad arguments, each with the table that it is asked of and the length of the
// part that is handed over.
use super::known::Known;
use super::ledger::REPORT;
use super::random::Random;
use super::rows::Row;
use semantics::Finding;
use sheet::Visit;
use std::alloc::{AllocError, Global};

// Which table a sheet is begun on, or a visit is asked of.
#[derive(Clone, Copy, PartialEq, Eq, Debug)]
pub(crate) enum Which {
    Own,
    Other,
    Unopened,
}

#[derive(Clone, Copy)]
pub(crate) struct Request {
    pub visit: Visit,
    pub which: Which,
    // How many bytes the part has, and what each of them is before the visit.
    pub room: usize,
    pub fill: u8,
}

// The visits of a journal that begins with entering one finding after the other.
const FILLING: u16 = 67;

// Mostly the own table.
pub(crate) fn any_table(random: &mut Random) -> Which {
    match random.below(16) {
        0 => Which::Other,
        1 => Which::Unopened,
        _ => Which::Own,
    }
}

// A statement of a table, mostly one that rules speak of, and now and then one that is not there.
pub(crate) fn any_statement(random: &mut Random, known: &Known) -> u16 {
    let statements = known.program.statements();
    match random.below(24) {
        0 => random.pick(&[statements, 128, 255, 256, u16::MAX], 0),
        1..=3 => random.below(statements),
        _ => random.below(known.program.core),
    }
}

fn any_finding(random: &mut Random, known: &Known) -> Finding {
    Finding {
        statement: any_statement(random, known),
        present: random.one_in(2),
    }
}

fn any_visit(random: &mut Random, known: &Known) -> Visit {
    match random.below(16) {
        0..=3 => Visit::Enter(any_finding(random, known)),
        4..=5 => Visit::Withdraw,
        6..=8 => Visit::Draw,
        9..=11 => Visit::Seek,
        12..=13 => Visit::Weigh(any_statement(random, known)),
        _ => Visit::Suppose(any_finding(random, known)),
    }
}

// As many bytes as are needed, two more, or too few.
pub(crate) fn any_room(random: &mut Random, needed: usize) -> usize {
    match random.below(16) {
        0 => needed.saturating_sub(1),
        1 => random.place(needed),
        2..=8 => needed,
        _ => needed.saturating_add(2),
    }
}

// The bytes of a row, of an answer set or of any statements of the first eight; now and then with other bytes.
pub(crate) fn any_row(
    heap: Global,
    random: &mut Random,
    known: &Known,
) -> Result<Vec<u8>, AllocError> {
    let room = any_room(random, usize::from(known.program.statements()));
    let mut bytes = Vec::new(heap);
    let account = if random.one_in(3) {
        random.pick(&known.answer_sets, Row::EMPTY)
    } else {
        Row {
            marks: u32::from(random.below(256) | random.below(256)),
        }
    };
    for place in 0..room {
        let is_in = account.has(u16::try_from(place).unwrap_or(u16::MAX));
        let others = if random.one_in(16) {
            [0u8, 255, 1]
        } else {
            [2, 2, 2]
        };
        bytes.push(if is_in { 1 } else { random.pick(&others, 0) })?;
    }
    Ok(bytes)
}

// As many bytes as a report needs, two more, or too few.
pub(crate) fn report_room(random: &mut Random) -> usize {
    match random.below(16) {
        0 => REPORT.saturating_sub(1),
        1 => random.place(REPORT),
        2..=8 => REPORT,
        _ => REPORT.saturating_add(2),
    }
}

pub(crate) fn any_byte(random: &mut Random) -> u8 {
    (random.below(256) & 0xff) as u8
}

pub(crate) fn any_request(random: &mut Random, known: &Known) -> Request {
    Request {
        visit: any_visit(random, known),
        which: any_table(random),
        room: any_room(random, usize::from(known.program.statements())),
        fill: any_byte(random),
    }
}

// Entering a finding of this statement, as the filling of a sheet does.
fn entering(random: &mut Random, statement: u16) -> Request {
    let present = random.one_in(8);
    Request {
        visit: Visit::Enter(Finding { statement, present }),
        which: Which::Own,
        room: 0,
        fill: 0,
    }
}

// Entering findings of many statements, one after the other from any of them on.
fn filling(heap: Global, random: &mut Random, statements: u16) -> Result<Vec<Request>, AllocError> {
    let mut requests = Vec::new(heap);
    let first = random.below(statements);
    for step in 0..FILLING {
        let statement = first.saturating_add(step).checked_rem(statements);
        requests.push(entering(random, statement.unwrap_or(0)))?;
    }
    Ok(requests)
}

// The visits of one journal on a table; where there are statements enough, every other journal fills the sheet first.
pub(crate) fn any_requests(
    heap: Global,
    random: &mut Random,
    known: &Known,
) -> Result<Vec<Request>, AllocError> {
    let statements = known.program.statements();
    let mut requests = if statements >= 64 && random.one_in(2) {
        filling(heap, random, statements)?
    } else {
        Vec::new(heap)
    };
    for _ in 0..random.below(13) {
        requests.push(any_request(random, known))?;
    }
    Ok(requests)
}
