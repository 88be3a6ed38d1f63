// The ledger of visits read plainly: what stands, which refusal comes first, what is answered and what is written.
use super::answers::first_support;
use super::known::Known;
use super::random::Random;
use super::rows::{Row, first_row};
use super::steps::{Mark, drawn};
use super::told::Told;
use semantics::Finding;
use sheet::Visit;
use std::alloc::{AllocError, Global};

// How many findings can stand.
const MOST: usize = 64;

// How many bytes a report needs.
pub(crate) const REPORT: usize = 4620;

// What is asked of a sheet. Why a statement is in a row, and the report, are no visits.
#[derive(Clone, Copy, Debug)]
pub(crate) enum Asked {
    Visit(Visit),
    // Of this statement.
    Why(u16),
    Report,
}

impl Asked {
    // The numbers by which it can be refused, in the order in which they are tried. Withdrawing has no order: it is
    // refused just where it finds nothing to take away.
    fn refusals(self) -> &'static [u8] {
        match self {
            Asked::Visit(Visit::Enter(_)) => &[27, 28, 29],
            Asked::Visit(Visit::Withdraw) => &[],
            Asked::Visit(Visit::Draw | Visit::Seek) => &[24, 25, 26, 31],
            Asked::Visit(Visit::Weigh(_)) => &[24, 25, 26, 27],
            Asked::Visit(Visit::Suppose(_)) => &[24, 25, 26, 27, 28, 29, 31],
            Asked::Why(_) => &[24, 25, 26, 27, 31],
            Asked::Report => &[24, 25, 26, 32],
        }
    }

    // The statement that it names.
    fn statement(self) -> u16 {
        match self {
            Asked::Visit(Visit::Enter(finding) | Visit::Suppose(finding)) => finding.statement,
            Asked::Visit(Visit::Weigh(statement)) | Asked::Why(statement) => statement,
            _ => 0,
        }
    }
}

// The findings that stand, in the order of entry, on a sheet for so many statements.
#[derive(Drop)]
pub(crate) struct Ledger {
    pub statements: u16,
    pub findings: Vec<Finding>,
}

fn agrees(row: Row, findings: &[Finding]) -> bool {
    findings
        .iter()
        .all(|finding| row.has(finding.statement) == finding.present)
}

// The accounts of some findings: the answer sets that agree with them.
fn accounts(heap: Global, known: &Known, findings: &[Finding]) -> Result<Vec<Row>, AllocError> {
    let mut accounts = Vec::new(heap);
    for row in &known.answer_sets {
        if agrees(*row, findings) {
            accounts.push(*row)?;
        }
    }
    Ok(accounts)
}

// Writes a byte for each mark to the front of a part that has room for them.
fn write_marks(part: &mut Vec<u8>, marks: &[Mark]) {
    for (place, mark) in marks.iter().enumerate() {
        if place < part.len() {
            part[place] = match mark {
                Mark::Open => 0,
                Mark::In => 1,
                Mark::Out => 2,
            };
        }
    }
}

// Writes an account as 1 and 2.
fn write_row(part: &mut Vec<u8>, statements: u16, row: Row) {
    for statement in 0..statements {
        let place = usize::from(statement);
        if place < part.len() {
            part[place] = if row.has(statement) { 1 } else { 2 };
        }
    }
}

// The statements whose bytes are 1.
fn row_of(bytes: &[u8], statements: u16) -> Row {
    let mut row = Row::EMPTY;
    for statement in 0..statements {
        if bytes.get(usize::from(statement)).copied() == Some(1) {
            row = row.with(statement);
        }
    }
    row
}

// Writes a text to the front of a part that has room for it.
fn write_text(part: &mut Vec<u8>, text: &[u8]) {
    for (place, letter) in text.iter().enumerate() {
        if place < part.len() {
            part[place] = *letter;
        }
    }
}

fn report_text(heap: Global, known: &Known, account: Option<Row>) -> Result<String, AllocError> {
    let mut text = String::new(heap);
    let Some(row) = account else {
        text.push_str("none\n")?;
        return Ok(text);
    };
    let count = row.count();
    write!(text, "account {count}\n")?;
    for (number, name) in known.program.names.iter().enumerate() {
        if row.has(u16::try_from(number).unwrap_or(u16::MAX)) {
            write!(text, "in {name}\n")?;
        }
    }
    Ok(text)
}

impl Ledger {
    pub(crate) fn begun(heap: Global, known: &Known) -> Ledger {
        Ledger {
            statements: known.program.statements(),
            findings: Vec::new(heap),
        }
    }

    fn lists(&self, statement: u16) -> bool {
        self.findings
            .iter()
            .any(|finding| finding.statement == statement)
    }

    // Where a refusal has its place, if its condition holds.
    fn place(&self, number: u8, known: &Known, asked: Asked, room: usize) -> Option<usize> {
        let statement = asked.statement();
        let holds = match number {
            24 => !known.is_opened,
            25 => known.program.statements() != self.statements,
            26 => return known.lacking,
            27 if statement >= self.statements => return Some(usize::from(statement)),
            28 => self.lists(statement),
            29 => self.findings.len() >= MOST,
            31 => room < usize::from(self.statements),
            32 => room < REPORT,
            _ => false,
        };
        if holds { Some(0) } else { None }
    }

    // The first refusal, if there is any.
    fn refusal(&self, known: &Known, asked: Asked, room: usize) -> Option<Told> {
        for number in asked.refusals() {
            if let Some(place) = self.place(*number, known, asked, room) {
                return Some(Told::Refused(*number, place));
            }
        }
        None
    }

    fn withdraw(&mut self) -> Told {
        match self.findings.pop() {
            Some(finding) => Told::Withdrawn(finding.statement, finding.present),
            None => Told::Refused(30, 0),
        }
    }

    fn draw(
        &self,
        heap: Global,
        random: &mut Random,
        known: &Known,
        part: &mut Vec<u8>,
    ) -> Result<Told, AllocError> {
        let (reckoning, program) = (known.reckoning, &known.program);
        match drawn(heap, random, reckoning, program, &self.findings)? {
            Some(marks) => {
                write_marks(part, &marks);
                Ok(Told::Settled)
            }
            None => Ok(Told::Clash),
        }
    }

    fn weigh(&self, heap: Global, known: &Known, statement: u16) -> Result<Told, AllocError> {
        let accounts = accounts(heap, known, &self.findings)?;
        let some = accounts.iter().any(|row| row.has(statement));
        let every = accounts.iter().all(|row| row.has(statement));
        Ok(match (some, every) {
            (_, true) if accounts.is_empty() => Told::NoAccount,
            (_, true) => Told::InEvery,
            (true, false) => Told::InSome,
            (false, false) => Told::InNone,
        })
    }

    fn suppose(
        &self,
        heap: Global,
        known: &Known,
        finding: Finding,
        part: &mut Vec<u8>,
    ) -> Result<Told, AllocError> {
        let mut supposed = Vec::new(heap);
        supposed.extend_from_slice(&self.findings)?;
        supposed.push(finding)?;
        seek(heap, known, &supposed, part)
    }

    // What a visit comes to; the ledger and the part are changed as the visit demands.
    pub(crate) fn visit(
        &mut self,
        heap: Global,
        random: &mut Random,
        known: &Known,
        visit: Visit,
        part: &mut Vec<u8>,
    ) -> Result<Told, AllocError> {
        if let Some(refused) = self.refusal(known, Asked::Visit(visit), part.len()) {
            return Ok(refused);
        }
        match visit {
            Visit::Enter(finding) => {
                self.findings.push(finding)?;
                Ok(Told::Entered)
            }
            Visit::Withdraw => Ok(self.withdraw()),
            Visit::Draw => self.draw(heap, random, known, part),
            Visit::Seek => seek(heap, known, &self.findings, part),
            Visit::Weigh(statement) => self.weigh(heap, known, statement),
            Visit::Suppose(finding) => self.suppose(heap, known, finding, part),
        }
    }

    // Why a statement is in the row that bytes stand for: a byte of 1 says that the statement at its place is in.
    pub(crate) fn why(
        &self,
        heap: Global,
        known: &Known,
        statement: u16,
        bytes: &[u8],
    ) -> Result<Told, AllocError> {
        if let Some(refused) = self.refusal(known, Asked::Why(statement), bytes.len()) {
            return Ok(refused);
        }
        if bytes.get(usize::from(statement)).copied() != Some(1) {
            return Ok(Told::NotIn);
        }
        let row = row_of(bytes, known.program.statements());
        let rules = known.program.rules.as_slice();
        let first = first_support(heap, known.reckoning, rules, row, statement)?;
        Ok(match first {
            Some(number) => Told::ByRule(number),
            None => Told::ByNone,
        })
    }

    // What a report comes to.
    pub(crate) fn report(
        &self,
        heap: Global,
        known: &Known,
        part: &mut Vec<u8>,
    ) -> Result<Told, AllocError> {
        if let Some(refused) = self.refusal(known, Asked::Report, part.len()) {
            return Ok(refused);
        }
        let account = first_row(&accounts(heap, known, &self.findings)?);
        let text = report_text(heap, known, account)?;
        write_text(part, text.as_bytes());
        Ok(Told::Reported(text.len()))
    }
}

fn seek(
    heap: Global,
    known: &Known,
    findings: &[Finding],
    part: &mut Vec<u8>,
) -> Result<Told, AllocError> {
    match first_row(&accounts(heap, known, findings)?) {
        Some(row) => {
            write_row(part, known.program.statements(), row);
            Ok(Told::Account(row.count()))
        }
        None => Ok(Told::NoAccount),
    }
}
