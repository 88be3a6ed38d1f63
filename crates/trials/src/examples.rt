// Holds the published examples against the engine and against the plain reading: what each gives is exactly the
// published answer sets. The engine's are found by walking: statement by statement, findings are entered both ways, and
// those that leave an account are followed.
use super::known::Known;
use super::model::Program;
use super::parser::{find_name, read_rule};
use super::published::Example;
use super::rows::{Row, first_row};
use super::told::Told;
use super::values::Reckoning;
use super::writer::table_bytes;
use bench::Bench;
use family::Family;
use house::House;
use notation::rule_text;
use semantics::Finding;
use sheet::Sheet;
use std::alloc::{AllocError, Global};
use std::fmt;
use table::table::Table;

fn names(heap: Global, words: &str) -> anyhow::Result<Vec<String>> {
    let mut names = Vec::new(heap);
    for word in words.split_whitespace() {
        names.push(String::from_str(heap, word)?)?;
    }
    Ok(names)
}

fn program(heap: Global, example: &Example) -> anyhow::Result<Program> {
    let names = names(heap, example.statements)?;
    let mut rules = Vec::new(heap);
    for line in example.rules.trim().lines() {
        rules.push(read_rule(heap, &names, line.trim())?)?;
    }
    let core = u16::try_from(names.len())?;
    Ok(Program { core, names, rules })
}

// The set of the names between braces.
fn read_row(names: &[String], text: &str) -> anyhow::Result<Row> {
    let mut row = Row::EMPTY;
    for word in text.split_whitespace() {
        let word = word.strip_prefix('{').unwrap_or(word);
        let word = word.strip_suffix(',').unwrap_or(word);
        if !word.is_empty() {
            row = row.with(find_name(names, word)?);
        }
    }
    Ok(row)
}

fn published_rows(heap: Global, names: &[String], text: &str) -> anyhow::Result<Vec<Row>> {
    let mut rows = Vec::new(heap);
    for part in text.trim().split('}') {
        if part.contains('{') {
            rows.push(read_row(names, part)?)?;
        }
    }
    Ok(rows)
}

// Whether both are the same sets, in whatever order.
fn are_same(rows: &[Row], others: &[Row]) -> bool {
    let all = rows.iter().all(|row| others.contains(row));
    all && rows.len() == others.len()
}

// Whether the engine shows the table's rules as the lines of the example.
fn shows_lines(heap: Global, table: &Table, example: &Example) -> anyhow::Result<bool> {
    for (number, line) in example.rules.trim().lines().enumerate() {
        let text = rule_text(heap, table, number)?;
        if text.as_str().trim() != line.trim() {
            return Ok(false);
        }
    }
    Ok(true)
}

// A table with its family, asked through sheets.
#[derive(Drop)]
struct Engine<'a, F: Family> {
    heap: Global,
    table: Table<'a>,
    family: &'a F,
}

// The finding that a statement is as it is in a row.
fn finding(statement: u16, row: Row) -> Finding {
    Finding {
        statement,
        present: row.has(statement),
    }
}

impl<F: Family> Engine<'_, F> {
    // A sheet on which the first statements, so many of them, are found as they are in a row. No entry is refused,
    // since each statement is known and comes once. If one were, too many rows would be followed, and the example
    // would differ.
    fn sheet(&self, statements: u16, row: Row) -> Sheet {
        let mut sheet = Sheet::begin(&self.table);
        for statement in 0..statements {
            let _ = sheet.enter(finding(statement, row));
        }
        sheet
    }

    // What seeking tells where the first statements are found so, and the account.
    fn seek(&self, statements: u16, row: Row) -> Result<(Told, Row), AllocError> {
        let sheet = self.sheet(statements, row);
        let mut part = vec![in self.heap; 0u8; usize::from(self.table.statements())]?;
        let told = match sheet.seek(&self.table, self.family, &mut part) {
            Ok(sought) => Told::of_sought(sought),
            Err(fault) => Told::of_fault(fault),
        };
        let mut account = Row::EMPTY;
        for statement in 0..self.table.statements() {
            if part.get(usize::from(statement)).copied() == Some(1) {
                account = account.with(statement);
            }
        }
        Ok((told, account))
    }

    fn has_account(&self, statements: u16, row: Row) -> Result<bool, AllocError> {
        Ok(matches!(self.seek(statements, row)?.0, Told::Account(_)))
    }

    // Adds a row, if it leaves an account where the statements up to this one are found so.
    fn follow(&self, row: Row, statement: u16, rows: &mut Vec<Row>) -> Result<(), AllocError> {
        if self.has_account(statement.saturating_add(1), row)? {
            rows.push(row)?;
        }
        Ok(())
    }

    // Of the rows that leave an account where the statements before this one are found so, the longer ones.
    fn followed(&self, rows: &[Row], statement: u16) -> Result<Vec<Row>, AllocError> {
        let mut followed = Vec::new(self.heap);
        for row in rows {
            self.follow(row.with(statement), statement, &mut followed)?;
            self.follow(*row, statement, &mut followed)?;
        }
        Ok(followed)
    }

    // All accounts.
    fn walk(&self) -> Result<Vec<Row>, AllocError> {
        let mut rows = Vec::new(self.heap);
        if self.has_account(0, Row::EMPTY)? {
            rows.push(Row::EMPTY)?;
        }
        for statement in 0..self.table.statements() {
            rows = self.followed(&rows, statement)?;
        }
        Ok(rows)
    }

    // Whether seeking with nothing found gives the first of the published rows.
    fn is_earliest(&self, rows: &[Row]) -> Result<bool, AllocError> {
        let (told, account) = self.seek(0, Row::EMPTY)?;
        Ok(match first_row(rows) {
            Some(row) => told == Told::Account(row.count()) && account == row,
            None => told == Told::NoAccount,
        })
    }

    // Whether weighing any statement tells what the published rows say of it.
    fn weighs(&self, rows: &[Row]) -> bool {
        let sheet = Sheet::begin(&self.table);
        for statement in 0..self.table.statements() {
            let told = match sheet.weigh(&self.table, self.family, statement) {
                Ok(weighing) => Told::of_weighing(weighing),
                Err(fault) => Told::of_fault(fault),
            };
            if told != weighed(rows, statement) {
                return false;
            }
        }
        true
    }

    // Whether all that is asked of the engine agrees with the published rows.
    fn agrees(&self, rows: &[Row]) -> Result<bool, AllocError> {
        Ok(self.is_earliest(rows)? && self.weighs(rows) && are_same(&self.walk()?, rows))
    }
}

// What these rows say of a statement.
fn weighed(rows: &[Row], statement: u16) -> Told {
    if rows.is_empty() {
        return Told::NoAccount;
    }
    let some = rows.iter().any(|row| row.has(statement));
    let every = rows.iter().all(|row| row.has(statement));
    match (some, every) {
        (_, true) => Told::InEvery,
        (true, false) => Told::InSome,
        (false, false) => Told::InNone,
    }
}

fn engine_agrees<F: Family>(
    heap: Global,
    family: &F,
    bytes: &[u8],
    rows: &[Row],
) -> Result<bool, AllocError> {
    let table = Table::open(bytes);
    let engine = Engine {
        heap,
        table,
        family,
    };
    engine.agrees(rows)
}

// What came of an example: how many answer sets are published, and whether the plain reading has the same, the engine
// has the same, and the table shows the same rules.
#[derive(Clone, Copy)]
pub(crate) struct Finish {
    pub answer_sets: usize,
    pub reading: bool,
    pub engine: bool,
    pub shown: bool,
}

impl Finish {
    pub(crate) fn agrees(self) -> bool {
        self.reading && self.engine && self.shown
    }
}

fn word(agrees: bool) -> &'static str {
    if agrees { "agrees" } else { "differs" }
}

impl fmt::Display for Finish {
    fn fmt<W: fmt::Write>(&self, f: &mut fmt::Formatter<W>) -> fmt::Result {
        if self.agrees() {
            return f.write_str("agreed");
        }
        let (reading, engine) = (word(self.reading), word(self.engine));
        let shown = word(self.shown);
        write!(
            f,
            "DIFFERS: plain reading {reading}, engine {engine}, rules as shown {shown}"
        )
    }
}

pub(crate) fn try_example(heap: Global, example: &Example) -> anyhow::Result<Finish> {
    let program = program(heap, example)?;
    let rows = published_rows(heap, &program.names, example.answer_sets)?;
    let bytes = table_bytes(heap, &program)?;
    let known = Known::opened(heap, example.reckoning, program, bytes)?;
    let table = Table::open(&known.bytes);
    let (engine, shown) = match example.reckoning {
        Reckoning::House => {
            let shown = shows_lines(heap, &table, example)?;
            (engine_agrees(heap, &House, &known.bytes, &rows)?, shown)
        }
        Reckoning::Bench => (engine_agrees(heap, &Bench, &known.bytes, &rows)?, true),
    };
    Ok(Finish {
        answer_sets: rows.len(),
        reading: are_same(&known.answer_sets, &rows),
        engine,
        shown,
    })
}
