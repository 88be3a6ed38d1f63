ghost use Rattle.daybook.specs.Telling.{account_lines, answer_text, asked_text, came_text, entry_text, finding_text, mark_lines, mark_of};
ghost use Rattle.std.specs.Prelude.{◌≡◌, Some};
ghost use Rattle.table.specs.Tables.{contents_of};

use refusal::Fault;
use semantics::{Finding, Mark};
use sheet::{Answer, Drawing, Entry, Visit};
use std::fmt;
use table::table::Table;

// A finding by the name of its statement, as `hood in`.
#[derive(Clone, Copy)]
pub(crate) struct NamedFinding<'a> {
    pub table: Table<'a>,
    pub finding: Finding,
}

impl fmt::Display for NamedFinding<'_> {
    ghost output = { λ f. Some (finding_text (contents_of f.table).names f.finding) };

    fn fmt<W: fmt::Write>(&self, f: &mut fmt::Formatter<W>) -> fmt::Result {
        let name = self.table.name(self.finding.statement);
        let mark = Mark::from(self.finding.present);
        write!(f, "{name} {mark}")
    }
}

// A visit as it is written in a journal.
#[derive(Clone, Copy)]
struct Asked<'a> {
    table: Table<'a>,
    visit: Visit,
}

impl fmt::Display for Asked<'_> {
    ghost output = { λ a. Some (asked_text (contents_of a.table).names a.visit) };

    fn fmt<W: fmt::Write>(&self, f: &mut fmt::Formatter<W>) -> fmt::Result {
        let table = self.table;
        match self.visit {
            Visit::Enter(finding) => write!(f, "enter {}", NamedFinding { table, finding }),
            Visit::Withdraw => f.write_str("withdraw"),
            Visit::Draw => f.write_str("draw"),
            Visit::Seek => f.write_str("seek"),
            Visit::Weigh(statement) => write!(f, "weigh {}", table.name(statement)),
            Visit::Suppose(finding) => write!(f, "suppose {}", NamedFinding { table, finding }),
        }
    }
}

// The mark that a byte of a part stands for.
fn mark_of(byte: u8) -> Mark
    ensures { result ≡ mark_of byte }
{
    match byte {
        1 => Mark::In,
        2 => Mark::Out,
        _ => Mark::Open,
    }
}

// The bytes of a part, one for each statement of the table.
#[derive(Clone, Copy)]
struct Part<'a> {
    table: Table<'a>,
    bytes: &'a [u8],
}

impl Part<'_> {
    ghost use Rattle.daybook.specs.Telling.{mark_at};

    // What a statement is marked; past the end, open.
    fn mark(&self, statement: u16) -> Mark
        ensures { result ≡ mark_at self.now.bytes.now statement }
    {
        let byte = self.bytes.get(usize::from(statement)).copied();
        mark_of(byte.unwrap_or(0))
    }
}

// What each statement is marked, one a line.
#[derive(Clone, Copy)]
struct MarkLines<'a>(Part<'a>);

impl fmt::Display for MarkLines<'_> {
    ghost output = { λ m. Some (mark_lines (contents_of m.0.table).names m.0.bytes.now) };

    fn fmt<W: fmt::Write>(&self, f: &mut fmt::Formatter<W>) -> fmt::Result {
        let marks = self.0;
        for statement in 0..marks.table.statements() {
            let mark = marks.mark(statement);
            let name = marks.table.name(statement);
            writeln!(f, "  {mark} {name}")?;
        }
        Ok(())
    }
}

// The statements that are in, one a line.
#[derive(Clone, Copy)]
struct AccountLines<'a>(Part<'a>);

impl fmt::Display for AccountLines<'_> {
    ghost output = { λ a. Some (account_lines (contents_of a.0.table).names a.0.bytes.now) };

    fn fmt<W: fmt::Write>(&self, f: &mut fmt::Formatter<W>) -> fmt::Result {
        let account = self.0;
        for statement in 0..account.table.statements() {
            if account.mark(statement) != Mark::In {
                continue;
            }
            let name = account.table.name(statement);
            writeln!(f, "  in {name}")?;
        }
        Ok(())
    }
}

// What a visit is answered where it is not refused.
#[derive(Clone, Copy)]
struct Answered<'a> {
    part: Part<'a>,
    answer: Answer,
}

impl fmt::Display for Answered<'_> {
    ghost output = { λ a. Some (answer_text (contents_of a.part.table).names a.part.bytes.now a.answer) };

    fn fmt<W: fmt::Write>(&self, f: &mut fmt::Formatter<W>) -> fmt::Result {
        let part = self.part;
        match self.answer {
            Answer::Entered => f.write_str("entered\n"),
            Answer::Withdrawn(finding) => {
                let table = part.table;
                writeln!(f, "withdrawn {}", NamedFinding { table, finding })
            }
            Answer::Drawn(Drawing::Settled) => write!(f, "settled\n{}", MarkLines(part)),
            Answer::Drawn(Drawing::Clash) => f.write_str("clash\n"),
            Answer::Sought(Some(count)) => write!(f, "account {count}\n{}", AccountLines(part)),
            Answer::Sought(None) => f.write_str("no account\n"),
            Answer::Weighed(weighing) => writeln!(f, "{weighing}"),
        }
    }
}

// What came of a visit.
#[derive(Clone, Copy)]
struct Came<'a> {
    part: Part<'a>,
    answer: Option<Result<Answer, Fault>>,
}

impl fmt::Display for Came<'_> {
    ghost output = { λ c. Some (came_text (contents_of c.part.table).names c.part.bytes.now c.answer) };

    fn fmt<W: fmt::Write>(&self, f: &mut fmt::Formatter<W>) -> fmt::Result {
        let part = self.part;
        match self.answer {
            None => f.write_str("not asked yet\n"),
            Some(Ok(answer)) => write!(f, "{}", Answered { part, answer }),
            Some(Err(fault)) => writeln!(f, "{fault}: {}", fault.refusal),
        }
    }
}

// The entry of a visit: the number of its line, what was asked, and what came of it.
#[derive(Clone, Copy)]
pub(crate) struct Told<'a> {
    pub table: Table<'a>,
    pub number: usize,
    pub entry: &'a Entry,
}

impl fmt::Display for Told<'_> {
    ghost output = { λ t. Some (entry_text (contents_of t.table).names t.number t.entry.now) };

    fn fmt<W: fmt::Write>(&self, f: &mut fmt::Formatter<W>) -> fmt::Result {
        let (table, number) = (self.table, self.number);
        let asked = Asked {
            table,
            visit: self.entry.visit,
        };
        let came = Came {
            part: Part {
                table,
                bytes: &self.entry.part,
            },
            answer: self.entry.answer,
        };
        write!(f, "{number}. {asked}: {came}")
    }
}
