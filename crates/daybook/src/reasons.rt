ghost use Rattle.daybook.specs.Reasons.{answered_text, rule_line, stands_text, support_text, why_text};
ghost use Rattle.daybook.specs.Rows.{found_seen};
ghost use Rattle.std.specs.Prelude.{◌≡◌, ◌++◌, IfOk, OnOk, string_bytes};
ghost use Rattle.table.specs.Tables.{contents_of};

use family::Family;
use notation::grounds_text;
use refusal::Fault;
use sheet::Sheet;
use solver::{Support, read_row};
use std::alloc::{AllocError, Global};
use table::table::Table;

// An account that was found, by the number of its line and its row.
#[derive(Clone, Copy)]
pub(crate) struct Found<'a> {
    pub line: usize,
    pub row: &'a [u8],
}

// That a statement stands on rule i, with its grounds.
fn rule_text(heap: Global, i: usize, line: usize, grounds: &str) -> Result<String, AllocError>
    ensures { IfOk result (λ s. string_bytes s ≡ rule_line i line grounds.now) }
{
    format!(in heap; "rule {i}, in the account of line {line}\n{grounds}")
}

// What is said of a statement of an account that was found.
fn support_text(
    heap: Global,
    table: &Table,
    found: Found,
    support: Support,
) -> Result<String, AllocError>
    ensures { IfOk result (λ s. string_bytes s
        ≡ support_text (contents_of table.now).names (contents_of table.now).rules
        found.entry.line found.entry.row.now support) }
{
    let line = found.line;
    match support {
        Support::ByRule(i) => {
            let grounds = grounds_text(heap, table, i, &read_row(table, found.row))?;
            rule_text(heap, i, line, grounds.as_str())
        }
        Support::ByNone => format!(in heap; "no rule, in the account of line {line}\n"),
        Support::NotIn => format!(in heap; "not in the account of line {line}\n"),
    }
}

// What is said of it, or why the call was refused.
fn answered_text(
    heap: Global,
    table: &Table,
    found: Found,
    answer: Result<Support, Fault>,
) -> Result<String, AllocError>
    ensures { IfOk result (λ s. string_bytes s
        ≡ answered_text (contents_of table.now).names (contents_of table.now).rules
        found.entry.line found.entry.row.now answer) }
{
    match answer {
        Ok(support) => support_text(heap, table, found, support),
        Err(fault) => {
            let refusal = fault.refusal;
            format!(in heap; "{fault}: {refusal}\n")
        }
    }
}

// What a day is told with: the table and the family that its visits asked, and the sheet on which they were made.
#[derive(Drop)]
pub(crate) struct Setting<'a, F> {
    pub table: &'a Table<'a>,
    pub family: &'a F,
    pub sheet: &'a Sheet,
}

impl<F: Family> Setting<'_, F> {
    // On what a statement stands in an account that was found, or that none was.
    fn stands_text(
        &self,
        heap: Global,
        statement: u16,
        found: Option<Found>,
    ) -> Result<String, AllocError>
        ensures { IfOk result (λ s. string_bytes s
            ≡ stands_text (F.size self.now.family.now) (F.value self.now.family.now) self.now.table.now.bytes.now
            self.now.sheet.now.statements statement (found_seen found.entry)) }
    {
        let Some(found) = found else {
            return String::from_str(heap, "no account to ask of\n");
        };
        let answer = self
            .sheet
            .why(self.table, self.family, statement, found.row);
        answered_text(heap, self.table, found, answer)
    }

    // Adds a line that asks on what a statement stands, as it is printed.
    pub(crate) fn push_why(
        &self,
        heap: Global,
        text: &mut String,
        number: usize,
        statement: u16,
        found: Option<Found>,
    ) -> Result<(), AllocError>
        ensures { OnOk result (string_bytes text.new ≡ string_bytes text.old
            ++ why_text (F.size self.now.family.now) (F.value self.now.family.now) self.now.table.now.bytes.now
            self.now.sheet.now.statements number statement (found_seen found.entry)) }
    {
        let stands = self.stands_text(heap, statement, found)?;
        let name = self.table.name(statement);
        write!(text, "{number}. why {name}: {stands}")
    }
}
