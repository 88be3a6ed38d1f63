#![tactic(auto)]

mod theorems;

ghost use Rattle.inspection.specs.Inspection.{Inspected, Said, ShowsAccount, ShowsAnswers, ShowsDrawing, drawing_text};
ghost use Rattle.semantics.specs.Families.{house};
ghost use Rattle.solver.specs.Accounts.{SeeksFor};
ghost use Rattle.std.specs.Prelude.{◌≡◌, [], IfOk, string_bytes};
ghost use Rattle.table.specs.Tables.{contents_of, program_of};

use drawing::draw;
use house::House;
use kinds::check_kinds;
use marking::Marking;
use notation::{account_text, fault_text, marks_text, shown};
use solver::{Account, Accounts};
use std::alloc::{AllocError, Global};
use table::table::Table;

// What was drawn, one statement a line, or that there is a clash.
fn drawing_text(heap: Global, table: &Table, drawing: Option<Marking>) -> Result<String, AllocError>
    ensures { IfOk result (λ s. string_bytes s ≡ drawing_text (contents_of table.now).names drawing) }
{
    match drawing {
        Some(marking) => marks_text(heap, table, &marking),
        None => String::from_str(heap, "clash\n"),
    }
}

// What the rules force by themselves under the house family: the drawing from no findings.
fn forced_text(heap: Global, table: &Table) -> Result<String, AllocError>
    ensures { IfOk result (λ s. ShowsDrawing table.now.bytes.now (string_bytes s)) }
{
    drawing_text(heap, table, draw(table, &House, &[]))
}

// The earliest account under the house family with no findings.
fn earliest(table: &Table) -> Option<Account>
    ensures { SeeksFor house (program_of table.now) [] result }
{
    Accounts::new(table, &House).earliest(Marking::noted(table.statements(), &[]))
}

// The earliest account, or that there is none.
fn earliest_text(heap: Global, table: &Table) -> Result<String, AllocError>
    ensures { IfOk result (λ s. ShowsAccount table.now.bytes.now (string_bytes s)) }
{
    account_text(heap, table, earliest(table).map(|account| account.marks))
}

// What the rules force by themselves, and then the earliest account.
fn answers_text(heap: Global, table: &Table) -> Result<String, AllocError>
    ensures { IfOk result (λ s. ShowsAnswers table.now.bytes.now (string_bytes s)) }
{
    let mut out = forced_text(heap, table)?;
    let account = earliest_text(heap, table)?;
    out.push_str(account.as_str())?;
    Ok(out)
}

// What there is to say of an opened table after its rules: which kind the house family lacks, or its answers.
fn said_text(heap: Global, table: &Table) -> Result<String, AllocError>
    ensures { IfOk result (λ s. Said table.now.bytes.now (string_bytes s)) }
{
    match check_kinds(table, &House) {
        Ok(()) => answers_text(heap, table),
        Err(fault) => fault_text(heap, fault),
    }
}

// The bytes of a table as people read them; after its rules, what they force by themselves and the earliest account.
pub fn inspected(heap: Global, bytes: &[u8]) -> Result<String, AllocError>
    ensures { IfOk result (λ s. Inspected bytes.now (string_bytes s)) }
{
    let table = Table::open(bytes);
    let mut out = shown(heap, &table)?;
    if table.is_opened() {
        let said = said_text(heap, &table)?;
        out.push_str(said.as_str())?;
    }
    Ok(out)
}
