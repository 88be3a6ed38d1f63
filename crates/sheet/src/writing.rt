ghost use Rattle.drawing.specs.Drawings.{KeepsAccounts};
ghost use Rattle.semantics.specs.Markings.{noted};
ghost use Rattle.semantics.specs.Theorems.{Noted};
ghost use Rattle.sheet.specs.Outcomes.{Draws, Seeks, byte_of, written};
ghost use Rattle.solver.specs.Accounts.{SeeksFor, WeighsFor};
ghost use Rattle.std.specs.Prelude.{◌≡◌, ◌≤◌, length};
ghost use Rattle.table.specs.Tables.{contents_of, program_of};

use super::visits::Drawing;
use drawing::draw;
use family::Family;
use marking::Marking;
use semantics::{Finding, Mark};
use solver::{Account, Accounts, Weighing};
use table::table::Table;

// The byte that is written for a mark.
fn byte_of(mark: Mark) -> u8
    ensures { result ≡ byte_of mark }
{
    match mark {
        Mark::Open => 0,
        Mark::In => 1,
        Mark::Out => 2,
    }
}

// Writes a byte for each statement to the front of a part.
#[tactic(auto, using(crate::proofs::Bytes::begun_more, crate::proofs::Bytes::begun_all))]
fn write_marks(marks: &Marking, part: &mut [u8])
    requires { length marks.now ≤ length part.old }
    ensures { part.new ≡ written marks.now part.old }
{
    for statement in 0..marks.statements() {
        part[usize::from(statement)] = byte_of(marks.mark(statement));
    }
}

// Draws what findings force, and writes it.
pub(crate) fn write_drawing<F: Family>(
    table: &Table,
    family: &F,
    findings: &[Finding],
    part: &mut [u8],
) -> Drawing
    requires { length (contents_of table.now).names ≤ length part.old }
    ensures { Draws (F.value family.now) (program_of table.now) findings.now part.old part.new result }
{
    let Some(marks) = draw(table, family, findings) else {
        return Drawing::Clash;
    };
    write_marks(&marks, part);
    Drawing::Settled
}

// The marking of findings, from which their accounts are sought.
fn start(table: &Table, findings: &[Finding]) -> Marking
    ensures { result ≡ noted (program_of table.now) findings.now }
{
    Marking::noted(table.statements(), findings)
}

// The earliest account of findings.
#[tactic(auto, using(crate::proofs::Sought::earliest_for))]
pub(crate) fn earliest<F: Family>(
    table: &Table,
    family: &F,
    findings: &[Finding],
) -> Option<Account>
    requires { Noted (program_of table.now) findings.now }
    ensures { SeeksFor (F.value family.now) (program_of table.now) findings.now result }
{
    Accounts::new(table, family).earliest(start(table, findings))
}

// Seeks the earliest account of findings, writes it, and gives how many statements are in.
pub(crate) fn write_earliest<F: Family>(
    table: &Table,
    family: &F,
    findings: &[Finding],
    part: &mut [u8],
) -> Option<u16>
    requires noted { Noted (program_of table.now) findings.now }
    requires room { length (contents_of table.now).names ≤ length part.old }
    ensures { Seeks (F.value family.now) (program_of table.now) findings.now part.old part.new result }
{
    let account = earliest(table, family, findings)?;
    write_marks(&account.marks, part);
    Some(account.statements_in)
}

// What is told of a statement over the accounts of findings.
pub(crate) fn weighing<F: Family>(
    table: &Table,
    family: &F,
    findings: &[Finding],
    statement: u16,
) -> Weighing
    requires { Noted (program_of table.now) findings.now }
    ensures { WeighsFor (F.value family.now) (program_of table.now) findings.now statement result }
{
    Accounts::new(table, family).weigh(start(table, findings), statement)
}
