ghost use Rattle.lines.specs.Reports.{Reports, Written};
ghost use Rattle.notation.specs.Accounts.{account_text, found_text};
ghost use Rattle.std.specs.Prelude.{◌≤◌, codes, length};
ghost use Rattle.table.specs.Tables.{contents_of};

use super::MOST;
use super::parts::{put, put_head, put_line};
use format::fault::demand;
use marking::Marking;
use refusal::{Fault, Refusal};
use table::table::Table;

// Writes how many statements are in, and which.
#[tactic(auto, using(crate::proofs::Room::line_fits))]
fn write_found(table: &Table, marks: &Marking, out: &mut [u8]) -> usize
    requires { 4620 ≤ length out.old }
    ensures { Written (found_text (contents_of table.now).names marks.now) out.old out.new result }
{
    // A marking has at most 128 statements, so that this number has at most three digits.
    prove!(marks.statements() <= 128);
    let mut at = put_head(&mut out[..MOST], marks.in_count());
    for statement in 0..table.statements() {
        let (mark, name) = (marks.mark(statement), table.name(statement));
        at += put_line(&mut out[at..MOST], mark, name);
    }
    at
}

// Writes that there is none.
fn write_none(out: &mut [u8]) -> usize
    requires { 4620 ≤ length out.old }
    ensures { Written (codes "none\n") out.old out.new result }
{
    put(&mut out[..MOST], b"none\n")
}

// Writes the account of a table that these marks are, or that there is none, to the front of a part, a line at a time,
// and gives its length. A part of less than 4,620 bytes is refused, and stays as it was.
pub fn write_account(table: &Table, marks: Option<Marking>, out: &mut [u8]) -> Result<usize, Fault>
    ensures { Reports (account_text (contents_of table.now).names marks) out.old out.new result }
{
    demand(out.len() >= MOST, Refusal::ReportTooShort, 0)?;
    Ok(match marks {
        Some(marks) => write_found(table, &marks, out),
        None => write_none(out),
    })
}
