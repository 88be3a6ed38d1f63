ghost use Rattle.notation.specs.Accounts.{account_text, in_text};
ghost use Rattle.std.specs.Prelude.{◌≡◌, IfOk, Some, string_bytes};
ghost use Rattle.table.specs.Tables.{contents_of};

use marking::Marking;
use semantics::Mark;
use std::alloc::{AllocError, Global};
use std::fmt;
use table::table::Table;

// The statements of a table that are in, one a line.
#[derive(Clone, Copy)]
struct InLines<'a> {
    table: Table<'a>,
    marks: &'a Marking,
}

impl fmt::Display for InLines<'_> {
    ghost output = { λ a. Some (in_text (contents_of a.table).names a.marks.now) };

    fn fmt<W: fmt::Write>(&self, f: &mut fmt::Formatter<W>) -> fmt::Result {
        for statement in 0..self.table.statements() {
            if self.marks.mark(statement) != Mark::In {
                continue;
            }
            let name = self.table.name(statement);
            writeln!(f, "in {name}")?;
        }
        Ok(())
    }
}

// The account of a table that these marks are: how many statements are in, and which; or that there is none.
pub fn account_text(
    heap: Global,
    table: &Table,
    marks: Option<Marking>,
) -> Result<String, AllocError>
    ensures { IfOk result (λ s. string_bytes s ≡ account_text (contents_of table.now).names marks) }
{
    let Some(marks) = marks else {
        return String::from_str(heap, "none\n");
    };
    let present = marks.in_count();
    let lines = InLines {
        table: *table,
        marks: &marks,
    };
    format!(in heap; "account {present}\n{lines}")
}
