ghost use Rattle.notation.specs.Marks.{marks_text};
ghost use Rattle.std.specs.Prelude.{◌≡◌, IfOk, Some, string_bytes};
ghost use Rattle.table.specs.Tables.{contents_of};

use marking::Marking;
use std::alloc::{AllocError, Global};
use std::fmt;
use table::table::Table;

// A table's statements with what a marking says of them, one a line.
#[derive(Clone, Copy)]
struct Marks<'a> {
    table: Table<'a>,
    marking: &'a Marking,
}

impl fmt::Display for Marks<'_> {
    ghost output = { λ m. Some (marks_text (contents_of m.table).names m.marking.now) };

    fn fmt<W: fmt::Write>(&self, f: &mut fmt::Formatter<W>) -> fmt::Result {
        for statement in 0..self.table.statements() {
            let mark = self.marking.mark(statement);
            let name = self.table.name(statement);
            writeln!(f, "{mark} {name}")?;
        }
        Ok(())
    }
}

// What is known of each statement of the table, one a line. Those that the marking lacks are open.
pub fn marks_text(heap: Global, table: &Table, marking: &Marking) -> Result<String, AllocError>
    ensures { IfOk result (λ s. string_bytes s ≡ marks_text (contents_of table.now).names marking.now) }
{
    let table = *table;
    Marks { table, marking }.to_string(heap)
}
