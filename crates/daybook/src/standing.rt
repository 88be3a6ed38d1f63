ghost use Rattle.daybook.specs.Standing.{further_text, standing_text};
ghost use Rattle.std.specs.Prelude.{◌≡◌, IfOk, Some, string_bytes};
ghost use Rattle.table.specs.Tables.{contents_of};

use super::telling::NamedFinding;
use semantics::Finding;
use std::alloc::{AllocError, Global};
use std::fmt;
use table::table::Table;

// Findings, with a comma before each.
#[derive(Clone, Copy)]
struct Further<'a> {
    table: Table<'a>,
    findings: &'a [Finding],
}

impl fmt::Display for Further<'_> {
    ghost output = { λ s. Some (further_text (contents_of s.table).names s.findings.now) };

    fn fmt<W: fmt::Write>(&self, f: &mut fmt::Formatter<W>) -> fmt::Result {
        let table = self.table;
        for finding in self.findings {
            let finding = *finding;
            write!(f, ", {}", NamedFinding { table, finding })?;
        }
        Ok(())
    }
}

// The findings that stand, in a line.
pub fn standing_text(
    heap: Global,
    table: &Table,
    findings: &[Finding],
) -> Result<String, AllocError>
    ensures { IfOk result (λ s. string_bytes s ≡ standing_text (contents_of table.now).names findings.now) }
{
    let table = *table;
    let Some((first, findings)) = findings.split_first() else {
        return String::from_str(heap, "standing: nothing\n");
    };
    let finding = *first;
    let first = NamedFinding { table, finding };
    let further = Further { table, findings };
    format!(in heap; "standing: {first}{further}\n")
}
