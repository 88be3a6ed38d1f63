ghost use Rattle.notation.specs.Shown.{counts_text, fault_text, rules_text, shown, table_text};
ghost use Rattle.std.specs.Prelude.{◌≡◌, IfOk, Some, string_bytes};
ghost use Rattle.table.specs.Tables.{contents_of};

use super::rules::Rule;
use format::check::Counts;
use refusal::Fault;
use std::alloc::{AllocError, Global};
use std::fmt;
use table::table::Table;

// Why a table is refused, in a line.
#[tactic(auto, using(crate::proofs::Reports::fault_line))]
pub fn fault_text(heap: Global, fault: Fault) -> Result<String, AllocError>
    ensures { IfOk result (λ s. string_bytes s ≡ fault_text fault) }
{
    format!(in heap; "{fault}\n")
}

// How many records the areas have, in a line.
#[derive(Clone, Copy)]
struct CountsLine(Counts);

impl fmt::Display for CountsLine {
    ghost output = { λ c. Some (counts_text c.0) };

    fn fmt<W: fmt::Write>(&self, f: &mut fmt::Formatter<W>) -> fmt::Result {
        let Counts {
            statements,
            rules,
            literals,
            aggregates,
            members,
            names,
        } = self.0;
        writeln!(
            f,
            "statements {statements}, rules {rules}, literals {literals}, aggregates {aggregates}, members {members}, name bytes {names}"
        )
    }
}

// The rules of a table, one a line.
#[derive(Clone, Copy)]
struct Rules<'a>(Table<'a>);

impl fmt::Display for Rules<'_> {
    ghost output = { λ r. Some (rules_text (contents_of r.0).names (contents_of r.0).rules) };

    fn fmt<W: fmt::Write>(&self, f: &mut fmt::Formatter<W>) -> fmt::Result {
        for i in 0..self.0.rules() {
            let rule = Rule { table: self.0, i };
            writeln!(f, "{rule}")?;
        }
        Ok(())
    }
}

// The counts of a table and its rules.
fn table_text(heap: Global, table: Table, counts: Counts) -> Result<String, AllocError>
    ensures { IfOk result (λ s. string_bytes s ≡ table_text table.entry.bytes.now counts) }
{
    let counts = CountsLine(counts);
    let rules = Rules(table);
    format!(in heap; "{counts}{rules}")
}

// A table as people read it: why its bytes are refused, or their counts and rules.
#[tactic(auto, using(crate::proofs::Reports::fault_shown))]
pub fn shown(heap: Global, table: &Table) -> Result<String, AllocError>
    ensures { IfOk result (λ s. string_bytes s ≡ shown table.now.bytes.now) }
{
    match table.counts() {
        Ok(counts) => table_text(heap, *table, counts),
        Err(fault) => fault_text(heap, fault),
    }
}
