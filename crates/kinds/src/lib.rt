#![tactic(auto)]

ghost use Rattle.format.specs.Faults.{verdict};
ghost use Rattle.kinds.specs.Lacking.{KindsKnown, lacking};
ghost use Rattle.std.specs.Prelude.{◌≡◌, ◌↔◌, IsOk};
ghost use Rattle.table.specs.Tables.{contents_of};

use family::Family;
use format::fault::demand;
use refusal::{Fault, Refusal};
use table::table::Table;

// Refuses the first aggregate of the table whose kind the family lacks, at the place of that kind.
pub fn check_kinds<F: Family>(table: &Table, family: &F) -> Result<(), Fault>
    ensures first { result ≡ verdict (lacking (F.size family.now) table.now.bytes.now) tt }
    ensures known { IsOk result ↔ KindsKnown (F.size family.now) (contents_of table.now).aggregates }
{
    let kinds = family.kinds();
    for j in 0..table.aggregates() {
        let kind = u16::from(table.aggregate(j).kind);
        demand(kind < kinds, Refusal::LackingKind, table.kind_place(j))?;
    }
    Ok(())
}
