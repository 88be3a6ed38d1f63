ghost use Rattle.format.specs.Faults.{verdict};
ghost use Rattle.sheet.specs.Outcomes.{DrawOutcome, FoundTo, SeekOutcome, WeighOutcome, WhyOutcome, part_faults, table_faults, weighing_faults, why_answer, why_faults, writing_faults};
ghost use Rattle.sheet.specs.Sheets.{standing};
ghost use Rattle.semantics.specs.declared.Finding.{Finding};
ghost use Rattle.solver.specs.declared.support.Support.TheVariants.{ByNone};
ghost use Rattle.std.specs.Prelude.{◌≡◌, ◌≢◌, ℕ, List, Ok};
ghost use Rattle.table.specs.Tables.{program_of};

use super::sheet::Sheet;
use super::visits::Drawing;
use super::writing::{weighing, write_drawing, write_earliest};
use family::Family;
use format::fault::demand;
use kinds::check_kinds;
use refusal::{Fault, Refusal};
use solver::{Support, Weighing, find_support};
use table::table::Table;

// Refuses a part that has not a byte for each statement.
pub(crate) fn check_part(statements: u16, part: &[u8]) -> Result<(), Fault>
    ensures { result ≡ verdict (part_faults statements part.now) tt }
{
    let fits = usize::from(statements) <= part.len();
    demand(fits, Refusal::PartTooShort, 0)
}

// What is asked of a sheet is asked of a table under a family; the sheet and the table stay as they are.
impl Sheet {
    // Refuses a table that is not opened, one with another number of statements than the sheet's, and one of whose
    // kinds the family lacks one.
    pub(crate) fn check_table<F: Family>(&self, table: &Table, family: &F) -> Result<(), Fault>
        ensures { result ≡ verdict (table_faults (F.size family.now) table.now.bytes.now self.now.statements) tt }
    {
        demand(table.is_opened(), Refusal::TableUnopened, 0)?;
        let same = table.statements() == self.statements;
        demand(same, Refusal::StatementsDiffer, 0)?;
        check_kinds(table, family)
    }

    // Refuses what can't be written to a part.
    fn check_writing<F: Family>(&self, table: &Table, family: &F, part: &[u8]) -> Result<(), Fault>
        ensures { result ≡ verdict (writing_faults (F.size family.now) table.now.bytes.now
            self.now.statements part.now) tt }
    {
        self.check_table(table, family)?;
        check_part(self.statements, part)
    }

    // Refuses what can't be told of a statement.
    fn check_weighing<F: Family>(
        &self,
        table: &Table,
        family: &F,
        statement: u16,
    ) -> Result<(), Fault>
        ensures { result ≡ verdict (weighing_faults (F.size family.now) table.now.bytes.now
            self.now.statements statement) tt }
    {
        self.check_table(table, family)?;
        let known = statement < self.statements;
        demand(known, Refusal::UnknownStatement, usize::from(statement))
    }

    // Refuses a statement or a row of which it can't be told on what the statement stands.
    fn check_why<F: Family>(
        &self,
        table: &Table,
        family: &F,
        statement: u16,
        row: &[u8],
    ) -> Result<(), Fault>
        ensures { result ≡ verdict (why_faults (F.size family.now) table.now.bytes.now
            self.now.statements statement row.now) tt }
    {
        self.check_weighing(table, family, statement)?;
        check_part(self.statements, row)
    }

    // Draws what the standing findings force, and writes it, unless it is refused.
    pub(crate) fn drawn<F: Family>(
        &self,
        table: &Table,
        family: &F,
        part: &mut [u8],
    ) -> Result<Drawing, Fault>
        ensures { DrawOutcome (F.size family.now) (F.value family.now) table.now.bytes.now
            self.now.statements (standing self.now) part.old part.new result }
    {
        self.check_writing(table, family, part)?;
        Ok(write_drawing(table, family, self.findings(), part))
    }

    // Seeks the earliest account of the standing findings, and writes it, unless it is refused.
    pub(crate) fn sought<F: Family>(
        &self,
        table: &Table,
        family: &F,
        part: &mut [u8],
    ) -> Result<Option<u16>, Fault>
        ensures { SeekOutcome (F.size family.now) (F.value family.now) table.now.bytes.now
            self.now.statements (standing self.now) part.old part.new result }
    {
        self.check_writing(table, family, part)?;
        Ok(write_earliest(table, family, self.findings(), part))
    }

    // Weighs a statement over the accounts of the standing findings, unless it is refused.
    pub(crate) fn weighed<F: Family>(
        &self,
        table: &Table,
        family: &F,
        statement: u16,
    ) -> Result<Weighing, Fault>
        ensures { WeighOutcome (F.size family.now) (F.value family.now) table.now.bytes.now
            self.now.statements (standing self.now) statement result }
    {
        self.check_weighing(table, family, statement)?;
        Ok(weighing(table, family, self.findings(), statement))
    }

    // Tells on what a statement of a row stands, unless it is refused. Stays a function of its own: its proof is written out,
    // so an edit of the caller's line breaks first at a promise, and not in a proof.
    pub(crate) fn explained<F: Family>(
        &self,
        table: &Table,
        family: &F,
        statement: u16,
        row: &[u8],
    ) -> Result<Support, Fault>
        ensures value { result ≡ why_answer (F.size family.now) (F.value family.now) table.now.bytes.now
            self.now.statements statement row.now }
        ensures outcome { WhyOutcome (F.size family.now) (F.value family.now) table.now.bytes.now
            self.now.statements statement row.now result }
        ensures account { (fs : List Finding) (part : List ℕ) (many : ℕ)
            → FoundTo (F.value family.now) (program_of table.now) fs part row.now many
            → result ≢ Ok ByNone }
    {
        self.check_why(table, family, statement, row)?;
        Ok(find_support(table, family, row, statement))
    }
}
