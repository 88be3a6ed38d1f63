ghost use Rattle.semantics.specs.declared.Finding.{Finding};
ghost use Rattle.sheet.specs.Law.{Law, LawOfAll, answer_of};
ghost use Rattle.sheet.specs.Ledger.{after};
ghost use Rattle.sheet.specs.Outcomes.{DrawOutcome, Enters, FoundTo, SeekOutcome, SupposeOutcome, WeighOutcome, WhyOutcome, Withdraws, why_answer};
ghost use Rattle.sheet.specs.Sheets.{standing};
ghost use Rattle.sheet.specs.declared.visits.Answer.TheVariants.{Drawn, Entered, Sought, Weighed, Withdrawn};
ghost use Rattle.sheet.specs.declared.visits.Visit.TheVariants.{Draw, Enter, Seek, Suppose, Weigh, Withdraw};
ghost use Rattle.solver.specs.declared.support.Support.TheVariants.{ByNone};
ghost use Rattle.std.specs.Prelude.{◌≡◌, ◌≢◌, ℕ, List, Ok, []};
ghost use Rattle.table.specs.Tables.{program_of};

use super::sheet::Sheet;
use super::visits::Drawing;
use family::Family;
use refusal::Fault;
use semantics::Finding;
use solver::{Support, Weighing};
use table::table::Table;

// The calls on an open sheet. Each but `why`, which asks of a row and not of findings, promises what it comes to where
// these findings stand, and the law: whatever visits led to them, it comes to what the ledger of those visits demands,
// and leaves the ledger with this visit.
impl Sheet {
    // Enters a finding behind those that stand.
    pub fn enter(&mut self, finding: Finding) -> Result<(), Fault>
        ensures outcome { Enters self.old.statements (standing self.old) finding.statement result }
        ensures standing { standing self.new ≡ after self.old.statements (Enter finding) (standing self.old) }
        ensures statements { self.new.statements ≡ self.old.statements }
        ensures law { LawOfAll self.old.statements (standing self.old) (standing self.new) (Enter finding)
            (answer_of (λ _. Entered) result) }
    {
        self.note(finding)
    }

    // Withdraws the latest finding and gives it back.
    pub fn withdraw(&mut self) -> Result<Finding, Fault>
        ensures outcome { Withdraws (standing self.old) result }
        ensures standing { standing self.new ≡ after self.old.statements Withdraw (standing self.old) }
        ensures statements { self.new.statements ≡ self.old.statements }
        ensures law { LawOfAll self.old.statements (standing self.old) (standing self.new) Withdraw
            (answer_of Withdrawn result) }
    {
        self.take_last()
    }

    // Draws what the standing findings force under a table and a family: a byte for each statement is written to the
    // part, 0 where it is open, 1 where it is in, 2 where it is out; or there is a clash.
    pub fn draw<F: Family>(
        &self,
        table: &Table,
        family: &F,
        part: &mut [u8],
    ) -> Result<Drawing, Fault>
        ensures outcome { DrawOutcome (F.size family.now) (F.value family.now) table.now.bytes.now
            self.now.statements (standing self.now) part.old part.new result }
        ensures law { Law (F.size family.now) (F.value family.now) table.now.bytes.now self.now.statements
            (standing self.now) (standing self.now) Draw part.old part.new (answer_of Drawn result) }
    {
        self.drawn(table, family, part)
    }

    // Seeks the earliest account of the standing findings: a byte for each statement is written to the part, 1 where it
    // is in, 2 where it is out, and how many are in is given; or there is no account.
    pub fn seek<F: Family>(
        &self,
        table: &Table,
        family: &F,
        part: &mut [u8],
    ) -> Result<Option<u16>, Fault>
        ensures outcome { SeekOutcome (F.size family.now) (F.value family.now) table.now.bytes.now
            self.now.statements (standing self.now) part.old part.new result }
        ensures law { Law (F.size family.now) (F.value family.now) table.now.bytes.now self.now.statements
            (standing self.now) (standing self.now) Seek part.old part.new (answer_of Sought result) }
    {
        self.sought(table, family, part)
    }

    // Weighs a statement: whether it is in every account of the standing findings, in none, or in some only.
    pub fn weigh<F: Family>(
        &self,
        table: &Table,
        family: &F,
        statement: u16,
    ) -> Result<Weighing, Fault>
        ensures outcome { WeighOutcome (F.size family.now) (F.value family.now) table.now.bytes.now
            self.now.statements (standing self.now) statement result }
        ensures law { Law (F.size family.now) (F.value family.now) table.now.bytes.now self.now.statements
            (standing self.now) (standing self.now) (Weigh statement) [] [] (answer_of Weighed result) }
    {
        self.weighed(table, family, statement)
    }

    // Tells on what a statement of a row stands: on the first rule of the table that supports it, on none, or that it
    // is not in. A row has a byte for each statement, as seeking writes them: 1 where it is in; where it is any other,
    // it is not. It is the same whatever stands on the sheet. In an account that seeking wrote, whatever is in stands
    // on a rule.
    pub fn why<F: Family>(
        &self,
        table: &Table,
        family: &F,
        statement: u16,
        row: &[u8],
    ) -> Result<Support, Fault>
        ensures outcome { WhyOutcome (F.size family.now) (F.value family.now) table.now.bytes.now
            self.now.statements statement row.now result }
        ensures value { result ≡ why_answer (F.size family.now) (F.value family.now) table.now.bytes.now
            self.now.statements statement row.now }
        ensures account { (fs : List Finding) (part : List ℕ) (many : ℕ)
            → FoundTo (F.value family.now) (program_of table.now) fs part row.now many
            → result ≢ Ok ByNone }
    {
        self.explained(table, family, statement, row)
    }

    // Seeks with one finding more, which no longer stands when this is done.
    pub fn suppose<F: Family>(
        &mut self,
        table: &Table,
        family: &F,
        finding: Finding,
        part: &mut [u8],
    ) -> Result<Option<u16>, Fault>
        ensures outcome { SupposeOutcome (F.size family.now) (F.value family.now) table.now.bytes.now
            self.old.statements (standing self.old) finding part.old part.new result }
        ensures standing { standing self.new ≡ standing self.old }
        ensures statements { self.new.statements ≡ self.old.statements }
        ensures law { Law (F.size family.now) (F.value family.now) table.now.bytes.now self.old.statements
            (standing self.old) (standing self.new) (Suppose finding) part.old part.new (answer_of Sought result) }
    {
        self.supposed(table, family, finding, part)
    }
}
