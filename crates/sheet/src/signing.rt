ghost use Rattle.format.specs.Faults.{verdict};
ghost use Rattle.semantics.specs.declared.Finding.{Finding};
ghost use Rattle.sheet.specs.Law.{Law, answer_of};
ghost use Rattle.sheet.specs.Outcomes.{DrawOutcome, FoundTo, ReportOutcome, SeekOutcome, WeighOutcome, WhyOutcome, reporting_faults, why_answer};
ghost use Rattle.sheet.specs.Sheets.{standing};
ghost use Rattle.sheet.specs.Theorems.{IsLedger};
ghost use Rattle.sheet.specs.declared.visits.Answer.TheVariants.{Drawn, Sought, Weighed};
ghost use Rattle.sheet.specs.declared.visits.Visit.TheVariants.{Draw, Seek, Weigh};
ghost use Rattle.solver.specs.Accounts.{marks_of};
ghost use Rattle.solver.specs.declared.support.Support.TheVariants.{ByNone};
ghost use Rattle.std.specs.Prelude.{◌≡◌, ◌≢◌, ℕ, List, Ok, []};
ghost use Rattle.table.specs.Tables.{program_of};

use super::sheet::Sheet;
use super::visits::Drawing;
use super::writing::earliest;
use family::Family;
use format::fault::demand;
use lines::write_account;
use marking::Marking;
use refusal::{Fault, Refusal};
use semantics::Finding;
use solver::{Account, Support, Weighing};
use table::table::Table;

// A signed sheet: nothing is entered on it or withdrawn from it any more.
#[derive(Drop)]
pub struct SignedSheet {
    pub(crate) sheet: Sheet,
}

impl Sheet {
    // Spends the open sheet, and gives it signed, with its findings and its number of statements.
    pub fn sign(self) -> SignedSheet
        ensures { result.sheet ≡ self }
    {
        SignedSheet { sheet: self }
    }
}

// The marks of an account, where there is one.
fn marks_of(account: Option<Account>) -> Option<Marking>
    ensures { result ≡ marks_of account }
{
    account.map(|account| account.marks)
}

// A signed sheet may be drawn, sought on and weighed on as an open one, with the same promises, and reported.
impl SignedSheet {
    // The findings that stand, in the order in which they were entered.
    pub fn findings(&self) -> &[Finding]
        ensures value { result.now ≡ standing self.now.sheet }
        ensures ledger { IsLedger self.now.sheet.statements (standing self.now.sheet) }
    {
        self.sheet.findings()
    }

    // How many statements the sheet is for.
    pub fn statements(&self) -> u16
        ensures { result ≡ self.now.sheet.statements }
    {
        self.sheet.statements()
    }

    // Draws what the standing findings force, as on an open sheet.
    pub fn draw<F: Family>(
        &self,
        table: &Table,
        family: &F,
        part: &mut [u8],
    ) -> Result<Drawing, Fault>
        ensures outcome { DrawOutcome (F.size family.now) (F.value family.now) table.now.bytes.now
            self.now.sheet.statements (standing self.now.sheet) part.old part.new result }
        ensures law { Law (F.size family.now) (F.value family.now) table.now.bytes.now self.now.sheet.statements
            (standing self.now.sheet) (standing self.now.sheet) Draw part.old part.new (answer_of Drawn result) }
    {
        self.sheet.draw(table, family, part)
    }

    // Seeks the earliest account of the standing findings, as on an open sheet.
    pub fn seek<F: Family>(
        &self,
        table: &Table,
        family: &F,
        part: &mut [u8],
    ) -> Result<Option<u16>, Fault>
        ensures outcome { SeekOutcome (F.size family.now) (F.value family.now) table.now.bytes.now
            self.now.sheet.statements (standing self.now.sheet) part.old part.new result }
        ensures law { Law (F.size family.now) (F.value family.now) table.now.bytes.now self.now.sheet.statements
            (standing self.now.sheet) (standing self.now.sheet) Seek part.old part.new (answer_of Sought result) }
    {
        self.sheet.seek(table, family, part)
    }

    // Weighs a statement, as on an open sheet.
    pub fn weigh<F: Family>(
        &self,
        table: &Table,
        family: &F,
        statement: u16,
    ) -> Result<Weighing, Fault>
        ensures outcome { WeighOutcome (F.size family.now) (F.value family.now) table.now.bytes.now
            self.now.sheet.statements (standing self.now.sheet) statement result }
        ensures law { Law (F.size family.now) (F.value family.now) table.now.bytes.now self.now.sheet.statements
            (standing self.now.sheet) (standing self.now.sheet) (Weigh statement) [] [] (answer_of Weighed result) }
    {
        self.sheet.weigh(table, family, statement)
    }

    // Tells on what a statement of a row stands, as on an open sheet.
    pub fn why<F: Family>(
        &self,
        table: &Table,
        family: &F,
        statement: u16,
        row: &[u8],
    ) -> Result<Support, Fault>
        ensures outcome { WhyOutcome (F.size family.now) (F.value family.now) table.now.bytes.now
            self.now.sheet.statements statement row.now result }
        ensures value { result ≡ why_answer (F.size family.now) (F.value family.now) table.now.bytes.now
            self.now.sheet.statements statement row.now }
        ensures account { (fs : List Finding) (part : List ℕ) (many : ℕ)
            → FoundTo (F.value family.now) (program_of table.now) fs part row.now many
            → result ≢ Ok ByNone }
    {
        self.sheet.why(table, family, statement, row)
    }

    // Refuses what can't be reported in a part.
    fn check_report<F: Family>(&self, table: &Table, family: &F, out: &[u8]) -> Result<(), Fault>
        ensures { result ≡ verdict (reporting_faults (F.size family.now) table.now.bytes.now
            self.now.sheet.statements out.now) tt }
    {
        self.sheet.check_table(table, family)?;
        demand(out.len() >= lines::MOST, Refusal::ReportTooShort, 0)
    }

    // Seeks the earliest account of the standing findings, writes it as text to the front of a part of at least 4,620
    // bytes, or that there is none, and gives the length of the text.
    pub fn report<F: Family>(
        &self,
        table: &Table,
        family: &F,
        out: &mut [u8],
    ) -> Result<usize, Fault>
        ensures { ReportOutcome (F.size family.now) (F.value family.now) table.now.bytes.now
            self.now.sheet.statements (standing self.now.sheet) out.old out.new result }
    {
        self.check_report(table, family, out)?;
        let account = earliest(table, family, self.findings());
        write_account(table, marks_of(account), out)
    }
}
