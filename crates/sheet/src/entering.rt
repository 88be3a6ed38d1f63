ghost use Rattle.sheet.specs.Ledger.{after, entering_faults};
ghost use Rattle.sheet.specs.Outcomes.{Enters, Withdraws};
ghost use Rattle.sheet.specs.Sheets.{standing};
ghost use Rattle.sheet.specs.declared.visits.Visit.TheVariants.{Enter, Withdraw};
ghost use Rattle.format.specs.Faults.{verdict};
ghost use Rattle.std.specs.Prelude.{◌≡◌, ◌<◌, IsOk};

use super::findings::MOST;
use super::sheet::Sheet;
use format::fault::demand;
use refusal::{Fault, Refusal};
use semantics::Finding;

impl Sheet {
    // Refuses a finding of a statement that can't be entered.
    pub(crate) fn check_entry(&self, statement: u16) -> Result<(), Fault>
        ensures verdict { result ≡ verdict (entering_faults self.now.statements (standing self.now) statement) tt }
        ensures room { IsOk result → self.now.findings.count < 64 }
    {
        let known = statement < self.statements;
        demand(known, Refusal::UnknownStatement, usize::from(statement))?;
        let free = !self.findings.lists(statement);
        demand(free, Refusal::FindingStands, 0)?;
        demand(self.findings.all().len() < MOST, Refusal::SheetFull, 0)
    }

    // Adds a finding to the end of those that stand, unless it is refused.
    pub(crate) fn note(&mut self, finding: Finding) -> Result<(), Fault>
        ensures outcome { Enters self.old.statements (standing self.old) finding.statement result }
        ensures standing { standing self.new ≡ after self.old.statements (Enter finding) (standing self.old) }
        ensures statements { self.new.statements ≡ self.old.statements }
    {
        self.check_entry(finding.statement)?;
        self.findings.push(finding);
        Ok(())
    }

    // Takes the latest finding off and gives it back, unless there is none.
    pub(crate) fn take_last(&mut self) -> Result<Finding, Fault>
        ensures outcome { Withdraws (standing self.old) result }
        ensures standing { standing self.new ≡ after self.old.statements Withdraw (standing self.old) }
        ensures statements { self.new.statements ≡ self.old.statements }
    {
        demand(!self.findings().is_empty(), Refusal::NoFinding, 0)?;
        Ok(self.findings.pop())
    }
}
