ghost use Rattle.format.specs.Faults.{verdict};
ghost use Rattle.sheet.specs.Ledger.{entering_faults, without_last};
ghost use Rattle.sheet.specs.Outcomes.{SupposeOutcome, table_faults};
ghost use Rattle.sheet.specs.Sheets.{standing};
ghost use Rattle.sheet.specs.Standing.{listed};
ghost use Rattle.std.specs.Prelude.{◌≡◌, ◌+◌, ◌<◌, ◌≤◌, [], ◌∷◌, ◌++◌, IsOk};

use super::asking::check_part;
use super::findings::Findings;
use super::sheet::Sheet;
use super::writing::write_earliest;
use family::Family;
use refusal::Fault;
use semantics::Finding;
use table::table::Table;

// One finding more among those of a sheet, for as long as this lives: when it is dropped, the finding is taken off
// again.
struct Supposition<'a> {
    findings: &'a mut Findings,
}

impl<'a> Supposition<'a> {
    fn of(findings: &'a mut Findings, finding: Finding) -> Supposition<'a>
        requires { findings.old.count < 64 }
        ensures same_reference { result.findings.ghost_name ≡ findings.entry.ghost_name }
        ensures listed { listed result.findings.now ≡ listed findings.old ++ finding ∷ [] }
        ensures count { result.findings.now.count ≡ findings.old.count + 1 }
    {
        findings.push(finding);
        Supposition { findings }
    }
}

impl Drop for Supposition<'_> {
    fn drop(self)
        requires some { 0 < self.findings.now.count }
        requires few { self.findings.now.count ≤ 64 }
        ensures listed { listed self.exit.0.now ≡ without_last (listed self.entry.findings.now) }
        ensures count { self.exit.0.now.count + 1 ≡ self.entry.findings.now.count }
    {
        self.findings.pop();
        let Supposition { findings: _ } = self;
    }
}

impl Sheet {
    // Refuses what can't be supposed, whatever the part is.
    fn check_supposing<F: Family>(
        &self,
        table: &Table,
        family: &F,
        statement: u16,
    ) -> Result<(), Fault>
        ensures verdict { result ≡ verdict (table_faults (F.size family.now) table.now.bytes.now
            self.now.statements ++ entering_faults self.now.statements (standing self.now) statement) tt }
        ensures room { IsOk result → self.now.findings.count < 64 }
    {
        self.check_table(table, family)?;
        self.check_entry(statement)
    }

    // Seeks the earliest account of the standing findings and one more, and writes it, unless it is refused. That
    // finding is taken off again on every way out.
    pub(crate) fn supposed<F: Family>(
        &mut self,
        table: &Table,
        family: &F,
        finding: Finding,
        part: &mut [u8],
    ) -> Result<Option<u16>, Fault>
        ensures outcome { SupposeOutcome (F.size family.now) (F.value family.now) table.now.bytes.now
            self.old.statements (standing self.old) finding part.old part.new result }
        ensures standing { standing self.new ≡ standing self.old }
        ensures statements { self.new.statements ≡ self.old.statements }
    {
        self.check_supposing(table, family, finding.statement)?;
        let statements = self.statements;
        let supposition = Supposition::of(&mut self.findings, finding);
        check_part(statements, part)?;
        Ok(write_earliest(table, family, supposition.findings.all(), part))
    }
}
