ghost use Rattle.sheet.specs.Ledger.{are_apart};
ghost use Rattle.sheet.specs.Standing.{listed};
ghost use Rattle.std.specs.Prelude.{◌≡◌, ◌≤◌, [], length, true};
ghost use Rattle.table.specs.Tables.{contents_of};

use super::findings::Findings;
use semantics::Finding;
use table::table::Table;

// An open sheet: findings on a piece of work of so many statements, in the order in which they were entered. At most 64
// stand, each of one of the statements, and no two of the same.
#[derive(Drop)]
pub struct Sheet {
    pub(crate) findings: Findings,
    pub(crate) statements: u16,
    ghost few: { findings.count ≤ 64 },
    ghost apart: { are_apart statements (listed findings) ≡ true },
}

impl Sheet {
    ghost use Rattle.sheet.specs.Sheets.{standing};
    ghost use Rattle.sheet.specs.Theorems.{IsLedger};

    // A sheet on which nothing stands, for a table's statements; for none, where the table is not opened.
    pub fn begin(table: &Table) -> Sheet
        ensures standing { standing result ≡ [] }
        ensures statements { result.statements ≡ length (contents_of table.now).names }
    {
        Sheet {
            findings: Findings::none(),
            statements: table.statements(),
        }
    }

    // The findings that stand, in the order in which they were entered. They are always the ledger of some visits, so
    // the law speaks of every sheet.
    pub fn findings(&self) -> &[Finding]
        ensures value { result.now ≡ standing self.now }
        ensures ledger { IsLedger self.now.statements (standing self.now) }
    {
        self.findings.all()
    }

    // How many statements the sheet is for.
    pub fn statements(&self) -> u16
        ensures { result ≡ self.now.statements }
    {
        self.statements
    }
}
