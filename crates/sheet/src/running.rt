ghost use Rattle.sheet.specs.Law.{Answered};
ghost use Rattle.sheet.specs.Ledger.{after};
ghost use Rattle.sheet.specs.Runs.{Made, Runs};
ghost use Rattle.sheet.specs.Sheets.{standing};
ghost use Rattle.std.specs.Prelude.{◌≡◌};

use super::sheet::Sheet;
use super::visits::{Answer, Entry, Visit};
use family::Family;
use refusal::Fault;
use table::table::Table;

impl Sheet {
    // Makes one visit, whichever it is.
    fn visit<F: Family>(
        &mut self,
        table: &Table,
        family: &F,
        visit: Visit,
        part: &mut [u8],
    ) -> Result<Answer, Fault>
        ensures answered { Answered (F.size family.now) (F.value family.now) table.now.bytes.now
            self.old.statements (standing self.old) visit part.old part.new result }
        ensures standing { standing self.new ≡ after self.old.statements visit (standing self.old) }
        ensures statements { self.new.statements ≡ self.old.statements }
    {
        match visit {
            Visit::Enter(finding) => self.enter(finding).map(|()| Answer::Entered),
            Visit::Withdraw => self.withdraw().map(Answer::Withdrawn),
            Visit::Draw => self.draw(table, family, part).map(Answer::Drawn),
            Visit::Seek => self.seek(table, family, part).map(Answer::Sought),
            Visit::Weigh(statement) => self.weigh(table, family, statement).map(Answer::Weighed),
            Visit::Suppose(finding) => self
                .suppose(table, family, finding, part)
                .map(Answer::Sought),
        }
    }
}

impl Entry {
    // Makes its visit, which may write to the part, and keeps the answer.
    fn make<F: Family>(&mut self, sheet: &mut Sheet, table: &Table, family: &F)
        ensures made { Made (F.size family.now) (F.value family.now) table.now.bytes.now
            sheet.old.statements (standing sheet.old) self.old self.new }
        ensures standing { standing sheet.new ≡ after sheet.old.statements self.old.visit (standing sheet.old) }
        ensures statements { sheet.new.statements ≡ sheet.old.statements }
    {
        let answer = sheet.visit(table, family, self.visit, &mut self.part);
        self.answer = Some(answer);
    }
}

// Makes visits on a sheet that is begun on a table, one after the other, and gives the sheet. Each entry gets its
// answer, and what is written is written to its part.
pub fn run<F: Family>(table: &Table, family: &F, entries: &mut [Entry]) -> Sheet
    ensures law { Runs (F.size family.now) (F.value family.now) table.now.bytes.now entries.old entries.new result }
{
    let mut sheet = Sheet::begin(table);
    for i in 0..entries.len() {
        entries[i].make(&mut sheet, table, family);
    }
    sheet
}
