ghost use Rattle.solver.specs.Accounts.{Excluded, Seeks, SomeAccount, Weighs, some_has, some_lacks};
ghost use Rattle.std.specs.Prelude.{◌≡◌, ◌↔◌, IsTrue};
ghost use Rattle.table.specs.Tables.{program_of};

use super::account::Account;
use super::seeking::Seeker;
use super::weighing::Weighing;
use drawing::draw_from;
use family::Family;
use marking::Marking;
use narrowing::Mentions;
use rulesets::Rulesets;
use search::Effort;
use semantics::Mark;
use table::table::Table;

// The answer sets of a table under a family, and how much was searched for them: for the accounts, and for smaller parts
// in the tests of rows.
#[derive(Drop)]
pub struct Accounts<'a, F> {
    table: &'a Table<'a>,
    family: &'a F,
    pub seeking: Effort,
    pub testing: Effort,
}

// Whether no row that extends a marking has a statement (true), or lacks it (false), by its mark; past the last statement
// every row lacks it.
fn is_excluded(marking: &Marking, statement: u16, present: bool) -> bool
    ensures { IsTrue result ↔ Excluded marking.now statement present }
{
    if statement < marking.statements() {
        marking.mark(statement) == Mark::from(!present)
    } else {
        present
    }
}

// What is told of a statement, where some account has it or none has, and some account lacks it or none does.
fn told(has: bool, lacks: bool) -> Weighing
    ensures { (has ≡ some_has result) × (lacks ≡ some_lacks result) }
{
    match (has, lacks) {
        (true, true) => Weighing::InSome,
        (true, false) => Weighing::InEvery,
        (false, true) => Weighing::InNone,
        (false, false) => Weighing::NoAccount,
    }
}

impl<'a, F: Family> Accounts<'a, F> {
    // No search has been counted yet.
    pub fn new(table: &'a Table<'a>, family: &'a F) -> Accounts<'a, F>
        ensures table { result.table.now ≡ table.now }
        ensures family { result.family.now ≡ family.now }
    {
        Accounts {
            table,
            family,
            seeking: Effort::default(),
            testing: Effort::default(),
        }
    }

    // The earliest account that extends a marking, or none, and then there is no such account.
    pub fn earliest(&self, start: Marking) -> Option<Account>
        ensures { Seeks (F.value self.now.family.now) (program_of self.now.table.now) start result }
    {
        let rules = Rulesets::new(self.table);
        let mentions = Mentions::new(&rules);
        let seeker = Seeker::new(&rules, &mentions, self.family, &self.testing);
        let marks = search::earliest(&seeker, start, &self.seeking)?;
        Some(Account::from(marks))
    }

    // Whether some account that extends a marking has a statement, or lacks it. It searches unless the mark tells.
    fn some_account(&self, marking: Marking, statement: u16, present: bool) -> bool
        ensures { IsTrue result ↔ SomeAccount (F.value self.now.family.now) (program_of self.now.table.now) marking statement present }
    {
        if is_excluded(&marking, statement, present) {
            return false;
        }
        self.earliest(marking.with(statement, Mark::from(present)))
            .is_some()
    }

    // What is told of a statement over the accounts that extend a marking: at most two searches, and one where drawing
    // settles the statement.
    pub fn weigh(&self, start: Marking, statement: u16) -> Weighing
        ensures { Weighs (F.value self.now.family.now) (program_of self.now.table.now) start statement result }
    {
        let Some(drawn) = draw_from(self.table, self.family, start) else {
            return Weighing::NoAccount;
        };
        let has = self.some_account(drawn, statement, true);
        let lacks = self.some_account(drawn, statement, false);
        told(has, lacks)
    }
}
