ghost use Rattle.drawing.specs.Drawings.{Draws, DrawsFrom, KeepsAccounts, KeepsAnswers};
ghost use Rattle.semantics.specs.AnswerSets.{AgreesWith};
ghost use Rattle.semantics.specs.Markings.{Agrees, noted};
ghost use Rattle.table.specs.Tables.{program_of};
ghost use Rattle.std.specs.Prelude.{◌≡◌, Bool, List};

use super::sweeping::settle;
use family::Family;
use judging::Rulebook;
use marking::Marking;
use semantics::Finding;
use table::table::Table;

// The marking of the findings, with which every row agrees that agrees with them.
fn start(table: &Table, findings: &[Finding]) -> Marking
    ensures noted { result ≡ noted (program_of table.now) findings.now }
    ensures agreed { (s : List Bool) → AgreesWith findings.now s → Agrees result s }
{
    Marking::noted(table.statements(), findings)
}

// Draws what a marking forces: the settled marking that steps reach from it, or none where they reach none. It loses no
// answer set that agrees with the start.
pub fn draw_from<F: Family>(table: &Table, family: &F, start: Marking) -> Option<Marking>
    ensures drawn { DrawsFrom (F.value family.now) (program_of table.now) start result }
    ensures answers { KeepsAnswers (F.value family.now) (program_of table.now) start result }
{
    settle(&Rulebook { table, family }, start)
}

// Draws what the findings force: the settled marking that steps reach from them, or none where they clash. It marks in
// only what every account has and out only what none has, and where it gives none there is no account.
pub fn draw<F: Family>(table: &Table, family: &F, findings: &[Finding]) -> Option<Marking>
    ensures drawn { Draws (F.value family.now) (program_of table.now) findings.now result }
    ensures accounts { KeepsAccounts (F.value family.now) (program_of table.now) findings.now result }
{
    draw_from(table, family, start(table, findings))
}
