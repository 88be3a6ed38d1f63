ghost use Rattle.rulesets.specs.Judging.{program_in, rule_in};
ghost use Rattle.semantics.specs.AnswerSets.{AnswerSet, Supports};
ghost use Rattle.semantics.specs.FullMarkings.{row_of};
ghost use Rattle.semantics.specs.Markings.{at, marked};
ghost use Rattle.semantics.specs.declared.Mark.TheVariants.{In};
ghost use Rattle.solver.specs.Reducts.{Whole};
ghost use Rattle.solver.specs.Support.{OnlyHead, StandsOn, by_first, row_read, support_of, supports};
ghost use Rattle.solver.specs.declared.support.Support.TheVariants.{ByNone};
ghost use Rattle.std.specs.Prelude.{◌≡◌, ◌≢◌, ◌==◌, ◌↔◌, IsTrue, map, position, slice_index};
ghost use Rattle.table.specs.Tables.{nth_rule, program_of};

use super::reducing::{heads_in, is_body_true};
use family::Family;
use marking::Marking;
use rulesets::{Judge, Rulesets};
use semantics::Mark;
use table::table::Table;

// On what a statement of a row stands: on the first rule that supports it, by its number; on none, though it is in; or
// it is not in the row.
#[derive(Clone, Copy, PartialEq, Eq, Debug)]
pub enum Support {
    ByRule(usize),
    ByNone,
    NotIn,
}

// Whether a statement's byte is the one of those that are in.
fn has_one(row: &[u8], statement: u16) -> bool
    ensures { result ≡ (slice_index row.now statement == 1) }
{
    row.get(usize::from(statement)).copied() == Some(1)
}

// The marks of the row that bytes stand for, one a statement of the table: where its byte is 1 it is in, and else it is
// out.
pub fn read_row(table: &Table, bytes: &[u8]) -> Marking
    ensures { result ≡ map marked (row_read (program_of table.now).statements bytes.now) }
{
    let mut row = Marking::all_open(table.statements());
    for statement in 0..table.statements() {
        row.set(statement, Mark::from(has_one(bytes, statement)));
    }
    row
}

// Whether, of the head statements of rule i, a row has this one only, which is in it.
fn is_only_head(rules: &Rulesets, row: &Marking, statement: u16, i: usize) -> bool
    ensures { at row.now statement ≡ In
        → (IsTrue result ↔ OnlyHead (row_of row.now) statement (nth_rule rules.now.table.now i)) }
{
    heads_in(rules, row, i).only() == Some(statement)
}

// Whether rule i supports a statement that is in a row.
fn does_support<F: Family>(judge: &Judge<F>, row: &Marking, statement: u16, i: usize) -> bool
    ensures { Whole (program_in judge.now).statements row.now
        → at row.now statement ≡ In
        → (IsTrue result ↔ Supports (F.value judge.now.family.now) (row_of row.now) statement (rule_in judge.now i)) }
{
    is_only_head(judge.rules, row, statement, i) && is_body_true(judge, row, i)
}

// The first rule that supports a statement that is in a row.
fn first_support<F: Family>(judge: &Judge<F>, row: &Marking, statement: u16) -> Option<usize>
    ensures { Whole (program_in judge.now).statements row.now
        → at row.now statement ≡ In
        → result
        ≡ position (supports (F.value judge.now.family.now) (row_of row.now) statement) (program_in judge.now).rules }
{
    (0..judge.rules.rules()).find(|i| does_support(judge, row, statement, *i))
}

// What is said of a statement that is in, by the first rule that supports it.
fn by_first(first: Option<usize>) -> Support
    ensures { result ≡ by_first first }
{
    match first {
        Some(i) => Support::ByRule(i),
        None => Support::ByNone,
    }
}

// On what a statement stands in the row that bytes stand for, one a statement of the table: where its byte is 1 it is
// in, and else it is not. In an answer set, whatever is in stands on a rule.
pub fn find_support<F: Family>(table: &Table, family: &F, bytes: &[u8], statement: u16) -> Support
    ensures value { result ≡ support_of (F.value family.now) (program_of table.now)
        (row_read (program_of table.now).statements bytes.now) statement }
    ensures stands { StandsOn (F.value family.now) (program_of table.now)
        (row_read (program_of table.now).statements bytes.now) statement result }
    ensures answer_set { AnswerSet (F.value family.now) (program_of table.now)
        (row_read (program_of table.now).statements bytes.now) → result ≢ ByNone }
{
    let row = read_row(table, bytes);
    if row.mark(statement) != Mark::In {
        return Support::NotIn;
    }
    let rules = Rulesets::new(table);
    let judge = Judge {
        rules: &rules,
        family,
    };
    by_first(first_support(&judge, &row, statement))
}
