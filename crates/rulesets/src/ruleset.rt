ghost use Rattle.rulesets.specs.Rulesets.{IsMembers, IsSet, IsSetOfAll, SetsOf};
ghost use Rattle.semantics.specs.Programs.{Aggregate};
ghost use Rattle.semantics.specs.declared.Member.{Member};
ghost use Rattle.std.specs.Prelude.{ℕ, List};
ghost use Rattle.table.specs.Tables.{contents_of, nth_rule};
ghost use Rattle.table.specs.Contents.{Contents};
ghost use Rattle.table.specs.View.{Covers, no_rule};

use marking::Set;
use table::table::{Run, Table};

// A rule as sets of statements: its head, the positive and the negative statements of its body, the members of all its
// aggregates; and the places of these.
#[derive(Clone, Copy)]
pub struct Ruleset {
    pub head: Set,
    pub positive: Set,
    pub negative: Set,
    pub members: Set,
    pub aggregates: Run,
}

// The statements of a run of literals.
fn literal_set(table: &Table, run: Run) -> Set
    ensures { (qs : List ℕ)
        → Covers (contents_of table.now).literals qs run
        → IsSet result qs }
{
    let mut set = Set::none();
    for k in (run.first..run.end).rev() {
        set = set.with(table.literal(k));
    }
    set
}

// The statements of a run of members, and those before.
fn with_members(table: &Table, run: Run, before: Set) -> Set
    ensures { (ms : List Member)
        → Covers (contents_of table.now).members ms run
        → IsMembers result before ms }
{
    let mut set = before;
    for k in (run.first..run.end).rev() {
        set = set.with(table.member(k).statement);
    }
    set
}

// The statements of the members of several aggregates.
fn member_set(table: &Table, run: Run) -> Set
    ensures { (gs : List Aggregate)
        → Covers (contents_of table.now).aggregates gs run
        → IsSetOfAll result gs }
{
    let mut set = Set::none();
    for j in (run.first..run.end).rev() {
        set = with_members(table, table.aggregate(j).members, set);
    }
    set
}

impl Ruleset {
    // A rule with nothing in it.
    pub(crate) fn none() -> Ruleset
        ensures { (c : Contents) → SetsOf c no_rule result }
    {
        Ruleset {
            head: Set::none(),
            positive: Set::none(),
            negative: Set::none(),
            members: Set::none(),
            aggregates: Run { first: 0, end: 0 },
        }
    }

    // Rule i of a table.
    pub(crate) fn read(table: &Table, i: usize) -> Ruleset
        ensures { SetsOf (contents_of table.now) (nth_rule table.now i) result }
    {
        let rule = table.rule(i);
        Ruleset {
            head: literal_set(table, rule.head),
            positive: literal_set(table, rule.positive),
            negative: literal_set(table, rule.negative),
            members: member_set(table, rule.aggregates),
            aggregates: rule.aggregates,
        }
    }
}
