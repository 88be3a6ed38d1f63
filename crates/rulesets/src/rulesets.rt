ghost use Rattle.rulesets.specs.Reading.{AggregatesRead, MembersRead, RulesRead};
ghost use Rattle.std.specs.Prelude.{◌≡◌, ◌<◌, length, slice_index_or};

use super::ruleset::Ruleset;
use marking::Set;
use semantics::{Member, Relation};
use table::table::{AggregateView, Run, Table};

const NO_AGGREGATE: AggregateView = AggregateView {
    kind: 0,
    relation: Relation::Less,
    bound: 0,
    members: Run { first: 0, end: 0 },
};

const NO_MEMBER: Member = Member {
    statement: 0,
    weight: 0,
};

// A table that has been read once: its rules as sets, its aggregates and its members. The arrays are of the format's
// limits, since a search allocates nothing.
#[derive(Drop)]
pub struct Rulesets<'a> {
    table: &'a Table<'a>,
    rules: [Ruleset; 1024],
    aggregates: [AggregateView; 1024],
    members: [Member; 2048],
    ghost sets: { RulesRead table.now rules },
    ghost views: { AggregatesRead table.now aggregates },
    ghost weights: { MembersRead table.now members },
}

// The rules of a table.
fn read_rules(table: &Table) -> [Ruleset; 1024]
    ensures { RulesRead table.now result }
{
    let mut rules = [Ruleset::none(); 1024];
    for i in 0..rules.len().min(table.rules()) {
        rules[i] = Ruleset::read(table, i);
    }
    rules
}

// The aggregates of a table.
fn read_aggregates(table: &Table) -> [AggregateView; 1024]
    ensures { AggregatesRead table.now result }
{
    let mut aggregates = [NO_AGGREGATE; 1024];
    for j in 0..aggregates.len().min(table.aggregates()) {
        aggregates[j] = table.aggregate(j);
    }
    aggregates
}

// The members of a table.
fn read_members(table: &Table) -> [Member; 2048]
    ensures { MembersRead table.now result }
{
    let mut members = [NO_MEMBER; 2048];
    for k in 0..members.len() {
        members[k] = table.member(k);
    }
    members
}

impl<'a> Rulesets<'a> {
    ghost use Rattle.rulesets.specs.Rulesets.{IsSet, SetsOf};
    ghost use Rattle.table.specs.Limits.{MemberLimits};
    ghost use Rattle.table.specs.Tables.{contents_of, nth_aggregate, nth_rule, rules_of};
    ghost use Rattle.table.specs.View.{ShowsAggregate, no_member};

    // Reads a table.
    pub fn new(table: &'a Table<'a>) -> Rulesets<'a>
        ensures { result.table.now ≡ table.now }
    {
        Rulesets {
            table,
            rules: read_rules(table),
            aggregates: read_aggregates(table),
            members: read_members(table),
        }
    }

    // How many statements there are.
    pub fn statements(&self) -> u16
        ensures { result ≡ length (contents_of self.now.table.now).names }
    {
        self.table.statements()
    }

    // How many rules there are.
    pub fn rules(&self) -> usize
        ensures { result ≡ length (rules_of self.now.table.now) }
    {
        self.table.rules()
    }

    // Rule i; past the last one, a rule with nothing in it.
    pub fn rule(&self, i: usize) -> Ruleset
        ensures { SetsOf (contents_of self.now.table.now) (nth_rule self.now.table.now i) result }
    {
        if i < self.rules.len() {
            self.rules[i]
        } else {
            Ruleset::read(self.table, i)
        }
    }

    // The head statements of rule i, for those who go over many rules and need no more of most of them.
    pub fn head(&self, i: usize) -> Set
        ensures { IsSet result (nth_rule self.now.table.now i).head }
    {
        match self.rules.get(i) {
            Some(rule) => rule.head,
            None => Ruleset::read(self.table, i).head,
        }
    }

    // Aggregate j; past the last one, one with nothing in it.
    pub fn aggregate(&self, j: usize) -> AggregateView
        ensures { ShowsAggregate (contents_of self.now.table.now) (nth_aggregate self.now.table.now j) result }
    {
        if j < self.aggregates.len() {
            self.aggregates[j]
        } else {
            self.table.aggregate(j)
        }
    }

    // The member at place k of the members; past the last one, statement 0 with weight 0.
    pub fn member(&self, k: usize) -> Member
        ensures value { result ≡ slice_index_or (contents_of self.now.table.now).members k no_member }
        ensures limits { k < length (contents_of self.now.table.now).members
            → MemberLimits (length (contents_of self.now.table.now).names) result }
    {
        if k < self.members.len() {
            self.members[k]
        } else {
            self.table.member(k)
        }
    }
}
