ghost use Rattle.format.specs.Check.{accepted, counts_of, faults};
ghost use Rattle.format.specs.Faults.{verdict};
ghost use Rattle.layout.specs.Bytes.{byte_at};
ghost use Rattle.std.specs.Prelude.{◌≡◌, ◌<◌, ◌^◌, ℕ, List, true, [], is_ok, length, slice_index, slice_index_or};
ghost use Rattle.table.specs.Limits.{MemberLimits, OnlyBytes, WithinLimits, how_many};
ghost use Rattle.table.specs.View.{ShowsAggregate, ShowsRecord, ShowsRule, aggregate_read, count_held, count_in, kind_place, member_read, name_read, no_member, rule_read, run};

use format::check::{Counts, check};
use layout::area::Area;
use layout::bytes::part;
use layout::records::Record;
use refusal::Fault;
use semantics::{Member, Relation};
use std::str::from_utf8_unchecked;

// The places from first to before end of an area. Stays a struct: the library's ranges are not `Copy`, and views are.
#[derive(Clone, Copy)]
pub struct Run {
    pub first: usize,
    pub end: usize,
}

impl Run {
    // So many places from first on.
    fn new(first: usize, len: u8) -> Run
        requires { first < 2 ^ 32 }
        ensures { result ≡ run first len }
    {
        Run {
            first,
            end: first + usize::from(len),
        }
    }
}

// A rule, by the places of its literals and aggregates.
#[derive(Clone, Copy)]
pub struct RuleView {
    pub head: Run,
    pub positive: Run,
    pub negative: Run,
    pub aggregates: Run,
}

impl From<Record<'_>> for RuleView {
    ghost from_gives = { λ r view. view ≡ rule_read r.bytes.now r.at };

    fn from(record: Record) -> RuleView {
        let head = Run::new(usize::from(record.word(4)), record.byte(0));
        let positive = Run::new(head.end, record.byte(1));
        let negative = Run::new(positive.end, record.byte(2));
        let aggregates = Run::new(usize::from(record.word(6)), record.byte(3));
        RuleView {
            head,
            positive,
            negative,
            aggregates,
        }
    }
}

// An aggregate, its set by the places of its members. Its kind stays a number: every family numbers its own kinds, and a
// table does not know which one will read it.
#[derive(Clone, Copy)]
pub struct AggregateView {
    pub kind: u8,
    pub relation: Relation,
    pub bound: i32,
    pub members: Run,
}

impl From<Record<'_>> for AggregateView {
    ghost from_gives = { λ r view. view ≡ aggregate_read r.bytes.now r.at };

    fn from(record: Record) -> AggregateView {
        AggregateView {
            kind: record.byte(0),
            // The check accepts no code that is not a relation's.
            relation: Relation::try_from(record.byte(1)).unwrap_or(Relation::More),
            bound: record.whole(8),
            members: Run::new(usize::from(record.word(4)), record.byte(2)),
        }
    }
}

// A view of bytes, with what the check says of them. It is opened where they have no fault. The bytes stand beside the
// verdict and not in its Ok, since refused bytes can be asked for too. Contracts name them, so a model, which
// would hide them, is not for this type; nor may one that is Copy and has a lifetime have it.
#[derive(Clone, Copy)]
pub struct Table<'a> {
    bytes: &'a [u8],
    checked: Result<Counts, Fault>,
    ghost judged: { checked ≡ verdict (faults bytes.now) (counts_of bytes.now) },
}

// What stands past the last place. These stay constants and are no Default: a relation has none that would be right,
// and so all four read alike.
const NO_RUN: Run = Run { first: 0, end: 0 };

const NO_RULE: RuleView = RuleView {
    head: NO_RUN,
    positive: NO_RUN,
    negative: NO_RUN,
    aggregates: NO_RUN,
};

const NO_AGGREGATE: AggregateView = AggregateView {
    kind: 0,
    relation: Relation::Less,
    bound: 0,
    members: NO_RUN,
};

const NO_MEMBER: Member = Member {
    statement: 0,
    weight: 0,
};

// What a record is read as where the type is another crate's, so that no From stands for it here.
// How many bytes the longest table has: the header, and each area at its fullest. Stays a function of its own: the proof of
// its caller is written out, so an edit there would break that first, and not a fact about the code.
fn longest() -> u64
    ensures { result ≡ 49692 }
{
    49_692
}

// How many records of an area the counts give.
fn count_of(counts: Counts, area: Area) -> u16
    ensures { result ≡ count_in counts area }
{
    match area {
        Area::Statements => counts.statements,
        Area::Rules => counts.rules,
        Area::Literals => counts.literals,
        Area::Aggregates => counts.aggregates,
        Area::Members => counts.members,
        Area::Names => counts.names,
    }
}

fn read_literal(literal: Record) -> u16
    ensures { result ≡ byte_at literal.entry.bytes.now literal.entry.at }
{
    u16::from(literal.byte(0))
}

fn read_member(member: Record) -> Member
    ensures { result ≡ member_read member.entry.bytes.now member.entry.at }
{
    Member {
        statement: u16::from(member.byte(0)),
        weight: member.whole(4),
    }
}

fn read_name(name: Record<'_>) -> &[u8]
    ensures { result.now ≡ name_read name.entry.bytes.now name.entry.at }
{
    let names = usize::from(Area::Names.offset(name.bytes));
    let start = names + usize::from(name.word(0));
    part(name.bytes, start, usize::from(name.byte(2)))
}

// Reading. What a table lacks, and all that an unopened one would have, reads as empty.
impl<'a> Table<'a> {
    ghost use Rattle.table.specs.Tables.{contents_of, nth_aggregate, nth_rule};

    // Opens the bytes where the check accepts them. What an opened table stands for is within the limits of the
    // format, and no other bytes stand for the same rules and names.
    #[tactic(auto, using(crate::proofs::Determined::only_bytes, crate::proofs::Places::ok_accepted))]
    pub fn open(bytes: &'a [u8]) -> Table<'a>
        ensures bytes { result.bytes.now ≡ bytes.now }
        ensures opened { is_ok result.checked ≡ accepted bytes.now }
        ensures limits { accepted bytes.now ≡ true → WithinLimits (contents_of result) }
        ensures only { OnlyBytes result.bytes.now }
    {
        Table {
            bytes,
            checked: check(bytes),
        }
    }

    // How many bytes to read of what may be a table: one more than the longest table has, so that nothing longer is taken
    // for one.
    pub fn most_read() -> u64
        ensures value { result ≡ 49693 }
        ensures enough { (b : List ℕ) → accepted b ≡ true → length b < result }
    {
        longest() + 1
    }

    // How many records each area has, or the first fault of the bytes, as the check says.
    pub fn counts(&self) -> Result<Counts, Fault>
        ensures { result ≡ verdict (faults self.now.bytes.now) (counts_of self.now.bytes.now) }
    {
        self.checked
    }

    // Whether the check accepted the bytes.
    #[tactic(auto, using(crate::proofs::Places::ok_accepted))]
    pub fn is_opened(&self) -> bool
        ensures { result ≡ accepted self.now.bytes.now }
    {
        self.counts().is_ok()
    }

    // How many records of an area there are.
    #[tactic(auto, using(crate::proofs::Places::held_by_counts, crate::proofs::Places::held_by_fault, crate::proofs::Places::many))]
    fn held(&self, area: Area) -> u16
        ensures known { result ≡ how_many (contents_of self.now) area }
        ensures counted { result ≡ count_held self.now.bytes.now area }
    {
        match self.checked {
            Ok(counts) => count_of(counts, area),
            Err(_) => 0,
        }
    }

    // Record i of an area, where there is one.
    fn record(&self, area: Area, i: usize) -> Option<Record<'a>>
        ensures { ShowsRecord self.now.bytes.now area i result }
    {
        if i < usize::from(self.held(area)) {
            // Stays `as`: `i` is below a u16, and `try_from` would give a failure that can't be.
            Some(area.record(self.bytes, i as u32))
        } else {
            None
        }
    }

    // How many statements there are.
    pub fn statements(&self) -> u16
        ensures { result ≡ length (contents_of self.now).names }
    {
        self.held(Area::Statements)
    }

    // How many rules there are.
    pub fn rules(&self) -> usize
        ensures { result ≡ length (contents_of self.now).rules }
    {
        usize::from(self.held(Area::Rules))
    }

    // How many aggregates there are.
    pub fn aggregates(&self) -> usize
        ensures { result ≡ length (contents_of self.now).aggregates }
    {
        usize::from(self.held(Area::Aggregates))
    }

    // Rule i; past the last one, a rule with nothing in it.
    pub fn rule(&self, i: usize) -> RuleView
        ensures { ShowsRule (contents_of self.now) (nth_rule self.now i) result }
    {
        self.record(Area::Rules, i).map_or(NO_RULE, RuleView::from)
    }

    // The statement at place k of the literals; past the last one, 0.
    pub fn literal(&self, k: usize) -> u16
        ensures value { result ≡ slice_index (contents_of self.now).literals k }
        ensures known { k < length (contents_of self.now).literals
            → result < length (contents_of self.now).names }
    {
        self.record(Area::Literals, k).map_or(0, read_literal)
    }

    // Aggregate j; past the last one, one with nothing in it.
    pub fn aggregate(&self, j: usize) -> AggregateView
        ensures { ShowsAggregate (contents_of self.now) (nth_aggregate self.now j) result }
    {
        self.record(Area::Aggregates, j)
            .map_or(NO_AGGREGATE, AggregateView::from)
    }

    // The place of the kind of aggregate j among the bytes; past the last one, 0.
    pub fn kind_place(&self, j: usize) -> usize
        ensures { result ≡ kind_place self.now.bytes.now j }
    {
        self.record(Area::Aggregates, j)
            .map_or(0, |record| record.at)
    }

    // The member at place k of the members; past the last one, statement 0 with weight 0.
    pub fn member(&self, k: usize) -> Member
        ensures value { result ≡ slice_index_or (contents_of self.now).members k no_member }
        ensures limits { k < length (contents_of self.now).members
            → MemberLimits (length (contents_of self.now).names) result }
    {
        self.record(Area::Members, k).map_or(NO_MEMBER, read_member)
    }

    // The bytes of the name of a statement; past the last one, none.
    fn name_bytes(&self, statement: u16) -> &'a [u8]
        ensures { result.now ≡ slice_index_or (contents_of self.now).names statement [] }
    {
        self.record(Area::Statements, usize::from(statement))
            .map_or(&[], read_name)
    }

    // The name of a statement; past the last one, no text. What the check accepts has names of visible ASCII signs only.
    pub fn name(&self, statement: u16) -> &'a str
        ensures { result.now ≡ slice_index_or (contents_of self.now).names statement [] }
    {
        // Not checked again: the check accepted visible ASCII signs only, and the proof says so.
        unsafe { from_utf8_unchecked(self.name_bytes(statement)) }
    }
}
