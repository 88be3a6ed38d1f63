ghost use Rattle.format.specs.Aggregates.{aggregate_faults, all_aggregate_faults, all_member_faults, member_at, member_faults, members_end, same_member_faults, set_faults};
ghost use Rattle.format.specs.Faults.{each, verdict};
ghost use Rattle.std.specs.Prelude.{◌≡◌};

use super::fault::demand;
use super::records::{check_each, record_before};
use layout::area::Area;
use layout::records::Record;
use refusal::{Fault, Refusal};

// The most that a weight may lie away from zero.
const WEIGHT: i32 = 1_000_000;

// Where the members of the aggregate before aggregate i end.
fn members_end(bytes: &[u8], i: u16) -> usize
    ensures { result ≡ members_end bytes.now i }
{
    record_before(Area::Aggregates, bytes, i).map_or(0, |aggregate| {
        usize::from(aggregate.word(4)) + usize::from(aggregate.byte(2))
    })
}

fn check_aggregate(bytes: &[u8], i: u16) -> Result<(), Fault>
    ensures { result ≡ verdict (aggregate_faults bytes.now i) tt }
{
    let aggregate = Area::Aggregates.record(bytes, u32::from(i));
    let at = aggregate.at;
    let joined = usize::from(aggregate.word(4)) == members_end(bytes, i);
    // Stays a number: the format knows no relations, only that there are six codes.
    demand(aggregate.byte(1) <= 5, Refusal::UnknownRelation, at + 1)?;
    demand(
        aggregate.byte(2) <= 128 && joined,
        Refusal::WrongMemberRun,
        at,
    )?;
    demand(aggregate.byte(3) == 0, Refusal::AggregatePadding, at + 3)?;
    demand(aggregate.byte(6) == 0, Refusal::AggregatePadding, at + 6)?;
    demand(aggregate.byte(7) == 0, Refusal::AggregatePadding, at + 7)
}

pub(crate) fn check_aggregates(bytes: &[u8]) -> Result<(), Fault>
    ensures { result ≡ verdict (all_aggregate_faults bytes.now) tt }
{
    let count = Area::Aggregates.count(bytes);
    check_each(count, |i| check_aggregate(bytes, i))?;
    demand(
        members_end(bytes, count) == usize::from(Area::Members.count(bytes)),
        Refusal::MembersUnfilled,
        Area::Members.field(),
    )
}

// Member k of the set of aggregate i.
fn member(bytes: &[u8], i: u16, k: u16) -> Record<'_>
    ensures bytes { result.bytes.now ≡ bytes.now }
    ensures at { result.at ≡ member_at bytes.now i k }
{
    let first = Area::Aggregates.record(bytes, u32::from(i)).word(4);
    Area::Members.record(bytes, u32::from(first) + u32::from(k))
}

// Refuses member k of the set of aggregate i where it has the statement of the earlier member j.
fn check_members_differ(bytes: &[u8], i: u16, k: u16, j: u16) -> Result<(), Fault>
    ensures { result ≡ verdict (same_member_faults bytes.now i k j) tt }
{
    let member_k = member(bytes, i, k);
    demand(
        member(bytes, i, j).byte(0) != member_k.byte(0),
        Refusal::MemberTwice,
        member_k.at,
    )
}

// Refuses member k where an earlier member of its set has its statement.
fn check_member_once(bytes: &[u8], i: u16, k: u16) -> Result<(), Fault>
    ensures { result ≡ verdict (each k (same_member_faults bytes.now i k)) tt }
{
    check_each(k, move |j| check_members_differ(bytes, i, k, j))
}

fn check_member(bytes: &[u8], i: u16, k: u16) -> Result<(), Fault>
    ensures { result ≡ verdict (member_faults bytes.now i k) tt }
{
    let member = member(bytes, i, k);
    let at = member.at;
    let weight = member.whole(4);
    demand(
        u16::from(member.byte(0)) < Area::Statements.count(bytes),
        Refusal::UnknownMember,
        at,
    )?;
    demand(member.byte(1) == 0, Refusal::MemberPadding, at + 1)?;
    demand(member.byte(2) == 0, Refusal::MemberPadding, at + 2)?;
    demand(member.byte(3) == 0, Refusal::MemberPadding, at + 3)?;
    demand(
        (-WEIGHT..=WEIGHT).contains(&weight),
        Refusal::WeightTooLarge,
        at + 4,
    )?;
    check_member_once(bytes, i, k)
}

// The set of aggregate i, member by member.
fn check_set(bytes: &[u8], i: u16) -> Result<(), Fault>
    ensures { result ≡ verdict (set_faults bytes.now i) tt }
{
    let members = Area::Aggregates.record(bytes, u32::from(i)).byte(2);
    check_each(u16::from(members), move |k| check_member(bytes, i, k))
}

pub(crate) fn check_members(bytes: &[u8]) -> Result<(), Fault>
    ensures { result ≡ verdict (all_member_faults bytes.now) tt }
{
    check_each(Area::Aggregates.count(bytes), |i| check_set(bytes, i))
}
