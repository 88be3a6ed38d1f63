ghost use Rattle.format.specs.Faults.{verdict};
ghost use Rattle.format.specs.Rules.{aggregates_end, all_literal_faults, all_rule_faults, literal_faults, literals_end, rule_faults};
ghost use Rattle.std.specs.Prelude.{◌≡◌};

use super::fault::demand;
use super::records::{check_each, record_before};
use layout::area::Area;
use refusal::{Fault, Refusal};

// Where the literals of the rule before rule i end.
fn literals_end(bytes: &[u8], i: u16) -> usize
    ensures { result ≡ literals_end bytes.now i }
{
    record_before(Area::Rules, bytes, i).map_or(0, |rule| {
        usize::from(rule.word(4))
            + usize::from(rule.byte(0))
            + usize::from(rule.byte(1))
            + usize::from(rule.byte(2))
    })
}

// Where the aggregates of the rule before rule i end.
fn aggregates_end(bytes: &[u8], i: u16) -> usize
    ensures { result ≡ aggregates_end bytes.now i }
{
    record_before(Area::Rules, bytes, i).map_or(0, |rule| {
        usize::from(rule.word(6)) + usize::from(rule.byte(3))
    })
}

fn check_rule(bytes: &[u8], i: u16) -> Result<(), Fault>
    ensures { result ≡ verdict (rule_faults bytes.now i) tt }
{
    let rule = Area::Rules.record(bytes, u32::from(i));
    let at = rule.at;
    demand(rule.byte(0) <= 8, Refusal::RuleCountTooLarge, at)?;
    demand(rule.byte(1) <= 32, Refusal::RuleCountTooLarge, at + 1)?;
    demand(rule.byte(2) <= 32, Refusal::RuleCountTooLarge, at + 2)?;
    demand(rule.byte(3) <= 4, Refusal::RuleCountTooLarge, at + 3)?;
    demand(
        usize::from(rule.word(4)) == literals_end(bytes, i),
        Refusal::WrongRuleRun,
        at + 4,
    )?;
    demand(
        usize::from(rule.word(6)) == aggregates_end(bytes, i),
        Refusal::WrongRuleRun,
        at + 6,
    )
}

pub(crate) fn check_rules(bytes: &[u8]) -> Result<(), Fault>
    ensures { result ≡ verdict (all_rule_faults bytes.now) tt }
{
    let count = Area::Rules.count(bytes);
    check_each(count, |i| check_rule(bytes, i))?;
    demand(
        literals_end(bytes, count) == usize::from(Area::Literals.count(bytes)),
        Refusal::RulesUnfilled,
        Area::Literals.field(),
    )?;
    demand(
        aggregates_end(bytes, count) == usize::from(Area::Aggregates.count(bytes)),
        Refusal::RulesUnfilled,
        Area::Aggregates.field(),
    )
}

fn check_literal(bytes: &[u8], k: u16) -> Result<(), Fault>
    ensures { result ≡ verdict (literal_faults bytes.now k) tt }
{
    let literal = Area::Literals.record(bytes, u32::from(k));
    demand(
        u16::from(literal.byte(0)) < Area::Statements.count(bytes),
        Refusal::UnknownLiteral,
        literal.at,
    )
}

pub(crate) fn check_literals(bytes: &[u8]) -> Result<(), Fault>
    ensures { result ≡ verdict (all_literal_faults bytes.now) tt }
{
    check_each(Area::Literals.count(bytes), |k| check_literal(bytes, k))
}
