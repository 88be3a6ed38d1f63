#![tactic(auto)]

ghost use Rattle.refusal.specs.Refusals.{layer_of, number_of, reason_text, refused_text};
ghost use Rattle.std.specs.Prelude.{Some, ◌≡◌};

use std::fmt;
use std::fmt::Write;

// The part of the work in which something was refused.
#[derive(Clone, Copy, PartialEq, Eq, Debug)]
pub enum Layer {
    Header,
    Statements,
    Rules,
    Literals,
    Aggregates,
    Members,
    Family,
    Sheet,
}

// Why something was refused, by the number by which users and documents name it. docs/REFUSALS.md has the condition and
// the place of each.
#[derive(Clone, Copy, PartialEq, Eq, Debug)]
pub enum Refusal {
    TooShort = 1,
    WrongFormat = 2,
    WrongLength = 3,
    CountTooLarge = 4,
    WrongOffset = 5,
    NamesNotLast = 6,
    WrongNameRun = 7,
    StatementPadding = 8,
    NamesUnfilled = 9,
    NameByte = 10,
    NameTwice = 11,
    RuleCountTooLarge = 12,
    WrongRuleRun = 13,
    RulesUnfilled = 14,
    UnknownLiteral = 15,
    UnknownRelation = 16,
    WrongMemberRun = 17,
    AggregatePadding = 18,
    MembersUnfilled = 19,
    UnknownMember = 20,
    MemberPadding = 21,
    WeightTooLarge = 22,
    MemberTwice = 23,
    TableUnopened = 24,
    StatementsDiffer = 25,
    LackingKind = 26,
    UnknownStatement = 27,
    FindingStands = 28,
    SheetFull = 29,
    NoFinding = 30,
    PartTooShort = 31,
    ReportTooShort = 32,
}

impl Refusal {
    // The number by which users and documents name it.
    pub fn number(self) -> u8
        ensures { result ≡ number_of self }
    {
        self as u8
    }

    // The part of the work that refuses so. Stays a match: a `From` would be the same match.
    pub fn layer(self) -> Layer
        ensures { result ≡ layer_of self }
    {
        match self {
            Refusal::TooShort
            | Refusal::WrongFormat
            | Refusal::WrongLength
            | Refusal::CountTooLarge
            | Refusal::WrongOffset
            | Refusal::NamesNotLast => Layer::Header,
            Refusal::WrongNameRun
            | Refusal::StatementPadding
            | Refusal::NamesUnfilled
            | Refusal::NameByte
            | Refusal::NameTwice => Layer::Statements,
            Refusal::RuleCountTooLarge | Refusal::WrongRuleRun | Refusal::RulesUnfilled =>
                Layer::Rules,
            Refusal::UnknownLiteral => Layer::Literals,
            Refusal::UnknownRelation
            | Refusal::WrongMemberRun
            | Refusal::AggregatePadding
            | Refusal::MembersUnfilled => Layer::Aggregates,
            Refusal::UnknownMember
            | Refusal::MemberPadding
            | Refusal::WeightTooLarge
            | Refusal::MemberTwice => Layer::Members,
            Refusal::LackingKind => Layer::Family,
            Refusal::TableUnopened
            | Refusal::StatementsDiffer
            | Refusal::UnknownStatement
            | Refusal::FindingStands
            | Refusal::SheetFull
            | Refusal::NoFinding
            | Refusal::PartTooShort
            | Refusal::ReportTooShort => Layer::Sheet,
        }
    }
}

// The condition, in words.
impl fmt::Display for Refusal {
    ghost output = { λ r. Some (reason_text r) };

    fn fmt<W: Write>(&self, f: &mut fmt::Formatter<W>) -> fmt::Result {
        f.write_str(match self {
            Refusal::TooShort => "a table has at least 28 bytes",
            Refusal::WrongFormat => "the format is not 1",
            Refusal::WrongLength => "the length in the header is not the number of bytes",
            Refusal::CountTooLarge => "a count passes the most of its area",
            Refusal::WrongOffset => "an offset is not where the part before ends",
            Refusal::NamesNotLast => "the names do not end with the table",
            Refusal::WrongNameRun => "the length or the start of a name is wrong",
            Refusal::StatementPadding => "the last byte of a statement is not zero",
            Refusal::NamesUnfilled => "the names do not fill their area",
            Refusal::NameByte => "a name has a byte outside 33 to 126",
            Refusal::NameTwice => "a name is that of an earlier statement",
            Refusal::RuleCountTooLarge => "a count of a rule is too large",
            Refusal::WrongRuleRun =>
                "the literals or the aggregates of a rule start in the wrong place",
            Refusal::RulesUnfilled => "the rules do not fill the literals or the aggregates",
            Refusal::UnknownLiteral => "a rule names a statement that is not there",
            Refusal::UnknownRelation => "there is no such relation",
            Refusal::WrongMemberRun => "the count or the start of the members of a set is wrong",
            Refusal::AggregatePadding => "a byte of an aggregate that must be zero is not",
            Refusal::MembersUnfilled => "the aggregates do not fill the members",
            Refusal::UnknownMember => "a set names a statement that is not there",
            Refusal::MemberPadding => "a byte of a member that must be zero is not",
            Refusal::WeightTooLarge => "a weight is beyond 1000000 either side of zero",
            Refusal::MemberTwice => "a statement is in a set twice",
            Refusal::TableUnopened => "the table is not opened",
            Refusal::StatementsDiffer =>
                "the table and the sheet differ in their number of statements",
            Refusal::LackingKind => "the family lacks this kind",
            Refusal::UnknownStatement => "there is no such statement",
            Refusal::FindingStands => "it has a standing finding",
            Refusal::SheetFull => "64 findings stand",
            Refusal::NoFinding => "no finding stands",
            Refusal::PartTooShort => "the part is shorter than one byte a statement",
            Refusal::ReportTooShort => "the part is shorter than 4620 bytes",
        })
    }
}

// A refusal with its place, a byte's number where a byte is to blame.
#[derive(Clone, Copy, PartialEq, Eq, Debug)]
pub struct Fault {
    pub refusal: Refusal,
    pub place: usize,
}

impl fmt::Display for Fault {
    ghost output = { λ f. Some (refused_text f) };

    fn fmt<W: Write>(&self, f: &mut fmt::Formatter<W>) -> fmt::Result {
        write!(f, "refused {} at {}", self.refusal.number(), self.place)
    }
}
