ghost use Rattle.format.specs.Check.{counts_of, faults};
ghost use Rattle.format.specs.Faults.{verdict};
ghost use Rattle.std.specs.Prelude.{◌≡◌};

use super::aggregates::{check_aggregates, check_members};
use super::header::check_header;
use super::rules::{check_literals, check_rules};
use super::statements::check_statements;
use layout::area::Area;
use refusal::Fault;

// How many records each area has.
#[derive(Clone, Copy, PartialEq, Eq, Debug)]
pub struct Counts {
    pub statements: u16,
    pub rules: u16,
    pub literals: u16,
    pub aggregates: u16,
    pub members: u16,
    pub names: u16,
}

// The first fault of the bytes in checking order, or their counts where there is none.
pub fn check(bytes: &[u8]) -> Result<Counts, Fault>
    ensures { result ≡ verdict (faults bytes.now) (counts_of bytes.now) }
{
    check_header(bytes)?;
    check_statements(bytes)?;
    check_rules(bytes)?;
    check_literals(bytes)?;
    check_aggregates(bytes)?;
    check_members(bytes)?;
    Ok(Counts {
        statements: Area::Statements.count(bytes),
        rules: Area::Rules.count(bytes),
        literals: Area::Literals.count(bytes),
        aggregates: Area::Aggregates.count(bytes),
        members: Area::Members.count(bytes),
        names: Area::Names.count(bytes),
    })
}
