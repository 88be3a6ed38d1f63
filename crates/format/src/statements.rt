ghost use Rattle.format.specs.Faults.{verdict};
ghost use Rattle.format.specs.Statements.{all_statement_faults, name_at, name_byte_faults, name_twice_faults, names_end, same_name_faults, statement_faults};
ghost use Rattle.std.specs.Prelude.{◌≡◌};

use super::fault::demand;
use super::records::{check_each, record_before};
use layout::area::Area;
use layout::bytes::part;
use refusal::{Fault, Refusal};

// Where the name before that of statement i ends.
fn names_end(bytes: &[u8], i: u16) -> usize
    ensures { result ≡ names_end bytes.now i }
{
    record_before(Area::Statements, bytes, i).map_or(0, |statement| {
        usize::from(statement.word(0)) + usize::from(statement.byte(2))
    })
}

fn name_at(bytes: &[u8], i: u16) -> &[u8]
    ensures { result.now ≡ name_at bytes.now i }
{
    let statement = Area::Statements.record(bytes, u32::from(i));
    let name = Area::Names.record(bytes, u32::from(statement.word(0)));
    part(bytes, name.at, usize::from(statement.byte(2)))
}

fn check_statement(bytes: &[u8], i: u16) -> Result<(), Fault>
    ensures { result ≡ verdict (statement_faults bytes.now i) tt }
{
    let statement = Area::Statements.record(bytes, u32::from(i));
    let len = statement.byte(2);
    let joined = usize::from(statement.word(0)) == names_end(bytes, i);
    demand(
        (1..=32).contains(&len) && joined,
        Refusal::WrongNameRun,
        statement.at,
    )?;
    demand(
        statement.byte(3) == 0,
        Refusal::StatementPadding,
        statement.at + 3,
    )
}

// Byte k of the names, which is printable and no blank.
fn check_name_byte(bytes: &[u8], k: u16) -> Result<(), Fault>
    ensures { result ≡ verdict (name_byte_faults bytes.now k) tt }
{
    let letter = Area::Names.record(bytes, u32::from(k));
    demand(
        letter.byte(0).is_ascii_graphic(),
        Refusal::NameByte,
        letter.at,
    )
}

// Refuses statement i where it has the name of the earlier statement j.
fn check_names_differ(bytes: &[u8], i: u16, j: u16) -> Result<(), Fault>
    ensures { result ≡ verdict (same_name_faults bytes.now i j) tt }
{
    demand(
        name_at(bytes, j) != name_at(bytes, i),
        Refusal::NameTwice,
        Area::Statements.record(bytes, u32::from(i)).at,
    )
}

// Refuses statement i where an earlier one has its name.
fn check_name_once(bytes: &[u8], i: u16) -> Result<(), Fault>
    ensures { result ≡ verdict (name_twice_faults bytes.now i) tt }
{
    check_each(i, move |j| check_names_differ(bytes, i, j))
}

pub(crate) fn check_statements(bytes: &[u8]) -> Result<(), Fault>
    ensures { result ≡ verdict (all_statement_faults bytes.now) tt }
{
    let count = Area::Statements.count(bytes);
    let names = Area::Names.count(bytes);
    check_each(count, |i| check_statement(bytes, i))?;
    demand(
        names_end(bytes, count) == usize::from(names),
        Refusal::NamesUnfilled,
        Area::Names.field(),
    )?;
    check_each(names, |k| check_name_byte(bytes, k))?;
    check_each(count, |i| check_name_once(bytes, i))
}
