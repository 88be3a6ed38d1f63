ghost use Rattle.format.specs.Faults.{verdict};
ghost use Rattle.format.specs.Header.{area_end, count_faults, end_before, every_area, header_faults, offset_faults};
ghost use Rattle.layout.specs.declared.area.Area.{Area};
ghost use Rattle.refusal.specs.declared.Fault.{Fault};
ghost use Rattle.std.specs.Prelude.{List, ◌≡◌};

use super::fault::demand;
use layout::area::Area;
use layout::bytes::word;
use refusal::{Fault, Refusal};

// The number of bytes before the first area.
const HEADER: usize = 28;

// The one format that there is.
const FORMAT: u16 = 1;

fn area_end(bytes: &[u8], area: Area) -> usize
    ensures { result ≡ area_end bytes.now area }
{
    area.record(bytes, u32::from(area.count(bytes))).at
}

// Where the area before this one ends. Stays a match: a method that names the area before would be the same match.
fn end_before(bytes: &[u8], area: Area) -> usize
    ensures { result ≡ end_before bytes.now area }
{
    match area {
        Area::Statements => HEADER,
        Area::Rules => area_end(bytes, Area::Statements),
        Area::Literals => area_end(bytes, Area::Rules),
        Area::Aggregates => area_end(bytes, Area::Literals),
        Area::Members => area_end(bytes, Area::Aggregates),
        Area::Names => area_end(bytes, Area::Members),
    }
}

fn check_count(bytes: &[u8], area: Area) -> Result<(), Fault>
    ensures { result ≡ verdict (count_faults bytes.now area) tt }
{
    demand(
        area.count(bytes) <= area.most(),
        Refusal::CountTooLarge,
        area.field(),
    )
}

fn check_offset(bytes: &[u8], area: Area) -> Result<(), Fault>
    ensures { result ≡ verdict (offset_faults bytes.now area) tt }
{
    demand(
        usize::from(area.offset(bytes)) == end_before(bytes, area),
        Refusal::WrongOffset,
        area.field() + 2,
    )
}

// The first fault of the six areas, each of which is checked by itself: area a has the faults found a.
// Stays beside check_each, whose records are numbers: one function over either would ask of each caller a proof of what its
// iterator yields, which is no plainer than two loops of a line.
fn check_areas<F: Fn(Area) -> Result<(), Fault>>(check: F) -> Result<(), Fault>
    ghost found: { Area → List Fault }
    requires callable { F.IsAlwaysCallable check }
    requires finds { (area : Area) (r : _) → F.post check area r → r ≡ verdict (found area) tt }
    ensures { result ≡ verdict (every_area found) tt }
{
    for area in Area::ALL {
        check(area)?;
    }
    Ok(())
}

pub(crate) fn check_header(bytes: &[u8]) -> Result<(), Fault>
    ensures { result ≡ verdict (header_faults bytes.now) tt }
{
    demand(HEADER <= bytes.len(), Refusal::TooShort, bytes.len())?;
    demand(word(bytes, 0) == FORMAT, Refusal::WrongFormat, 0)?;
    demand(
        usize::from(word(bytes, 2)) == bytes.len(),
        Refusal::WrongLength,
        2,
    )?;
    check_areas(|area| check_count(bytes, area))?;
    check_areas(|area| check_offset(bytes, area))?;
    demand(
        area_end(bytes, Area::Names) == bytes.len(),
        Refusal::NamesNotLast,
        Area::Names.field(),
    )
}
