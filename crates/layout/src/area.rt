ghost use Rattle.layout.specs.Areas.{count, field_of, most, offset, size};
ghost use Rattle.std.specs.Prelude.{◌*◌, ◌+◌, ◌≡◌};

use super::bytes::word;
use super::records::Record;

// The six areas of a table, in their order.
#[derive(Clone, Copy, PartialEq, Eq, Debug)]
pub enum Area {
    Statements,
    Rules,
    Literals,
    Aggregates,
    Members,
    Names,
}

impl Area {
    // The six in turn.
    pub const ALL: [Area; 6] = [
        Area::Statements,
        Area::Rules,
        Area::Literals,
        Area::Aggregates,
        Area::Members,
        Area::Names,
    ];

    // Where the header has the area's count; the offset stands behind it.
    pub fn field(self) -> usize
        ensures { result ≡ field_of self }
    {
        match self {
            Area::Statements => 4,
            Area::Rules => 8,
            Area::Literals => 12,
            Area::Aggregates => 16,
            Area::Members => 20,
            Area::Names => 24,
        }
    }

    // The most records that the area may have.
    pub fn most(self) -> u16
        ensures { result ≡ most self }
    {
        match self {
            Area::Statements => 128,
            Area::Rules => 1024,
            Area::Literals => 8192,
            Area::Aggregates => 1024,
            Area::Members => 2048,
            Area::Names => 4096,
        }
    }

    // The bytes of one record.
    pub fn size(self) -> usize
        ensures { result ≡ size self }
    {
        match self {
            Area::Statements => 4,
            Area::Rules => 8,
            Area::Literals => 1,
            Area::Aggregates => 12,
            Area::Members => 8,
            Area::Names => 1,
        }
    }

    // How many records the header gives the area.
    pub fn count(self, bytes: &[u8]) -> u16
        ensures { result ≡ count bytes.now self }
    {
        word(bytes, self.field())
    }

    // Where the area begins, by the header.
    pub fn offset(self, bytes: &[u8]) -> u16
        ensures { result ≡ offset bytes.now self }
    {
        word(bytes, self.field() + 2)
    }

    // Record i of the area, by the header. It may lie past the end, where every byte reads as 0.
    pub fn record(self, bytes: &[u8], i: u32) -> Record<'_>
        ensures bytes { result.bytes.now ≡ bytes.now }
        ensures at { result.at ≡ offset bytes.now self + size self * i }
    {
        // Stays `as`: usize has no From<u32>, and a member's number can pass u16.
        Record {
            bytes,
            at: usize::from(self.offset(bytes)) + self.size() * i as usize,
        }
    }
}
