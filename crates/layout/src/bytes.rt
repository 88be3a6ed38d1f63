ghost use Rattle.layout.specs.Bytes.{byte_at, whole_at, word_at};
ghost use Rattle.std.specs.Prelude.{drop, take, ◌≡◌};

// Numbers in bytes, the lowest byte first. Past the end every byte reads as 0, so that no reading has a premise.

pub fn byte(bytes: &[u8], at: usize) -> u8
    ensures { result ≡ byte_at bytes.now at }
{
    bytes.get(at).copied().unwrap_or(0)
}

// The bytes from start on; past the end there are none.
pub(crate) fn all_from(bytes: &[u8], start: usize) -> &[u8]
    ensures { result.now ≡ drop start bytes.now }
{
    bytes.get(start..).unwrap_or(&[])
}

pub fn word(bytes: &[u8], at: usize) -> u16
    ensures { result ≡ word_at bytes.now at }
{
    let rest = all_from(bytes, at);
    u16::from_le_bytes([byte(rest, 0), byte(rest, 1)])
}

pub fn whole(bytes: &[u8], at: usize) -> i32
    ensures { result ≡ whole_at bytes.now at }
{
    let rest = all_from(bytes, at);
    i32::from_le_bytes([byte(rest, 0), byte(rest, 1), byte(rest, 2), byte(rest, 3)])
}

// The bytes from start on, as many as there are and at most len.
pub fn part(bytes: &[u8], start: usize, len: usize) -> &[u8]
    ensures { result.now ≡ take len (drop start bytes.now) }
{
    let rest = all_from(bytes, start);
    &rest[..len.min(rest.len())]
}
