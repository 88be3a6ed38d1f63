ghost use Rattle.layout.specs.Bytes.{byte_at, whole_at, word_at};
ghost use Rattle.std.specs.Prelude.{◌+◌, ◌≡◌};

use super::bytes::{all_from, byte, whole, word};

// A record of an area: the bytes, and where among them it begins. Its own bytes are counted from there.
#[derive(Clone, Copy)]
pub struct Record<'a> {
    pub bytes: &'a [u8],
    pub at: usize,
}

impl Record<'_> {
    pub fn byte(self, k: usize) -> u8
        ensures { result ≡ byte_at self.entry.bytes.now (self.entry.at + k) }
    {
        byte(all_from(self.bytes, self.at), k)
    }

    pub fn word(self, k: usize) -> u16
        ensures { result ≡ word_at self.entry.bytes.now (self.entry.at + k) }
    {
        word(all_from(self.bytes, self.at), k)
    }

    pub fn whole(self, k: usize) -> i32
        ensures { result ≡ whole_at self.entry.bytes.now (self.entry.at + k) }
    {
        whole(all_from(self.bytes, self.at), k)
    }
}
