#![tactic(auto)]

ghost use Rattle.cases.specs.Hex.{digit_of, hex_bytes};
ghost use Rattle.cases.specs.Words.{digits_text, times_numeral, times_of, times_text};
ghost use Rattle.std.specs.List.{repeat};
ghost use Rattle.std.specs.Prelude.{IfOk, IsOk, OnOk, ◌++◌, ◌<◌, ◌≡◌, ◌^◌, ◌↔◌};
ghost use Rattle.std.specs.Str.Parse.{ExplainsUnsignedError, IsNumeral};

use std::alloc::AllocError;
use std::num::ParseIntError;

fn digit(letter: u8) -> u8
    ensures value { result ≡ digit_of letter }
    ensures small { result < 16 }
{
    match letter {
        b'0'..=b'9' => letter - b'0',
        b'a'..=b'f' => letter - b'a' + 10,
        _ => 0,
    }
}

// Adds the bytes of pairs of digits, where any other letter counts as 0 and an odd last one is dropped.
fn push_hex(bytes: &mut Vec<u8>, digits: &[u8]) -> Result<(), AllocError>
    ensures { OnOk result (bytes.new.items ≡ bytes.old.items ++ hex_bytes digits.now) }
{
    for pair in digits.chunks_exact(2) {
        bytes.push(digit(pair[0]) * 16 + digit(pair[1]))?;
    }
    Ok(())
}

// A word of a case line that stands for bytes: `00ff*3` stands for `00ff` three times.
#[derive(Clone, Copy)]
pub struct Word<'a> {
    pub digits: &'a str,
    pub times: u16,
}

impl Word<'_> {
    // Reads a word. Without a `*` its bytes come once.
    pub fn parse(word: &str) -> Result<Word<'_>, ParseIntError>
        ensures digits { IfOk result (λ w. w.digits.now ≡ digits_text word.now) }
        ensures times { IfOk result (λ w. w.times ≡ times_of word.now) }
        ensures ok { IsOk result ↔ (IsNumeral 10 (times_numeral word.now) × (times_of word.now < 2 ^ 16)) }
        ensures err { ExplainsUnsignedError 10 (times_text word.now) result }
    {
        let (digits, times) = word.split_once('*').unwrap_or((word, "1"));
        let times = times.parse()?;
        Ok(Word { digits, times })
    }

    // Adds the word's bytes.
    pub fn push_to(&self, bytes: &mut Vec<u8>) -> Result<(), AllocError>
        ensures { OnOk result (bytes.new.items ≡ bytes.old.items ++ repeat self.now.times (hex_bytes self.now.digits.now)) }
    {
        for _ in 0..self.times {
            push_hex(bytes, self.digits.as_bytes())?;
        }
        Ok(())
    }
}

#[cfg(test)]
mod tests {
    use super::*;
    use std::test::Fail;

    // No clause says that there is memory: each of these words is read and adds its bytes.
    #[test]
    fn adds_the_bytes_of_words(rt: HostRuntime) -> Result<(), Fail> {
        for (word, want) in [
            ("00ff*3", b"\x00\xff\x00\xff\x00\xff".as_slice()),
            ("0a1b", b"\x0a\x1b".as_slice()),
            ("*3", b"".as_slice()),
            ("0gAB", b"\x00\x00".as_slice()),
            ("abc", b"\xab".as_slice()),
        ] {
            let mut bytes = Vec::new(rt.alloc());
            Word::parse(word)?.push_to(&mut bytes)?;
            assert_eq!(rt; bytes.as_slice(), want, "of {word}");
        }
        Ok(())
    }
}
