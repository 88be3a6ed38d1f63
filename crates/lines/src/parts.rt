ghost use Rattle.lines.specs.Reports.{Written};
ghost use Rattle.lines.specs.Lines.{head, line};
ghost use Rattle.semantics.specs.FullMarkings.{is_in};
ghost use Rattle.std.specs.Prelude.{◌≡◌, ◌≤◌, decimal, length};

use semantics::Mark;

// Writes a text to the front of a part that has room for it, and gives its length.
pub(crate) fn put(part: &mut [u8], text: &[u8]) -> usize
    requires { length text.now ≤ length part.old }
    ensures { Written text.now part.old part.new result }
{
    let end = text.len();
    part[..end].copy_from_slice(text);
    end
}

// Writes a number.
#[tactic(auto, using(crate::proofs::Digits::length_more, crate::proofs::Digits::length_one))]
fn put_number(part: &mut [u8], number: u16) -> usize
    requires { length (decimal number) ≤ length part.old }
    ensures { Written (decimal number) part.old part.new result }
{
    // Stays `as`: it is below 10, and `try_from` would give a failure that can't be.
    let digit = b'0' + (number % 10) as u8;
    if number < 10 {
        return put(part, &[digit]);
    }
    let at = put_number(part, number / 10);
    at + put(&mut part[at..], &[digit])
}

// Writes the line of a statement that is in.
fn put_in(part: &mut [u8], name: &str) -> usize
    requires { length (line Mark.In name.now) ≤ length part.old }
    ensures { Written (line Mark.In name.now) part.old part.new result }
{
    let at = put(part, b"in ");
    let end = at + put(&mut part[at..], name.as_bytes());
    end + put(&mut part[end..], b"\n")
}

// Whether a statement of this mark has a line. Stays a function, so that a wrong test is refused here.
fn has_line(mark: Mark) -> bool
    ensures { result ≡ is_in mark }
{
    mark == Mark::In
}

// Writes the line of a statement, or nothing where it has none.
pub(crate) fn put_line(part: &mut [u8], mark: Mark, name: &str) -> usize
    requires { length (line mark name.now) ≤ length part.old }
    ensures { Written (line mark name.now) part.old part.new result }
{
    if has_line(mark) {
        put_in(part, name)
    } else {
        0
    }
}

// Writes the line that says how many statements are in.
pub(crate) fn put_head(part: &mut [u8], count: u16) -> usize
    requires { length (head count) ≤ length part.old }
    ensures { Written (head count) part.old part.new result }
{
    let at = put(part, b"account ");
    let end = at + put_number(&mut part[at..], count);
    end + put(&mut part[end..], b"\n")
}
