ghost use Rattle.std.specs.Prelude.{Some};
ghost use Rattle.family.specs.Text.{reading_text, span_text};

use super::reading::{Reading, Span};
use std::fmt;

impl fmt::Display for Span {
    ghost output = { λ s. Some (span_text s) };

    fn fmt<W: fmt::Write>(&self, f: &mut fmt::Formatter<W>) -> fmt::Result {
        write!(f, "from {} to {}", self.least, self.greatest)
    }
}

impl fmt::Display for Reading {
    ghost output = { λ r. Some (reading_text r) };

    fn fmt<W: fmt::Write>(&self, f: &mut fmt::Formatter<W>) -> fmt::Result {
        match (self.nothing, self.numbers) {
            (true, None) => f.write_str("nothing"),
            (true, Some(span)) => write!(f, "nothing, or {span}"),
            (false, None) => f.write_str("no value"),
            (false, Some(span)) => write!(f, "{span}"),
        }
    }
}
