ghost use Rattle.notation.specs.Text.{kind_text};
ghost use Rattle.std.specs.Prelude.{Some};

use family::LackingKind;
use house::HouseKind;
use std::fmt;

// The kind of an aggregate. It stays a number, since a table names kinds so and each family reads them in its own way; the
// kinds of the house family have words.
#[derive(Clone, Copy)]
pub(crate) struct Kind(pub(crate) u8);

impl fmt::Display for Kind {
    ghost output = { λ k. Some (kind_text k.0) };

    fn fmt<W: fmt::Write>(&self, f: &mut fmt::Formatter<W>) -> fmt::Result {
        match HouseKind::try_from(self.0) {
            Ok(kind) => write!(f, "{kind}"),
            Err(LackingKind(number)) => write!(f, "kind{number}"),
        }
    }
}
