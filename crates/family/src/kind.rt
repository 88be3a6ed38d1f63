ghost use Rattle.std.specs.Prelude.{◌++◌, ℕ, Some, codes, decimal, List, ℤ};
ghost use Rattle.family.specs.Readings.{Reads};
ghost use Rattle.family.specs.Tallies.{AreNumbers, Keeps};
ghost use Rattle.semantics.specs.Families.{Lawful, Values};

use super::reading::Reading;
use super::summary::Summary;
use std::error::Error;
use std::fmt;

// The number of a kind that a family lacks.
#[derive(Clone, Copy, PartialEq, Eq, Debug)]
pub struct LackingKind(pub u8);

impl fmt::Display for LackingKind {
    ghost output = { λ lacking. Some (codes "the family lacks kind " ++ decimal lacking.0) };

    fn fmt<W: fmt::Write>(&self, f: &mut fmt::Formatter<W>) -> fmt::Result {
        write!(f, "the family lacks kind {}", self.0)
    }
}

impl Error for LackingKind {}

// The kinds of a family, each made of its number, and read from what is kept of two bags.
pub trait Kind: TryFrom<u8, Error = LackingKind> + Copy {
    // How many there are.
    const COUNT: u16;

    ghost COUNT: { ℕ };

    // The number of each.
    ghost number: { Self → ℕ };

    // What the kind with each number makes of a bag.
    ghost value: { Values };

    // What the bags come to that have every sure weight and some, none or all of the open ones.
    fn read(self, sure: &Summary, opens: &Summary) -> Reading
        ensures { (s o : List ℤ)
            → Keeps sure.now s
            → Keeps opens.now o
            → Reads (value (number self)) s o result };

    // A number turns into the kind that has it, or is past those of all kinds.
    ghost numbers: { AreNumbers number COUNT Self.try_from_gives };

    ghost lawful: { Lawful COUNT value };
}
