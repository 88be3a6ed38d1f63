ghost use Rattle.std.specs.Prelude.{Some};
ghost use Rattle.family.specs.Tallies.{Numbers};
ghost use Rattle.house.specs.Kinds.{number, word};

use family::LackingKind;
use std::fmt;

// What is asked of a bag of weights.
#[derive(Clone, Copy, PartialEq, Eq, Debug)]
pub enum HouseKind {
    Count,
    Sum,
    Least,
    Greatest,
}

impl TryFrom<u8> for HouseKind {
    type Error = LackingKind;

    ghost try_from_gives = { Numbers number 4 };

    fn try_from(number: u8) -> Result<HouseKind, LackingKind> {
        match number {
            0 => Ok(HouseKind::Count),
            1 => Ok(HouseKind::Sum),
            2 => Ok(HouseKind::Least),
            3 => Ok(HouseKind::Greatest),
            _ => Err(LackingKind(number)),
        }
    }
}

impl fmt::Display for HouseKind {
    ghost output = { λ kind. Some (word kind) };

    fn fmt<W: fmt::Write>(&self, f: &mut fmt::Formatter<W>) -> fmt::Result {
        f.write_str(match self {
            HouseKind::Count => "count",
            HouseKind::Sum => "sum",
            HouseKind::Least => "min",
            HouseKind::Greatest => "max",
        })
    }
}
