ghost use Rattle.bench.specs.Kinds.{number};
ghost use Rattle.family.specs.Tallies.{Numbers};

use family::LackingKind;

// What is asked of a bag of weights.
#[derive(Clone, Copy, PartialEq, Eq, Debug)]
pub enum BenchKind {
    Spread,
    Odd,
}

impl TryFrom<u8> for BenchKind {
    type Error = LackingKind;

    ghost try_from_gives = { Numbers number 2 };

    fn try_from(number: u8) -> Result<BenchKind, LackingKind> {
        match number {
            0 => Ok(BenchKind::Spread),
            1 => Ok(BenchKind::Odd),
            _ => Err(LackingKind(number)),
        }
    }
}
