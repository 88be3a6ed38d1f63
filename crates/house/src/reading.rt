ghost use Rattle.std.specs.Prelude.{◌≡◌, ◌+◌, pos, ◌+ℤ◌};
ghost use Rattle.house.specs.Kinds.{number};
ghost use Rattle.semantics.specs.Families.{house};
ghost use Rattle.semantics.proofs.Families.{house_lawful};

use super::kind::HouseKind;
use family::{Kind, Reading, Span, Summary};

// With no open weight the count is least, and with all of them greatest.
fn counts(sure: &Summary, opens: &Summary) -> Span
    ensures least { result.least ≡ pos sure.now.count }
    ensures greatest { result.greatest ≡ pos (sure.now.count + opens.now.count) }
{
    Span {
        least: i64::from(sure.count),
        greatest: i64::from(sure.count + opens.count),
    }
}

// With the open weights below zero the sum is least, and with those above greatest.
fn sums(sure: &Summary, opens: &Summary) -> Span
    ensures least { result.least ≡ (sure.now.below +ℤ sure.now.above) +ℤ opens.now.below }
    ensures greatest { result.greatest ≡ (sure.now.below +ℤ sure.now.above) +ℤ opens.now.above }
{
    let sum = sure.below + sure.above;
    Span {
        least: sum + opens.below,
        greatest: sum + opens.above,
    }
}

impl Kind for HouseKind {
    const COUNT: u16 = 4;

    ghost COUNT = { 4 };

    ghost number = { number };

    ghost value = { house };

    ghost numbers = { λ k r h. h };

    ghost lawful = { house_lawful };

    // With no sure weight the least and the greatest weight are any open one, or nothing.
    fn read(self, sure: &Summary, opens: &Summary) -> Reading {
        match (self, sure.extremes) {
            (HouseKind::Count, _) => Reading::only_numbers(counts(sure, opens)),
            (HouseKind::Sum, _) => Reading::only_numbers(sums(sure, opens)),
            (_, None) => Reading::nothing_or(opens.extremes),
            // from the least of all to the least sure one
            (HouseKind::Least, Some(span)) => Reading::only_numbers(Span {
                least: span.joined(opens.extremes).least,
                greatest: span.least,
            }),
            // from the greatest sure one to the greatest of all
            (HouseKind::Greatest, Some(span)) => Reading::only_numbers(Span {
                least: span.greatest,
                greatest: span.joined(opens.extremes).greatest,
            }),
        }
    }
}
