ghost use Rattle.std.specs.Prelude.{◌≡◌, ◌+◌, ◌<◌, ◌≤◌, List, [], ◌∷◌, ℤ};
ghost use Rattle.family.specs.Spans.{SmallIfAny};
ghost use Rattle.family.specs.Sums.{Bounded, above_zero, below_zero};
ghost use Rattle.semantics.specs.Families.{Weight};

use super::reading::Span;
use super::weights::widened;

// What is kept of a bag of weights: a summary, which stands for every bag that has these numbers. Each family reads from it
// what its kinds need; one that needs no sums pays two additions a weight for them.
#[derive(Clone, Copy)]
pub struct Summary {
    // how many there are
    pub count: u32,
    // the sum of those below zero, and of those above
    pub below: i64,
    pub above: i64,
    // the least and the greatest
    pub extremes: Option<Span>,
    pub ghost few: { count ≤ 128 },
    pub ghost bounded: { Bounded below count × Bounded above count },
    pub ghost small: { SmallIfAny extremes },
}

// The weight if it is below zero, and 0 if not.
fn below_zero(weight: i64) -> i64
    ensures { result ≡ below_zero weight }
{
    weight.min(0)
}

// The weight if it is above zero, and 0 if not.
fn above_zero(weight: i64) -> i64
    ensures { result ≡ above_zero weight }
{
    weight.max(0)
}

impl Summary {
    ghost use Rattle.family.specs.Tallies.{Keeps};

    // Of a bag with no weights.
    pub(crate) fn new() -> Summary
        ensures { Keeps result [] }
    {
        Summary {
            count: 0,
            below: 0,
            above: 0,
            extremes: None,
        }
    }

    // Of the bag with one weight more.
    pub(crate) fn put(&mut self, weight: i64)
        requires room { self.old.count < 128 }
        requires small { Weight weight }
        ensures counted { self.new.count ≡ self.old.count + 1 }
        ensures kept { (v : List ℤ) → Keeps self.old v → Keeps self.new (weight ∷ v) }
    {
        self.count += 1;
        self.below += below_zero(weight);
        self.above += above_zero(weight);
        self.extremes = widened(self.extremes, weight);
    }
}
