ghost use Rattle.std.specs.Prelude.{◌≡◌, ◌<◌, ◌↔◌, IsTrue, List, ◌∷◌, ℤ};
ghost use Rattle.family.specs.Spans.{SmallIfAny, Spans, alone, joined};
ghost use Rattle.semantics.specs.Families.{Weight};

use super::reading::Span;

// Whether a tally with this many weights takes this one too.
pub fn takes(count: u32, weight: i32) -> bool
    ensures { IsTrue result ↔ ((count < 128) × Weight weight) }
{
    count < 128 && (-1_000_000..=1_000_000).contains(&weight)
}

impl Span {
    // The extremes of a bag of one weight.
    pub(crate) fn alone(weight: i64) -> Span
        ensures { result ≡ alone weight }
    {
        Span {
            least: weight,
            greatest: weight,
        }
    }

    // The extremes of two bags together, from those of each.
    pub fn joined(self, other: Option<Span>) -> Span
        ensures { result ≡ joined self other }
    {
        match other {
            None => self,
            Some(span) => Span {
                least: self.least.min(span.least),
                greatest: self.greatest.max(span.greatest),
            },
        }
    }
}

// The extremes of a bag with one weight more.
pub fn widened(extremes: Option<Span>, weight: i64) -> Option<Span>
    ensures spans { (v : List ℤ) → Spans extremes v → Spans result (weight ∷ v) }
    ensures small { SmallIfAny extremes → Weight weight → SmallIfAny result }
{
    Some(Span::alone(weight).joined(extremes))
}
