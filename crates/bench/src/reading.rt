ghost use Rattle.std.specs.Prelude.{◌≡◌, ◌%◌, ◌<◌, List, ℤ, pos, ◌-ℤ◌};
ghost use Rattle.bench.specs.Kinds.{number};
ghost use Rattle.family.specs.Readings.{Reads};
ghost use Rattle.family.specs.Spans.{Small};
ghost use Rattle.family.specs.Tallies.{Keeps};
ghost use Rattle.semantics.specs.Families.{bench};
ghost use Rattle.semantics.proofs.Families.{bench_lawful};

use super::kind::BenchKind;
use family::{Kind, Reading, Span, Summary};

// How far the greatest is from the least.
fn width(span: Span) -> i64
    requires { Small span }
    ensures { result ≡ span.greatest -ℤ span.least }
{
    span.greatest - span.least
}

// With no open weight the spread is least, and with all of them greatest. With no sure weight the spread of one open
// weight is least, and that of none is nothing.
fn spreads(sure: &Summary, opens: &Summary) -> Reading
    ensures { (s o : List ℤ) → Keeps sure.now s → Keeps opens.now o → Reads (bench 0) s o result }
{
    match (sure.extremes, opens.extremes) {
        (None, None) => Reading::nothing_or(None),
        (None, Some(open)) => Reading::nothing_or(Some(Span {
            least: 0,
            greatest: width(open),
        })),
        (Some(span), open) => Reading::only_numbers(Span {
            least: width(span),
            greatest: width(span.joined(open)),
        }),
    }
}

// 1 where there is an odd number of weights, and 0 where not. An open weight makes both possible.
fn odds(sure: &Summary, opens: &Summary) -> Span
    ensures some { 0 < opens.now.count → (result.least ≡ pos 0) × (result.greatest ≡ pos 1) }
    ensures none { opens.now.count ≡ 0
        → (result.least ≡ pos (sure.now.count % 2)) × (result.greatest ≡ pos (sure.now.count % 2)) }
{
    if opens.count > 0 {
        Span {
            least: 0,
            greatest: 1,
        }
    } else {
        let odd = i64::from(sure.count % 2);
        Span {
            least: odd,
            greatest: odd,
        }
    }
}

impl Kind for BenchKind {
    const COUNT: u16 = 2;

    ghost COUNT = { 2 };

    ghost number = { number };

    ghost value = { bench };

    ghost numbers = { λ k r h. h };

    ghost lawful = { bench_lawful };

    fn read(self, sure: &Summary, opens: &Summary) -> Reading {
        match self {
            BenchKind::Spread => spreads(sure, opens),
            BenchKind::Odd => Reading::only_numbers(odds(sure, opens)),
        }
    }
}
