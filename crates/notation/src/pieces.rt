ghost use Rattle.notation.specs.Pieces.{between, none, places};
ghost use Rattle.notation.specs.Text.{joined};
ghost use Rattle.std.specs.Prelude.{◌≡◌, ℕ, List, Some, map};

use std::fmt;
use table::table::Run;

// Texts that stand in a row, by their places. Stays a trait and is no closure: `Joined` says what it prints by the text of
// its pieces, which a closure has no name for.
pub(crate) trait Pieces {
    type Piece: fmt::Display + Drop;

    ghost text: { Self → ℕ → List ℕ };

    fn piece(&self, place: usize) -> Self::Piece
        ensures { Self.Piece.output result ≡ Some (text self.now place) };
}

// The pieces at the places of the run, with the separator between each two.
#[derive(Clone, Copy)]
pub(crate) struct Joined<P> {
    pub separator: &'static str,
    pub pieces: P,
    pub run: Run,
}

impl<P: Pieces> fmt::Display for Joined<P> {
    ghost output = { λ j. Some (joined j.separator.now (map (P.text j.pieces) (places j.run))) };

    fn fmt<W: fmt::Write>(&self, f: &mut fmt::Formatter<W>) -> fmt::Result {
        for place in self.run.first..self.run.end {
            if place > self.run.first {
                f.write_str(self.separator)?;
            }
            let piece = self.pieces.piece(place);
            write!(f, "{piece}")?;
        }
        Ok(())
    }
}

pub(crate) fn is_empty(run: Run) -> bool
    ensures { result ≡ none (places run) }
{
    run.first >= run.end
}

// The sign where there is something on both sides of it, and else nothing.
pub(crate) fn sign_between(sign: &'static str, before: Run, after: Run) -> &'static str
    ensures { result.now ≡ between sign.now (places before) (places after) }
{
    if is_empty(before) || is_empty(after) {
        ""
    } else {
        sign
    }
}
