ghost use Rattle.search.specs.Nogoods.{Judged, Nogood};
ghost use Rattle.semantics.specs.FullMarkings.{Full, row_of};
ghost use Rattle.std.specs.Prelude.{◌≡◌, ℕ, Bool, IfSome, List, length};

use marking::Marking;

// Whether the row of a full marking fits; where it does not, a nogood.
#[derive(Clone, Copy)]
pub enum Judgement {
    Fits,
    Fails(Marking),
}

// Which rows are looked for. A search knows nothing else of them. What it learns of them is nogoods: markings with which
// no row that fits agrees.
pub trait Problem {
    // What the problem keeps from one question to the next: hints of where to look. Nothing is promised of it.
    type Work: Drop;

    // How many statements a row has.
    ghost size: { Self → ℕ };

    // Which rows fit.
    ghost fits: { Self → List Bool → Type 0 };

    // How many statements a row has.
    fn statements(&self) -> u16
        ensures { result ≡ size self.now };

    // What is kept when a search begins.
    fn start(&self) -> Self::Work;

    // Marks were taken back: only so many of those on the trail are left.
    fn go_back(&self, work: &mut Self::Work, reached: usize);

    // A nogood that looks useful under a marking, or none where none is seen. The trail has the statements that were
    // marked, in order; it is a hint too.
    fn nogood(&self, work: &mut Self::Work, marking: &Marking, trail: &[u16]) -> Option<Marking>
        ensures { IfSome result (Nogood (fits self.now)) };

    // Whether the row of a full marking fits.
    fn test(&self, row: &Marking) -> Judgement
        ensures { length row.now ≡ size self.now
            → Full row.now
            → Judged (fits self.now) (row_of row.now) result };
}
