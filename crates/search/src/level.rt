ghost use Rattle.semantics.specs.Markings.{at, marked};
ghost use Rattle.std.specs.Prelude.{◌≡◌, Bool, not, slice_set};

use super::standing::{Standing, turned};
use marking::Marking;

// A level of a search: the marking of the level above it, the first marking of this level, which has a guess more, and how
// that one stands under the marking above where it is a nogood.
#[derive(Clone, Copy)]
pub(crate) struct Level<'a> {
    pub above: &'a Marking,
    pub whole: Marking,
    pub standing: Standing,
}

impl Level<'_> {
    // The marking to go on with where a nogood shows a statement under the marking above: the marks of this level are
    // taken back.
    pub(crate) fn turned(&self, nogood: &Marking, statement: u16) -> Marking
        ensures { (x : Bool)
            → at nogood.now statement ≡ marked x
            → result ≡ slice_set self.now.above.now statement (marked (not x)) }
    {
        turned(*self.above, nogood, statement)
    }
}
