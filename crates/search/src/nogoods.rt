ghost use Rattle.search.specs.Nogoods.{Excluded, Follows, Grown, Known};
ghost use Rattle.std.specs.Prelude.{Bool, IfSome, List};

use super::standing::resolved;
use marking::Marking;
use semantics::Mark;

// The most statements that a marking has, and the most nogoods that are stored.
pub(crate) const STATEMENTS: usize = 128;

pub(crate) const STORED: usize = 2048;

const PLACES: usize = STATEMENTS + STORED;

// The nogoods that are kept: first, for each statement, the reason of its mark, then those that are stored.
#[derive(Drop)]
pub(crate) struct Nogoods {
    kept: [Option<Marking>; PLACES],
}

impl Nogoods {
    // None.
    pub(crate) fn none() -> Nogoods
        ensures { (s : List Bool) → Excluded result.kept s → ⊥ }
    {
        Nogoods {
            kept: [None; PLACES],
        }
    }

    // The nogood at a place, if one stands there.
    pub(crate) fn get(&self, place: usize) -> Option<Marking>
        ensures { IfSome result (Known self.now.kept) }
    {
        *self.kept.get(place)?
    }

    // The reason of the mark of a statement, if it has one.
    pub(crate) fn reason(&self, statement: u16) -> Option<Marking>
        ensures { IfSome result (Known self.now.kept) }
    {
        self.get(usize::from(statement))
    }

    // The nogood that is stored at a place, if one stands there.
    pub(crate) fn stored(&self, place: u16) -> Option<Marking>
        ensures { IfSome result (Known self.now.kept) }
    {
        self.get(STATEMENTS + usize::from(place))
    }

    // What follows from a nogood and the reason of the mark of a statement; the nogood itself where nothing does.
    pub(crate) fn explained(&self, nogood: Marking, statement: u16) -> Marking
        ensures { Follows self.now.kept nogood result }
    {
        if nogood.mark(statement) == Mark::Open {
            return nogood;
        }
        let Some(reason) = self.reason(statement) else {
            return nogood;
        };
        resolved(&nogood, &reason, statement).unwrap_or(nogood)
    }

    // Puts a nogood at a place, for what stood there.
    pub(crate) fn put(&mut self, place: usize, nogood: &Marking)
        ensures { Grown self.old.kept nogood.now self.new.kept }
    {
        if place < PLACES {
            self.kept[place] = Some(*nogood);
        }
    }

    // Takes away what stands at a place.
    pub(crate) fn clear(&mut self, place: usize)
        ensures { (s : List Bool) → Excluded self.new.kept s → Excluded self.old.kept s }
    {
        if place < PLACES {
            self.kept[place] = None;
        }
    }
}
