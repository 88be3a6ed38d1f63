ghost use Rattle.search.specs.Nogoods.{Known};
ghost use Rattle.std.specs.Prelude.{IfSome};

use super::nogoods::{Nogoods, STORED};
use super::standing::standing_of;
use super::trail::{Trail, marked};
use super::watches::{Literal, Watches};
use marking::{Marking, Set};

// Where to look among the stored nogoods: their watches, up to which place of the trail they were looked at, and where
// the next one is stored, and how many places are watched. Of a nogood both of whose watched marks are not met, nothing can be shown: it is looked at only
// when a statement is marked as one of its ends has it.
#[derive(Drop)]
pub(crate) struct Store {
    watches: Watches,
    looked: usize,
    next: u16,
    filled: u16,
}

// The other of the two ends of a nogood. The ends of the nogood that is stored at a place are twice its number, and one
// more.
fn other_end(end: u16) -> u16 {
    end ^ 1
}

impl Store {
    // Nothing is stored.
    pub(crate) fn empty() -> Store {
        Store {
            watches: Watches::none(),
            looked: 0,
            next: 0,
            filled: 0,
        }
    }

    // A stored nogood that shows something under a marking, if one is seen.
    pub(crate) fn next_nogood(
        &mut self,
        nogoods: &Nogoods,
        trail: &Trail,
        marking: &Marking,
    ) -> Option<Marking>
        ensures { IfSome result (Known nogoods.now.kept) }
    {
        for place in self.looked..trail.length() {
            self.looked = place;
            let literal = Literal::of(marking, trail.at(place)?);
            if let Some(nogood) = self.watched(nogoods, literal, marking) {
                return Some(nogood);
            }
        }
        self.looked = trail.length();
        None
    }

    // A nogood that shows something under a marking, of those that have an end at a literal that has been met.
    fn watched(&mut self, nogoods: &Nogoods, literal: Literal, marking: &Marking) -> Option<Marking>
        ensures { IfSome result (Known nogoods.now.kept) }
    {
        let mut next = self.watches.first(literal);
        for _ in 0..STORED {
            let end = next?;
            next = self.watches.after(end);
            let nogood = nogoods.stored(end / 2)?;
            if standing_of(marking, &nogood).is_some() {
                return Some(nogood);
            }
            self.watch_another(end, &nogood, marking);
        }
        None
    }

    // Where no mark of a nogood is against the marking, moves an end of it to a mark that is not met either and that its
    // other end does not have.
    fn watch_another(&mut self, end: u16, nogood: &Marking, marking: &Marking) {
        let unmet = nogood.unmet(marking);
        if unmet.meets(marked(marking)) {
            return;
        }
        let Some(watched) = self.watches.statement(other_end(end)) else {
            return;
        };
        if let Some(statement) = unmet.without(Set::single(watched)).first() {
            self.watches.take_out(end);
            self.watches.put_in(end, Literal::of(nogood, statement));
        }
    }

    // The place for a nogood that is watched from two of its statements. Where one stood there, that one is no longer
    // watched.
    pub(crate) fn place(&mut self, nogood: &Marking, one: u16, other: u16) -> u16 {
        // Stays `as`: it is 2,048.
        let place = self.next % STORED as u16;
        let end = 2 * place;
        if place < self.filled {
            self.watches.take_out(end);
            self.watches.take_out(other_end(end));
        }
        self.watches.put_in(end, Literal::of(nogood, one));
        self.watches
            .put_in(other_end(end), Literal::of(nogood, other));
        self.next = place + 1;
        self.filled = self.filled.max(self.next);
        place
    }

    // No nogood is watched any longer.
    pub(crate) fn forget(&mut self) {
        self.watches = Watches::none();
        self.next = 0;
        self.filled = 0;
    }

    // Only so many statements of the trail are left.
    pub(crate) fn go_back(&mut self, reached: usize) {
        self.looked = self.looked.min(reached);
    }
}
