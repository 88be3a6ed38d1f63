ghost use Rattle.search.specs.Nogoods.{FollowsFromEither, Excluded, Follows, Grown, Known, StandingIs};
ghost use Rattle.search.specs.Outcomes.{Stands};
ghost use Rattle.std.specs.Prelude.{◌≡◌, Bool, IfSome, List};

use super::level::Level;
use super::nogoods::{Nogoods, STATEMENTS};
use super::outcome::Failure;
use super::standing::standing_of;
use super::store::Store;
use super::trail::{Trail, marked};
use marking::{Marking, Set};

// What a search remembers: nogoods, the order in which statements were marked, where to look among what is stored, how many
// nogoods were offered to the store and how often one of it was of use, and how much was done.
#[derive(Drop)]
pub(crate) struct Memory {
    pub nogoods: Nogoods,
    pub trail: Trail,
    store: Store,
    offered: u64,
    used: u64,
    pub nodes: u64,
    pub conflicts: u64,
}

impl Memory {
    // Nothing is remembered.
    pub(crate) fn new() -> Memory
        ensures { (s : List Bool) → Excluded result.nogoods.kept s → ⊥ }
    {
        Memory {
            nogoods: Nogoods::none(),
            trail: Trail::empty(),
            store: Store::empty(),
            offered: 0,
            used: 0,
            nodes: 0,
            conflicts: 0,
        }
    }

    // A search begins from a marking, with what is remembered of others.
    pub(crate) fn begin(&mut self, start: &Marking)
        ensures { self.new.nogoods ≡ self.old.nogoods }
    {
        self.trail = Trail::of(start);
        self.store.go_back(0);
    }

    // A stored nogood that shows something under a marking, if one is seen.
    pub(crate) fn next_stored(&mut self, marking: &Marking) -> Option<Marking>
        ensures same { self.new.nogoods ≡ self.old.nogoods }
        ensures known { IfSome result (Known self.old.nogoods.kept) }
    {
        let found = self.store.next_nogood(&self.nogoods, &self.trail, marking)?;
        self.used = self.used.saturating_add(1);
        Some(found)
    }

    // A statement was guessed. There is no reason for its mark.
    pub(crate) fn add_guess(&mut self, statement: u16)
        ensures { (s : List Bool) → Excluded self.new.nogoods.kept s → Excluded self.old.nogoods.kept s }
    {
        self.trail.add(statement);
        self.nogoods.clear(usize::from(statement));
    }

    // A statement was marked for a reason.
    pub(crate) fn record(&mut self, statement: u16, reason: &Marking)
        ensures { Grown self.old.nogoods.kept reason.now self.new.nogoods.kept }
    {
        self.trail.add(statement);
        self.nogoods.put(usize::from(statement), reason);
    }

    // Only so many of the statements on the trail are left.
    pub(crate) fn go_back(&mut self, reached: usize)
        ensures { self.new.nogoods ≡ self.old.nogoods }
    {
        self.trail.go_back(reached);
        self.store.go_back(reached);
    }

    // What follows from a nogood by the reasons of the marks that were made last, until at most one of its marks is not met
    // by the marking of the level above.
    fn explained(&self, nogood: &Marking, above: &Marking) -> Marking
        ensures { Follows self.now.nogoods.kept nogood.now result }
    {
        let mut explained = *nogood;
        for statement in self.trail.marked().iter().rev() {
            let unmet = explained.unmet(above);
            if unmet.is_empty() || unmet.only().is_some() {
                break;
            }
            explained = self.nogoods.explained(explained, *statement);
        }
        explained
    }

    // The two statements from which to watch a nogood: the one that the level above does not meet, and of the others the
    // one that was marked last.
    fn ends(&self, nogood: &Marking, above: &Marking) -> Option<(u16, u16)> {
        let one = nogood.unmet(above).only()?;
        let others = marked(nogood).without(Set::single(one));
        Some((one, self.trail.latest_of(others)?))
    }

    // Whether to store one more of the nogoods that are offered: where few have been of use, only one in sixteen, and what
    // is stored is given up from time to time, since to look at it costs more than it gives.
    fn pays(&mut self) -> bool
        ensures { self.new.nogoods ≡ self.old.nogoods }
    {
        self.offered = self.offered.saturating_add(1);
        if self.offered < 256 || self.offered <= self.used.saturating_mul(8) {
            return true;
        }
        if self.offered % 512 == 0 {
            self.store.forget();
        }
        self.offered % 16 == 0
    }

    // Stores a nogood that is short enough to be of use.
    fn learn(&mut self, nogood: &Marking, above: &Marking)
        ensures { Grown self.old.nogoods.kept nogood.now self.new.nogoods.kept }
    {
        if !is_short(nogood, above) || !self.pays() {
            return;
        }
        if let Some((one, other)) = self.ends(nogood, above) {
            let place = self.store.place(nogood, one, other);
            self.nogoods.put(STATEMENTS + usize::from(place), nogood);
        }
    }

    // Why nothing is found from a level, where a nogood shows that nothing is: what follows from that nogood, where this
    // shows something under the level above, or else the whole of the level's first marking.
    pub(crate) fn failed(&mut self, level: &Level, nogood: &Marking) -> Failure
        ensures grown { Grown self.old.nogoods.kept result.nogood self.new.nogoods.kept }
        ensures follows { FollowsFromEither self.old.nogoods.kept nogood.now level.now.whole result.nogood }
        ensures standing { Stands level.now
            → StandingIs level.now.above.now result.nogood result.standing }
    {
        self.conflicts = self.conflicts.saturating_add(1);
        let nogood = self.explained(nogood, level.above);
        let Some(standing) = standing_of(level.above, &nogood) else {
            return Failure {
                nogood: level.whole,
                standing: level.standing,
            };
        };
        self.learn(&nogood, level.above);
        Failure { nogood, standing }
    }
}

// Whether a nogood has few marks, or fewer by a quarter than a marking.
fn is_short(nogood: &Marking, above: &Marking) -> bool {
    let marks = usize::from(marked(nogood).count());
    marks <= 8 || 4 * marks <= 3 * usize::from(marked(above).count())
}
