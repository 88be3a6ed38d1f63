#![tactic(auto)]

ghost use Rattle.presence.specs.Values.{Stands, presence};
ghost use Rattle.presence.specs.Laws.{presence_lawful};

use family::{Family, Reading, takes};

mod tally;

pub use tally::PresenceTally;

// The presence family, with one kind: 0 whether there is a weight, as 1 or 0. It implements `Family` itself, and is an
// example of a family with a tally of its own make.
pub struct Presence;

impl Family for Presence {
    type Tally = PresenceTally;

    ghost size = { λ _. 1 };

    ghost value = { λ _. presence };

    ghost tallies = { λ _. Stands };

    ghost lawful = { λ _. presence_lawful };

    fn kinds(&self) -> u16 {
        1
    }

    fn start(&self, kind: u8) -> PresenceTally {
        PresenceTally {
            kind,
            sure: 0,
            opens: 0,
        }
    }

    fn add_sure(&self, tally: &mut PresenceTally, weight: i32) {
        if takes(tally.sure + tally.opens, weight) {
            tally.sure += 1;
        }
    }

    fn add_open(&self, tally: &mut PresenceTally, weight: i32) {
        if takes(tally.sure + tally.opens, weight) {
            tally.opens += 1;
        }
    }

    fn read(&self, tally: &PresenceTally) -> Reading {
        if tally.kind > 0 {
            return Reading::nothing_or(None);
        }
        Reading::only_numbers(tally.presences())
    }
}
