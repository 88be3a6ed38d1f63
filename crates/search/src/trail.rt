use super::nogoods::STATEMENTS;
use marking::{Marking, Set};

// The statements that a marking has in or out.
pub(crate) fn marked(marking: &Marking) -> Set {
    marking.present().union(marking.absent())
}

// The statements that were marked, in order. It tells where to look; nothing rests on it.
#[derive(Drop)]
pub(crate) struct Trail {
    statements: [u16; STATEMENTS],
    length: usize,
}

impl Trail {
    // No statement.
    pub(crate) fn empty() -> Trail {
        Trail {
            statements: [0; STATEMENTS],
            length: 0,
        }
    }

    // How many statements it has.
    pub(crate) fn length(&self) -> usize {
        self.length
    }

    // Its statements.
    pub(crate) fn marked(&self) -> &[u16] {
        &self.statements[..self.length.min(STATEMENTS)]
    }

    // The statement at a place, if it has so many.
    pub(crate) fn at(&self, place: usize) -> Option<u16> {
        self.marked().get(place).copied()
    }

    // The last of its statements that is in a set.
    pub(crate) fn latest_of(&self, statements: Set) -> Option<u16> {
        self.marked()
            .iter()
            .rev()
            .copied()
            .find(|statement| statements.has(*statement))
    }

    // One statement more.
    pub(crate) fn add(&mut self, statement: u16) {
        if let Some(place) = self.statements.get_mut(self.length) {
            *place = statement;
            self.length += 1;
        }
    }

    // Takes back all but so many.
    pub(crate) fn go_back(&mut self, reached: usize) {
        self.length = self.length.min(reached);
    }

    // The statements of a marking from which a search begins.
    pub(crate) fn of(marking: &Marking) -> Trail {
        let marked = marked(marking);
        let mut trail = Trail::empty();
        for statement in 0..marking.statements() {
            if marked.has(statement) {
                trail.add(statement);
            }
        }
        trail
    }
}
