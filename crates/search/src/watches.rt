use super::nogoods::{STATEMENTS, STORED};
use marking::Marking;
use semantics::Mark;

// Each stored nogood is watched from two of its marks, its ends.
const ENDS: usize = 2 * STORED;

const LITERALS: usize = 2 * STATEMENTS;

// A statement marked in, or marked out.
#[derive(Clone, Copy)]
pub(crate) struct Literal {
    pub statement: u16,
    pub present: bool,
}

impl Literal {
    // A statement as a marking has it.
    pub(crate) fn of(marking: &Marking, statement: u16) -> Literal {
        Literal {
            statement,
            present: marking.mark(statement) == Mark::In,
        }
    }

    fn place(self) -> usize {
        2 * usize::from(self.statement) + usize::from(self.present)
    }
}

// Where an end is: its literal, and the ends before and after it that have the same literal.
#[derive(Clone, Copy)]
struct Link {
    literal: Literal,
    before: Option<u16>,
    after: Option<u16>,
}

// For each literal the list of the ends that have it. It tells where to look; nothing rests on it.
#[derive(Drop)]
pub(crate) struct Watches {
    first: [Option<u16>; LITERALS],
    links: [Link; ENDS],
}

impl Watches {
    // No end has a literal.
    pub(crate) fn none() -> Watches {
        let literal = Literal {
            statement: 0,
            present: false,
        };
        Watches {
            first: [None; LITERALS],
            links: [Link {
                literal,
                before: None,
                after: None,
            }; ENDS],
        }
    }

    // The first end that has a literal.
    pub(crate) fn first(&self, literal: Literal) -> Option<u16> {
        *self.first.get(literal.place())?
    }

    // The end after another.
    pub(crate) fn after(&self, end: u16) -> Option<u16> {
        self.links.get(usize::from(end))?.after
    }

    // The statement of the literal that an end has.
    pub(crate) fn statement(&self, end: u16) -> Option<u16> {
        Some(self.links.get(usize::from(end))?.literal.statement)
    }

    // Takes an end out of the list that it is in.
    pub(crate) fn take_out(&mut self, end: u16) {
        let Some(link) = self.links.get(usize::from(end)).copied() else {
            return;
        };
        match link.before {
            Some(before) => self.set_after(before, link.after),
            None => self.set_first(link.literal, link.after),
        }
        if let Some(after) = link.after {
            self.set_before(after, link.before);
        }
    }

    // Puts an end that is in no list into the list of a literal.
    pub(crate) fn put_in(&mut self, end: u16, literal: Literal) {
        let after = self.first(literal);
        if let Some(after) = after {
            self.set_before(after, Some(end));
        }
        if let Some(link) = self.links.get_mut(usize::from(end)) {
            *link = Link {
                literal,
                before: None,
                after,
            };
        }
        self.set_first(literal, Some(end));
    }

    fn set_first(&mut self, literal: Literal, end: Option<u16>) {
        if let Some(first) = self.first.get_mut(literal.place()) {
            *first = end;
        }
    }

    fn set_after(&mut self, end: u16, after: Option<u16>) {
        if let Some(link) = self.links.get_mut(usize::from(end)) {
            link.after = after;
        }
    }

    fn set_before(&mut self, end: u16, before: Option<u16>) {
        if let Some(link) = self.links.get_mut(usize::from(end)) {
            link.before = before;
        }
    }
}
