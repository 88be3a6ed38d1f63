use std::cell::Cell;

// How many nodes searches went through, and how many of them came to a conflict. The counts stand in cells, of which no
// contract can speak: they are for people who measure, and nothing rests on them.
#[derive(Default, Drop)]
pub struct Effort {
    pub nodes: Cell<u64>,
    pub conflicts: Cell<u64>,
}

impl Effort {
    // So many nodes and conflicts more.
    pub(crate) fn add(&self, nodes: u64, conflicts: u64) {
        self.nodes.set(self.nodes.get().saturating_add(nodes));
        self.conflicts
            .set(self.conflicts.get().saturating_add(conflicts));
    }
}
