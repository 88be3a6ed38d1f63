// A table with all that the plain reading has worked out of it before any call.
use super::answers::answer_sets;
use super::model::Program;
use super::places::{AGGREGATES, HEADER, RULES, STATEMENTS};
use super::rows::Row;
use super::values::Reckoning;
use std::alloc::{AllocError, Global};

#[derive(Drop)]
pub(crate) struct Known {
    pub reckoning: Reckoning,
    pub bytes: Vec<u8>,
    pub is_opened: bool,
    // What the bytes stand for: nothing, where the table is not opened.
    pub program: Program,
    // Where the first kind stands that the family lacks.
    pub lacking: Option<usize>,
    pub answer_sets: Vec<Row>,
}

// Where the kind of the first aggregate stands that the family lacks.
fn lacking_place(
    heap: Global,
    reckoning: Reckoning,
    program: &Program,
) -> Result<Option<usize>, AllocError> {
    let statements = program.names.len().saturating_mul(STATEMENTS.size);
    let rules = program.rules.len().saturating_mul(RULES.size);
    let before = HEADER.saturating_add(statements).saturating_add(rules);
    let mut place = before.saturating_add(program.literals());
    for kind in &program.kinds(heap)? {
        if *kind >= reckoning.kinds() {
            return Ok(Some(place));
        }
        place = place.saturating_add(AGGREGATES.size);
    }
    Ok(None)
}

impl Known {
    // A table that is opened.
    pub(crate) fn opened(
        heap: Global,
        reckoning: Reckoning,
        program: Program,
        bytes: Vec<u8>,
    ) -> Result<Known, AllocError> {
        let lacking = lacking_place(heap, reckoning, &program)?;
        let answer_sets = answer_sets(heap, reckoning, &program)?;
        Ok(Known {
            reckoning,
            bytes,
            is_opened: true,
            program,
            lacking,
            answer_sets,
        })
    }

    // A table that is not opened.
    pub(crate) fn unopened(heap: Global, reckoning: Reckoning, bytes: Vec<u8>) -> Known {
        Known {
            reckoning,
            bytes,
            is_opened: false,
            program: Program::empty(heap),
            lacking: None,
            answer_sets: Vec::new(heap),
        }
    }
}
