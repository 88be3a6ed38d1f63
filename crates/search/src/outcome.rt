use super::standing::Standing;
use marking::Marking;

// A nogood that shows that nothing is to be found, and how it stands under the marking of the level above.
#[derive(Clone, Copy)]
pub(crate) struct Failure {
    pub nogood: Marking,
    pub standing: Standing,
}

// What a search comes to from a marking: what it found, or why there is nothing.
#[derive(Clone, Copy)]
pub(crate) enum Outcome {
    Found(Marking),
    Failed(Failure),
}
