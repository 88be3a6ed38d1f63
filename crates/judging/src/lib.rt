#![tactic(auto)]

mod aggregates;
mod bodies;
mod literals;
mod rulebook;

pub use aggregates::add_marked;
pub use bodies::Body;
pub use literals::{Literal, Literals, judge_head, judge_literals};
pub use rulebook::Rulebook;
