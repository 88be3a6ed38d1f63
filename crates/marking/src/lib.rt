#![tactic(auto)]

mod marking;
mod set;

pub use marking::Marking;
pub use set::Set;
