#![tactic(auto)]

mod effort;
mod level;
mod memory;
mod nogoods;
mod outcome;
mod problem;
mod search;
mod standing;
mod store;
mod trail;
mod watches;

pub use effort::Effort;
pub use problem::{Judgement, Problem};
pub use search::earliest;
