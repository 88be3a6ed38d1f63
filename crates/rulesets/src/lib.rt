#![tactic(auto)]

mod judge;
mod ruleset;
mod rulesets;

pub use judge::Judge;
pub use ruleset::Ruleset;
pub use rulesets::Rulesets;
