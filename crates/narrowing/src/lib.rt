#![tactic(auto)]

mod bits;
mod excluding;
mod founding;
mod mentions;
mod narrower;
mod reasons;
mod rule_steps;
mod statement_steps;
mod theorems;
mod work;

pub use mentions::Mentions;
pub use narrower::Narrower;
pub use work::Work;
