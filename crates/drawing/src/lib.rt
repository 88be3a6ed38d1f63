#![tactic(auto)]

mod demands;
mod drawing;
mod explaining;
mod forcing;
mod rules;
mod statements;
mod supports;
mod sweeping;

pub use drawing::{draw, draw_from};
