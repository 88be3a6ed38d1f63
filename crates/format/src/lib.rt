#![tactic(auto)]

mod aggregates;
pub mod check;
pub mod fault;
mod header;
mod records;
mod rules;
mod statements;
