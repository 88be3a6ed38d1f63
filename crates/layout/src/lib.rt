#![tactic(auto)]

pub mod area;
pub mod bytes;
pub mod records;
