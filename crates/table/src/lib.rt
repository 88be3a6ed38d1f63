#![tactic(auto)]

pub mod table;
mod theorems;
