#![tactic(auto)]

mod accounts;
mod grounds;
mod marks;
mod pieces;
mod report;
mod rules;
mod theorems;
mod words;

pub use accounts::account_text;
pub use grounds::grounds_text;
pub use marks::marks_text;
pub use report::{fault_text, shown};
pub use rules::rule_text;
