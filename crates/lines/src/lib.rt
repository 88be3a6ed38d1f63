#![tactic(auto)]

mod accounts;
mod parts;

pub use accounts::write_account;

// The most bytes that a report has.
pub const MOST: usize = 4620;
