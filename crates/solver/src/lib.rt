#![tactic(auto)]

mod account;
mod accounts;
mod minimality;
mod parts;
mod reducing;
mod reduct;
mod seeking;
mod support;
mod theorems;
mod weighing;

pub use account::Account;
pub use accounts::Accounts;
pub use support::{Support, find_support, read_row};
pub use weighing::Weighing;
