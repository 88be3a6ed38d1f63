#![tactic(auto)]

mod asking;
mod calls;
mod entering;
mod findings;
mod running;
mod sheet;
mod signing;
mod supposing;
mod theorems;
mod visits;
mod writing;

pub use running::run;
pub use sheet::Sheet;
pub use signing::SignedSheet;
pub use visits::{Answer, Drawing, Entry, Visit};
