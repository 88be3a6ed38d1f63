#![tactic(auto)]

mod days;
mod reading;
mod reasons;
mod standing;
mod telling;
mod theorems;

pub use days::{Content, Day, Line};
pub use reading::{Mistake, Request, find_statement, read_request};
pub use standing::standing_text;
