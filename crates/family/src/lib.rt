#![tactic(auto)]

mod family;
mod kind;
mod reading;
mod summary;
mod tally;
mod text;
mod weights;

pub use family::{Family, Kinded};
pub use kind::{Kind, LackingKind};
pub use reading::{Reading, Span, Verdict};
pub use summary::Summary;
pub use tally::Tally;
pub use weights::{takes, widened};
