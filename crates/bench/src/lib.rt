#![tactic(auto)]

use family::{Kinded, Tally};

mod kind;
mod reading;

pub use kind::BenchKind;

// What the bench keeps of a bag of sure weights and a bag of open ones, for one kind.
pub type BenchTally = Tally<BenchKind>;

// The bench family: 0 spread, 1 odd.
pub struct Bench;

impl Kinded for Bench {
    type Kind = BenchKind;
}
