#![tactic(auto)]

use family::{Kinded, Tally};

mod kind;
mod reading;

pub use kind::HouseKind;

// What the house keeps of a bag of sure weights and a bag of open ones, for one kind.
pub type HouseTally = Tally<HouseKind>;

// The house family: 0 count, 1 sum, 2 least weight, 3 greatest weight.
pub struct House;

impl Kinded for House {
    type Kind = HouseKind;
}
