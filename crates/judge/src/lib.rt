// Judges: which side of a line a reading lies on, said only where it is certain.
#![tactic(auto)]

pub mod centre;
mod coordinate;
pub mod corner;
pub mod judge;
pub mod quick;
mod span;
pub mod staged;
pub mod word;
