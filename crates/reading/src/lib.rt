// The two kinds of reading with the true points that a reading stands for, and the causes of refusal.
#![tactic(auto)]

pub mod cause;
pub mod dipped;
pub mod kind;
pub mod logged;
mod made_dipped;
mod made_logged;
pub mod refusal;
