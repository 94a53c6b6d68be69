// The rules of an envelope: its calls as written steps over lists, and what they promise over every run.
#![tactic(auto)]

pub mod location;
pub mod promise;
pub mod standing;
