// An envelope of readings: the written steps of its calls, over memory that is reserved when a year is opened.
#![tactic(auto)]

pub mod bound;
mod counts;
#[cfg(test)]
mod examples;
pub mod open;
mod passing;
mod queries;
pub mod replay;
mod ring;
mod run;
mod settling;
mod sides;
mod starts;
mod table;
mod trying;
