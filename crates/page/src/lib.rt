// The text of a page, and a page written into lent memory.
#![tactic(auto)]

#[cfg(test)]
mod examples;
pub mod page;
