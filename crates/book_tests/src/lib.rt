// Tests of the readings and of the yearbook reader, at their limits and on small books.
#![tactic(auto)]

#[cfg(test)]
mod books;
#[cfg(test)]
mod contents;
#[cfg(test)]
mod lengths;
#[cfg(test)]
mod readings;
#[cfg(test)]
mod refusals;
#[cfg(test)]
mod writing;
