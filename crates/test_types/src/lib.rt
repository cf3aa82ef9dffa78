//! The tests of `example_types`: types of a caller's own, and how they are read, written and
//! refused. They are a crate of their own, because a crate with tests is proved twice.
#![tactic(auto)]

#[cfg(test)]
mod kinds;
#[cfg(test)]
mod repeats;
#[cfg(test)]
mod rows;
