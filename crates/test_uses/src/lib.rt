//! The tests of `example_uses` over tokens, claims and keys, with the result of each use.
//! `test_message_uses` has those over messages. The tests are crates of their own, because a crate
//! with tests is proved twice.
#![tactic(auto)]

#[cfg(test)]
mod attestations;
#[cfg(test)]
mod derivations;
#[cfg(test)]
mod key_set_stores;
#[cfg(test)]
mod lookups;
#[cfg(test)]
mod parts;
#[cfg(test)]
mod question_marks;
#[cfg(test)]
mod readings;
#[cfg(test)]
mod requests;
#[cfg(test)]
mod stores;
#[cfg(test)]
mod timestamps;
#[cfg(test)]
mod tokens;
