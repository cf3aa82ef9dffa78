//! The use of `coset_seen` that docs/CALLING.md shows.
#![tactic(auto)]

pub mod covered;
