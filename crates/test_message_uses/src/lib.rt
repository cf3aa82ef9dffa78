//! The tests of the functions of `example_uses` over messages: they are made, and signatures,
//! recipients and countersignatures of theirs are checked. `test_uses` has the other tests. A crate
//! with tests is proved twice, and two such crates are proved side by side.
#![tactic(auto)]

#[cfg(test)]
mod answers;
#[cfg(test)]
mod countersignatures;
#[cfg(test)]
mod detached;
#[cfg(test)]
mod made;
#[cfg(test)]
mod readable_parts;
#[cfg(test)]
mod recipients;
#[cfg(test)]
mod shared_keys;
#[cfg(test)]
mod signers;
