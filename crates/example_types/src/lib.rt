//! A caller's own types: how a type gets a shape, and how the traits read and write it. This crate
//! is an example, and a test of the traits' promises.
#![tactic(auto)]

pub mod parcel;
pub mod reading;
pub mod report;
pub mod settings;
