//! Places of faults in bytes: the steps that lead to a place, and whether an error's fault is
//! there.
#![tactic(auto)]

mod header;
mod label;
mod malformed;
mod named_fault;
mod place;
mod registry;
mod repeats;
mod step;
mod unexpected;

pub use header::has_header_fault;
pub use place::fault_at;
pub use step::{Step, follow};
