//! Verifies web tokens of several issuers, and that their senders possess a key, as docs/CALLING.md
//! shows it.
#![tactic(auto)]

pub mod issuers;
pub mod possession;
pub mod verify_for;
