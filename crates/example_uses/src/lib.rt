//! Uses of the crate `coset`, by its public contracts alone. Each file is a caller's own code, and
//! proves what the caller may rely on.
#![tactic(auto)]

pub mod attestation;
pub mod cipher;
pub mod countersigning;
pub mod derivation;
pub mod detached;
pub mod encrypt0;
pub mod every_type;
pub mod exchange;
pub mod find_key;
pub mod headers;
pub mod inside;
pub mod issue;
pub mod key_sets;
pub mod mac0;
pub mod made_claims;
pub mod made_keys;
pub mod oscore;
pub mod parameters;
pub mod readable;
pub mod readable_parts;
pub mod recipients;
pub mod sequences;
pub mod shared_key;
pub mod signers;
pub mod stand_in;
pub mod store;
pub mod structures;
pub mod verify;
