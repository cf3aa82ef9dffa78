//! Questions about bytes that may be an item of COSE, each answered by one call.
//!
//! The calls tell whether bytes are an item of a kind. They find its parts and the values of its
//! labels. They write the structures that are signed, authenticated, or go with a ciphertext. One
//! call finds everything that verifying or decrypting a message takes.
//!
//! Each call is a function of its input's bytes, and keeps nothing. It writes its result into the
//! caller's memory. The memory is unchanged if the result doesn't fit, or if there is none. So
//! programs in other languages can make these calls (`ffi_c`), and have nothing to free.
//!
//! A call passes over its input a fixed number of times. For critical labels, it passes over the
//! protected header once more for each label that the caller understands. It first decodes the
//! input as the kind that the caller names, so other input is refused for its own fault. Then it
//! looks up the requested part in the bytes themselves.
#![tactic(auto)]

mod borrowed;
mod countersign;
mod critical;
mod elements;
mod fault;
mod fits;
mod found;
mod item;
mod keys;
mod kind;
mod label;
mod located;
mod message;
mod pair;
mod part;
mod refusal;
mod seen;
mod spans;
mod structure;
mod view;
mod written;

pub use countersign::{Countersignature, countersign_structure_of};
pub use elements::{Span, integer_at, item_span, member_span, pair_spans, string_span, value_span};
pub use fault::fault_offset;
pub use found::check;
pub use keys::key_of;
pub use kind::{Form, Kind};
pub use label::{Label, Map, integer_of, string_of, value_of};
pub use message::message_view;
pub use pair::{Half, pair_of};
pub use part::{Part, count_of, member_of, part_of};
pub use refusal::{Refusal, Status};
pub use spans::{MessageSpans, Start, message_spans};
pub use structure::{recipient_structure_of, structure_of};
pub use view::{Algorithm, KeyIdPlace, MessageView};
pub use written::write_found;
