//! Reads bytes in the spellings that people use: raw, encoded, or as a dump.
//!
//! Encoded bytes may be in source code, JSON, PEM armour or URLs, or between `h'` or `b64'` and
//! `'`.
#![tactic(auto)]

mod array;
mod base45;
mod base64;
mod code;
mod comments;
mod dump;
mod framed;
mod hexadecimal;
mod json;
mod layout;
mod literal;
mod named;
mod number;
mod part;
mod percent;
mod pieces;
mod place;
mod read;
mod source;
mod utf16;

pub use framed::Spelling;
pub use named::{Content, content_of_bytes, content_of_text};
pub use place::line_and_column;
pub use read::{Reading, Unread, Why, read_input};
