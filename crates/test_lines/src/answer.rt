//! The results of calls that take closures.

use crate::asked::No;
use coset::{CallError, Result};

/// The result of a call of a message or of its builder.
pub enum Answer<T> {
    /// The bytes of a structure.
    Bytes(Result<Vec<u8>>),
    /// The bytes of a structure, or `None` if the payload is missing.
    Perhaps(Result<Option<Vec<u8>>>),
    /// Whether a signature or a tag was accepted.
    Judged(std::result::Result<(), CallError<No>>),
    /// A plaintext, or a ciphertext that isn't put into the message.
    Opened(std::result::Result<Vec<u8>, CallError<No>>),
    /// A ciphertext that isn't put into the message, from a closure that can't refuse.
    Sealed(Result<Vec<u8>>),
    /// The message that was made, with a closure that can't refuse.
    Made(Result<T>),
    /// The message that was made.
    Tried(std::result::Result<T, CallError<No>>),
}
