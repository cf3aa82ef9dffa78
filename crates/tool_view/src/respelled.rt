//! An input's bytes in another spelling.

ghost use Rattle.std.specs.Prelude.{[], ◌∷◌, ◌≡◌, ◌++◌, IfOk, string_bytes};
ghost use Rattle.tool_view.specs.Respelled.{IsRespelled, IsSpelling};

use crate::read::read_bytes;
use crate::shown::{REFUSED, TAKEN};
use base64::engine::general_purpose::STANDARD;
use std::alloc::{AllocError, Global};

/// The spelling in which bytes are written.
#[derive(Clone, Copy, Debug, PartialEq, Eq)]
pub enum To {
    /// Hexadecimal, in a line.
    Hexadecimal,
    /// The bytes themselves.
    Binary,
    /// Base64 with padding, in a line.
    Base64,
}

/// The bytes of an input in another spelling.
#[derive(Drop)]
pub struct Respelled {
    /// A line for standard error: how the input was read, or where it is misspelled.
    pub said: String,
    /// The output.
    pub output: Vec<u8>,
    /// The status.
    pub status: u8,
}

/// Returns the text as a line.
fn line_of(alloc: Global, mut text: String) -> Result<Vec<u8>, AllocError>
    ensures { IfOk result (λ line. line.items ≡ string_bytes text ++ 10 ∷ []) }
{
    text.push('\n')?;
    Vec::from_slice(alloc, text.as_bytes())
}

/// Returns the bytes in this spelling.
fn spelled(alloc: Global, to: To, bytes: &[u8]) -> Result<Vec<u8>, AllocError>
    ensures { IfOk result (λ output. IsSpelling to bytes.now output.items) }
{
    match to {
        To::Hexadecimal => line_of(alloc, hex::encode(alloc, bytes)?),
        To::Binary => Vec::from_slice(alloc, bytes),
        To::Base64 => line_of(alloc, STANDARD.encode(alloc, bytes)?),
    }
}

/// Returns the bytes of the input in another spelling. If `is_notation` is true, the input is read
/// as diagnostic notation.
///
/// The status is 0 only if the output is that of these bytes. If the input can't be read, there is
/// no output, and `said` tells where.
///
/// # Errors
/// `AllocError` if an allocation fails.
pub fn respell(
    alloc: Global,
    to: To,
    is_notation: bool,
    input: &[u8],
) -> Result<Respelled, AllocError>
    ensures { IfOk result
        (λ r. r.status ≡ 0 → IsRespelled is_notation to input.now r.output.items) }
{
    match read_bytes(alloc, is_notation, input)? {
        Ok(reading) => Ok(Respelled {
            output: spelled(alloc, to, &reading.bytes)?,
            said: reading.said,
            status: TAKEN,
        }),
        Err(said) => Ok(Respelled {
            output: Vec::new(alloc),
            said,
            status: REFUSED,
        }),
    }
}
