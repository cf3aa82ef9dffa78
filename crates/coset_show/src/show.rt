//! Output for values of the COSE types.

ghost use Rattle.std.specs.Prelude.{◌≡◌, [], IfOk, MatchResult};
ghost use Rattle.hex.specs.Hex.{encode_lower};
ghost use Rattle.std.specs.String.{string_bytes};
ghost use Rattle.coset.specs.Item.{Item};
ghost use Rattle.coset.specs.CoseError.TheVariants.{OutOfMemory};
ghost use Rattle.coset.specs.Results.{ReadsSlice, RefusesSlice};
ghost use Rattle.coset.specs.Sign1.{sign1, sign1_attached, sign1_view};
ghost use Rattle.coset_show.specs.Show.{line, ShowsType, RefusesType, ShowsSign1, IsLineOf, WritesRead, tagged_if, message_in, sign1_in};
ghost use Rattle.coset_show.specs.Show.{is_tagged as is_tagged_spec};

use crate::refusal::Refusal;
use coset::{CborSerializable, CoseError, CoseSign1, Lawful, TaggedCborSerializable};
use std::alloc::{AllocError, Global};

/// Returns the bytes as a line of lower-case hexadecimal.
fn hexadecimal_line(alloc: Global, bytes: &[u8]) -> Result<String, AllocError>
    ensures { IfOk result (λ text. string_bytes text ≡ line (encode_lower bytes.now)) }
{
    let mut text = hex::encode(alloc, bytes)?;
    text.push('\n')?;
    Ok(text)
}

/// Returns the line of a value that was read.
fn line_of<T: Lawful + CborSerializable>(alloc: Global, value: T) -> Result<String, CoseError>
    ensures { WritesRead T.shape (T.view value) (λ s. string_bytes s) result }
{
    let encoded = value.to_vec(alloc)?;
    Ok(hexadecimal_line(alloc, &encoded)?)
}

/// Returns the line of the value that the bytes describe.
///
/// # Errors
/// The reason why the bytes describe no value, or `OutOfMemory`.
pub fn type_line<T: Lawful + CborSerializable>(
    alloc: Global,
    bytes: &[u8],
) -> Result<String, Refusal>
    ensures { MatchResult result (λ lines. ShowsType T.shape bytes.now (string_bytes lines))
        (λ refusal. RefusesType T.shape bytes.now refusal) }
{
    let value = T::from_slice(alloc, bytes)?;
    Ok(line_of(alloc, value)?)
}

/// Returns true if the bytes begin with a tag (RFC 8949, section 3.4).
fn is_tagged(bytes: &[u8]) -> bool
    ensures { result ≡ is_tagged_spec bytes.now }
{
    matches!(bytes.first(), Some(first) if first / 32 == 6)
}

/// Decodes a message, tagged or plain.
fn read_message<T: CborSerializable + TaggedCborSerializable>(
    alloc: Global,
    tagged: bool,
    bytes: &[u8],
) -> Result<T, CoseError>
    ensures read { ReadsSlice (tagged_if tagged T.TAG T.shape) T.view bytes.now result }
    ensures refused { RefusesSlice (tagged_if tagged T.TAG T.shape) bytes.now result }
{
    if tagged {
        T::from_tagged_slice(alloc, bytes)
    } else {
        T::from_slice(alloc, bytes)
    }
}

/// Returns the line of a message that was read, tagged or plain.
fn message_line<T: Lawful + CborSerializable + TaggedCborSerializable>(
    alloc: Global,
    tagged: bool,
    message: T,
) -> Result<String, CoseError>
    ensures { WritesRead (tagged_if tagged T.TAG T.shape) (T.view message)
        (λ s. string_bytes s) result }
{
    if tagged {
        let encoded = message.to_tagged_vec(alloc)?;
        Ok(hexadecimal_line(alloc, &encoded)?)
    } else {
        line_of(alloc, message)
    }
}

/// Returns the line of the message that the bytes describe, tagged if they begin with a tag.
///
/// # Errors
/// The same as [`type_line`].
pub fn message_lines<T: Lawful + CborSerializable + TaggedCborSerializable>(
    alloc: Global,
    bytes: &[u8],
) -> Result<String, Refusal>
    ensures { MatchResult result
        (λ lines. ShowsType (message_in bytes.now T.TAG T.shape) bytes.now (string_bytes lines))
        (λ refusal. RefusesType (message_in bytes.now T.TAG T.shape) bytes.now refusal) }
{
    let tagged = is_tagged(bytes);
    let message: T = read_message(alloc, tagged, bytes)?;
    Ok(message_line(alloc, tagged, message)?)
}

/// Returns the line of the bytes to be signed, for a message that was read and an empty
/// `external_aad`.
fn signed_line(alloc: Global, message: &CoseSign1) -> Result<String, CoseError>
    ensures { (v : Item) → sign1.describes v (sign1_view message.now)
        → MatchResult result (λ l. IsLineOf (sign1_attached (sign1_view message.now) [])
        (string_bytes l)) (λ e. e ≡ OutOfMemory) }
{
    let signed = message.tbs_data(alloc, &[])?;
    Ok(hexadecimal_line(alloc, &signed)?)
}

/// Returns two lines: the message that the bytes describe, and after `tbs ` the bytes to be signed.
///
/// # Errors
/// The same as [`type_line`].
pub fn sign1_lines(alloc: Global, bytes: &[u8]) -> Result<String, Refusal>
    ensures { MatchResult result (λ lines. ShowsSign1 bytes.now (string_bytes lines))
        (λ refusal. RefusesType (sign1_in bytes.now) bytes.now refusal) }
{
    let tagged = is_tagged(bytes);
    let message: CoseSign1 = read_message(alloc, tagged, bytes)?;
    let signed = signed_line(alloc, &message)?;
    let mut lines = message_line(alloc, tagged, message)?;
    lines.push_str("tbs ")?;
    lines.push_str(signed.as_str())?;
    Ok(lines)
}
