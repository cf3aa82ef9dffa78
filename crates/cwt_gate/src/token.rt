//! Tokens as they are received: messages with one signature under at most two tags (RFC 8392,
//! section 6).

ghost use Rattle.std.specs.Prelude.{◌≡◌};
ghost use Rattle.coset.specs.Results.{AllocatesForItems, ReadsSlice, RefusesSlice};
ghost use Rattle.coset.specs.Sign1.{sign1_view};
ghost use Rattle.coset.specs.View.{value_item};
ghost use Rattle.cwt_gate.specs.Token.{is_under, is_cwt_tagged, message_in, token as token_shape, untagged};

use coset::cbor::value::Value;
use coset::{AsCborValue, CborSerializable, CoseSign1, Result};
use std::alloc::Global;

/// The tag of messages with one signature (RFC 8152, section 2).
const COSE_SIGN1: u64 = 18;

/// The tag of web tokens (RFC 8392, section 6).
const CWT: u64 = 61;

/// A token, which contains one message.
///
/// ```cddl
/// token = COSE_Sign1 / #6.18(COSE_Sign1) / #6.61(#6.18(COSE_Sign1))
/// ```
#[derive(Debug, Drop)]
pub struct Token(pub CoseSign1);

/// Returns true if the value is under the tag `number`.
fn is_under(number: u64, value: &Value) -> bool
    ensures { result ≡ is_under number (value_item value.now) }
{
    match value {
        Value::Tag(found, _) => *found == number,
        _ => false,
    }
}

/// Returns the content of a tag, or any other value itself.
fn untagged(value: Value) -> Value
    ensures { value_item result ≡ untagged (value_item value) }
{
    match value {
        Value::Tag(_, inner) => Box::into_inner(inner),
        other => other,
    }
}

/// Returns true if the value is under the tag of web tokens, and then under the tag of
/// `COSE_Sign1`.
fn is_cwt_tagged(value: &Value) -> bool
    ensures { result ≡ is_cwt_tagged (value_item value.now) }
{
    match value {
        Value::Tag(found, inner) => *found == CWT && is_under(COSE_SIGN1, inner),
        _ => false,
    }
}

/// Returns the value that is read as the message.
fn message_in(value: Value) -> Value
    ensures { value_item result ≡ message_in (value_item value) }
{
    if is_under(COSE_SIGN1, &value) {
        return untagged(value);
    }
    if is_cwt_tagged(&value) {
        return untagged(untagged(value));
    }
    value
}

impl AsCborValue for Token {
    ghost use Rattle.coset.specs.Sign1.{Sign1View};
    ghost use Rattle.cwt_gate.specs.Token.{token, token_view, token_sound, token_unique};

    ghost View = { Sign1View };

    ghost view = { token_view };

    ghost shape = { token };

    ghost unique = { token_unique };

    ghost sound = { token_sound };

    fn from_cbor_value(alloc: Global, value: Value) -> Result<Token> {
        Ok(Token(CoseSign1::from_cbor_value(alloc, message_in(value))?))
    }

    /// Writes the message without a tag.
    fn to_cbor_value(self, alloc: Global) -> Result<Value> {
        self.0.to_cbor_value(alloc)
    }
}

impl CborSerializable for Token {}

/// Reads the message in a token.
///
/// # Errors
/// - `OutOfMemory` if an allocation fails. This happens only if the bytes are one item.
/// - A fault in the bytes, if they are not a token.
pub fn read_token(alloc: Global, token: &[u8]) -> Result<CoseSign1>
    ensures read { ReadsSlice token_shape sign1_view token.now result }
    ensures refused { RefusesSlice token_shape token.now result }
    ensures memory { AllocatesForItems token.now result }
{
    match Token::from_slice(alloc, token) {
        Ok(Token(message)) => Ok(message),
        Err(error) => Err(error),
    }
}
