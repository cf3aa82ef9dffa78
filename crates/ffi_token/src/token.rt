//! A token, once the caller opened its layers.

ghost use Rattle.std.specs.Option.{option_and_then};
ghost use Rattle.coset_codec.specs.Results.{Writes};
ghost use Rattle.cwt_verify.specs.Verify.{token_view};
ghost use Rattle.ffi_token.specs.Rules.{policy_in, rules_view};
ghost use Rattle.ffi_token.specs.Tokens.{ReturnsVerified, ReturnsToken, WritesLayer, WritesToken};
ghost use Rattle.ffi_token.specs.Written.{token_image};

use crate::layer::{Layer, Waiting};
use crate::opened::OpenedLayers;
use crate::refusal::{Apart, Refusal, taken_apart};
use crate::rules::Rules;
use crate::written::Written;
use coset_codec::write::encode_to_vec;
use cwt_verify::{LayerError, TokenError, VerifiedToken};
use ffi_query::write_found;
use std::alloc::Global;

/// Returns the shortest encoding of the token.
///
/// # Errors
/// - `OutOfMemory` if an allocation fails.
/// - `DuplicateMapKey` if the token has no encoding.
fn encoded<'a>(alloc: Global, token: &'a VerifiedToken<'a>) -> coset::Result<Vec<u8>>
    ensures { Writes (token_image (token_view token.now)) (λ b. b.items) result }
{
    encode_to_vec(alloc, &Written(token))
}

/// Writes the token to the front of `out` in its shortest encoding, and returns its length.
///
/// # Errors
/// - `Answer` with `Short` if `out` is too small.
/// - `Answer` with `Cose` if an allocation fails, or if the token has no encoding.
///
/// `out` is then unchanged.
fn write_token<'a>(
    alloc: Global,
    token: &'a VerifiedToken<'a>,
    out: &mut [u8],
) -> Result<usize, Refusal>
    ensures { WritesToken (token_view token.now) out.old out.new result }
{
    match encoded(alloc, token) {
        Ok(bytes) => match write_found(Ok(Some(bytes)), out) {
            Ok(len) => Ok(len),
            Err(refusal) => Err(Refusal::Answer(refusal)),
        },
        Err(error) => Err(Refusal::Answer(ffi_query::Refusal::Cose(error))),
    }
}

/// Writes the texts of a waiting layer to the front of `out`, and returns the layer's view.
fn write_layer(index: usize, key_id: Vec<u8>, layer: Layer, out: &mut [u8]) -> Refusal
    ensures { WritesLayer index key_id layer out.old out.new result }
{
    let error = layer.view;
    match write_found(Ok(Some(layer.text)), out) {
        Ok(_) => Refusal::Token(TokenError::Layer(index, LayerError::Keys { key_id, error })),
        Err(refusal) => Refusal::Answer(refusal),
    }
}

/// Returns the result for a token that was verified or refused.
fn answer(
    alloc: Global,
    verified: Result<VerifiedToken<'_>, TokenError<Waiting>>,
    out: &mut [u8],
) -> Result<usize, Refusal>
    ensures { ReturnsVerified verified.entry out.old out.new result }
{
    match verified {
        Ok(token) => write_token(alloc, &token, out),
        Err(error) => match taken_apart(error) {
            Apart::Layer(index, key_id, layer) => Err(write_layer(index, key_id, layer, out)),
            Apart::Refused(error) => Err(Refusal::Token(error)),
        },
    }
}

/// Writes a token that is accepted to the front of `out`, and returns the length.
///
/// The token is accepted if the caller opened each of its layers, and it meets the rules at `now`
/// (RFC 8392, section 7.2). `now` is in seconds since 1970 began in UTC. The token is written as
/// one item in its shortest encoding:
///
/// ```cddl
/// verified_token = [
///   claims : Claims_Set,
///   audience : [* tstr],
///   others : { * label => any },
///   issuer : tstr / nil,
///   layers : [+ verified_layer]
/// ]
/// verified_layer = [
///   form : 1 / 3 / 5,
///   protected : bstr,
///   unprotected : header_map,
///   issuer : tstr / nil
/// ]
/// ```
///
/// The parts are those of [`VerifiedToken`]. The claims are without `aud` if that is an array. A
/// protected header has the bytes as they were received.
///
/// A layer is opened if `opened` names its form and the bytes that were written for it when it
/// waited. These are the structure, and the signature, MAC or ciphertext. Any other layer waits.
/// The error then has its view, and `out` begins with five texts, one after another:
/// - the structure,
/// - the signature, the MAC or the ciphertext,
/// - the key identifier,
/// - the initialization vector,
/// - the partial initialization vector.
///
/// The last three are from the protected header, else from the unprotected one. The caller verifies
/// the signature or the MAC over the structure, or decrypts the ciphertext with the structure as
/// additional authenticated data. The caller uses a key that it trusts, adds the layer to `opened`
/// with the name of the key's issuer, and calls again.
///
/// # Errors
/// - `Misuse` if the rules have no meaning, or the name of an issuer isn't UTF-8.
/// - `Token` with the first reason against the token, in the order of [`TokenError`]. `Keys` is the
///   layer that waits. If the keys failed to allocate, the reason is `Message` of the layer.
/// - `Answer` with `Short` if the token or the texts of a layer don't fit.
/// - `Answer` with `Cose` if an allocation fails while the token is written, or if it has no
///   encoding.
///
/// Except for `Keys`, `out` is then unchanged.
pub fn open_token(
    alloc: Global,
    rules: &Rules<'_>,
    opened: &OpenedLayers<'_>,
    token: &[u8],
    now: i64,
    out: &mut [u8],
) -> Result<usize, Refusal>
    ensures { ReturnsToken opened.now.bytes.now opened.now.layers.now
        (policy_in (rules_view rules.now)) token.now now out.old out.new result }
{
    if !rules.has_meaning() || !opened.have_texts() {
        return Err(Refusal::Misuse);
    }
    let verified = rules.verify(alloc, opened, token, now);
    answer(alloc, verified, out)
}
