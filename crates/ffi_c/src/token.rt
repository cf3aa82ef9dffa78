//! Verifies web tokens: one call for each layer, and one more. Also says which key fits a layer.

ghost use Rattle.std.specs.Prelude.{◌≡◌, MatchOption, option_map, pos};
ghost use Rattle.std.specs.Option.{option_and_then};
ghost use Rattle.ffi_query.specs.Status.{refusal_status};
ghost use Rattle.ffi_query.specs.declared.refusal.Refusal.TheVariants as answers;
ghost use Rattle.ffi_token.specs.Fits.{ReturnsFit};
ghost use Rattle.ffi_token.specs.Rules.{policy_in, rules_view};
ghost use Rattle.ffi_token.specs.Texts.{texts_view};
ghost use Rattle.ffi_token.specs.Tokens.{ReturnsToken};
ghost use Rattle.ffi_c.specs.Replies.{IsMisuse};
ghost use Rattle.ffi_c.specs.Tokens.{RepliesFit, RepliesToken, age_of, are_seconds, authentication_of, claims_number, error_number, fit_length, fit_status, form_of, layer_at, layer_number, layer_of, no_layer, number_or_0, parts_of, rules_in, texts_length, token_length, token_number, token_status, untagged_of, waiting_length};

use crate::lengths::{within, within_layers, within_numbers, within_texts};
use crate::numbers::{COSET_ENCRYPT0, COSET_MAC0, COSET_SIGN1};
use crate::replies::{COSET_ABSENT, COSET_MEMORY, COSET_MISUSE, COSET_OK, misused, status_number};
use crate::sign1::{COSET_NONE, number_of_map};
use coset::CoseError;
use coset::iana::EnumI64;
use cwt_verify::{Authentication, Form, LayerError, TokenError};
use ffi_query::Status;
use ffi_token::{
    LayerView, Opened, OpenedLayers, Parts, Refusal, Text, form_number, key_fits, open_token,
};
use std::alloc::Global;

/// Layers with a signature authenticate.
const COSET_BY_SIGNATURE: u32 = 1;
/// Any layer authenticates.
const COSET_BY_ANY: u32 = 2;

/// The size of the struct of rules in bytes.
const RULES_SIZE: usize = 48;

/// The algorithm of a layer isn't allowed.
const COSET_NOT_ALLOWED: i32 = 16;
/// A critical label isn't understood, or isn't protected.
const COSET_CRITICAL: i32 = 17;
/// A layer waits to be opened.
const COSET_LAYER: i32 = 19;
/// The token has more than four nested layers.
const COSET_TOO_DEEP: i32 = 20;
/// No layer authenticates the sender of the token.
const COSET_UNAUTHENTICATED: i32 = 21;
/// The content of the innermost layer isn't a claims set.
const COSET_NOT_CLAIMS: i32 = 22;
/// The token has no expiration time.
const COSET_NO_EXPIRATION: i32 = 23;
/// The token has expired.
const COSET_EXPIRED: i32 = 24;
/// The token isn't valid yet.
const COSET_NOT_YET_VALID: i32 = 25;
/// The token is issued later than now.
const COSET_ISSUED_LATER: i32 = 26;
/// The token has reached the greatest age, or has no time of issue.
const COSET_TOO_OLD: i32 = 27;
/// The token names another issuer than the one whose key authenticated it.
const COSET_ISSUER: i32 = 28;
/// The token is meant for another audience.
const COSET_AUDIENCE: i32 = 29;
/// A label is in both headers of a layer, or the layer has an IV and a Partial IV.
const COSET_HEADERS: i32 = 30;
/// The innermost layer has another type, or none.
const COSET_TOKEN_TYPE: i32 = 31;
/// A header has claims that aren't in the payload.
const COSET_HEADER_CLAIMS: i32 = 32;
/// A required claim is missing.
const COSET_MISSING: i32 = 33;
/// The key doesn't fit the layer.
const COSET_UNFIT: i32 = 34;

/// A verifier's requirements for a token, besides lists: `coset_rules` of `c/include/coset.h`.
///
/// With zeros in all fields but `size`, the times `exp`, `nbf` and `iat` are checked without
/// leeway, and a token must have `exp`.
#[repr(C)]
#[derive(Clone, Copy)]
pub struct Rules {
    /// The size of this struct. A caller that was compiled for another size is refused.
    pub size: usize,
    /// The number of seconds by which the clocks of issuer and verifier may differ, at most
    /// `INT64_MAX`.
    pub leeway: u64,
    /// The age in seconds since the time of issue at which a token is refused, at most `INT64_MAX`,
    /// or 0 for none.
    pub max_age: u64,
    /// The form of an outermost layer without a tag: 0 or `COSET_SIGN1`, `COSET_MAC0` or
    /// `COSET_ENCRYPT0`.
    pub untagged_form: u32,
    /// The layers that authenticate: 0 for a signature or a MAC, or `COSET_BY_SIGNATURE`,
    /// `COSET_BY_ANY`.
    pub authenticated_by: u32,
    /// Not 0 if the audience isn't checked. No audiences may then be given.
    pub any_audience: u32,
    /// Not 0 if a token may lack an expiration time.
    pub may_not_expire: u32,
    /// Not 0 if a token may be issued later than now.
    pub may_be_issued_later: u32,
}

/// The layer that waits, or the place of the reason against the token: `coset_layer` of
/// `c/include/coset.h`.
#[repr(C)]
#[derive(Clone, Copy)]
pub struct Layer {
    /// `COSET_SIGN1`, `COSET_MAC0` or `COSET_ENCRYPT0`, or 0 if no layer waits.
    pub form: u32,
    /// The header that has the key identifier: `COSET_IN_PROTECTED`, `COSET_IN_UNPROTECTED`, or 0
    /// for none.
    pub key_id_map: u32,
    /// The number of the layer's algorithm, or of the algorithm that isn't allowed. 0 if there is
    /// none.
    pub algorithm: i64,
    /// The number of the required claim that is missing, or 0.
    pub claim: i64,
    /// The index of the layer that waits or is refused, from 0 for the outermost.
    pub index: usize,
    /// The length of the structure.
    pub structure_len: usize,
    /// The length of the signature, the MAC or the ciphertext.
    pub proof_len: usize,
    /// The length of the key identifier.
    pub key_id_len: usize,
    /// The length of the initialization vector.
    pub iv_len: usize,
    /// The length of the partial initialization vector.
    pub partial_iv_len: usize,
}

/// Returns the form of a layer, by its number.
fn form_of(number: u32) -> Option<Form>
    ensures { result ≡ form_of number }
{
    match number {
        COSET_SIGN1 => Some(Form::Sign1),
        COSET_MAC0 => Some(Form::Mac0),
        COSET_ENCRYPT0 => Some(Form::Encrypt0),
        _ => None,
    }
}

/// Returns the form of layers without a tag, by its number. 0 means a message with one signature.
fn untagged_of(number: u32) -> Option<Form>
    ensures { result ≡ untagged_of number }
{
    if number == 0 {
        Some(Form::Sign1)
    } else {
        form_of(number)
    }
}

/// Returns the layers that authenticate, by their number.
fn authentication_of(number: u32) -> Option<Authentication>
    ensures { result ≡ authentication_of number }
{
    match number {
        0 => Some(Authentication::SignatureOrMac),
        COSET_BY_SIGNATURE => Some(Authentication::Signature),
        COSET_BY_ANY => Some(Authentication::AnyLayer),
        _ => None,
    }
}

/// Returns the greatest age, or `None` for 0.
fn age_of(seconds: u64) -> Option<u64>
    ensures { result ≡ age_of seconds }
{
    if seconds == 0 { None } else { Some(seconds) }
}

/// Returns true if the number of seconds is in the range of an `int64_t`. A negative number that
/// was converted isn't.
fn are_seconds(number: u64) -> bool
    ensures { result ≡ are_seconds number }
{
    number < 0x8000_0000_0000_0000
}

/// Returns the rules, if the struct has the right size and its numbers have a meaning.
fn rules_of<'a>(
    rules: &Rules,
    algorithms: &'a [i64],
    critical: &'a [i64],
    required: &'a [i64],
    audiences: &'a [Text<'a>],
    types: &'a [Text<'a>],
) -> Option<ffi_token::Rules<'a>>
    ensures { option_map rules_view result ≡ rules_in rules.now algorithms.now critical.now
        required.now (texts_view audiences.now) (texts_view types.now) }
{
    if rules.size != RULES_SIZE {
        return None;
    }
    if !are_seconds(rules.leeway) || !are_seconds(rules.max_age) {
        return None;
    }
    let numbers = within_numbers(
        within_numbers(Some(()), algorithms, critical),
        required,
        &[],
    );
    within_texts(within_texts(numbers, audiences), types)?;
    let untagged_form = untagged_of(rules.untagged_form)?;
    let authenticated_by = authentication_of(rules.authenticated_by)?;
    Some(ffi_token::Rules {
        algorithms,
        critical,
        required,
        audiences,
        types,
        any_audience: rules.any_audience != 0,
        untagged_form,
        authenticated_by,
        require_exp: rules.may_not_expire == 0,
        refuse_future_iat: rules.may_be_issued_later == 0,
        max_age: age_of(rules.max_age),
        leeway: rules.leeway,
    })
}

/// Returns the number of an error in claims: an allocation failed, or they aren't claims.
fn claims_number(error: CoseError) -> i32
    ensures { result ≡ pos (claims_number (refusal_status (answers.Cose error))) }
{
    match ffi_query::Refusal::Cose(error).status() {
        Status::Memory => COSET_MEMORY,
        _ => COSET_NOT_CLAIMS,
    }
}

/// Returns the number of a reason against a layer.
fn layer_number(error: LayerError<LayerView>) -> i32
    ensures { result ≡ pos (layer_number error) }
{
    match error {
        LayerError::Message(error) => status_number(ffi_query::Refusal::Cose(error).status()),
        LayerError::Headers => COSET_HEADERS,
        LayerError::Algorithm(_) => COSET_NOT_ALLOWED,
        LayerError::Critical => COSET_CRITICAL,
        LayerError::Recipients => COSET_ABSENT,
        LayerError::NoPayload => COSET_ABSENT,
        LayerError::NoSignature => COSET_ABSENT,
        LayerError::TooManySignatures => COSET_NOT_ALLOWED,
        LayerError::Keys { .. } => COSET_LAYER,
    }
}

/// Returns the number of a reason against a token.
fn error_number(error: TokenError<LayerView>) -> i32
    ensures { result ≡ pos (error_number error) }
{
    match error {
        TokenError::Layer(_, error) => layer_number(error),
        TokenError::TooDeep => COSET_TOO_DEEP,
        TokenError::Unauthenticated => COSET_UNAUTHENTICATED,
        TokenError::Type => COSET_TOKEN_TYPE,
        TokenError::Claims(error) => claims_number(error),
        TokenError::HeaderClaims => COSET_HEADER_CLAIMS,
        TokenError::Issuer => COSET_ISSUER,
        TokenError::NoExpiration => COSET_NO_EXPIRATION,
        TokenError::Expired => COSET_EXPIRED,
        TokenError::NotYetValid => COSET_NOT_YET_VALID,
        TokenError::IssuedInFuture => COSET_ISSUED_LATER,
        TokenError::TooOld => COSET_TOO_OLD,
        TokenError::Audience => COSET_AUDIENCE,
        TokenError::Missing(_) => COSET_MISSING,
    }
}

/// Returns the number of a refusal.
fn token_number(refusal: Refusal) -> i32
    ensures { result ≡ pos (token_number refusal) }
{
    match refusal {
        Refusal::Misuse => COSET_MISUSE,
        Refusal::Token(error) => error_number(error),
        Refusal::Answer(refusal) => status_number(refusal.status()),
    }
}

/// Returns the number of an algorithm, or 0 if there is none.
fn number_or_0(algorithm: Option<i64>) -> i64
    ensures { result ≡ number_or_0 algorithm }
{
    match algorithm {
        Some(number) => number,
        None => 0,
    }
}

/// Returns the struct for a reason that needs no number: all zeros.
fn no_layer() -> Layer
    ensures { result ≡ no_layer }
{
    Layer {
        form: 0,
        key_id_map: COSET_NONE,
        algorithm: 0,
        claim: 0,
        index: 0,
        structure_len: 0,
        proof_len: 0,
        key_id_len: 0,
        iv_len: 0,
        partial_iv_len: 0,
    }
}

/// Returns the struct for a reason against the layer at this index, or for a layer that waits.
fn layer_at(index: usize, error: &LayerError<LayerView>) -> Layer
    ensures { result ≡ layer_at index error.now }
{
    match error {
        LayerError::Keys { error: layer, .. } => Layer {
            form: form_number(layer.form),
            key_id_map: number_of_map(layer.key_id_place),
            algorithm: number_or_0(layer.algorithm),
            claim: 0,
            index,
            structure_len: layer.structure_len,
            proof_len: layer.proof_len,
            key_id_len: layer.key_id_len,
            iv_len: layer.iv_len,
            partial_iv_len: layer.partial_iv_len,
        },
        LayerError::Algorithm(number) => Layer {
            index,
            algorithm: number_or_0(*number),
            ..no_layer()
        },
        _ => Layer {
            index,
            ..no_layer()
        },
    }
}

/// Returns the struct for a result: the layer that waits, or the place of the reason.
fn layer_of(answer: &Result<usize, Refusal>) -> Layer
    ensures { result ≡ layer_of answer.now }
{
    match answer {
        Err(Refusal::Token(TokenError::Layer(index, error))) => layer_at(*index, error),
        Err(Refusal::Token(TokenError::Missing(name))) => Layer {
            claim: name.to_i64(),
            ..no_layer()
        },
        _ => no_layer(),
    }
}

/// Returns the length of the texts of a layer that waits. If none waits, it is 0.
fn waiting_length(error: &TokenError<LayerView>) -> usize
    ensures { result ≡ waiting_length error.now }
{
    match error {
        TokenError::Layer(_, error) => texts_length(error),
        _ => 0,
    }
}

/// Returns the length of the texts of this layer, if it waits, or 0.
fn texts_length(error: &LayerError<LayerView>) -> usize
    ensures { result ≡ texts_length error.now }
{
    match error {
        LayerError::Keys { error: view, .. } => view.len,
        _ => 0,
    }
}

/// Returns the length of a result: of the token, of a layer's texts, or the length needed. For any
/// other result it is 0.
fn token_length(answer: &Result<usize, Refusal>) -> usize
    ensures { result ≡ token_length answer.now }
{
    match answer {
        Ok(len) => *len,
        Err(Refusal::Token(error)) => waiting_length(error),
        Err(Refusal::Answer(ffi_query::Refusal::Short(len))) => *len,
        Err(_) => 0,
    }
}

/// Returns the status of a result. Sets `len` to its length, and `layer` to the layer that waits or
/// the place of the reason.
fn reply_token(answer: Result<usize, Refusal>, len: &mut usize, layer: &mut Layer) -> i32
    ensures status { result ≡ token_status answer }
    ensures number { len.new ≡ token_length answer }
    ensures view { layer.new ≡ layer_of answer }
{
    *len = token_length(&answer);
    *layer = layer_of(&answer);
    match answer {
        Ok(_) => COSET_OK,
        Err(refusal) => token_number(refusal),
    }
}

/// Writes a token that is accepted, or the texts of a layer that the caller must open first.
///
/// The token is written as one item in its shortest encoding, once the caller opened each layer. It
/// must meet the rules at `now`. If a layer waits, its five texts are written, one after another.
/// `opened` are the layers that the caller opened, by the places of their bytes in `bytes`.
#[unsafe(no_mangle)]
pub extern "C" fn coset_token_open(
    alloc: Global,
    rules: &Rules,
    algorithms: &[i64],
    critical: &[i64],
    required: &[i64],
    audiences: &[Text<'_>],
    types: &[Text<'_>],
    input: &[u8],
    now: i64,
    opened: &[Opened],
    bytes: &[u8],
    out: &mut [u8],
    len: &mut usize,
    layer: &mut Layer,
) -> i32
    ensures { RepliesToken (ReturnsToken bytes.now opened.now
        (option_and_then policy_in (rules_in rules.now algorithms.now critical.now required.now
        (texts_view audiences.now) (texts_view types.now)))
        input.now now out.old out.new) result len.new layer.new }
{
    let rules = rules_of(rules, algorithms, critical, required, audiences, types);
    match within_layers(within(within(rules, input, out), bytes, &[]), opened) {
        Some(rules) => {
            let opened = OpenedLayers {
                alloc,
                layers: opened,
                bytes,
            };
            let answer = open_token(alloc, &rules, &opened, input, now, out);
            reply_token(answer, len, layer)
        }
        None => reply_token(Err(Refusal::Misuse), len, layer),
    }
}

/// Returns the status of an answer to the question whether a key fits. Sets `len` to the length of
/// the nonce, or to the length needed.
fn reply_fit(answer: Result<Option<usize>, ffi_query::Refusal>, len: &mut usize) -> i32
    ensures status { result ≡ fit_status answer }
    ensures number { len.new ≡ fit_length answer }
{
    *len = match &answer {
        Ok(Some(length)) => *length,
        Err(ffi_query::Refusal::Short(length)) => *length,
        _ => 0,
    };
    match answer {
        Ok(Some(_)) => COSET_OK,
        Ok(None) => COSET_UNFIT,
        Err(refusal) => status_number(refusal.status()),
    }
}

/// Writes the nonce by which a key fits a layer with these parts. It is empty if the algorithm has
/// none.
#[unsafe(no_mangle)]
pub extern "C" fn coset_key_fits(
    alloc: Global,
    key: &[u8],
    form: u32,
    algorithm: i64,
    key_id: &[u8],
    iv: &[u8],
    partial_iv: &[u8],
    proof: &[u8],
    out: &mut [u8],
    len: &mut usize,
) -> i32
    ensures { MatchOption (form_of form) (IsMisuse result len.new 0 × (out.new ≡ out.old))
        (λ f. RepliesFit (ReturnsFit key.now (parts_of f algorithm key_id.now iv.now
        partial_iv.now proof.now) out.old out.new) result len.new) }
{
    let query = within(within(form_of(form), key, key_id), iv, partial_iv);
    match within(query, proof, out) {
        Some(form) => {
            let parts = Parts {
                form,
                algorithm,
                key_id,
                iv,
                partial_iv,
                proof,
            };
            reply_fit(key_fits(alloc, key, &parts, out), len)
        }
        None => misused(0, len),
    }
}
