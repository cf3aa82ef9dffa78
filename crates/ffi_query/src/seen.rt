//! Messages without a list of signatures, found in one walk (`coset_seen`).

ghost use Rattle.std.specs.Option.{option_copied};
ghost use Rattle.std.specs.Prelude.{◌≡◌, [], IfErr, IfOk, IfSome, IsTrue, true};
ghost use Rattle.coset.specs.CoseError.TheVariants.{OutOfMemory};
ghost use Rattle.ffi_query.specs.Borrowed.{AreTexts};
ghost use Rattle.ffi_query.specs.Kinds.{IsOf};
ghost use Rattle.ffi_query.specs.Located.{IsTextIn};
ghost use Rattle.ffi_query.specs.declared.kind.Kind.{Kind};
ghost use Rattle.ffi_query.specs.Seen.{IsAllowed, IsLaidOf, IsSeenOf, algorithm_of, both_given, key_id_bytes, key_id_place, kind_in, or_nothing, seen_item, signed_of};
ghost use Rattle.coset_seen.specs.Seen.{IsPart, bytes_of};

use crate::borrowed::{KeyId, Texts};
use crate::kind::{Form, Kind, check_by_decoding};
use crate::located::{Text, after};
use crate::view::{Algorithm, KeyIdPlace};
use coset::laws::one_item;
use coset::{CoseError, Result};
use coset_seen::{Layout, Part, layout_of};
use std::alloc::Global;

/// Returns the kind of a message without a list of signatures, and its form.
fn kind_in(kind: Kind) -> Option<(coset_seen::Kind, Form)>
    ensures { result ≡ kind_in kind }
{
    match kind {
        Kind::Sign1(form) => Some((coset_seen::Kind::Sign1, form)),
        Kind::Mac0(form) => Some((coset_seen::Kind::Mac0, form)),
        Kind::Encrypt0(form) => Some((coset_seen::Kind::Encrypt0, form)),
        Kind::Mac(form) => Some((coset_seen::Kind::Mac, form)),
        Kind::Encrypt(form) => Some((coset_seen::Kind::Encrypt, form)),
        _ => None,
    }
}

/// Returns true if the form allows a message that is or isn't under its tag, as `is_tagged` says.
#[inline(always)]
pub(crate) fn is_in_form(form: Form, is_tagged: bool) -> bool
    ensures { result ≡ true → IsAllowed form is_tagged }
{
    match form {
        Form::Plain => !is_tagged,
        Form::Tagged => is_tagged,
        Form::Either => true,
    }
}

/// Returns the message of this kind that the bytes may encode. Its headers and its recipients may
/// be invalid.
#[inline(always)]
pub(crate) fn laid_of(kind: Kind, bytes: &[u8]) -> Option<Layout<'_>>
    ensures { IfSome result (IsLaidOf kind bytes.now) }
{
    let (seen_kind, form) = kind_in(kind)?;
    let layout = layout_of(seen_kind, bytes)?;
    if !is_in_form(form, layout.seen.is_tagged) {
        return None;
    }
    Some(layout)
}

/// Returns true if the bytes are a message of this kind, without a list of signatures or
/// recipients, and its strings have definite lengths. Only headers that aren't plain are decoded.
/// False may also mean that an allocation failed.
pub(crate) fn is_message(alloc: Global, kind: Kind, bytes: &[u8]) -> bool
    ensures { IsTrue result → IsOf kind bytes.now }
{
    match kind {
        Kind::Mac(_) | Kind::Encrypt(_) => return false,
        _ => {}
    }
    match laid_of(kind, bytes) {
        Some(layout) => match layout.is_valid(alloc) {
            Ok(is_valid) => is_valid,
            Err(_) => false,
        },
        None => false,
    }
}

/// Returns true if the bytes can be decoded as this kind.
///
/// # Errors
/// `OutOfMemory` if an allocation fails.
fn is_decoded(alloc: Global, kind: Kind, bytes: &[u8]) -> Result<bool>
    ensures valid { IfOk result (λ t. IsTrue t → IsOf kind bytes.now) }
    ensures memory { IfErr result (λ e. e ≡ OutOfMemory) }
{
    match check_by_decoding(alloc, kind, bytes) {
        Ok(_) => Ok(true),
        Err(CoseError::OutOfMemory) => Err(CoseError::OutOfMemory),
        Err(_) => Ok(false),
    }
}

/// Returns true if the laid out message is valid and has no `crit`. A message with recipients is
/// decoded.
///
/// # Errors
/// `OutOfMemory` if an allocation fails.
pub(crate) fn can_borrow(
    alloc: Global,
    kind: Kind,
    layout: &Layout<'_>,
    bytes: &[u8],
) -> Result<bool>
    ensures valid { IsLaidOf kind bytes.now layout.now → IfOk result (λ t. IsTrue t
        → IsSeenOf kind bytes.now layout.now) }
    ensures memory { IfErr result (λ e. e ≡ OutOfMemory) }
{
    if layout.is_critical {
        return Ok(false);
    }
    match kind {
        Kind::Mac(_) | Kind::Encrypt(_) => is_decoded(alloc, kind, bytes),
        _ => layout.is_valid(alloc),
    }
}

/// Returns the part as a text of the input.
fn text_of<'a>(part: Part<'a>, input: &'a [u8]) -> Text<'a>
    ensures bytes { result.bytes.now ≡ part.entry.bytes.now }
    ensures place { IsPart input.now part.entry → IsTextIn input.now result }
{
    Text {
        bytes: part.bytes,
        rest: after(input, part.at),
    }
}

/// Returns the algorithm of this number. If there is none, it is a text or absent.
fn algorithm_of(number: Option<i64>, has_text: bool) -> Algorithm
    ensures { result ≡ algorithm_of number has_text }
{
    match number {
        Some(number) => Algorithm::Number(number),
        None => {
            if has_text {
                return Algorithm::Text;
            }
            Algorithm::Absent
        }
    }
}

/// Returns an empty text at the front of the input.
fn nothing_in(input: &[u8]) -> Text<'_>
    ensures bytes { result.bytes.now ≡ [] }
    ensures place { IsTextIn input.now result }
{
    Text {
        bytes: &[],
        rest: input,
    }
}

/// Returns the key identifier as a text of the input. It is empty if there is none.
fn key_id_of<'a>(found: Option<coset_seen::KeyId<'a>>, input: &'a [u8]) -> KeyId<'a>
    ensures place { result.place ≡ key_id_place found.entry }
    ensures bytes { result.text.bytes.now ≡ key_id_bytes found.entry }
    ensures text { IfSome found.entry (λ i. IsPart input.now i.part)
        → IsTextIn input.now result.text }
{
    match found {
        Some(key_id) => KeyId {
            place: if key_id.is_protected {
                KeyIdPlace::Protected
            } else {
                KeyIdPlace::Unprotected
            },
            text: text_of(key_id.part, input),
        },
        None => KeyId {
            place: KeyIdPlace::Absent,
            text: nothing_in(input),
        },
    }
}

/// Returns the content as a text of the input. It is empty if there is none.
fn content_of<'a>(found: Option<Part<'a>>, input: &'a [u8]) -> Text<'a>
    ensures bytes { result.bytes.now ≡ or_nothing (bytes_of found.entry) }
    ensures text { IfSome found.entry (IsPart input.now) → IsTextIn input.now result }
{
    match found {
        Some(part) => text_of(part, input),
        None => nothing_in(input),
    }
}

/// Returns the content that is signed or authenticated: the carried one, or `detached`. Returns
/// `None` if there are both or neither.
fn signed_of<'a>(found: Option<Part<'a>>, detached: Option<&'a [u8]>) -> Option<&'a [u8]>
    ensures { option_copied result
        ≡ signed_of (bytes_of found.entry) (option_copied detached.entry) }
{
    match (found, detached) {
        (Some(part), None) => Some(part.bytes),
        (None, Some(content)) => Some(content),
        _ => None,
    }
}

/// Returns true if the message carries a content and `detached` gives another.
pub(crate) fn has_both(found: Option<Part<'_>>, detached: Option<&[u8]>) -> bool
    ensures { result ≡ both_given (bytes_of found.entry) (option_copied detached.entry) }
{
    match (found, detached) {
        (Some(_), Some(_)) => true,
        _ => false,
    }
}

/// Returns the texts of a message.
#[inline(always)]
pub(crate) fn texts_of_seen<'a>(
    layout: &Layout<'a>,
    input: &'a [u8],
    detached: Option<&'a [u8]>,
) -> Texts<'a>
    ensures texts { (k : Kind) (h : IsSeenOf k input.now layout.now)
        → AreTexts k (option_copied detached.entry) input.now (seen_item h) result }
    ensures protected { result.protected.now ≡ layout.now.seen.protected.bytes.now }
    ensures signed { option_copied result.signed
        ≡ signed_of (bytes_of layout.now.seen.content) (option_copied detached.entry) }
{
    one_item();
    Texts {
        protected: layout.seen.protected.bytes,
        algorithm: algorithm_of(layout.seen.algorithm, layout.has_text),
        proof: text_of(layout.seen.proof, input),
        content: content_of(layout.seen.content, input),
        key_id: key_id_of(layout.seen.key_id, input),
        signed: signed_of(layout.seen.content, detached),
    }
}
