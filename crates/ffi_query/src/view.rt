//! The view of a message, found by copying its texts.

ghost use Rattle.std.specs.Prelude.{◌≡◌, ◌++◌, IfOk, IfErr, IfSome, List, ℕ, option_map};
ghost use Rattle.std.specs.Option.{option_copied};
ghost use Rattle.coset.specs.CoseError.TheVariants.{OutOfMemory};
ghost use Rattle.coset.specs.Pulls.{pull_item};
ghost use Rattle.coset.specs.View.{value_item};
ghost use Rattle.ffi_query.specs.Results.{ReturnsWith, FindsWith, PutsWith};
ghost use Rattle.ffi_query.specs.Found.{IsFound};
ghost use Rattle.ffi_query.specs.View.{HasAlgorithm, HasNoView, IsAlgorithm, IsContent, IsKeyId, IsMessageView, IsViewOf, bearer, kind_of_bearer, proof_in};

use crate::critical::critical_of;
use crate::found::Found;
use crate::item::{bytes_in, member_at};
use crate::kind::Kind;
use crate::label::{Label, Map, find_string, find_value, number_in};
use crate::part::{Part, content_part, find_part};
use crate::refusal::Refusal;
use crate::structure::{find_structure, is_given_twice};
use crate::written::put;
use coset::Result;
use coset::cbor::de::Pull;
use coset::cbor::value::Value;
use std::alloc::Global;

/// The algorithm that a protected header names: `alg`, label 1 (RFC 8152, section 3.1).
#[derive(Clone, Copy, Debug, PartialEq, Eq)]
pub enum Algorithm {
    /// The header names no algorithm.
    Absent,
    /// The algorithm's number.
    Number(i64),
    /// The header names the algorithm by a text.
    Text,
}

/// The header that has the key identifier: `kid`, label 4 (RFC 8152, section 3.1).
#[derive(Clone, Copy, Debug, PartialEq, Eq)]
pub enum KeyIdPlace {
    /// Neither header.
    Absent,
    /// The protected header. The unprotected header may have an identifier too.
    Protected,
    /// Only the unprotected header, which isn't signed.
    Unprotected,
}

/// The result of [`message_view`](crate::message_view), besides the four texts.
#[derive(Clone, Copy, Debug, PartialEq, Eq)]
pub struct MessageView {
    /// The algorithm that the protected header names. In a message with signers it is the signer's
    /// header.
    pub algorithm: Algorithm,
    /// The header that has the key identifier. In a message with signers it is a header of the
    /// signer.
    pub key_id_place: KeyIdPlace,
    /// Whether a header has `crit`, label 2: labels that must be understood (RFC 8152, section
    /// 3.1). In a message with signers, the headers of the message and of the signer count. Those
    /// of recipients and countersignatures don't.
    pub has_critical: bool,
    /// Whether the caller understands all critical labels, and only protected headers name them.
    /// The header that names a label must also have a parameter under it. True if there are none.
    pub is_understood: bool,
    /// Whether the message is under its tag.
    pub is_tagged: bool,
    /// The length of the structure, which is the first text.
    pub structure_len: usize,
    /// The length of the signature or tag, which is the second text. It is 0 for an encrypted
    /// message.
    pub proof_len: usize,
    /// The length of the carried payload or ciphertext, which is the third text. It is 0 if that is
    /// detached, absent or empty.
    pub content_len: usize,
    /// The length of the key identifier, which is the fourth text. It is 0 if there is none.
    pub key_id_len: usize,
    /// The total length of the four texts.
    pub len: usize,
}

/// A key identifier, and the header that has it.
#[derive(Drop)]
struct KeyId {
    place: KeyIdPlace,
    bytes: Vec<u8>,
}

/// A view, and the four texts one after another.
#[derive(Drop)]
struct Copies {
    view: MessageView,
    text: Vec<u8>,
}

/// Returns the algorithm that this value names.
fn algorithm_of(value: &Value) -> Algorithm
    ensures { IsAlgorithm (value_item value.now) result }
{
    match number_in(value) {
        Some(number) => Algorithm::Number(number),
        None => Algorithm::Text,
    }
}

/// Returns the algorithm that the protected header names.
///
/// # Errors
/// `OutOfMemory` if an allocation fails.
fn find_algorithm(alloc: Global, kind: Kind, item: Pull<'_>) -> Result<Algorithm>
    ensures algorithm { IfOk result (HasAlgorithm kind (pull_item item.entry)) }
    ensures memory { IfErr result (λ e. e ≡ OutOfMemory) }
{
    match find_value(alloc, kind, item, Map::Protected, Label::Number(1))? {
        Some(value) => Ok(algorithm_of(&value)),
        None => Ok(Algorithm::Absent),
    }
}

/// Returns the key identifier, from the protected header if that has one.
///
/// # Errors
/// `OutOfMemory` if an allocation fails.
fn find_key_id(alloc: Global, kind: Kind, item: Pull<'_>) -> Result<KeyId>
    ensures key_id { IfOk result (λ i.
        IsKeyId kind (pull_item item.entry) i.place i.bytes.items) }
    ensures memory { IfErr result (λ e. e ≡ OutOfMemory) }
{
    match find_string(alloc, kind, item, Map::Protected, Label::Number(4))? {
        Some(bytes) => Ok(KeyId {
            place: KeyIdPlace::Protected,
            bytes,
        }),
        None => match find_string(alloc, kind, item, Map::Unprotected, Label::Number(4))? {
            Some(bytes) => Ok(KeyId {
                place: KeyIdPlace::Unprotected,
                bytes,
            }),
            None => Ok(KeyId {
                place: KeyIdPlace::Absent,
                bytes: Vec::new(alloc),
            }),
        },
    }
}

/// Returns the item that names the algorithm and the key: the signer at `index`, or a message
/// without signers itself.
fn bearer(kind: Kind, item: Pull<'_>, index: usize) -> Option<Pull<'_>>
    ensures { option_map pull_item result ≡ bearer kind index (pull_item item.entry) }
{
    match kind {
        Kind::Sign(_) => member_at(kind, item, index),
        _ => Some(item),
    }
}

/// Returns the kind of the item that `bearer` returns.
fn kind_of_bearer(kind: Kind) -> Kind
    ensures { result ≡ kind_of_bearer kind }
{
    match kind {
        Kind::Sign(_) => Kind::Signature,
        _ => kind,
    }
}

/// Returns the signature or the tag, or nothing if items of the kind have neither.
///
/// # Errors
/// `OutOfMemory` if an allocation fails.
fn find_proof(alloc: Global, kind: Kind, item: Pull<'_>) -> Result<Option<Vec<u8>>>
    ensures proof { IfOk result (λ o. option_map (λ b. b.items) o
        ≡ proof_in kind (pull_item item.entry)) }
    ensures memory { IfErr result (λ e. e ≡ OutOfMemory) }
{
    match kind.place_of(Part::Proof) {
        Some(place) => bytes_in(alloc, item, place),
        None => Ok(Some(Vec::new(alloc))),
    }
}

/// Returns the payload or ciphertext that the message carries, or nothing if it is detached.
///
/// # Errors
/// `OutOfMemory` if an allocation fails.
fn find_content(alloc: Global, kind: Kind, item: Pull<'_>) -> Result<Vec<u8>>
    ensures content { IfOk result (λ b. IsContent kind (pull_item item.entry) b.items) }
    ensures memory { IfErr result (λ e. e ≡ OutOfMemory) }
{
    match find_part(alloc, kind, item, content_part(kind))? {
        Some(content) => Ok(content),
        None => Ok(Vec::new(alloc)),
    }
}

/// Joins the four texts.
///
/// # Errors
/// `OutOfMemory` if an allocation fails.
fn joined(
    alloc: Global,
    signed: &[u8],
    proof: &[u8],
    content: &[u8],
    key_id: &[u8],
) -> Result<Vec<u8>>
    ensures text { IfOk result (λ b. b.items
        ≡ signed.now ++ (proof.now ++ (content.now ++ key_id.now))) }
    ensures memory { IfErr result (λ e. e ≡ OutOfMemory) }
{
    let room = signed
        .len()
        .saturating_add(proof.len())
        .saturating_add(content.len())
        .saturating_add(key_id.len());
    let mut text = Vec::with_capacity(alloc, room)?;
    text.extend_from_slice(signed)?;
    text.extend_from_slice(proof)?;
    text.extend_from_slice(content)?;
    text.extend_from_slice(key_id)?;
    Ok(text)
}

/// Returns the view and the texts of an item of this kind. `is_tagged` is copied into the view.
///
/// # Errors
/// `OutOfMemory` if an allocation fails.
fn find_copies(
    alloc: Global,
    kind: Kind,
    item: Pull<'_>,
    index: usize,
    external_aad: &[u8],
    detached: Option<&[u8]>,
    known: &[i64],
    is_tagged: bool,
) -> Result<Option<Copies>>
    ensures copies { IfOk result (FindsWith (λ x. x.view) (λ x. x.text.items) (IsViewOf kind index
        external_aad.now (option_copied detached.entry) known.now (pull_item item.entry))) }
    ensures tag { IfOk result (λ o. IfSome o (λ x. x.view.is_tagged ≡ is_tagged)) }
    ensures memory { IfErr result (λ e. e ≡ OutOfMemory) }
{
    let Some(signed) = find_structure(alloc, kind, item, index, external_aad, detached)? else {
        return Ok(None);
    };
    let Some(bearer) = bearer(kind, item, index) else {
        return Ok(None);
    };
    let named = kind_of_bearer(kind);
    let Some(proof) = find_proof(alloc, named, bearer)? else {
        return Ok(None);
    };
    let content = find_content(alloc, kind, item)?;
    let key_id = find_key_id(alloc, named, bearer)?;
    let text = joined(alloc, &signed, &proof, &content, &key_id.bytes)?;
    let critical = critical_of(alloc, kind, item, bearer, known)?;
    let view = MessageView {
        algorithm: find_algorithm(alloc, named, bearer)?,
        key_id_place: key_id.place,
        has_critical: critical.is_there,
        is_understood: critical.is_understood,
        is_tagged,
        structure_len: signed.len(),
        proof_len: proof.len(),
        content_len: content.len(),
        key_id_len: key_id.bytes.len(),
        len: text.len(),
    };
    Ok(Some(Copies { view, text }))
}

/// Writes the texts to the front of `out`, and returns the view.
///
/// # Errors
/// `Short` with the length needed, if `out` is too small. `out` is then unchanged.
fn put_copies(copies: Copies, out: &mut [u8]) -> Result<MessageView, Refusal>
    ensures { PutsWith copies.view copies.text.items out.old out.new result }
{
    match put(&copies.text, out) {
        Ok(_) => Ok(copies.view),
        Err(refusal) => Err(refusal),
    }
}

/// Does the same as [`message_view`](crate::message_view) for an item that was found, by copying
/// its texts.
///
/// # Errors
/// The errors of [`message_view`](crate::message_view). A `Cose` is then always `OutOfMemory`.
pub(crate) fn view_of(
    alloc: Global,
    kind: Kind,
    found: &Found<'_>,
    index: usize,
    external_aad: &[u8],
    detached: Option<&[u8]>,
    known: &[i64],
    out: &mut [u8],
) -> Result<MessageView, Refusal>
    ensures { (b : List ℕ) → IsFound kind b found.now →
        let d = option_copied detached.entry in
        ReturnsWith kind b (IsMessageView kind index external_aad.now d known.now b)
        (HasNoView kind index external_aad.now d known.now) out.old out.new result }
{
    let item = found.item.item;
    if is_given_twice(kind, detached, item) {
        return Err(Refusal::Misuse);
    }
    let copies = find_copies(
        alloc,
        kind,
        item,
        index,
        external_aad,
        detached,
        known,
        found.is_tagged,
    );
    match copies {
        Ok(Some(copies)) => put_copies(copies, out),
        Ok(None) => Err(Refusal::Absent),
        Err(error) => Err(Refusal::Cose(error)),
    }
}
