//! The structures that countersignatures of messages, signatures and recipients sign (RFC 8152,
//! sections 4.4 and 4.5, and appendix A.2; RFC 9338, section 3.3).

ghost use Rattle.std.specs.Prelude.{◌≡◌, ◌≢◌, [], map, option_map, Some, IfOk, IfErr};
ghost use Rattle.std.specs.Cow.{cow_slice_items};
ghost use Rattle.std.specs.Option.{option_copied};
ghost use Rattle.coset.specs.CoseError.TheVariants.{OutOfMemory};
ghost use Rattle.coset.specs.Countersigned.{countersign_structure};
ghost use Rattle.coset.specs.Headers.{protected_bytes};
ghost use Rattle.coset.specs.Pulls.{pull_item};
ghost use Rattle.coset.specs.Shortest.{IsShortest};
ghost use Rattle.coset.specs.Views.{protected_view};
ghost use Rattle.ffi_query.specs.Results.{ReturnsOr, Finds, IsEncodingOf};
ghost use Rattle.ffi_query.specs.Countersigns.{HasNoCountersigned, IsCountersigned, countersigned, countersigned_by, countersigned_in, countersigned_of, fields_at, other_fields, second_field, second_place, third_place};

use crate::item::{bytes_in, item_of};
use crate::kind::Kind;
use crate::part::Part;
use crate::refusal::Refusal;
use crate::structure::{content_in, is_given_at, three_encoded, two_encoded};
use crate::written::write_found;
use coset::cbor::de::Pull;
use coset::{
    Header, ProtectedHeader, Result, countersign_v2_structure_data, countersign0_v2_structure_data,
};
use std::alloc::Global;
use std::borrow::CowSlice;

/// The type of a countersignature, named by the header label that it is stored under.
#[derive(Clone, Copy, Debug, PartialEq, Eq)]
pub enum Countersignature {
    /// Label 7: `counter signature` (RFC 8152, section 4.5).
    Full,
    /// Label 9: `CounterSignature0`, the same without headers of its own (RFC 8152, appendix A.2).
    Abbreviated,
    /// Label 11: a full countersignature of version 2 (RFC 9338, sections 2 and 3.1).
    FullV2,
    /// Label 12: an abbreviated countersignature of version 2 (RFC 9338, sections 2 and 3.2).
    AbbreviatedV2,
}

/// Returns a protected header that is encoded as these received bytes. Its fields are empty.
fn received(alloc: Global, bytes: Vec<u8>) -> ProtectedHeader
    ensures { protected_bytes (protected_view result) ≡ Some bytes.items }
{
    ProtectedHeader {
        original_data: Some(bytes),
        header: Header::new(alloc),
    }
}

/// Encodes the structure without `other_fields`.
///
/// # Errors
/// `OutOfMemory` if an allocation fails.
fn without_others(
    alloc: Global,
    body: &[u8],
    signer: Option<&[u8]>,
    external_aad: &[u8],
    payload: &[u8],
) -> Result<Vec<u8>>
    ensures shortest { IfOk result (λ b. IsShortest b.items
        (countersigned body.now (option_copied signer.entry) external_aad.now payload.now [])) }
    ensures memory { IfErr result (λ e. e ≡ OutOfMemory) }
{
    match signer {
        Some(signer) => three_encoded(
            alloc,
            "CounterSignature",
            body,
            signer,
            external_aad,
            payload,
        ),
        None => two_encoded(alloc, "CounterSignature0", body, external_aad, payload),
    }
}

/// Encodes the structure with `others` as its `other_fields`. `others` must not be empty.
///
/// # Errors
/// `OutOfMemory` if an allocation fails.
fn with_others(
    alloc: Global,
    body: Vec<u8>,
    signer: Option<&[u8]>,
    external_aad: &[u8],
    payload: &[u8],
    others: &[Vec<u8>],
) -> Result<Vec<u8>>
    requires { others.now ≢ [] }
    ensures shortest { IfOk result (λ b. IsShortest b.items
        (countersign_structure body.items (option_copied signer.entry) external_aad.now payload.now
        (map (λ field. field.items) others.now))) }
    ensures memory { IfErr result (λ e. e ≡ OutOfMemory) }
{
    let body = received(alloc, body);
    match signer {
        Some(signer) => {
            let signer = received(alloc, Vec::from_slice(alloc, signer)?);
            countersign_v2_structure_data(alloc, body, signer, external_aad, payload, others)
        }
        None => countersign0_v2_structure_data(alloc, body, external_aad, payload, others),
    }
}

/// Encodes the structure. `signer` is `None` for an abbreviated countersignature, which has no
/// headers of its own.
///
/// # Errors
/// `OutOfMemory` if an allocation fails.
fn countersigned(
    alloc: Global,
    body: Vec<u8>,
    signer: Option<&[u8]>,
    external_aad: &[u8],
    payload: &[u8],
    others: &[Vec<u8>],
) -> Result<Vec<u8>>
    ensures shortest { IfOk result (λ b. IsShortest b.items
        (countersigned body.items (option_copied signer.entry) external_aad.now payload.now
        (map (λ field. field.items) others.now))) }
    ensures memory { IfErr result (λ e. e ≡ OutOfMemory) }
{
    if others.is_empty() {
        without_others(alloc, &body, signer, external_aad, payload)
    } else {
        with_others(alloc, body, signer, external_aad, payload, others)
    }
}

/// Encodes the structure for this type of countersignature. Returns `None` if an abbreviated one is
/// given a nonempty `signer`.
///
/// # Errors
/// `OutOfMemory` if an allocation fails.
fn countersigned_by(
    alloc: Global,
    countersignature: Countersignature,
    body: Vec<u8>,
    signer: &[u8],
    external_aad: &[u8],
    payload: &[u8],
    others: &[Vec<u8>],
) -> Result<Option<Vec<u8>>>
    ensures found { IfOk result (Finds (λ b. b.items) (IsEncodingOf
        (countersigned_by countersignature body.items signer.now external_aad.now payload.now
        (map (λ field. field.items) others.now)))) }
    ensures memory { IfErr result (λ e. e ≡ OutOfMemory) }
{
    match countersignature {
        Countersignature::Full | Countersignature::FullV2 => {
            let signer = Some(signer);
            Ok(Some(countersigned(alloc, body, signer, external_aad, payload, others)?))
        }
        Countersignature::Abbreviated | Countersignature::AbbreviatedV2 => {
            if !signer.is_empty() {
                return Ok(None);
            }
            Ok(Some(countersigned(alloc, body, None, external_aad, payload, others)?))
        }
    }
}

/// Encodes the structure. Returns `None` if `body`, `payload` or `others` is `None`, or if an
/// abbreviated countersignature is given a nonempty `signer`.
///
/// # Errors
/// `OutOfMemory` if an allocation fails.
fn countersigned_of(
    alloc: Global,
    countersignature: Countersignature,
    signer: &[u8],
    external_aad: &[u8],
    body: Option<Vec<u8>>,
    payload: Option<CowSlice<'_, u8, Global>>,
    others: Option<Vec<Vec<u8>>>,
) -> Result<Option<Vec<u8>>>
    ensures found { IfOk result (Finds (λ b. b.items) (IsEncodingOf
        (countersigned_of countersignature signer.now external_aad.now
        (option_map (λ b. b.items) body) (option_map cow_slice_items payload.entry)
        (option_map (λ fields. map (λ field. field.items) fields.items) others)))) }
    ensures memory { IfErr result (λ e. e ≡ OutOfMemory) }
{
    match body {
        Some(body) => match payload {
            Some(payload) => match others {
                Some(others) => countersigned_by(
                    alloc,
                    countersignature,
                    body,
                    signer,
                    external_aad,
                    &payload,
                    &others,
                ),
                None => Ok(None),
            },
            None => Ok(None),
        },
        None => Ok(None),
    }
}

/// Returns the index of the item's second byte string, or `None` if items of the kind have no
/// headers.
fn second_place(kind: Kind) -> Option<usize>
    ensures { result ≡ second_place kind }
{
    if kind.has_headers() { Some(2) } else { None }
}

/// Returns the index of the byte string after the second, or `None` if there is none.
fn third_place(kind: Kind) -> Option<usize>
    ensures { result ≡ third_place kind }
{
    match kind {
        Kind::Signature => None,
        _ => kind.place_of(Part::Proof),
    }
}

/// Returns the byte string at `place` as a list of one element. Without a `place` the list is
/// empty. Returns `None` if the element isn't a byte string.
///
/// # Errors
/// `OutOfMemory` if an allocation fails.
fn fields_at(alloc: Global, place: Option<usize>, item: Pull<'_>) -> Result<Option<Vec<Vec<u8>>>>
    ensures fields { IfOk result (λ o. option_map
        (λ fields. map (λ field. field.items) fields.items) o
        ≡ fields_at place (pull_item item.entry)) }
    ensures memory { IfErr result (λ e. e ≡ OutOfMemory) }
{
    match place {
        Some(place) => match bytes_in(alloc, item, place)? {
            Some(field) => Ok(Some(Vec::from_array(alloc, [field])?)),
            None => Ok(None),
        },
        None => Ok(Some(Vec::new(alloc))),
    }
}

/// Returns all byte strings after the second if the countersignature is of version 2, else an empty
/// list.
///
/// # Errors
/// `OutOfMemory` if an allocation fails.
fn other_fields(
    alloc: Global,
    countersignature: Countersignature,
    kind: Kind,
    item: Pull<'_>,
) -> Result<Option<Vec<Vec<u8>>>>
    ensures fields { IfOk result (λ o. option_map
        (λ fields. map (λ field. field.items) fields.items) o
        ≡ other_fields countersignature kind (pull_item item.entry)) }
    ensures memory { IfErr result (λ e. e ≡ OutOfMemory) }
{
    match countersignature {
        Countersignature::FullV2 | Countersignature::AbbreviatedV2 => {
            fields_at(alloc, third_place(kind), item)
        }
        Countersignature::Full | Countersignature::Abbreviated => fields_at(alloc, None, item),
    }
}

/// Returns the payload of the structure: the second byte string, or `detached` if that field is
/// `nil`.
///
/// # Errors
/// `OutOfMemory` if an allocation fails.
fn second_field<'a>(
    alloc: Global,
    kind: Kind,
    item: Pull<'_>,
    detached: Option<&'a [u8]>,
) -> Result<Option<CowSlice<'a, u8, Global>>>
    ensures content { IfOk result (λ o. option_map cow_slice_items o
        ≡ second_field kind (option_copied detached.entry) (pull_item item.entry)) }
    ensures memory { IfErr result (λ e. e ≡ OutOfMemory) }
{
    if kind.has_headers() {
        content_in(alloc, item, detached)
    } else {
        Ok(None)
    }
}

/// Encodes the structure that this countersignature of the item signs, or returns `None` if there
/// is none.
///
/// # Errors
/// `OutOfMemory` if an allocation fails.
fn find_countersigned(
    alloc: Global,
    kind: Kind,
    item: Pull<'_>,
    countersignature: Countersignature,
    signer: &[u8],
    external_aad: &[u8],
    detached: Option<&[u8]>,
) -> Result<Option<Vec<u8>>>
    ensures found { IfOk result (Finds (λ b. b.items) (IsEncodingOf
        (countersigned_in kind countersignature signer.now external_aad.now
        (option_copied detached.entry) (pull_item item.entry)))) }
    ensures memory { IfErr result (λ e. e ≡ OutOfMemory) }
{
    let body = bytes_in(alloc, item, 0)?;
    let payload = second_field(alloc, kind, item, detached)?;
    let others = other_fields(alloc, countersignature, kind, item)?;
    countersigned_of(
        alloc,
        countersignature,
        signer,
        external_aad,
        body,
        payload,
        others,
    )
}

/// Writes the structure that a countersignature signs to the front of `out`, and returns its
/// length.
///
/// `bytes` are a message, a signature or a recipient of the kind. The structure is written as the
/// shortest encoding of `Countersign_structure` (RFC 9338, section 3.3). For a counter signature of
/// RFC 8152, the structure is the `Sig_structure` of section 4.4. It has the bytes of the item's
/// protected header as they were received.
///
/// `signer` is the content of the byte string that holds the countersignature's own protected
/// header. It isn't checked that it is one. It is empty for an abbreviated countersignature, which
/// has no such header.
///
/// The structure's payload is the item's payload or ciphertext, or the signature of a
/// [`Kind::Signature`]. If that field is `nil`, `detached` is the payload; else `detached` must be
/// `None`. Version 2 also covers the signature of a [`Kind::Sign1`], and the tag of a
/// [`Kind::Mac0`] or a [`Kind::Mac`].
///
/// # Errors
/// - `Short` with the length needed, if `out` is too small.
/// - `Misuse` if the item carries a payload and `detached` gives another.
/// - `Absent` if items of the kind aren't countersigned, or if an abbreviated countersignature is
///   given a `signer`.
/// - `Absent` if the item carries `nil` and `detached` is `None`.
/// - `Cose` with an error of [`check`](crate::check).
///
/// `out` is then unchanged.
pub fn countersign_structure_of(
    alloc: Global,
    kind: Kind,
    bytes: &[u8],
    countersignature: Countersignature,
    signer: &[u8],
    external_aad: &[u8],
    detached: Option<&[u8]>,
    out: &mut [u8],
) -> Result<usize, Refusal>
    ensures { let d = option_copied detached.entry in ReturnsOr kind bytes.now
        (IsCountersigned kind countersignature signer.now external_aad.now d)
        (HasNoCountersigned kind countersignature signer.now external_aad.now d)
        out.old out.new result }
{
    let item = match item_of(alloc, kind, bytes) {
        Ok(item) => item,
        Err(error) => return Err(Refusal::Cose(error)),
    };
    if is_given_at(second_place(kind), detached, item) {
        return Err(Refusal::Misuse);
    }
    write_found(
        find_countersigned(
            alloc,
            kind,
            item,
            countersignature,
            signer,
            external_aad,
            detached,
        ),
        out,
    )
}
