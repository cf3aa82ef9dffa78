//! The bytes that countersignatures of version 2 sign: the structures with other fields of
//! RFC 9338, section 3.3.

ghost use Rattle.std.specs.Prelude.{◌≡◌, ◌≢◌, [], map, option_map, is_some, IfOk, IfErr, Some, None};
ghost use Rattle.std.specs.Option.{option_copied};
ghost use Rattle.coset_cbor.specs.Shortest.{IsShortest};
ghost use Rattle.coset_codec.specs.declared.error.CoseError.TheVariants.{OutOfMemory};
ghost use Rattle.coset_codec.specs.Results.{Writes};
ghost use Rattle.coset_core.specs.Views.{countersignature_view, protected_view};
ghost use Rattle.coset_core.specs.Calls.{CallsWith};
ghost use Rattle.coset_sign.specs.Countersigned.{countersign_structure, countersign_text, countersigned_item};
ghost use Rattle.coset_sign.specs.SignatureStructure.{signed_parts};
ghost use Rattle.coset_core.specs.Structure.{BeginsStructure};

use coset_cbor::laws::least_encoding_is_shortest;
use coset_codec::write::{Array, Encode};
use coset_codec::{CallError, Result};
use coset_core::calls::call_with;
use coset_core::structure::{begin_structure, max_byte_strings_size};
use coset_core::{CoseCountersignature, ProtectedHeader};
use std::alloc::Global;

/// Encodes the structure up to its other fields, and reserves `more` bytes for those.
///
/// `body` and `signer` are protected bytes. An abbreviated countersignature has no `signer`.
///
/// # Errors
/// `OutOfMemory` if an allocation fails.
fn begin_countersign(
    alloc: Global,
    body: &[u8],
    signer: Option<&[u8]>,
    external_aad: &[u8],
    payload: &[u8],
    more: usize,
) -> Result<Vec<u8>>
    ensures begins { IfOk result (λ b. BeginsStructure b.items
        (countersign_text (is_some (option_copied signer.entry)))
        (signed_parts body.now (option_copied signer.entry) external_aad.now payload.now) 1) }
    ensures memory { IfErr result (λ e. e ≡ OutOfMemory) }
{
    match signer {
        Some(signer) => {
            let parts = [body, signer, external_aad, payload];
            begin_structure(alloc, "CounterSignatureV2", &parts, 1, more)
        }
        None => {
            let parts = [body, external_aad, payload];
            begin_structure(alloc, "CounterSignature0V2", &parts, 1, more)
        }
    }
}

/// Encodes the structure of these protected bytes.
///
/// # Errors
/// `OutOfMemory` if an allocation fails.
fn countersign_bytes(
    alloc: Global,
    body: &[u8],
    signer: Option<&[u8]>,
    external_aad: &[u8],
    payload: &[u8],
    other_fields: &[Vec<u8>],
) -> Result<Vec<u8>>
    ensures encoding { IfOk result (λ b. IsShortest b.items
        (countersign_structure body.now (option_copied signer.entry) external_aad.now payload.now
        (map (λ field. field.items) other_fields.now))) }
    ensures memory { IfErr result (λ e. e ≡ OutOfMemory) }
{
    let more = max_byte_strings_size(other_fields);
    let mut out = begin_countersign(alloc, body, signer, external_aad, payload, more)?;
    Array(other_fields).append(alloc, &mut out)?;
    least_encoding_is_shortest();
    Ok(out)
}

/// Encodes the structure of these protected headers.
///
/// # Errors
/// - `OutOfMemory` if an allocation fails.
/// - `DuplicateMapKey` if a header has no kept bytes and has a label twice in its `rest`. Nested
///   headers count too, except those inside kept bytes.
fn countersigned_bytes(
    alloc: Global,
    body: &ProtectedHeader,
    signer: Option<&ProtectedHeader>,
    external_aad: &[u8],
    payload: &[u8],
    other_fields: &[Vec<u8>],
) -> Result<Vec<u8>>
    requires { other_fields.now ≢ [] }
    ensures { Writes (countersigned_item (protected_view body.now)
        (option_map (λ s. protected_view s.now) signer.entry) external_aad.now payload.now
        (map (λ field. field.items) other_fields.now)) (λ b. b.items) result }
{
    prove!(!other_fields.is_empty());
    let body = body.protected_bytes(alloc)?;
    match signer {
        Some(signer) => {
            let signer = signer.protected_bytes(alloc)?;
            countersign_bytes(
                alloc,
                &body,
                Some(&signer),
                external_aad,
                payload,
                other_fields,
            )
        }
        None => countersign_bytes(alloc, &body, None, external_aad, payload, other_fields),
    }
}

/// Returns the bytes that a countersignature of version 2 signs: the shortest encoding of a
/// `Countersign_structure`.
///
/// ```cddl
/// Countersign_structure = [
///     context : "CounterSignatureV2",
///     body_protected : bstr,
///     sign_protected : bstr,
///     external_aad : bstr,
///     payload : bstr,
///     other_fields : [+ bstr]
/// ]
/// ```
///
/// `body` is the protected header of the body, and `sign` that of the countersignature. A header
/// that was read is represented by its kept bytes.
///
/// `other_fields` are all byte strings of the countersigned structure after the second. There must
/// be at least one (RFC 9338, section 3.3). The function doesn't check that they are all.
///
/// A structure with only two byte strings, such as `COSE_Encrypt0`, has no other fields. Its
/// countersignature signs [`sig_structure_data`](crate::sig_structure_data) with the context
/// `CounterSignature`.
///
/// # Errors
/// - `OutOfMemory` if an allocation fails.
/// - `DuplicateMapKey` if a header has no kept bytes and has a label twice in its `rest`. Nested
///   headers count too, except those inside kept bytes.
pub fn countersign_v2_structure_data(
    alloc: Global,
    body: ProtectedHeader,
    sign: ProtectedHeader,
    external_aad: &[u8],
    payload: &[u8],
    other_fields: &[Vec<u8>],
) -> Result<Vec<u8>>
    requires { other_fields.now ≢ [] }
    ensures { Writes (countersigned_item (protected_view body) (Some (protected_view sign))
        external_aad.now payload.now (map (λ field. field.items) other_fields.now)) (λ b. b.items)
        result }
{
    countersigned_bytes(
        alloc,
        &body,
        Some(&sign),
        external_aad,
        payload,
        other_fields,
    )
}

/// Returns the bytes that an abbreviated countersignature of version 2 signs: the shortest encoding
/// of a `Countersign_structure` without `sign_protected`.
///
/// ```cddl
/// Countersign_structure = [
///     context : "CounterSignature0V2",
///     body_protected : bstr,
///     external_aad : bstr,
///     payload : bstr,
///     other_fields : [+ bstr]
/// ]
/// ```
///
/// The context differs from that of [`countersign_v2_structure_data`], and `other_fields` are the
/// same (RFC 9338, section 3.3). There must be at least one. A structure without other fields has
/// the context `CounterSignature0`, which this function doesn't write.
///
/// # Errors
/// The same as [`countersign_v2_structure_data`].
pub fn countersign0_v2_structure_data(
    alloc: Global,
    body: ProtectedHeader,
    external_aad: &[u8],
    payload: &[u8],
    other_fields: &[Vec<u8>],
) -> Result<Vec<u8>>
    requires { other_fields.now ≢ [] }
    ensures { Writes (countersigned_item (protected_view body) None external_aad.now payload.now
        (map (λ field. field.items) other_fields.now)) (λ b. b.items) result }
{
    countersigned_bytes(alloc, &body, None, external_aad, payload, other_fields)
}

/// Calls `verifier` with the countersignature's bytes and the bytes that it signs
/// ([`countersign_v2_structure_data`]), in this order.
///
/// `other_fields` must not be empty (RFC 9338, section 3.3). The structure includes the
/// countersignature's protected header.
///
/// `verifier` decides whether the countersignature is valid. It is called once, or not at all if
/// the bytes to be signed can't be made.
///
/// # Errors
/// - `Coset` with an error of [`countersign_v2_structure_data`].
/// - `Caller` with the error of `verifier`.
pub fn verify_countersignature<F, E>(
    alloc: Global,
    countersignature: &CoseCountersignature,
    body: ProtectedHeader,
    external_aad: &[u8],
    payload: &[u8],
    other_fields: &[Vec<u8>],
    verifier: F,
) -> Result<(), CallError<E>>
where
    F: FnOnce(&[u8], &[u8]) -> Result<(), E> + Drop,
    E: Drop,
    requires callable { F.IsAlwaysCallable verifier }
    requires some { other_fields.now ≢ [] }
    ensures { CallsWith F.FnOnce verifier (countersignature_view countersignature.now).signature
        (countersigned_item (protected_view body)
        (Some (countersignature_view countersignature.now).protected) external_aad.now payload.now
        (map (λ field. field.items) other_fields.now)) result }
{
    let sign = Some(&countersignature.protected);
    let structure = countersigned_bytes(alloc, &body, sign, external_aad, payload, other_fields);
    call_with(&countersignature.signature, structure, verifier)
}
