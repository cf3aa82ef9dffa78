//! The structure that is signed (RFC 8152, section 4.4).

ghost use Rattle.std.specs.Prelude.{◌≡◌, option_map, IfOk, IfErr};
ghost use Rattle.std.specs.Option.{option_copied};
ghost use Rattle.coset_cbor.specs.Shortest.{IsShortest};
ghost use Rattle.coset_codec.specs.declared.error.CoseError.TheVariants.{OutOfMemory};
ghost use Rattle.coset_codec.specs.Results.{Writes};
ghost use Rattle.coset_core.specs.Views.{protected_view};
ghost use Rattle.coset_sign.specs.SignatureStructure.{signature_structure};
ghost use Rattle.coset_sign.specs.Signed.{signed_item};

use coset_codec::Result;
use coset_core::ProtectedHeader;
use coset_core::structure::structure_bytes;
use std::alloc::Global;

/// The context of a signature (RFC 8152, section 4.4). The signed bytes contain it, so the bytes of
/// one context are never those of another.
#[derive(Clone, Copy, Debug, PartialEq, Eq)]
pub enum SignatureContext {
    /// A signature of a `COSE_Sign` message, by one of its signers.
    CoseSignature,
    /// The signature of a `COSE_Sign1` message.
    CoseSign1,
    /// A counter signature of any structure that has a body (section 4.5), or a countersignature of
    /// version 2 over a structure without other fields (RFC 9338, section 3.3).
    CounterSignature,
}

impl SignatureContext {
    ghost use Rattle.coset_sign.specs.SignatureStructure.{context_text};

    /// Returns the text of the context in the structure.
    fn text(self) -> &'static str
        ensures { result.now ≡ context_text self }
    {
        match self {
            SignatureContext::CoseSignature => "Signature",
            SignatureContext::CoseSign1 => "Signature1",
            SignatureContext::CounterSignature => "CounterSignature",
        }
    }
}

/// Encodes the `Sig_structure` of these protected bytes. [`sig_structure_data`] does so for
/// headers.
///
/// `body` and `signer` are the contents of the protected headers. A `COSE_Sign1` message has no
/// `signer`.
///
/// # Errors
/// `OutOfMemory` if an allocation fails.
pub(crate) fn signature_structure_bytes(
    alloc: Global,
    context: SignatureContext,
    body: &[u8],
    signer: Option<&[u8]>,
    external_aad: &[u8],
    payload: &[u8],
) -> Result<Vec<u8>>
    ensures encoding { IfOk result (λ b. IsShortest b.items
        (signature_structure context body.now (option_copied signer.entry) external_aad.now
        payload.now)) }
    ensures memory { IfErr result (λ e. e ≡ OutOfMemory) }
{
    match signer {
        Some(signer) => structure_bytes(
            alloc,
            context.text(),
            &[body, signer, external_aad, payload],
        ),
        None => structure_bytes(alloc, context.text(), &[body, external_aad, payload]),
    }
}

/// Encodes the `Sig_structure` of these headers. Borrows kept bytes, and encodes a header without
/// kept bytes.
///
/// # Errors
/// - `OutOfMemory` if an allocation fails.
/// - `DuplicateMapKey` if a header has no kept bytes and has a label twice in its `rest`. Nested
///   headers count too, except those inside kept bytes.
pub(crate) fn sig_structure_of(
    alloc: Global,
    context: SignatureContext,
    body: &ProtectedHeader,
    signer: Option<&ProtectedHeader>,
    external_aad: &[u8],
    payload: &[u8],
) -> Result<Vec<u8>>
    ensures { Writes (signed_item context (protected_view body.now)
        (option_map (λ s. protected_view s.now) signer.entry) external_aad.now payload.now) (λ b.
        b.items) result }
{
    let body = body.protected_bytes(alloc)?;
    match signer {
        Some(signer) => {
            let signer = signer.protected_bytes(alloc)?;
            signature_structure_bytes(alloc, context, &body, Some(&signer), external_aad, payload)
        }
        None => signature_structure_bytes(alloc, context, &body, None, external_aad, payload),
    }
}

/// Returns the bytes to be signed: the shortest encoding of a `Sig_structure` (RFC 8152,
/// section 4.4).
///
/// ```cddl
/// Sig_structure = [
///     context : "Signature" / "Signature1" / "CounterSignature",
///     body_protected : bstr,
///     ? sign_protected : bstr,
///     external_aad : bstr,
///     payload : bstr
/// ]
/// ```
///
/// `body` is the protected header of the body, and `sign` that of the signer, if there is one. The
/// RFC leaves out `sign` with the context `CoseSign1`, and only there. This isn't checked.
///
/// A header that was read is represented by its kept bytes, even if they are an empty map. An empty
/// header without kept bytes is represented by a byte string of length zero.
///
/// # Errors
/// - `OutOfMemory` if an allocation fails.
/// - `DuplicateMapKey` if a header has no kept bytes and has a label twice in its `rest`. Nested
///   headers count too, except those inside kept bytes.
pub fn sig_structure_data(
    alloc: Global,
    context: SignatureContext,
    body: ProtectedHeader,
    sign: Option<ProtectedHeader>,
    external_aad: &[u8],
    payload: &[u8],
) -> Result<Vec<u8>>
    ensures { Writes (signed_item context (protected_view body) (option_map protected_view sign)
        external_aad.now payload.now) (λ b. b.items) result }
{
    sig_structure_of(alloc, context, &body, sign.as_ref(), external_aad, payload)
}
