//! Messages with any number of signatures (RFC 8152, section 4.1).

ghost use Rattle.std.specs.Prelude.{◌≡◌, ◌<◌, map, length, slice_get, IfOk, IfErr, Option, Some, None};
ghost use Rattle.coset_value.specs.Item.{Item};
ghost use Rattle.coset_codec.specs.declared.error.CoseError.TheVariants.{OutOfMemory};
ghost use Rattle.coset_codec.specs.Results.{Writes};
ghost use Rattle.coset_core.specs.Headers.{SignatureView};
ghost use Rattle.coset_core.specs.Messages.{unread};
ghost use Rattle.coset_core.specs.Views.{header_view, signature_view};
ghost use Rattle.coset_core.specs.Calls.{CallsWith, Creates, TriesToCreate};
ghost use Rattle.coset_sign.specs.Sign.{push_signature, empty_sign, sign, sign_view, signed_with, signer_attached, signer_structure};

use crate::signature::{SignatureContext, sig_structure_of};
use coset_codec::read::{Decode, Decoder, drop_refused};
use coset_codec::util::copy_bstr;
use coset_codec::write::{Array, Encode, encode_four};
use coset_codec::{CallError, Codec, CoseError, Result, TaggedCodec};
use coset_core::calls::{call_with, create_with};
use coset_core::{
    CoseSignature, Header, ProtectedHeader, ProtectedRef, read_signatures, read_with_headers,
};
use std::alloc::{AllocError, Global};
use std::marker::Model;

/// A message with any number of signatures: `COSE_Sign` (RFC 8152, section 4.1).
///
/// ```cddl
/// COSE_Sign = [ Headers, payload : bstr / nil, signatures : [+ COSE_Signature] ]
/// ```
///
/// A message without signatures can be read and written too.
#[derive(Debug, Drop, PartialEq, Eq)]
pub struct CoseSign {
    /// The header that every signature covers.
    pub protected: ProtectedHeader,
    /// The header that no signature covers.
    pub unprotected: Header,
    /// The signed content, or `None` if it is detached.
    pub payload: Option<Vec<u8>>,
    /// The signatures.
    pub signatures: Vec<CoseSignature>,
}

/// The expected item, as the error for a wrong number of elements names it.
const EXPECTED_ARRAY: &str = "array with 4 items";

/// The signatures of a message. An element with a fault is refused as a non-signature.
#[derive(Debug, Drop)]
struct Signatures(Vec<CoseSignature>);

impl Decode for Signatures {
    ghost use Rattle.coset_codec.specs.Shape.{list_of};
    ghost use Rattle.coset_sign.specs.Sign.{masked_signature};
    ghost use Rattle.std.specs.Prelude.{List};

    ghost View = { List SignatureView };

    ghost view = { λ all. map signature_view all.0.items };

    ghost shape = { list_of masked_signature };

    fn decode(alloc: Global, input: &mut Decoder<'_>) -> Result<Signatures> {
        let error_names = ("non-signature", "map for COSE_Signature");
        match read_signatures(alloc, input, error_names) {
            Ok(all) => Ok(Signatures(all)),
            Err(error) => Err(error),
        }
    }
}

impl CoseSign {
    /// Returns an empty message: empty headers, no payload, no signatures. Allocates nothing.
    pub fn new(alloc: Global) -> CoseSign
        ensures { sign_view result ≡ empty_sign }
    {
        CoseSign {
            protected: ProtectedHeader::new(alloc),
            unprotected: Header::new(alloc),
            payload: None,
            signatures: Vec::new(alloc),
        }
    }

    /// Encodes the `Sig_structure` of `signature` over `payload`.
    fn structure(
        &self,
        alloc: Global,
        external_aad: &[u8],
        payload: &[u8],
        signature: &CoseSignature,
    ) -> Result<Vec<u8>>
        ensures { Writes (signer_structure (sign_view self.now) (signature_view signature.now)
            external_aad.now payload.now) (λ b. b.items) result }
    {
        let context = SignatureContext::CoseSignature;
        let signer = Some(&signature.protected);
        sig_structure_of(
            alloc,
            context,
            &self.protected,
            signer,
            external_aad,
            payload,
        )
    }

    /// Returns the bytes that `signature` signs: its encoded `Sig_structure` (RFC 8152,
    /// section 4.4).
    ///
    /// A protected header that was read is represented by its kept bytes. A missing payload counts
    /// as empty.
    ///
    /// # Errors
    /// - `OutOfMemory` if an allocation fails.
    /// - `DuplicateMapKey` if a protected header has no kept bytes and has a label twice in its
    ///   `rest`. Nested headers count too, except those inside kept bytes.
    pub fn tbs_data(
        &self,
        alloc: Global,
        external_aad: &[u8],
        signature: &CoseSignature,
    ) -> Result<Vec<u8>>
        ensures { Writes (signer_attached (sign_view self.now) (signature_view signature.now)
            external_aad.now) (λ b. b.items) result }
    {
        match &self.payload {
            Some(payload) => self.structure(alloc, external_aad, payload, signature),
            None => self.structure(alloc, external_aad, &[], signature),
        }
    }

    /// Returns the bytes that `signature` signs for the detached `payload`. The message itself must
    /// carry no payload.
    ///
    /// # Errors
    /// The same as [`CoseSign::tbs_data`].
    pub fn tbs_detached_data(
        &self,
        alloc: Global,
        payload: &[u8],
        external_aad: &[u8],
        signature: &CoseSignature,
    ) -> Result<Vec<u8>>
        requires { self.now.payload ≡ None }
        ensures { Writes (signer_structure (sign_view self.now) (signature_view signature.now)
            external_aad.now payload.now) (λ b. b.items) result }
    {
        prove!(self.payload.is_none());
        self.structure(alloc, external_aad, payload, signature)
    }

    /// Returns the signature at index `which`.
    fn signature(&self, which: usize) -> &CoseSignature
        requires { which < length self.now.signatures.items }
        ensures { slice_get (sign_view self.now).signatures which
            ≡ Some (signature_view result.now) }
    {
        &self.signatures[which]
    }

    /// Calls `verifier` with the bytes of signature `which` and the bytes that it signs
    /// ([`CoseSign::tbs_data`]), in this order.
    ///
    /// `which` counts from 0, and there must be such a signature. `verifier` decides whether the
    /// signature is valid. It is called once, or not at all if the bytes to be signed can't be
    /// made. A missing payload counts as empty. For a detached payload, call
    /// [`CoseSign::verify_detached_signature`] instead.
    ///
    /// # Errors
    /// - `Coset` with an error of [`CoseSign::tbs_data`].
    /// - `Caller` with the error of `verifier`.
    pub fn verify_signature<F, E>(
        &self,
        alloc: Global,
        which: usize,
        external_aad: &[u8],
        verifier: F,
    ) -> Result<(), CallError<E>>
    where
        F: FnOnce(&[u8], &[u8]) -> Result<(), E> + Drop,
        E: Drop,
        requires callable { F.IsAlwaysCallable verifier }
        requires there { which < length self.now.signatures.items }
        ensures { (s : SignatureView) → slice_get (sign_view self.now).signatures which ≡ Some s
            → CallsWith F.FnOnce verifier s.signature
            (signer_attached (sign_view self.now) s external_aad.now) result }
    {
        let signature = self.signature(which);
        let structure = self.tbs_data(alloc, external_aad, signature);
        call_with(&signature.signature, structure, verifier)
    }

    /// Does the same as [`CoseSign::verify_signature`] for a detached payload. The message itself
    /// must carry no payload.
    ///
    /// # Errors
    /// The same as [`CoseSign::verify_signature`].
    pub fn verify_detached_signature<F, E>(
        &self,
        alloc: Global,
        which: usize,
        payload: &[u8],
        external_aad: &[u8],
        verifier: F,
    ) -> Result<(), CallError<E>>
    where
        F: FnOnce(&[u8], &[u8]) -> Result<(), E> + Drop,
        E: Drop,
        requires callable { F.IsAlwaysCallable verifier }
        requires there { which < length self.now.signatures.items }
        requires detached { self.now.payload ≡ None }
        ensures { (s : SignatureView) → slice_get (sign_view self.now).signatures which ≡ Some s
            → CallsWith F.FnOnce verifier s.signature
            (signer_structure (sign_view self.now) s external_aad.now payload.now) result }
    {
        let signature = self.signature(which);
        let structure = self.tbs_detached_data(alloc, payload, external_aad, signature);
        call_with(&signature.signature, structure, verifier)
    }

    /// Returns a message equal to this one, kept bytes included.
    ///
    /// # Errors
    /// `OutOfMemory` if an allocation fails.
    pub fn clone(&self) -> Result<CoseSign>
        ensures copy { IfOk result (λ m. sign_view m ≡ sign_view self.now) }
        ensures memory { IfErr result (λ e. e ≡ OutOfMemory) }
    {
        Ok(Clone::clone(self)?)
    }
}

/// The same as [`CoseSign::clone`], for generic code.
impl Clone for CoseSign {
    ghost is_clone = { λ message copy. sign_view copy ≡ sign_view message };

    fn clone(&self) -> Result<CoseSign, AllocError> {
        Ok(CoseSign {
            protected: Clone::clone(&self.protected)?,
            unprotected: Clone::clone(&self.unprotected)?,
            payload: copy_bstr(&self.payload)?,
            signatures: copy_signatures(&self.signatures)?,
        })
    }
}

/// Copies the signatures, kept bytes included.
fn copy_signatures(all: &Vec<CoseSignature>) -> Result<Vec<CoseSignature>, AllocError>
    ensures { IfOk result (λ c. map signature_view c.items ≡ map signature_view all.now.items) }
{
    Ok(Clone::clone(all)?)
}

impl Codec for CoseSign {
    ghost use Rattle.coset_sign.specs.Same.{sign_decides};
    ghost use Rattle.coset_codec.specs.EqDecides.{bstr_decides, lists_decides};
    ghost use Rattle.coset_core.specs.EqDecides.{header_decides, protected_decides, signature_decides};
    ghost use Rattle.coset_sign.specs.Sign.{SignView, sign_laws};

    ghost View = { SignView };

    ghost view = { sign_view };

    ghost shape = { sign };

    ghost laws = { sign_laws };

    ghost equal = { λ a b. sign_decides (protected_decides a.protected b.protected)
        (header_decides a.unprotected b.unprotected)
        (bstr_decides a.payload b.payload)
        (lists_decides signature_view _ signature_decides a.signatures.items b.signatures.items) };

    fn read(alloc: Global, input: &mut Decoder<'_>) -> Result<CoseSign> {
        let mut message = CoseSign::new(alloc);
        match read_with_headers(
            &mut message.protected,
            &mut message.unprotected,
            alloc,
            input,
            EXPECTED_ARRAY,
        ) {
            Ok((payload, (Signatures(signatures), ()))) => {
                message.payload = payload;
                message.signatures = signatures;
            }
            Err(error) => {
                drop_refused(message);
                return Err(error);
            }
        }
        Ok(message)
    }

    fn size_hint(&self) -> usize {
        ProtectedRef(&self.protected)
            .encoded_size_hint()
            .saturating_add(self.unprotected.encoded_size_hint())
            .saturating_add(self.payload.encoded_size_hint())
            .saturating_add(Array(&self.signatures).encoded_size_hint())
    }

    fn write(&self, alloc: Global, out: &mut Vec<u8>) -> Result<()> {
        encode_four(
            alloc,
            &ProtectedRef(&self.protected),
            &self.unprotected,
            &self.payload,
            &Array(&self.signatures),
            out,
        )
    }
}

impl TaggedCodec for CoseSign {
    ghost TAG_NUMBER = { 98 };

    const TAG_NUMBER: u64 = 98;
}

/// Returns the signature with these bytes and the same headers.
fn signed_with(mut signature: CoseSignature, bytes: Vec<u8>) -> CoseSignature
    ensures { signature_view result ≡ signed_with bytes.items (signature_view signature) }
{
    signature.signature = bytes;
    signature
}

/// Builds a [`CoseSign`] field by field. Contracts see the builder as the message that
/// [`build`](CoseSignBuilder::build) returns.
#[derive(Debug, Drop)]
pub struct CoseSignBuilder(CoseSign);

impl Model for CoseSignBuilder {
    ghost use Rattle.std.specs.Coded.{codes};
    ghost use Rattle.coset_sign.specs.contracts.sign.CoseSign as contracts;
    ghost use Rattle.coset_sign.specs.declared.sign.CoseSign.{CoseSign};

    ghost Value = { CoseSign };

    ghost coded = { Prim.hlevel (codes, contracts.the_row.coded) };

    ghost view = { λ b. b.0 };

    ghost inverse = { λ v. record { 0 = v } };
}

impl CoseSignBuilder {
    /// Returns a builder of an empty message. Allocates nothing.
    pub fn new(alloc: Global) -> CoseSignBuilder
        ensures { sign_view result ≡ empty_sign }
    {
        CoseSignBuilder(CoseSign::new(alloc))
    }

    /// Returns the finished message.
    pub fn build(self) -> CoseSign
        ensures { result ≡ self }
    {
        self.0
    }

    /// Sets the protected header. It counts as not read, so it has no kept bytes.
    pub fn protected(mut self, header: Header) -> CoseSignBuilder
        ensures { sign_view result ≡ record
            (sign_view self) { protected = unread (header_view header) } }
    {
        self.0.protected = ProtectedHeader {
            original_data: None,
            header,
        };
        self
    }

    /// Sets the unprotected header.
    pub fn unprotected(mut self, header: Header) -> CoseSignBuilder
        ensures { sign_view result ≡ record
            (sign_view self) { unprotected = header_view header } }
    {
        self.0.unprotected = header;
        self
    }

    /// Sets the payload.
    pub fn payload(mut self, payload: Vec<u8>) -> CoseSignBuilder
        ensures { sign_view result ≡ record (sign_view self) { payload = Some payload.items } }
    {
        self.0.payload = Some(payload);
        self
    }

    /// Calls [`payload`](CoseSignBuilder::payload) with a copy of these bytes.
    ///
    /// # Errors
    /// `OutOfMemory` if an allocation fails.
    pub fn payload_from(self, alloc: Global, payload: &[u8]) -> Result<CoseSignBuilder>
        ensures ok { IfOk result (λ b. sign_view b
            ≡ record (sign_view self) { payload = Some payload.now }) }
        ensures memory { IfErr result (λ e. e ≡ OutOfMemory) }
    {
        Ok(self.payload(Vec::from_slice(alloc, payload)?))
    }

    /// Appends a finished signature.
    ///
    /// # Errors
    /// `OutOfMemory` if an allocation fails.
    pub fn add_signature(mut self, signature: CoseSignature) -> Result<CoseSignBuilder>
        ensures ok { IfOk result (λ b. sign_view b
            ≡ push_signature (signature_view signature) (sign_view self)) }
        ensures memory { IfErr result (λ e. e ≡ OutOfMemory) }
    {
        self.0.signatures.push(signature)?;
        Ok(self)
    }

    /// Appends `signature` with the bytes that `signer` returns for `structure`. Reserves the room
    /// before it calls `signer`.
    ///
    /// # Errors
    /// - The error in `structure`.
    /// - `OutOfMemory` if an allocation fails.
    fn add_signed<F>(
        mut self,
        signature: CoseSignature,
        structure: Result<Vec<u8>>,
        signer: F,
    ) -> Result<CoseSignBuilder>
    where
        F: FnOnce(&[u8]) -> Vec<u8> + Drop,
        requires { F.IsAlwaysCallable signer }
        ensures { (o : Option Item) → Writes o (λ b. b.items) structure
            → Creates F.FnOnce signer o (λ s b. sign_view b ≡ push_signature
            (signed_with s.items (signature_view signature)) (sign_view self)) result }
    {
        let structure = structure?;
        self.0.signatures.reserve(1)?;
        let signed = signed_with(signature, signer(&structure));
        self.0.signatures.push_reserved(signed);
        Ok(self)
    }

    /// Does the same as `add_signed` with a `signer` that may fail.
    ///
    /// # Errors
    /// - `Coset` with an error of `add_signed`.
    /// - `Caller` with the error of `signer`.
    fn try_add_signed<F, E>(
        mut self,
        signature: CoseSignature,
        structure: Result<Vec<u8>>,
        signer: F,
    ) -> Result<CoseSignBuilder, CallError<E>>
    where
        F: FnOnce(&[u8]) -> Result<Vec<u8>, E> + Drop,
        E: Drop,
        requires { F.IsAlwaysCallable signer }
        ensures { (o : Option Item) → Writes o (λ b. b.items) structure
            → TriesToCreate F.FnOnce signer o (λ s b. sign_view b ≡ push_signature
            (signed_with s.items (signature_view signature)) (sign_view self)) result }
    {
        let structure = match structure {
            Ok(structure) => structure,
            Err(error) => return Err(CallError::Coset(error)),
        };
        if self.0.signatures.reserve(1).is_err() {
            return Err(CallError::Coset(CoseError::OutOfMemory));
        }
        let signed = signed_with(signature, create_with(Ok(structure), signer)?);
        self.0.signatures.push_reserved(signed);
        Ok(self)
    }

    /// Calls `signer` with the bytes that `signature` is to sign ([`CoseSign::tbs_data`]), and
    /// appends `signature` with the result of `signer`.
    ///
    /// Set the headers of `signature` and the message's other fields before this call. A missing
    /// payload counts as empty. `signer` is called once, or not at all if an error of this library
    /// comes first.
    ///
    /// # Errors
    /// The same as [`CoseSign::tbs_data`].
    pub fn add_created_signature<F>(
        self,
        alloc: Global,
        signature: CoseSignature,
        external_aad: &[u8],
        signer: F,
    ) -> Result<CoseSignBuilder>
    where
        F: FnOnce(&[u8]) -> Vec<u8> + Drop,
        requires { F.IsAlwaysCallable signer }
        ensures { Creates F.FnOnce signer (signer_attached (sign_view self)
            (signature_view signature) external_aad.now) (λ s b. sign_view b ≡ push_signature
            (signed_with s.items (signature_view signature)) (sign_view self)) result }
    {
        let structure = self.0.tbs_data(alloc, external_aad, &signature);
        self.add_signed(signature, structure, signer)
    }

    /// Does the same as [`CoseSignBuilder::add_created_signature`] for a detached payload. The
    /// message itself must carry no payload.
    ///
    /// # Errors
    /// The same as [`CoseSign::tbs_data`].
    pub fn add_detached_signature<F>(
        self,
        alloc: Global,
        signature: CoseSignature,
        payload: &[u8],
        external_aad: &[u8],
        signer: F,
    ) -> Result<CoseSignBuilder>
    where
        F: FnOnce(&[u8]) -> Vec<u8> + Drop,
        requires callable { F.IsAlwaysCallable signer }
        requires detached { self.payload ≡ None }
        ensures { Creates F.FnOnce signer (signer_structure (sign_view self)
            (signature_view signature) external_aad.now payload.now) (λ s b. sign_view b
            ≡ push_signature (signed_with s.items (signature_view signature)) (sign_view self))
            result }
    {
        let structure = self
            .0
            .tbs_detached_data(alloc, payload, external_aad, &signature);
        self.add_signed(signature, structure, signer)
    }

    /// Does the same as [`CoseSignBuilder::add_created_signature`] with a `signer` that may fail.
    ///
    /// # Errors
    /// - `Coset` with an error of [`CoseSign::tbs_data`].
    /// - `Caller` with the error of `signer`.
    pub fn try_add_created_signature<F, E>(
        self,
        alloc: Global,
        signature: CoseSignature,
        external_aad: &[u8],
        signer: F,
    ) -> Result<CoseSignBuilder, CallError<E>>
    where
        F: FnOnce(&[u8]) -> Result<Vec<u8>, E> + Drop,
        E: Drop,
        requires { F.IsAlwaysCallable signer }
        ensures { TriesToCreate F.FnOnce signer (signer_attached (sign_view self)
            (signature_view signature) external_aad.now) (λ s b. sign_view b ≡ push_signature
            (signed_with s.items (signature_view signature)) (sign_view self)) result }
    {
        let structure = self.0.tbs_data(alloc, external_aad, &signature);
        self.try_add_signed(signature, structure, signer)
    }

    /// Does the same as [`CoseSignBuilder::add_detached_signature`] with a `signer` that may fail.
    ///
    /// # Errors
    /// - `Coset` with an error of [`CoseSign::tbs_data`].
    /// - `Caller` with the error of `signer`.
    pub fn try_add_detached_signature<F, E>(
        self,
        alloc: Global,
        signature: CoseSignature,
        payload: &[u8],
        external_aad: &[u8],
        signer: F,
    ) -> Result<CoseSignBuilder, CallError<E>>
    where
        F: FnOnce(&[u8]) -> Result<Vec<u8>, E> + Drop,
        E: Drop,
        requires callable { F.IsAlwaysCallable signer }
        requires detached { self.payload ≡ None }
        ensures { TriesToCreate F.FnOnce signer (signer_structure (sign_view self)
            (signature_view signature) external_aad.now payload.now) (λ s b. sign_view b
            ≡ push_signature (signed_with s.items (signature_view signature)) (sign_view self))
            result }
    {
        let structure = self
            .0
            .tbs_detached_data(alloc, payload, external_aad, &signature);
        self.try_add_signed(signature, structure, signer)
    }
}
