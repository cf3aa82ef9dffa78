//! Messages with one signature (RFC 8152, section 4.2).

ghost use Rattle.std.specs.Prelude.{◌≡◌, IfOk, IfErr, Some, None};
ghost use Rattle.coset_codec.specs.declared.error.CoseError.TheVariants.{OutOfMemory};
ghost use Rattle.coset_codec.specs.Results.{Writes};
ghost use Rattle.coset_core.specs.Messages.{unread};
ghost use Rattle.coset_core.specs.Views.{header_view};
ghost use Rattle.coset_core.specs.Calls.{CallsWith, Creates, TriesToCreate};
ghost use Rattle.coset_sign.specs.Sign1.{empty_sign1, sign1, sign1_view, sign1_attached, sign1_structure, with_signature};

use crate::signature::{SignatureContext, sig_structure_of};
use coset_codec::read::{Decoder, drop_refused};
use coset_codec::util::copy_bstr;
use coset_codec::write::{Encode, encode_four};
use coset_codec::{CallError, Codec, Result, TaggedCodec};
use coset_core::calls::{call_with, create_with};
use coset_core::{Header, ProtectedHeader, ProtectedRef, read_with_headers};
use std::alloc::{AllocError, Global};
use std::marker::Model;

/// A message with one signature: `COSE_Sign1` (RFC 8152, section 4.2).
///
/// ```cddl
/// COSE_Sign1 = [ Headers, payload : bstr / nil, signature : bstr ]
/// ```
#[derive(Debug, Drop, PartialEq, Eq)]
pub struct CoseSign1 {
    /// The header that the signature covers.
    pub protected: ProtectedHeader,
    /// The header that the signature doesn't cover.
    pub unprotected: Header,
    /// The signed content, or `None` if it is detached.
    pub payload: Option<Vec<u8>>,
    /// The signature.
    pub signature: Vec<u8>,
}

/// The expected item, as the error for a wrong number of elements names it.
const EXPECTED_ARRAY: &str = "array with 4 items";

impl CoseSign1 {
    /// Returns an empty message: empty headers, no payload, an empty signature. Allocates nothing.
    pub fn new(alloc: Global) -> CoseSign1
        ensures { sign1_view result ≡ empty_sign1 }
    {
        CoseSign1 {
            protected: ProtectedHeader::new(alloc),
            unprotected: Header::new(alloc),
            payload: None,
            signature: Vec::new(alloc),
        }
    }

    /// Encodes the `Sig_structure` over `payload`.
    fn structure(&self, alloc: Global, external_aad: &[u8], payload: &[u8]) -> Result<Vec<u8>>
        ensures { Writes (sign1_structure (sign1_view self.now) external_aad.now payload.now) (λ b.
            b.items) result }
    {
        let context = SignatureContext::CoseSign1;
        sig_structure_of(alloc, context, &self.protected, None, external_aad, payload)
    }

    /// Returns the bytes to be signed: the encoded `Sig_structure` (RFC 8152, section 4.4).
    ///
    /// A protected header that was read is represented by its kept bytes. A missing payload counts
    /// as empty.
    ///
    /// # Errors
    /// - `OutOfMemory` if an allocation fails.
    /// - `DuplicateMapKey` if the protected header has no kept bytes and has a label twice in its
    ///   `rest`. Nested headers count too, except those inside kept bytes.
    pub fn tbs_data(&self, alloc: Global, external_aad: &[u8]) -> Result<Vec<u8>>
        ensures { Writes (sign1_attached (sign1_view self.now) external_aad.now) (λ b. b.items)
            result }
    {
        match &self.payload {
            Some(payload) => self.structure(alloc, external_aad, payload),
            None => self.structure(alloc, external_aad, &[]),
        }
    }

    /// Returns the bytes to be signed for the detached `payload`. The message itself must carry no
    /// payload.
    ///
    /// # Errors
    /// The same as [`CoseSign1::tbs_data`].
    pub fn tbs_detached_data(
        &self,
        alloc: Global,
        payload: &[u8],
        external_aad: &[u8],
    ) -> Result<Vec<u8>>
        requires { self.now.payload ≡ None }
        ensures { Writes (sign1_structure (sign1_view self.now) external_aad.now payload.now) (λ b.
            b.items) result }
    {
        prove!(self.payload.is_none());
        self.structure(alloc, external_aad, payload)
    }

    /// Calls `verifier` with the signature and the bytes to be signed ([`CoseSign1::tbs_data`]), in
    /// this order.
    ///
    /// `verifier` decides whether the signature is valid. It is called once, or not at all if the
    /// bytes can't be made. A missing payload counts as empty. For a detached payload, call
    /// [`CoseSign1::verify_detached_signature`] instead.
    ///
    /// # Errors
    /// - `Coset` with an error of [`CoseSign1::tbs_data`].
    /// - `Caller` with the error of `verifier`.
    pub fn verify_signature<F, E>(
        &self,
        alloc: Global,
        external_aad: &[u8],
        verifier: F,
    ) -> Result<(), CallError<E>>
    where
        F: FnOnce(&[u8], &[u8]) -> Result<(), E> + Drop,
        E: Drop,
        requires { F.IsAlwaysCallable verifier }
        ensures { CallsWith F.FnOnce verifier (sign1_view self.now).signature
            (sign1_attached (sign1_view self.now) external_aad.now) result }
    {
        let structure = self.tbs_data(alloc, external_aad);
        call_with(&self.signature, structure, verifier)
    }

    /// Does the same as [`CoseSign1::verify_signature`] for a detached payload. The message itself
    /// must carry no payload.
    ///
    /// # Errors
    /// The same as [`CoseSign1::verify_signature`].
    pub fn verify_detached_signature<F, E>(
        &self,
        alloc: Global,
        payload: &[u8],
        external_aad: &[u8],
        verifier: F,
    ) -> Result<(), CallError<E>>
    where
        F: FnOnce(&[u8], &[u8]) -> Result<(), E> + Drop,
        E: Drop,
        requires callable { F.IsAlwaysCallable verifier }
        requires detached { self.now.payload ≡ None }
        ensures { CallsWith F.FnOnce verifier (sign1_view self.now).signature
            (sign1_structure (sign1_view self.now) external_aad.now payload.now) result }
    {
        let structure = self.tbs_detached_data(alloc, payload, external_aad);
        call_with(&self.signature, structure, verifier)
    }

    /// Returns a message equal to this one, kept bytes included.
    ///
    /// # Errors
    /// `OutOfMemory` if an allocation fails.
    pub fn clone(&self) -> Result<CoseSign1>
        ensures copy { IfOk result (λ m. sign1_view m ≡ sign1_view self.now) }
        ensures memory { IfErr result (λ e. e ≡ OutOfMemory) }
    {
        Ok(Clone::clone(self)?)
    }
}

/// The same as [`CoseSign1::clone`], for generic code.
impl Clone for CoseSign1 {
    ghost is_clone = { λ message copy. sign1_view copy ≡ sign1_view message };

    fn clone(&self) -> Result<CoseSign1, AllocError> {
        Ok(CoseSign1 {
            protected: Clone::clone(&self.protected)?,
            unprotected: Clone::clone(&self.unprotected)?,
            payload: copy_bstr(&self.payload)?,
            signature: Vec::from_slice(*self.signature.allocator(), &self.signature)?,
        })
    }
}

impl Codec for CoseSign1 {
    ghost use Rattle.coset_sign.specs.Same.{sign1_decides};
    ghost use Rattle.coset_codec.specs.EqDecides.{vec_decides, bstr_decides};
    ghost use Rattle.coset_core.specs.EqDecides.{header_decides, protected_decides};
    ghost use Rattle.coset_sign.specs.Sign1.{Sign1View, sign1_laws};

    ghost View = { Sign1View };

    ghost view = { sign1_view };

    ghost shape = { sign1 };

    ghost laws = { sign1_laws };

    ghost equal = { λ a b. sign1_decides (protected_decides a.protected b.protected)
        (header_decides a.unprotected b.unprotected)
        (bstr_decides a.payload b.payload)
        (vec_decides a.signature b.signature) };

    fn read(alloc: Global, input: &mut Decoder<'_>) -> Result<CoseSign1> {
        let mut message = CoseSign1::new(alloc);
        match read_with_headers(
            &mut message.protected,
            &mut message.unprotected,
            alloc,
            input,
            EXPECTED_ARRAY,
        ) {
            Ok((payload, (signature, ()))) => {
                message.payload = payload;
                message.signature = signature;
            }
            Err(error) => {
                drop_refused(message);
                return Err(error);
            }
        }
        Ok(message)
    }

    fn size_hint(&self) -> usize {
        ProtectedRef(&self.protected)
            .encoded_size_hint()
            .saturating_add(self.unprotected.encoded_size_hint())
            .saturating_add(self.payload.encoded_size_hint())
            .saturating_add(self.signature.encoded_size_hint())
    }

    fn write(&self, alloc: Global, out: &mut Vec<u8>) -> Result<()> {
        let protected = ProtectedRef(&self.protected);
        encode_four(
            alloc,
            &protected,
            &self.unprotected,
            &self.payload,
            &self.signature,
            out,
        )
    }
}

impl TaggedCodec for CoseSign1 {
    ghost TAG_NUMBER = { 18 };

    const TAG_NUMBER: u64 = 18;
}

/// Builds a [`CoseSign1`] field by field. Contracts see the builder as the message that
/// [`build`](CoseSign1Builder::build) returns.
#[derive(Debug, Drop)]
pub struct CoseSign1Builder(CoseSign1);

impl Model for CoseSign1Builder {
    ghost use Rattle.std.specs.Coded.{codes};
    ghost use Rattle.coset_sign.specs.contracts.sign1.CoseSign1 as contracts;
    ghost use Rattle.coset_sign.specs.declared.sign1.CoseSign1.{CoseSign1};

    ghost Value = { CoseSign1 };

    ghost coded = { Prim.hlevel (codes, contracts.the_row.coded) };

    ghost view = { λ b. b.0 };

    ghost inverse = { λ v. record { 0 = v } };
}

impl CoseSign1Builder {
    /// Returns a builder of an empty message. Allocates nothing.
    pub fn new(alloc: Global) -> CoseSign1Builder
        ensures { sign1_view result ≡ empty_sign1 }
    {
        CoseSign1Builder(CoseSign1::new(alloc))
    }

    /// Returns the finished message.
    pub fn build(self) -> CoseSign1
        ensures { result ≡ self }
    {
        self.0
    }

    /// Sets the protected header. It counts as not read, so it has no kept bytes.
    pub fn protected(mut self, header: Header) -> CoseSign1Builder
        ensures { sign1_view result ≡ record
            (sign1_view self) { protected = unread (header_view header) } }
    {
        self.0.protected = ProtectedHeader {
            original_data: None,
            header,
        };
        self
    }

    /// Sets the unprotected header.
    pub fn unprotected(mut self, header: Header) -> CoseSign1Builder
        ensures { sign1_view result ≡ record
            (sign1_view self) { unprotected = header_view header } }
    {
        self.0.unprotected = header;
        self
    }

    /// Sets the payload.
    pub fn payload(mut self, payload: Vec<u8>) -> CoseSign1Builder
        ensures { sign1_view result ≡ record (sign1_view self) { payload = Some payload.items } }
    {
        self.0.payload = Some(payload);
        self
    }

    /// Calls [`payload`](CoseSign1Builder::payload) with a copy of these bytes.
    ///
    /// # Errors
    /// `OutOfMemory` if an allocation fails.
    pub fn payload_from(self, alloc: Global, payload: &[u8]) -> Result<CoseSign1Builder>
        ensures ok { IfOk result (λ b. sign1_view b
            ≡ record (sign1_view self) { payload = Some payload.now }) }
        ensures memory { IfErr result (λ e. e ≡ OutOfMemory) }
    {
        Ok(self.payload(Vec::from_slice(alloc, payload)?))
    }

    /// Sets the signature.
    pub fn signature(mut self, signature: Vec<u8>) -> CoseSign1Builder
        ensures { sign1_view result ≡ with_signature signature.items (sign1_view self) }
    {
        self.0.signature = signature;
        self
    }

    /// Calls [`signature`](CoseSign1Builder::signature) with a copy of these bytes.
    ///
    /// # Errors
    /// `OutOfMemory` if an allocation fails.
    pub fn signature_from(self, alloc: Global, signature: &[u8]) -> Result<CoseSign1Builder>
        ensures ok { IfOk result (λ b. sign1_view b
            ≡ with_signature signature.now (sign1_view self)) }
        ensures memory { IfErr result (λ e. e ≡ OutOfMemory) }
    {
        Ok(self.signature(Vec::from_slice(alloc, signature)?))
    }

    /// Calls `signer` with the bytes to be signed ([`CoseSign1::tbs_data`]), and sets the signature
    /// to its result.
    ///
    /// Set all other fields before this call. A missing payload counts as empty. `signer` is called
    /// once, or not at all if the bytes can't be made.
    ///
    /// # Errors
    /// The same as [`CoseSign1::tbs_data`].
    pub fn create_signature<F>(
        self,
        alloc: Global,
        external_aad: &[u8],
        signer: F,
    ) -> Result<CoseSign1Builder>
    where
        F: FnOnce(&[u8]) -> Vec<u8> + Drop,
        requires { F.IsAlwaysCallable signer }
        ensures { Creates F.FnOnce signer (sign1_attached (sign1_view self) external_aad.now)
            (λ s b. sign1_view b ≡ with_signature s.items (sign1_view self)) result }
    {
        let tbs = self.0.tbs_data(alloc, external_aad)?;
        Ok(self.signature(signer(&tbs)))
    }

    /// Does the same as [`CoseSign1Builder::create_signature`] for a detached payload. The message
    /// itself must carry no payload.
    ///
    /// # Errors
    /// The same as [`CoseSign1::tbs_data`].
    pub fn create_detached_signature<F>(
        self,
        alloc: Global,
        payload: &[u8],
        external_aad: &[u8],
        signer: F,
    ) -> Result<CoseSign1Builder>
    where
        F: FnOnce(&[u8]) -> Vec<u8> + Drop,
        requires callable { F.IsAlwaysCallable signer }
        requires detached { self.payload ≡ None }
        ensures { Creates F.FnOnce signer
            (sign1_structure (sign1_view self) external_aad.now payload.now) (λ s b. sign1_view b
            ≡ with_signature s.items (sign1_view self)) result }
    {
        let tbs = self.0.tbs_detached_data(alloc, payload, external_aad)?;
        Ok(self.signature(signer(&tbs)))
    }

    /// Does the same as [`CoseSign1Builder::create_signature`] with a `signer` that may fail.
    ///
    /// # Errors
    /// - `Coset` with an error of [`CoseSign1::tbs_data`].
    /// - `Caller` with the error of `signer`.
    pub fn try_create_signature<F, E>(
        self,
        alloc: Global,
        external_aad: &[u8],
        signer: F,
    ) -> Result<CoseSign1Builder, CallError<E>>
    where
        F: FnOnce(&[u8]) -> Result<Vec<u8>, E> + Drop,
        E: Drop,
        requires { F.IsAlwaysCallable signer }
        ensures { TriesToCreate F.FnOnce signer (sign1_attached (sign1_view self) external_aad.now)
            (λ s b. sign1_view b ≡ with_signature s.items (sign1_view self)) result }
    {
        let signature = create_with(self.0.tbs_data(alloc, external_aad), signer)?;
        Ok(self.signature(signature))
    }

    /// Does the same as [`CoseSign1Builder::create_detached_signature`] with a `signer` that may
    /// fail.
    ///
    /// # Errors
    /// - `Coset` with an error of [`CoseSign1::tbs_data`].
    /// - `Caller` with the error of `signer`.
    pub fn try_create_detached_signature<F, E>(
        self,
        alloc: Global,
        payload: &[u8],
        external_aad: &[u8],
        signer: F,
    ) -> Result<CoseSign1Builder, CallError<E>>
    where
        F: FnOnce(&[u8]) -> Result<Vec<u8>, E> + Drop,
        E: Drop,
        requires callable { F.IsAlwaysCallable signer }
        requires detached { self.payload ≡ None }
        ensures { TriesToCreate F.FnOnce signer
            (sign1_structure (sign1_view self) external_aad.now payload.now) (λ s b. sign1_view b
            ≡ with_signature s.items (sign1_view self)) result }
    {
        let structure = self.0.tbs_detached_data(alloc, payload, external_aad);
        let signature = create_with(structure, signer)?;
        Ok(self.signature(signature))
    }
}
