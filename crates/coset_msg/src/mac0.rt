//! Messages with a MAC for receivers that know the key (RFC 8152, section 6.2).

ghost use Rattle.std.specs.Prelude.{◌≡◌, ◌≢◌, IfOk, IfErr, IfSome, Some, None};
ghost use Rattle.coset_codec.specs.declared.error.CoseError.TheVariants.{OutOfMemory};
ghost use Rattle.coset_codec.specs.Results.{Writes};
ghost use Rattle.coset_core.specs.Messages.{unread};
ghost use Rattle.coset_core.specs.Views.{header_view};
ghost use Rattle.coset_core.specs.Calls.{CallsWith, Creates, TriesToCreate};
ghost use Rattle.coset_msg.specs.Mac0.{empty_mac0, mac0, mac0_view, mac0_structure, with_tag};
ghost use Rattle.coset_msg.specs.Presence.{CallsIfPresent, WritesIfPresent};

use crate::mac_structure::{MacContext, mac_structure_of};
use coset_codec::read::{Decoder, drop_refused};
use coset_codec::util::copy_bstr;
use coset_codec::write::{Encode, encode_four};
use coset_codec::{CallError, Codec, Result, TaggedCodec};
use coset_core::calls::{call_with, create_with};
use coset_core::{BstrOrNil, Header, ProtectedHeader, ProtectedRef, read_with_headers};
use std::alloc::{AllocError, Global};
use std::marker::Model;

/// A message with a MAC, for receivers that know the key: `COSE_Mac0` (RFC 8152, section 6.2).
///
/// ```cddl
/// COSE_Mac0 = [ Headers, payload : bstr / nil, tag : bstr ]
/// ```
#[derive(Debug, Drop, PartialEq, Eq)]
pub struct CoseMac0 {
    /// The header that the MAC covers.
    pub protected: ProtectedHeader,
    /// The header that the MAC doesn't cover.
    pub unprotected: Header,
    /// The authenticated content, or `None` if it is detached.
    pub payload: Option<Vec<u8>>,
    /// The MAC.
    pub tag: Vec<u8>,
}

/// The expected item, as the error for a wrong number of elements names it.
const EXPECTED_ARRAY: &str = "array with 4 items";

impl CoseMac0 {
    /// Returns an empty message: empty headers, no payload, an empty tag. Allocates nothing.
    pub fn new(alloc: Global) -> CoseMac0
        ensures { mac0_view result ≡ empty_mac0 }
    {
        CoseMac0 {
            protected: ProtectedHeader::new(alloc),
            unprotected: Header::new(alloc),
            payload: None,
            tag: Vec::new(alloc),
        }
    }

    /// Returns the bytes to be authenticated, or `None` if the message carries no payload.
    ///
    /// The bytes are the encoded `MAC_structure` (RFC 8152, section 6.3). A protected header that
    /// was read is represented by its kept bytes. For a detached payload, call
    /// [`CoseMac0::tbm_detached`].
    ///
    /// # Errors
    /// - `OutOfMemory` if an allocation fails.
    /// - `DuplicateMapKey` if the protected header has no kept bytes and has a label twice in its
    ///   `rest`. Nested headers count too, except those inside kept bytes.
    pub fn tbm(&self, alloc: Global, external_aad: &[u8]) -> Result<Option<Vec<u8>>>
        ensures { WritesIfPresent (λ b. b.items) (mac0_view self.now).payload
            (mac0_structure (mac0_view self.now) external_aad.now) result }
    {
        match &self.payload {
            Some(payload) => Ok(Some(self.tbm_detached(alloc, payload, external_aad)?)),
            None => Ok(None),
        }
    }

    /// Returns the bytes to be authenticated for a detached payload (RFC 9052, section 6.1).
    /// `payload` takes the place of a payload that the message carries.
    ///
    /// # Errors
    /// The same as [`CoseMac0::tbm`].
    pub fn tbm_detached(
        &self,
        alloc: Global,
        payload: &[u8],
        external_aad: &[u8],
    ) -> Result<Vec<u8>>
        ensures { Writes (mac0_structure (mac0_view self.now) external_aad.now payload.now) (λ b.
            b.items) result }
    {
        mac_structure_of(
            alloc,
            MacContext::CoseMac0,
            &self.protected,
            external_aad,
            payload,
        )
    }

    /// Returns the payload, which the message must carry.
    fn attached(&self) -> &[u8]
        requires { self.now.payload ≢ None }
        ensures { (mac0_view self.now).payload ≡ Some result.now }
    {
        match &self.payload {
            Some(payload) => payload,
            None => unreachable!(),
        }
    }

    /// Calls `verifier` with the tag and the bytes to be authenticated (RFC 8152, section 6.3), in
    /// this order.
    ///
    /// The message must carry its payload. `verifier` decides whether the tag is valid. It is
    /// called once, or not at all if the bytes can't be made.
    ///
    /// # Errors
    /// - `Coset` with an error of [`CoseMac0::tbm`].
    /// - `Caller` with the error of `verifier`.
    pub fn verify_tag<F, E>(
        &self,
        alloc: Global,
        external_aad: &[u8],
        verifier: F,
    ) -> Result<(), CallError<E>>
    where
        F: FnOnce(&[u8], &[u8]) -> Result<(), E> + Drop,
        E: Drop,
        requires callable { F.IsAlwaysCallable verifier }
        requires attached { self.now.payload ≢ None }
        ensures { IfSome (mac0_view self.now).payload (λ p. CallsWith F.FnOnce verifier
            (mac0_view self.now).tag (mac0_structure (mac0_view self.now) external_aad.now p)
            result) }
    {
        let structure = self.tbm_detached(alloc, self.attached(), external_aad);
        call_with(&self.tag, structure, verifier)
    }

    /// Does the same as [`CoseMac0::verify_tag`] if the message carries a payload. Otherwise
    /// `missing` is called for the error, and `verifier` isn't called.
    ///
    /// # Errors
    /// - The errors of [`CoseMac0::verify_tag`].
    /// - `Caller` with the result of `missing`, if the message carries no payload.
    pub fn verify_payload_tag<F, E, M>(
        &self,
        alloc: Global,
        external_aad: &[u8],
        missing: M,
        verifier: F,
    ) -> Result<(), CallError<E>>
    where
        F: FnOnce(&[u8], &[u8]) -> Result<(), E> + Drop,
        E: Drop,
        M: FnOnce() -> E + Drop,
        requires callable { F.IsAlwaysCallable verifier }
        requires missing_callable { M.IsAlwaysCallable missing }
        ensures { CallsIfPresent F.FnOnce verifier M.FnOnce missing
            (mac0_view self.now).payload (λ p. (mac0_view self.now).tag)
            (mac0_structure (mac0_view self.now) external_aad.now) result }
    {
        let Some(payload) = &self.payload else {
            return Err(CallError::Caller(missing()));
        };
        let structure = self.tbm_detached(alloc, payload, external_aad);
        call_with(&self.tag, structure, verifier)
    }

    /// Does the same as [`CoseMac0::verify_tag`] for a detached payload (RFC 9052, section 6.1).
    /// `payload` takes the place of a payload that the message carries.
    ///
    /// # Errors
    /// The same as [`CoseMac0::verify_tag`].
    pub fn verify_detached_tag<F, E>(
        &self,
        alloc: Global,
        payload: &[u8],
        external_aad: &[u8],
        verifier: F,
    ) -> Result<(), CallError<E>>
    where
        F: FnOnce(&[u8], &[u8]) -> Result<(), E> + Drop,
        E: Drop,
        requires { F.IsAlwaysCallable verifier }
        ensures { CallsWith F.FnOnce verifier (mac0_view self.now).tag
            (mac0_structure (mac0_view self.now) external_aad.now payload.now) result }
    {
        let structure = self.tbm_detached(alloc, payload, external_aad);
        call_with(&self.tag, structure, verifier)
    }

    /// Returns a message equal to this one, kept bytes included.
    ///
    /// # Errors
    /// `OutOfMemory` if an allocation fails.
    pub fn clone(&self) -> Result<CoseMac0>
        ensures copy { IfOk result (λ m. mac0_view m ≡ mac0_view self.now) }
        ensures memory { IfErr result (λ e. e ≡ OutOfMemory) }
    {
        Ok(Clone::clone(self)?)
    }
}

/// The same as [`CoseMac0::clone`], for generic code.
impl Clone for CoseMac0 {
    ghost is_clone = { λ message copy. mac0_view copy ≡ mac0_view message };

    fn clone(&self) -> Result<CoseMac0, AllocError> {
        Ok(CoseMac0 {
            protected: Clone::clone(&self.protected)?,
            unprotected: Clone::clone(&self.unprotected)?,
            payload: copy_bstr(&self.payload)?,
            tag: Vec::from_slice(*self.tag.allocator(), &self.tag)?,
        })
    }
}

impl Codec for CoseMac0 {
    ghost use Rattle.coset_msg.specs.Equality.{mac0_decides};
    ghost use Rattle.coset_codec.specs.EqDecides.{vec_decides, bstr_decides};
    ghost use Rattle.coset_core.specs.EqDecides.{header_decides, protected_decides};
    ghost use Rattle.coset_msg.specs.Mac0.{Mac0View, mac0_laws};

    ghost View = { Mac0View };

    ghost view = { mac0_view };

    ghost shape = { mac0 };

    ghost laws = { mac0_laws };

    ghost equal = { λ a b. mac0_decides (protected_decides a.protected b.protected)
        (header_decides a.unprotected b.unprotected)
        (bstr_decides a.payload b.payload)
        (vec_decides a.tag b.tag) };

    fn read(alloc: Global, input: &mut Decoder<'_>) -> Result<CoseMac0> {
        let mut message = CoseMac0::new(alloc);
        match read_with_headers(
            &mut message.protected,
            &mut message.unprotected,
            alloc,
            input,
            EXPECTED_ARRAY,
        ) {
            Ok((BstrOrNil(payload), (tag, ()))) => {
                message.payload = payload;
                message.tag = tag;
            }
            Err(error) => {
                drop_refused(message);
                return Err(error);
            }
        }
        Ok(message)
    }

    fn size_hint(&self) -> usize {
        ProtectedRef(&self.protected)
            .encoded_size_hint()
            .saturating_add(self.unprotected.encoded_size_hint())
            .saturating_add(self.payload.encoded_size_hint())
            .saturating_add(self.tag.encoded_size_hint())
    }

    fn write(&self, alloc: Global, out: &mut Vec<u8>) -> Result<()> {
        let protected = ProtectedRef(&self.protected);
        encode_four(
            alloc,
            &protected,
            &self.unprotected,
            &self.payload,
            &self.tag,
            out,
        )
    }
}

impl TaggedCodec for CoseMac0 {
    ghost TAG_NUMBER = { 17 };

    const TAG_NUMBER: u64 = 17;
}

/// Builds a [`CoseMac0`] field by field. Contracts see the builder as the message that
/// [`build`](CoseMac0Builder::build) returns.
#[derive(Debug, Drop)]
pub struct CoseMac0Builder(CoseMac0);

impl Model for CoseMac0Builder {
    ghost use Rattle.std.specs.Coded.{codes};
    ghost use Rattle.coset_msg.specs.contracts.mac0.CoseMac0 as contracts;
    ghost use Rattle.coset_msg.specs.declared.mac0.CoseMac0.{CoseMac0};

    ghost Value = { CoseMac0 };

    ghost coded = { Prim.hlevel (codes, contracts.the_row.coded) };

    ghost view = { λ b. b.0 };

    ghost inverse = { λ v. record { 0 = v } };
}

impl CoseMac0Builder {
    /// Returns a builder of an empty message. Allocates nothing.
    pub fn new(alloc: Global) -> CoseMac0Builder
        ensures { mac0_view result ≡ empty_mac0 }
    {
        CoseMac0Builder(CoseMac0::new(alloc))
    }

    /// Returns the finished message.
    pub fn build(self) -> CoseMac0
        ensures { result ≡ self }
    {
        self.0
    }

    /// Sets the protected header. It counts as not read, so it has no kept bytes.
    pub fn protected(mut self, header: Header) -> CoseMac0Builder
        ensures { mac0_view result ≡ record
            (mac0_view self) { protected = unread (header_view header) } }
    {
        self.0.protected = ProtectedHeader {
            original_data: None,
            header,
        };
        self
    }

    /// Sets the unprotected header.
    pub fn unprotected(mut self, header: Header) -> CoseMac0Builder
        ensures { mac0_view result ≡ record
            (mac0_view self) { unprotected = header_view header } }
    {
        self.0.unprotected = header;
        self
    }

    /// Sets the payload.
    pub fn payload(mut self, payload: Vec<u8>) -> CoseMac0Builder
        ensures { mac0_view result ≡ record (mac0_view self) { payload = Some payload.items } }
    {
        self.0.payload = Some(payload);
        self
    }

    /// Calls [`payload`](CoseMac0Builder::payload) with a copy of these bytes.
    ///
    /// # Errors
    /// `OutOfMemory` if an allocation fails.
    pub fn payload_from(self, alloc: Global, payload: &[u8]) -> Result<CoseMac0Builder>
        ensures ok { IfOk result (λ b. mac0_view b
            ≡ record (mac0_view self) { payload = Some payload.now }) }
        ensures memory { IfErr result (λ e. e ≡ OutOfMemory) }
    {
        Ok(self.payload(Vec::from_slice(alloc, payload)?))
    }

    /// Sets the tag.
    pub fn tag(mut self, tag: Vec<u8>) -> CoseMac0Builder
        ensures { mac0_view result ≡ with_tag tag.items (mac0_view self) }
    {
        self.0.tag = tag;
        self
    }

    /// Calls [`tag`](CoseMac0Builder::tag) with a copy of these bytes.
    ///
    /// # Errors
    /// `OutOfMemory` if an allocation fails.
    pub fn tag_from(self, alloc: Global, tag: &[u8]) -> Result<CoseMac0Builder>
        ensures ok { IfOk result (λ b. mac0_view b ≡ with_tag tag.now (mac0_view self)) }
        ensures memory { IfErr result (λ e. e ≡ OutOfMemory) }
    {
        Ok(self.tag(Vec::from_slice(alloc, tag)?))
    }

    /// Calls `creator` with the bytes to be authenticated (RFC 8152, section 6.3), and sets the tag
    /// to its result.
    ///
    /// The message must carry its payload. Set its other fields before this call too. `creator` is
    /// called once, or not at all if the bytes can't be made.
    ///
    /// # Errors
    /// - `OutOfMemory` if an allocation fails.
    /// - `DuplicateMapKey` if the protected header has a label twice in its `rest`. Nested headers
    ///   count too, except those inside kept bytes.
    pub fn create_tag<F>(
        self,
        alloc: Global,
        external_aad: &[u8],
        creator: F,
    ) -> Result<CoseMac0Builder>
    where
        F: FnOnce(&[u8]) -> Vec<u8> + Drop,
        requires callable { F.IsAlwaysCallable creator }
        requires attached { self.payload ≢ None }
        ensures { IfSome (mac0_view self).payload (λ p. Creates F.FnOnce creator
            (mac0_structure (mac0_view self) external_aad.now p) (λ t b. mac0_view b
            ≡ with_tag t.items (mac0_view self)) result) }
    {
        let tbm = self.0.tbm_detached(alloc, self.0.attached(), external_aad)?;
        Ok(self.tag(creator(&tbm)))
    }

    /// Does the same as [`CoseMac0Builder::create_tag`] for a detached payload (RFC 9052,
    /// section 6.1).
    ///
    /// `payload` takes the place of a payload that the message carries. It isn't stored in the
    /// message.
    ///
    /// # Errors
    /// The same as [`CoseMac0Builder::create_tag`].
    pub fn create_detached_tag<F>(
        self,
        alloc: Global,
        payload: &[u8],
        external_aad: &[u8],
        creator: F,
    ) -> Result<CoseMac0Builder>
    where
        F: FnOnce(&[u8]) -> Vec<u8> + Drop,
        requires { F.IsAlwaysCallable creator }
        ensures { Creates F.FnOnce creator
            (mac0_structure (mac0_view self) external_aad.now payload.now) (λ t b. mac0_view b
            ≡ with_tag t.items (mac0_view self)) result }
    {
        let structure = self.0.tbm_detached(alloc, payload, external_aad)?;
        Ok(self.tag(creator(&structure)))
    }

    /// Does the same as [`CoseMac0Builder::create_tag`] with a `creator` that may fail.
    ///
    /// # Errors
    /// - `Coset` with an error of [`CoseMac0Builder::create_tag`].
    /// - `Caller` with the error of `creator`.
    pub fn try_create_tag<F, E>(
        self,
        alloc: Global,
        external_aad: &[u8],
        creator: F,
    ) -> Result<CoseMac0Builder, CallError<E>>
    where
        F: FnOnce(&[u8]) -> Result<Vec<u8>, E> + Drop,
        E: Drop,
        requires callable { F.IsAlwaysCallable creator }
        requires attached { self.payload ≢ None }
        ensures { IfSome (mac0_view self).payload (λ p. TriesToCreate F.FnOnce creator
            (mac0_structure (mac0_view self) external_aad.now p) (λ t b. mac0_view b
            ≡ with_tag t.items (mac0_view self)) result) }
    {
        let structure = self.0.tbm_detached(alloc, self.0.attached(), external_aad);
        let tag = create_with(structure, creator)?;
        Ok(self.tag(tag))
    }

    /// Does the same as [`CoseMac0Builder::create_detached_tag`] with a `creator` that may fail.
    ///
    /// # Errors
    /// - `Coset` with an error of [`CoseMac0Builder::create_detached_tag`].
    /// - `Caller` with the error of `creator`.
    pub fn try_create_detached_tag<F, E>(
        self,
        alloc: Global,
        payload: &[u8],
        external_aad: &[u8],
        creator: F,
    ) -> Result<CoseMac0Builder, CallError<E>>
    where
        F: FnOnce(&[u8]) -> Result<Vec<u8>, E> + Drop,
        E: Drop,
        requires { F.IsAlwaysCallable creator }
        ensures { TriesToCreate F.FnOnce creator
            (mac0_structure (mac0_view self) external_aad.now payload.now) (λ t b. mac0_view b
            ≡ with_tag t.items (mac0_view self)) result }
    {
        let structure = self.0.tbm_detached(alloc, payload, external_aad);
        let tag = create_with(structure, creator)?;
        Ok(self.tag(tag))
    }
}
