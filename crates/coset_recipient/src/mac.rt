//! Messages with a MAC and recipients (RFC 8152, section 6.1).

ghost use Rattle.std.specs.Prelude.{◌≡◌, ◌≢◌, IfOk, IfErr, IfSome, Some, None};
ghost use Rattle.coset_codec.specs.declared.error.CoseError.TheVariants.{OutOfMemory};
ghost use Rattle.coset_codec.specs.Results.{Writes};
ghost use Rattle.coset_core.specs.Messages.{unread};
ghost use Rattle.coset_core.specs.Views.{header_view};
ghost use Rattle.coset_core.specs.Calls.{CallsWith, Creates, TriesToCreate};
ghost use Rattle.coset_msg.specs.Presence.{CallsIfPresent, WritesIfPresent};
ghost use Rattle.coset_recipient.specs.Mac.{and_mac_recipient, empty_mac, mac, mac_view, mac_structure_of, with_tag};
ghost use Rattle.coset_recipient.specs.RecipientViews.{recipient_view};

use crate::recipient::{CoseRecipient, Recipients, copy_recipient_list};
use coset_codec::read::{Decoder, drop_refused};
use coset_codec::util::copy_bstr;
use coset_codec::write::{Array, Encode, encode_five};
use coset_codec::{CallError, Codec, Result, TaggedCodec};
use coset_core::calls::{call_with, create_with};
use coset_core::{BstrOrNil, Header, ProtectedHeader, ProtectedRef, read_with_headers};
use coset_msg::MacContext;
use coset_msg::mac_structure::mac_structure_of;
use std::alloc::{AllocError, Global};
use std::marker::Model;

/// A message with a MAC, and recipients that obtain its key: `COSE_Mac` (RFC 8152, section 6.1).
///
/// ```cddl
/// COSE_Mac = [ Headers, payload : bstr / nil, tag : bstr, recipients : [+ COSE_recipient] ]
/// ```
///
/// A message without recipients can be read and written too.
#[derive(Debug, Drop, PartialEq, Eq)]
pub struct CoseMac {
    /// The header that the MAC covers.
    pub protected: ProtectedHeader,
    /// The header that the MAC doesn't cover.
    pub unprotected: Header,
    /// The authenticated content, or `None` if it is detached.
    pub payload: Option<Vec<u8>>,
    /// The MAC.
    pub tag: Vec<u8>,
    /// The recipients that can check the MAC, and how they obtain the key.
    pub recipients: Vec<CoseRecipient>,
}

/// The expected item, as the error for a wrong number of elements names it.
const EXPECTED_ARRAY: &str = "array with 5 items";

impl CoseMac {
    /// Returns an empty message: empty headers, no payload, an empty tag, no recipients. Allocates
    /// nothing.
    pub fn new(alloc: Global) -> CoseMac
        ensures { mac_view result ≡ empty_mac }
    {
        CoseMac {
            protected: ProtectedHeader::new(alloc),
            unprotected: Header::new(alloc),
            payload: None,
            tag: Vec::new(alloc),
            recipients: Vec::new(alloc),
        }
    }

    /// Returns the bytes to be authenticated, or `None` if the message carries no payload.
    ///
    /// The bytes are the encoded `MAC_structure` (RFC 8152, section 6.3). A protected header that
    /// was read is represented by its kept bytes. For a detached payload, call
    /// [`CoseMac::tbm_detached`].
    ///
    /// # Errors
    /// - `OutOfMemory` if an allocation fails.
    /// - `DuplicateMapKey` if the protected header has no kept bytes and has a label twice in its
    ///   `rest`. Nested headers count too, except those inside kept bytes.
    pub fn tbm(&self, alloc: Global, external_aad: &[u8]) -> Result<Option<Vec<u8>>>
        ensures { WritesIfPresent (λ b. b.items) (mac_view self.now).payload
            (mac_structure_of (mac_view self.now) external_aad.now) result }
    {
        match &self.payload {
            Some(payload) => Ok(Some(self.tbm_detached(alloc, payload, external_aad)?)),
            None => Ok(None),
        }
    }

    /// Returns the bytes to be authenticated for a detached payload (RFC 9052, section 6.1).
    /// `payload` takes the place of a payload that the message carries.
    ///
    /// # Errors
    /// The same as [`CoseMac::tbm`].
    pub fn tbm_detached(
        &self,
        alloc: Global,
        payload: &[u8],
        external_aad: &[u8],
    ) -> Result<Vec<u8>>
        ensures { Writes (mac_structure_of (mac_view self.now) external_aad.now payload.now) (λ b.
            b.items) result }
    {
        mac_structure_of(
            alloc,
            MacContext::CoseMac,
            &self.protected,
            external_aad,
            payload,
        )
    }

    /// Returns the payload, which the message must carry.
    fn attached(&self) -> &[u8]
        requires { self.now.payload ≢ None }
        ensures { (mac_view self.now).payload ≡ Some result.now }
    {
        match &self.payload {
            Some(payload) => payload,
            None => unreachable!(),
        }
    }

    /// Calls `verifier` with the tag and the bytes to be authenticated (RFC 8152, section 6.3), in
    /// this order.
    ///
    /// The message must carry its payload. `verifier` decides whether the tag is valid. It is
    /// called once, or not at all if the bytes can't be made.
    ///
    /// # Errors
    /// - `Coset` with an error of [`CoseMac::tbm`].
    /// - `Caller` with the error of `verifier`.
    pub fn verify_tag<F, E>(
        &self,
        alloc: Global,
        external_aad: &[u8],
        verifier: F,
    ) -> Result<(), CallError<E>>
    where
        F: FnOnce(&[u8], &[u8]) -> Result<(), E> + Drop,
        E: Drop,
        requires callable { F.IsAlwaysCallable verifier }
        requires attached { self.now.payload ≢ None }
        ensures { IfSome (mac_view self.now).payload (λ p. CallsWith F.FnOnce verifier
            (mac_view self.now).tag (mac_structure_of (mac_view self.now) external_aad.now p)
            result) }
    {
        let structure = self.tbm_detached(alloc, self.attached(), external_aad);
        call_with(&self.tag, structure, verifier)
    }

    /// Does the same as [`CoseMac::verify_tag`], also for a message without a payload. If the
    /// payload is missing, `missing` is called for the error, and `verifier` isn't called.
    ///
    /// # Errors
    /// - The errors of [`CoseMac::verify_tag`].
    /// - `Caller` with the result of `missing`, if the message carries no payload.
    pub fn verify_payload_tag<F, E, M>(
        &self,
        alloc: Global,
        external_aad: &[u8],
        missing: M,
        verifier: F,
    ) -> Result<(), CallError<E>>
    where
        F: FnOnce(&[u8], &[u8]) -> Result<(), E> + Drop,
        E: Drop,
        M: FnOnce() -> E + Drop,
        requires callable { F.IsAlwaysCallable verifier }
        requires missing_callable { M.IsAlwaysCallable missing }
        ensures { CallsIfPresent F.FnOnce verifier M.FnOnce missing
            (mac_view self.now).payload (λ p. (mac_view self.now).tag)
            (mac_structure_of (mac_view self.now) external_aad.now) result }
    {
        let Some(payload) = &self.payload else {
            return Err(CallError::Caller(missing()));
        };
        let structure = self.tbm_detached(alloc, payload, external_aad);
        call_with(&self.tag, structure, verifier)
    }

    /// Does the same as [`CoseMac::verify_tag`] for a detached payload (RFC 9052, section 6.1).
    /// `payload` takes the place of a payload that the message carries.
    ///
    /// # Errors
    /// The same as [`CoseMac::verify_tag`].
    pub fn verify_detached_tag<F, E>(
        &self,
        alloc: Global,
        payload: &[u8],
        external_aad: &[u8],
        verifier: F,
    ) -> Result<(), CallError<E>>
    where
        F: FnOnce(&[u8], &[u8]) -> Result<(), E> + Drop,
        E: Drop,
        requires { F.IsAlwaysCallable verifier }
        ensures { CallsWith F.FnOnce verifier (mac_view self.now).tag
            (mac_structure_of (mac_view self.now) external_aad.now payload.now) result }
    {
        let structure = self.tbm_detached(alloc, payload, external_aad);
        call_with(&self.tag, structure, verifier)
    }

    /// Returns a message equal to this one, kept bytes included.
    ///
    /// # Errors
    /// `OutOfMemory` if an allocation fails.
    pub fn clone(&self) -> Result<CoseMac>
        ensures copy { IfOk result (λ m. mac_view m ≡ mac_view self.now) }
        ensures memory { IfErr result (λ e. e ≡ OutOfMemory) }
    {
        Ok(Clone::clone(self)?)
    }
}

/// The same as [`CoseMac::clone`], for generic code.
impl Clone for CoseMac {
    ghost is_clone = { λ message copy. mac_view copy ≡ mac_view message };

    fn clone(&self) -> Result<CoseMac, AllocError> {
        Ok(CoseMac {
            protected: Clone::clone(&self.protected)?,
            unprotected: Clone::clone(&self.unprotected)?,
            payload: copy_bstr(&self.payload)?,
            tag: Vec::from_slice(*self.tag.allocator(), &self.tag)?,
            recipients: copy_recipient_list(&self.recipients)?,
        })
    }
}

impl Codec for CoseMac {
    ghost use Rattle.coset_recipient.specs.Equality.{mac_decides};
    ghost use Rattle.coset_recipient.specs.RecipientSame.{recipient_decides};
    ghost use Rattle.coset_recipient.specs.RecipientViews.{recipient_view};
    ghost use Rattle.coset_codec.specs.EqDecides.{vec_decides, bstr_decides, lists_decides};
    ghost use Rattle.coset_core.specs.EqDecides.{header_decides, protected_decides};
    ghost use Rattle.coset_recipient.specs.Mac.{MacView, mac_laws};

    ghost View = { MacView };

    ghost view = { mac_view };

    ghost shape = { mac };

    ghost laws = { mac_laws };

    ghost equal = { λ a b. mac_decides (protected_decides a.protected b.protected)
        (header_decides a.unprotected b.unprotected)
        (bstr_decides a.payload b.payload)
        (vec_decides a.tag b.tag)
        (lists_decides recipient_view _ recipient_decides a.recipients.items b.recipients.items) };

    fn read(alloc: Global, input: &mut Decoder<'_>) -> Result<CoseMac> {
        let mut message = CoseMac::new(alloc);
        match read_with_headers(
            &mut message.protected,
            &mut message.unprotected,
            alloc,
            input,
            EXPECTED_ARRAY,
        ) {
            Ok((BstrOrNil(payload), (tag, (Recipients(recipients), ())))) => {
                message.payload = payload;
                message.tag = tag;
                message.recipients = recipients;
            }
            Err(error) => {
                drop_refused(message);
                return Err(error);
            }
        }
        Ok(message)
    }

    fn size_hint(&self) -> usize {
        ProtectedRef(&self.protected)
            .encoded_size_hint()
            .saturating_add(self.unprotected.encoded_size_hint())
            .saturating_add(self.payload.encoded_size_hint())
            .saturating_add(self.tag.encoded_size_hint())
            .saturating_add(Array(&self.recipients).encoded_size_hint())
    }

    fn write(&self, alloc: Global, out: &mut Vec<u8>) -> Result<()> {
        encode_five(
            alloc,
            &ProtectedRef(&self.protected),
            &self.unprotected,
            &self.payload,
            &self.tag,
            &Array(&self.recipients),
            out,
        )
    }
}

impl TaggedCodec for CoseMac {
    ghost TAG_NUMBER = { 97 };

    const TAG_NUMBER: u64 = 97;
}

/// Builds a [`CoseMac`] field by field. Contracts see the builder as the message that
/// [`build`](CoseMacBuilder::build) returns.
#[derive(Debug, Drop)]
pub struct CoseMacBuilder(CoseMac);

impl Model for CoseMacBuilder {
    ghost use Rattle.std.specs.Coded.{codes};
    ghost use Rattle.coset_recipient.specs.contracts.mac.CoseMac as contracts;
    ghost use Rattle.coset_recipient.specs.declared.mac.CoseMac.{CoseMac};

    ghost Value = { CoseMac };

    ghost coded = { Prim.hlevel (codes, contracts.the_row.coded) };

    ghost view = { λ b. b.0 };

    ghost inverse = { λ v. record { 0 = v } };
}

impl CoseMacBuilder {
    /// Returns a builder of an empty message. Allocates nothing.
    pub fn new(alloc: Global) -> CoseMacBuilder
        ensures { mac_view result ≡ empty_mac }
    {
        CoseMacBuilder(CoseMac::new(alloc))
    }

    /// Returns the finished message.
    pub fn build(self) -> CoseMac
        ensures { result ≡ self }
    {
        self.0
    }

    /// Sets the protected header. It counts as not read, so it has no kept bytes.
    pub fn protected(mut self, header: Header) -> CoseMacBuilder
        ensures { mac_view result ≡ record
            (mac_view self) { protected = unread (header_view header) } }
    {
        self.0.protected = ProtectedHeader {
            original_data: None,
            header,
        };
        self
    }

    /// Sets the unprotected header.
    pub fn unprotected(mut self, header: Header) -> CoseMacBuilder
        ensures { mac_view result ≡ record
            (mac_view self) { unprotected = header_view header } }
    {
        self.0.unprotected = header;
        self
    }

    /// Sets the payload.
    pub fn payload(mut self, payload: Vec<u8>) -> CoseMacBuilder
        ensures { mac_view result ≡ record (mac_view self) { payload = Some payload.items } }
    {
        self.0.payload = Some(payload);
        self
    }

    /// Calls [`payload`](CoseMacBuilder::payload) with a copy of these bytes.
    ///
    /// # Errors
    /// `OutOfMemory` if an allocation fails.
    pub fn payload_from(self, alloc: Global, payload: &[u8]) -> Result<CoseMacBuilder>
        ensures ok { IfOk result (λ b. mac_view b
            ≡ record (mac_view self) { payload = Some payload.now }) }
        ensures memory { IfErr result (λ e. e ≡ OutOfMemory) }
    {
        Ok(self.payload(Vec::from_slice(alloc, payload)?))
    }

    /// Sets the tag.
    pub fn tag(mut self, tag: Vec<u8>) -> CoseMacBuilder
        ensures { mac_view result ≡ with_tag tag.items (mac_view self) }
    {
        self.0.tag = tag;
        self
    }

    /// Calls [`tag`](CoseMacBuilder::tag) with a copy of these bytes.
    ///
    /// # Errors
    /// `OutOfMemory` if an allocation fails.
    pub fn tag_from(self, alloc: Global, tag: &[u8]) -> Result<CoseMacBuilder>
        ensures ok { IfOk result (λ b. mac_view b ≡ with_tag tag.now (mac_view self)) }
        ensures memory { IfErr result (λ e. e ≡ OutOfMemory) }
    {
        Ok(self.tag(Vec::from_slice(alloc, tag)?))
    }

    /// Appends a recipient.
    ///
    /// # Errors
    /// `OutOfMemory` if an allocation fails.
    pub fn add_recipient(mut self, recipient: CoseRecipient) -> Result<CoseMacBuilder>
        ensures ok { IfOk result (λ b. mac_view b
            ≡ and_mac_recipient (recipient_view recipient) (mac_view self)) }
        ensures memory { IfErr result (λ e. e ≡ OutOfMemory) }
    {
        self.0.recipients.push(recipient)?;
        Ok(self)
    }

    /// Calls `creator` with the bytes to be authenticated (RFC 8152, section 6.3), and sets the tag
    /// to its result.
    ///
    /// Set all other fields before this call, including the payload. `creator` is called once, or
    /// not at all if the bytes can't be made.
    ///
    /// # Errors
    /// - `OutOfMemory` if an allocation fails.
    /// - `DuplicateMapKey` if the protected header has a label twice in its `rest`. Nested headers
    ///   count too, except those inside kept bytes.
    pub fn create_tag<F>(
        self,
        alloc: Global,
        external_aad: &[u8],
        creator: F,
    ) -> Result<CoseMacBuilder>
    where
        F: FnOnce(&[u8]) -> Vec<u8> + Drop,
        requires callable { F.IsAlwaysCallable creator }
        requires attached { self.payload ≢ None }
        ensures { IfSome (mac_view self).payload (λ p. Creates F.FnOnce creator
            (mac_structure_of (mac_view self) external_aad.now p) (λ t b. mac_view b
            ≡ with_tag t.items (mac_view self)) result) }
    {
        let tbm = self.0.tbm_detached(alloc, self.0.attached(), external_aad)?;
        Ok(self.tag(creator(&tbm)))
    }

    /// Does the same as [`CoseMacBuilder::create_tag`] for a detached payload (RFC 9052,
    /// section 6).
    ///
    /// `payload` takes the place of a payload that the message carries. It isn't stored in the
    /// message.
    ///
    /// # Errors
    /// The same as [`CoseMacBuilder::create_tag`].
    pub fn create_detached_tag<F>(
        self,
        alloc: Global,
        payload: &[u8],
        external_aad: &[u8],
        creator: F,
    ) -> Result<CoseMacBuilder>
    where
        F: FnOnce(&[u8]) -> Vec<u8> + Drop,
        requires { F.IsAlwaysCallable creator }
        ensures { Creates F.FnOnce creator
            (mac_structure_of (mac_view self) external_aad.now payload.now) (λ t b. mac_view b
            ≡ with_tag t.items (mac_view self)) result }
    {
        let structure = self.0.tbm_detached(alloc, payload, external_aad)?;
        Ok(self.tag(creator(&structure)))
    }

    /// Does the same as [`CoseMacBuilder::create_tag`] with a `creator` that may fail.
    ///
    /// # Errors
    /// - `Coset` with an error of [`CoseMacBuilder::create_tag`].
    /// - `Caller` with the error of `creator`.
    pub fn try_create_tag<F, E>(
        self,
        alloc: Global,
        external_aad: &[u8],
        creator: F,
    ) -> Result<CoseMacBuilder, CallError<E>>
    where
        F: FnOnce(&[u8]) -> Result<Vec<u8>, E> + Drop,
        E: Drop,
        requires callable { F.IsAlwaysCallable creator }
        requires attached { self.payload ≢ None }
        ensures { IfSome (mac_view self).payload (λ p. TriesToCreate F.FnOnce creator
            (mac_structure_of (mac_view self) external_aad.now p) (λ t b. mac_view b
            ≡ with_tag t.items (mac_view self)) result) }
    {
        let structure = self.0.tbm_detached(alloc, self.0.attached(), external_aad);
        let tag = create_with(structure, creator)?;
        Ok(self.tag(tag))
    }

    /// Does the same as [`CoseMacBuilder::create_detached_tag`] with a `creator` that may fail.
    ///
    /// # Errors
    /// - `Coset` with an error of [`CoseMacBuilder::create_detached_tag`].
    /// - `Caller` with the error of `creator`.
    pub fn try_create_detached_tag<F, E>(
        self,
        alloc: Global,
        payload: &[u8],
        external_aad: &[u8],
        creator: F,
    ) -> Result<CoseMacBuilder, CallError<E>>
    where
        F: FnOnce(&[u8]) -> Result<Vec<u8>, E> + Drop,
        E: Drop,
        requires { F.IsAlwaysCallable creator }
        ensures { TriesToCreate F.FnOnce creator
            (mac_structure_of (mac_view self) external_aad.now payload.now) (λ t b. mac_view b
            ≡ with_tag t.items (mac_view self)) result }
    {
        let structure = self.0.tbm_detached(alloc, payload, external_aad);
        let tag = create_with(structure, creator)?;
        Ok(self.tag(tag))
    }
}
