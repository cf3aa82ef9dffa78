//! Encrypted messages with recipients (RFC 8152, section 5.1).

ghost use Rattle.std.specs.Prelude.{◌≡◌, ◌≢◌, IfOk, IfErr, IfSome, Some, None};
ghost use Rattle.coset_codec.specs.declared.error.CoseError.TheVariants.{OutOfMemory};
ghost use Rattle.coset_codec.specs.Results.{Writes};
ghost use Rattle.coset_core.specs.Messages.{unread};
ghost use Rattle.coset_core.specs.Views.{header_view};
ghost use Rattle.coset_core.specs.Calls.{CallsWith, Itself};
ghost use Rattle.coset_msg.specs.Presence.{CallsIfPresent, CreatesOf, TriesToCreateOf};
ghost use Rattle.coset_recipient.specs.Encrypt.{and_encrypt_recipient, empty_encrypt, encrypt, encrypt_view, encrypt_structure_of, with_ciphertext};
ghost use Rattle.coset_recipient.specs.RecipientViews.{recipient_view};

use crate::recipient::{CoseRecipient, Recipients, copy_recipient_list};
use coset_codec::read::{Decoder, drop_refused};
use coset_codec::util::copy_bstr;
use coset_codec::write::{Array, Encode, encode_four};
use coset_codec::{CallError, Codec, Result, TaggedCodec};
use coset_core::calls::call_with;
use coset_core::{BstrOrNil, Header, ProtectedHeader, ProtectedRef, read_with_headers};
use coset_msg::EncryptionContext;
use coset_msg::enc_structure::enc_structure_of;
use std::alloc::{AllocError, Global};
use std::marker::Model;

/// An encrypted message, and recipients that obtain its key: `COSE_Encrypt` (RFC 8152,
/// section 5.1).
///
/// ```cddl
/// COSE_Encrypt = [ Headers, ciphertext : bstr / nil, recipients : [+ COSE_recipient] ]
/// ```
///
/// A message without recipients can be read and written too.
#[derive(Debug, Drop, PartialEq, Eq)]
pub struct CoseEncrypt {
    /// The header that is authenticated with the ciphertext.
    pub protected: ProtectedHeader,
    /// The header that isn't authenticated.
    pub unprotected: Header,
    /// The ciphertext, or `None` if it is detached.
    pub ciphertext: Option<Vec<u8>>,
    /// The recipients that can decrypt the message, and how they obtain the key.
    pub recipients: Vec<CoseRecipient>,
}

/// The expected item, as the error for a wrong number of elements names it.
const EXPECTED_ARRAY: &str = "array with 4 items";

impl CoseEncrypt {
    /// Returns an empty message: empty headers, no ciphertext, no recipients. Allocates nothing.
    pub fn new(alloc: Global) -> CoseEncrypt
        ensures { encrypt_view result ≡ empty_encrypt }
    {
        CoseEncrypt {
            protected: ProtectedHeader::new(alloc),
            unprotected: Header::new(alloc),
            ciphertext: None,
            recipients: Vec::new(alloc),
        }
    }

    /// Returns the additional authenticated data: the encoded `Enc_structure` (RFC 8152,
    /// section 5.3).
    ///
    /// A protected header that was read is represented by its kept bytes. The message may carry its
    /// ciphertext or not.
    ///
    /// # Errors
    /// - `OutOfMemory` if an allocation fails.
    /// - `DuplicateMapKey` if the protected header has no kept bytes and has a label twice in its
    ///   `rest`. Nested headers count too, except those inside kept bytes.
    pub fn aad(&self, alloc: Global, external_aad: &[u8]) -> Result<Vec<u8>>
        ensures { Writes (encrypt_structure_of (encrypt_view self.now) external_aad.now) (λ b.
            b.items) result }
    {
        enc_structure_of(
            alloc,
            EncryptionContext::CoseEncrypt,
            &self.protected,
            external_aad,
        )
    }

    /// Returns the ciphertext, which the message must carry.
    fn attached(&self) -> &[u8]
        requires { self.now.ciphertext ≢ None }
        ensures { (encrypt_view self.now).ciphertext ≡ Some result.now }
    {
        match &self.ciphertext {
            Some(ciphertext) => ciphertext,
            None => unreachable!(),
        }
    }

    /// Calls `cipher` with the ciphertext and the additional authenticated data (RFC 8152, section
    /// 5.3), and returns the plaintext.
    ///
    /// The message must carry its ciphertext. `cipher` gets its arguments in this order. It is
    /// called once, or not at all if the additional authenticated data can't be made.
    ///
    /// # Errors
    /// - `Coset` with an error of [`CoseEncrypt::aad`].
    /// - `Caller` with the error of `cipher`.
    pub fn decrypt<F, E>(
        &self,
        alloc: Global,
        external_aad: &[u8],
        cipher: F,
    ) -> Result<Vec<u8>, CallError<E>>
    where
        F: FnOnce(&[u8], &[u8]) -> Result<Vec<u8>, E> + Drop,
        E: Drop,
        requires callable { F.IsAlwaysCallable cipher }
        requires attached { self.now.ciphertext ≢ None }
        ensures { IfSome (encrypt_view self.now).ciphertext (λ c. CallsWith F.FnOnce cipher c
            (encrypt_structure_of (encrypt_view self.now) external_aad.now) result) }
    {
        let structure = self.aad(alloc, external_aad);
        call_with(self.attached(), structure, cipher)
    }

    /// Does the same as [`CoseEncrypt::decrypt`], also for a message without a ciphertext. If the
    /// ciphertext is missing, `missing` is called for the error, and `cipher` isn't called.
    ///
    /// # Errors
    /// - The errors of [`CoseEncrypt::decrypt`].
    /// - `Caller` with the result of `missing`, if the message carries no ciphertext.
    pub fn decrypt_ciphertext<F, E, M>(
        &self,
        alloc: Global,
        external_aad: &[u8],
        missing: M,
        cipher: F,
    ) -> Result<Vec<u8>, CallError<E>>
    where
        F: FnOnce(&[u8], &[u8]) -> Result<Vec<u8>, E> + Drop,
        E: Drop,
        M: FnOnce() -> E + Drop,
        requires callable { F.IsAlwaysCallable cipher }
        requires missing_callable { M.IsAlwaysCallable missing }
        ensures { CallsIfPresent F.FnOnce cipher M.FnOnce missing
            (encrypt_view self.now).ciphertext (λ c. c)
            (λ _. encrypt_structure_of (encrypt_view self.now) external_aad.now) result }
    {
        let Some(ciphertext) = &self.ciphertext else {
            return Err(CallError::Caller(missing()));
        };
        let structure = self.aad(alloc, external_aad);
        call_with(ciphertext, structure, cipher)
    }

    /// Does the same as [`CoseEncrypt::decrypt`] for a detached ciphertext (RFC 9052, section 5.1).
    /// `ciphertext` takes the place of a ciphertext that the message carries.
    ///
    /// # Errors
    /// The same as [`CoseEncrypt::decrypt`].
    pub fn decrypt_detached<F, E>(
        &self,
        alloc: Global,
        ciphertext: &[u8],
        external_aad: &[u8],
        cipher: F,
    ) -> Result<Vec<u8>, CallError<E>>
    where
        F: FnOnce(&[u8], &[u8]) -> Result<Vec<u8>, E> + Drop,
        E: Drop,
        requires { F.IsAlwaysCallable cipher }
        ensures { CallsWith F.FnOnce cipher ciphertext.now
            (encrypt_structure_of (encrypt_view self.now) external_aad.now) result }
    {
        let structure = self.aad(alloc, external_aad);
        call_with(ciphertext, structure, cipher)
    }

    /// Returns a message equal to this one, kept bytes included.
    ///
    /// # Errors
    /// `OutOfMemory` if an allocation fails.
    pub fn clone(&self) -> Result<CoseEncrypt>
        ensures copy { IfOk result (λ m. encrypt_view m ≡ encrypt_view self.now) }
        ensures memory { IfErr result (λ e. e ≡ OutOfMemory) }
    {
        Ok(Clone::clone(self)?)
    }
}

/// The same as [`CoseEncrypt::clone`], for generic code.
impl Clone for CoseEncrypt {
    ghost is_clone = { λ message copy. encrypt_view copy ≡ encrypt_view message };

    fn clone(&self) -> Result<CoseEncrypt, AllocError> {
        Ok(CoseEncrypt {
            protected: Clone::clone(&self.protected)?,
            unprotected: Clone::clone(&self.unprotected)?,
            ciphertext: copy_bstr(&self.ciphertext)?,
            recipients: copy_recipient_list(&self.recipients)?,
        })
    }
}

impl Codec for CoseEncrypt {
    ghost use Rattle.coset_recipient.specs.Equality.{encrypt_decides};
    ghost use Rattle.coset_recipient.specs.RecipientSame.{recipient_decides};
    ghost use Rattle.coset_recipient.specs.RecipientViews.{recipient_view};
    ghost use Rattle.coset_codec.specs.EqDecides.{bstr_decides, lists_decides};
    ghost use Rattle.coset_core.specs.EqDecides.{header_decides, protected_decides};
    ghost use Rattle.coset_recipient.specs.Encrypt.{EncryptView, encrypt_laws};

    ghost View = { EncryptView };

    ghost view = { encrypt_view };

    ghost shape = { encrypt };

    ghost laws = { encrypt_laws };

    ghost equal = { λ a b. encrypt_decides (protected_decides a.protected b.protected)
        (header_decides a.unprotected b.unprotected)
        (bstr_decides a.ciphertext b.ciphertext)
        (lists_decides recipient_view _ recipient_decides a.recipients.items b.recipients.items) };

    fn read(alloc: Global, input: &mut Decoder<'_>) -> Result<CoseEncrypt> {
        let mut message = CoseEncrypt::new(alloc);
        match read_with_headers(
            &mut message.protected,
            &mut message.unprotected,
            alloc,
            input,
            EXPECTED_ARRAY,
        ) {
            Ok((BstrOrNil(ciphertext), (Recipients(recipients), ()))) => {
                message.ciphertext = ciphertext;
                message.recipients = recipients;
            }
            Err(error) => {
                drop_refused(message);
                return Err(error);
            }
        }
        Ok(message)
    }

    fn size_hint(&self) -> usize {
        ProtectedRef(&self.protected)
            .encoded_size_hint()
            .saturating_add(self.unprotected.encoded_size_hint())
            .saturating_add(self.ciphertext.encoded_size_hint())
            .saturating_add(Array(&self.recipients).encoded_size_hint())
    }

    fn write(&self, alloc: Global, out: &mut Vec<u8>) -> Result<()> {
        encode_four(
            alloc,
            &ProtectedRef(&self.protected),
            &self.unprotected,
            &self.ciphertext,
            &Array(&self.recipients),
            out,
        )
    }
}

impl TaggedCodec for CoseEncrypt {
    ghost TAG_NUMBER = { 96 };

    const TAG_NUMBER: u64 = 96;
}

/// Builds a [`CoseEncrypt`] field by field. Contracts see the builder as the message that
/// [`build`](CoseEncryptBuilder::build) returns.
#[derive(Debug, Drop)]
pub struct CoseEncryptBuilder(CoseEncrypt);

impl Model for CoseEncryptBuilder {
    ghost use Rattle.std.specs.Coded.{codes};
    ghost use Rattle.coset_recipient.specs.contracts.encrypt.CoseEncrypt as contracts;
    ghost use Rattle.coset_recipient.specs.declared.encrypt.CoseEncrypt.{CoseEncrypt};

    ghost Value = { CoseEncrypt };

    ghost coded = { Prim.hlevel (codes, contracts.the_row.coded) };

    ghost view = { λ b. b.0 };

    ghost inverse = { λ v. record { 0 = v } };
}

impl CoseEncryptBuilder {
    /// Returns a builder of an empty message. Allocates nothing.
    pub fn new(alloc: Global) -> CoseEncryptBuilder
        ensures { encrypt_view result ≡ empty_encrypt }
    {
        CoseEncryptBuilder(CoseEncrypt::new(alloc))
    }

    /// Returns the finished message.
    pub fn build(self) -> CoseEncrypt
        ensures { result ≡ self }
    {
        self.0
    }

    /// Sets the protected header. It counts as not read, so it has no kept bytes.
    pub fn protected(mut self, header: Header) -> CoseEncryptBuilder
        ensures { encrypt_view result ≡ record
            (encrypt_view self) { protected = unread (header_view header) } }
    {
        self.0.protected = ProtectedHeader {
            original_data: None,
            header,
        };
        self
    }

    /// Sets the unprotected header.
    pub fn unprotected(mut self, header: Header) -> CoseEncryptBuilder
        ensures { encrypt_view result ≡ record
            (encrypt_view self) { unprotected = header_view header } }
    {
        self.0.unprotected = header;
        self
    }

    /// Sets the ciphertext.
    pub fn ciphertext(mut self, ciphertext: Vec<u8>) -> CoseEncryptBuilder
        ensures { encrypt_view result ≡ with_ciphertext ciphertext.items (encrypt_view self) }
    {
        self.0.ciphertext = Some(ciphertext);
        self
    }

    /// Calls [`ciphertext`](CoseEncryptBuilder::ciphertext) with a copy of these bytes.
    ///
    /// # Errors
    /// `OutOfMemory` if an allocation fails.
    pub fn ciphertext_from(self, alloc: Global, ciphertext: &[u8]) -> Result<CoseEncryptBuilder>
        ensures ok { IfOk result (λ b. encrypt_view b
            ≡ with_ciphertext ciphertext.now (encrypt_view self)) }
        ensures memory { IfErr result (λ e. e ≡ OutOfMemory) }
    {
        Ok(self.ciphertext(Vec::from_slice(alloc, ciphertext)?))
    }

    /// Appends a recipient.
    ///
    /// # Errors
    /// `OutOfMemory` if an allocation fails.
    pub fn add_recipient(mut self, recipient: CoseRecipient) -> Result<CoseEncryptBuilder>
        ensures ok { IfOk result (λ b. encrypt_view b
            ≡ and_encrypt_recipient (recipient_view recipient) (encrypt_view self)) }
        ensures memory { IfErr result (λ e. e ≡ OutOfMemory) }
    {
        self.0.recipients.push(recipient)?;
        Ok(self)
    }

    /// Calls `cipher` with `plaintext` and the additional authenticated data (RFC 8152, section
    /// 5.3), and sets the ciphertext to its result.
    ///
    /// Set all other fields before this call. `cipher` gets its arguments in this order. It is
    /// called once, or not at all if the additional authenticated data can't be made.
    ///
    /// # Errors
    /// - `OutOfMemory` if an allocation fails.
    /// - `DuplicateMapKey` if the protected header has a label twice in its `rest`. Nested headers
    ///   count too, except those inside kept bytes.
    pub fn create_ciphertext<F>(
        self,
        alloc: Global,
        plaintext: &[u8],
        external_aad: &[u8],
        cipher: F,
    ) -> Result<CoseEncryptBuilder>
    where
        F: FnOnce(&[u8], &[u8]) -> Vec<u8> + Drop,
        requires { F.IsAlwaysCallable cipher }
        ensures { CreatesOf F.FnOnce cipher plaintext.now
            (encrypt_structure_of (encrypt_view self) external_aad.now) (λ c b. encrypt_view b
            ≡ with_ciphertext c.items (encrypt_view self)) result }
    {
        let structure = self.0.aad(alloc, external_aad)?;
        Ok(self.ciphertext(cipher(plaintext, &structure)))
    }

    /// Does the same as [`CoseEncryptBuilder::create_ciphertext`] with a `cipher` that may fail.
    ///
    /// # Errors
    /// - `Coset` with an error of [`CoseEncryptBuilder::create_ciphertext`].
    /// - `Caller` with the error of `cipher`.
    pub fn try_create_ciphertext<F, E>(
        self,
        alloc: Global,
        plaintext: &[u8],
        external_aad: &[u8],
        cipher: F,
    ) -> Result<CoseEncryptBuilder, CallError<E>>
    where
        F: FnOnce(&[u8], &[u8]) -> Result<Vec<u8>, E> + Drop,
        E: Drop,
        requires { F.IsAlwaysCallable cipher }
        ensures { TriesToCreateOf F.FnOnce cipher plaintext.now
            (encrypt_structure_of (encrypt_view self) external_aad.now) (λ c b. encrypt_view b
            ≡ with_ciphertext c.items (encrypt_view self)) result }
    {
        let structure = self.0.aad(alloc, external_aad);
        let ciphertext = call_with(plaintext, structure, cipher)?;
        Ok(self.ciphertext(ciphertext))
    }

    /// Calls `cipher` as [`CoseEncryptBuilder::create_ciphertext`] does, and returns its result: a
    /// detached ciphertext.
    ///
    /// The message is unchanged. Unless a ciphertext was set, null is written in its place
    /// (RFC 9052, section 5.1).
    ///
    /// # Errors
    /// The same as [`CoseEncryptBuilder::create_ciphertext`].
    pub fn create_detached_ciphertext<F>(
        &self,
        alloc: Global,
        plaintext: &[u8],
        external_aad: &[u8],
        cipher: F,
    ) -> Result<Vec<u8>>
    where
        F: FnOnce(&[u8], &[u8]) -> Vec<u8> + Drop,
        requires { F.IsAlwaysCallable cipher }
        ensures { CreatesOf F.FnOnce cipher plaintext.now
            (encrypt_structure_of (encrypt_view self.now) external_aad.now) Itself result }
    {
        let structure = self.0.aad(alloc, external_aad)?;
        Ok(cipher(plaintext, &structure))
    }

    /// Does the same as [`CoseEncryptBuilder::create_detached_ciphertext`] with a `cipher` that may
    /// fail.
    ///
    /// # Errors
    /// - `Coset` with an error of [`CoseEncryptBuilder::create_detached_ciphertext`].
    /// - `Caller` with the error of `cipher`.
    pub fn try_create_detached_ciphertext<F, E>(
        &self,
        alloc: Global,
        plaintext: &[u8],
        external_aad: &[u8],
        cipher: F,
    ) -> Result<Vec<u8>, CallError<E>>
    where
        F: FnOnce(&[u8], &[u8]) -> Result<Vec<u8>, E> + Drop,
        E: Drop,
        requires { F.IsAlwaysCallable cipher }
        ensures { CallsWith F.FnOnce cipher plaintext.now
            (encrypt_structure_of (encrypt_view self.now) external_aad.now) result }
    {
        let structure = self.0.aad(alloc, external_aad);
        call_with(plaintext, structure, cipher)
    }
}
