//! Encrypted messages for receivers that know the key (RFC 8152, section 5.2).

ghost use Rattle.std.specs.Prelude.{◌≡◌, ◌≢◌, IfOk, IfErr, IfSome, Some, None};
ghost use Rattle.coset_codec.specs.declared.error.CoseError.TheVariants.{OutOfMemory};
ghost use Rattle.coset_codec.specs.Results.{Writes};
ghost use Rattle.coset_core.specs.Messages.{unread};
ghost use Rattle.coset_core.specs.Views.{header_view};
ghost use Rattle.coset_core.specs.Calls.{CallsWith, Itself};
ghost use Rattle.coset_msg.specs.Encrypt0.{empty_encrypt0, encrypt0, encrypt0_view, encrypt0_structure, with_ciphertext};
ghost use Rattle.coset_msg.specs.Presence.{CallsIfPresent, CreatesOf, TriesToCreateOf};

use crate::enc_structure::{EncryptionContext, enc_structure_of};
use coset_codec::read::{Decoder, drop_refused};
use coset_codec::util::copy_bstr;
use coset_codec::write::{Encode, encode_three};
use coset_codec::{CallError, Codec, Result, TaggedCodec};
use coset_core::calls::call_with;
use coset_core::{BstrOrNil, Header, ProtectedHeader, ProtectedRef, read_with_headers};
use std::alloc::{AllocError, Global};
use std::marker::Model;

/// An encrypted message, for receivers that know the key: `COSE_Encrypt0` (RFC 8152, section 5.2).
///
/// ```cddl
/// COSE_Encrypt0 = [ Headers, ciphertext : bstr / nil ]
/// ```
#[derive(Debug, Drop, PartialEq, Eq)]
pub struct CoseEncrypt0 {
    /// The header that is authenticated with the ciphertext.
    pub protected: ProtectedHeader,
    /// The header that isn't authenticated.
    pub unprotected: Header,
    /// The ciphertext, or `None` if it is detached.
    pub ciphertext: Option<Vec<u8>>,
}

/// The expected item, as the error for a wrong number of elements names it.
const EXPECTED_ARRAY: &str = "array with 3 items";

impl CoseEncrypt0 {
    /// Returns an empty message: empty headers, no ciphertext. Allocates nothing.
    pub fn new(alloc: Global) -> CoseEncrypt0
        ensures { encrypt0_view result ≡ empty_encrypt0 }
    {
        CoseEncrypt0 {
            protected: ProtectedHeader::new(alloc),
            unprotected: Header::new(alloc),
            ciphertext: None,
        }
    }

    /// Returns the additional authenticated data: the encoded `Enc_structure` (RFC 8152,
    /// section 5.3).
    ///
    /// A protected header that was read is represented by its kept bytes. The message may carry its
    /// ciphertext or not.
    ///
    /// # Errors
    /// - `OutOfMemory` if an allocation fails.
    /// - `DuplicateMapKey` if the protected header has no kept bytes and has a label twice in its
    ///   `rest`. Nested headers count too, except those inside kept bytes.
    pub fn aad(&self, alloc: Global, external_aad: &[u8]) -> Result<Vec<u8>>
        ensures { Writes (encrypt0_structure (encrypt0_view self.now) external_aad.now) (λ b.
            b.items) result }
    {
        enc_structure_of(
            alloc,
            EncryptionContext::CoseEncrypt0,
            &self.protected,
            external_aad,
        )
    }

    /// Returns the ciphertext, which the message must carry.
    fn attached(&self) -> &[u8]
        requires { self.now.ciphertext ≢ None }
        ensures { (encrypt0_view self.now).ciphertext ≡ Some result.now }
    {
        match &self.ciphertext {
            Some(ciphertext) => ciphertext,
            None => unreachable!(),
        }
    }

    /// Calls `cipher` with the ciphertext and the additional authenticated data (RFC 8152, section
    /// 5.3), and returns its result.
    ///
    /// The message must carry its ciphertext. `cipher` gets its arguments in this order. It is
    /// called once, or not at all if the additional authenticated data can't be made.
    ///
    /// # Errors
    /// - `Coset` with an error of [`CoseEncrypt0::aad`].
    /// - `Caller` with the error of `cipher`.
    pub fn decrypt<F, E>(
        &self,
        alloc: Global,
        external_aad: &[u8],
        cipher: F,
    ) -> Result<Vec<u8>, CallError<E>>
    where
        F: FnOnce(&[u8], &[u8]) -> Result<Vec<u8>, E> + Drop,
        E: Drop,
        requires callable { F.IsAlwaysCallable cipher }
        requires attached { self.now.ciphertext ≢ None }
        ensures { IfSome (encrypt0_view self.now).ciphertext (λ c. CallsWith F.FnOnce cipher c
            (encrypt0_structure (encrypt0_view self.now) external_aad.now) result) }
    {
        let structure = self.aad(alloc, external_aad);
        call_with(self.attached(), structure, cipher)
    }

    /// Does the same as [`CoseEncrypt0::decrypt`] if the message carries a ciphertext. Otherwise
    /// `missing` is called for the error, and `cipher` isn't called.
    ///
    /// # Errors
    /// - The errors of [`CoseEncrypt0::decrypt`].
    /// - `Caller` with the result of `missing`, if the message carries no ciphertext.
    pub fn decrypt_ciphertext<F, E, M>(
        &self,
        alloc: Global,
        external_aad: &[u8],
        missing: M,
        cipher: F,
    ) -> Result<Vec<u8>, CallError<E>>
    where
        F: FnOnce(&[u8], &[u8]) -> Result<Vec<u8>, E> + Drop,
        E: Drop,
        M: FnOnce() -> E + Drop,
        requires callable { F.IsAlwaysCallable cipher }
        requires missing_callable { M.IsAlwaysCallable missing }
        ensures { CallsIfPresent F.FnOnce cipher M.FnOnce missing
            (encrypt0_view self.now).ciphertext (λ c. c)
            (λ _. encrypt0_structure (encrypt0_view self.now) external_aad.now) result }
    {
        let Some(ciphertext) = &self.ciphertext else {
            return Err(CallError::Caller(missing()));
        };
        let structure = self.aad(alloc, external_aad);
        call_with(ciphertext, structure, cipher)
    }

    /// Does the same as [`CoseEncrypt0::decrypt`] for a detached ciphertext (RFC 9052,
    /// section 5.1). `ciphertext` takes the place of a ciphertext that the message carries.
    ///
    /// # Errors
    /// The same as [`CoseEncrypt0::decrypt`].
    pub fn decrypt_detached<F, E>(
        &self,
        alloc: Global,
        ciphertext: &[u8],
        external_aad: &[u8],
        cipher: F,
    ) -> Result<Vec<u8>, CallError<E>>
    where
        F: FnOnce(&[u8], &[u8]) -> Result<Vec<u8>, E> + Drop,
        E: Drop,
        requires { F.IsAlwaysCallable cipher }
        ensures { CallsWith F.FnOnce cipher ciphertext.now
            (encrypt0_structure (encrypt0_view self.now) external_aad.now) result }
    {
        let structure = self.aad(alloc, external_aad);
        call_with(ciphertext, structure, cipher)
    }

    /// Returns a message equal to this one, kept bytes included.
    ///
    /// # Errors
    /// `OutOfMemory` if an allocation fails.
    pub fn clone(&self) -> Result<CoseEncrypt0>
        ensures copy { IfOk result (λ m. encrypt0_view m ≡ encrypt0_view self.now) }
        ensures memory { IfErr result (λ e. e ≡ OutOfMemory) }
    {
        Ok(Clone::clone(self)?)
    }
}

/// The same as [`CoseEncrypt0::clone`], for generic code.
impl Clone for CoseEncrypt0 {
    ghost is_clone = { λ message copy. encrypt0_view copy ≡ encrypt0_view message };

    fn clone(&self) -> Result<CoseEncrypt0, AllocError> {
        Ok(CoseEncrypt0 {
            protected: Clone::clone(&self.protected)?,
            unprotected: Clone::clone(&self.unprotected)?,
            ciphertext: copy_bstr(&self.ciphertext)?,
        })
    }
}

impl Codec for CoseEncrypt0 {
    ghost use Rattle.coset_msg.specs.Equality.{encrypt0_decides};
    ghost use Rattle.coset_codec.specs.EqDecides.{bstr_decides};
    ghost use Rattle.coset_core.specs.EqDecides.{header_decides, protected_decides};
    ghost use Rattle.coset_msg.specs.Encrypt0.{Encrypt0View, encrypt0_laws};

    ghost View = { Encrypt0View };

    ghost view = { encrypt0_view };

    ghost shape = { encrypt0 };

    ghost laws = { encrypt0_laws };

    ghost equal = { λ a b. encrypt0_decides (protected_decides a.protected b.protected)
        (header_decides a.unprotected b.unprotected)
        (bstr_decides a.ciphertext b.ciphertext) };

    fn read(alloc: Global, input: &mut Decoder<'_>) -> Result<CoseEncrypt0> {
        let mut message = CoseEncrypt0::new(alloc);
        match read_with_headers(
            &mut message.protected,
            &mut message.unprotected,
            alloc,
            input,
            EXPECTED_ARRAY,
        ) {
            Ok((BstrOrNil(ciphertext), ())) => {
                message.ciphertext = ciphertext;
            }
            Err(error) => {
                drop_refused(message);
                return Err(error);
            }
        }
        Ok(message)
    }

    fn size_hint(&self) -> usize {
        ProtectedRef(&self.protected)
            .encoded_size_hint()
            .saturating_add(self.unprotected.encoded_size_hint())
            .saturating_add(self.ciphertext.encoded_size_hint())
    }

    fn write(&self, alloc: Global, out: &mut Vec<u8>) -> Result<()> {
        let protected = ProtectedRef(&self.protected);
        encode_three(alloc, &protected, &self.unprotected, &self.ciphertext, out)
    }
}

impl TaggedCodec for CoseEncrypt0 {
    ghost TAG_NUMBER = { 16 };

    const TAG_NUMBER: u64 = 16;
}

/// Builds a [`CoseEncrypt0`] field by field. Contracts see the builder as the message that
/// [`build`](CoseEncrypt0Builder::build) returns.
#[derive(Debug, Drop)]
pub struct CoseEncrypt0Builder(CoseEncrypt0);

impl Model for CoseEncrypt0Builder {
    ghost use Rattle.std.specs.Coded.{codes};
    ghost use Rattle.coset_msg.specs.contracts.encrypt0.CoseEncrypt0 as contracts;
    ghost use Rattle.coset_msg.specs.declared.encrypt0.CoseEncrypt0.{CoseEncrypt0};

    ghost Value = { CoseEncrypt0 };

    ghost coded = { Prim.hlevel (codes, contracts.the_row.coded) };

    ghost view = { λ b. b.0 };

    ghost inverse = { λ v. record { 0 = v } };
}

impl CoseEncrypt0Builder {
    /// Returns a builder of an empty message. Allocates nothing.
    pub fn new(alloc: Global) -> CoseEncrypt0Builder
        ensures { encrypt0_view result ≡ empty_encrypt0 }
    {
        CoseEncrypt0Builder(CoseEncrypt0::new(alloc))
    }

    /// Returns the finished message.
    pub fn build(self) -> CoseEncrypt0
        ensures { result ≡ self }
    {
        self.0
    }

    /// Sets the protected header. It counts as not read, so it has no kept bytes.
    pub fn protected(mut self, header: Header) -> CoseEncrypt0Builder
        ensures { encrypt0_view result ≡ record
            (encrypt0_view self) { protected = unread (header_view header) } }
    {
        self.0.protected = ProtectedHeader {
            original_data: None,
            header,
        };
        self
    }

    /// Sets the unprotected header.
    pub fn unprotected(mut self, header: Header) -> CoseEncrypt0Builder
        ensures { encrypt0_view result ≡ record
            (encrypt0_view self) { unprotected = header_view header } }
    {
        self.0.unprotected = header;
        self
    }

    /// Sets the ciphertext.
    pub fn ciphertext(mut self, ciphertext: Vec<u8>) -> CoseEncrypt0Builder
        ensures { encrypt0_view result ≡ with_ciphertext ciphertext.items (encrypt0_view self) }
    {
        self.0.ciphertext = Some(ciphertext);
        self
    }

    /// Calls [`ciphertext`](CoseEncrypt0Builder::ciphertext) with a copy of these bytes.
    ///
    /// # Errors
    /// `OutOfMemory` if an allocation fails.
    pub fn ciphertext_from(self, alloc: Global, ciphertext: &[u8]) -> Result<CoseEncrypt0Builder>
        ensures ok { IfOk result (λ b. encrypt0_view b
            ≡ with_ciphertext ciphertext.now (encrypt0_view self)) }
        ensures memory { IfErr result (λ e. e ≡ OutOfMemory) }
    {
        Ok(self.ciphertext(Vec::from_slice(alloc, ciphertext)?))
    }

    /// Calls `cipher` with `plaintext` and the additional authenticated data (RFC 8152, section
    /// 5.3), and sets the ciphertext to its result.
    ///
    /// Set all other fields before this call. `cipher` gets its arguments in this order. It is
    /// called once, or not at all if the additional authenticated data can't be made.
    ///
    /// # Errors
    /// - `OutOfMemory` if an allocation fails.
    /// - `DuplicateMapKey` if the protected header has a label twice in its `rest`. Nested headers
    ///   count too, except those inside kept bytes.
    pub fn create_ciphertext<F>(
        self,
        alloc: Global,
        plaintext: &[u8],
        external_aad: &[u8],
        cipher: F,
    ) -> Result<CoseEncrypt0Builder>
    where
        F: FnOnce(&[u8], &[u8]) -> Vec<u8> + Drop,
        requires { F.IsAlwaysCallable cipher }
        ensures { CreatesOf F.FnOnce cipher plaintext.now
            (encrypt0_structure (encrypt0_view self) external_aad.now) (λ c b. encrypt0_view b
            ≡ with_ciphertext c.items (encrypt0_view self)) result }
    {
        let structure = self.0.aad(alloc, external_aad)?;
        Ok(self.ciphertext(cipher(plaintext, &structure)))
    }

    /// Does the same as [`CoseEncrypt0Builder::create_ciphertext`] with a `cipher` that may fail.
    ///
    /// # Errors
    /// - `Coset` with an error of [`CoseEncrypt0Builder::create_ciphertext`].
    /// - `Caller` with the error of `cipher`.
    pub fn try_create_ciphertext<F, E>(
        self,
        alloc: Global,
        plaintext: &[u8],
        external_aad: &[u8],
        cipher: F,
    ) -> Result<CoseEncrypt0Builder, CallError<E>>
    where
        F: FnOnce(&[u8], &[u8]) -> Result<Vec<u8>, E> + Drop,
        E: Drop,
        requires { F.IsAlwaysCallable cipher }
        ensures { TriesToCreateOf F.FnOnce cipher plaintext.now
            (encrypt0_structure (encrypt0_view self) external_aad.now) (λ c b. encrypt0_view b
            ≡ with_ciphertext c.items (encrypt0_view self)) result }
    {
        let structure = self.0.aad(alloc, external_aad);
        let ciphertext = call_with(plaintext, structure, cipher)?;
        Ok(self.ciphertext(ciphertext))
    }

    /// Calls `cipher` as [`CoseEncrypt0Builder::create_ciphertext`] does, and returns its result: a
    /// detached ciphertext.
    ///
    /// The message is unchanged. Unless a ciphertext was set, null is written in its place
    /// (RFC 9052, section 5.1).
    ///
    /// # Errors
    /// The same as [`CoseEncrypt0Builder::create_ciphertext`].
    pub fn create_detached_ciphertext<F>(
        &self,
        alloc: Global,
        plaintext: &[u8],
        external_aad: &[u8],
        cipher: F,
    ) -> Result<Vec<u8>>
    where
        F: FnOnce(&[u8], &[u8]) -> Vec<u8> + Drop,
        requires { F.IsAlwaysCallable cipher }
        ensures { CreatesOf F.FnOnce cipher plaintext.now
            (encrypt0_structure (encrypt0_view self.now) external_aad.now) Itself result }
    {
        let structure = self.0.aad(alloc, external_aad)?;
        Ok(cipher(plaintext, &structure))
    }

    /// Does the same as [`CoseEncrypt0Builder::create_detached_ciphertext`] with a `cipher` that
    /// may fail.
    ///
    /// # Errors
    /// - `Coset` with an error of [`CoseEncrypt0Builder::create_detached_ciphertext`].
    /// - `Caller` with the error of `cipher`.
    pub fn try_create_detached_ciphertext<F, E>(
        &self,
        alloc: Global,
        plaintext: &[u8],
        external_aad: &[u8],
        cipher: F,
    ) -> Result<Vec<u8>, CallError<E>>
    where
        F: FnOnce(&[u8], &[u8]) -> Result<Vec<u8>, E> + Drop,
        E: Drop,
        requires { F.IsAlwaysCallable cipher }
        ensures { CallsWith F.FnOnce cipher plaintext.now
            (encrypt0_structure (encrypt0_view self.now) external_aad.now) result }
    {
        let structure = self.0.aad(alloc, external_aad);
        call_with(plaintext, structure, cipher)
    }
}
