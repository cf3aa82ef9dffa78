//! The structures of messages and recipients, with an `external_aad`: signed, authenticated, or
//! passed with a ciphertext. Several structures are written one after another.

use crate::form::Form;
use coset::cbor::value::Value;
use coset::{
    AsCborValue, CborSerializable, CoseEncrypt, CoseEncrypt0, CoseError, CoseMac, CoseMac0,
    CoseRecipient, CoseSign, CoseSign1, EncryptionContext, Header, ProtectedHeader, Result,
    SignatureContext, countersign_v2_structure_data, countersign0_v2_structure_data,
    sig_structure_data,
};
use std::alloc::Global;
use std::marker::PhantomData;
use std::slice::from_ref;

/// Messages whose structures can be written.
pub trait Structured: Sized {
    /// Returns the structures of the message: of each signature, of the MAC, or of the ciphertext
    /// (RFC 8152, sections 4.4, 5.3 and 6.3).
    ///
    /// # Errors
    /// - `UnexpectedItem` if a message with a MAC has no payload.
    /// - `OutOfMemory` if an allocation fails.
    fn structures(&self, alloc: Global, external_aad: &[u8]) -> Result<Vec<u8>>;

    /// Returns the parts of the message that are countersigned.
    fn countersigned(&self) -> Countersigned<'_>;
}

impl Structured for CoseSign1 {
    fn structures(&self, alloc: Global, external_aad: &[u8]) -> Result<Vec<u8>> {
        self.tbs_data(alloc, external_aad)
    }

    fn countersigned(&self) -> Countersigned<'_> {
        let others = from_ref(&self.signature);
        Countersigned::new(&self.protected, &self.unprotected, &self.payload, others)
    }
}

impl Structured for CoseSign {
    fn structures(&self, alloc: Global, external_aad: &[u8]) -> Result<Vec<u8>> {
        let mut all = Vec::new(alloc);
        for signature in &self.signatures {
            all.extend_from_slice(&self.tbs_data(alloc, external_aad, signature)?)?;
        }
        Ok(all)
    }

    fn countersigned(&self) -> Countersigned<'_> {
        Countersigned::new(&self.protected, &self.unprotected, &self.payload, &[])
    }
}

impl Structured for CoseMac0 {
    fn structures(&self, alloc: Global, external_aad: &[u8]) -> Result<Vec<u8>> {
        self.tbm(alloc, external_aad)?.ok_or(NO_PAYLOAD)
    }

    fn countersigned(&self) -> Countersigned<'_> {
        let others = from_ref(&self.tag);
        Countersigned::new(&self.protected, &self.unprotected, &self.payload, others)
    }
}

impl Structured for CoseMac {
    fn structures(&self, alloc: Global, external_aad: &[u8]) -> Result<Vec<u8>> {
        self.tbm(alloc, external_aad)?.ok_or(NO_PAYLOAD)
    }

    fn countersigned(&self) -> Countersigned<'_> {
        let others = from_ref(&self.tag);
        Countersigned::new(&self.protected, &self.unprotected, &self.payload, others)
    }
}

impl Structured for CoseEncrypt0 {
    fn structures(&self, alloc: Global, external_aad: &[u8]) -> Result<Vec<u8>> {
        self.aad(alloc, external_aad)
    }

    fn countersigned(&self) -> Countersigned<'_> {
        Countersigned::new(&self.protected, &self.unprotected, &self.ciphertext, &[])
    }
}

impl Structured for CoseEncrypt {
    fn structures(&self, alloc: Global, external_aad: &[u8]) -> Result<Vec<u8>> {
        self.aad(alloc, external_aad)
    }

    fn countersigned(&self) -> Countersigned<'_> {
        Countersigned::new(&self.protected, &self.unprotected, &self.ciphertext, &[])
    }
}

/// The error for a message with a MAC and without a payload.
const NO_PAYLOAD: CoseError = CoseError::UnexpectedItem("nul", "bstr");

/// The parts of a message that are countersigned, and the header with its counter signatures.
#[derive(Drop)]
pub struct Countersigned<'a> {
    body: &'a ProtectedHeader,
    header: &'a Header,
    /// The payload or the ciphertext. It is empty if it is detached.
    content: &'a [u8],
    /// The other fields of the message: its signature or its tag.
    others: &'a [Vec<u8>],
}

impl<'a> Countersigned<'a> {
    fn new(
        body: &'a ProtectedHeader,
        header: &'a Header,
        content: &'a Option<Vec<u8>>,
        others: &'a [Vec<u8>],
    ) -> Countersigned<'a> {
        let content: &[u8] = match content {
            Some(bytes) => bytes,
            None => &[],
        };
        Countersigned {
            body,
            header,
            content,
            others,
        }
    }

    /// Returns the structures of these countersignatures, one after another:
    ///
    /// - each counter signature of label 7 (RFC 8152, section 4.5);
    /// - each countersignature of label 11 (RFC 9338, section 3.3);
    /// - the abbreviated countersignature of label 12, if there are other fields (RFC 9338, section
    ///   3.3).
    fn structures(&self, alloc: Global, external_aad: &[u8]) -> Result<Vec<u8>> {
        let mut all = Vec::new(alloc);
        for signature in &self.header.counter_signatures {
            let one = self.by(alloc, &signature.protected, external_aad, &[])?;
            all.extend_from_slice(&one)?;
        }
        self.push_version_2(alloc, external_aad, &mut all)?;
        if self.header.countersignature0_v2.is_some() && !self.others.is_empty() {
            let body = self.body.clone()?;
            let (content, others) = (self.content, self.others);
            let one = countersign0_v2_structure_data(alloc, body, external_aad, content, others)?;
            all.extend_from_slice(&one)?;
        }
        Ok(all)
    }

    /// Appends the structure of each countersignature of label 11.
    fn push_version_2(&self, alloc: Global, external_aad: &[u8], all: &mut Vec<u8>) -> Result<()> {
        for signature in &self.header.countersignatures_v2 {
            let one = self.by(alloc, &signature.protected, external_aad, self.others)?;
            all.extend_from_slice(&one)?;
        }
        Ok(())
    }

    /// Returns the structure of the countersignature with this protected header.
    fn by(
        &self,
        alloc: Global,
        signer: &ProtectedHeader,
        external_aad: &[u8],
        others: &[Vec<u8>],
    ) -> Result<Vec<u8>> {
        let body = self.body.clone()?;
        let signer = signer.clone()?;
        let content = self.content;
        if others.is_empty() {
            let context = SignatureContext::CounterSignature;
            sig_structure_data(alloc, context, body, Some(signer), external_aad, content)
        } else {
            countersign_v2_structure_data(alloc, body, signer, external_aad, content, others)
        }
    }
}

/// The bytes that are made from a value.
pub trait Made<T> {
    /// Returns these bytes.
    ///
    /// # Errors
    /// - A fault in a value from which they can't be made.
    /// - `OutOfMemory` if an allocation fails.
    fn made(alloc: Global, value: &T, external_aad: &[u8]) -> Result<Vec<u8>>;
}

/// An item of the type itself, for which the bytes of `M` are written.
pub struct Of<M> {
    made: PhantomData<M>,
}

impl<T: CborSerializable + Drop, M: Made<T>> Form<T> for Of<M> {
    const IS_STRUCTURE: bool = true;

    fn read(alloc: Global, bytes: &[u8]) -> Result<T> {
        T::from_slice(alloc, bytes)
    }

    fn read_item(alloc: Global, item: Value) -> Result<T> {
        T::from_cbor_value(alloc, item)
    }

    fn write(alloc: Global, value: T, external_aad: &[u8]) -> Result<Vec<u8>> {
        M::made(alloc, &value, external_aad)
    }
}

/// The structures of a message.
pub struct Structures;

impl<T: Structured> Made<T> for Structures {
    fn made(alloc: Global, value: &T, external_aad: &[u8]) -> Result<Vec<u8>> {
        value.structures(alloc, external_aad)
    }
}

/// The structures of a message's counter signatures.
pub struct Countersignatures;

impl<T: Structured> Made<T> for Countersignatures {
    fn made(alloc: Global, value: &T, external_aad: &[u8]) -> Result<Vec<u8>> {
        value.countersigned().structures(alloc, external_aad)
    }
}

/// The structure of a recipient of an encrypted message (RFC 8152, section 5.3).
pub struct EncRecipient;

impl Made<CoseRecipient> for EncRecipient {
    fn made(alloc: Global, value: &CoseRecipient, external_aad: &[u8]) -> Result<Vec<u8>> {
        value.aad(alloc, EncryptionContext::EncRecipient, external_aad)
    }
}

/// The structure of a recipient of a message with a MAC.
pub struct MacRecipient;

impl Made<CoseRecipient> for MacRecipient {
    fn made(alloc: Global, value: &CoseRecipient, external_aad: &[u8]) -> Result<Vec<u8>> {
        value.aad(alloc, EncryptionContext::MacRecipient, external_aad)
    }
}

/// The structure of a recipient of another recipient.
pub struct RecRecipient;

impl Made<CoseRecipient> for RecRecipient {
    fn made(alloc: Global, value: &CoseRecipient, external_aad: &[u8]) -> Result<Vec<u8>> {
        value.aad(alloc, EncryptionContext::RecRecipient, external_aad)
    }
}
