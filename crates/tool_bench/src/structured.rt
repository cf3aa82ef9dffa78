//! Messages, and the structures that are signed, authenticated, or passed to a cipher.

use crate::fault::Fault;
use coset_recipient::{
    CallError, CoseCountersignature, CoseEncrypt, CoseEncrypt0, CoseMac, CoseMac0, CoseSign,
    CoseSign1, ProtectedHeader, verify_countersignature,
};
use std::alloc::Global;

/// A message with a structure that is signed, authenticated, or passed to a cipher.
pub trait Structured {
    /// Makes the structure with an empty `external_aad`, and returns its length.
    ///
    /// # Errors
    /// - `OutOfMemory` if an allocation fails.
    /// - `Unexpected` if the message lacks the content or signature that the structure needs.
    fn structure_length(&self, alloc: Global) -> Result<usize, Fault>;
}

/// Returns the length that the closure returned as its error, or `Unexpected` if there is none.
fn told<T: Drop>(answer: Result<T, CallError<Option<usize>>>) -> Result<usize, Fault> {
    match answer {
        Err(CallError::Caller(Some(length))) => Ok(length),
        Err(CallError::Coset(error)) => Err(Fault::Cose(error)),
        _ => Err(Fault::Unexpected),
    }
}

/// The structure has an empty protected header of the body, an empty payload, and one other field,
/// which is empty too.
impl Structured for CoseCountersignature {
    fn structure_length(&self, alloc: Global) -> Result<usize, Fault> {
        let body = ProtectedHeader::new(alloc);
        let others = [Vec::new(alloc)];
        told(verify_countersignature(alloc, self, body, &[], &[], &others, |_signature, tbs| {
            Err(Some(tbs.len()))
        }))
    }
}

impl Structured for CoseSign1 {
    fn structure_length(&self, alloc: Global) -> Result<usize, Fault> {
        Ok(self.tbs_data(alloc, &[])?.len())
    }
}

impl Structured for CoseSign {
    fn structure_length(&self, alloc: Global) -> Result<usize, Fault> {
        match self.signatures.first() {
            Some(signature) => Ok(self.tbs_data(alloc, &[], signature)?.len()),
            None => Err(Fault::Unexpected),
        }
    }
}

impl Structured for CoseMac0 {
    fn structure_length(&self, alloc: Global) -> Result<usize, Fault> {
        told(self.verify_payload_tag(alloc, &[], || None, |_tag, data| Err(Some(data.len()))))
    }
}

impl Structured for CoseMac {
    fn structure_length(&self, alloc: Global) -> Result<usize, Fault> {
        told(self.verify_payload_tag(alloc, &[], || None, |_tag, data| Err(Some(data.len()))))
    }
}

impl Structured for CoseEncrypt0 {
    fn structure_length(&self, alloc: Global) -> Result<usize, Fault> {
        told(self.decrypt_ciphertext(alloc, &[], || None, |_text, aad| Err(Some(aad.len()))))
    }
}

impl Structured for CoseEncrypt {
    fn structure_length(&self, alloc: Global) -> Result<usize, Fault> {
        told(self.decrypt_ciphertext(alloc, &[], || None, |_text, aad| Err(Some(aad.len()))))
    }
}
