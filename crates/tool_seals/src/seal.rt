//! A signature, MAC or ciphertext of a message, with what decides which key fits it.

ghost use Rattle.std.specs.Prelude.{◌≡◌};
ghost use Rattle.cwt_keys.specs.Sealed.{seal_view};
ghost use Rattle.tool_seals.specs.Seals.{bytes_or_none, parts_of, structure_of};

use crate::remarks::Remarks;
use coset::{Header, ProtectedHeader};
use cwt_keys::{Form, Sealed};
use std::alloc::{AllocError, Global};

/// The part of a message that a seal is.
#[derive(Clone, Copy, Debug, PartialEq, Eq)]
pub enum Part {
    /// The signature of a `COSE_Sign1`.
    Signature,
    /// The signature at this index of a `COSE_Sign`.
    Signer(usize),
    /// The MAC of a `COSE_Mac0` or a `COSE_Mac`.
    Tag,
    /// The ciphertext of a `COSE_Encrypt0` or a `COSE_Encrypt`.
    Ciphertext,
    /// The countersignature at this index under label 7 (RFC 8152, section 4.5).
    Countersignature(usize),
    /// The countersignature of version 2 at this index under label 11 (RFC 9338, section 3.1).
    CountersignatureV2(usize),
    /// The abbreviated countersignature of version 2 under label 12 (RFC 9338, section 3.2).
    AbbreviatedV2,
}

/// A signature, MAC or ciphertext of a message, with the headers that say which key it is by.
#[derive(Drop)]
pub struct Seal {
    /// The index of the message, from the outermost in.
    pub layer: usize,
    /// The part of the message.
    pub part: Part,
    /// The form of the layer. It is `Sign` for a signature with headers of its own.
    pub form: Form,
    /// The protected header, with the bytes as they were received.
    pub protected: ProtectedHeader,
    /// The unprotected header.
    pub unprotected: Header,
    /// The unprotected header of the only recipient, if there is exactly one.
    pub recipient: Option<Header>,
    /// The signature or the MAC; empty for a ciphertext.
    pub proof: Vec<u8>,
    /// The bytes that the signature or the MAC covers, or `None` if the payload is detached or the
    /// library makes no such structure. `None` for a ciphertext.
    pub structure: Option<Vec<u8>>,
    /// What headers outside the seal's own two have: those of the message around a signature of a
    /// `COSE_Sign`, and those of recipients.
    pub outside: Remarks,
}

impl Seal {
    /// Returns what the headers of the seal's layer have, and those of recipients and of a message
    /// around it.
    ///
    /// # Errors
    /// `AllocError` if an allocation fails.
    pub fn remarks(&self, alloc: Global) -> Result<Remarks, AllocError> {
        let own = Remarks::of(alloc, &self.protected.header, &self.unprotected)?;
        Ok(own.or(self.outside))
    }
}

impl Seal {
    /// Returns the structure. It is empty if there is none.
    fn structure_bytes(&self) -> &[u8]
        ensures { result.now ≡ bytes_or_none (structure_of self.now) }
    {
        match &self.structure {
            Some(structure) => structure,
            None => &[],
        }
    }

    /// Returns the parts that decide which key fits.
    pub fn sealed(&self) -> Sealed<'_>
        ensures { seal_view result ≡ parts_of self.now }
    {
        let structure = self.structure_bytes();
        match &self.recipient {
            Some(recipient) => Sealed::for_recipient(
                self.form,
                &self.protected,
                &self.unprotected,
                &self.proof,
                structure,
                recipient,
            ),
            None => Sealed::new(
                self.form,
                &self.protected,
                &self.unprotected,
                &self.proof,
                structure,
            ),
        }
    }
}
