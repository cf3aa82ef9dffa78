//! The kinds of bytes in rows, by name: the type of each, and the form of its values in bytes.

use crate::answer::answer_words;
use crate::form::{AsValue, Form, InString, Plain, Tagged};
use crate::structures::{
    Countersignatures, EncRecipient, MacRecipient, Of, RecRecipient, Structures,
};
use crate::sweep::every;
use coset::cbor::value::Value;
use coset::cwt::{ClaimName, ClaimsSet, Timestamp};
use coset::iana::{EllipticCurve, HeaderParameter};
use coset::{
    Algorithm, ContentType, CoseCountersignature, CoseEncrypt, CoseEncrypt0, CoseKdfContext,
    CoseKey, CoseKeySet, CoseMac, CoseMac0, CoseRecipient, CoseSign, CoseSign1, CoseSignature,
    Header, KeyOperation, KeyType, Label, PartyInfo, ProtectedHeader, RegisteredLabel,
    RegisteredLabelWithPrivate, SuppPubInfo,
};
use std::alloc::{AllocError, Global};

/// A question about a kind.
#[derive(Clone, Copy)]
pub enum Question<'a> {
    /// The answer to the bytes that these words spell.
    Row(&'a str),
    /// The number of short inputs that encode a value.
    Every,
}

impl Question<'_> {
    /// Returns the answer for values of the type in that form.
    fn of<F: Form<T>, T: PartialEq + Drop>(self, alloc: Global) -> Result<String, AllocError> {
        match self {
            Question::Row(words) => answer_words::<F, T>(alloc, words),
            Question::Every => every::<F, T>(alloc),
        }
    }

    /// Returns the answer for the kind of that name without a tag, or `None` if there is no such
    /// kind.
    pub fn ask(self, alloc: Global, name: &str) -> Option<Result<String, AllocError>> {
        Some(match name {
            "value" => self.of::<Plain, Value>(alloc),
            "label" => self.of::<Plain, Label>(alloc),
            "algorithm" => self.of::<Plain, Algorithm>(alloc),
            "content_type" => self.of::<Plain, ContentType>(alloc),
            "key_type" => self.of::<Plain, KeyType>(alloc),
            "key_operation" => self.of::<Plain, KeyOperation>(alloc),
            "claim_name" => self.of::<Plain, ClaimName>(alloc),
            "header_parameter" => {
                self.of::<Plain, RegisteredLabelWithPrivate<HeaderParameter>>(alloc)
            }
            // This type refuses numbers for private use.
            "elliptic_curve" => self.of::<Plain, RegisteredLabel<EllipticCurve>>(alloc),
            "header" => self.of::<Plain, Header>(alloc),
            "protected" => self.of::<Plain, ProtectedHeader>(alloc),
            "protected_bstr" => self.of::<InString, ProtectedHeader>(alloc),
            "signature" => self.of::<Plain, CoseSignature>(alloc),
            "countersignature" => self.of::<Plain, CoseCountersignature>(alloc),
            "recipient" => self.of::<Plain, CoseRecipient>(alloc),
            "sign1" => self.of::<Plain, CoseSign1>(alloc),
            "sign" => self.of::<Plain, CoseSign>(alloc),
            "mac" => self.of::<Plain, CoseMac>(alloc),
            "mac0" => self.of::<Plain, CoseMac0>(alloc),
            "encrypt" => self.of::<Plain, CoseEncrypt>(alloc),
            "encrypt0" => self.of::<Plain, CoseEncrypt0>(alloc),
            "key" => self.of::<Plain, CoseKey>(alloc),
            "keyset" => self.of::<Plain, CoseKeySet>(alloc),
            "claims" => self.of::<Plain, ClaimsSet>(alloc),
            "timestamp" => self.of::<AsValue, Timestamp>(alloc),
            "party" => self.of::<Plain, PartyInfo>(alloc),
            "supp_pub" => self.of::<Plain, SuppPubInfo>(alloc),
            "kdf" => self.of::<Plain, CoseKdfContext>(alloc),
            _ => return self.ask_structure(alloc, name),
        })
    }

    /// Returns the answer for the kind of that name whose structures are written, or `None` if
    /// there is no such kind.
    fn ask_structure(self, alloc: Global, name: &str) -> Option<Result<String, AllocError>> {
        Some(match name {
            // Structures that are signed, authenticated, or passed with the ciphertext (RFC 8152,
            // sections 4.4, 6.3, 5.3).
            "sign1_tbs" => self.of::<Of<Structures>, CoseSign1>(alloc),
            "sign_tbs" => self.of::<Of<Structures>, CoseSign>(alloc),
            "mac0_tbm" => self.of::<Of<Structures>, CoseMac0>(alloc),
            "mac_tbm" => self.of::<Of<Structures>, CoseMac>(alloc),
            "encrypt0_aad" => self.of::<Of<Structures>, CoseEncrypt0>(alloc),
            "encrypt_aad" => self.of::<Of<Structures>, CoseEncrypt>(alloc),
            // Structures of recipients: of encrypted messages, of messages with a MAC, and of other
            // recipients.
            "enc_recipient_aad" => self.of::<Of<EncRecipient>, CoseRecipient>(alloc),
            "mac_recipient_aad" => self.of::<Of<MacRecipient>, CoseRecipient>(alloc),
            "rec_recipient_aad" => self.of::<Of<RecRecipient>, CoseRecipient>(alloc),
            // Structures of a message's counter signatures (RFC 8152, section 4.5; RFC 9338,
            // section 3.3).
            "sign1_countersigned" => self.of::<Of<Countersignatures>, CoseSign1>(alloc),
            "sign_countersigned" => self.of::<Of<Countersignatures>, CoseSign>(alloc),
            "mac0_countersigned" => self.of::<Of<Countersignatures>, CoseMac0>(alloc),
            "mac_countersigned" => self.of::<Of<Countersignatures>, CoseMac>(alloc),
            "encrypt0_countersigned" => self.of::<Of<Countersignatures>, CoseEncrypt0>(alloc),
            "encrypt_countersigned" => self.of::<Of<Countersignatures>, CoseEncrypt>(alloc),
            _ => return None,
        })
    }

    /// Returns the answer for the kind of that name under its tag, or `None` if no kind has the
    /// name and a tag.
    pub fn ask_tagged(self, alloc: Global, name: &str) -> Option<Result<String, AllocError>> {
        Some(match name {
            "countersignature" => self.of::<Tagged, CoseCountersignature>(alloc),
            "sign1" => self.of::<Tagged, CoseSign1>(alloc),
            "sign" => self.of::<Tagged, CoseSign>(alloc),
            "mac" => self.of::<Tagged, CoseMac>(alloc),
            "mac0" => self.of::<Tagged, CoseMac0>(alloc),
            "encrypt" => self.of::<Tagged, CoseEncrypt>(alloc),
            "encrypt0" => self.of::<Tagged, CoseEncrypt0>(alloc),
            _ => return None,
        })
    }
}
