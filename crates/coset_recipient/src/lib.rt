//! Recipients (RFC 8152, section 5.1), and messages with recipients: encrypted messages
//! (section 5.1) and messages with a MAC (section 6.1).
#![tactic(auto)]

mod encrypt;
pub mod laws;
mod mac;
mod recipient;

pub use coset_msg::{
    Algorithm, AsCborValue, CallError, CborOrdering, CborSerializable, ClaimName, Codec,
    ContentType, CoseCountersignature, CoseCountersignatureBuilder, CoseEncrypt0,
    CoseEncrypt0Builder, CoseError, CoseMac0, CoseMac0Builder, CoseSignature, CoseSignatureBuilder,
    Encode, EncryptionContext, EndOfFile, FromPull, Header, HeaderBuilder, ItemSource,
    KeyOperation, KeyType, Label, Lawful, MacContext, ProtectedBstr, ProtectedHeader, ProtectedRef,
    RegisteredLabel, RegisteredLabelWithPrivate, Result, TaggedCborSerializable, TaggedCodec, cbor,
    codec, enc_structure_data, has_repeats, iana, mac_structure_data, util,
};
pub use coset_sign::{
    CoseSign, CoseSign1, CoseSign1Builder, CoseSignBuilder, SignatureContext,
    countersign_v2_structure_data, countersign0_v2_structure_data, sig_structure_data,
    verify_countersignature,
};
pub use encrypt::{CoseEncrypt, CoseEncryptBuilder};
pub use mac::{CoseMac, CoseMacBuilder};
pub use recipient::{CoseRecipient, CoseRecipientBuilder};
