//! COSE (RFC 8152) over CBOR (RFC 8949): messages that are signed, authenticated by a MAC or
//! encrypted, and their headers.
//!
//! This crate has no code of its own. It re-exports items of the crates below it. An item that the
//! Rust crate `coset` has too is under the same path.
//!
//! To sign, build a [`CoseSign1`]: its builder's `create_signature` signs with a closure. Write the
//! message with `to_vec` of [`CborSerializable`], or with `to_tagged_vec` of
//! [`TaggedCborSerializable`]. A [`CoseSign`] has several signatures ([`CoseSignature`]). Its
//! builder's `add_created_signature` adds one.
//!
//! To verify, read the message with `from_slice`, with `from_tagged_slice`, or with
//! `from_any_slice`, which accepts both forms. Then call `verify_signature` with a closure. The
//! closure receives the signature and the signed bytes, and decides. The signed bytes contain the
//! protected header as it was received. A missing payload counts as empty. For a detached payload,
//! call `verify_detached_signature` instead.
//!
//! A [`CoseCountersignature`] in a header signs the structure that has the header: a message, a
//! signature or a recipient (RFC 9338). [`verify_countersignature`] calls a closure with the
//! countersignature's bytes and the bytes that it signs. The closure decides.
//!
//! A [`CoseMac0`] has a MAC. Its builder's `create_tag` calls a closure for the tag, and
//! `verify_tag` calls one to check it. The message must then carry its payload.
//!
//! A [`CoseEncrypt0`] is encrypted. Its builder's `create_ciphertext` calls a closure for the
//! ciphertext, and `decrypt` calls one for the plaintext. The message must then carry its
//! ciphertext. [`CoseMac`] and [`CoseEncrypt`] also have recipients ([`CoseRecipient`]).
//!
//! Keys are [`CoseKey`] and [`CoseKeySet`], and the context of a key derivation is a
//! [`CoseKdfContext`]. CBOR by itself is in [`cbor`]. The numbers that COSE uses, most of them from
//! IANA's registries, are in [`iana`]. The claims of web tokens are in [`cwt`].
#![tactic(auto)]

pub mod cbor;
pub mod cwt;
pub mod iana;
pub mod laws;

pub use coset_claims::{
    CoseKdfContext, CoseKdfContextBuilder, Nonce, PartyInfo, PartyInfoBuilder, SuppPubInfo,
    SuppPubInfoBuilder,
};
pub use coset_codec::read::{ArrayElements, Decoder, ItemSource, MapEntries};
pub use coset_key::{
    CoseKey, CoseKeyBuilder, CoseKeySet, MlDsaVariant, ParseSec1OctetStringError,
    ToSec1OctetStringError,
};
pub use coset_recipient::{
    Algorithm, AsCborValue, CallError, CborOrdering, CborSerializable, Codec, ContentType,
    CoseCountersignature, CoseCountersignatureBuilder, CoseEncrypt, CoseEncrypt0,
    CoseEncrypt0Builder, CoseEncryptBuilder, CoseError, CoseMac, CoseMac0, CoseMac0Builder,
    CoseMacBuilder, CoseRecipient, CoseRecipientBuilder, CoseSign, CoseSign1, CoseSign1Builder,
    CoseSignBuilder, CoseSignature, CoseSignatureBuilder, Encode, EncryptionContext, EndOfFile,
    FromPull, Header, HeaderBuilder, KeyOperation, KeyType, Label, Lawful, MacContext,
    ProtectedBstr, ProtectedHeader, RegisteredLabel, RegisteredLabelWithPrivate, Result,
    SignatureContext, TaggedCborSerializable, TaggedCodec, countersign_v2_structure_data,
    countersign0_v2_structure_data, enc_structure_data, mac_structure_data, sig_structure_data,
    verify_countersignature,
};
