//! Kinds of items, and the decoding of bytes as an item of one.

ghost use Rattle.std.specs.Prelude.{◌≡◌};
ghost use Rattle.coset.specs.PerhapsTagged.{perhaps_tagged};
ghost use Rattle.coset.specs.Shape.{tagged};
ghost use Rattle.ffi_query.specs.Kinds.{Checks, ChecksAs, in_form, tag_of};

use coset::cbor::value::Value;
use coset::cwt::ClaimsSet;
use coset::{
    CborSerializable, CoseEncrypt, CoseEncrypt0, CoseKdfContext, CoseKey, CoseKeySet, CoseMac,
    CoseMac0, CoseRecipient, CoseSign, CoseSign1, CoseSignature, Header, Result,
    TaggedCborSerializable,
};
use std::alloc::Global;

/// Whether a message is under its tag (RFC 8152, section 2).
#[derive(Clone, Copy, Debug, PartialEq, Eq)]
pub enum Form {
    /// Without its tag: `COSE_Untagged_Message`.
    Plain,
    /// Under its tag: `COSE_Tagged_Message`.
    Tagged,
    /// Both are accepted.
    Either,
}

/// The kind of item that the bytes should be.
#[derive(Clone, Copy, Debug, PartialEq, Eq)]
pub enum Kind {
    /// A message with one signature: `COSE_Sign1` (RFC 8152, section 4.2).
    Sign1(Form),
    /// A message with any number of signatures: `COSE_Sign` (RFC 8152, section 4.1).
    Sign(Form),
    /// A message with a MAC, whose receivers know the key: `COSE_Mac0` (RFC 8152, section 6.2).
    Mac0(Form),
    /// A message with a MAC and recipients: `COSE_Mac` (RFC 8152, section 6.1).
    Mac(Form),
    /// An encrypted message, whose receivers know the key: `COSE_Encrypt0` (RFC 8152, section 5.2).
    Encrypt0(Form),
    /// An encrypted message with recipients: `COSE_Encrypt` (RFC 8152, section 5.1).
    Encrypt(Form),
    /// A signature of a `COSE_Sign` message: `COSE_Signature` (RFC 8152, section 4.1).
    Signature,
    /// A recipient: `COSE_recipient` (RFC 8152, section 5.1).
    Recipient,
    /// A header: `header_map` (RFC 8152, section 3).
    Header,
    /// A key: `COSE_Key` (RFC 8152, section 7).
    Key,
    /// A set of keys: `COSE_KeySet` (RFC 8152, section 7).
    KeySet,
    /// The claims of a web token (RFC 8392, section 3).
    Claims,
    /// Any data item of CBOR.
    Any,
    /// The context of a key derivation: `COSE_KDF_Context` (RFC 8152, section 11.2).
    KdfContext,
}

impl Kind {
    /// Returns the number of a message's tag, in every form (RFC 8152, section 2, table 1). Returns
    /// `None` for all other kinds.
    pub fn tag(self) -> Option<u64>
        ensures { result ≡ tag_of self }
    {
        match self {
            Kind::Sign1(_) => Some(18),
            Kind::Sign(_) => Some(98),
            Kind::Mac0(_) => Some(17),
            Kind::Mac(_) => Some(97),
            Kind::Encrypt0(_) => Some(16),
            Kind::Encrypt(_) => Some(96),
            _ => None,
        }
    }
}

/// Checks that the bytes describe a value of the type.
fn check_plain<T: CborSerializable + Drop>(alloc: Global, bytes: &[u8]) -> Result<()>
    ensures { ChecksAs T.shape bytes.now result }
{
    let _value = T::from_slice(alloc, bytes)?;
    Ok(())
}

/// Checks that the bytes describe a value of the type under its tag.
fn check_tagged<T: TaggedCborSerializable + Drop>(alloc: Global, bytes: &[u8]) -> Result<()>
    ensures { ChecksAs (tagged T.TAG T.shape) bytes.now result }
{
    let _value = T::from_tagged_slice(alloc, bytes)?;
    Ok(())
}

/// Checks that the bytes describe a value of the type, under its tag or plain.
fn check_either<T: TaggedCborSerializable + Drop>(alloc: Global, bytes: &[u8]) -> Result<()>
    ensures { ChecksAs (perhaps_tagged T.TAG T.shape) bytes.now result }
{
    let _value = T::from_any_slice(alloc, bytes)?;
    Ok(())
}

/// Checks that the bytes describe a message of the type, in this form.
fn check_message<T: CborSerializable + TaggedCborSerializable + Drop>(
    alloc: Global,
    form: Form,
    bytes: &[u8],
) -> Result<()>
    ensures { ChecksAs (in_form form T.TAG T.shape) bytes.now result }
{
    match form {
        Form::Plain => check_plain::<T>(alloc, bytes),
        Form::Tagged => check_tagged::<T>(alloc, bytes),
        Form::Either => check_either::<T>(alloc, bytes),
    }
}

/// Decodes the bytes as an item of this kind.
///
/// # Errors
/// The errors of [`check`](crate::check).
pub(crate) fn check_by_decoding(alloc: Global, kind: Kind, bytes: &[u8]) -> Result<()>
    ensures { Checks kind bytes.now result }
{
    match kind {
        Kind::Sign1(form) => check_message::<CoseSign1>(alloc, form, bytes),
        Kind::Sign(form) => check_message::<CoseSign>(alloc, form, bytes),
        Kind::Mac0(form) => check_message::<CoseMac0>(alloc, form, bytes),
        Kind::Mac(form) => check_message::<CoseMac>(alloc, form, bytes),
        Kind::Encrypt0(form) => check_message::<CoseEncrypt0>(alloc, form, bytes),
        Kind::Encrypt(form) => check_message::<CoseEncrypt>(alloc, form, bytes),
        Kind::Signature => check_plain::<CoseSignature>(alloc, bytes),
        Kind::Recipient => check_plain::<CoseRecipient>(alloc, bytes),
        Kind::Header => check_plain::<Header>(alloc, bytes),
        Kind::Key => check_plain::<CoseKey>(alloc, bytes),
        Kind::KeySet => check_plain::<CoseKeySet>(alloc, bytes),
        Kind::Claims => check_plain::<ClaimsSet>(alloc, bytes),
        Kind::Any => check_plain::<Value>(alloc, bytes),
        Kind::KdfContext => check_plain::<CoseKdfContext>(alloc, bytes),
    }
}
