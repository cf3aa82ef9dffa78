//! CBOR tags.

ghost use Rattle.std.specs.Prelude.{Some, refl};

use crate::Named;
use crate::registry::Registry;
use std::fmt;

/// The tag of a kind of COSE message or of a token, as IANA's registry "CBOR Tags" assigns it (RFC
/// 8949, section 9.2; RFC 8152, section 2).
#[derive(Clone, Copy, Debug, Eq, Ord, PartialEq, PartialOrd)]
pub enum CborTag {
    /// A message encrypted for one recipient, whose key is known.
    CoseEncrypt0 = 16,
    /// A message with a MAC tag for one recipient, whose key is known.
    CoseMac0 = 17,
    /// A message with one signature.
    CoseSign1 = 18,
    /// A standalone countersignature (RFC 9338).
    CoseCountersignature = 19,
    /// A CBOR web token (RFC 8392, section 6).
    Cwt = 61,
    /// A message encrypted for any number of recipients.
    CoseEncrypt = 96,
    /// A message with a MAC tag for any number of recipients.
    CoseMac = 97,
    /// A message with any number of signatures.
    CoseSign = 98,
}

/// The tags of COSE messages and tokens, in ascending order of their numbers.
pub const CBOR_TAGS: [CborTag; 8] = [
    CborTag::CoseEncrypt0,
    CborTag::CoseMac0,
    CborTag::CoseSign1,
    CborTag::CoseCountersignature,
    CborTag::Cwt,
    CborTag::CoseEncrypt,
    CborTag::CoseMac,
    CborTag::CoseSign,
];

impl Registry for CborTag {
    ghost use Rattle.coset_iana.specs.CborTag.{number};
    ghost use Rattle.coset_iana.specs.declared.tags.CborTag.TheVariants.{CoseEncrypt0};
    ghost use Rattle.coset_iana.specs.declared.tags.TheConstants.{CBOR_TAGS};

    ghost number = { number };

    ghost values = { CBOR_TAGS };

    ghost ascending = { refl };

    ghost has_each = { elim [ CoseEncrypt0 ↦ refl | _ ↦ refl ] };

    const FIRST: i64 = 16;

    fn values() -> &'static [CborTag] {
        &CBOR_TAGS
    }

    fn number(self) -> i64 {
        self as i64
    }
}

impl Named for CborTag {
    ghost use Rattle.coset_iana.specs.CborTag.{name};

    ghost name = { name };

    fn name(&self) -> &'static str {
        match self {
            CborTag::CoseEncrypt0 => "COSE Single Recipient Encrypted Data Object",
            CborTag::CoseMac0 => "COSE Mac w/o Recipients Object",
            CborTag::CoseSign1 => "COSE Single Signer Data Object",
            CborTag::CoseCountersignature => "COSE standalone V2 countersignature",
            CborTag::Cwt => "CBOR Web Token (CWT)",
            CborTag::CoseEncrypt => "COSE Encrypted Data Object",
            CborTag::CoseMac => "COSE MACed Data Object",
            CborTag::CoseSign => "COSE Signed Data Object",
        }
    }
}

impl fmt::Display for CborTag {
    ghost use Rattle.coset_iana.specs.CborTag.{name};

    ghost output = { λ x. Some (name x) };

    fn fmt<W: fmt::Write>(&self, f: &mut fmt::Formatter<W>) -> fmt::Result {
        f.pad(self.name())
    }
}
