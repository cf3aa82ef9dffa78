//! The kinds of input that the program can show.

ghost use Rattle.std.specs.Prelude.{◌≡◌, MatchOption, MatchResult};
ghost use Rattle.std.specs.String.{string_bytes};
ghost use Rattle.coset_show.specs.Kind.{kind_name, ShowsBytes, RefusesBytes};

use crate::refusal::Refusal;
use crate::show::{message_lines, sign1_lines, type_line};
use coset::cbor::value::Value;
use coset::cwt::ClaimsSet;
use coset::{
    CoseCountersignature, CoseEncrypt, CoseEncrypt0, CoseKdfContext, CoseKey, CoseKeySet, CoseMac,
    CoseMac0, CoseSign,
};
use std::alloc::Global;

/// The kind of an input.
#[derive(Clone, Copy, Debug, PartialEq, Eq)]
pub enum Kind {
    /// A CBOR data item (RFC 8949, section 3).
    Value,
    /// A message with one signature (RFC 8152, section 4.2).
    Sign1,
    /// A message with any number of signatures (RFC 8152, section 4.1).
    Sign,
    /// A message with a MAC and recipients (RFC 8152, section 6.1).
    Mac,
    /// A message with a MAC, for receivers that know the key (RFC 8152, section 6.2).
    Mac0,
    /// An encrypted message with recipients (RFC 8152, section 5.1).
    Encrypt,
    /// An encrypted message, for receivers that know the key (RFC 8152, section 5.2).
    Encrypt0,
    /// A countersignature of version 2.
    Countersignature,
    /// A key (RFC 8152, section 7).
    Key,
    /// A set of keys (RFC 8152, section 7).
    Keyset,
    /// The claims of a web token (RFC 8392, section 3).
    Claims,
    /// The context of a key derivation (RFC 8152, section 11.2).
    Kdf,
}

impl Kind {
    /// Returns the kind with this name, or `None` if there is none.
    pub fn of(name: &str) -> Option<Kind>
        ensures { MatchOption result ((k : Kind) → name.now ≡ kind_name k → ⊥)
            (λ k. name.now ≡ kind_name k) }
    {
        match name {
            "value" => Some(Kind::Value),
            "sign1" => Some(Kind::Sign1),
            "sign" => Some(Kind::Sign),
            "mac" => Some(Kind::Mac),
            "mac0" => Some(Kind::Mac0),
            "encrypt" => Some(Kind::Encrypt),
            "encrypt0" => Some(Kind::Encrypt0),
            "countersignature" => Some(Kind::Countersignature),
            "key" => Some(Kind::Key),
            "keyset" => Some(Kind::Keyset),
            "claims" => Some(Kind::Claims),
            "kdf" => Some(Kind::Kdf),
            _ => None,
        }
    }

    /// Returns the lines that show the bytes.
    ///
    /// # Errors
    /// The reason why the bytes aren't of the kind, or `OutOfMemory`.
    pub fn lines(self, alloc: Global, bytes: &[u8]) -> Result<String, Refusal>
        ensures { MatchResult result (λ lines. ShowsBytes self bytes.now (string_bytes lines))
            (λ refusal. RefusesBytes self bytes.now refusal) }
    {
        match self {
            Kind::Value => type_line::<Value>(alloc, bytes),
            Kind::Sign1 => sign1_lines(alloc, bytes),
            Kind::Sign => message_lines::<CoseSign>(alloc, bytes),
            Kind::Mac => message_lines::<CoseMac>(alloc, bytes),
            Kind::Mac0 => message_lines::<CoseMac0>(alloc, bytes),
            Kind::Encrypt => message_lines::<CoseEncrypt>(alloc, bytes),
            Kind::Encrypt0 => message_lines::<CoseEncrypt0>(alloc, bytes),
            Kind::Countersignature => message_lines::<CoseCountersignature>(alloc, bytes),
            Kind::Key => type_line::<CoseKey>(alloc, bytes),
            Kind::Keyset => type_line::<CoseKeySet>(alloc, bytes),
            Kind::Claims => type_line::<ClaimsSet>(alloc, bytes),
            Kind::Kdf => type_line::<CoseKdfContext>(alloc, bytes),
        }
    }
}
