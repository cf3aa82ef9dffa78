//! The types whose reading and writing are timed.

ghost use Rattle.std.specs.Prelude.{◌≡◌, ◌++◌, MatchOption, codes};
ghost use Rattle.tool_bench.specs.Operation.{kind_name};

use crate::calls::time_value;
use crate::fault::Fault;
use coset_cbor::value::Value;
use coset_claims::{ClaimsSet, CoseKdfContext};
use coset_core::Header;
use coset_key::{CoseKey, CoseKeySet};
use coset_recipient::{
    CoseCountersignature, CoseEncrypt, CoseEncrypt0, CoseMac, CoseMac0, CoseRecipient, CoseSign,
    CoseSign1,
};
use std::rt::Clock;
use std::time::Duration;

/// A type of the library.
#[derive(Clone, Copy, Debug, PartialEq, Eq)]
pub enum Kind {
    /// A CBOR value.
    Value,
    /// A header.
    Header,
    /// A countersignature of version 2.
    Countersignature,
    /// A message with one signature.
    Sign1,
    /// A message with signatures.
    Sign,
    /// A message with a MAC.
    Mac0,
    /// A message with a MAC and recipients.
    Mac,
    /// An encrypted message.
    Encrypt0,
    /// An encrypted message with recipients.
    Encrypt,
    /// A recipient.
    Recipient,
    /// A key.
    Key,
    /// A set of keys.
    KeySet,
    /// The claims of a token.
    Claims,
    /// The context of a key derivation.
    Kdf,
}

impl Kind {
    /// Returns the type that the operation `name` reads.
    pub fn read_by(name: &str) -> Option<Kind>
        ensures { MatchOption result ((k : Kind) → name.now ≡ kind_name k → ⊥)
            (λ k. name.now ≡ kind_name k) }
    {
        match name {
            "value" => Some(Kind::Value),
            "header" => Some(Kind::Header),
            "countersignature" => Some(Kind::Countersignature),
            "sign1" => Some(Kind::Sign1),
            "sign" => Some(Kind::Sign),
            "mac0" => Some(Kind::Mac0),
            "mac" => Some(Kind::Mac),
            "encrypt0" => Some(Kind::Encrypt0),
            "encrypt" => Some(Kind::Encrypt),
            "recipient" => Some(Kind::Recipient),
            "key" => Some(Kind::Key),
            "keyset" => Some(Kind::KeySet),
            "claims" => Some(Kind::Claims),
            "kdf" => Some(Kind::Kdf),
            _ => None,
        }
    }

    /// Returns the type that the operation `name` writes.
    pub fn written_by(name: &str) -> Option<Kind>
        ensures { MatchOption result ((k : Kind) → name.now ≡ kind_name k ++ codes "_write" → ⊥)
            (λ k. name.now ≡ kind_name k ++ codes "_write") }
    {
        Kind::read_by(name.strip_suffix("_write")?)
    }

    /// Returns the time that `calls` calls take to write a value of the type, or to read it.
    ///
    /// # Errors
    /// The fault of the call that failed.
    pub fn time<R: AllocGlobal + Clock>(
        self,
        is_written: bool,
        rt: &R,
        bytes: &[u8],
        calls: usize,
    ) -> Result<Duration, Fault> {
        match self {
            Kind::Value => time_value::<Value, R>(is_written, rt, bytes, calls),
            Kind::Header => time_value::<Header, R>(is_written, rt, bytes, calls),
            Kind::Countersignature => time_value::<CoseCountersignature, R>(
                is_written, rt, bytes, calls,
            ),
            Kind::Sign1 => time_value::<CoseSign1, R>(is_written, rt, bytes, calls),
            Kind::Sign => time_value::<CoseSign, R>(is_written, rt, bytes, calls),
            Kind::Mac0 => time_value::<CoseMac0, R>(is_written, rt, bytes, calls),
            Kind::Mac => time_value::<CoseMac, R>(is_written, rt, bytes, calls),
            Kind::Encrypt0 => time_value::<CoseEncrypt0, R>(is_written, rt, bytes, calls),
            Kind::Encrypt => time_value::<CoseEncrypt, R>(is_written, rt, bytes, calls),
            Kind::Recipient => time_value::<CoseRecipient, R>(is_written, rt, bytes, calls),
            Kind::Key => time_value::<CoseKey, R>(is_written, rt, bytes, calls),
            Kind::KeySet => time_value::<CoseKeySet, R>(is_written, rt, bytes, calls),
            Kind::Claims => time_value::<ClaimsSet, R>(is_written, rt, bytes, calls),
            Kind::Kdf => time_value::<CoseKdfContext, R>(is_written, rt, bytes, calls),
        }
    }
}
