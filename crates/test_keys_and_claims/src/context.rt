//! Calls of the builders of key derivation contexts and their parts.

use coset::cbor::value::Value;
use coset::iana::Algorithm;
use coset::{
    CoseError, CoseKdfContext, CoseKdfContextBuilder, Header, Nonce, PartyInfo, PartyInfoBuilder,
    Result, SuppPubInfo, SuppPubInfoBuilder,
};
use std::alloc::Global;
use test_lines::steps::{self, Step};
use test_lines::words::{self, Words};
use test_lines::{mark, spelled, tell};

/// A call of `CoseKdfContextBuilder`, with its argument.
#[derive(Drop)]
enum ContextCall {
    Algorithm(Algorithm),
    PartyUInfo(PartyInfo),
    PartyVInfo(PartyInfo),
    SuppPubInfo(SuppPubInfo),
    AddSuppPrivInfo(Vec<u8>),
}

impl Step for ContextCall {
    fn of(alloc: Global, name: &str, first: &str, _second: &str) -> Result<ContextCall> {
        Ok(match name {
            "algorithm" => ContextCall::Algorithm(spelled::named(first)?),
            "party_u_info" => ContextCall::PartyUInfo(spelled::read(alloc, first)?),
            "party_v_info" => ContextCall::PartyVInfo(spelled::read(alloc, first)?),
            "supp_pub_info" => ContextCall::SuppPubInfo(spelled::read(alloc, first)?),
            "add_supp_priv_info" => ContextCall::AddSuppPrivInfo(words::bytes(alloc, first)?),
            _ => return Err(CoseError::UnexpectedItem("name", "call of CoseKdfContextBuilder")),
        })
    }
}

/// Makes the call of the builder.
fn made(builder: CoseKdfContextBuilder, call: ContextCall) -> Result<CoseKdfContextBuilder> {
    match call {
        ContextCall::Algorithm(algorithm) => Ok(builder.algorithm(algorithm)),
        ContextCall::PartyUInfo(party) => Ok(builder.party_u_info(party)),
        ContextCall::PartyVInfo(party) => Ok(builder.party_v_info(party)),
        ContextCall::SuppPubInfo(info) => Ok(builder.supp_pub_info(info)),
        ContextCall::AddSuppPrivInfo(info) => builder.add_supp_priv_info(info),
    }
}

/// Returns the context that these calls of the builder make.
fn built(alloc: Global, calls: Vec<ContextCall>) -> Result<CoseKdfContext> {
    let mut builder = CoseKdfContextBuilder::new(alloc);
    for call in calls {
        builder = made(builder, call)?;
    }
    Ok(builder.build())
}

/// Builds a context. Arguments: the calls of `CoseKdfContextBuilder`, `NAME=WORD`.
///
/// # Errors
/// A fault in the arguments.
pub fn build(alloc: Global, words: &Words<'_>) -> Result<String> {
    let calls = steps::all(alloc, words, 1)?;
    mark::begin(alloc);
    let answer = built(alloc, calls);
    mark::end(alloc);
    tell::value(alloc, answer)
}

/// A call of `PartyInfoBuilder`, with its argument.
#[derive(Drop)]
enum PartySetter {
    Identity(Vec<u8>),
    IdentityFrom(Vec<u8>),
    Nonce(Nonce),
    Other(Vec<u8>),
    OtherFrom(Vec<u8>),
}

impl Step for PartySetter {
    fn of(alloc: Global, name: &str, first: &str, _second: &str) -> Result<PartySetter> {
        Ok(match name {
            "identity" => PartySetter::Identity(words::bytes(alloc, first)?),
            "identity_from" => PartySetter::IdentityFrom(words::bytes(alloc, first)?),
            "nonce" => PartySetter::Nonce(nonce(alloc, first)?),
            "other" => PartySetter::Other(words::bytes(alloc, first)?),
            "other_from" => PartySetter::OtherFrom(words::bytes(alloc, first)?),
            _ => return Err(CoseError::UnexpectedItem("name", "call of PartyInfoBuilder")),
        })
    }
}

/// Returns the party that these calls of the builder make.
fn party(alloc: Global, calls: Vec<PartySetter>) -> Result<PartyInfo> {
    let mut builder = PartyInfoBuilder::new();
    for call in calls {
        builder = match call {
            PartySetter::Identity(bytes) => builder.identity(bytes),
            PartySetter::IdentityFrom(bytes) => builder.identity_from(alloc, &bytes)?,
            PartySetter::Nonce(nonce) => builder.nonce(nonce),
            PartySetter::Other(bytes) => builder.other(bytes),
            PartySetter::OtherFrom(bytes) => builder.other_from(alloc, &bytes)?,
        };
    }
    Ok(builder.build())
}

/// Builds a party. Arguments: the calls of `PartyInfoBuilder`, `NAME=WORD`.
///
/// # Errors
/// A fault in the arguments.
pub fn build_party(alloc: Global, words: &Words<'_>) -> Result<String> {
    let calls = steps::all(alloc, words, 1)?;
    mark::begin(alloc);
    let answer = party(alloc, calls);
    mark::end(alloc);
    tell::value(alloc, answer)
}

/// A call of `SuppPubInfoBuilder`, with its argument.
#[derive(Drop)]
enum PublicSetter {
    KeyDataLength(u64),
    Protected(Header),
    Other(Vec<u8>),
    OtherFrom(Vec<u8>),
}

impl Step for PublicSetter {
    fn of(alloc: Global, name: &str, first: &str, _second: &str) -> Result<PublicSetter> {
        Ok(match name {
            "key_data_length" => PublicSetter::KeyDataLength(spelled::unsigned(first)?),
            "protected" => PublicSetter::Protected(spelled::read(alloc, first)?),
            "other" => PublicSetter::Other(words::bytes(alloc, first)?),
            "other_from" => PublicSetter::OtherFrom(words::bytes(alloc, first)?),
            _ => return Err(CoseError::UnexpectedItem("name", "call of SuppPubInfoBuilder")),
        })
    }
}

/// Returns the public information that these calls of the builder make.
fn public(alloc: Global, calls: Vec<PublicSetter>) -> Result<SuppPubInfo> {
    let mut builder = SuppPubInfoBuilder::new(alloc);
    for call in calls {
        builder = match call {
            PublicSetter::KeyDataLength(bits) => builder.key_data_length(bits),
            PublicSetter::Protected(header) => builder.protected(header),
            PublicSetter::Other(bytes) => builder.other(bytes),
            PublicSetter::OtherFrom(bytes) => builder.other_from(alloc, &bytes)?,
        };
    }
    Ok(builder.build())
}

/// Builds public information. Arguments: the calls of `SuppPubInfoBuilder`, `NAME=WORD`.
///
/// # Errors
/// A fault in the arguments.
pub fn build_public(alloc: Global, words: &Words<'_>) -> Result<String> {
    let calls = steps::all(alloc, words, 1)?;
    mark::begin(alloc);
    let answer = public(alloc, calls);
    mark::end(alloc);
    tell::value(alloc, answer)
}

/// Returns the nonce of an item in hexadecimal.
fn nonce(alloc: Global, word: &str) -> Result<Nonce> {
    match spelled::item(alloc, word)? {
        Value::Integer(number) => Ok(Nonce::Integer(i64::try_from(number)?)),
        Value::Bytes(bytes) => Ok(Nonce::Bytes(bytes)),
        _ => Err(CoseError::UnexpectedItem("word", "nonce")),
    }
}
