//! Calls of `ClaimsSetBuilder`.

use crate::timestamp;
use coset::cbor::value::Value;
use coset::cwt::{ClaimsSet, ClaimsSetBuilder, Timestamp};
use coset::iana::{CwtClaimName, EnumI64, WithPrivateRange};
use coset::{CoseError, Result};
use std::alloc::Global;
use test_lines::steps::{self, Step};
use test_lines::words::{self, Words};
use test_lines::{mark, spelled, tell};

/// A call of the builder, with its argument.
#[derive(Drop)]
enum BuilderCall {
    Issuer(String),
    IssuerFrom(String),
    Subject(String),
    SubjectFrom(String),
    Audience(String),
    AudienceFrom(String),
    ExpirationTime(Timestamp),
    NotBefore(Timestamp),
    IssuedAt(Timestamp),
    CwtId(Vec<u8>),
    CwtIdFrom(Vec<u8>),
    Claim(CwtClaimName, Value),
    TextClaim(String, Value),
    TextClaimFrom(String, Value),
    PrivateClaim(i64, Value),
}

impl Step for BuilderCall {
    fn of(alloc: Global, name: &str, first: &str, second: &str) -> Result<BuilderCall> {
        Ok(match name {
            "issuer" => BuilderCall::Issuer(spelled::text(alloc, first)?),
            "issuer_from" => BuilderCall::IssuerFrom(spelled::text(alloc, first)?),
            "subject" => BuilderCall::Subject(spelled::text(alloc, first)?),
            "subject_from" => BuilderCall::SubjectFrom(spelled::text(alloc, first)?),
            "audience" => BuilderCall::Audience(spelled::text(alloc, first)?),
            "audience_from" => BuilderCall::AudienceFrom(spelled::text(alloc, first)?),
            "expiration_time" => BuilderCall::ExpirationTime(timestamp::of(alloc, first)?),
            "not_before" => BuilderCall::NotBefore(timestamp::of(alloc, first)?),
            "issued_at" => BuilderCall::IssuedAt(timestamp::of(alloc, first)?),
            "cwt_id" => BuilderCall::CwtId(words::bytes(alloc, first)?),
            "cwt_id_from" => BuilderCall::CwtIdFrom(words::bytes(alloc, first)?),
            "claim" => BuilderCall::Claim(spelled::named(first)?, spelled::item(alloc, second)?),
            "text_claim" => {
                BuilderCall::TextClaim(spelled::text(alloc, first)?, spelled::item(alloc, second)?)
            }
            "text_claim_from" => BuilderCall::TextClaimFrom(
                spelled::text(alloc, first)?,
                spelled::item(alloc, second)?,
            ),
            "private_claim" => {
                BuilderCall::PrivateClaim(words::number(first)?, spelled::item(alloc, second)?)
            }
            _ => return Err(CoseError::UnexpectedItem("name", "call of ClaimsSetBuilder")),
        })
    }
}

/// Makes the call of the builder.
fn made(alloc: Global, builder: ClaimsSetBuilder, call: BuilderCall) -> Result<ClaimsSetBuilder> {
    match call {
        BuilderCall::Issuer(text) => Ok(builder.issuer(text)),
        BuilderCall::IssuerFrom(text) => builder.issuer_from(alloc, &text),
        BuilderCall::Subject(text) => Ok(builder.subject(text)),
        BuilderCall::SubjectFrom(text) => builder.subject_from(alloc, &text),
        BuilderCall::Audience(text) => Ok(builder.audience(text)),
        BuilderCall::AudienceFrom(text) => builder.audience_from(alloc, &text),
        BuilderCall::ExpirationTime(time) => Ok(builder.expiration_time(time)),
        BuilderCall::NotBefore(time) => Ok(builder.not_before(time)),
        BuilderCall::IssuedAt(time) => Ok(builder.issued_at(time)),
        BuilderCall::CwtId(bytes) => Ok(builder.cwt_id(bytes)),
        BuilderCall::CwtIdFrom(bytes) => builder.cwt_id_from(alloc, &bytes),
        BuilderCall::Claim(name, value) => with_claim(builder, name, value),
        BuilderCall::TextClaim(name, value) => builder.text_claim(name, value),
        BuilderCall::TextClaimFrom(name, value) => builder.text_claim_from(alloc, &name, value),
        BuilderCall::PrivateClaim(id, value) => with_private_claim(builder, id, value),
    }
}

/// Adds the claim, unless its name has a call of its own.
fn with_claim(
    builder: ClaimsSetBuilder,
    name: CwtClaimName,
    value: Value,
) -> Result<ClaimsSetBuilder> {
    let number = name.to_i64();
    if number < 1 || 7 < number {
        builder.claim(name, value)
    } else {
        Err(CoseError::UnexpectedItem("claim", "claim without a call of its own"))
    }
}

/// Adds the claim, if its name is for private use.
fn with_private_claim(
    builder: ClaimsSetBuilder,
    id: i64,
    value: Value,
) -> Result<ClaimsSetBuilder> {
    if CwtClaimName::is_private(id) {
        builder.private_claim(id, value)
    } else {
        Err(CoseError::UnexpectedItem("claim", "claim for private use"))
    }
}

/// Returns the claims that these calls of the builder make.
fn built(alloc: Global, calls: Vec<BuilderCall>) -> Result<ClaimsSet> {
    let mut builder = ClaimsSetBuilder::new(alloc);
    for call in calls {
        builder = made(alloc, builder, call)?;
    }
    Ok(builder.build())
}

/// Builds claims. Arguments: the builder's calls, `NAME=WORD`, or `NAME=WORD:WORD` for those that
/// add a claim.
///
/// # Errors
/// A fault in the arguments.
pub fn build(alloc: Global, words: &Words<'_>) -> Result<String> {
    let calls = steps::all(alloc, words, 1)?;
    mark::begin(alloc);
    let answer = built(alloc, calls);
    mark::end(alloc);
    tell::value(alloc, answer)
}
