//! Calls of `HeaderBuilder`.

use coset::cbor::value::Value;
use coset::iana::{self, CoapContentFormat, HeaderParameter};
use coset::{
    Algorithm, CoseCountersignature, CoseError, CoseSignature, Header, HeaderBuilder,
    RegisteredLabelWithPrivate, Result,
};
use std::alloc::Global;
use test_lines::steps::{self, Step};
use test_lines::words::{self, Words};
use test_lines::{mark, spelled, tell};

/// A call of the builder, with its argument.
#[derive(Drop)]
enum BuilderCall {
    Algorithm(iana::Algorithm),
    AlgorithmLabel(Algorithm),
    AddCritical(HeaderParameter),
    AddCriticalLabel(RegisteredLabelWithPrivate<HeaderParameter>),
    ContentFormat(CoapContentFormat),
    ContentType(String),
    ContentTypeFrom(String),
    KeyId(Vec<u8>),
    KeyIdFrom(Vec<u8>),
    Iv(Vec<u8>),
    IvFrom(Vec<u8>),
    PartialIv(Vec<u8>),
    PartialIvFrom(Vec<u8>),
    AddCounterSignature(CoseSignature),
    AddCountersignatureV2(CoseCountersignature),
    Countersignature0V2(Vec<u8>),
    Countersignature0V2From(Vec<u8>),
    Value(i64, Value),
    TextValue(String, Value),
    TextValueFrom(String, Value),
}

impl Step for BuilderCall {
    fn of(alloc: Global, name: &str, first: &str, second: &str) -> Result<BuilderCall> {
        Ok(match name {
            "algorithm" => BuilderCall::Algorithm(spelled::named(first)?),
            "algorithm_label" => BuilderCall::AlgorithmLabel(spelled::read(alloc, first)?),
            "add_critical" => BuilderCall::AddCritical(spelled::named(first)?),
            "add_critical_label" => BuilderCall::AddCriticalLabel(spelled::read(alloc, first)?),
            "content_format" => BuilderCall::ContentFormat(spelled::named(first)?),
            "content_type" => BuilderCall::ContentType(spelled::text(alloc, first)?),
            "content_type_from" => BuilderCall::ContentTypeFrom(spelled::text(alloc, first)?),
            "key_id" => BuilderCall::KeyId(words::bytes(alloc, first)?),
            "key_id_from" => BuilderCall::KeyIdFrom(words::bytes(alloc, first)?),
            "iv" => BuilderCall::Iv(words::bytes(alloc, first)?),
            "iv_from" => BuilderCall::IvFrom(words::bytes(alloc, first)?),
            "partial_iv" => BuilderCall::PartialIv(words::bytes(alloc, first)?),
            "partial_iv_from" => BuilderCall::PartialIvFrom(words::bytes(alloc, first)?),
            "add_counter_signature" => BuilderCall::AddCounterSignature(spelled::read(
                alloc, first,
            )?),
            "add_countersignature_v2" => BuilderCall::AddCountersignatureV2(spelled::read(
                alloc, first,
            )?),
            "countersignature0_v2" => BuilderCall::Countersignature0V2(words::bytes(alloc, first)?),
            "countersignature0_v2_from" => BuilderCall::Countersignature0V2From(words::bytes(
                alloc, first,
            )?),
            "value" => BuilderCall::Value(words::number(first)?, spelled::item(alloc, second)?),
            "text_value" => {
                BuilderCall::TextValue(spelled::text(alloc, first)?, spelled::item(alloc, second)?)
            }
            "text_value_from" => BuilderCall::TextValueFrom(
                spelled::text(alloc, first)?,
                spelled::item(alloc, second)?,
            ),
            _ => return Err(CoseError::UnexpectedItem("name", "call of HeaderBuilder")),
        })
    }
}

/// Makes the call of the builder.
fn made(alloc: Global, builder: HeaderBuilder, call: BuilderCall) -> Result<HeaderBuilder> {
    match call {
        BuilderCall::Algorithm(algorithm) => Ok(builder.algorithm(algorithm)),
        BuilderCall::AlgorithmLabel(label) => Ok(builder.algorithm_label(label)),
        BuilderCall::AddCritical(parameter) => builder.add_critical(parameter),
        BuilderCall::AddCriticalLabel(label) => builder.add_critical_label(label),
        BuilderCall::ContentFormat(format) => Ok(builder.content_format(format)),
        BuilderCall::ContentType(text) => Ok(builder.content_type(text)),
        BuilderCall::ContentTypeFrom(text) => builder.content_type_from(alloc, &text),
        BuilderCall::KeyId(bytes) => Ok(builder.key_id(bytes)),
        BuilderCall::KeyIdFrom(bytes) => builder.key_id_from(alloc, &bytes),
        BuilderCall::Iv(bytes) => Ok(builder.iv(bytes)),
        BuilderCall::IvFrom(bytes) => builder.iv_from(alloc, &bytes),
        BuilderCall::PartialIv(bytes) => Ok(builder.partial_iv(bytes)),
        BuilderCall::PartialIvFrom(bytes) => builder.partial_iv_from(alloc, &bytes),
        BuilderCall::AddCounterSignature(signature) => builder.add_counter_signature(signature),
        BuilderCall::AddCountersignatureV2(signature) => builder.add_countersignature_v2(signature),
        BuilderCall::Countersignature0V2(signature) => Ok(builder.countersignature0_v2(signature)),
        BuilderCall::Countersignature0V2From(signature) => builder.countersignature0_v2_from(
            alloc, &signature,
        ),
        BuilderCall::Value(label, value) => with_value(builder, label, value),
        BuilderCall::TextValue(label, value) => builder.text_value(label, value),
        BuilderCall::TextValueFrom(label, value) => builder.text_value_from(alloc, &label, value),
    }
}

/// Adds the value, unless its label has a call of its own.
fn with_value(builder: HeaderBuilder, label: i64, value: Value) -> Result<HeaderBuilder> {
    if label < 1 || (7 < label && !(label == 11 || label == 12)) {
        builder.value(label, value)
    } else {
        Err(CoseError::UnexpectedItem("label", "label without a call of its own"))
    }
}

/// Returns the header that these calls of the builder make.
fn built(alloc: Global, calls: Vec<BuilderCall>) -> Result<Header> {
    let mut builder = HeaderBuilder::new(alloc);
    for call in calls {
        builder = made(alloc, builder, call)?;
    }
    Ok(builder.build())
}

/// Builds a header. Arguments: the builder's calls, `NAME=WORD`, or `NAME=WORD:WORD` for `value`
/// and `text_value`.
///
/// # Errors
/// A fault in the arguments.
pub fn build(alloc: Global, words: &Words<'_>) -> Result<String> {
    let calls = steps::all(alloc, words, 1)?;
    mark::begin(alloc);
    let answer = built(alloc, calls);
    mark::end(alloc);
    tell::value(alloc, answer)
}
