//! Calls of `CoseKeyBuilder`.

use crate::key::{self, told_bytes};
use cose_thumbprint::thumbprint_input;
use coset::cbor::value::Value;
use coset::iana::{self, EllipticCurve, KeyOperation};
use coset::{CallError, CoseError, CoseKey, CoseKeyBuilder, KeyType, Result};
use std::alloc::Global;
use test_lines::steps::{self, Step};
use test_lines::words::{self, Words};
use test_lines::{mark, spelled, tell};

/// A call of the builder, with its argument.
#[derive(Drop)]
enum BuilderCall {
    KeyType(iana::KeyType),
    Kty(KeyType),
    KeyId(Vec<u8>),
    KeyIdFrom(Vec<u8>),
    Algorithm(iana::Algorithm),
    AddKeyOp(KeyOperation),
    BaseIv(Vec<u8>),
    BaseIvFrom(Vec<u8>),
    Param(i64, Value),
}

impl Step for BuilderCall {
    fn of(alloc: Global, name: &str, first: &str, second: &str) -> Result<BuilderCall> {
        Ok(match name {
            "key_type" => BuilderCall::KeyType(spelled::named(first)?),
            "kty" => BuilderCall::Kty(spelled::read(alloc, first)?),
            "key_id" => BuilderCall::KeyId(words::bytes(alloc, first)?),
            "key_id_from" => BuilderCall::KeyIdFrom(words::bytes(alloc, first)?),
            "algorithm" => BuilderCall::Algorithm(spelled::named(first)?),
            "add_key_op" => BuilderCall::AddKeyOp(spelled::named(first)?),
            "base_iv" => BuilderCall::BaseIv(words::bytes(alloc, first)?),
            "base_iv_from" => BuilderCall::BaseIvFrom(words::bytes(alloc, first)?),
            "param" => BuilderCall::Param(words::number(first)?, spelled::item(alloc, second)?),
            _ => return Err(CoseError::UnexpectedItem("name", "call of CoseKeyBuilder")),
        })
    }
}

/// Makes the call of the builder.
fn made(alloc: Global, builder: CoseKeyBuilder, call: BuilderCall) -> Result<CoseKeyBuilder> {
    match call {
        BuilderCall::KeyType(key_type) => Ok(builder.key_type(key_type)),
        BuilderCall::Kty(kty) => Ok(builder.kty(kty)),
        BuilderCall::KeyId(bytes) => Ok(builder.key_id(bytes)),
        BuilderCall::KeyIdFrom(bytes) => builder.key_id_from(alloc, &bytes),
        BuilderCall::Algorithm(algorithm) => Ok(builder.algorithm(algorithm)),
        BuilderCall::AddKeyOp(operation) => builder.add_key_op(operation),
        BuilderCall::BaseIv(bytes) => Ok(builder.base_iv(bytes)),
        BuilderCall::BaseIvFrom(bytes) => builder.base_iv_from(alloc, &bytes),
        BuilderCall::Param(label, value) => with_param(builder, label, value),
    }
}

/// Adds the parameter, unless its label has a call of its own.
fn with_param(builder: CoseKeyBuilder, label: i64, value: Value) -> Result<CoseKeyBuilder> {
    if label < 0 || 5 < label {
        builder.param(label, value)
    } else {
        Err(CoseError::UnexpectedItem("label", "label without a call of its own"))
    }
}

/// Returns the key that these calls of the builder make.
fn built(alloc: Global, calls: Vec<BuilderCall>) -> Result<CoseKey> {
    let mut builder = CoseKeyBuilder::new(alloc);
    for call in calls {
        builder = made(alloc, builder, call)?;
    }
    Ok(builder.build())
}

/// Makes the call of that name.
///
/// # Errors
/// A fault in the arguments, or an unknown name.
pub fn call(alloc: Global, name: &str, words: &Words<'_>) -> Result<String> {
    match name {
        "build" => build(alloc, words),
        "to_sec1_octet_string" => to_sec1_octet_string(alloc, words),
        "thumbprint_input" => thumbprint(alloc, words),
        "new_okp_key" => new_okp_key(alloc),
        "new_symmetric_key" => new_symmetric_key(alloc, words),
        "new_mldsa_pub_key" => new_mldsa_pub_key(alloc, words),
        "new_ec2_pub_key" => new_ec2_pub_key(alloc, words),
        "new_ec2_pub_key_y_sign" => new_ec2_pub_key_y_sign(alloc, words),
        "new_ec2_priv_key" => new_ec2_priv_key(alloc, words),
        "new_ec2_pub_key_sec1_octet_string" => new_ec2_pub_key_sec1_octet_string(alloc, words),
        _ => Err(CoseError::UnexpectedItem("name", "call of CoseKeyBuilder")),
    }
}

/// Builds a key. Arguments: the builder's calls, `NAME=WORD`, or `NAME=WORD:WORD` for `param`.
fn build(alloc: Global, words: &Words<'_>) -> Result<String> {
    let calls = steps::all(alloc, words, 1)?;
    mark::begin(alloc);
    let answer = built(alloc, calls);
    mark::end(alloc);
    tell::value(alloc, answer)
}

/// Builds a key, and returns its octet string. Arguments: the builder's calls.
fn to_sec1_octet_string(alloc: Global, words: &Words<'_>) -> Result<String> {
    let key = built(alloc, steps::all(alloc, words, 1)?)?;
    mark::begin(alloc);
    let answer = key.to_sec1_octet_string(alloc);
    mark::end(alloc);
    told_bytes(alloc, answer)
}

/// Builds a key, and returns the input of its thumbprint. Arguments: the builder's calls.
fn thumbprint(alloc: Global, words: &Words<'_>) -> Result<String> {
    let key = built(alloc, steps::all(alloc, words, 1)?)?;
    mark::begin(alloc);
    let answer = thumbprint_input(alloc, &key);
    mark::end(alloc);
    told_bytes(alloc, answer)
}

fn new_okp_key(alloc: Global) -> Result<String> {
    mark::begin(alloc);
    let builder = CoseKeyBuilder::new_okp_key(alloc);
    mark::end(alloc);
    told(alloc, Ok(builder))
}

/// Arguments: k.
fn new_symmetric_key(alloc: Global, words: &Words<'_>) -> Result<String> {
    let k = words.bytes(alloc, 1)?;
    mark::begin(alloc);
    let answer = CoseKeyBuilder::new_symmetric_key(alloc, k);
    mark::end(alloc);
    told(alloc, answer)
}

/// Arguments: the variant, and the public key.
fn new_mldsa_pub_key(alloc: Global, words: &Words<'_>) -> Result<String> {
    let variant = key::variant(words.word(1))?;
    let k = words.bytes(alloc, 2)?;
    mark::begin(alloc);
    let answer = CoseKeyBuilder::new_mldsa_pub_key(alloc, variant, k);
    mark::end(alloc);
    told(alloc, answer)
}

/// Arguments: the curve, x and y.
fn new_ec2_pub_key(alloc: Global, words: &Words<'_>) -> Result<String> {
    let curve: EllipticCurve = spelled::named(words.word(1))?;
    let x = words.bytes(alloc, 2)?;
    let y = words.bytes(alloc, 3)?;
    mark::begin(alloc);
    let answer = CoseKeyBuilder::new_ec2_pub_key(alloc, curve, x, y);
    mark::end(alloc);
    told(alloc, answer)
}

/// Arguments: the curve, x, and the sign of y as `true` or `false`.
fn new_ec2_pub_key_y_sign(alloc: Global, words: &Words<'_>) -> Result<String> {
    let curve: EllipticCurve = spelled::named(words.word(1))?;
    let x = words.bytes(alloc, 2)?;
    let y_sign = words.word(3) == "true";
    mark::begin(alloc);
    let answer = CoseKeyBuilder::new_ec2_pub_key_y_sign(alloc, curve, x, y_sign);
    mark::end(alloc);
    told(alloc, answer)
}

/// Arguments: the curve, x, y and d.
fn new_ec2_priv_key(alloc: Global, words: &Words<'_>) -> Result<String> {
    let curve: EllipticCurve = spelled::named(words.word(1))?;
    let x = words.bytes(alloc, 2)?;
    let y = words.bytes(alloc, 3)?;
    let d = words.bytes(alloc, 4)?;
    mark::begin(alloc);
    let answer = CoseKeyBuilder::new_ec2_priv_key(alloc, curve, x, y, d);
    mark::end(alloc);
    told(alloc, answer)
}

/// Arguments: the curve, and the octet string of a point.
fn new_ec2_pub_key_sec1_octet_string(alloc: Global, words: &Words<'_>) -> Result<String> {
    let curve: EllipticCurve = spelled::named(words.word(1))?;
    let octets = words.bytes(alloc, 2)?;
    mark::begin(alloc);
    let answer = CoseKeyBuilder::new_ec2_pub_key_sec1_octet_string(alloc, curve, &octets);
    mark::end(alloc);
    match answer {
        Ok(builder) => told(alloc, Ok(builder)),
        Err(CallError::Coset(error)) => tell::refused(alloc, error),
        Err(CallError::Caller(error)) => Ok(format!(in alloc; "{error}")?),
    }
}

fn told(alloc: Global, answer: Result<CoseKeyBuilder>) -> Result<String> {
    match answer {
        Ok(builder) => tell::value(alloc, Ok(builder.build())),
        Err(error) => tell::refused(alloc, error),
    }
}
