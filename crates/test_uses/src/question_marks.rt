//! Errors that are passed on by `?`. A function with one error type needs no `map_err` for any
//! call.

ghost use Rattle.std.specs.Prelude.{Some, codes};

use coset::cbor::OutOfMemory;
use coset::cbor::de::{self, EndOfFile};
use coset::cbor::ser::{self, write_value};
use coset::cbor::value::Value;
use coset::iana::HeaderParameter;
use coset::{
    CallError, CborSerializable, CoseEncrypt0Builder, CoseError, CoseMac0Builder, CoseSign1,
    CoseSign1Builder, HeaderBuilder,
};
use cwt_gate::GateError;
use cwt_verify::{LayerError, TokenError};
use std::alloc::Global;
use std::error::Error;
use std::fmt;
use std::test::*;

/// The error of a caller's key.
#[derive(Clone, Copy, Debug, PartialEq, Eq)]
struct NoKey;

impl fmt::Display for NoKey {
    ghost output = { λ _. Some (codes "no such key") };

    fn fmt<W: fmt::Write>(&self, f: &mut fmt::Formatter<W>) -> fmt::Result {
        write!(f, "no such key")
    }
}

impl Error for NoKey {}

/// The result of each function of the caller.
type Answer<T> = Result<T, CallError<NoKey>>;

/// Returns the key's result, whatever it gets.
fn made(alloc: Global, key: Option<u8>) -> Result<Vec<u8>, NoKey> {
    match key {
        Some(byte) => Vec::from_slice(alloc, &[byte]).ok().ok_or(NoKey),
        None => Err(NoKey),
    }
}

/// Accepts the bytes if the key made them.
fn accepted(key: Option<u8>, given: &[u8]) -> Result<(), NoKey> {
    match key {
        Some(byte) if given == [byte].as_slice() => Ok(()),
        _ => Err(NoKey),
    }
}

/// Writes a value, calls a builder, and signs.
fn sent(alloc: Global, key: Option<u8>) -> Answer<Vec<u8>> {
    let mut payload = Vec::new(alloc);
    write_value(&Value::Null, &mut payload)?;
    let header = HeaderBuilder::new(alloc).add_critical(HeaderParameter::Alg)?;
    let message = CoseSign1Builder::new(alloc)
        .protected(header.build())
        .payload(payload)
        .try_create_signature(alloc, b"", move |_tbs: &[u8]| made(alloc, key))?;
    Ok(message.build().to_vec(alloc)?)
}

/// Reads and verifies a message, and reads a copy of its payload.
fn received(alloc: Global, token: &[u8], key: Option<u8>) -> Answer<Value> {
    let message = CoseSign1::from_slice(alloc, token)?;
    message.verify_signature(alloc, b"", move |signature: &[u8], _tbs: &[u8]| {
        accepted(key, signature)
    })?;
    let payload = Vec::from_slice(alloc, message.payload.as_deref().unwrap_or(b""))?;
    Ok(Value::from_slice(alloc, &payload)?)
}

/// Encrypts and decrypts a plaintext.
fn encrypted(alloc: Global, key: Option<u8>) -> Answer<Vec<u8>> {
    let message = CoseEncrypt0Builder::new(alloc)
        .try_create_ciphertext(alloc, b"", b"", move |_text: &[u8], _aad: &[u8]| {
            made(alloc, key)
        })?
        .build();
    let plaintext = message.decrypt_ciphertext(
        alloc,
        b"",
        || NoKey,
        move |_text: &[u8], _aad: &[u8]| made(alloc, key),
    )?;
    Ok(plaintext)
}

/// Authenticates a message, and verifies its MAC.
fn authenticated(alloc: Global, key: Option<u8>) -> Answer<()> {
    let message = CoseMac0Builder::new(alloc)
        .payload(Vec::from_slice(alloc, b"p")?)
        .try_create_tag(alloc, b"", move |_tbm: &[u8]| made(alloc, key))?
        .build();
    message.verify_payload_tag(
        alloc,
        b"",
        || NoKey,
        move |tag: &[u8], _tbm: &[u8]| accepted(key, tag),
    )?;
    Ok(())
}

/// Makes a MAC with a closure that can't refuse.
fn others(alloc: Global) -> Answer<Vec<u8>> {
    let message = CoseMac0Builder::new(alloc)
        .payload(Vec::new(alloc))
        .create_tag(alloc, b"", move |_tbm: &[u8]| Vec::new(alloc))?
        .build();
    Ok(message.to_vec(alloc)?)
}

/// Returns the text of the error.
fn text<E: fmt::Display>(alloc: Global, error: &E) -> Result<String, Fail> {
    Ok(format!(in alloc; "{error}")?)
}

/// Accepts every type that is an `Error`.
fn is_error<E: Error>() {}

#[test]
fn each_call_answers_one_error(rt: HostRuntime) -> Result<(), Fail> {
    let alloc = rt.alloc();
    let token = sent(alloc, Some(7)).ok().ok_or("not sent")?;
    assert!(rt; matches!(received(alloc, &token, Some(7)), Ok(Value::Null)));
    assert!(rt; encrypted(alloc, Some(7)).is_ok());
    assert!(rt; authenticated(alloc, Some(7)).is_ok());
    assert!(rt; matches!(others(alloc), Ok(_)));
    Ok(())
}

#[test]
fn what_the_errors_say(rt: HostRuntime) -> Result<(), Fail> {
    let alloc = rt.alloc();
    let token = sent(alloc, Some(7)).ok().ok_or("not sent")?;
    let refused = sent(alloc, None).err().ok_or("sent")?;
    assert_eq!(rt; text(alloc, &refused)?.as_str(), "no such key");
    let refused = received(alloc, &token, None).err().ok_or("received")?;
    assert_eq!(rt; text(alloc, &refused)?.as_str(), "no such key");
    let refused = received(alloc, b"\x80", None).err().ok_or("received")?;
    assert_eq!(rt;
        text(alloc, &refused)?.as_str(),
        "got array, expected array with 4 items"
    );
    let refused: CallError<NoKey> = CallError::from(OutOfMemory);
    assert_eq!(rt; text(alloc, &refused)?.as_str(), "out of memory");
    assert_eq!(rt; text(alloc, &OutOfMemory)?.as_str(), "out of memory");
    assert_eq!(rt; text(alloc, &EndOfFile)?.as_str(), "end of file");
    Ok(())
}

/// The error of a caller's own program.
#[derive(Drop)]
struct Stopped(TokenError<NoKey>);

impl From<TokenError<NoKey>> for Stopped {
    fn from(error: TokenError<NoKey>) -> Stopped {
        Stopped(error)
    }
}

/// Passes an error of verifying a token into an error of the caller's own by `?`.
fn passed_on(error: TokenError<NoKey>) -> Result<(), Stopped> {
    Err::<(), TokenError<NoKey>>(error)?;
    Ok(())
}

#[test]
fn what_tokens_are_refused_for(rt: HostRuntime) -> Result<(), Fail> {
    let alloc = rt.alloc();
    let refused: GateError<NoKey> = GateError::Token(CoseError::ExtraneousData);
    assert_eq!(rt;
        text(alloc, &refused)?.as_str(),
        "not a token: extraneous data in CBOR input"
    );
    let refused: GateError<NoKey> = GateError::Claims(CoseError::DuplicateMapKey);
    assert_eq!(rt;
        text(alloc, &refused)?.as_str(),
        "not a claims set: duplicate map key"
    );
    let refused: GateError<NoKey> = GateError::Caller(NoKey);
    assert_eq!(rt; text(alloc, &refused)?.as_str(), "no such key");
    let waiting = LayerError::Keys {
        key_id: Vec::new(alloc),
        error: NoKey,
    };
    let Stopped(refused) = passed_on(TokenError::Layer(1, waiting))
        .err()
        .ok_or("went on")?;
    assert_eq!(rt; text(alloc, &refused)?.as_str(), "layer 1: no such key");
    let refused: TokenError<NoKey> = TokenError::Audience;
    assert_eq!(rt; text(alloc, &refused)?.as_str(), "another audience");
    Ok(())
}

#[test]
fn every_error_is_one(_rt: HostRuntime) -> Result<(), Fail> {
    is_error::<CoseError>();
    is_error::<CallError<NoKey>>();
    is_error::<GateError<NoKey>>();
    is_error::<LayerError<NoKey>>();
    is_error::<TokenError<NoKey>>();
    is_error::<OutOfMemory>();
    is_error::<EndOfFile>();
    is_error::<de::Error<EndOfFile>>();
    is_error::<ser::Error<EndOfFile>>();
    Ok(())
}
