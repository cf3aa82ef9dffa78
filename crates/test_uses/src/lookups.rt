//! Keys that are found by their identifiers.

use coset::cbor::value::Value;
use coset::{CborOrdering, CborSerializable, CoseKey, CoseKeySet};
use example_uses::cipher::Refused;
use example_uses::find_key::{key_of, try_keys};
use std::test::*;

/// Two symmetric keys: `a` without parameters, and `b` with the parameters `x` and -1, in this
/// order.
const KEYS: &[u8] = b"\x82\xa2\x01\x04\x02\x41a\xa4\x01\x04\x02\x41b\x61x\x01\x20\x41k";

#[test]
fn keys_by_their_identifiers(rt: HostRuntime) -> Result<(), Fail> {
    let alloc = rt.alloc();
    let key = key_of(alloc, KEYS, b"b", CborOrdering::Lexicographic)
        .ok()
        .ok_or("refused")?
        .ok_or("not found")?;
    let bytes = key.to_vec(alloc).ok().ok_or("memory")?;
    assert_eq!(rt;
        bytes.as_slice(),
        b"\xa4\x01\x04\x02\x41b\x20\x41k\x61x\x01".as_slice()
    );
    let none = key_of(alloc, KEYS, b"c", CborOrdering::Lexicographic);
    assert!(rt; matches!(none, Ok(None)));
    Ok(())
}

/// Two symmetric keys with the identifier `a`, and the secrets `01` and `02`.
const SAME: &[u8] = b"\x82\xa3\x01\x04\x02\x41a\x20\x41\x01\xa3\x01\x04\x02\x41a\x20\x41\x02";

/// Returns the secret, if it is this one.
fn secret_of(key: &CoseKey, secret: u8) -> Result<u8, Refused> {
    match key.params.first() {
        Some((_, Value::Bytes(bytes))) if bytes.first() == Some(&secret) => Ok(secret),
        _ => Err(Refused::Rejected),
    }
}

#[test]
fn keys_with_the_same_identifier(rt: HostRuntime) -> Result<(), Fail> {
    let alloc = rt.alloc();
    let keys = CoseKeySet::from_slice(alloc, SAME).ok().ok_or("refused")?;
    for secret in [1u8, 2] {
        let made = try_keys(&keys, b"a", |key: &CoseKey| secret_of(key, secret));
        assert!(rt; made == Ok(secret));
    }
    let no_secret = try_keys(&keys, b"a", |key: &CoseKey| secret_of(key, 3));
    assert!(rt; no_secret == Err(Refused::Rejected));
    let no_key = try_keys(&keys, b"b", |key: &CoseKey| secret_of(key, 1));
    assert!(rt; no_key == Err(Refused::Rejected));
    let no_memory = try_keys(
        &keys,
        b"a",
        |_: &CoseKey| Err::<u8, Refused>(Refused::OutOfMemory),
    );
    assert!(rt; no_memory == Err(Refused::OutOfMemory));
    Ok(())
}
