//! Stores that keep keys in one order.

use coset::CborOrdering;
use example_uses::store::{hold_the_same, stored};
use std::test::*;

/// A symmetric key with the parameters `a` and -1, in this order.
const KEY: &[u8] = b"\xa3\x01\x04\x61a\x01\x20\x41k";

/// The same key, with -1 first and longer heads.
const SPELLED_ANEW: &[u8] = b"\xbf\x18\x01\x04\x20\x58\x01k\x61a\x18\x01\xff";

/// Another key.
const OTHER: &[u8] = b"\xa3\x01\x04\x61a\x01\x20\x41l";

#[test]
fn keys_that_are_stored(rt: HostRuntime) -> Result<(), Fail> {
    let alloc = rt.alloc();
    let held = stored(alloc, KEY, CborOrdering::Lexicographic)
        .ok()
        .ok_or("refused")?;
    assert_eq!(rt;
        held.as_slice(),
        b"\xa3\x01\x04\x20\x41k\x61a\x01".as_slice()
    );
    Ok(())
}

#[test]
fn stores_that_hold_the_same(rt: HostRuntime) -> Result<(), Fail> {
    let alloc = rt.alloc();
    assert!(rt; matches!(hold_the_same(alloc, KEY, SPELLED_ANEW), Ok(true)));
    assert!(rt; matches!(hold_the_same(alloc, KEY, OTHER), Ok(false)));
    Ok(())
}
