//! Stores of sets of keys.

use coset::CborOrdering;
use example_uses::key_sets::{sets_hold_the_same, stored_keys};
use std::test::*;

/// A set of one symmetric key, with the parameters `a` and -1, in this order.
const ONE: &[u8] = b"\x81\xa3\x01\x04\x61a\x01\x20\x41k";

/// The same set, with -1 first and longer heads.
const ONE_SPELLED_ANEW: &[u8] = b"\x98\x01\xb8\x03\x20\x58\x01k\x61a\x18\x01\x18\x01\x04";

/// A set of that key and of a key with the parameters -1 and 24.
const TWO: &[u8] = b"\x82\xa3\x01\x04\x61a\x01\x20\x41k\xa3\x01\x04\x20\x41l\x18\x18\x02";

/// The same set, with the parameters of both keys in another order, and with indefinite lengths.
const TWO_SPELLED_ANEW: &[u8] =
    b"\x9f\xbf\x01\x04\x20\x41k\x61a\x01\xff\xbf\x18\x18\x02\x20\x5f\x41l\xff\x01\x04\xff\xff";

/// The same two keys in the opposite order.
const TURNED: &[u8] = b"\x82\xa3\x01\x04\x20\x41l\x18\x18\x02\xa3\x01\x04\x61a\x01\x20\x41k";

/// A set whose second key is a different one.
const OTHER: &[u8] = b"\x82\xa3\x01\x04\x61a\x01\x20\x41k\xa3\x01\x04\x20\x41m\x18\x18\x02";

/// Returns true if the stored bytes are these two.
fn are_held(held: &[Vec<u8>], first: &[u8], second: &[u8]) -> bool {
    match held {
        [one, other] => one.as_slice() == first && other.as_slice() == second,
        _ => false,
    }
}

#[test]
fn sets_that_are_stored(rt: HostRuntime) -> Result<(), Fail> {
    let alloc = rt.alloc();
    let by_bytes = stored_keys(alloc, TWO, CborOrdering::Lexicographic)
        .ok()
        .ok_or("refused")?;
    assert!(rt;
        are_held(
            &by_bytes,
            b"\xa3\x01\x04\x20\x41k\x61a\x01",
            b"\xa3\x01\x04\x18\x18\x02\x20\x41l"
        )
    );
    let by_lengths = stored_keys(
        alloc,
        TWO_SPELLED_ANEW,
        CborOrdering::LengthFirstLexicographic,
    )
    .ok()
    .ok_or("refused")?;
    assert!(rt;
        are_held(
            &by_lengths,
            b"\xa3\x01\x04\x20\x41k\x61a\x01",
            b"\xa3\x01\x04\x20\x41l\x18\x18\x02"
        )
    );
    Ok(())
}

#[test]
fn sets_that_are_held_the_same(rt: HostRuntime) -> Result<(), Fail> {
    let alloc = rt.alloc();
    assert!(rt; matches!(sets_hold_the_same(alloc, ONE, ONE_SPELLED_ANEW), Ok(true)));
    assert!(rt; matches!(sets_hold_the_same(alloc, TWO, TWO_SPELLED_ANEW), Ok(true)));
    assert!(rt; matches!(sets_hold_the_same(alloc, TWO, TURNED), Ok(false)));
    assert!(rt; matches!(sets_hold_the_same(alloc, TWO, OTHER), Ok(false)));
    assert!(rt; matches!(sets_hold_the_same(alloc, TWO, ONE), Ok(false)));
    Ok(())
}
