//! The results of the closures in tests. They accept the expected bytes alone.

use example_uses::cipher::Refused;
use std::alloc::Global;

/// Returns a copy of `made`, if the bytes are the expected ones.
pub(crate) fn made_of(
    alloc: Global,
    given: &[u8],
    expected: &[u8],
    made: &[u8],
) -> Result<Vec<u8>, Refused> {
    if given != expected {
        return Err(Refused::Rejected);
    }
    Vec::from_slice(alloc, made).map_err(|_| Refused::OutOfMemory)
}

/// Returns a copy of `made`, if both are the expected ones.
pub(crate) fn made_of_two(
    alloc: Global,
    given: (&[u8], &[u8]),
    expected: (&[u8], &[u8]),
    made: &[u8],
) -> Result<Vec<u8>, Refused> {
    are(given, expected)?;
    Vec::from_slice(alloc, made).map_err(|_| Refused::OutOfMemory)
}

/// Accepts both, if they are the expected ones.
pub(crate) fn are(given: (&[u8], &[u8]), expected: (&[u8], &[u8])) -> Result<(), Refused> {
    if given.0 == expected.0 && given.1 == expected.1 {
        Ok(())
    } else {
        Err(Refused::Rejected)
    }
}
