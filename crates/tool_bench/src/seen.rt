//! Messages that are seen in their bytes, without allocating.

use crate::fault::Fault;
use coset_seen::{Kind, see};
use std::rt::Clock;
use std::time::{Duration, Instant};

/// The size of the memory for a structure.
const SIZE: usize = 4096;

/// Returns the kind of the message.
fn kind_of(bytes: &[u8]) -> Result<Kind, Fault> {
    for kind in [Kind::Sign1, Kind::Mac0, Kind::Encrypt0] {
        if see(kind, bytes).is_some() {
            return Ok(kind);
        }
    }
    Err(Fault::Unexpected)
}

/// Finds the message, and writes its structure. Returns the message's bytes up to the end of its
/// last part, and the last byte of the structure.
fn seen<'a>(kind: Kind, bytes: &'a [u8], out: &mut [u8]) -> Result<(&'a [u8], Option<u8>), Fault> {
    let Some(seen) = see(kind, bytes) else {
        return Err(Fault::Unexpected);
    };
    let Ok(len) = seen.put_structure(&[], None, out) else {
        return Err(Fault::Unexpected);
    };
    let end = seen.proof.at.saturating_add(seen.proof.bytes.len());
    match (bytes.get(..end), out.get(..len)) {
        (Some(message), Some(structure)) => Ok((message, structure.last().copied())),
        _ => Err(Fault::Unexpected),
    }
}

/// Times finding the message and writing its structure. Each call reads the bytes that the call
/// before it found.
pub fn time_seen<R: AllocGlobal + Clock>(
    rt: &R,
    bytes: &[u8],
    calls: usize,
) -> Result<Duration, Fault> {
    let kind = kind_of(bytes)?;
    let mut out = [0u8; SIZE];
    let (mut message, last) = seen(kind, bytes, &mut out)?;
    let start = Instant::now(rt)?;
    for _ in 0..calls {
        let found = seen(kind, message, &mut out)?;
        if found.1 != last {
            return Err(Fault::Unexpected);
        }
        message = found.0;
    }
    Ok(start.elapsed(rt)?)
}
