//! The calls that are timed.
//!
//! A compiler could drop a call whose result is unused, or make one call instead of many equal
//! ones. So each result is used. A refusal ends the round. Written output must be as long as the
//! first time. Each check reads the bytes that the check before it found.

ghost use Rattle.std.specs.Prelude.{◌≡◌, ◌≤◌, ◌<◌, length, IfOk};

use crate::fault::Fault;
use crate::structured::Structured;
use coset_cbor::de::{EndOfFile, Error, Steps, check};
use coset_codec::CborSerializable;
use coset_key::CoseKey;
use coset_label::CborOrdering;
use std::alloc::Global;
use std::marker::Brand;
use std::rt::Clock;
use std::sync::ledger::{Blank, Ledger};
use std::time::{Duration, Instant};

/// Times reading the value and dropping it.
fn time_read<T: CborSerializable + Drop, R: AllocGlobal + Clock>(
    rt: &R,
    bytes: &[u8],
    calls: usize,
) -> Result<Duration, Fault> {
    let alloc = rt.alloc();
    let start = Instant::now(rt)?;
    for _ in 0..calls {
        match T::from_slice(alloc, bytes) {
            Ok(value) => drop(value),
            Err(error) => return Err(Fault::from(error)),
        }
    }
    Ok(start.elapsed(rt)?)
}

/// Times refusing the bytes.
pub fn time_refusal<T: CborSerializable + Drop, R: AllocGlobal + Clock>(
    rt: &R,
    bytes: &[u8],
    calls: usize,
) -> Result<Duration, Fault> {
    let alloc = rt.alloc();
    let start = Instant::now(rt)?;
    for _ in 0..calls {
        if T::from_slice(alloc, bytes).is_ok() {
            return Err(Fault::Unexpected);
        }
    }
    Ok(start.elapsed(rt)?)
}

/// Returns `calls` copies of the value, the first one last. `pop` then takes them in the order in
/// which they were made, and moves no other copy.
fn copies<T: Clone + Drop>(alloc: Global, value: &T, calls: usize) -> Result<Vec<T>, Fault> {
    let mut copies = Vec::with_capacity(alloc, calls)?;
    for _ in 0..calls {
        copies.push(value.clone()?)?;
    }
    copies.as_mut_slice().reverse();
    Ok(copies)
}

/// Times writing the value, and dropping the value and its bytes. The copies to write are made
/// before the clock starts.
fn time_write<T: CborSerializable + Clone + Drop, R: AllocGlobal + Clock>(
    rt: &R,
    bytes: &[u8],
    calls: usize,
) -> Result<Duration, Fault> {
    let alloc = rt.alloc();
    let value = T::from_slice(alloc, bytes)?;
    let mut copies = copies(alloc, &value, calls)?;
    let length = value.to_vec(alloc)?.len();
    let start = Instant::now(rt)?;
    for _ in 0..calls {
        let Some(copy) = copies.pop() else {
            return Err(Fault::Unexpected);
        };
        if copy.to_vec(alloc)?.len() != length {
            return Err(Fault::Unexpected);
        }
    }
    Ok(start.elapsed(rt)?)
}

/// Times writing the value, or reading it if `is_written` is false.
pub fn time_value<T: CborSerializable + Clone + Drop, R: AllocGlobal + Clock>(
    is_written: bool,
    rt: &R,
    bytes: &[u8],
    calls: usize,
) -> Result<Duration, Fault> {
    if is_written {
        time_write::<T, R>(rt, bytes, calls)
    } else {
        time_read::<T, R>(rt, bytes, calls)
    }
}

/// Times copying the value and dropping the copy.
pub fn time_copy<T: CborSerializable + Clone + Drop, R: AllocGlobal + Clock>(
    rt: &R,
    bytes: &[u8],
    calls: usize,
) -> Result<Duration, Fault> {
    let value = T::from_slice(rt.alloc(), bytes)?;
    let start = Instant::now(rt)?;
    for _ in 0..calls {
        drop(value.clone()?);
    }
    Ok(start.elapsed(rt)?)
}

/// Times comparing the value with its copy.
pub fn time_compare<T: CborSerializable + Clone + PartialEq + Drop, R: AllocGlobal + Clock>(
    rt: &R,
    bytes: &[u8],
    calls: usize,
) -> Result<Duration, Fault> {
    let value = T::from_slice(rt.alloc(), bytes)?;
    let copy = value.clone()?;
    let start = Instant::now(rt)?;
    for _ in 0..calls {
        if value != copy {
            return Err(Fault::Unexpected);
        }
    }
    Ok(start.elapsed(rt)?)
}

/// Times putting the parameters of a key in order, and dropping the key. The copies are made before
/// the clock starts.
pub fn time_canonicalize<R: AllocGlobal + Clock>(
    rt: &R,
    bytes: &[u8],
    calls: usize,
) -> Result<Duration, Fault> {
    let alloc = rt.alloc();
    let key = CoseKey::from_slice(alloc, bytes)?;
    let mut copies = copies(alloc, &key, calls)?;
    let start = Instant::now(rt)?;
    for _ in 0..calls {
        match copies.pop() {
            Some(mut copy) => copy.canonicalize(alloc, CborOrdering::Lexicographic)?,
            None => return Err(Fault::Unexpected),
        }
    }
    Ok(start.elapsed(rt)?)
}

/// Times making the structure of the message.
pub fn time_structure<T: CborSerializable + Structured + Drop, R: AllocGlobal + Clock>(
    rt: &R,
    bytes: &[u8],
    calls: usize,
) -> Result<Duration, Fault> {
    let alloc = rt.alloc();
    let message = T::from_slice(alloc, bytes)?;
    let length = message.structure_length(alloc)?;
    let start = Instant::now(rt)?;
    for _ in 0..calls {
        if message.structure_length(alloc)? != length {
            return Err(Fault::Unexpected);
        }
    }
    Ok(start.elapsed(rt)?)
}

/// Checks the item at the front `calls` times, each time the bytes that the previous check found.
/// Returns their number.
fn check_each<L: Ledger>(
    bytes: &[u8],
    calls: usize,
    blank: Blank,
) -> Result<usize, Error<EndOfFile>>
    requires name { blank.name ≡ L.name }
    requires parts { blank.parts ≡ L.parts }
    requires some { 0 < L.parts }
    ensures { IfOk result (λ n. n ≤ length bytes.now) }
{
    let mut steps = Steps::<L>::new(blank);
    let mut item = bytes;
    for _ in 0..calls {
        let length = check(item, &mut steps)?;
        item = &item[..length];
    }
    Ok(item.len())
}

/// Times checking the item that the bytes encode.
pub fn time_check<R: Clock>(rt: &R, bytes: &[u8], calls: usize) -> Result<Duration, Fault> {
    let start = Instant::now(rt)?;
    let length = check_each::<Brand>(bytes, calls, Blank::new(1))?;
    let time = start.elapsed(rt)?;
    if length != bytes.len() {
        return Err(Fault::Unexpected);
    }
    Ok(time)
}
