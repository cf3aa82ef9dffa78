//! Signs a message, writes it, reads it again and verifies it. The cryptography is yours: it
//! replaces `sign` and `verify`, which protect nothing here.
#![tactic(auto)]

use coset::{CallError, CborSerializable, CoseSign1, CoseSign1Builder, HeaderBuilder, iana};
use std::alloc::Global;
use std::io;

/// The error of signing and of verifying.
#[derive(Clone, Copy, Debug)]
struct Refused;

/// Returns a signature of `tbs`: here its first byte.
fn sign(alloc: Global, tbs: &[u8]) -> Result<Vec<u8>, Refused> {
    match tbs.first() {
        Some(byte) => Vec::from_slice(alloc, &[*byte]).ok().ok_or(Refused),
        None => Err(Refused),
    }
}

/// Checks that `signature` is a signature of `tbs`.
fn verify(signature: &[u8], tbs: &[u8]) -> Result<(), Refused> {
    match tbs.first() {
        Some(byte) if signature == [*byte].as_slice() => Ok(()),
        _ => Err(Refused),
    }
}

/// Returns the encoding of a signed message that says hello.
fn sent(alloc: Global) -> Result<Vec<u8>, CallError<Refused>> {
    let protected = HeaderBuilder::new(alloc)
        .algorithm(iana::Algorithm::ES256)
        .build();
    let message = CoseSign1Builder::new(alloc)
        .protected(protected)
        .payload_from(alloc, b"hello")?
        .try_create_signature(alloc, b"", move |tbs: &[u8]| sign(alloc, tbs))?
        .build();
    Ok(message.to_vec(alloc)?)
}

/// Reads a message, verifies it and returns its payload.
fn received(alloc: Global, bytes: &[u8]) -> Result<Option<Vec<u8>>, CallError<Refused>> {
    let message = CoseSign1::from_slice(alloc, bytes)?;
    message.verify_signature(alloc, b"", move |signature: &[u8], tbs: &[u8]| {
        verify(signature, tbs)
    })?;
    Ok(message.payload)
}

/// The step that failed, and its error. The program prints it, and ends with status 1.
#[derive(Debug, Drop)]
enum Failed {
    Sending(CallError<Refused>),
    Receiving(CallError<Refused>),
    Printing(io::Error),
}

fn main(rt: HostRuntime) -> Result<(), Failed> {
    let alloc = rt.alloc();
    let bytes = sent(alloc).map_err(Failed::Sending)?;
    println!(rt; "{} bytes sent", bytes.len()).map_err(Failed::Printing)?;
    let printed = match received(alloc, &bytes).map_err(Failed::Receiving)? {
        Some(payload) => println!(rt; "verified, with {} bytes of payload", payload.len()),
        None => println!(rt; "verified, without a payload"),
    };
    printed.map_err(Failed::Printing)
}
