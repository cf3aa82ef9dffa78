//! The authenticator data of a WebAuthn attestation object (W3C WebAuthn, section 6.1).

use coset::cbor::de::Pull;
use std::alloc::{AllocError, Global};

/// The flags, from the lowest bit on. Bits without a name are reserved.
const FLAGS: [(u8, &str); 6] = [
    (0x01, "UP"),
    (0x04, "UV"),
    (0x08, "BE"),
    (0x10, "BS"),
    (0x40, "AT"),
    (0x80, "ED"),
];

/// The flag of attested credential data.
const ATTESTED: u8 = 0x40;

/// Takes so many bytes from the front of the rest. Takes nothing if there are fewer.
fn take<'a>(rest: &mut &'a [u8], count: usize) -> Option<&'a [u8]> {
    let all = *rest;
    if all.len() < count {
        return None;
    }
    let (front, behind) = all.split_at(count);
    *rest = behind;
    Some(front)
}

/// Returns the number that the bytes are, the most significant byte first.
fn number(bytes: &[u8]) -> u32 {
    let mut number = 0u32;
    for byte in bytes {
        number = number.saturating_mul(256).saturating_add(u32::from(*byte));
    }
    number
}

/// Adds the names of the flags that are set.
fn push_flags(note: &mut String, flags: u8) -> Result<(), AllocError> {
    note.push_str("flags")?;
    for (flag, name) in FLAGS {
        if flags & flag != 0 {
            write!(note, " {name}")?;
        }
    }
    Ok(())
}

/// Adds the attested credential data at the front of the rest: AAGUID, credential id and public
/// key. Returns false if it ends too early.
fn push_credential(alloc: Global, note: &mut String, mut rest: &[u8]) -> Result<bool, AllocError> {
    let (Some(aaguid), Some(length)) = (take(&mut rest, 16), take(&mut rest, 2)) else {
        return Ok(false);
    };
    let Some(id) = take(&mut rest, number(length) as usize) else {
        return Ok(false);
    };
    let (aaguid, id) = (hex::encode(alloc, aaguid)?, hex::encode(alloc, id)?);
    write!(note, ", AAGUID {aaguid}, credential id h'{id}'")?;
    match Pull::new(rest) {
        Ok((key, behind)) => {
            let (length, left) = (key.slice().len(), behind.len());
            write!(
                note,
                ", COSE_Key of {length} bytes, {left} bytes of extensions"
            )?;
            Ok(true)
        }
        Err(_) => Ok(false),
    }
}

/// Adds what the authenticator data says to the note.
///
/// # Errors
/// `AllocError` if an allocation fails.
pub(crate) fn push(alloc: Global, note: &mut String, data: &[u8]) -> Result<(), AllocError> {
    let mut rest = data;
    let (Some(hash), Some(flags), Some(counter)) = (
        take(&mut rest, 32),
        take(&mut rest, 1),
        take(&mut rest, 4),
    ) else {
        return Ok(());
    };
    if !note.is_empty() {
        note.push_str(": ")?;
    }
    let (hash, counter) = (hex::encode(alloc, hash)?, number(counter));
    write!(note, "rpIdHash h'{hash}', ")?;
    let flags = flags.first().copied().unwrap_or(0);
    push_flags(note, flags)?;
    write!(note, ", counter {counter}")?;
    if flags & ATTESTED != 0 && !push_credential(alloc, note, rest)? {
        note.push_str(", and then it ends too early")?;
    }
    Ok(())
}
