//! Strings of every length, in every spelling.

use crate::answer::answer;
use crate::form::Plain;
use coset::cbor::de::read_value;
use coset::cbor::ser::write_value;
use coset::cbor::value::Value;
use std::alloc::{AllocError, Global};

/// The longest string of the sweep.
const LONGEST: u64 = 300;

/// The letter of which each string consists.
const LETTER: u8 = b'a';

/// A major type of strings (RFC 8949, section 3.1), as the first byte of its shortest head.
#[derive(Clone, Copy)]
pub enum Major {
    Bytes,
    Text,
}

impl Major {
    fn first_byte(self) -> u8 {
        match self {
            Major::Bytes => 0x40,
            Major::Text => 0x60,
        }
    }
}

/// The widths of a length's argument (RFC 8949, section 3): in the first byte, or in so many bytes
/// after it.
const WIDTHS: [usize; 5] = [0, 1, 2, 4, 8];

/// The lengths of chunks in strings of indefinite length.
const CHUNKS: [usize; 3] = [1, 7, 400];

/// Checks that every string of letters up to the longest gets its shortest encoding, in whatever
/// head or chunks it came, also if the writer borrows the value. Returns the number of spellings,
/// or the first wrong one.
pub fn strings(alloc: Global, major: Major) -> Result<String, AllocError> {
    let mut count = 0u32;
    for length in 0..=LONGEST {
        let expected = expected(alloc, major, length)?;
        let spellings = spellings(alloc, major, length)?;
        for spelling in &spellings {
            let text = answer::<Plain, Value>(alloc, spelling, &[])?;
            if text != expected || written_lent(alloc, spelling)? != expected {
                return format!(in alloc; "wrong: length {length}: {text}");
            }
            count = count.saturating_add(1);
        }
    }
    format!(in alloc; "{count} accepted")
}

/// Returns the encoding of a value that the writer borrows, in hexadecimal, or an empty text if
/// there is none.
fn written_lent(alloc: Global, spelling: &[u8]) -> Result<String, AllocError> {
    let Ok((value, _)) = read_value(alloc, spelling) else {
        return Ok(String::new(alloc));
    };
    let mut written = Vec::new(alloc);
    match write_value(&value, &mut written) {
        Ok(()) => hex::encode(alloc, written.as_slice()),
        Err(_) => Ok(String::new(alloc)),
    }
}

/// Returns the shortest encoding in hexadecimal.
fn expected(alloc: Global, major: Major, length: u64) -> Result<String, AllocError> {
    let mut bytes = Vec::new(alloc);
    let shortest = match length {
        0..=23 => 0,
        24..=255 => 1,
        _ => 2,
    };
    push_head(&mut bytes, major, shortest, length)?;
    push_letters(&mut bytes, length)?;
    hex::encode(alloc, &bytes)
}

/// Returns the string under each head that fits its length, and in chunks.
fn spellings(alloc: Global, major: Major, length: u64) -> Result<Vec<Vec<u8>>, AllocError> {
    let mut all = Vec::new(alloc);
    for width in WIDTHS {
        if fits(width, length) {
            let mut bytes = Vec::new(alloc);
            push_head(&mut bytes, major, width, length)?;
            push_letters(&mut bytes, length)?;
            all.push(bytes)?;
        }
    }
    push_chunked(alloc, major, length, &mut all)?;
    Ok(all)
}

/// Appends the string in chunks of each length.
fn push_chunked(
    alloc: Global,
    major: Major,
    length: u64,
    all: &mut Vec<Vec<u8>>,
) -> Result<(), AllocError> {
    for chunk in CHUNKS {
        all.push(chunked(alloc, major, length, chunk)?)?;
    }
    Ok(())
}

/// Returns true if the length fits in `width` bytes after the first byte of a head.
fn fits(width: usize, length: u64) -> bool {
    match width {
        0 => length < 24,
        1 => length < 256,
        _ => true,
    }
}

/// Appends a head with the length in `width` bytes after its first byte.
fn push_head(
    bytes: &mut Vec<u8>,
    major: Major,
    width: usize,
    length: u64,
) -> Result<(), AllocError> {
    let [.., third, last] = length.to_be_bytes();
    let first = major.first_byte();
    match width {
        0 => bytes.push(first | last)?,
        1 => bytes.extend_from_slice(&[first | 24, last])?,
        2 => bytes.extend_from_slice(&[first | 25, third, last])?,
        4 => bytes.extend_from_slice(&[first | 26, 0, 0, third, last])?,
        _ => bytes.extend_from_slice(&[first | 27, 0, 0, 0, 0, 0, 0, third, last])?,
    }
    Ok(())
}

fn push_letters(bytes: &mut Vec<u8>, length: u64) -> Result<(), AllocError> {
    for _ in 0..length {
        bytes.push(LETTER)?;
    }
    Ok(())
}

/// Returns the string in chunks of that length. The last may be shorter, and an empty chunk comes
/// first (RFC 8949, section 3.2.3).
fn chunked(alloc: Global, major: Major, length: u64, chunk: usize) -> Result<Vec<u8>, AllocError> {
    let mut bytes = Vec::new(alloc);
    bytes.push(major.first_byte() | 31)?;
    push_head(&mut bytes, major, 0, 0)?;
    let mut left = length;
    for _ in 0..=length {
        let next = left.min(chunk as u64);
        if next == 0 {
            break;
        }
        push_head(&mut bytes, major, 2, next)?;
        push_letters(&mut bytes, next)?;
        left -= next;
    }
    bytes.push(0xff)?;
    Ok(bytes)
}
