//! Writes the `Sig_structure`, `MAC_structure` and `Enc_structure` into the caller's memory
//! (RFC 8152, sections 4.4, 6.3 and 5.3).

ghost use Rattle.std.specs.List.{flat_map};
ghost use Rattle.std.specs.Prelude.{◌≡◌, ◌++◌, ◌≤◌, ◌<◌, ◌^◌, MatchOption, length, take};
ghost use Rattle.coset_cbor.specs.Least.{least_head};
ghost use Rattle.coset_seen.specs.Puts.{PutsTexts};
ghost use Rattle.coset_seen.specs.Structures.{MakesItem, PutsItem, encoded, front_of, or_out_of_memory, structure_of};

use crate::kind::Kind;
use coset::CoseError;
use coset::laws::least_encoding_is_shortest;
use coset_core::structure::structure_bytes;
use std::alloc::Global;

/// An error of writing a structure or slices.
#[derive(Clone, Copy, Debug, PartialEq, Eq)]
pub enum StructureError {
    /// `out` is too small. The number is the length needed, in bytes.
    Short(usize),
    /// An allocation failed, or the length doesn't fit in a `usize`.
    OutOfMemory,
    /// The message carries no content, and `detached` gives none.
    NoContent,
    /// The message carries its content, and `detached` gives another one.
    TwoContents,
}

/// The shortest head of a byte string: the first `len` of these bytes.
#[derive(Clone, Copy)]
struct BytesHead {
    bytes: [u8; 9],
    len: usize,
    ghost within: { len ≤ 9 },
}

impl BytesHead {
    /// Returns the bytes of the head.
    fn as_slice(&self) -> &[u8]
        ensures { result.now ≡ take self.now.len self.now.bytes }
    {
        &self.bytes[..self.len]
    }
}

/// Returns the shortest head of a byte string of this length (RFC 8949, section 3).
#[tactic(auto, unfolding(coset_cbor::specs::Least::least_head))]
fn bytes_head(length: usize) -> BytesHead
    ensures head { take result.len result.bytes ≡ least_head 2 length }
    ensures small { length < 2 ^ 64 }
{
    let n = length as u64;
    let (bytes, len) = if n < 24 {
        ([0x40 + n as u8, 0, 0, 0, 0, 0, 0, 0, 0], 1)
    } else if n < 0x100 {
        ([0x58, n as u8, 0, 0, 0, 0, 0, 0, 0], 2)
    } else if n < 0x1_0000 {
        let [a, b] = (n as u16).to_be_bytes();
        ([0x59, a, b, 0, 0, 0, 0, 0, 0], 3)
    } else if n < 0x1_0000_0000 {
        let [a, b, c, d] = (n as u32).to_be_bytes();
        ([0x5A, a, b, c, d, 0, 0, 0, 0], 5)
    } else {
        let [a, b, c, d, e, f, g, h] = n.to_be_bytes();
        ([0x5B, a, b, c, d, e, f, g, h], 9)
    };
    BytesHead { bytes, len }
}

/// Returns the total length of the texts, or `None` if it doesn't fit in a `usize`.
fn total_len(texts: &[&[u8]]) -> Option<usize>
    ensures { MatchOption result (2 ^ 64 ≤ length (flat_map (λ t. t.now) texts.now))
        (λ n. n ≡ length (flat_map (λ t. t.now) texts.now)) }
{
    let mut total: usize = 0;
    for text in texts {
        let Some(sum) = total.checked_add(text.len()) else {
            return None;
        };
        total = sum;
    }
    Some(total)
}

/// Writes the slices to the front of `out`, one after another, and returns their total length. The
/// rest of `out` is unchanged.
///
/// # Errors
/// - `Short` with the length needed, if `out` is too small.
/// - `OutOfMemory` if the length doesn't fit in a `usize`.
///
/// `out` is then unchanged.
pub fn put_texts(texts: &[&[u8]], out: &mut [u8]) -> Result<usize, StructureError>
    ensures { PutsTexts (flat_map (λ t. t.now) texts.now) out.old out.new result }
{
    let Some(len) = total_len(texts) else {
        return Err(StructureError::OutOfMemory);
    };
    if out.len() < len {
        return Err(StructureError::Short(len));
    }
    let mut at = 0;
    for text in texts {
        let (_, rest) = out.split_at_mut(at);
        let (front, _) = rest.split_at_mut(text.len());
        front.copy_from_slice(text);
        at += text.len();
    }
    Ok(len)
}

/// Returns the front of the structure's shortest encoding, up to its context.
#[tactic(auto, unfolding(coset_cbor::specs::Least::least_head))]
fn front_of(kind: Kind) -> &'static [u8]
    ensures { result.now ≡ front_of kind }
{
    match kind {
        Kind::Sign1 => b"\x84\x6aSignature1",
        Kind::Mac0 => b"\x84\x64MAC0",
        Kind::Encrypt0 => b"\x83\x68Encrypt0",
        Kind::Mac => b"\x84\x63MAC",
        Kind::Encrypt => b"\x83\x67Encrypt",
    }
}

/// A byte string: its shortest head and its content.
#[derive(Clone, Copy)]
struct ByteString<'a> {
    head: &'a [u8],
    content: &'a [u8],
}

/// Writes `front` and then the byte strings to the front of `out`, and returns the length.
///
/// # Errors
/// The errors of [`put_texts`].
fn put_two<'a>(
    front: &'a [u8],
    first: ByteString<'a>,
    second: ByteString<'a>,
    out: &mut [u8],
) -> Result<usize, StructureError>
    ensures { PutsTexts (front.now ++ (encoded first.entry ++ encoded second.entry))
        out.old out.new result }
{
    put_texts(
        &[
            front,
            first.head,
            first.content,
            second.head,
            second.content,
        ],
        out,
    )
}

/// Writes `front` and then the byte strings to the front of `out`, and returns the length.
///
/// # Errors
/// The errors of [`put_texts`].
fn put_three<'a>(
    front: &'a [u8],
    first: ByteString<'a>,
    second: ByteString<'a>,
    third: ByteString<'a>,
    out: &mut [u8],
) -> Result<usize, StructureError>
    ensures { PutsTexts (front.now ++ (encoded first.entry
        ++ (encoded second.entry ++ encoded third.entry))) out.old out.new result }
{
    put_texts(
        &[
            front,
            first.head,
            first.content,
            second.head,
            second.content,
            third.head,
            third.content,
        ],
        out,
    )
}

/// Writes the shortest encoding of a structure to the front of `out`, and returns its length. The
/// structure of an encrypted message is without the content.
///
/// # Errors
/// - `Short` with the length needed, if `out` is too small.
/// - `OutOfMemory` if the length doesn't fit in a `usize`.
///
/// `out` is then unchanged.
pub(crate) fn put_structure(
    kind: Kind,
    protected: &[u8],
    external_aad: &[u8],
    content: &[u8],
    out: &mut [u8],
) -> Result<usize, StructureError>
    ensures { PutsItem (structure_of kind protected.now external_aad.now content.now)
        out.old out.new result }
{
    least_encoding_is_shortest();
    let first = bytes_head(protected.len());
    let second = bytes_head(external_aad.len());
    let third = bytes_head(content.len());
    let front = front_of(kind);
    let first = ByteString {
        head: first.as_slice(),
        content: protected,
    };
    let second = ByteString {
        head: second.as_slice(),
        content: external_aad,
    };
    let third = ByteString {
        head: third.as_slice(),
        content,
    };
    match kind {
        Kind::Sign1 | Kind::Mac0 | Kind::Mac => put_three(front, first, second, third, out),
        Kind::Encrypt0 | Kind::Encrypt => put_two(front, first, second, out),
    }
}

/// Returns the vector, or `OutOfMemory` for an error.
fn or_out_of_memory(made: Result<Vec<u8>, CoseError>) -> Result<Vec<u8>, StructureError>
    ensures { result ≡ or_out_of_memory made }
{
    match made {
        Ok(bytes) => Ok(bytes),
        Err(_) => Err(StructureError::OutOfMemory),
    }
}

/// Returns the shortest encoding of a structure. The structure of an encrypted message is without
/// the content.
///
/// # Errors
/// `OutOfMemory` if an allocation fails.
pub(crate) fn structure_of<'a>(
    alloc: Global,
    kind: Kind,
    protected: &'a [u8],
    external_aad: &'a [u8],
    content: &'a [u8],
) -> Result<Vec<u8>, StructureError>
    ensures { MakesItem (λ v. v.items)
        (structure_of kind protected.now external_aad.now content.now) result }
{
    match kind {
        Kind::Sign1 => {
            let parts = [protected, external_aad, content];
            or_out_of_memory(structure_bytes(alloc, "Signature1", &parts))
        }
        Kind::Mac0 => {
            let parts = [protected, external_aad, content];
            or_out_of_memory(structure_bytes(alloc, "MAC0", &parts))
        }
        Kind::Encrypt0 => {
            let parts = [protected, external_aad];
            or_out_of_memory(structure_bytes(alloc, "Encrypt0", &parts))
        }
        Kind::Mac => {
            let parts = [protected, external_aad, content];
            or_out_of_memory(structure_bytes(alloc, "MAC", &parts))
        }
        Kind::Encrypt => {
            let parts = [protected, external_aad];
            or_out_of_memory(structure_bytes(alloc, "Encrypt", &parts))
        }
    }
}
