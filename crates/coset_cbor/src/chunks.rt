//! The chunks of a borrowed string (RFC 8949, section 3.2.3).

ghost use Rattle.std.specs.Prelude.{◌≡◌, ◌≤◌, true, false, length, None, MatchOption};
ghost use Rattle.coset_cbor.specs.Grammar.{joined_chunks};
ghost use Rattle.coset_cbor.specs.Whole.{is_one_item, item_of};
ghost use Rattle.coset_cbor.specs.StringChunks.{HasChunks, HoldsChunks, as_string, are_chunks, chunk_contents, AreChunksOf};

use crate::check::begins_chunk;
use crate::head::head_of;
use crate::pull::Pull;
use crate::string::{byte_chunk, text_chunk};

/// An iterator over the contents of a byte string's chunks, in order (RFC 8949, section 3.2.3).
/// Each is borrowed, and iterating allocates nothing.
#[derive(Clone, Copy, Debug)]
pub struct ByteChunks<'a> {
    bytes: &'a [u8],
    ghost checked: { are_chunks false bytes.now ≡ true },
    ghost counted: { length (chunk_contents false bytes.now) ≤ length bytes.now },
}

/// An iterator over the contents of a text string's chunks, in order (RFC 8949, section 3.2.3).
/// Each is borrowed and is UTF-8 by itself. Iterating allocates nothing.
#[derive(Clone, Copy, Debug)]
pub struct TextChunks<'a> {
    bytes: &'a [u8],
    ghost checked: { are_chunks true bytes.now ≡ true },
    ghost counted: { length (chunk_contents true bytes.now) ≤ length bytes.now },
}

/// Returns the bytes of a string's chunks, or `None` if the item is no string of the type that
/// `is_text` selects. A definite-length string is its own only chunk.
fn chunks_of(is_text: bool, bytes: &[u8]) -> Option<&[u8]>
    requires { is_one_item bytes.now ≡ true }
    ensures { MatchOption result (as_string is_text (item_of bytes.now) ≡ None)
        (λ chunks. AreChunksOf is_text bytes.now chunks.now) }
{
    let Ok((head, rest)) = head_of(bytes) else {
        return None;
    };
    if !begins_chunk(is_text, head.major_type) {
        return None;
    }
    match head.number() {
        Some(_) => Some(bytes),
        None => {
            let (_, chunks) = rest.split_last()?;
            Some(chunks)
        }
    }
}

impl<'a> Pull<'a> {
    ghost use Rattle.std.specs.Prelude.{IfSome};
    ghost use Rattle.std.specs.Option.{option_map};
    ghost use Rattle.coset_value.specs.Parts.{as_bytes, as_text};
    ghost use Rattle.coset_cbor.specs.Pulls.{pull_bytes, pull_item};
    ghost use Rattle.coset_cbor.specs.Chunks.{chunks_bytes, chunks_left, text_chunks_bytes, text_chunks_left};

    /// Returns the chunks of a byte string, or `None` for any other item. A definite-length string
    /// is one chunk, even if it is empty.
    pub fn bytes_chunks(&self) -> Option<ByteChunks<'a>>
        ensures whole { option_map (λ c. joined_chunks (chunks_left c)) result
            ≡ as_bytes (pull_item self.now) }
        ensures chunks { IfSome result
            (λ c. HasChunks false (pull_bytes self.now) (chunks_left c)) }
        ensures bytes { IfSome result
            (λ c. HoldsChunks false (pull_bytes self.now) (chunks_bytes c)) }
    {
        let bytes = chunks_of(false, self.bytes)?;
        Some(ByteChunks { bytes })
    }

    /// Returns the chunks of a text string, or `None` for any other item. A definite-length string
    /// is one chunk, even if it is empty.
    pub fn text_chunks(&self) -> Option<TextChunks<'a>>
        ensures whole { option_map (λ c. joined_chunks (text_chunks_left c)) result
            ≡ as_text (pull_item self.now) }
        ensures chunks { IfSome result
            (λ c. HasChunks true (pull_bytes self.now) (text_chunks_left c)) }
        ensures bytes { IfSome result
            (λ c. HoldsChunks true (pull_bytes self.now) (text_chunks_bytes c)) }
    {
        let bytes = chunks_of(true, self.bytes)?;
        Some(TextChunks { bytes })
    }
}

impl<'a> Iterator for ByteChunks<'a> {
    ghost use Rattle.std.specs.Iterator.{item_count};
    ghost use Rattle.coset_cbor.specs.Chunks.{chunks_left, YieldsChunk};

    type Item = &'a [u8];

    ghost next_gives = { YieldsChunk };

    ghost remaining = { item_count chunks_left };

    /// Returns the content of the next chunk, or `None` after the last.
    fn next(&mut self) -> Option<&'a [u8]> {
        let Ok((chunk, rest)) = byte_chunk(self.bytes) else {
            return None;
        };
        *self = ByteChunks { bytes: rest };
        Some(chunk)
    }
}

impl<'a> Iterator for TextChunks<'a> {
    ghost use Rattle.std.specs.Iterator.{item_count};
    ghost use Rattle.coset_cbor.specs.Chunks.{text_chunks_left, YieldsTextChunk};

    type Item = &'a str;

    ghost next_gives = { YieldsTextChunk };

    ghost remaining = { item_count text_chunks_left };

    /// Returns the content of the next chunk, or `None` after the last.
    fn next(&mut self) -> Option<&'a str> {
        let Ok((chunk, rest)) = text_chunk(self.bytes) else {
            return None;
        };
        *self = TextChunks { bytes: rest };
        Some(chunk)
    }
}
