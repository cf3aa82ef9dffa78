//! Comments between bytes: from `#`, `;` or `//` to the end of a line, and from `/*` to `*/`.

ghost use Rattle.std.specs.Prelude.{◌≡◌, IfErr, IfOk, IfSome};
ghost use Rattle.tool_spelled.specs.Comments.{begins_with, next_place, seen, without_comments};
ghost use Rattle.tool_spelled.specs.Pieces.{ArePieces};
ghost use Rattle.tool_spelled.specs.Spelled.{IsWithin};
ghost use Rattle.tool_spelled.specs.declared.comments.Place.TheVariants.{Outside};
ghost use Rattle.tool_spelled.specs.declared.pieces.Format.TheVariants.{Array};

use crate::pieces::{self, Format};
use crate::read::{Misspelled, Why};
use std::alloc::{AllocError, Global};

/// The place of a character.
#[derive(Clone, Copy, PartialEq, Eq)]
enum Place {
    /// Outside comments, or at the first character of one.
    Outside,
    /// In a comment that ends with its line.
    Line,
    /// At the `*` that follows the `/` of a block comment.
    Opening,
    /// In a block comment.
    Block,
    /// At the `/` that ends a block comment.
    Closing,
}

/// Returns true if the text begins with the character.
fn begins_with(text: &[u8], byte: u8) -> bool
    ensures { result ≡ begins_with text.now byte }
{
    match text {
        [first, ..] => *first == byte,
        [] => false,
    }
}

/// Returns the place of the first character of `rest`, which is after `byte` at `place`.
fn next_place(place: Place, byte: u8, rest: &[u8]) -> Place
    ensures { result ≡ next_place place byte rest.now }
{
    match place {
        Place::Outside => {
            if byte == b'#' || byte == b';' || (byte == b'/' && begins_with(rest, b'/')) {
                Place::Line
            } else if byte == b'/' && begins_with(rest, b'*') {
                Place::Opening
            } else {
                Place::Outside
            }
        }
        Place::Line => {
            if byte == b'\n' {
                Place::Outside
            } else {
                Place::Line
            }
        }
        Place::Opening => Place::Block,
        Place::Block => {
            if byte == b'*' && begins_with(rest, b'/') {
                Place::Closing
            } else {
                Place::Block
            }
        }
        Place::Closing => Place::Outside,
    }
}

/// Returns the character itself outside comments, and a space within them.
fn seen(place: Place, next: Place, byte: u8) -> u8
    ensures { result ≡ seen place next byte }
{
    match (place, next) {
        (Place::Outside, Place::Outside) => byte,
        _ => b' ',
    }
}

/// Returns the text with a space for each character of a comment, or a fault if a block comment
/// has no end.
pub(crate) fn without_comments(
    alloc: Global,
    text: &[u8],
) -> Result<Result<Vec<u8>, Misspelled>, AllocError>
    ensures spelled { IfOk result (λ r. IfOk r (λ t.
        t.items ≡ without_comments Outside text.now)) }
    ensures within { IfOk result (λ r. IfErr r (IsWithin text.now)) }
{
    let mut seen_text = Vec::new(alloc);
    let mut place = Place::Outside;
    let mut left = text;
    while let Some((first, rest)) = left.split_first() {
        let next = next_place(place, *first, rest);
        seen_text.push(seen(place, next, *first))?;
        place = next;
        left = rest;
    }
    if place == Place::Opening || place == Place::Block {
        return Ok(Err(Misspelled(text.len(), Why::Comment)));
    }
    Ok(Ok(seen_text))
}

/// Returns the bytes of the text's pieces, without the comments between them, or where the text is
/// misspelled.
///
/// # Errors
/// `AllocError` if an allocation fails.
pub(crate) fn bytes(
    alloc: Global,
    format: Format,
    text: &[u8],
) -> Result<Result<Vec<u8>, Misspelled>, AllocError>
    ensures spelled { IfOk result (λ r. IfOk r (λ bytes.
        ArePieces format (without_comments Outside text.now) bytes.items)) }
    ensures within { IfOk result (λ r. IfErr r (IsWithin text.now)) }
{
    match without_comments(alloc, text)? {
        Ok(pieces) => pieces::bytes(alloc, format, &pieces),
        Err(misspelled) => Ok(Err(misspelled)),
    }
}

/// Returns where the first `;` outside comments is. In an array it begins no comment: Rust repeats
/// an element by it.
fn semicolon(text: &[u8]) -> Option<Misspelled>
    ensures { IfSome result (IsWithin text.now) }
{
    let mut place = Place::Outside;
    for (offset, byte) in text.iter().enumerate() {
        if place == Place::Outside && *byte == b';' {
            return Some(Misspelled(offset.min(text.len()), Why::Digit));
        }
        let (_, rest) = text.split_at(offset.saturating_add(1).min(text.len()));
        place = next_place(place, *byte, rest);
    }
    None
}

/// Returns the numbers of an array in source code as [`bytes`] does. A `;` outside comments is a
/// fault.
///
/// # Errors
/// `AllocError` if an allocation fails.
pub(crate) fn elements(
    alloc: Global,
    text: &[u8],
) -> Result<Result<Vec<u8>, Misspelled>, AllocError>
    ensures spelled { IfOk result (λ r. IfOk r (λ bytes.
        ArePieces Array (without_comments Outside text.now) bytes.items)) }
    ensures within { IfOk result (λ r. IfErr r (IsWithin text.now)) }
{
    match semicolon(text) {
        Some(misspelled) => Ok(Err(misspelled)),
        None => bytes(alloc, Format::Array, text),
    }
}
