//! Items, and the items in them.
//!
//! The functions call each other. The levels that are left bound how deep.

ghost use Rattle.std.specs.Prelude.{IfOk, OnOk};
ghost use Rattle.tool_notation.specs.Encoding.{Adds, AddsElements, AreItems, HasHead, items_in};

use crate::blank::without_blanks;
use crate::fault::{Expected, Stop};
use crate::head::Major;
use crate::leaf::{Leaf, leaf_or_tag};
use crate::levels::Levels;
use crate::list::{List, Next, behind_colon, behind_parenthesis, opening, push_list};
use crate::string::push_string;
use std::alloc::Global;

/// Adds the element at the front of the text, which in a map is a pair, and returns the text after
/// it.
#[cycle(item)]
fn element<'a>(
    alloc: Global,
    list: List,
    text: &'a [u8],
    levels: Levels,
    out: &mut Vec<u8>,
) -> Result<&'a [u8], Stop>
    ensures { OnOk result (Adds (AreItems (items_in list)) out.old.items out.new.items) }
{
    let behind = item(alloc, text, levels, out)?;
    match list {
        List::Array | List::Embedded => Ok(behind),
        List::Map => {
            let value = behind_colon(behind)?;
            item(alloc, value, levels, out)
        }
    }
}

/// Adds the elements of a list up to its end. Returns how many there are, and the text after the
/// end.
#[cycle(item)]
fn elements<'a>(
    alloc: Global,
    list: List,
    text: &'a [u8],
    levels: Levels,
    out: &mut Vec<u8>,
) -> Result<(u64, &'a [u8]), Stop>
    ensures { IfOk result (λ r. AddsElements list r.0 out.old.items out.new.items) }
{
    let mut next = list.first(text);
    for count in 0..text.len().saturating_add(1) {
        match next {
            Next::End(rest) => return Ok((count as u64, rest)),
            Next::Element(inner) => {
                let behind = element(alloc, list, inner, levels, out)?;
                next = list.next(behind)?;
            }
        }
    }
    Err(Stop::at(text, Expected::CommaOrEnd))
}

/// Adds an array or a map whose opening bracket is before the text, and returns the text after it.
#[cycle(item)]
fn bracketed<'a>(
    alloc: Global,
    list: List,
    text: &'a [u8],
    levels: Levels,
    out: &mut Vec<u8>,
) -> Result<&'a [u8], Stop>
    requires { HasHead list }
    ensures { OnOk result (Adds (AreItems 1) out.old.items out.new.items) }
{
    let (length, inner) = opening(text)?;
    let mut content = Vec::new(alloc);
    let (count, rest) = elements(alloc, list, inner, levels, &mut content)?;
    push_list(out, list, length, count, &content, text)?;
    Ok(rest)
}

/// Adds a byte string whose `<<` is before the text, and returns the text after it.
#[cycle(item)]
fn embedded<'a>(
    alloc: Global,
    text: &'a [u8],
    levels: Levels,
    out: &mut Vec<u8>,
) -> Result<&'a [u8], Stop>
    ensures { OnOk result (Adds (AreItems 1) out.old.items out.new.items) }
{
    let inner = without_blanks(text)?;
    let mut content = Vec::new(alloc);
    let (_, behind) = elements(alloc, List::Embedded, inner, levels, &mut content)?;
    push_string(out, Major::Bytes, &content, behind)
}

/// Adds the item at the front of the text, in which so many levels may nest, and returns the text
/// after it.
#[cycle(item)]
pub(crate) fn item<'a>(
    alloc: Global,
    text: &'a [u8],
    levels: Levels,
    out: &mut Vec<u8>,
) -> Result<&'a [u8], Stop>
    ensures { OnOk result (Adds (AreItems 1) out.old.items out.new.items) }
{
    match text {
        [b'[', rest @ ..] => {
            let inner = levels.inner(text)?;
            bracketed(alloc, List::Array, rest, inner, out)
        }
        [b'{', rest @ ..] => {
            let inner = levels.inner(text)?;
            bracketed(alloc, List::Map, rest, inner, out)
        }
        [b'<', b'<', rest @ ..] => {
            let inner = levels.embedded(text)?;
            embedded(alloc, rest, inner, out)
        }
        _ => match leaf_or_tag(alloc, text, out)? {
            Leaf::Whole(rest) => Ok(rest),
            Leaf::Tag(content) => {
                let inner = levels.inner(text)?;
                let behind = item(alloc, content, inner, out)?;
                behind_parenthesis(behind)
            }
        },
    }
}
