//! Calls of `Pull`, a borrowed item.

use coset::cbor::de::{ByteChunks, Items, Pairs, Pull, TextChunks};
use coset::cbor::value::Value;
use coset::{CoseError, Result};
use std::alloc::Global;
use test_lines::words::Words;
use test_lines::{mark, tell};

/// Makes the call of that name. Arguments: bytes with the item at their front.
///
/// # Errors
/// A fault in the arguments, or an unknown name.
pub fn call(alloc: Global, name: &str, words: &Words<'_>) -> Result<String> {
    let bytes = words.bytes(alloc, 1)?;
    if name == "new" {
        return new(alloc, &bytes);
    }
    let (pull, _) = Pull::new(&bytes)?;
    match name {
        "to_value" => to_value(alloc, pull),
        "to_bytes" => to_bytes(alloc, pull),
        "to_text" => to_text(alloc, pull),
        "walk" => walk(alloc, pull),
        "integer" | "float" | "bool" => {
            mark::begin(alloc);
            let found = scalar(name, pull);
            mark::end(alloc);
            tell::maybe(alloc, found)
        }
        _ => {
            mark::begin(alloc);
            let answer = is_of(name, pull);
            mark::end(alloc);
            tell::truth(alloc, answer?)
        }
    }
}

/// Returns the bytes of the item, and those after it.
fn new(alloc: Global, bytes: &[u8]) -> Result<String> {
    mark::begin(alloc);
    let lent = Pull::new(bytes);
    mark::end(alloc);
    match lent {
        Ok((pull, rest)) => {
            let slice = tell::hexadecimal(alloc, pull.slice())?;
            let rest = tell::hexadecimal(alloc, rest)?;
            Ok(format!(in alloc; "ok {slice} {rest}")?)
        }
        Err(error) => tell::unread(alloc, &error),
    }
}

/// Returns the result of the call of that name.
fn scalar(name: &str, pull: Pull<'_>) -> Option<Value> {
    match name {
        "integer" => pull.integer().map(Value::Integer),
        "float" => pull.float().map(Value::Float),
        _ => pull.bool().map(Value::Bool),
    }
}

/// Returns true if the call of that name returns something.
fn is_of(name: &str, pull: Pull<'_>) -> Result<bool> {
    match name {
        "is_null" => Ok(pull.is_null()),
        "tag" => Ok(pull.tag().is_some()),
        "bytes_chunks" => Ok(pull.bytes_chunks().is_some()),
        "text_chunks" => Ok(pull.text_chunks().is_some()),
        "items" => Ok(pull.items().is_some()),
        "pairs" => Ok(pull.pairs().is_some()),
        _ => Err(CoseError::UnexpectedItem("name", "call of Pull")),
    }
}

fn to_value(alloc: Global, pull: Pull<'_>) -> Result<String> {
    mark::begin(alloc);
    let answer = pull.to_value(alloc);
    mark::end(alloc);
    match answer {
        Ok(value) => tell::value(alloc, Ok(value)),
        Err(error) => tell::refused(alloc, CoseError::from(error)),
    }
}

fn to_bytes(alloc: Global, pull: Pull<'_>) -> Result<String> {
    mark::begin(alloc);
    let answer = pull.to_bytes(alloc);
    mark::end(alloc);
    match answer {
        Ok(content) => tell::maybe(alloc, content.map(Value::Bytes)),
        Err(error) => tell::refused(alloc, CoseError::from(error)),
    }
}

fn to_text(alloc: Global, pull: Pull<'_>) -> Result<String> {
    mark::begin(alloc);
    let answer = pull.to_text(alloc);
    mark::end(alloc);
    match answer {
        Ok(content) => tell::maybe(alloc, content.map(Value::Text)),
        Err(error) => tell::refused(alloc, CoseError::from(error)),
    }
}

/// Returns the item, rebuilt from its borrowed parts.
fn walk(alloc: Global, pull: Pull<'_>) -> Result<String> {
    mark::begin(alloc);
    let answer = walked(alloc, pull, DEPTH);
    mark::end(alloc);
    tell::value(alloc, answer)
}

/// The depth of a walk: two for each of at most 256 levels, and one for the item at the bottom.
const DEPTH: u32 = 513;

/// Rebuilds the item from its borrowed parts.
#[cycle(walk)]
fn walked(alloc: Global, pull: Pull<'_>, depth: u32) -> Result<Value> {
    if let Some(scalar) = walked_scalar(pull) {
        return Ok(scalar);
    }
    if let Some(chunks) = pull.bytes_chunks() {
        return Ok(Value::Bytes(bytes_of(alloc, chunks)?));
    }
    if let Some(chunks) = pull.text_chunks() {
        return Ok(Value::Text(text_of(alloc, chunks)?));
    }
    if depth == 0 {
        return Err(CoseError::UnexpectedItem("item", "item that is less deep"));
    }
    if let Some((number, inner)) = pull.tag() {
        let inner = walked(alloc, inner, depth - 1)?;
        return Ok(Value::Tag(number, Box::new(alloc, inner)?));
    }
    if let Some(items) = pull.items() {
        return walked_items(alloc, items, depth - 1);
    }
    match pull.pairs() {
        Some(pairs) => walked_pairs(alloc, pairs, depth - 1),
        None => Err(CoseError::UnexpectedItem("item", "item of some kind")),
    }
}

/// Returns an array of the items.
#[cycle(walk)]
fn walked_items(alloc: Global, items: Items<'_>, depth: u32) -> Result<Value> {
    if depth == 0 {
        return Err(CoseError::UnexpectedItem("item", "item that is less deep"));
    }
    let mut values = Vec::new(alloc);
    for pull in items {
        values.push(walked(alloc, pull, depth - 1)?)?;
    }
    Ok(Value::Array(values))
}

/// Returns a map of the pairs.
#[cycle(walk)]
fn walked_pairs(alloc: Global, pairs: Pairs<'_>, depth: u32) -> Result<Value> {
    if depth == 0 {
        return Err(CoseError::UnexpectedItem("item", "item that is less deep"));
    }
    let mut values = Vec::new(alloc);
    for (key, value) in pairs {
        let key = walked(alloc, key, depth - 1)?;
        values.push((key, walked(alloc, value, depth - 1)?))?;
    }
    Ok(Value::Map(values))
}

/// Returns the item, if it is an integer, a float or a simple value.
fn walked_scalar(pull: Pull<'_>) -> Option<Value> {
    if let Some(number) = pull.integer() {
        return Some(Value::Integer(number));
    }
    if let Some(float) = pull.float() {
        return Some(Value::Float(float));
    }
    if let Some(truth) = pull.bool() {
        return Some(Value::Bool(truth));
    }
    if pull.is_null() {
        return Some(Value::Null);
    }
    None
}

/// Returns the chunks, joined.
fn bytes_of(alloc: Global, chunks: ByteChunks<'_>) -> Result<Vec<u8>> {
    let mut all = Vec::new(alloc);
    for chunk in chunks {
        all.extend_from_slice(chunk)?;
    }
    Ok(all)
}

/// Returns the chunks of a text string, joined.
fn text_of(alloc: Global, chunks: TextChunks<'_>) -> Result<String> {
    let mut all = String::new(alloc);
    for chunk in chunks {
        all.push_str(chunk)?;
    }
    Ok(all)
}
