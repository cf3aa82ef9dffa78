//! The items of a sequence (RFC 8742).

use coset::cbor::de::Pull;
use std::alloc::{AllocError, Global};
use tool_explain::Line;

/// Returns the items that the bytes are, one after the other. The list is empty if the bytes aren't
/// such a sequence.
///
/// # Errors
/// `AllocError` if an allocation fails.
pub(crate) fn items<'a>(alloc: Global, bytes: &'a [u8]) -> Result<Vec<&'a [u8]>, AllocError> {
    let mut items = Vec::new(alloc);
    let mut rest = bytes;
    for _ in 0..bytes.len() {
        let Ok((item, behind)) = Pull::new(rest) else {
            return Ok(Vec::new(alloc));
        };
        items.push(item.slice())?;
        rest = behind;
        if rest.is_empty() {
            break;
        }
    }
    Ok(items)
}

/// Notes in the first line of an item which item it is, and separates it from the next item.
///
/// # Errors
/// `AllocError` if an allocation fails.
pub(crate) fn mark(
    alloc: Global,
    lines: &mut [Line<'_>],
    number: usize,
    count: usize,
    offset: usize,
) -> Result<(), AllocError> {
    if number < count {
        if let Some(last) = lines.last_mut() {
            last.text.push(',')?;
        }
    }
    let Some(first) = lines.first_mut() else {
        return Ok(());
    };
    let mut note = format!(in alloc; "item {number} of {count}, at offset {offset}")?;
    if !first.note.is_empty() {
        note.push_str("; ")?;
        note.push_str(first.note.as_str())?;
    }
    first.note = note;
    Ok(())
}

/// The most items whose summaries are told.
const TOLD: usize = 4;

/// Adds the summary of an item, and after the last item how many aren't told.
///
/// # Errors
/// `AllocError` if an allocation fails.
pub(crate) fn push_item(
    summary: &mut String,
    number: usize,
    count: usize,
    of_item: &str,
) -> Result<(), AllocError> {
    if number <= TOLD {
        write!(summary, " Item {number}: {of_item}")?;
    }
    if number == count && TOLD < count {
        let left = count.saturating_sub(TOLD);
        write!(summary, " And {left} more.")?;
    }
    Ok(())
}
