//! Skips an item known to be at the start. A text string is not tested for UTF-8 again, and nested
//! items need no recursion.

ghost use Rattle.std.specs.Prelude.{◌≡◌, IfSome, List, ℕ};
ghost use Rattle.coset_value.specs.Item.{Item};
ghost use Rattle.coset_cbor.specs.Reading.{item_at};
ghost use Rattle.coset_cbor.specs.Skips.{IsPast, announced_items, announced_bytes};

use crate::head::{MajorType, head_of};

/// Returns how many items a head of that major type and number announces, or `None` if the count
/// overflows.
#[inline(always)]
fn announced_items(major_type: MajorType, number: u64) -> Option<u64>
    ensures { IfSome result (λ n. n ≡ announced_items major_type number) }
{
    match major_type {
        MajorType::Array => Some(number),
        MajorType::Map => number.checked_add(number),
        MajorType::Tag => Some(1),
        _ => Some(0),
    }
}

/// Returns how many bytes of content a head of that major type and number announces.
#[inline(always)]
fn announced_bytes(major_type: MajorType, number: u64) -> u64
    ensures { result ≡ announced_bytes major_type number }
{
    match major_type {
        MajorType::Bytes | MajorType::Text => number,
        _ => 0,
    }
}

/// Skips the head at the start and its content. Returns how many enclosed items follow, and the
/// bytes after the content. Returns `None` if it cannot tell, as for an indefinite length.
#[inline(always)]
fn skip_head_and_content(bytes: &[u8]) -> Option<(u64, &[u8])>
    ensures { IfSome result (λ x. (v : Item × List ℕ) → item_at 256 bytes.now ≡ Ok v
        → IsPast x.0 x.1.now v.1) }
{
    let Ok((head, rest)) = head_of(bytes) else {
        return None;
    };
    let number = head.number()?;
    let items = announced_items(head.major_type, number)?;
    let content = announced_bytes(head.major_type, number);
    if (rest.len() as u64) < content {
        return None;
    }
    let (_, rest) = rest.split_at(content as usize);
    Some((items, rest))
}

/// Returns the bytes after the item known to be at the start. Returns `None` if it cannot tell, as
/// when a length in the item is indefinite.
pub(crate) fn skip_checked(bytes: &[u8]) -> Option<&[u8]>
    ensures { IfSome result (λ rest. (v : Item × List ℕ) → item_at 256 bytes.now ≡ Ok v
        → rest.now ≡ v.1) }
{
    let mut left: u64 = 1;
    let mut rest = bytes;
    for _ in 0..bytes.len() {
        let (items, after) = skip_head_and_content(rest)?;
        left = (left - 1).checked_add(items)?;
        rest = after;
        if left == 0 {
            return Some(rest);
        }
    }
    None
}
