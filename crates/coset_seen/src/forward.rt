//! Items at the front of bytes, read forward.

ghost use Rattle.std.specs.Prelude.{◌≡◌, ◌∷◌, IfSome, FitsSigned};
ghost use Rattle.std.specs.Int.{w64};
ghost use Rattle.coset.specs.Item.{Item, bytes, integer, null};
ghost use Rattle.coset.specs.Grammar.{IsHeaded};
ghost use Rattle.coset.specs.Heads.{major_type_number};
ghost use Rattle.coset_seen.specs.Begins.{Begins, Closes, IsAhead, Opens};

use coset::cbor::de::Pull;
use coset::cbor::head::{MajorType, read_head};

/// Bytes in the input, and the rest of the input after them.
#[derive(Clone, Copy)]
pub(crate) struct Ahead<'a> {
    pub(crate) bytes: &'a [u8],
    pub(crate) behind: &'a [u8],
}

/// The only encoding of null (RFC 8949, section 3.3).
const NULL: u8 = 0xf6;

/// The break, which ends an item of indefinite length (RFC 8949, section 3.2.1).
const BREAK: u8 = 0xff;

/// Returns the argument of the head at the front, and the bytes after the head. Returns `None` if
/// no head of this major type is there, or if it has no argument (RFC 8949, section 3).
#[inline(always)]
pub(crate) fn headed(input: &[u8], major_type: MajorType) -> Option<(u64, &[u8])>
    ensures { IfSome result (λ x.
        IsHeaded (major_type_number major_type) x.0 x.1.now input.now) }
{
    let Ok((head, rest)) = read_head(input) else {
        return None;
    };
    if head.major_type != major_type {
        return None;
    }
    let number = head.number()?;
    Some((number, rest))
}

/// Returns the number of elements or pairs that the head at the front announces, and the bytes
/// after the head. The number is `None` if the length is indefinite. Returns `None` if no head of
/// this major type is there (RFC 8949, sections 3 and 3.2.2).
#[inline(always)]
pub(crate) fn opened(input: &[u8], major_type: MajorType) -> Option<(Option<u64>, &[u8])>
    ensures { IfSome result (λ x. Opens (major_type_number major_type) x.0 x.1.now input.now) }
{
    let Ok((head, rest)) = read_head(input) else {
        return None;
    };
    if head.major_type != major_type {
        return None;
    }
    Some((head.number(), rest))
}

/// Returns the bytes after the array or map whose last element ends just before the input. Its
/// head announced `count` of them. Returns `None` if the break is missing.
pub(crate) fn closed(count: Option<u64>, input: &[u8]) -> Option<&[u8]>
    ensures { IfSome result (λ rest. Closes count input.now rest.now) }
{
    match count {
        Some(_) => Some(input),
        None => break_at(input),
    }
}

/// Returns the content of the byte string at the front. Returns `None` for any other item, and if
/// the length is indefinite (RFC 8949, section 3.1).
#[inline(always)]
pub(crate) fn bytes_at(input: &[u8]) -> Option<Ahead<'_>>
    ensures begins { IfSome result (λ t. Begins (bytes t.bytes.now) t.behind.now input.now) }
    ensures ahead { IfSome result (IsAhead input.now) }
{
    let (len, rest) = headed(input, MajorType::Bytes)?;
    if (rest.len() as u64) < len {
        return None;
    }
    let (bytes, behind) = rest.split_at(len as usize);
    Some(Ahead { bytes, behind })
}

/// Returns the integer at the front, and the bytes after it. Returns `None` for any other item, and
/// if the integer doesn't fit in an `i64`.
#[inline(always)]
pub(crate) fn integer_at(input: &[u8]) -> Option<(i64, &[u8])>
    ensures fits { IfSome result (λ x. FitsSigned w64 x.0) }
    ensures begins { IfSome result (λ x. Begins (integer x.0) x.1.now input.now) }
{
    let Ok((head, rest)) = read_head(input) else {
        return None;
    };
    let Ok(number) = i64::try_from(head.number()?) else {
        return None;
    };
    match head.major_type {
        MajorType::Unsigned => Some((number, rest)),
        MajorType::Negative => Some((-1 - number, rest)),
        _ => None,
    }
}

/// Returns the bytes after the `null` at the front, or `None` for any other item.
#[inline(always)]
pub(crate) fn null_at(input: &[u8]) -> Option<&[u8]>
    ensures { IfSome result (λ rest. Begins null rest.now input.now) }
{
    match input.split_first() {
        Some((first, rest)) if *first == NULL => Some(rest),
        _ => None,
    }
}

/// Returns the bytes after the break at the front, or `None` if no break is there.
#[inline(always)]
pub(crate) fn break_at(input: &[u8]) -> Option<&[u8]>
    ensures { IfSome result (λ rest. input.now ≡ 255 ∷ rest.now) }
{
    match input.split_first() {
        Some((first, rest)) if *first == BREAK => Some(rest),
        _ => None,
    }
}

/// Returns the bytes after the item at the front, or `None` if no item is there.
pub(crate) fn item_at(input: &[u8]) -> Option<&[u8]>
    ensures { IfSome result (λ rest. (v : Item) × Begins v rest.now input.now) }
{
    match Pull::new(input) {
        Ok((_, rest)) => Some(rest),
        Err(_) => None,
    }
}
