//! The elements of a borrowed array or map, one after the other (RFC 8949, section 3.2.2).

ghost use Rattle.std.specs.Prelude.{◌≡◌, ◌≢◌, ◌<◌, ◌++◌, ◌∷◌, [], List, ℕ, true, length, MatchOption};
ghost use Rattle.coset_cbor.specs.Heads.{HeadView};
ghost use Rattle.coset_cbor.specs.Prefixes.{HasNoItem};
ghost use Rattle.coset_cbor.specs.Grammar.{EnclosesContent};
ghost use Rattle.coset_cbor.specs.Reading.{head_at};
ghost use Rattle.coset_cbor.specs.Whole.{is_one_item};
ghost use Rattle.coset_cbor.specs.Pulls.{pull_bytes, pull_item, BeginsWith};
ghost use Rattle.coset_cbor.specs.Skips.{BeginsItem};
ghost use Rattle.coset_cbor.specs.Between.{array_around, map_around, IsContent};

use crate::head::{MajorType, head_of};
use crate::pull::Pull;
use crate::skip::skip_checked;

/// An iterator over the elements of an array, each borrowed.
#[derive(Clone, Copy, Debug)]
pub struct Items<'a> {
    rest: &'a [u8],
    ghost checked: { is_one_item (array_around rest.now) ≡ true },
}

/// An iterator over the pairs of a map. Each pair is a key and its value, both borrowed.
#[derive(Clone, Copy, Debug)]
pub struct Pairs<'a> {
    rest: &'a [u8],
    ghost checked: { is_one_item (map_around rest.now) ≡ true },
}

/// Returns the bytes after a head, without the final break if the head announces no number.
fn without_break(number: Option<u64>, bytes: &[u8]) -> &[u8]
    ensures definite { (n : ℕ) → number ≡ Some n → result.now ≡ bytes.now }
    ensures indefinite { number ≡ None → (s : List ℕ) → bytes.now ≡ s ++ 255 ∷ [] → result.now ≡ s }
{
    match (number, bytes.split_last()) {
        (None, Some((_, front))) => front,
        _ => bytes,
    }
}

/// Returns the bytes of the elements, or `None` if the head is of another major type.
fn content(major_type: MajorType, bytes: &[u8]) -> Option<&[u8]>
    ensures { MatchOption result
        ((h : HeadView × List ℕ) → head_at bytes.now ≡ Ok h → h.0.major_type ≢ major_type)
        (λ s. IsContent major_type bytes.now s.now) }
{
    match head_of(bytes) {
        Ok((head, rest)) if head.major_type == major_type => {
            Some(without_break(head.number(), rest))
        }
        _ => None,
    }
}

/// Returns the item known to be at the start and the bytes after it, or `None` if no bytes are
/// left.
fn first(bytes: &[u8]) -> Option<(Pull<'_>, &[u8])>
    requires { 0 < length bytes.now → BeginsItem bytes.now }
    ensures { MatchOption result (HasNoItem bytes.now) (λ x. BeginsWith bytes.now x.0 x.1.now) }
{
    if bytes.is_empty() {
        return None;
    }
    match skip_checked(bytes) {
        Some(rest) if rest.len() < bytes.len() => {
            let (front, rest) = bytes.split_at(bytes.len() - rest.len());
            Some((Pull { bytes: front }, rest))
        }
        _ => Pull::new(bytes).ok(),
    }
}

impl<'a> Pull<'a> {
    ghost use Rattle.std.specs.Prelude.{option_map, IfSome};
    ghost use Rattle.coset_value.specs.Item.{items_count, pairs_count};
    ghost use Rattle.coset_value.specs.Parts.{as_array, as_map};
    ghost use Rattle.coset_cbor.specs.Elements.{items_bytes, items_left, pairs_bytes, pairs_left};

    /// Returns the elements of an array in order, or `None` for any other item (RFC 8949, sections
    /// 3.1 and 3.2.2). The length may be definite or indefinite. Allocates nothing.
    pub fn items(&self) -> Option<Items<'a>>
        ensures items { option_map items_left result ≡ as_array (pull_item self.now) }
        // The elements' bytes follow the array's head, or are between its initial byte and the
        // break.
        ensures bytes { IfSome result
            (λ it. EnclosesContent 4 (items_count (items_left it)) (items_bytes it)
            (pull_bytes self.now)) }
    {
        let rest = content(MajorType::Array, self.bytes)?;
        Some(Items { rest })
    }

    /// Returns the pairs of a map in order, or `None` for any other item (RFC 8949, sections 3.1
    /// and 3.2.2). The length may be definite or indefinite. Allocates nothing.
    pub fn pairs(&self) -> Option<Pairs<'a>>
        ensures pairs { option_map pairs_left result ≡ as_map (pull_item self.now) }
        // The pairs' bytes follow the map's head, or are between its initial byte and the break.
        ensures bytes { IfSome result
            (λ it. EnclosesContent 5 (pairs_count (pairs_left it)) (pairs_bytes it)
            (pull_bytes self.now)) }
    {
        let rest = content(MajorType::Map, self.bytes)?;
        Some(Pairs { rest })
    }
}

impl<'a> Iterator for Items<'a> {
    ghost use Rattle.std.specs.Iterator.{at_most};
    ghost use Rattle.coset_value.specs.Item.{items_count};
    ghost use Rattle.coset_cbor.specs.Elements.{items_left, YieldsItem};

    type Item = Pull<'a>;

    ghost next_gives = { YieldsItem };

    ghost remaining = { λ it. at_most (items_count (items_left it)) };

    /// Returns the next element, or `None` after the last. Skips the element to find its end, and
    /// allocates nothing.
    fn next(&mut self) -> Option<Pull<'a>> {
        let (element, rest) = first(self.rest)?;
        self.rest = rest;
        Some(element)
    }
}

impl<'a> Iterator for Pairs<'a> {
    ghost use Rattle.std.specs.Iterator.{at_most};
    ghost use Rattle.coset_value.specs.Item.{pairs_count};
    ghost use Rattle.coset_cbor.specs.Elements.{pairs_left, YieldsPair};

    type Item = (Pull<'a>, Pull<'a>);

    ghost next_gives = { YieldsPair };

    ghost remaining = { λ it. at_most (pairs_count (pairs_left it)) };

    /// Returns the next key and its value, or `None` after the last pair. Skips both to find their
    /// ends, and allocates nothing.
    fn next(&mut self) -> Option<(Pull<'a>, Pull<'a>)> {
        let (key, rest) = first(self.rest)?;
        let (value, rest) = first(rest)?;
        self.rest = rest;
        Some((key, value))
    }
}
