//! Reading forward: a cursor in bytes, at the start of an item that was checked. Each call that
//! reads the item leaves the cursor just after it. So no caller has to skip the item to find its
//! end.

ghost use Rattle.std.specs.Prelude.{◌≡◌, ◌≤◌, ◌<◌, [], List, ℕ, is_some, Some, length, IfErr, IfOk, IfSome, IsOkAnd, IsTrue, OnErr, OnOk, MatchOption};
ghost use Rattle.coset_value.specs.Item.{Item, Items, no_items};
ghost use Rattle.coset_value.specs.Parts.{as_array, as_bytes};
ghost use Rattle.coset_cbor.specs.Cursors.{bytes_left, map_items, ItemAt, AreWithin, Doubles, Enters, Nexts};
ghost use Rattle.coset_cbor.specs.Prefixes.{HasNoItem};
ghost use Rattle.coset_cbor.specs.Grammar.{IsItem};
ghost use Rattle.coset_cbor.specs.Skips.{item_major_type};
ghost use Rattle.coset_cbor.specs.Pulls.{pull_item, BeginsWith};
ghost use Rattle.coset_cbor.specs.ReadErrors.{IsMemory, FaultIn};

use crate::de::{EndOfFile, Error};
use crate::head::{MajorType, head_of};
use crate::pull::Pull;
use crate::skip::skip_checked;
use crate::string::after_break;

/// A position in bytes.
///
/// Most calls promise their result only if an item within 256 levels is at the position, as in
/// bytes that were checked.
#[derive(Clone, Copy, Debug)]
pub struct Cursor<'a> {
    pub(crate) rest: &'a [u8],
}

/// The items of an array or map that are still to be read. In a map, each key and each value is one
/// item. Either the number of items is known, or they end at the break.
#[derive(Clone, Copy, Debug)]
pub struct Remaining {
    left: Option<u64>,
}

/// Returns the bytes after the item known to be at the start.
fn after_item(bytes: &[u8]) -> &[u8]
    ensures { (v : Item) (a : List ℕ) → ItemAt v bytes.now a
        → (result.now ≡ a) × (length a < length bytes.now) }
{
    match skip_checked(bytes) {
        Some(rest) => rest,
        None => match Pull::new(bytes) {
            Ok((_, rest)) => rest,
            Err(_) => bytes,
        },
    }
}

/// Checks the item at the start. Returns it, borrowed, and the bytes after it.
fn front(bytes: &[u8]) -> Result<(Pull<'_>, &[u8]), Error<EndOfFile>>
    ensures strictly { IfOk result (λ x. length x.1.now < length bytes.now) }
    ensures lends { IfOk result (λ x. BeginsWith bytes.now x.0 x.1.now) }
    ensures refused { IfErr result (λ e. HasNoItem bytes.now) }
    ensures memory { IfErr result (λ e. IsMemory e → ⊥) }
    ensures fault { IfErr result (λ e. FaultIn bytes.now e) }
    ensures stands { (v : Item) (a : List ℕ) → ItemAt v bytes.now a
        → IsOkAnd result (λ x. (pull_item x.0 ≡ v) × (x.1.now ≡ a)) }
{
    match Pull::new(bytes) {
        Ok((pull, rest)) => Ok((pull, rest)),
        Err(error) => Err(error),
    }
}

/// Returns the elements of the array at the start, and the bytes after its head. Returns `None` for
/// any other item.
fn array_item(bytes: &[u8]) -> Option<(Remaining, &[u8])>
    ensures strictly { IfSome result (λ x. length x.1.now < length bytes.now) }
    ensures enters { (v : Item) (a : List ℕ) → ItemAt v bytes.now a
        → MatchOption result (as_array v ≡ None) (λ x. Enters as_array v x.1.now a x.0) }
{
    match head_of(bytes) {
        Ok((head, rest)) => match head.major_type {
            MajorType::Array => {
                let left = head.number();
                Some((Remaining { left }, rest))
            }
            _ => None,
        },
        Err(_) => None,
    }
}

/// Returns the major type of the item known to be at the start.
fn major_type_of(bytes: &[u8]) -> Option<MajorType>
    ensures { (v : Item) (a : List ℕ) → ItemAt v bytes.now a → result ≡ Some (item_major_type v) }
{
    match head_of(bytes) {
        Ok((head, _)) => Some(head.major_type),
        Err(_) => None,
    }
}

/// Returns the number of items in that many pairs, or `u64::MAX` if there are more.
fn doubled(pairs: Option<u64>) -> Option<u64>
    ensures { Doubles pairs result }
{
    match pairs {
        Some(pairs) => Some(pairs.saturating_add(pairs)),
        None => None,
    }
}

/// Returns the keys and values of the map at the start, and the bytes after its head. Returns
/// `None` for any other item.
fn map_item(bytes: &[u8]) -> Option<(Remaining, &[u8])>
    ensures strictly { IfSome result (λ x. length x.1.now < length bytes.now) }
    ensures enters { (v : Item) (a : List ℕ) → ItemAt v bytes.now a
        → MatchOption result (map_items v ≡ None) (λ x. Enters map_items v x.1.now a x.0) }
{
    match head_of(bytes) {
        Ok((head, rest)) => match head.major_type {
            MajorType::Map => {
                let left = doubled(head.number());
                Some((Remaining { left }, rest))
            }
            _ => None,
        },
        Err(_) => None,
    }
}

impl<'a> Cursor<'a> {
    /// Returns a cursor at the start of `bytes`.
    pub fn new(bytes: &'a [u8]) -> Cursor<'a>
        ensures left { bytes_left result ≡ bytes.now }
        ensures whole { (v : Item) → IsItem bytes.now v → ItemAt v (bytes_left result) [] }
    {
        Cursor { rest: bytes }
    }

    /// Returns true if the item is a byte string. Only its head is read.
    pub fn is_bytes(&self) -> bool
        ensures { (v : Item) (a : List ℕ) → ItemAt v (bytes_left self.now) a
            → result ≡ is_some (as_bytes v) }
    {
        major_type_of(self.rest) == Some(MajorType::Bytes)
    }

    /// Returns true if the item is an array. Only its head is read.
    pub fn is_array(&self) -> bool
        ensures { (v : Item) (a : List ℕ) → ItemAt v (bytes_left self.now) a
            → result ≡ is_some (as_array v) }
    {
        major_type_of(self.rest) == Some(MajorType::Array)
    }

    /// Moves to `rest` if that is shorter than the remaining input.
    fn advance_to(&mut self, rest: &'a [u8])
        ensures shrinks { length (bytes_left self.new) ≤ length (bytes_left self.old) }
        ensures there { length rest.now < length (bytes_left self.old)
            → bytes_left self.new ≡ rest.now }
    {
        if rest.len() < self.rest.len() {
            self.rest = rest;
        }
    }

    /// Skips the item. Allocates nothing.
    pub fn skip(&mut self)
        ensures shrinks { length (bytes_left self.new) ≤ length (bytes_left self.old) }
        ensures passes { (v : Item) (a : List ℕ) → ItemAt v (bytes_left self.old) a
            → (bytes_left self.new ≡ a) × (length a < length (bytes_left self.old)) }
    {
        self.advance_to(after_item(self.rest));
    }

    /// Returns the item, borrowed, and moves just after it. Allocates nothing.
    ///
    /// # Errors
    /// The errors of [`check`](crate::de::check) if no item is at the position, which is then
    /// unchanged.
    pub fn take(&mut self) -> Result<Pull<'a>, Error<EndOfFile>>
        ensures shrinks { length (bytes_left self.new) ≤ length (bytes_left self.old) }
        ensures strictly { OnOk result (length (bytes_left self.new)
            < length (bytes_left self.old)) }
        // The returned item is the bytes up to the new position.
        ensures lends { IfOk result (λ p. BeginsWith (bytes_left self.old) p
            (bytes_left self.new)) }
        ensures stays { OnErr result (bytes_left self.new ≡ bytes_left self.old) }
        ensures refused { IfErr result (λ e. HasNoItem (bytes_left self.old)) }
        ensures memory { IfErr result (λ e. IsMemory e → ⊥) }
        // The fault is in the remaining input, at the error's offset if it has one.
        ensures fault { IfErr result (λ e. FaultIn (bytes_left self.old) e) }
        ensures passes { (v : Item) (a : List ℕ) → ItemAt v (bytes_left self.old) a
            → (bytes_left self.new ≡ a) × IsOkAnd result (λ p. pull_item p ≡ v) }
    {
        let (pull, rest) = front(self.rest)?;
        self.rest = rest;
        Ok(pull)
    }

    /// Enters an array: moves to its first element and returns the elements to be read. Returns
    /// `None` for any other item; the position is then unchanged.
    pub fn array(&mut self) -> Option<Remaining>
        ensures shrinks { length (bytes_left self.new) ≤ length (bytes_left self.old) }
        ensures strictly { IfSome result (λ _. length (bytes_left self.new)
            < length (bytes_left self.old)) }
        ensures enters { (v : Item) (a : List ℕ) → ItemAt v (bytes_left self.old) a
            → MatchOption result ((bytes_left self.new ≡ bytes_left self.old) × (as_array v ≡ None))
            (λ p. Enters as_array v (bytes_left self.new) a p) }
    {
        let (places, rest) = array_item(self.rest)?;
        self.rest = rest;
        Some(places)
    }

    /// Enters a map: moves to its first key and returns the keys and values to be read. Returns
    /// `None` for any other item; the position is then unchanged.
    pub fn map(&mut self) -> Option<Remaining>
        ensures shrinks { length (bytes_left self.new) ≤ length (bytes_left self.old) }
        ensures strictly { IfSome result (λ _. length (bytes_left self.new)
            < length (bytes_left self.old)) }
        ensures enters { (v : Item) (a : List ℕ) → ItemAt v (bytes_left self.old) a
            → MatchOption result ((bytes_left self.new ≡ bytes_left self.old)
            × (map_items v ≡ None))
            (λ p. Enters map_items v (bytes_left self.new) a p) }
    {
        let (places, rest) = map_item(self.rest)?;
        self.rest = rest;
        Some(places)
    }

    /// Skips the break if the length is indefinite.
    fn close(&mut self, places: Remaining)
        ensures shrinks { length (bytes_left self.new) ≤ length (bytes_left self.old) }
        ensures passes { (a : List ℕ) → AreWithin places no_items (bytes_left self.old) a
            → bytes_left self.new ≡ a }
    {
        match places.left {
            Some(_) => {}
            None => {
                if let Some(rest) = after_break(self.rest) {
                    self.rest = rest;
                }
            }
        }
    }
}

impl Remaining {
    /// Returns true if another item is at `cursor`. The caller must read or skip that item next.
    pub fn next(&mut self, cursor: &Cursor<'_>) -> bool
        ensures { (vs : Items) (a : List ℕ) → AreWithin self.old vs (bytes_left cursor.now) a
            → Nexts vs (bytes_left cursor.now) a self.new result }
    {
        match self.left {
            Some(0) => false,
            Some(n) => {
                self.left = Some(n - 1);
                true
            }
            None => match after_break(cursor.rest) {
                Some(_) => false,
                None => true,
            },
        }
    }

    /// Returns a `Remaining` without items.
    pub fn none() -> Remaining
        ensures { (s : List ℕ) → AreWithin result no_items s s }
    {
        Remaining { left: Some(0) }
    }

    /// Skips the items that are left, and the break if there is one.
    pub fn finish(self, cursor: &mut Cursor<'_>)
        ensures shrinks { length (bytes_left cursor.new) ≤ length (bytes_left cursor.old) }
        ensures passes { (vs : Items) (a : List ℕ) → AreWithin self vs (bytes_left cursor.old) a
            → bytes_left cursor.new ≡ a }
    {
        let mut places = self;
        for _ in 0..cursor.rest.len() {
            if !places.next(cursor) {
                cursor.close(places);
                return;
            }
            cursor.skip();
        }
        cursor.close(places);
    }
}
