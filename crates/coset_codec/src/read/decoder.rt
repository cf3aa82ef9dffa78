//! Reading forward: an item is read in place, and its reader leaves the input just after it,
//! whatever the result. So the bytes of nested types, such as headers in headers, are read once at
//! any depth.

ghost use Rattle.std.specs.Prelude.{◌≡◌, ◌≤◌, ◌<◌, List, ℕ, IfErr, IfOk, IsOkAnd, IsSome, IsTrue, OnErr, OnOk};
ghost use Rattle.coset_value.specs.Item.{Item, null, Items, no_items, Pairs, no_pairs};
ghost use Rattle.coset_value.specs.View.{value_item};
ghost use Rattle.coset_codec.specs.declared.error.CoseError.TheVariants.{OutOfMemory};
ghost use Rattle.coset_codec.specs.declared.read.decoder.ArrayElements.TheVariants as items;
ghost use Rattle.coset_codec.specs.declared.read.decoder.MapEntries.TheVariants.{Borrowed};
ghost use Rattle.coset_codec.specs.Results.{Reads};
ghost use Rattle.coset_codec.specs.Inputs.{State, tree, borrowed, state, ItemAt, MovesForward, IsBorrowed, length_left, input_size, items_size, pairs_size, items_turns, pairs_turns, AreWithin, PairsWithin};
ghost use Rattle.coset_codec.specs.Inputs.{EntersArray, EntersMap, NextPlace, Nexts, NextsKey};
ghost use Rattle.coset_codec.specs.Sources.{IsWrongLength, TakesEnd, source_item, source_size};

use crate::error::{CoseError, Result};
use crate::read::source::ItemSource;
use crate::traits::FromPull;
use crate::util::{cbor_type_error, pull_type_error};
use coset_cbor::cursor::{Cursor, Remaining};
use coset_cbor::value::Value;
use std::alloc::Global;
use std::{mem, vec};

/// The input of every reader: an item that is read in place.
#[derive(Drop)]
pub enum Decoder<'a> {
    /// A value, which is replaced by null when it is read.
    Tree(Value),
    /// The position of a checked item in bytes.
    Borrowed(Cursor<'a>),
}

/// The elements of an array that are still to be read.
#[derive(Drop)]
pub enum ArrayElements {
    /// The elements of a value.
    Tree(vec::IntoIter<Value>),
    /// The elements of an array in bytes.
    Borrowed(Remaining),
}

/// The pairs of a map that are still to be read.
#[derive(Drop)]
pub enum MapEntries {
    /// The pairs of a value.
    Tree(vec::IntoIter<(Value, Value)>),
    /// The pairs of a map in bytes.
    Borrowed(Remaining),
}

/// Returns the elements of a value that is an array.
fn tree_elements(value: Value, want: &'static str) -> Result<ArrayElements>
    ensures deeper { IfOk result (λ m. (s : State)
        → items_size m s < input_size (tree (value_item value))) }
    ensures enters { EntersArray want.now (value_item value) (tree null) (tree null) result }
{
    match value {
        Value::Array(elements) => Ok(ArrayElements::Tree(elements.into_iter())),
        other => cbor_type_error(&other, want),
    }
}

/// Returns the pairs of a value that is a map.
fn tree_pairs(value: Value) -> Result<MapEntries>
    ensures deeper { IfOk result (λ m. (s : State)
        → pairs_size m s < input_size (tree (value_item value))) }
    ensures enters { EntersMap (value_item value) (tree null) (tree null) result }
{
    match value {
        Value::Map(pairs) => Ok(MapEntries::Tree(pairs.into_iter())),
        other => cbor_type_error(&other, "map"),
    }
}

/// Returns the error for an array with too few or too many elements.
#[cold]
pub fn wrong_length(want: &'static str) -> CoseError
    ensures { IsWrongLength want.now result }
{
    CoseError::UnexpectedItem("array", want)
}

impl<'a> Decoder<'a> {
    /// Returns an input at the item of `source`.
    pub fn new(source: ItemSource<'a>) -> Decoder<'a>
        ensures item { (z : State) × ItemAt (source_item source.entry) (state result) z }
        ensures size { input_size (state result) ≡ source_size source.entry }
    {
        match source {
            ItemSource::Tree(value) => Decoder::Tree(value),
            ItemSource::Borrowed(pull) => Decoder::Borrowed(Cursor::new(pull.slice())),
        }
    }

    /// Returns the item and moves just after it. Allocates nothing.
    ///
    /// # Errors
    /// `DecodeFailed` if no item is at the input.
    pub fn take(&mut self) -> Result<ItemSource<'a>>
        ensures shrinks { length_left (state self.new) ≤ length_left (state self.old) }
        ensures strictly { OnOk result (MovesForward (state self.old) (state self.new)) }
        ensures passes { (v : Item) (z : State) → ItemAt v (state self.old) z → (state self.new ≡ z)
            × IsOkAnd result (λ s. source_item s ≡ v) }
        ensures memory { IfErr result (λ e. e ≡ OutOfMemory → ⊥) }
    {
        match self {
            Decoder::Tree(value) => Ok(ItemSource::Tree(mem::replace(value, Value::Null))),
            Decoder::Borrowed(cursor) => Ok(ItemSource::Borrowed(cursor.take()?)),
        }
    }

    /// Skips the item. Allocates nothing.
    pub fn skip(&mut self)
        ensures shrinks { length_left (state self.new) ≤ length_left (state self.old) }
        ensures passes { (v : Item) (z : State) → ItemAt v (state self.old) z → state self.new ≡ z }
    {
        match self {
            Decoder::Tree(value) => {
                *value = Value::Null;
            }
            Decoder::Borrowed(cursor) => cursor.skip(),
        }
    }

    /// Enters an array: moves to its first element and returns the elements to be read. Allocates
    /// nothing.
    ///
    /// # Errors
    /// `UnexpectedItem` with `want` if the item is no array. The item is then skipped.
    pub fn enter_array(&mut self, want: &'static str) -> Result<ArrayElements>
        ensures shrinks { length_left (state self.new) ≤ length_left (state self.old) }
        ensures strictly { OnOk result (MovesForward (state self.old) (state self.new)) }
        ensures deeper { IfOk result (λ m. items_size m (state self.new)
            < input_size (state self.old)) }
        ensures enters { (v : Item) (z : State) → ItemAt v (state self.old) z
            → EntersArray want.now v (state self.new) z result }
    {
        match self {
            Decoder::Tree(value) => tree_elements(mem::replace(value, Value::Null), want),
            Decoder::Borrowed(cursor) => match cursor.array() {
                Some(elements) => Ok(ArrayElements::Borrowed(elements)),
                None => Err(pull_type_error(cursor.take()?, want)),
            },
        }
    }

    /// Enters a map: moves to its first key and returns the pairs to be read. Allocates nothing.
    ///
    /// # Errors
    /// `UnexpectedItem` if the item is no map. The item is then skipped.
    pub fn enter_map(&mut self) -> Result<MapEntries>
        ensures shrinks { length_left (state self.new) ≤ length_left (state self.old) }
        ensures strictly { OnOk result (MovesForward (state self.old) (state self.new)) }
        ensures deeper { IfOk result (λ m. pairs_size m (state self.new)
            < input_size (state self.old)) }
        ensures enters { (v : Item) (z : State) → ItemAt v (state self.old) z
            → EntersMap v (state self.new) z result }
    {
        match self {
            Decoder::Tree(value) => tree_pairs(mem::replace(value, Value::Null)),
            Decoder::Borrowed(cursor) => match cursor.map() {
                Some(elements) => Ok(MapEntries::Borrowed(elements)),
                None => Err(pull_type_error(cursor.take()?, "map")),
            },
        }
    }
}

/// Returns true if another of these items is at the input.
fn next_borrowed(elements: &mut Remaining, input: &Decoder<'_>) -> bool
    ensures there { IsTrue result → IsBorrowed (state input.now) }
    ensures nexts { (vs : Items) (z : State)
        → AreWithin (items.Borrowed elements.old) vs (state input.now) z
        → Nexts vs (state input.now) z (items.Borrowed elements.new) result }
{
    match input {
        Decoder::Borrowed(cursor) => elements.next(cursor),
        Decoder::Tree(_) => false,
    }
}

impl ArrayElements {
    /// Returns true if another element is at the input. The caller must read or skip that element
    /// next. Allocates nothing.
    pub fn next(&mut self, input: &mut Decoder<'_>) -> bool
        ensures shrinks { length_left (state input.new) ≤ length_left (state input.old) }
        ensures size { items_size self.new (state input.new) ≤ items_size self.old
            (state input.old) }
        ensures element { IsTrue result → input_size (state input.new) ≤ items_size self.old
            (state input.old) }
        ensures turns { IsTrue result → (t : State) → MovesForward (state input.new) t
            → items_turns self.new t < items_turns self.old (state input.old) }
        ensures nexts { (vs : Items) (z : State) → AreWithin self.old vs (state input.old) z
            → Nexts vs (state input.new) z self.new result }
    {
        match self {
            ArrayElements::Tree(elements) => match elements.next() {
                Some(value) => {
                    *input = Decoder::Tree(value);
                    true
                }
                None => false,
            },
            ArrayElements::Borrowed(elements) => next_borrowed(elements, input),
        }
    }

    /// Moves to the next element, which must be there. Allocates nothing.
    ///
    /// # Errors
    /// `UnexpectedItem` with `want` if no element is left. The array is then skipped.
    pub fn next_required(&mut self, input: &mut Decoder<'_>, want: &'static str) -> Result<()>
        ensures shrinks { length_left (state input.new) ≤ length_left (state input.old) }
        ensures size { OnOk result (input_size (state input.new)
            ≤ items_size self.old (state input.old)) }
        ensures left { OnOk result (items_size self.new (state input.new)
            ≤ items_size self.old (state input.old)) }
        ensures place { (vs : Items) (z : State) → AreWithin self.old vs (state input.old) z
            → NextPlace want.now vs (state input.new) z self.new result }
    {
        if self.next(input) {
            return Ok(());
        }
        self.finish(input);
        Err(wrong_length(want))
    }

    /// Leaves an array whose elements were all read. The input is then just after the array.
    /// Allocates nothing.
    ///
    /// # Errors
    /// `UnexpectedItem` with `want` if an element is left. The array is skipped all the same.
    pub fn end(&mut self, input: &mut Decoder<'_>, want: &'static str) -> Result<()>
        ensures shrinks { length_left (state input.new) ≤ length_left (state input.old) }
        ensures end { (vs : Items) (z : State) → AreWithin self.old vs (state input.old) z
            → (state input.new ≡ z) × TakesEnd want.now vs result }
    {
        let more = self.next(input);
        if more {
            input.skip();
        }
        self.finish(input);
        if more {
            return Err(wrong_length(want));
        }
        Ok(())
    }

    /// Returns an `ArrayElements` without elements.
    pub fn none() -> ArrayElements
        ensures { (s : List ℕ) → AreWithin result no_items (borrowed s) (borrowed s) }
    {
        ArrayElements::Borrowed(Remaining::none())
    }

    /// Skips the elements that are left. Allocates nothing.
    pub fn finish(&mut self, input: &mut Decoder<'_>)
        ensures shrinks { length_left (state input.new) ≤ length_left (state input.old) }
        ensures passes { (vs : Items) (z : State) → AreWithin self.old vs (state input.old) z
            → state input.new ≡ z }
    {
        match self {
            ArrayElements::Tree(_) => {}
            ArrayElements::Borrowed(elements) => match input {
                Decoder::Borrowed(cursor) => elements.finish(cursor),
                Decoder::Tree(_) => {}
            },
        }
    }
}

/// Reads the next key of a map in bytes. The key's value is then at the input.
fn borrowed_key<K: FromPull + Drop>(
    alloc: Global,
    elements: &mut Remaining,
    input: &mut Decoder<'_>,
) -> Result<Option<K>>
    ensures shrinks { length_left (state input.new) ≤ length_left (state input.old) }
    ensures value { IfOk result (λ o. IsSome o
        → input_size (state input.new) ≤ length_left (state input.old)) }
    ensures turns { IfOk result (λ o. IsSome o
        → length_left (state input.new) < length_left (state input.old)) }
    ensures nexts { (ps : Pairs) (z : State)
        → PairsWithin (Borrowed elements.old) ps (state input.old) z
        → NextsKey K.shape K.view ps (state input.new) z (Borrowed elements.new) result }
{
    if !next_borrowed(elements, input) {
        return Ok(None);
    }
    let key = K::from_input(alloc, input);
    // Moves on to the key's value, which is always there.
    if !next_borrowed(elements, input) {
        return Ok(None);
    }
    match key {
        Ok(key) => Ok(Some(key)),
        Err(error) => {
            input.skip();
            Err(error)
        }
    }
}

/// Reads the key of a pair of values. The key's value is then at the input.
fn tree_key<K: FromPull>(
    alloc: Global,
    key: Value,
    value: Value,
    input: &mut Decoder<'_>,
) -> Result<K>
    ensures shrinks { length_left (state input.new) ≤ length_left (state input.old) }
    ensures key { Reads K.shape K.view (value_item key) result }
    ensures ok { OnOk result (state input.new ≡ tree (value_item value)) }
    ensures refused { OnErr result (state input.new ≡ tree null) }
{
    *input = Decoder::Tree(Value::Null);
    let key = K::from_cbor_value(alloc, key)?;
    *input = Decoder::Tree(value);
    Ok(key)
}

impl MapEntries {
    /// Reads the next key, or returns `None` if no pair is left. After a key, the key's value is at
    /// the input. The caller must read or skip that value next.
    ///
    /// # Errors
    /// - `OutOfMemory` if an allocation fails.
    /// - A fault in the key.
    ///
    /// The key's value is then skipped.
    pub fn next_key<K: FromPull + Drop>(
        &mut self,
        alloc: Global,
        input: &mut Decoder<'_>,
    ) -> Result<Option<K>>
        ensures shrinks { length_left (state input.new) ≤ length_left (state input.old) }
        ensures size { pairs_size self.new (state input.new) ≤ pairs_size self.old
            (state input.old) }
        ensures value { IfOk result (λ o. IsSome o
            → input_size (state input.new) ≤ pairs_size self.old
            (state input.old)) }
        ensures turns { IfOk result (λ o. IsSome o → pairs_turns self.new (state input.new) <
            pairs_turns self.old (state input.old)) }
        ensures nexts { (ps : Pairs) (z : State) → PairsWithin self.old ps (state input.old) z
            → NextsKey K.shape K.view ps (state input.new) z self.new result }
    {
        match self {
            MapEntries::Tree(pairs) => match pairs.next() {
                Some((key, value)) => Ok(Some(tree_key(alloc, key, value, input)?)),
                None => Ok(None),
            },
            MapEntries::Borrowed(elements) => borrowed_key(alloc, elements, input),
        }
    }

    /// Returns a `MapEntries` without pairs.
    pub fn none() -> MapEntries
        ensures { (s : List ℕ) → PairsWithin result no_pairs (borrowed s) (borrowed s) }
    {
        MapEntries::Borrowed(Remaining::none())
    }

    /// Skips the pairs that are left. Allocates nothing.
    pub fn finish(&mut self, input: &mut Decoder<'_>)
        ensures shrinks { length_left (state input.new) ≤ length_left (state input.old) }
        ensures passes { (ps : Pairs) (z : State) → PairsWithin self.old ps (state input.old) z
            → state input.new ≡ z }
    {
        match self {
            MapEntries::Tree(_) => {}
            MapEntries::Borrowed(elements) => match input {
                Decoder::Borrowed(cursor) => elements.finish(cursor),
                Decoder::Tree(_) => {}
            },
        }
    }
}
