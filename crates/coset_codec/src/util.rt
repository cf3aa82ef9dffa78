//! Values of an expected kind, the errors for another kind, and arrays made from values.

ghost use Rattle.std.specs.Prelude.{◌≡◌, List, Ok, Err, Some, option_map, IfOk, IfErr, codes, string_bytes, MatchResult};
ghost use Rattle.std.specs.Iterator.{IsFinite, Drains, Yields};
ghost use Rattle.coset_value.specs.Item.{Item, array};
ghost use Rattle.coset_value.specs.Parts.{as_integer, as_bytes, as_text, as_array, as_map, as_tag};
ghost use Rattle.coset_value.specs.View.{value_item, value_items, value_pairs};
ghost use Rattle.coset_value.specs.declared.value.Value.{Value};
ghost use Rattle.coset_cbor.specs.Pulls.{pull_item};
ghost use Rattle.coset_codec.specs.declared.error.CoseError.{CoseError};
ghost use Rattle.coset_codec.specs.declared.error.CoseError.TheVariants.{DuplicateMapKey, OutOfMemory};
ghost use Rattle.coset_codec.specs.Errors.{IsUnexpected, UnlessMemory};
ghost use Rattle.coset_codec.specs.Lists.{EachWith, LastHasNoImage, RefusesElement, RefusesArray};
ghost use Rattle.coset_codec.specs.Kinds.{kind, Says, TriesAs, TriesAsFilled};
ghost use Rattle.coset_codec.specs.Shape.{images};

use crate::error::{CallError, CoseError, Result};
use crate::traits::AsCborValue;
use coset_cbor::de::Pull;
use coset_cbor::value::{Integer, Value};
use std::alloc::{AllocError, Global};

/// Returns the name of a value's kind in errors.
fn kind_name(value: &Value) -> &'static str
    ensures { result.now ≡ kind (value_item value.now) }
{
    match value {
        Value::Integer(_) => "int",
        Value::Bytes(_) => "bstr",
        Value::Float(_) => "float",
        Value::Text(_) => "tstr",
        Value::Bool(_) => "bool",
        Value::Null => "nul",
        Value::Tag(_, _) => "tag",
        Value::Array(_) => "array",
        Value::Map(_) => "map",
    }
}

/// Returns the error for a value of another kind than `want`.
pub(crate) fn type_error(value: &Value, want: &'static str) -> CoseError
    ensures { IsUnexpected result × Says (kind (value_item value.now)) want.now result }
{
    CoseError::UnexpectedItem(kind_name(value), want)
}

/// Refuses a value of another kind than `want`.
///
/// # Errors
/// `UnexpectedItem` with the name of the value's kind and `want`, always.
pub fn cbor_type_error<T>(value: &Value, want: &'static str) -> Result<T>
    ensures { MatchResult result (λ _. ⊥) (λ e. IsUnexpected e
        × Says (kind (value_item value.now)) want.now e) }
{
    Err(type_error(value, want))
}

/// Returns the name of a borrowed item's kind in errors.
fn pull_kind_name(pull: Pull<'_>) -> &'static str
    ensures { result.now ≡ kind (pull_item pull.entry) }
{
    if pull.integer().is_some() {
        "int"
    } else if pull.bytes_chunks().is_some() {
        "bstr"
    } else if pull.float().is_some() {
        "float"
    } else if pull.text_chunks().is_some() {
        "tstr"
    } else if pull.bool().is_some() {
        "bool"
    } else if pull.is_null() {
        "nul"
    } else if pull.tag().is_some() {
        "tag"
    } else if pull.items().is_some() {
        "array"
    } else {
        "map"
    }
}

/// Returns the error for a borrowed item of another kind than `want`.
pub fn pull_type_error(pull: Pull<'_>, want: &'static str) -> CoseError
    ensures { IsUnexpected result × Says (kind (pull_item pull.entry)) want.now result }
{
    CoseError::UnexpectedItem(pull_kind_name(pull), want)
}

/// Takes the content out of a value of an expected kind. Only `try_as_array_then_convert`
/// allocates.
///
/// # Errors
/// `UnexpectedItem` if the value is of another kind, with the names of that kind and of the
/// expected one.
pub trait ValueTryAs: Sized {
    /// The item that the value represents.
    ghost item: { Self → Item };

    /// Returns the number of an integer.
    fn try_as_integer(self) -> Result<Integer>
        ensures { TriesAs as_integer (λ n. n) (codes "int") (item self) result };

    /// Returns the bytes of a byte string.
    fn try_as_bytes(self) -> Result<Vec<u8>>
        ensures { TriesAs as_bytes (λ b. b.items) (codes "bstr") (item self) result };

    /// Returns the bytes of a byte string that is not empty. An empty byte string is
    /// `UnexpectedItem` too.
    fn try_as_nonempty_bytes(self) -> Result<Vec<u8>>
        ensures { TriesAsFilled (λ b. b.items) (item self) result };

    /// Returns the elements of an array.
    fn try_as_array(self) -> Result<Vec<Value>>
        ensures { TriesAs as_array (λ a. value_items a.items) (codes "array") (item self) result };

    /// Returns the pairs of a map.
    fn try_as_map(self) -> Result<Vec<(Value, Value)>>
        ensures { TriesAs as_map (λ m. value_pairs m.items) (codes "map") (item self) result };

    /// Returns the number of a tag, and the value that it encloses.
    fn try_as_tag(self) -> Result<(u64, Box<Value>)>
        ensures { TriesAs as_tag (λ t. (t.0, value_item t.1.value)) (codes "tag")
            (item self) result };

    /// Returns the text of a text string.
    fn try_as_string(self) -> Result<String>
        ensures { TriesAs as_text string_bytes (codes "tstr") (item self) result };

    /// Applies `f` to each element of an array, in order, and returns the results.
    ///
    /// # Errors
    /// - `Coset` with `UnexpectedItem` if the value is no array, or with `OutOfMemory` if an
    ///   allocation fails.
    /// - `Caller` with the first error that `f` returns.
    fn try_as_array_then_convert<F, T, E>(self, alloc: Global, f: F) -> Result<Vec<T>, CallError<E>>
    where
        F: Fn(Value) -> Result<T, E> + Drop,
        T: Drop,
        E: Drop,
        requires { F.IsAlwaysCallable f }
        ensures converted { IfOk result (λ all. (vs : List Value)
            × (as_array (item self) ≡ Some (value_items vs))
            × EachWith (λ v t. F.post f v (Ok t)) vs all.items) }
        ensures refused { IfErr result
            (RefusesArray (λ v t. F.post f v (Ok t)) (λ v e. F.post f v (Err e)) (item self)) };
}

/// Applies `f` to each value, in order, and returns the results.
fn convert<F, T, E>(alloc: Global, values: Vec<Value>, f: F) -> Result<Vec<T>, CallError<E>>
where
    F: Fn(Value) -> Result<T, E> + Drop,
    T: Drop,
    E: Drop,
    requires { F.IsAlwaysCallable f }
    ensures converted { IfOk result (λ all. EachWith (λ v t. F.post f v (Ok t)) values.items
        all.items) }
    ensures refused { IfErr result
        (RefusesElement (λ v t. F.post f v (Ok t)) (λ v e. F.post f v (Err e)) values.items) }
{
    let mut all = Vec::new(alloc);
    for value in values {
        match f(value) {
            Ok(made) => match all.push(made) {
                Ok(()) => {}
                Err(_) => return Err(CallError::Coset(CoseError::OutOfMemory)),
            },
            Err(error) => return Err(CallError::Caller(error)),
        }
    }
    Ok(all)
}

impl ValueTryAs for Value {
    ghost item = { value_item };

    fn try_as_integer(self) -> Result<Integer> {
        match self {
            Value::Integer(n) => Ok(n),
            other => cbor_type_error(&other, "int"),
        }
    }

    fn try_as_bytes(self) -> Result<Vec<u8>> {
        match self {
            Value::Bytes(bytes) => Ok(bytes),
            other => cbor_type_error(&other, "bstr"),
        }
    }

    fn try_as_nonempty_bytes(self) -> Result<Vec<u8>> {
        let bytes = self.try_as_bytes()?;
        if bytes.is_empty() {
            return Err(CoseError::UnexpectedItem("empty bstr", "non-empty bstr"));
        }
        Ok(bytes)
    }

    fn try_as_array(self) -> Result<Vec<Value>> {
        match self {
            Value::Array(elements) => Ok(elements),
            other => cbor_type_error(&other, "array"),
        }
    }

    fn try_as_map(self) -> Result<Vec<(Value, Value)>> {
        match self {
            Value::Map(pairs) => Ok(pairs),
            other => cbor_type_error(&other, "map"),
        }
    }

    fn try_as_tag(self) -> Result<(u64, Box<Value>)> {
        match self {
            Value::Tag(number, value) => Ok((number, value)),
            other => cbor_type_error(&other, "tag"),
        }
    }

    fn try_as_string(self) -> Result<String> {
        match self {
            Value::Text(text) => Ok(text),
            other => cbor_type_error(&other, "tstr"),
        }
    }

    fn try_as_array_then_convert<F, T, E>(self, alloc: Global, f: F) -> Result<Vec<T>, CallError<E>>
    where
        F: Fn(Value) -> Result<T, E> + Drop,
        T: Drop,
        E: Drop,
    {
        match self.try_as_array() {
            Ok(values) => convert(alloc, values, f),
            Err(error) => Err(CallError::Coset(error)),
        }
    }
}

/// Returns the array of the items that the values are written as, in order.
///
/// # Errors
/// - `OutOfMemory` if an allocation fails.
/// - `DuplicateMapKey` for the first value that has no item.
pub fn to_cbor_array<C: IntoIterator<Item: AsCborValue + Drop>>(
    alloc: Global,
    values: C,
) -> Result<Value>
where
    C::IntoIter: Drop,
    requires { (it : C.IntoIter) → C.into_iter_gives values it → C.IntoIter.can_next it
        × IsFinite (C.IntoIter.remaining it) }
    ensures images { IfOk result (λ v. (it : C.IntoIter) × (xs : List C.Item)
        × C.into_iter_gives values it
        × Drains C.IntoIter.next_gives it xs
        × (option_map array (images (λ x. C.Item.shape.image (C.Item.view x)) xs)
        ≡ Some (value_item v))) }
    ensures refused { IfErr result (λ e. UnlessMemory e (λ f. (f ≡ DuplicateMapKey)
        × (it : C.IntoIter) × (xs : List C.Item) × (t : C.IntoIter) × C.into_iter_gives values it
        × Yields C.IntoIter.next_gives it xs t
        × LastHasNoImage C.Item (λ x. C.Item.shape.image (C.Item.view x)) xs)) }
{
    let mut elements = Vec::new(alloc);
    for x in values {
        elements.push(x.to_cbor_value(alloc)?)?;
    }
    Ok(Value::Array(elements))
}

/// Copies a byte string that may be missing.
///
/// # Errors
/// `AllocError` if an allocation fails.
pub fn copy_bstr(bytes: &Option<Vec<u8>>) -> Result<Option<Vec<u8>>, AllocError>
    ensures { IfOk result (λ copy. option_map (λ b. b.items) copy
        ≡ option_map (λ b. b.items) bytes.now) }
{
    match bytes {
        Some(bytes) => Ok(Some(Vec::from_slice(*bytes.allocator(), bytes)?)),
        None => Ok(None),
    }
}
