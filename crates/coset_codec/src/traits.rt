//! The traits for reading types from CBOR and writing them as CBOR.

ghost use Rattle.std.specs.Prelude.{◌≡◌, ℕ, ⊤, IfErr, IfOk};
ghost use Rattle.coset_value.specs.Item.{Item};
ghost use Rattle.coset_value.specs.View.{value_item};
ghost use Rattle.coset_cbor.specs.Pulls.{pull_bytes, pull_item};
ghost use Rattle.coset_codec.specs.declared.error.CoseError.{CoseError};
ghost use Rattle.coset_codec.specs.declared.error.CoseError.TheVariants.{OutOfMemory};
ghost use Rattle.coset_codec.specs.Results.{Reads, Images, Writes, ReadsSlice, ReadsWhole, Untags, AllocatesForItems, RefusesSlice};
ghost use Rattle.coset_codec.specs.Inputs.{state, ReadsForward};
ghost use Rattle.coset_codec.specs.PerhapsTagged.{perhaps_tagged, untagged};
ghost use Rattle.coset_codec.specs.Shape.{Shape, any, tagged};
ghost use Rattle.coset_codec.specs.ShapeLaws.{Lawful as LawfulShape};

use crate::error::{CoseError, Result};
use crate::read::{Decoder, ItemSource};
use crate::util::{ValueTryAs, pull_type_error};
use coset_cbor::de::Pull;
use coset_cbor::laws;
use coset_cbor::ser::write_owned_value;
use coset_cbor::value::Value;
use std::alloc::Global;

/// A type whose values represent CBOR items.
///
/// An implementer states how contracts see its values (`View`, `view`), and its shape. The shape
/// says which items describe which values. It also says what each value is written as, and which
/// errors name a fault in an item. The implementer proves that an item describes at most one value,
/// and no value if a fault is in the item.
pub trait AsCborValue: Sized {
    /// The view of a value. Contracts see everything except its place in memory.
    ghost View: { Type 0 };

    ghost view: { Self → View };

    /// The shape of the type.
    ghost shape: { Shape View };

    /// The items for which reading may run out of memory. By default, every item.
    ghost allocates: { Item → Type 0 } = { λ v. ⊤ };

    /// Reads a value from an item.
    ///
    /// # Errors
    /// - `OutOfMemory` if an allocation fails. This happens only for items for which `allocates`
    ///   holds.
    /// - A fault in the item, which then describes no value.
    fn from_cbor_value(alloc: Global, value: Value) -> Result<Self>
        ensures read { Reads shape view (value_item value) result }
        ensures memory { IfErr result (λ e. e ≡ OutOfMemory → allocates (value_item value)) };

    /// Makes the item that the value is written as.
    ///
    /// # Errors
    /// - `OutOfMemory` if an allocation fails.
    /// - `DuplicateMapKey` if the value has no such item.
    fn to_cbor_value(self, alloc: Global) -> Result<Value>
        ensures { Images (shape.image (view self)) value_item result };

    /// An item describes at most one value.
    ghost unique: { (v : Item) (x y : View) → shape.describes v x → shape.describes v y → x ≡ y };

    /// An item with a fault describes no value.
    ghost sound: { (v : Item) (x : View) (e : CoseError) → shape.describes v x → shape.faults v e
        → ⊥ };
}

/// Returns the one item that `s` encodes, borrowed. Allocates nothing.
///
/// # Errors
/// - `DecodeFailed` if no item within 256 levels is at the start of the bytes.
/// - `ExtraneousData` if other bytes follow the item.
pub fn whole_item(s: &[u8]) -> Result<Pull<'_>>
    ensures whole { ReadsWhole pull_item s.now result }
    ensures bytes { IfOk result (λ p. pull_bytes p ≡ s.now) }
    ensures memory { IfErr result (λ e. e ≡ OutOfMemory → ⊥) }
{
    laws::one_item();
    let (pull, rest) = Pull::new(s)?;
    if !rest.is_empty() {
        return Err(CoseError::ExtraneousData);
    }
    Ok(pull)
}

/// Decodes the one item that `s` encodes into an owned value.
fn whole_value(alloc: Global, s: &[u8]) -> Result<Value>
    ensures whole { ReadsWhole value_item s.now result }
    ensures memory { AllocatesForItems s.now result }
{
    Ok(whole_item(s)?.to_value(alloc)?)
}

/// Returns the shortest encoding of an item (RFC 8949, section 4.2.1).
fn encoding_of(alloc: Global, value: Value) -> Result<Vec<u8>>
    ensures { Writes (Some (value_item value)) (λ b. b.items) result }
{
    let mut encoded = Vec::new(alloc);
    write_owned_value(value, &mut encoded)?;
    Ok(encoded)
}

/// A type that is read from bytes and written to bytes.
pub trait CborSerializable: AsCborValue {
    /// Reads a value from bytes that are one item.
    ///
    /// # Errors
    /// - `DecodeFailed` if no item within 256 levels is at the start of the bytes.
    /// - `ExtraneousData` if other bytes follow the item.
    /// - A fault of the type in the item.
    /// - `OutOfMemory` if an allocation fails. This happens only if the bytes are one item, because
    ///   other bytes are refused without allocating.
    ///
    /// If the bytes have several faults, the error names one of them. Unless the error is
    /// `OutOfMemory`, the bytes then describe no value.
    fn from_slice(alloc: Global, s: &[u8]) -> Result<Self>
        ensures read { ReadsSlice Self.shape Self.view s.now result }
        ensures refused { RefusesSlice Self.shape s.now result }
        ensures memory { AllocatesForItems s.now result }
    {
        Self::from_cbor_value(alloc, whole_value(alloc, s)?)
    }

    /// Writes the value as the shortest encoding of its item (RFC 8949, section 4.2.1).
    ///
    /// # Errors
    /// - `OutOfMemory` if an allocation fails.
    /// - `DuplicateMapKey` if the value has no item.
    fn to_vec(self, alloc: Global) -> Result<Vec<u8>>
        ensures { Writes (Self.shape.image (Self.view self)) (λ b. b.items) result }
    {
        encoding_of(alloc, self.to_cbor_value(alloc)?)
    }
}

/// A type whose shape obeys three laws.
///
/// - An item describes at most one value.
/// - If an item describes a value, the value is written as an item no deeper, which describes the
///   same value.
/// - An item with a fault describes no value.
///
/// An implementer proves these laws in one line, from the laws of the parts of its shape. The
/// functions of [`laws`](crate::laws) say what follows for every such type.
pub trait Lawful: AsCborValue {
    /// The laws of the shape.
    ghost laws: { LawfulShape Self.View Self.shape };
}

/// Returns the value that a tag of this number encloses, or any other value unchanged.
fn value_without_tag(number: u64, value: Value) -> Value
    ensures { value_item result ≡ untagged number (value_item value) }
{
    match value {
        Value::Tag(found, inner) => {
            if found == number {
                Box::into_inner(inner)
            } else {
                Value::Tag(found, inner)
            }
        }
        other => other,
    }
}

/// A type that is read and written under its own tag (RFC 8949, section 3.4).
pub trait TaggedCborSerializable: AsCborValue {
    ghost TAG: { ℕ };

    /// The number of the tag.
    const TAG: u64;

    /// Reads a value from bytes that are one item: a tag of this number around the item of the
    /// value.
    ///
    /// # Errors
    /// - The errors of [`CborSerializable::from_slice`].
    /// - `UnexpectedItem` if the item has no tag or another tag.
    fn from_tagged_slice(alloc: Global, s: &[u8]) -> Result<Self>
        ensures read { ReadsSlice (tagged TAG Self.shape) Self.view s.now result }
        ensures refused { RefusesSlice (tagged TAG Self.shape) s.now result }
        ensures memory { AllocatesForItems s.now result }
    {
        let (number, value) = whole_value(alloc, s)?.try_as_tag()?;
        if number != Self::TAG {
            return Err(CoseError::UnexpectedItem("tag", "other tag"));
        }
        Self::from_cbor_value(alloc, Box::into_inner(value))
    }

    /// Reads a value from bytes that are one item, with or without the tag.
    ///
    /// If the item is a tag of this number, the value is read from the enclosed item, otherwise
    /// from the item itself. So a caller that accepts both forms of a message needs one call
    /// (`COSE_Tagged_Message` and `COSE_Untagged_Message` of RFC 8152, section 2).
    ///
    /// # Errors
    /// The same as [`CborSerializable::from_slice`]. If the item is a tag of this number, the fault
    /// is in the enclosed item.
    fn from_any_slice(alloc: Global, s: &[u8]) -> Result<Self>
        ensures read { ReadsSlice (perhaps_tagged TAG Self.shape) Self.view s.now result }
        ensures refused { RefusesSlice (perhaps_tagged TAG Self.shape) s.now result }
        ensures memory { AllocatesForItems s.now result }
    {
        let value = whole_value(alloc, s)?;
        Self::from_cbor_value(alloc, value_without_tag(Self::TAG, value))
    }

    /// Writes the value as the shortest encoding of its item under the tag (RFC 8949, section
    /// 4.2.1).
    ///
    /// # Errors
    /// The same as [`CborSerializable::to_vec`].
    fn to_tagged_vec(self, alloc: Global) -> Result<Vec<u8>>
        ensures { Writes ((tagged TAG Self.shape).image (Self.view self)) (λ b. b.items) result }
    {
        let value = self.to_cbor_value(alloc)?;
        encoding_of(alloc, Value::Tag(Self::TAG, Box::new(alloc, value)?))
    }
}

/// A `Value` is read and written unchanged.
impl AsCborValue for Value {
    ghost use Rattle.coset_codec.specs.ShapeLaws.{any_laws};

    ghost View = { Item };

    ghost view = { value_item };

    ghost shape = { any };

    ghost allocates = { λ v. ⊥ };

    ghost unique = { any_laws.unique };

    ghost sound = { any_laws.sound };

    /// Allocates nothing.
    fn from_cbor_value(_alloc: Global, value: Value) -> Result<Value> {
        Ok(value)
    }

    fn to_cbor_value(self, _alloc: Global) -> Result<Value> {
        Ok(self)
    }
}

impl CborSerializable for Value {}

impl Lawful for Value {
    ghost use Rattle.coset_codec.specs.ShapeLaws.{any_laws};

    ghost laws = { any_laws };
}

/// A type that is read directly from borrowed bytes, without a `Value` in between.
pub trait FromPull: AsCborValue {
    /// Reads a value from a borrowed item.
    ///
    /// # Errors
    /// - `OutOfMemory` if an allocation fails.
    /// - A fault in the item, which then describes no value.
    fn from_pull(alloc: Global, pull: Pull<'_>) -> Result<Self>
        ensures { Reads Self.shape Self.view (pull_item pull.entry) result };

    /// Reads a value from the item at the input. Leaves the input just after the item, even if the
    /// item is refused.
    ///
    /// # Errors
    /// The same as [`FromPull::from_pull`].
    fn from_input(alloc: Global, input: &mut Decoder<'_>) -> Result<Self>
        ensures forward { ReadsForward (state input.old) (state input.new) result
            (λ v. Reads Self.shape Self.view v result) }
    {
        match input.take()? {
            ItemSource::Tree(value) => Self::from_cbor_value(alloc, value),
            ItemSource::Borrowed(pull) => Self::from_pull(alloc, pull),
        }
    }
}

impl FromPull for Value {
    fn from_pull(alloc: Global, pull: Pull<'_>) -> Result<Value> {
        Ok(pull.to_value(alloc)?)
    }

    fn from_input(alloc: Global, input: &mut Decoder<'_>) -> Result<Value> {
        input.value(alloc)
    }
}

/// Returns the item under the tag of this number.
///
/// # Errors
/// `UnexpectedItem` if the item has another tag or none.
pub(crate) fn item_under_tag(number: u64, pull: Pull<'_>) -> Result<Pull<'_>>
    ensures { Untags number (pull_item pull.entry) (λ p. pull_item p) result }
{
    match pull.tag() {
        Some((found, inner)) if found == number => Ok(inner),
        Some(_) => Err(CoseError::UnexpectedItem("tag", "other tag")),
        None => Err(pull_type_error(pull, "tag")),
    }
}

/// Returns the item that a tag of this number encloses, or any other item unchanged.
pub(crate) fn item_without_tag(number: u64, pull: Pull<'_>) -> Pull<'_>
    ensures { pull_item result ≡ untagged number (pull_item pull.entry) }
{
    match pull.tag() {
        Some((found, inner)) if found == number => inner,
        _ => pull,
    }
}
