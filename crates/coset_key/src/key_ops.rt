//! Sets of key operations (RFC 8152, section 7.1).

ghost use Rattle.std.specs.Prelude.{◌≡◌, ◌≤◌, map, IfErr, OnOk, OnErr};
ghost use Rattle.std.specs.BTreeSet.{insert_key};
ghost use Rattle.coset_value.specs.Item.{Items};
ghost use Rattle.coset_codec.specs.declared.error.CoseError.TheVariants.{OutOfMemory};
ghost use Rattle.coset_codec.specs.Results.{Reads};
ghost use Rattle.coset_cbor.specs.Least.{Extends};
ghost use Rattle.coset_codec.specs.Encoding.{Encodes};
ghost use Rattle.coset_codec.specs.Errors.{UnlessMemory};
ghost use Rattle.coset_codec.specs.Inputs.{AreWithin, ReadsAt, State, length_left, state, ReadsForward};
ghost use Rattle.coset_codec.specs.Maps.{RefusesValue, TakesValue, unless_empty};
ghost use Rattle.coset_codec.specs.Shape.{list_of};
ghost use Rattle.coset_label.specs.LabelData.{label_cmp};
ghost use Rattle.coset_key.specs.Keys.{key_ops, operation, operation_view};
ghost use Rattle.coset_key.specs.Reading.{ReadsSet, operations_view};

use coset_cbor::ser::write_array_head;
use coset_codec::read::{ArrayElements, Decoder};
use coset_codec::write::rolled_back;
use coset_label::{CoseError, Encode, FromPull, KeyOperation, Result};
use std::alloc::Global;
use std::collections::BTreeSet;

/// Reads a key operation.
#[tactic(auto, unfolding(crate::specs::Keys::operation))]
fn read_operation(alloc: Global, input: &mut Decoder<'_>) -> Result<KeyOperation>
    ensures forward { ReadsForward (state input.old) (state input.new) result
        (λ v. Reads operation operation_view v result) }
{
    KeyOperation::from_input(alloc, input)
}

/// Reads the remaining key operations of an array, in order.
///
/// # Errors
/// - `OutOfMemory` if an allocation fails.
/// - `UnexpectedItem` if an operation occurs twice.
/// - A fault in an operation.
fn read_operations(
    alloc: Global,
    elements: &mut ArrayElements,
    input: &mut Decoder<'_>,
) -> Result<BTreeSet<KeyOperation>>
    ensures shrinks { length_left (state input.new) ≤ length_left (state input.old) }
    ensures reads { (vs : Items) (z : State) → AreWithin elements.old vs (state input.old) z
        → ((left : Items) × AreWithin elements.new left (state input.new) z)
        × ReadsSet label_cmp operation operations_view vs result }
{
    let mut operations = BTreeSet::new(alloc);
    while elements.next(input) {
        if !operations.insert(read_operation(alloc, input)?)? {
            return Err(CoseError::UnexpectedItem("repeated array entry", "unique array label"));
        }
    }
    Ok(operations)
}

/// Reads an array of key operations, in order.
///
/// # Errors
/// - `OutOfMemory` if an allocation fails.
/// - `UnexpectedItem` if the item isn't an array, an operation occurs twice, or the array is empty.
/// - A fault in an operation.
fn read_key_ops(alloc: Global, input: &mut Decoder<'_>) -> Result<BTreeSet<KeyOperation>>
    ensures shrinks { length_left (state input.new) ≤ length_left (state input.old) }
    ensures reads { ReadsAt (state input.old) (state input.new)
        (λ v. Reads key_ops (λ s. map operation_view s.keys) v result) }
{
    let mut elements = input.enter_array("array")?;
    let operations = read_operations(alloc, &mut elements, input);
    elements.finish(input);
    let operations = operations?;
    if operations.is_empty() {
        return Err(CoseError::UnexpectedItem("empty array", "non-empty array"));
    }
    Ok(operations)
}

/// Reads the key operations into `field`. If `field` isn't empty, the label is refused as a
/// repeated one.
pub(crate) fn set_key_ops(
    alloc: Global,
    field: &mut BTreeSet<KeyOperation>,
    input: &mut Decoder<'_>,
) -> Result<()>
    ensures shrinks { length_left (state input.new) ≤ length_left (state input.old) }
    ensures takes { ReadsAt (state input.old) (state input.new) (λ v. OnOk result
        (TakesValue (unless_empty key_ops) v
        (map operation_view field.old.keys) (map operation_view field.new.keys))) }
    ensures refused { ReadsAt (state input.old) (state input.new) (λ v. IfErr result
        (λ e. UnlessMemory e (RefusesValue (unless_empty key_ops) v
        (map operation_view field.old.keys)))) }
    ensures kept { OnErr result (field.new ≡ field.old) }
{
    if !field.is_empty() {
        return Err(input.repeated());
    }
    *field = read_key_ops(alloc, input)?;
    Ok(())
}

/// Inserts a key operation, unless the set contains it.
pub(crate) fn add_operation(
    operations: &mut BTreeSet<KeyOperation>,
    operation: KeyOperation,
) -> Result<()>
    ensures ok { OnOk result (map operation_view operations.new.keys
        ≡ insert_key label_cmp (map operation_view operations.old.keys)
        (operation_view operation)) }
    ensures memory { IfErr result (λ e. e ≡ OutOfMemory) }
{
    operations.insert(operation)?;
    Ok(())
}

/// Key operations, which are encoded as an array in their order.
#[derive(Clone, Copy)]
pub(crate) struct KeyOps<'a>(pub(crate) &'a BTreeSet<KeyOperation>);

impl Encode for KeyOps<'_> {
    ghost image = { λ s. (list_of operation).image (map operation_view s.0.now.keys) };

    fn encode(&self, alloc: Global, out: &mut Vec<u8>) -> Result<()> {
        let before = out.len();
        let written = self.append(alloc, out);
        rolled_back(written, before, out)
    }

    fn append(&self, alloc: Global, out: &mut Vec<u8>) -> Result<()> {
        write_operations(alloc, self.0, out)
    }
}

/// Appends an array of the operations, in their order.
fn write_operations(
    alloc: Global,
    operations: &BTreeSet<KeyOperation>,
    out: &mut Vec<u8>,
) -> Result<()>
    ensures written { Encodes ((list_of operation).image (map operation_view operations.now.keys))
        out.old.items out.new.items result }
    ensures kept { Extends out.old.items out.new.items }
{
    write_array_head(operations.len(), out)?;
    for operation in operations {
        operation.append(alloc, out)?;
    }
    Ok(())
}
