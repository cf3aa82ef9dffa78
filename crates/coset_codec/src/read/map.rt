//! Maps of labels, read pair by pair (RFC 8152, section 1.4).

ghost use Rattle.std.specs.Prelude.{◌≡◌, ◌≤◌, ◌<◌, codes, ◌⊎◌, List, [], false, true, not, None, Ok, Err, IfOk, IfErr, IsSome, OnOk, OnErr};
ghost use Rattle.std.specs.Map.{keys_of};
ghost use Rattle.coset_value.specs.Item.{Item, Pairs};
ghost use Rattle.coset_value.specs.Parts.{as_map};
ghost use Rattle.coset_codec.specs.declared.error.CoseError.TheVariants.{OutOfMemory, DuplicateMapKey};
ghost use Rattle.coset_codec.specs.Errors.{UnlessMemory};
ghost use Rattle.coset_codec.specs.Visiting.{ReadsPairs};
ghost use Rattle.coset_codec.specs.Inputs.{State, state, MovesForward, NextsKey, PairsWithin, ReadsAt, length_left, pairs_turns};
ghost use Rattle.coset_codec.specs.Kinds.{Says, kind};
ghost use Rattle.coset_codec.specs.Maps.{MapLabels, Fields, Adds, Refuses, Walks, are_distinct, labelled};
ghost use Rattle.coset_codec.specs.MapLaws.{LawfulMapLabels, LawfulFields};

use crate::error::{CoseError, Result};
use crate::read::{Decoder, MapEntries};
use std::alloc::Global;

/// Collects the pairs of a map as they are read. Some labels have fields. All other pairs are the
/// rest, which keeps their order.
pub trait MapVisitor: Sized {
    /// A label.
    type Label: Drop;

    /// The views of a label and of the fields.
    ghost LabelView: { Type 0 };

    ghost FieldValues: { Type 0 };

    /// Which keys are labels, and the fields.
    ghost names: { MapLabels LabelView };

    ghost fields: { Fields LabelView FieldValues };

    ghost named: { Self.Label → LabelView };

    /// The fields, and the pairs of the rest by label.
    ghost view: { Self → FieldValues × List (LabelView × Item) };

    /// Reads the next label, or returns `None` if no pair is left. After a label, the label's value
    /// is at the input.
    ///
    /// # Errors
    /// The same as [`MapEntries::next_key`].
    fn next_label(
        alloc: Global,
        pairs: &mut MapEntries,
        input: &mut Decoder<'_>,
    ) -> Result<Option<Self::Label>>
        ensures shrinks { length_left (state input.new) ≤ length_left (state input.old) }
        ensures turns { IfOk result (λ o. IsSome o → pairs_turns pairs.new (state input.new) <
            pairs_turns pairs.old (state input.old)) }
        ensures nexts { (ps : Pairs) (z : State) → PairsWithin pairs.old ps (state input.old) z
            → NextsKey names.shape named ps (state input.new) z pairs.new result };

    /// Reads the value at the input under `label`, and leaves the input just after it. Repeated
    /// labels in the rest are not checked here.
    ///
    /// # Errors
    /// - `OutOfMemory` if an allocation fails.
    /// - `DuplicateMapKey` if the label has a field with a value already.
    /// - A fault in the value.
    ///
    /// The pairs collected before are then unchanged.
    fn add(&mut self, alloc: Global, label: Self::Label, input: &mut Decoder<'_>) -> Result<()>
        ensures shrinks { length_left (state input.new) ≤ length_left (state input.old) }
        ensures takes { ReadsAt (state input.old) (state input.new) (λ v. OnOk result
            (Adds names fields (named label) v (view self.old) (view self.new))) }
        ensures refused { ReadsAt (state input.old) (state input.new) (λ v. IfErr result
            (λ e. UnlessMemory e (Refuses names fields (named label) v (view self.old)))) }
        ensures kept { OnErr result (view self.new ≡ view self.old) };

    /// Returns true if a label of the rest occurs twice.
    ///
    /// # Errors
    /// `OutOfMemory` if an allocation fails.
    fn repeats(&self, alloc: Global) -> Result<bool>
        ensures repeats { IfOk result (λ b. b
            ≡ not (are_distinct names.same (keys_of (view self.now).1))) }
        ensures memory { IfErr result (λ e. e ≡ OutOfMemory) };

    ghost lawful_names: { LawfulMapLabels LabelView names };

    ghost lawful_fields: { LawfulFields LabelView FieldValues names fields };
}

/// Returns the final result after the pairs were read. A repeated label in the rest precedes the
/// fault in `all`, so it is checked first.
///
/// # Errors
/// - `OutOfMemory` if an allocation fails.
/// - `DuplicateMapKey` if a label of the rest repeats.
/// - Otherwise the error of `all`.
fn first_fault<V: MapVisitor>(alloc: Global, visitor: &V, all: Result<()>) -> Result<()>
    ensures read { OnOk result ((are_distinct V.names.same (keys_of (V.view visitor.now).1) ≡ true)
        × (all ≡ Ok tt)) }
    ensures refused { IfErr result (λ e. UnlessMemory e (λ f. (all ≡ Err f)
        ⊎ ((f ≡ DuplicateMapKey)
        × (are_distinct V.names.same (keys_of (V.view visitor.now).1) ≡ false)))) }
{
    if visitor.repeats(alloc)? {
        return Err(CoseError::DuplicateMapKey);
    }
    all
}

/// Reads the pairs that are left into `visitor`. A pair with a fault is skipped, and `visitor`
/// keeps the pairs before it.
///
/// # Errors
/// - `OutOfMemory` if an allocation fails.
/// - The fault of the first pair that has one: in its key, then a repeated label of a field, then
///   in its value.
fn read_pairs<V: MapVisitor>(
    alloc: Global,
    pairs: &mut MapEntries,
    input: &mut Decoder<'_>,
    visitor: &mut V,
) -> Result<()>
    ensures shrinks { length_left (state input.new) ≤ length_left (state input.old) }
    ensures reads { (all ps : Pairs) (z : State)
        → Walks _ _ V.names V.fields all (V.view visitor.old) ps
        → PairsWithin pairs.old ps (state input.old) z
        → ReadsPairs V.names V.fields all (V.view visitor.new) (state input.new) z pairs.new
        result }
{
    while let Some(label) = V::next_label(alloc, pairs, input)? {
        visitor.add(alloc, label, input)?;
    }
    Ok(())
}

/// Reads a map into `visitor`, from the first pair on, and leaves the input just after the map.
/// After an error, `visitor` keeps the pairs before the fault.
///
/// # Errors
/// - `OutOfMemory` if an allocation fails.
/// - `UnexpectedItem` if the item is no map.
/// - The fault of the first pair that has one: in its key, then a repeated label, then in its
///   value.
pub fn read_map<V: MapVisitor>(
    alloc: Global,
    input: &mut Decoder<'_>,
    visitor: &mut V,
) -> Result<()>
    requires fields { V.fields.describes [] (V.view visitor.old).0 }
    requires rest { (V.view visitor.old).1 ≡ [] }
    ensures shrinks { length_left (state input.new) ≤ length_left (state input.old) }
    ensures strictly { OnOk result (MovesForward (state input.old) (state input.new)) }
    ensures read { ReadsAt (state input.old) (state input.new) (λ v. OnOk result
        ((labelled V.names V.fields).describes v (V.view visitor.new))) }
    ensures refused { ReadsAt (state input.old) (state input.new) (λ v. IfErr result
        (λ e. UnlessMemory e ((labelled V.names V.fields).faults v))) }
    ensures says { ReadsAt (state input.old) (state input.new) (λ v. IfErr result
        (λ e. as_map v ≡ None → Says (kind v) (codes "map") e)) }
{
    let mut pairs = input.enter_map()?;
    let all = read_pairs(alloc, &mut pairs, input, visitor);
    pairs.finish(input);
    first_fault(alloc, visitor, all)
}
