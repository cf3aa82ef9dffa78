//! Reading headers.
//!
//! Headers are filled in place, and readers share one slot for their error. Returning either by
//! value would cost its size in stack at every level, and the input chooses how deep headers nest.
//! Each reader leaves the input just after its item, also on an error, so each byte is read once at
//! any depth. Each protected header's byte string uses up one of `layers`.

ghost use Rattle.std.specs.Prelude.{◌≡◌, ◌≢◌, [], map, OnOk, IfOk, IfErr, ◌⊎◌, ◌≤◌, ◌<◌, Option, true, false, IsSome, IsErrAnd, OnErr, Err, Some};
ghost use Rattle.coset_value.specs.Item.{Item, Pairs, dict};
ghost use Rattle.coset_codec.specs.declared.error.CoseError.TheVariants as errors;
ghost use Rattle.coset_codec.specs.declared.error.CoseError.TheVariants.{DuplicateMapKey};
ghost use Rattle.coset_codec.specs.InPlace.{Fills};
ghost use Rattle.coset_codec.specs.Errors.{IsUnexpected, UnlessMemory, stored, made_in_place};
ghost use Rattle.coset_codec.specs.Inputs.{State, state, MovesForward, ReadsAt, length_left, input_size, pairs_size, pairs_turns, PairsWithin, items_size, ItemAt, EntersMap};
ghost use Rattle.coset_codec.specs.Maps.{Adds, Refuses, RefusesValue, TakesValue, is_nonempty, optional, unless_empty};
ghost use Rattle.coset_codec.specs.Shape.{any, nonempty_bstr, any_number, one_or_many};
ghost use Rattle.coset_codec.specs.declared.read.decoder.MapEntries.{MapEntries};
ghost use Rattle.coset_label.specs.Labels.{cose_labels};
ghost use Rattle.coset_label.specs.LabelData.{number};
ghost use Rattle.coset_label.specs.Views.{label_view};
ghost use Rattle.coset_core.specs.FieldViews.{fields_view, signature_lists};
ghost use Rattle.coset_core.specs.Views.{header_view, signature_view};
ghost use Rattle.coset_core.specs.Fields.{FieldsView, PerVersion, fields, parts_of, HasOneIv, excludes};
ghost use Rattle.coset_core.specs.Filling.{FillsFields, FillsSome, GoesTo, HasPlace, Keeps, WalksTo, signatures_of_version};
ghost use Rattle.coset_core.specs.Headers.{empty_header, layered_header, layered_signature};
ghost use Rattle.coset_core.specs.OneOrMore.{EntersOnes};

use crate::content_type::set_content_type;
use crate::countersignature::countersignatures_of;
use crate::critical::set_critical;
use crate::header::Header;
use crate::header::writing::check_distinct;
use crate::one_or_more::enter_one_or_more;
use crate::signature::{CoseSignature, drop_nested, fill_signature_list, fill_single_signature};
use coset_codec::error::{ErrorStored, store_error};
use coset_codec::read::{ArrayElements, Decoder, MapEntries, set_field, set_nonempty};
use coset_codec::{CoseError, Result};
use coset_label::Label;
use std::alloc::Global;

/// Sets IV or Partial IV, if neither is set yet.
fn set_iv(
    alloc: Global,
    field: &mut Vec<u8>,
    other: &Vec<u8>,
    input: &mut Decoder<'_>,
) -> Result<()>
    requires one { (field.old.items ≡ []) ⊎ (other.now.items ≡ []) }
    ensures shrinks { length_left (state input.new) ≤ length_left (state input.old) }
    ensures takes { ReadsAt (state input.old) (state input.new) (λ v. OnOk result
        (TakesValue (unless_empty nonempty_bstr) v field.old.items field.new.items)) }
    ensures refused { ReadsAt (state input.old) (state input.new) (λ v. IfErr result
        (λ e. UnlessMemory e (λ f. RefusesValue (unless_empty nonempty_bstr) v field.old.items f
        ⊎ ((other.now.items ≢ []) × IsUnexpected f)))) }
    ensures kept { OnErr result (field.new ≡ field.old) }
    ensures one { (field.new.items ≡ []) ⊎ (other.now.items ≡ []) }
{
    if other.is_empty() {
        return set_nonempty(alloc, field, input);
    }
    input.nonempty_bytes(alloc)?;
    Err(CoseError::UnexpectedItem(
        "IV and partial-IV specified",
        "only one of IV and partial IV",
    ))
}

/// A version of counter signatures, by the label of its header parameter.
#[derive(Clone, Copy)]
pub(crate) enum CountersignatureVersion {
    /// Label 7 (RFC 8152, section 4.5).
    V1,
    /// Label 11.
    V2,
}

/// A field of a header, by its label (RFC 8152, section 3.1; RFC 9338, section 2). Labels 7 and 11
/// are left out: their values have headers of their own.
#[derive(Clone, Copy)]
pub(crate) enum Field {
    /// Label 1.
    Alg,
    /// Label 2.
    Crit,
    /// Label 3.
    ContentType,
    /// Label 4.
    KeyId,
    /// Label 5.
    Iv,
    /// Label 6.
    PartialIv,
    /// Label 12.
    Countersignature0V2,
    /// Any other label.
    Rest,
}

/// The place of a pair in a header, by its label.
#[derive(Clone, Copy)]
pub(crate) enum Place {
    /// A field that has no headers of its own.
    Simple(Field),
    /// The counter signatures of label 7 or 11.
    Signatures(CountersignatureVersion),
}

/// Returns the place for a pair with this label.
fn place_of(label: &Label) -> Place
    ensures { HasPlace (label_view label.now) result }
{
    let Label::Int(number) = label else {
        return Place::Simple(Field::Rest);
    };
    let field = match *number {
        1 => Field::Alg,
        2 => Field::Crit,
        3 => Field::ContentType,
        4 => Field::KeyId,
        5 => Field::Iv,
        6 => Field::PartialIv,
        7 => return Place::Signatures(CountersignatureVersion::V1),
        11 => return Place::Signatures(CountersignatureVersion::V2),
        12 => Field::Countersignature0V2,
        _ => Field::Rest,
    };
    Place::Simple(field)
}

/// Reads the value under `label` into `field`, which must be the field of that label. Repeated
/// labels in `rest` are not checked here.
///
/// # Errors
/// - `OutOfMemory` if an allocation fails.
/// - `DuplicateMapKey` if the field has a value already.
/// - `UnexpectedItem` if the value is the second of IV and Partial IV.
/// - A fault in the value.
///
/// The header is then unchanged.
fn set_parameter(
    header: &mut Header,
    alloc: Global,
    field: Field,
    label: Label,
    input: &mut Decoder<'_>,
) -> Result<()>
    requires goes { GoesTo (label_view label) field }
    requires one_iv { HasOneIv (fields_view header.old) }
    ensures shrinks { length_left (state input.new) ≤ length_left (state input.old) }
    ensures takes { (o : PerVersion (Option Item)) → ReadsAt (state input.old) (state input.new)
        (λ v. OnOk result
        (Adds cose_labels (fields (optional any) (optional any)) (label_view label) v
        (parts_of (fields_view header.old, o)) (parts_of (fields_view header.new, o)))) }
    ensures refused { (o : PerVersion (Option Item)) → ReadsAt (state input.old) (state input.new)
        (λ v. IfErr result (λ e. UnlessMemory e (λ f. Refuses cose_labels
        (fields (optional any) (optional any)) (label_view label) v
        (parts_of (fields_view header.old, o)) f
        ⊎ excludes (label_view label) (parts_of (fields_view header.old, o)) f))) }
    ensures kept { OnErr result (fields_view header.new ≡ fields_view header.old) }
    ensures one_iv { HasOneIv (fields_view header.new) }
    ensures others { signature_lists header.new ≡ signature_lists header.old }
{
    match field {
        Field::Alg => set_field(alloc, &mut header.alg, input),
        Field::Crit => set_critical(alloc, &mut header.crit, input),
        Field::ContentType => set_content_type(alloc, &mut header.content_type, input),
        Field::KeyId => set_nonempty(alloc, &mut header.key_id, input),
        Field::Iv => set_iv(alloc, &mut header.iv, &header.partial_iv, input),
        Field::PartialIv => set_iv(alloc, &mut header.partial_iv, &header.iv, input),
        Field::Countersignature0V2 => { set_field(alloc, &mut header.countersignature0_v2, input) }
        Field::Rest => {
            let value = input.value(alloc)?;
            header.rest.push((label, value))?;
            Ok(())
        }
    }
}

/// Reads pairs into the header up to the next label 7 or 11. Returns the version of that label,
/// with the input at its value, or `None` if no such label is left.
///
/// # Errors
/// - `OutOfMemory` if an allocation fails.
/// - The fault of the first pair that has one.
///
/// The pair that failed is then skipped.
fn fill_until_signatures(
    header: &mut Header,
    alloc: Global,
    pairs: &mut MapEntries,
    input: &mut Decoder<'_>,
) -> Result<Option<CountersignatureVersion>>
    requires one_iv { HasOneIv (fields_view header.old) }
    ensures one_iv { HasOneIv (fields_view header.new) }
    ensures others { signature_lists header.new ≡ signature_lists header.old }
    ensures shrinks { length_left (state input.new) ≤ length_left (state input.old) }
    ensures size { pairs_size pairs.new (state input.new) ≤ pairs_size pairs.old (state input.old) }
    ensures value { IfOk result (λ o. IsSome o → input_size (state input.new) ≤ pairs_size pairs.old
        (state input.old)) }
    ensures turns { IfOk result (λ o. IsSome o → pairs_turns pairs.new (state input.new) <
        pairs_turns pairs.old (state input.old)) }
    ensures fills { (all ps : Pairs) (o : PerVersion (Option Item)) (z : State)
        → WalksTo all (fields_view header.old) o ps → PairsWithin pairs.old ps (state input.old) z
        → FillsSome all o z (fields_view header.new) (state input.new) pairs.new result }
{
    while let Some(label) = pairs.next_key::<Label>(alloc, input)? {
        match place_of(&label) {
            Place::Simple(field) => set_parameter(header, alloc, field, label, input)?,
            Place::Signatures(version) => return Ok(Some(version)),
        }
    }
    Ok(None)
}

/// Returns `error`, which comes from the check for repeated labels. If the input is at a value of
/// counter signatures, skips it.
#[cold]
fn skip_value_with_error(
    filled: Result<Option<CountersignatureVersion>>,
    input: &mut Decoder<'_>,
    error: CoseError,
) -> Result<Option<CountersignatureVersion>>
    ensures shrinks { length_left (state input.new) ≤ length_left (state input.old) }
    ensures passes { (all : Pairs) (o : PerVersion (Option Item)) (f : FieldsView) (z : State)
        (m : MapEntries) → FillsSome all o z f (state input.old) m filled
        → (left : Pairs) × PairsWithin m left (state input.new) z }
    ensures refused { IsErrAnd result (λ e. e ≡ error) }
{
    let Ok(at_value) = filled else {
        return Err(error);
    };
    if at_value.is_some() {
        input.skip();
    }
    Err(error)
}

/// Reads pairs like [`fill_until_signatures`], then checks that no label of the rest repeats. The
/// check comes before a fault is returned, before counter signatures are read, and at the end.
///
/// # Errors
/// - `OutOfMemory` if an allocation fails.
/// - The first fault of the pairs.
#[inline(never)]
fn fill_fields(
    header: &mut Header,
    alloc: Global,
    pairs: &mut MapEntries,
    input: &mut Decoder<'_>,
    error: &mut CoseError,
) -> Result<Option<CountersignatureVersion>, ErrorStored>
    requires one_iv { HasOneIv (fields_view header.old) }
    ensures one_iv { HasOneIv (fields_view header.new) }
    ensures others { signature_lists header.new ≡ signature_lists header.old }
    ensures shrinks { length_left (state input.new) ≤ length_left (state input.old) }
    ensures size { pairs_size pairs.new (state input.new) ≤ pairs_size pairs.old (state input.old) }
    ensures value { IfOk result (λ o. IsSome o → input_size (state input.new) ≤ pairs_size pairs.old
        (state input.old)) }
    ensures turns { IfOk result (λ o. IsSome o → pairs_turns pairs.new (state input.new) <
        pairs_turns pairs.old (state input.old)) }
    ensures fills { (all ps : Pairs) (o : PerVersion (Option Item)) (z : State)
        → WalksTo all (fields_view header.old) o ps → PairsWithin pairs.old ps (state input.old) z
        → FillsFields all o z (fields_view header.new) (state input.new) pairs.new
        (stored error.new result) }
{
    let filled = fill_until_signatures(header, alloc, pairs, input);
    let distinct = match check_distinct(alloc, &header.rest) {
        Ok(()) => filled,
        Err(repeated) => skip_value_with_error(filled, input, repeated),
    };
    store_error(distinct, error)
}

/// Enters a map.
///
/// # Errors
/// `UnexpectedItem` if the item is not a map. The item is then skipped.
#[inline(always)]
fn begin_pairs(
    pairs: &mut MapEntries,
    input: &mut Decoder<'_>,
    error: &mut CoseError,
) -> Result<(), ErrorStored>
    ensures shrinks { length_left (state input.new) ≤ length_left (state input.old) }
    ensures strictly { OnOk result (MovesForward (state input.old) (state input.new)) }
    ensures deeper { OnOk result (pairs_size pairs.new (state input.new)
        < input_size (state input.old)) }
    ensures enters { (v : Item) (z : State) → ItemAt v (state input.old) z
        → EntersMap v (state input.new) z (made_in_place (λ _. pairs.new) error.new result) }
{
    *pairs = store_error(input.enter_map(), error)?;
    Ok(())
}

/// Reads a header into `header`, which must be empty.
///
/// # Errors
/// - `OutOfMemory` if an allocation fails.
/// - `UnexpectedItem` if the item is not a map.
/// - Otherwise the first fault found, from the first pair on.
#[cycle(read)]
pub(crate) fn fill_header(
    header: &mut Header,
    alloc: Global,
    input: &mut Decoder<'_>,
    layers: usize,
    error: &mut CoseError,
) -> Result<(), ErrorStored>
    requires empty { header_view header.old ≡ empty_header }
    ensures shrinks { length_left (state input.new) ≤ length_left (state input.old) }
    ensures strictly { OnOk result (MovesForward (state input.old) (state input.new)) }
    ensures fills { (v : Item) (z : State) → ItemAt v (state input.old) z → (state input.new ≡ z)
        × Fills (layered_header layers) v (header_view header.new)
        (stored error.new result) }
{
    let mut pairs = MapEntries::none();
    begin_pairs(&mut pairs, input, error)?;
    let filled = fill_pairs(header, alloc, &mut pairs, input, layers, error);
    pairs.finish(input);
    filled
}

/// Reads the pairs of a map into `header`, which must be empty.
///
/// # Errors
/// - `OutOfMemory` if an allocation fails.
/// - The fault of the first pair that has one.
#[cycle(read)]
fn fill_pairs(
    header: &mut Header,
    alloc: Global,
    pairs: &mut MapEntries,
    input: &mut Decoder<'_>,
    layers: usize,
    error: &mut CoseError,
) -> Result<(), ErrorStored>
    requires empty { header_view header.old ≡ empty_header }
    ensures shrinks { length_left (state input.new) ≤ length_left (state input.old) }
    ensures fills { (all : Pairs) (z : State) → PairsWithin pairs.old all (state input.old) z
        → ((left : Pairs) × PairsWithin pairs.new left (state input.new) z)
        × Fills (layered_header layers) (dict all) (header_view header.new)
        (stored error.new result) }
{
    while let Some(version) = fill_fields(header, alloc, pairs, input, error)? {
        if has_signatures_of(header, version) {
            return reject_second_value(input, error);
        }
        let mut read = Vec::new(alloc);
        if let Err(refused) = fill_counter_signatures(&mut read, alloc, input, layers, error) {
            // Dropping a signature takes more stack than a level of reading, so it is a separate
            // call.
            drop_nested(read, Vec::new(alloc));
            return Err(refused);
        }
        keep_signatures(header, version, alloc, read, error)?;
    }
    Ok(())
}

/// Returns true if the header has counter signatures of this version.
fn has_signatures_of(header: &Header, version: CountersignatureVersion) -> bool
    ensures { result ≡ is_nonempty (signatures_of_version version header.now) }
{
    match version {
        CountersignatureVersion::V1 => !header.counter_signatures.is_empty(),
        CountersignatureVersion::V2 => !header.countersignatures_v2.is_empty(),
    }
}

/// Stores the decoded counter signatures in the header, as this version.
///
/// # Errors
/// `OutOfMemory` if an allocation fails.
#[inline(never)]
fn keep_signatures(
    header: &mut Header,
    version: CountersignatureVersion,
    alloc: Global,
    read: Vec<CoseSignature>,
    error: &mut CoseError,
) -> Result<(), ErrorStored>
    ensures keeps { OnOk result
        (Keeps version (map signature_view read.items) header.old header.new) }
    ensures refused { OnErr result (error.new ≡ errors.OutOfMemory) }
    ensures kept { OnOk result (error.new ≡ error.old) }
{
    match version {
        CountersignatureVersion::V1 => header.counter_signatures = read,
        CountersignatureVersion::V2 => {
            let all = store_error(countersignatures_of(alloc, read), error)?;
            header.countersignatures_v2 = all;
        }
    }
    Ok(())
}

/// Stores the error for a second value of label 7 or 11, and skips that value.
#[cold]
#[inline(never)]
fn reject_second_value(input: &mut Decoder<'_>, error: &mut CoseError) -> Result<(), ErrorStored>
    ensures shrinks { length_left (state input.new) ≤ length_left (state input.old) }
    ensures passes { (v : Item) (z : State) → ItemAt v (state input.old) z → (state input.new ≡ z)
        × (stored error.new result ≡ Err DuplicateMapKey) }
{
    input.skip();
    *error = CoseError::DuplicateMapKey;
    Err(ErrorStored)
}

/// Enters the array of one signature or of several. Returns true if it is one signature.
///
/// # Errors
/// `UnexpectedItem` if the item is neither. The item is then skipped.
#[inline(never)]
fn begin_one_or_more(
    elements: &mut ArrayElements,
    input: &mut Decoder<'_>,
    error: &mut CoseError,
) -> Result<bool, ErrorStored>
    ensures shrinks { length_left (state input.new) ≤ length_left (state input.old) }
    ensures deeper { OnOk result
        (items_size elements.new (state input.new) < input_size (state input.old)) }
    ensures enters { (v : Item) (z : State) → ItemAt v (state input.old) z
        → EntersOnes v (state input.new) z
        (made_in_place (λ one. (one, elements.new)) error.new result) }
{
    let (one, found) = store_error(enter_one_or_more(input), error)?;
    *elements = found;
    Ok(one)
}

/// Reads the value of label 7 or 11 into an empty list: one counter signature or several.
///
/// # Errors
/// - `OutOfMemory` if an allocation fails.
/// - `UnexpectedItem` if the item is neither one nor several.
/// - The fault of the first counter signature that has one.
#[cycle(read)]
fn fill_counter_signatures(
    all: &mut Vec<CoseSignature>,
    alloc: Global,
    input: &mut Decoder<'_>,
    layers: usize,
    error: &mut CoseError,
) -> Result<(), ErrorStored>
    requires empty { map signature_view all.old.items ≡ [] }
    ensures shrinks { length_left (state input.new) ≤ length_left (state input.old) }
    ensures fills { (v : Item) (z : State) → ItemAt v (state input.old) z
        → (state input.new ≡ z) × Fills (one_or_many (any_number (layered_signature layers))) v
        (map signature_view all.new.items)
        (stored error.new result) }
{
    let mut elements = ArrayElements::none();
    let one = begin_one_or_more(&mut elements, input, error)?;
    let filled = if one {
        fill_single_signature(all, alloc, &mut elements, input, layers, error)
    } else {
        fill_signature_list(all, alloc, &mut elements, input, layers, error)
    };
    elements.finish(input);
    filled
}
