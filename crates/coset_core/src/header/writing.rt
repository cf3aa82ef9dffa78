//! Writing headers directly from their fields.

ghost use Rattle.std.specs.Prelude.{◌≡◌, map, OnOk, IfErr, ◌<◌, ◌^◌, true, false, ◌≢◌, ◌++◌};
ghost use Rattle.coset_value.specs.Item.{integer};
ghost use Rattle.coset_iana.specs.HeaderParameter as parameters;
ghost use Rattle.coset_iana.specs.declared.headers.HeaderParameter.TheVariants.{CounterSignature, CounterSignatureV2, Crit};
ghost use Rattle.coset_codec.specs.declared.error.CoseError.TheVariants.{DuplicateMapKey, OutOfMemory as out_of_memory};
ghost use Rattle.coset_codec.specs.Errors.{UnlessMemory};
ghost use Rattle.coset_codec.specs.Maps.{are_distinct, unless_empty};
ghost use Rattle.coset_codec.specs.Shape.{some_of};
ghost use Rattle.coset_codec.specs.Encoding.{HasNoImage, AppendsField, AppendsItem, Encodes};
ghost use Rattle.coset_label.specs.Views.{entry_view};
ghost use Rattle.coset_label.specs.LabelData.{same_label};
ghost use Rattle.coset_core.specs.FieldViews.{fields_view};
ghost use Rattle.coset_core.specs.Views.{countersignature_view, critical_view, header_view, signature_view};
ghost use Rattle.coset_core.specs.Fields.{critical};
ghost use Rattle.coset_core.specs.Headers.{signatures_of, signatures_image, header_image};
ghost use Rattle.coset_core.specs.Written.{AppendsCounterSignatures, AppendsFirst, count_pairs};
ghost use Rattle.std.specs.Map.{keys_of};
ghost use Rattle.coset_cbor.specs.Least.{Extends, least_head};

use crate::countersignature::{CoseCountersignature, write_each_countersignature};
use crate::header::Header;
use crate::signature::{CoseSignature, write_signatures};
use coset_cbor::OutOfMemory;
use coset_cbor::ser::{write_array_head, write_integer};
use coset_cbor::value::{Integer, Value};
use coset_codec::write::{
    Array, write_field, write_nonempty, write_optional, write_pairs_head, write_rest,
};
use coset_codec::{CoseError, Result, has_repeats};
use coset_iana::{EnumI64, HeaderParameter};
use coset_label::{Label, RegisteredLabelWithPrivate};
use std::alloc::Global;

/// Appends the label of a parameter.
fn write_parameter(parameter: HeaderParameter, out: &mut Vec<u8>) -> Result<(), OutOfMemory>
    ensures written { OnOk result (AppendsItem out.old.items out.new.items
        (integer (parameters.number parameter))) }
    ensures kept { Extends out.old.items out.new.items }
{
    write_integer(Integer::from(parameter.to_i64()), out)
}

/// Appends the head of the header's map.
#[inline(always)]
fn write_head(header: &Header, out: &mut Vec<u8>) -> Result<(), OutOfMemory>
    ensures ok { OnOk result (out.new.items
        ≡ out.old.items ++ least_head 5 (count_pairs (header_view header.now))) }
    ensures fits { OnOk result (count_pairs (header_view header.now) < 2 ^ 64) }
    ensures kept { Extends out.old.items out.new.items }
{
    let there = [
        header.alg.is_some(),
        !header.crit.is_empty(),
        header.content_type.is_some(),
        !header.key_id.is_empty(),
        !header.iv.is_empty(),
        !header.partial_iv.is_empty(),
        !header.counter_signatures.is_empty(),
        !header.countersignatures_v2.is_empty(),
        header.countersignature0_v2.is_some(),
    ];
    write_pairs_head(&there, &header.rest, out)
}

/// Appends the pair of `crit`, unless `crit` is empty.
fn write_critical(
    alloc: Global,
    crit: &[RegisteredLabelWithPrivate<HeaderParameter>],
    out: &mut Vec<u8>,
) -> Result<()>
    ensures ok { OnOk result (AppendsField (parameters.number Crit)
        ((unless_empty (some_of critical)).image (map critical_view crit.now)) out.old.items
        out.new.items) }
    ensures memory { IfErr result (λ e. e ≡ out_of_memory) }
    ensures kept { Extends out.old.items out.new.items }
{
    if crit.is_empty() {
        return Ok(());
    }
    write_field(alloc, HeaderParameter::Crit.to_i64(), &Array(crit), out)
}

/// Appends the pairs of labels 1 to 6 whose fields are set.
fn write_fields(alloc: Global, header: &Header, out: &mut Vec<u8>) -> Result<()>
    ensures ok { OnOk result
        (AppendsFirst out.old.items out.new.items (fields_view header.now)) }
    ensures memory { IfErr result (λ e. e ≡ out_of_memory) }
    ensures kept { Extends out.old.items out.new.items }
{
    write_optional(alloc, HeaderParameter::Alg.to_i64(), &header.alg, out)?;
    write_critical(alloc, &header.crit, out)?;
    write_optional(
        alloc,
        HeaderParameter::ContentType.to_i64(),
        &header.content_type,
        out,
    )?;
    write_nonempty(alloc, HeaderParameter::Kid.to_i64(), &header.key_id, out)?;
    write_nonempty(alloc, HeaderParameter::Iv.to_i64(), &header.iv, out)?;
    write_nonempty(
        alloc,
        HeaderParameter::PartialIv.to_i64(),
        &header.partial_iv,
        out,
    )?;
    Ok(())
}

/// Checks that no label of the rest occurs twice.
pub(crate) fn check_distinct(alloc: Global, rest: &[(Label, Value)]) -> Result<()>
    ensures ok { OnOk result (are_distinct same_label (keys_of (map entry_view rest.now)) ≡ true) }
    ensures refused { IfErr result (λ e. UnlessMemory e (λ f. (f ≡ DuplicateMapKey)
        × (are_distinct same_label (keys_of (map entry_view rest.now)) ≡ false))) }
{
    if has_repeats(alloc, rest)? {
        return Err(CoseError::DuplicateMapKey);
    }
    Ok(())
}

/// Appends the head of the array of counter signatures. A single signature is written without an
/// array around it, and so without this head.
fn write_counter_signatures_head(count: usize, out: &mut Vec<u8>) -> Result<(), OutOfMemory>
    ensures one { OnOk result (count ≡ 1 → out.new.items ≡ out.old.items) }
    ensures array { OnOk result (count ≢ 1 → out.new.items ≡ out.old.items ++ least_head 4 count) }
    ensures kept { Extends out.old.items out.new.items }
{
    if count == 1 {
        return Ok(());
    }
    write_array_head(count, out)
}

/// Appends the shortest encoding of the header's map.
///
/// # Errors
/// - `OutOfMemory` if an allocation fails.
/// - `DuplicateMapKey` if a label occurs twice in the `rest` of the header, or of a header inside
///   it. Kept bytes of protected headers are written as they are, so nothing inside them is
///   checked.
///
/// After an error, `out` still begins with its old bytes. A part of the encoding may follow them.
#[cycle(write)]
pub(crate) fn write_header(alloc: Global, header: &Header, out: &mut Vec<u8>) -> Result<()>
    ensures written { Encodes (header_image (header_view header.now)) out.old.items out.new.items
        result }
    ensures kept { Extends out.old.items out.new.items }
{
    check_distinct(alloc, &header.rest)?;
    write_head(header, out)?;
    write_fields(alloc, header, out)?;
    write_counter_signatures(alloc, &header.counter_signatures, out)?;
    write_countersignatures(alloc, &header.countersignatures_v2, out)?;
    let label = HeaderParameter::CounterSignature0V2.to_i64();
    write_optional(alloc, label, &header.countersignature0_v2, out)?;
    write_rest(alloc, &header.rest, out)
}

/// Appends the pair of label 7, unless there are no signatures. A single signature is written as
/// itself, and several as an array.
#[cycle(write)]
fn write_counter_signatures(
    alloc: Global,
    signatures: &[CoseSignature],
    out: &mut Vec<u8>,
) -> Result<()>
    ensures ok { OnOk result (AppendsCounterSignatures CounterSignature out.old.items
        out.new.items (signatures_of (map signature_view signatures.now))) }
    ensures refused { IfErr result
        (HasNoImage (signatures_image (signatures_of (map signature_view signatures.now)))) }
    ensures kept { Extends out.old.items out.new.items }
{
    if signatures.is_empty() {
        return Ok(());
    }
    write_parameter(HeaderParameter::CounterSignature, out)?;
    write_counter_signatures_head(signatures.len(), out)?;
    write_signatures(alloc, signatures, out)?;
    Ok(())
}

/// Appends the pair of label 11, unless there are no countersignatures of version 2.
#[cycle(write)]
#[inline(always)]
fn write_countersignatures(
    alloc: Global,
    signatures: &[CoseCountersignature],
    out: &mut Vec<u8>,
) -> Result<()>
    ensures ok { OnOk result (AppendsCounterSignatures CounterSignatureV2 out.old.items
        out.new.items (signatures_of (map countersignature_view signatures.now))) }
    ensures refused { IfErr result
        (HasNoImage (signatures_image (signatures_of (map countersignature_view signatures.now)))) }
    ensures kept { Extends out.old.items out.new.items }
{
    if signatures.is_empty() {
        return Ok(());
    }
    write_parameter(HeaderParameter::CounterSignatureV2, out)?;
    write_counter_signatures_head(signatures.len(), out)?;
    write_each_countersignature(alloc, signatures, out)?;
    Ok(())
}
