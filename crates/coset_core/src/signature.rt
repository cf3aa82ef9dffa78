//! Signatures of messages, and counter signatures (RFC 8152, sections 4.1 and 4.5).

ghost use Rattle.std.specs.Prelude.{◌≡◌, ◌≢◌, [], map, option_map, OnOk, IfOk, IfErr, codes, ◌≤◌, ◌<◌, IsTrue, None, ◌↔◌, ◌+◌, IfSome};
ghost use Rattle.coset_codec.specs.declared.error.CoseError.TheVariants.{OutOfMemory};
ghost use Rattle.coset_core.specs.Contents.{empty_signature};
ghost use Rattle.coset_codec.specs.InPlace.{Fills, FillsEach};
ghost use Rattle.coset_core.specs.Views.{header_view, protected_view, signature_view};
ghost use Rattle.coset_codec.specs.Errors.{IsUnexpected, UnlessMemory, stored, made_in_place};
ghost use Rattle.coset_value.specs.Item.{Item, array, Items, no_items, item};
ghost use Rattle.coset_value.specs.Parts.{as_array};
ghost use Rattle.coset_codec.specs.Results.{Reads};
ghost use Rattle.coset_codec.specs.Kinds.{Says, kind};
ghost use Rattle.coset_codec.specs.Shape.{list_of, masked};
ghost use Rattle.coset_codec.specs.Inputs.{State, state, length_left, input_size, items_size, ItemAt, MovesForward, AreWithin, EntersArray, ReadsAt};
ghost use Rattle.coset_core.specs.Filling.{BeginsElements, EndsElements};
ghost use Rattle.coset_core.specs.Headers.{empty_header, layered_signature, signature as signature_shape, signatures_of, signatures_image};
ghost use Rattle.coset_core.specs.Written.{AppendsSignatures, signature_array};
ghost use Rattle.coset_cbor.specs.Least.{Extends};
ghost use Rattle.coset_codec.specs.Encoding.{HasNoImage, Encodes};
ghost use Rattle.std.specs.Ordering.{on};
ghost use Rattle.std.specs.Cmp.{on_equiv, on_per, partial_equiv_from_equiv};
ghost use Rattle.coset_core.specs.Same.{signature_eq, signatures_eq};
ghost use Rattle.coset_core.specs.SameLaws.{signature_eq_equiv};
ghost use Rattle.coset_core.specs.SignatureCounts.{header_count, count_in_lists, count_in_list};

use crate::countersignature::{CoseCountersignature, take_last_countersignature};
use crate::header::reading::fill_header;
use crate::header::writing::write_header;
use crate::header::{Header, LAYERS, copy_header, same_header};
use crate::protected::{
    ProtectedHeader, ProtectedRef, copy_protected, fill_protected, protected_from_header,
    same_protected, string_bytes, write_protected,
};
use coset_cbor::ser::{write_array_head, write_bytes};
use coset_codec::error::{ErrorStored, store_error};
use coset_codec::read::{
    ArrayElements, Decoder, InPlace, drop_refused, make_room, next_place, push_empty, wrong_length,
};
use coset_codec::write::Encode;
use coset_codec::{Codec, CoseError, Result};
use std::alloc::{AllocError, Global};
use std::marker::Model;

/// A signature with its own headers (RFC 8152, section 4.1).
///
/// It is a signature of a `COSE_Sign` message or a counter signature (section 4.5).
///
/// ```cddl
/// COSE_Signature = [ Headers, signature : bstr ]
/// ```
#[cycle(header)]
#[derive(Debug, Drop)]
pub struct CoseSignature {
    /// The header that the signature covers.
    pub protected: ProtectedHeader,
    /// The header that the signature doesn't cover.
    pub unprotected: Header,
    /// The signature's bytes.
    pub signature: Vec<u8>,
}

/// The expected item, as the error for a wrong number of elements names it.
const EXPECTED_ARRAY: &str = "array with 3 items";

impl CoseSignature {
    /// Returns a signature without bytes and with empty headers. Allocates nothing.
    pub fn new(alloc: Global) -> CoseSignature
        ensures { signature_view result
            ≡ record {
              protected = record { original = None; header = empty_header };
              unprotected = empty_header;
              signature = [];
            } }
    {
        CoseSignature {
            protected: ProtectedHeader::new(alloc),
            unprotected: Header::new(alloc),
            signature: Vec::new(alloc),
        }
    }
}

/// Compares the headers and the signature's bytes.
impl PartialEq for CoseSignature {
    ghost eq = { on signature_view signature_eq };

    ghost laws = { on_per signature_view (partial_equiv_from_equiv signature_eq_equiv) };

    fn eq(&self, other: &CoseSignature) -> bool
        ensures answers { result ≡ signature_eq (signature_view self.now)
            (signature_view other.now) }
        ensures equal { IsTrue result ↔ (signature_view self.now ≡ signature_view other.now) }
    {
        same_signature(self, other)
    }
}

impl Eq for CoseSignature {
    ghost laws = { on_equiv signature_view signature_eq_equiv };
}

/// The same as [`CoseSignature::clone`] for generic code, but the error is `AllocError`.
impl Clone for CoseSignature {
    ghost is_clone = { λ signed copy. signature_view copy ≡ signature_view signed };

    fn clone(&self) -> Result<CoseSignature, AllocError> {
        let mut copy = CoseSignature::new(*self.signature.allocator());
        copy_signature(self, &mut copy)?;
        Ok(copy)
    }
}

impl CoseSignature {
    /// Returns an equal signature.
    ///
    /// # Errors
    /// `OutOfMemory` if an allocation fails.
    pub fn clone(&self) -> Result<CoseSignature>
        ensures copy { IfOk result (λ s. signature_view s ≡ signature_view self.now) }
        ensures memory { IfErr result (λ e. e ≡ OutOfMemory) }
    {
        Ok(Clone::clone(self)?)
    }
}

impl Codec for CoseSignature {
    ghost use Rattle.coset_core.specs.EqDecides.{signature_decides};
    ghost use Rattle.coset_core.specs.Headers.{SignatureView};
    ghost use Rattle.coset_core.specs.HeaderLaws.{signature_laws};

    ghost View = { SignatureView };

    ghost view = { signature_view };

    ghost shape = { signature_shape };

    ghost laws = { signature_laws };

    ghost equal = { signature_decides };

    fn read(alloc: Global, input: &mut Decoder<'_>) -> Result<CoseSignature> {
        let mut signed = CoseSignature::new(alloc);
        let mut error = CoseError::OutOfMemory;
        if let Err(ErrorStored) = fill_signature(&mut signed, alloc, input, LAYERS, &mut error) {
            drop_refused(signed);
            return Err(error);
        }
        Ok(signed)
    }

    fn size_hint(&self) -> usize {
        ProtectedRef(&self.protected)
            .encoded_size_hint()
            .saturating_add(self.unprotected.encoded_size_hint())
            .saturating_add(self.signature.encoded_size_hint())
    }

    fn write(&self, alloc: Global, out: &mut Vec<u8>) -> Result<()> {
        write_signature(alloc, self, out)
    }
}

impl InPlace for CoseSignature {
    ghost is_empty = { λ s. signature_view s ≡ empty_signature };

    fn empty(alloc: Global) -> CoseSignature {
        CoseSignature::new(alloc)
    }
}

/// Reads the first element of a signature's array into `kept`, and goes to the second. Returns
/// false if the first could not be read as a byte string. Its error is then in `first_error`: a
/// fault of a later element has priority over it.
///
/// # Errors
/// `UnexpectedItem` if the array has fewer than two elements.
#[inline(never)]
fn begin_elements(
    kept: &mut Option<Vec<u8>>,
    first_error: &mut CoseError,
    alloc: Global,
    elements: &mut ArrayElements,
    input: &mut Decoder<'_>,
    error: &mut CoseError,
) -> Result<bool, ErrorStored>
    ensures shrinks { length_left (state input.new) ≤ length_left (state input.old) }
    ensures size { items_size elements.new (state input.new) ≤ items_size elements.old
        (state input.old) }
    ensures place { OnOk result
        (input_size (state input.new) ≤ items_size elements.old (state input.old)) }
    ensures begins { (vs : Items) (z : State) → AreWithin elements.old vs (state input.old) z
        → BeginsElements vs (state input.new) z elements.new (option_map (λ b. b.items) kept.new)
        first_error.new (stored error.new result) }
{
    if !elements.next(input) {
        *error = wrong_length(EXPECTED_ARRAY);
        return Err(ErrorStored);
    }
    let first = string_bytes(alloc, input, first_error);
    if !elements.next(input) {
        *error = wrong_length(EXPECTED_ARRAY);
        return Err(ErrorStored);
    }
    match first {
        Ok(bytes) => {
            *kept = Some(bytes);
            Ok(true)
        }
        Err(ErrorStored) => Ok(false),
    }
}

/// Reads the third and last element of a signature's array.
///
/// # Errors
/// - `OutOfMemory` if an allocation fails.
/// - `UnexpectedItem` if the element is missing, is not the last, or is not a byte string.
#[inline(never)]
fn end_elements(
    signature: &mut Vec<u8>,
    alloc: Global,
    elements: &mut ArrayElements,
    input: &mut Decoder<'_>,
    error: &mut CoseError,
) -> Result<(), ErrorStored>
    ensures shrinks { length_left (state input.new) ≤ length_left (state input.old) }
    ensures ends { (vs : Items) (z : State) → AreWithin elements.old vs (state input.old) z
        → EndsElements vs (state input.new) z elements.new signature.new.items
        (stored error.new result) }
    ensures kept { OnOk result (error.new ≡ error.old) }
{
    if !elements.next(input) {
        *error = wrong_length(EXPECTED_ARRAY);
        return Err(ErrorStored);
    }
    let last = string_bytes(alloc, input, error);
    if elements.next(input) {
        input.skip();
        *error = wrong_length(EXPECTED_ARRAY);
        return Err(ErrorStored);
    }
    *signature = last?;
    Ok(())
}

/// Reads the array of one signature into an empty list.
///
/// # Errors
/// The same as [`fill_elements`].
#[cycle(read)]
pub(crate) fn fill_single_signature(
    all: &mut Vec<CoseSignature>,
    alloc: Global,
    elements: &mut ArrayElements,
    input: &mut Decoder<'_>,
    layers: usize,
    error: &mut CoseError,
) -> Result<(), ErrorStored>
    requires empty { map signature_view all.old.items ≡ [] }
    ensures shrinks { length_left (state input.new) ≤ length_left (state input.old) }
    ensures fills { (vs : Items) (z : State) → AreWithin elements.old vs (state input.old) z
        → ((left : Items) × AreWithin elements.new left (state input.new) z)
        × FillsEach (layered_signature layers) (item (array vs) no_items)
        (map signature_view all.new.items)
        (stored error.new result) }
{
    if push_empty(all).is_err() {
        *error = CoseError::OutOfMemory;
        return Err(ErrorStored);
    }
    let last = all.len() - 1;
    fill_elements(&mut all[last], alloc, elements, input, layers, error)
}

/// Reads a list of signatures into an empty list.
///
/// # Errors
/// - `OutOfMemory` if an allocation fails.
/// - The fault of the first signature that has one.
#[cycle(read)]
pub(crate) fn fill_signature_list(
    all: &mut Vec<CoseSignature>,
    alloc: Global,
    elements: &mut ArrayElements,
    input: &mut Decoder<'_>,
    layers: usize,
    error: &mut CoseError,
) -> Result<(), ErrorStored>
    requires empty { map signature_view all.old.items ≡ [] }
    ensures shrinks { length_left (state input.new) ≤ length_left (state input.old) }
    ensures fills { (vs : Items) (z : State) → AreWithin elements.old vs (state input.old) z
        → ((left : Items) × AreWithin elements.new left (state input.new) z)
        × FillsEach (layered_signature layers) vs (map signature_view all.new.items)
        (stored error.new result) }
{
    while next_place(all, elements, input, error)? {
        let last = all.len() - 1;
        fill_signature(&mut all[last], alloc, input, layers, error)?;
    }
    Ok(())
}

/// Reads an array of signatures. Each signature is read directly into its place in the list.
///
/// An empty array gives an empty list. RFC 8152, section 4.1, requires at least one signature, so
/// the caller must check that.
///
/// # Errors
/// - `OutOfMemory` if an allocation fails.
/// - `UnexpectedItem`, with an array as the expectation, if the item is not an array.
/// - `UnexpectedItem` with the two texts of `error_names`, for any fault in a signature.
pub fn read_signatures(
    alloc: Global,
    input: &mut Decoder<'_>,
    error_names: (&'static str, &'static str),
) -> Result<Vec<CoseSignature>>
    ensures shrinks { length_left (state input.new) ≤ length_left (state input.old) }
    ensures reads { ReadsAt (state input.old) (state input.new)
        (λ v. Reads (list_of (masked IsUnexpected signature_shape))
        (λ all. map signature_view all.items) v result) }
    ensures says { ReadsAt (state input.old) (state input.new)
        (λ v. IfErr result (λ e. as_array v ≡ None → Says (kind v) (codes "array") e)) }
    ensures blames { ReadsAt (state input.old) (state input.new)
        (λ v. IfErr result (λ e. as_array v ≢ None
        → UnlessMemory e (Says error_names.entry.0.now error_names.entry.1.now))) }
{
    let mut elements = input.enter_array("array")?;
    let mut all = Vec::new(alloc);
    let mut error = CoseError::OutOfMemory;
    let filled = fill_signature_list(&mut all, alloc, &mut elements, input, LAYERS, &mut error);
    elements.finish(input);
    match filled {
        Ok(()) => Ok(all),
        Err(ErrorStored) => Err(masked_error(error, error_names)),
    }
}

/// Returns `UnexpectedItem` with these two texts in place of `error`, unless that is `OutOfMemory`.
fn masked_error(error: CoseError, error_names: (&'static str, &'static str)) -> CoseError
    ensures memory { error ≡ OutOfMemory → result ≡ OutOfMemory }
    ensures blames { UnlessMemory error (λ e. IsUnexpected result
        × Says error_names.entry.0.now error_names.entry.1.now result) }
{
    match error {
        CoseError::OutOfMemory => CoseError::OutOfMemory,
        _ => CoseError::UnexpectedItem(error_names.0, error_names.1),
    }
}

/// Enters an array.
///
/// # Errors
/// `UnexpectedItem` if the item is not an array. The item is then skipped.
#[inline(never)]
fn begin_items(
    elements: &mut ArrayElements,
    input: &mut Decoder<'_>,
    error: &mut CoseError,
) -> Result<(), ErrorStored>
    ensures shrinks { length_left (state input.new) ≤ length_left (state input.old) }
    ensures strictly { OnOk result (MovesForward (state input.old) (state input.new)) }
    ensures deeper { OnOk result
        (items_size elements.new (state input.new) < input_size (state input.old)) }
    ensures enters { (v : Item) (z : State) → ItemAt v (state input.old) z
        → EntersArray (codes "array") v (state input.new) z
        (made_in_place (λ _. elements.new) error.new result) }
{
    *elements = store_error(input.enter_array("array"), error)?;
    Ok(())
}

/// Reads a signature into `signed`, which must be empty.
///
/// # Errors
/// - `UnexpectedItem` if the item is not an array.
/// - The same as [`fill_elements`] otherwise.
#[cycle(read)]
fn fill_signature(
    signed: &mut CoseSignature,
    alloc: Global,
    input: &mut Decoder<'_>,
    layers: usize,
    error: &mut CoseError,
) -> Result<(), ErrorStored>
    requires empty { signature_view signed.old ≡ empty_signature }
    ensures shrinks { length_left (state input.new) ≤ length_left (state input.old) }
    ensures strictly { OnOk result (MovesForward (state input.old) (state input.new)) }
    ensures fills { (v : Item) (z : State) → ItemAt v (state input.old) z → (state input.new ≡ z)
        × Fills (layered_signature layers) v (signature_view signed.new)
        (stored error.new result) }
{
    let mut elements = ArrayElements::none();
    begin_items(&mut elements, input, error)?;
    let filled = fill_elements(signed, alloc, &mut elements, input, layers, error);
    elements.finish(input);
    filled
}

/// Reads the elements of a signature's array into `signed`, which must be empty. They are read from
/// first to last, but a fault of a later element has priority.
///
/// # Errors
/// - `OutOfMemory` if an allocation fails.
/// - `UnexpectedItem` if there are not three elements.
/// - The fault of the last element that has one.
#[cycle(read)]
fn fill_elements(
    signed: &mut CoseSignature,
    alloc: Global,
    elements: &mut ArrayElements,
    input: &mut Decoder<'_>,
    layers: usize,
    error: &mut CoseError,
) -> Result<(), ErrorStored>
    requires empty { signature_view signed.old ≡ empty_signature }
    ensures shrinks { length_left (state input.new) ≤ length_left (state input.old) }
    ensures fills { (vs : Items) (z : State) → AreWithin elements.old vs (state input.old) z
        → ((left : Items) × AreWithin elements.new left (state input.new) z)
        × Fills (layered_signature layers) (array vs) (signature_view signed.new)
        (stored error.new result) }
{
    let mut first_error = CoseError::OutOfMemory;
    let kept = &mut signed.protected.original_data;
    let is_string = begin_elements(kept, &mut first_error, alloc, elements, input, error)?;
    let unprotected = fill_header(&mut signed.unprotected, alloc, input, layers, error);
    end_elements(&mut signed.signature, alloc, elements, input, error)?;
    unprotected?;
    if !is_string {
        *error = first_error;
        return Err(ErrorStored);
    }
    fill_protected(&mut signed.protected, alloc, layers, error)
}

/// Appends the signatures, one after the other.
#[cycle(write)]
pub(crate) fn write_signatures(
    alloc: Global,
    signatures: &[CoseSignature],
    out: &mut Vec<u8>,
) -> Result<()>
    ensures ok { OnOk result
        (AppendsSignatures out.old.items out.new.items (map signature_view signatures.now)) }
    ensures refused { IfErr result
        (HasNoImage (signatures_image (signatures_of (map signature_view signatures.now)))) }
    ensures kept { Extends out.old.items out.new.items }
{
    for signature in signatures {
        write_signature(alloc, signature, out)?;
    }
    Ok(())
}

/// Appends the signature's array.
#[cycle(write)]
fn write_signature(alloc: Global, signature: &CoseSignature, out: &mut Vec<u8>) -> Result<()>
    ensures written { Encodes (signature_array (signature_view signature.now)) out.old.items
        out.new.items result }
    ensures kept { Extends out.old.items out.new.items }
{
    write_array_head(3, out)?;
    write_protected(alloc, &signature.protected, out)?;
    write_header(alloc, &signature.unprotected, out)?;
    write_bytes(&signature.signature, out)?;
    Ok(())
}

/// Copies `bytes` into `copy`.
#[inline(never)]
pub(crate) fn copy_into(bytes: &Vec<u8>, copy: &mut Vec<u8>) -> Result<(), AllocError>
    ensures { OnOk result (copy.new.items ≡ bytes.now.items) }
{
    *copy = Vec::from_slice(*bytes.allocator(), bytes)?;
    Ok(())
}

/// Replaces the content of `copies` with copies of the signatures.
#[cycle(copy)]
pub(crate) fn copy_signatures(
    all: &[CoseSignature],
    copies: &mut Vec<CoseSignature>,
) -> Result<(), AllocError>
    ensures { OnOk result (map signature_view copies.new.items ≡ map signature_view all.now) }
{
    make_room(copies, all.len())?;
    for signature in all {
        push_empty(copies)?;
        let last = copies.len() - 1;
        copy_signature(signature, &mut copies[last])?;
    }
    Ok(())
}

/// Copies `signature` into `copy`.
#[cycle(copy)]
fn copy_signature(signature: &CoseSignature, copy: &mut CoseSignature) -> Result<(), AllocError>
    ensures { OnOk result (signature_view copy.new ≡ signature_view signature.now) }
{
    copy_protected(&signature.protected, &mut copy.protected)?;
    copy_header(&signature.unprotected, &mut copy.unprotected)?;
    copy_into(&signature.signature, &mut copy.signature)
}

#[cycle(same)]
pub(crate) fn same_signatures(all: &[CoseSignature], others: &[CoseSignature]) -> bool
    ensures { result ≡ signatures_eq (signatures_of (map signature_view all.now))
        (signatures_of (map signature_view others.now)) }
{
    if all.len() != others.len() {
        return false;
    }
    for (a, b) in all.iter().zip(others) {
        if !same_signature(a, b) {
            return false;
        }
    }
    true
}

#[cycle(same)]
fn same_signature(a: &CoseSignature, b: &CoseSignature) -> bool
    ensures { result ≡ signature_eq (signature_view a.now) (signature_view b.now) }
{
    same_protected(&a.protected, &b.protected)
        && same_header(&a.unprotected, &b.unprotected)
        && a.signature == b.signature
}

/// Counter signatures of both versions.
pub(crate) type CounterSignatures = (Vec<CoseSignature>, Vec<CoseCountersignature>);

/// Returns the counter signatures of the two headers, and drops everything else in them.
#[inline(always)]
pub(crate) fn take_counter_signatures(
    protected: ProtectedHeader,
    unprotected: Header,
) -> (CounterSignatures, CounterSignatures)
    ensures { count_in_lists result.0.0.items result.0.1.items + count_in_lists result.1.0.items
        result.1.1.items
        ≡ header_count (protected_view protected).header + header_count (header_view unprotected) }
{
    let ProtectedHeader {
        original_data: _,
        header,
    } = protected;
    (
        header.into_counter_signatures(),
        unprotected.into_counter_signatures(),
    )
}

/// Removes the last signature and returns the counter signatures of its two headers. Drops
/// everything else in it.
#[inline(never)]
fn take_last_signature(
    all: &mut Vec<CoseSignature>,
) -> Option<(CounterSignatures, CounterSignatures)>
    ensures none { result ≡ None → all.old.items ≡ [] }
    ensures fewer { IfSome result (λ x. count_in_lists x.0.0.items x.0.1.items + count_in_lists
        x.1.0.items
        x.1.1.items + count_in_list all.new.items < count_in_list all.old.items) }
{
    let CoseSignature {
        protected,
        unprotected,
        signature: _,
    } = all.pop()?;
    Some(take_counter_signatures(protected, unprotected))
}

/// Removes the last signature of `all`, or else the last of `version_2`. Returns the counter
/// signatures of its two headers, and drops everything else in it.
#[inline(always)]
fn take_last(
    all: &mut Vec<CoseSignature>,
    version_2: &mut Vec<CoseCountersignature>,
) -> Option<(CounterSignatures, CounterSignatures)>
    ensures none { result ≡ None → (all.new.items ≡ []) × (version_2.new.items ≡ []) }
    ensures fewer { IfSome result (λ x. count_in_lists x.0.0.items x.0.1.items + count_in_lists
        x.1.0.items
        x.1.1.items + count_in_lists all.new.items version_2.new.items
        < count_in_lists all.old.items version_2.old.items) }
{
    if !all.is_empty() {
        return take_last_signature(all);
    }
    if version_2.is_empty() {
        return None;
    }
    take_last_countersignature(version_2)
}

/// Drops the counter signatures of a header. Most headers have none.
#[cycle(drop_nested)]
#[inline(always)]
pub(crate) fn drop_counter_signatures(held: CounterSignatures) {
    let (all, version_2) = held;
    if all.is_empty() && version_2.is_empty() {
        all.destroy_empty();
        version_2.destroy_empty();
    } else {
        drop_nested(all, version_2);
    }
}

/// Drops signatures of both versions, and all signatures in their headers.
#[cycle(drop_nested)]
#[inline(never)]
pub(crate) fn drop_nested(all: Vec<CoseSignature>, version_2: Vec<CoseCountersignature>) {
    let mut all = all;
    let mut version_2 = version_2;
    while let Some((protected, unprotected)) = take_last(&mut all, &mut version_2) {
        drop_counter_signatures(protected);
        drop_counter_signatures(unprotected);
    }
    all.destroy_empty();
    version_2.destroy_empty();
}

/// Builds a [`CoseSignature`] field by field. Contracts see the builder as the signature that
/// [`build`](CoseSignatureBuilder::build) returns.
#[derive(Debug, Drop)]
pub struct CoseSignatureBuilder(CoseSignature);

impl Model for CoseSignatureBuilder {
    ghost use Rattle.std.specs.Coded.{codes};
    ghost use Rattle.coset_core.specs.contracts.signature.CoseSignature as contracts;
    ghost use Rattle.coset_core.specs.declared.signature.CoseSignature.{CoseSignature};

    ghost Value = { CoseSignature };

    ghost coded = { Prim.hlevel (codes, contracts.the_row.coded) };

    ghost view = { λ b. b.0 };

    ghost inverse = { λ v. record { 0 = v } };
}

impl CoseSignatureBuilder {
    /// Returns a builder of a signature without bytes and with empty headers. Allocates nothing.
    pub fn new(alloc: Global) -> CoseSignatureBuilder
        ensures { signature_view result ≡ empty_signature }
    {
        CoseSignatureBuilder(CoseSignature::new(alloc))
    }

    /// Returns the finished signature.
    pub fn build(self) -> CoseSignature
        ensures { result ≡ self }
    {
        self.0
    }

    /// Sets the protected header, without kept bytes.
    pub fn protected(mut self, header: Header) -> CoseSignatureBuilder
        ensures { signature_view result ≡ record (signature_view self) {
          protected = record { original = None; header = header_view header };
        } }
    {
        self.0.protected = protected_from_header(header);
        self
    }

    /// Sets the unprotected header.
    pub fn unprotected(mut self, header: Header) -> CoseSignatureBuilder
        ensures { signature_view result ≡ record
            (signature_view self) { unprotected = header_view header } }
    {
        self.0.unprotected = header;
        self
    }

    /// Sets the signature's bytes.
    pub fn signature(mut self, signature: Vec<u8>) -> CoseSignatureBuilder
        ensures { signature_view result ≡ record
            (signature_view self) { signature = signature.items } }
    {
        self.0.signature = signature;
        self
    }

    /// Calls [`signature`](CoseSignatureBuilder::signature) with a copy of these bytes.
    ///
    /// # Errors
    /// `OutOfMemory` if an allocation fails.
    pub fn signature_from(self, alloc: Global, signature: &[u8]) -> Result<CoseSignatureBuilder>
        ensures ok { IfOk result (λ b. signature_view b
            ≡ record (signature_view self) { signature = signature.now }) }
        ensures memory { IfErr result (λ e. e ≡ OutOfMemory) }
    {
        Ok(self.signature(Vec::from_slice(alloc, signature)?))
    }
}
