//! Protected headers, which signatures cover. If decoded from its byte string, a protected header
//! keeps the bytes (RFC 8152, section 3).

ghost use Rattle.std.specs.Prelude.{◌≡◌, ◌≤◌, option_map, OnOk, OnErr, IfOk, IfErr, IsTrue, Some, None, ℕ, List, ◌↔◌};
ghost use Rattle.coset_codec.specs.declared.error.CoseError.TheVariants.{OutOfMemory};
ghost use Rattle.coset_core.specs.Contents.{FillsContent};
ghost use Rattle.coset_codec.specs.InPlace.{Fills};
ghost use Rattle.coset_core.specs.Views.{header_view, protected_view};
ghost use Rattle.coset_codec.specs.Results.{Reads, Images, RefusesItem};
ghost use Rattle.coset_codec.specs.Errors.{stored};
ghost use Rattle.coset_codec.specs.Inputs.{state, MovesForward, ReadsAt, length_left, ReadsForward};
ghost use Rattle.coset_codec.specs.Sources.{source_item};
ghost use Rattle.coset_value.specs.Item.{bytes};
ghost use Rattle.coset_codec.specs.Shape.{bstr};
ghost use Rattle.coset_core.specs.Headers.{empty_header, is_empty_header, protected_bytes, protected as protected_shape, layered_protected, header_image};
ghost use Rattle.std.specs.Cow.{cow_slice_items};
ghost use Rattle.coset_value.specs.View.{value_item};
ghost use Rattle.coset_cbor.specs.Least.{Extends};
ghost use Rattle.coset_cbor.specs.Pulls.{pull_item};
ghost use Rattle.coset_core.specs.ProtectedMap.{protected_map, protected_map_laws};
ghost use Rattle.coset_core.specs.Written.{AreShortest, HoldsShortest};
ghost use Rattle.coset_codec.specs.Encoding.{HasNoImage, Encodes};
ghost use Rattle.std.specs.Ordering.{on};
ghost use Rattle.std.specs.Cmp.{on_equiv, on_per, partial_equiv_from_equiv};
ghost use Rattle.coset_core.specs.Same.{protected_eq};
ghost use Rattle.coset_core.specs.SameLaws.{protected_eq_equiv};
ghost use Rattle.coset_codec.specs.Serialized.{fresh_bytes};

use crate::header::reading::fill_header;
use crate::header::writing::write_header;
use crate::header::{Header, LAYERS, copy_header, same_header};
use coset_cbor::de::Pull;
use coset_cbor::ser::write_bytes;
use coset_cbor::value::Value;
use coset_cbor::{de, laws};
use coset_codec::error::{ErrorStored, store_error};
use coset_codec::read::{Decoder, copy_bstr_to};
use coset_codec::traits::whole_item;
use coset_codec::write::Encode;
use coset_codec::{Codec, CoseError, ItemSource, Result};
use std::alloc::{AllocError, Global};
use std::borrow::CowSlice;

/// A protected header (RFC 8152, section 3). In messages it is in a byte string:
///
/// ```cddl
/// empty_or_serialized_map = bstr .cbor header_map / bstr .size 0
/// ```
///
/// Its [`Codec`] reads and writes the map itself, without kept bytes.
/// [`ProtectedBstr`](crate::ProtectedBstr) reads and writes the byte string.
#[cycle(header)]
#[derive(Debug, Drop)]
pub struct ProtectedHeader {
    /// The content of the byte string from which the header was decoded, or `None` if there was
    /// none. Signatures are over these kept bytes.
    pub original_data: Option<Vec<u8>>,
    /// The header.
    pub header: Header,
}

impl ProtectedHeader {
    /// Returns an empty protected header without kept bytes. Allocates nothing.
    pub fn new(alloc: Global) -> ProtectedHeader
        ensures { protected_view result ≡ record { original = None; header = empty_header } }
    {
        ProtectedHeader {
            original_data: None,
            header: Header::new(alloc),
        }
    }

    /// Returns true if the header is empty, whatever bytes were kept.
    pub fn is_empty(&self) -> bool
        ensures { result ≡ is_empty_header (protected_view self.now).header }
    {
        self.header.is_empty()
    }

    /// Decodes a protected header from its byte string, and keeps the bytes.
    ///
    /// # Errors
    /// - `OutOfMemory` if an allocation fails.
    /// - `UnexpectedItem` if the value is not a byte string.
    /// - `DecodeFailed` if there are bytes, but no item within 256 levels at their start.
    /// - `DecodeFailed` if more than 16 protected headers are inside one another, as those of
    ///   counter signatures can be.
    /// - `ExtraneousData` if bytes follow the item.
    /// - A fault in the header.
    ///
    /// If there are several faults, the first one found is returned.
    pub fn from_cbor_bstr(alloc: Global, value: Value) -> Result<ProtectedHeader>
        ensures read { Reads protected_shape protected_view (value_item value) result }
        ensures refused { RefusesItem protected_shape (value_item value) result }
    {
        ProtectedHeader::from_source_bstr(alloc, ItemSource::Tree(value))
    }

    /// Decodes a protected header from its borrowed byte string, and keeps a copy of the bytes.
    ///
    /// # Errors
    /// The same as [`ProtectedHeader::from_cbor_bstr`].
    pub fn from_pull_bstr(alloc: Global, pull: Pull<'_>) -> Result<ProtectedHeader>
        ensures read { Reads protected_shape protected_view (pull_item pull.entry) result }
        ensures refused { RefusesItem protected_shape (pull_item pull.entry) result }
    {
        ProtectedHeader::from_source_bstr(alloc, ItemSource::Borrowed(pull))
    }

    /// Decodes a protected header from its byte string, given in either form, and keeps the bytes.
    ///
    /// # Errors
    /// The same as [`ProtectedHeader::from_cbor_bstr`].
    pub fn from_source_bstr(alloc: Global, source: ItemSource<'_>) -> Result<ProtectedHeader>
        ensures read { Reads protected_shape protected_view (source_item source.entry) result }
        ensures refused { RefusesItem protected_shape (source_item source.entry) result }
    {
        read_protected(alloc, &mut Decoder::new(source))
    }

    /// Returns the bytes that represent the header in messages and under signatures (RFC 8152,
    /// sections 3 and 4.4).
    ///
    /// If bytes were kept, they are returned. Otherwise, an empty header has no bytes, and any
    /// other header has the shortest encoding of its map.
    ///
    /// # Errors
    /// - `OutOfMemory` if an allocation fails.
    /// - `DuplicateMapKey` if no bytes were kept, and a label occurs twice in the `rest` of the
    ///   header or of a header inside it. Nothing inside kept bytes is checked.
    pub fn protected_bytes(&self, alloc: Global) -> Result<CowSlice<'_, u8, Global>>
        ensures ok { IfOk result (λ b. protected_bytes (protected_view self.now)
            ≡ Some (cow_slice_items b)) }
        ensures shortest { IfOk result (λ b. AreShortest (protected_view self.now).original
            (protected_view self.now).header (cow_slice_items b)) }
        ensures refused { IfErr result (HasNoImage (protected_bytes (protected_view self.now))) }
    {
        if let Some(bytes) = &self.original_data {
            return Ok(CowSlice::Borrowed(bytes));
        }
        Ok(CowSlice::Owned(fresh_bytes(alloc, &self.header)?))
    }

    /// Returns the byte string that represents the header in messages.
    ///
    /// # Errors
    /// The same as [`ProtectedHeader::protected_bytes`].
    pub fn cbor_bstr(self, alloc: Global) -> Result<Value>
        ensures image { Images (protected_shape.image (protected_view self)) value_item result }
        ensures shortest { IfOk result (λ v. HoldsShortest (protected_view self).original
            (protected_view self).header (value_item v)) }
    {
        let ProtectedHeader {
            original_data,
            header,
        } = self;
        match original_data {
            Some(bytes) => Ok(Value::Bytes(bytes)),
            None => Ok(Value::Bytes(fresh_bytes(alloc, &header)?)),
        }
    }
}

/// Compares the header and the kept bytes, if any.
impl PartialEq for ProtectedHeader {
    ghost eq = { on protected_view protected_eq };

    ghost laws = { on_per protected_view (partial_equiv_from_equiv protected_eq_equiv) };

    fn eq(&self, other: &ProtectedHeader) -> bool
        ensures answers { result ≡ protected_eq (protected_view self.now)
            (protected_view other.now) }
        ensures equal { IsTrue result ↔ (protected_view self.now ≡ protected_view other.now) }
    {
        same_protected(self, other)
    }
}

impl Eq for ProtectedHeader {
    ghost laws = { on_equiv protected_view protected_eq_equiv };
}

/// The same as [`ProtectedHeader::clone`] for generic code, but the error is `AllocError`.
impl Clone for ProtectedHeader {
    ghost is_clone = { λ protected copy. protected_view copy ≡ protected_view protected };

    fn clone(&self) -> Result<ProtectedHeader, AllocError> {
        let mut copy = ProtectedHeader::new(*self.header.rest.allocator());
        copy_protected(self, &mut copy)?;
        Ok(copy)
    }
}

impl ProtectedHeader {
    /// Returns an equal protected header, with the same kept bytes.
    ///
    /// # Errors
    /// `OutOfMemory` if an allocation fails.
    pub fn clone(&self) -> Result<ProtectedHeader>
        ensures copy { IfOk result (λ p. protected_view p ≡ protected_view self.now) }
        ensures memory { IfErr result (λ e. e ≡ OutOfMemory) }
    {
        Ok(Clone::clone(self)?)
    }
}

/// Returns a protected header without kept bytes.
pub(crate) fn protected_from_header(header: Header) -> ProtectedHeader
    ensures { protected_view result ≡ record { original = None; header = header_view header } }
{
    ProtectedHeader {
        original_data: None,
        header,
    }
}

impl Codec for ProtectedHeader {
    ghost use Rattle.coset_core.specs.EqDecides.{protected_decides};
    ghost use Rattle.coset_core.specs.Headers.{ProtectedView};

    ghost View = { ProtectedView };

    ghost view = { protected_view };

    ghost shape = { protected_map };

    ghost laws = { protected_map_laws };

    ghost equal = { protected_decides };

    fn read(alloc: Global, input: &mut Decoder<'_>) -> Result<ProtectedHeader> {
        Ok(protected_from_header(Header::read(alloc, input)?))
    }

    fn size_hint(&self) -> usize {
        self.header.encoded_size_hint()
    }

    /// Writes the header's map, and ignores any kept bytes.
    fn write(&self, alloc: Global, out: &mut Vec<u8>) -> Result<()> {
        self.header.append(alloc, out)
    }
}

/// A borrowed protected header, to be encoded as the byte string that represents it in messages.
#[derive(Clone, Copy)]
pub struct ProtectedRef<'a>(pub &'a ProtectedHeader);

impl Encode for ProtectedRef<'_> {
    ghost image = { λ p. protected_shape.image (protected_view p.0.now) };

    fn encoded_size_hint(&self) -> usize {
        match &self.0.original_data {
            Some(bytes) => bytes.encoded_size_hint(),
            None => self.0.header.encoded_size_hint(),
        }
    }

    /// Appends the byte string of [`ProtectedHeader::protected_bytes`], with the same errors.
    fn encode(&self, alloc: Global, out: &mut Vec<u8>) -> Result<()> {
        write_protected(alloc, self.0, out)
    }

    #[inline(always)]
    fn append(&self, alloc: Global, out: &mut Vec<u8>) -> Result<()> {
        self.encode(alloc, out)
    }
}

/// Returns the bytes of a byte string.
///
/// # Errors
/// - `OutOfMemory` if an allocation fails.
/// - `UnexpectedItem` if the item is not a byte string.
pub(crate) fn string_bytes(
    alloc: Global,
    input: &mut Decoder<'_>,
    error: &mut CoseError,
) -> Result<Vec<u8>, ErrorStored>
    ensures forward { ReadsForward (state input.old) (state input.new) result
        (λ v. Reads bstr (λ b. b.items) v (stored error.new result)) }
    ensures kept { OnOk result (error.new ≡ error.old) }
{
    store_error(input.bytes(alloc, "bstr"), error)
}

/// Decodes the kept bytes of an empty protected header into its header.
///
/// # Errors
/// - `OutOfMemory` if an allocation fails.
/// - `DecodeFailed` if no layer is left for the bytes.
/// - The first fault found in the bytes.
#[cycle(read)]
#[inline(never)]
pub(crate) fn fill_protected(
    protected: &mut ProtectedHeader,
    alloc: Global,
    layers: usize,
    error: &mut CoseError,
) -> Result<(), ErrorStored>
    requires empty { (protected_view protected.old).header ≡ empty_header }
    ensures { (b : List ℕ) → (protected_view protected.old).original ≡ Some b
        → Fills (layered_protected layers) (bytes b) (protected_view protected.new)
        (stored error.new result) }
{
    let Some(content) = &protected.original_data else {
        return Ok(());
    };
    if layers == 0 {
        *error = CoseError::DecodeFailed(de::Error::RecursionLimitExceeded);
        return Err(ErrorStored);
    }
    fill_content(&mut protected.header, alloc, content, layers - 1, error)
}

/// Decodes the content of a byte string into `header`, which must be empty. Empty content is the
/// empty header.
///
/// # Errors
/// - `OutOfMemory` if an allocation fails.
/// - `DecodeFailed` if there is content, but no item within 256 levels at its start.
/// - `ExtraneousData` if bytes follow the item.
/// - A fault in the header.
///
/// If there are several faults, the first one found is returned.
#[cycle(read)]
fn fill_content(
    header: &mut Header,
    alloc: Global,
    content: &[u8],
    layers: usize,
    error: &mut CoseError,
) -> Result<(), ErrorStored>
    requires empty { header_view header.old ≡ empty_header }
    ensures { FillsContent layers content.now (header_view header.new)
        (stored error.new result) }
{
    if content.is_empty() {
        return Ok(());
    }
    let item = store_error(whole_item(content), error)?;
    let mut input = Decoder::new(ItemSource::Borrowed(item));
    fill_header(header, alloc, &mut input, layers, error)
}

/// Reads a protected header from its byte string into `protected`, whose header must be empty.
pub(crate) fn fill_bstr(
    protected: &mut ProtectedHeader,
    alloc: Global,
    input: &mut Decoder<'_>,
    error: &mut CoseError,
) -> Result<(), ErrorStored>
    requires empty { (protected_view protected.old).header ≡ empty_header }
    ensures shrinks { length_left (state input.new) ≤ length_left (state input.old) }
    ensures strictly { OnOk result (MovesForward (state input.old) (state input.new)) }
    ensures fills { ReadsAt (state input.old) (state input.new)
        (λ v. Fills protected_shape v (protected_view protected.new) (stored error.new result)) }
{
    let bytes = string_bytes(alloc, input, error)?;
    protected.original_data = Some(bytes);
    fill_protected(protected, alloc, LAYERS, error)
}

/// Reads a protected header from its byte string.
pub(crate) fn read_protected(alloc: Global, input: &mut Decoder<'_>) -> Result<ProtectedHeader>
    ensures forward { ReadsForward (state input.old) (state input.new) result
        (λ v. Reads protected_shape protected_view v result) }
{
    let mut protected = ProtectedHeader::new(alloc);
    let mut error = CoseError::OutOfMemory;
    if let Err(ErrorStored) = fill_bstr(&mut protected, alloc, input, &mut error) {
        return Err(error);
    }
    Ok(protected)
}

/// Appends the byte string that represents the protected header. Kept bytes are written without
/// another copy.
#[cycle(write)]
pub(crate) fn write_protected(
    alloc: Global,
    protected: &ProtectedHeader,
    out: &mut Vec<u8>,
) -> Result<()>
    ensures written { Encodes (option_map bytes (protected_bytes (protected_view protected.now)))
        out.old.items out.new.items result }
    ensures kept { Extends out.old.items out.new.items }
    ensures refused { OnErr result (out.new.items ≡ out.old.items) }
{
    if let Some(bytes) = &protected.original_data {
        write_bytes(bytes, out)?;
        return Ok(());
    }
    let bytes = fresh_bytes(alloc, &protected.header)?;
    write_bytes(&bytes, out)?;
    Ok(())
}

/// Encodes a header without kept bytes: no bytes if it is empty, else the shortest encoding of its
/// map.
///
/// # Errors
/// The same as [`write_header`].
#[cycle(write)]
fn fresh_bytes(alloc: Global, header: &Header) -> Result<Vec<u8>>
    ensures ok { IfOk result (λ b. fresh_bytes (is_empty_header (header_view header.now))
        (header_image (header_view header.now)) ≡ Some b.items) }
    ensures shortest { IfOk result (λ b. AreShortest None (header_view header.now) b.items) }
    ensures refused { IfErr result
        (HasNoImage (fresh_bytes (is_empty_header (header_view header.now))
        (header_image (header_view header.now)))) }
{
    laws::least_encoding_is_shortest();
    let mut bytes = Vec::new(alloc);
    if !header.is_empty() {
        write_header(alloc, header, &mut bytes)?;
    }
    Ok(bytes)
}

/// Copies `protected` into `copy`, with its kept bytes.
///
/// # Errors
/// `AllocError` if an allocation fails. `copy` may then have the copied bytes, and a header with
/// both old and copied fields.
#[cycle(copy)]
pub fn copy_protected(
    protected: &ProtectedHeader,
    copy: &mut ProtectedHeader,
) -> Result<(), AllocError>
    ensures { OnOk result (protected_view copy.new ≡ protected_view protected.now) }
{
    copy_bstr_to(&protected.original_data, &mut copy.original_data)?;
    copy_header(&protected.header, &mut copy.header)
}

#[cycle(same)]
pub(crate) fn same_protected(a: &ProtectedHeader, b: &ProtectedHeader) -> bool
    ensures { result ≡ protected_eq (protected_view a.now) (protected_view b.now) }
{
    a.original_data == b.original_data && same_header(&a.header, &b.header)
}
