//! Recipients (RFC 8152, section 5.1). They obtain the key of a message, and can then decrypt it or
//! check its MAC.

ghost use Rattle.std.specs.Prelude.{◌≡◌, ◌≢◌, ◌↔◌, ◌≤◌, ◌<◌, ◌+◌, [], length, map, option_map, IsTrue, IfOk, IfErr, IfSome, OnOk, Some, None};
ghost use Rattle.std.specs.Ordering.{on};
ghost use Rattle.std.specs.Cmp.{on_equiv, on_per, partial_equiv_from_equiv};
ghost use Rattle.coset_value.specs.Item.{Item, array, Items};
ghost use Rattle.coset_cbor.specs.Least.{Extends};
ghost use Rattle.coset_codec.specs.declared.error.CoseError.TheVariants.{OutOfMemory};
ghost use Rattle.coset_codec.specs.Results.{Reads, Writes};
ghost use Rattle.coset_codec.specs.Encoding.{AppendsElements, Encodes, HasNoImage};
ghost use Rattle.coset_codec.specs.Errors.{stored};
ghost use Rattle.coset_codec.specs.InPlace.{Fills, FillsEach};
ghost use Rattle.coset_codec.specs.Inputs.{State, state, length_left, items_size, ItemAt, MovesForward, AreWithin};
ghost use Rattle.coset_codec.specs.Shape.{images, list_of};
ghost use Rattle.coset_core.specs.Headers.{empty_header};
ghost use Rattle.coset_core.specs.Messages.{unread};
ghost use Rattle.coset_core.specs.Views.{header_view, protected_view};
ghost use Rattle.coset_core.specs.Calls.{CallsWith};
ghost use Rattle.coset_msg.specs.Presence.{CallsIfPresent, CreatesOf, TriesToCreateOf};
ghost use Rattle.coset_recipient.specs.Recipient.{IsOfRecipient, push_recipient, are_none, empty_recipient, recipient as recipient_shape, recipient_image, recipient_structure, recipients_of, with_ciphertext};
ghost use Rattle.coset_recipient.specs.RecipientReading.{BeginsThree, FillsLast};
ghost use Rattle.coset_recipient.specs.RecipientWriting.{Begins, last_elements};
ghost use Rattle.coset_recipient.specs.RecipientSame.{recipient_eq, recipient_eq_equiv, recipients_eq};
ghost use Rattle.coset_recipient.specs.RecipientViews.{recipient_view};

use coset_cbor::ser::write_array_head;
use coset_codec::error::{ErrorStored, store_error};
use coset_codec::read::{
    ArrayElements, Decode, Decoder, InPlace, copy_bstr_to, drop_refused, make_room, next_place,
    push_empty, wrong_length,
};
use coset_codec::write::Encode;
use coset_codec::{CallError, Codec, CoseError, Result};
use coset_core::calls::call_with;
use coset_core::{
    Header, ProtectedHeader, ProtectedRef, copy_header, copy_protected, fill_protected_header,
    fill_unprotected_header,
};
use coset_msg::EncryptionContext;
use coset_msg::enc_structure::enc_structure_of;
use std::alloc::{AllocError, Global};
use std::marker::Model;

/// A recipient of a message: `COSE_recipient` (RFC 8152, section 5.1).
///
/// ```cddl
/// COSE_recipient = [ Headers, ciphertext : bstr / nil, ? recipients : [+ COSE_recipient] ]
/// ```
///
/// An empty list of recipients can be read too. It is left out when the recipient is written.
#[derive(Debug, Drop)]
pub struct CoseRecipient {
    /// The header that is authenticated with the ciphertext.
    pub protected: ProtectedHeader,
    /// The header that isn't authenticated.
    pub unprotected: Header,
    /// The encrypted key, or `None` for nil, if there is none (RFC 8152, section 5.1). Recipients
    /// that use a key directly may also carry an empty byte string (section 12.1).
    pub ciphertext: Option<Vec<u8>>,
    /// The recipients that can decrypt this ciphertext, and how they obtain its key.
    pub recipients: Vec<CoseRecipient>,
}

/// The expected item, as the error for a wrong number of elements names it.
const EXPECTED_ARRAY: &str = "array with 3 or 4 items";

/// Decodes the first three elements of a recipient's array into empty fields.
///
/// The outer error is a wrong length. The inner result is the last error among the three elements,
/// if there is one. It is reported only if reading the fourth element succeeds.
///
/// # Errors
/// `UnexpectedItem` if there are fewer than three elements.
#[inline(never)]
fn begin_elements(
    protected: &mut ProtectedHeader,
    unprotected: &mut Header,
    ciphertext: &mut Option<Vec<u8>>,
    alloc: Global,
    elements: &mut ArrayElements,
    input: &mut Decoder<'_>,
) -> Result<Result<()>>
    requires protected { (protected_view protected.old).header ≡ empty_header }
    requires unprotected { header_view unprotected.old ≡ empty_header }
    ensures shrinks { length_left (state input.new) ≤ length_left (state input.old) }
    ensures size { items_size elements.new (state input.new) ≤ items_size elements.old
        (state input.old) }
    ensures begins { (vs : Items) (z : State) → AreWithin elements.old vs (state input.old) z
        → BeginsThree vs (protected_view protected.new) (header_view unprotected.new)
        (option_map (λ b. b.items) ciphertext.new) (state input.new) z elements.new result }
{
    if !elements.next(input) {
        return Err(wrong_length(EXPECTED_ARRAY));
    }
    let first = fill_protected_header(protected, alloc, input);
    if !elements.next(input) {
        return Err(wrong_length(EXPECTED_ARRAY));
    }
    let second = fill_unprotected_header(unprotected, alloc, input);
    if !elements.next(input) {
        return Err(wrong_length(EXPECTED_ARRAY));
    }
    match input.bytes_or_nil(alloc, "bstr / null") {
        Ok(found) => *ciphertext = found,
        Err(error) => return Ok(Err(error)),
    }
    match second {
        Ok(()) => Ok(first),
        Err(error) => Ok(Err(error)),
    }
}

impl InPlace for CoseRecipient {
    ghost is_empty = { λ r. recipient_view r ≡ empty_recipient };

    fn empty(alloc: Global) -> CoseRecipient {
        CoseRecipient::new(alloc)
    }
}

/// Decodes an array of recipients into an empty list.
///
/// # Errors
/// - `UnexpectedItem` if the item is no array.
/// - The errors of [`fill_recipient_list`].
#[cycle(read)]
pub(crate) fn fill_recipients(
    all: &mut Vec<CoseRecipient>,
    alloc: Global,
    input: &mut Decoder<'_>,
    error: &mut CoseError,
) -> Result<(), ErrorStored>
    requires empty { map recipient_view all.old.items ≡ [] }
    ensures shrinks { length_left (state input.new) ≤ length_left (state input.old) }
    ensures fills { (v : Item) (z : State) → ItemAt v (state input.old) z
        → (state input.new ≡ z)
        × Fills (list_of recipient_shape) v (map recipient_view all.new.items)
        (stored error.new result) }
{
    let mut elements = store_error(input.enter_array("array"), error)?;
    let filled = fill_recipient_list(all, alloc, &mut elements, input, error);
    elements.finish(input);
    filled
}

/// Decodes the elements of an array of recipients into an empty list.
///
/// # Errors
/// - `OutOfMemory` if an allocation fails.
/// - The fault of the first recipient that has one.
#[cycle(read)]
fn fill_recipient_list(
    all: &mut Vec<CoseRecipient>,
    alloc: Global,
    elements: &mut ArrayElements,
    input: &mut Decoder<'_>,
    error: &mut CoseError,
) -> Result<(), ErrorStored>
    requires empty { map recipient_view all.old.items ≡ [] }
    ensures shrinks { length_left (state input.new) ≤ length_left (state input.old) }
    ensures fills { (vs : Items) (z : State) → AreWithin elements.old vs (state input.old) z
        → ((left : Items) × AreWithin elements.new left (state input.new) z)
        × FillsEach recipient_shape vs (map recipient_view all.new.items)
        (stored error.new result) }
{
    while next_place(all, elements, input, error)? {
        let last = all.len() - 1;
        fill_recipient(&mut all[last], alloc, input, error)?;
    }
    Ok(())
}

/// Decodes a recipient into an empty one.
///
/// # Errors
/// - `UnexpectedItem` if the item is no array.
/// - The errors of [`fill_elements`].
#[cycle(read)]
fn fill_recipient(
    recipient: &mut CoseRecipient,
    alloc: Global,
    input: &mut Decoder<'_>,
    error: &mut CoseError,
) -> Result<(), ErrorStored>
    requires empty { recipient_view recipient.old ≡ empty_recipient }
    ensures shrinks { length_left (state input.new) ≤ length_left (state input.old) }
    ensures strictly { OnOk result (MovesForward (state input.old) (state input.new)) }
    ensures fills { (v : Item) (z : State) → ItemAt v (state input.old) z
        → (state input.new ≡ z)
        × Fills recipient_shape v (recipient_view recipient.new) (stored error.new result) }
{
    let mut elements = store_error(input.enter_array("array"), error)?;
    let filled = fill_elements(recipient, alloc, &mut elements, input, error);
    elements.finish(input);
    filled
}

/// Decodes the elements of a recipient's array into an empty recipient.
///
/// # Errors
/// - `OutOfMemory` if an allocation fails.
/// - `UnexpectedItem` if there are neither three nor four elements.
/// - The fault of the last element that has one.
#[cycle(read)]
fn fill_elements(
    recipient: &mut CoseRecipient,
    alloc: Global,
    elements: &mut ArrayElements,
    input: &mut Decoder<'_>,
    error: &mut CoseError,
) -> Result<(), ErrorStored>
    requires empty { recipient_view recipient.old ≡ empty_recipient }
    ensures shrinks { length_left (state input.new) ≤ length_left (state input.old) }
    ensures fills { (vs : Items) (z : State) → AreWithin elements.old vs (state input.old) z
        → ((left : Items) × AreWithin elements.new left (state input.new) z)
        × Fills recipient_shape (array vs) (recipient_view recipient.new)
        (stored error.new result) }
{
    let first = store_error(
        begin_elements(
            &mut recipient.protected,
            &mut recipient.unprotected,
            &mut recipient.ciphertext,
            alloc,
            elements,
            input,
        ),
        error,
    )?;
    fill_fourth_element(&mut recipient.recipients, alloc, elements, input, error)?;
    store_error(first, error)
}

/// Decodes the fourth element of a recipient's array, if there is one, into an empty list.
///
/// # Errors
/// - `UnexpectedItem` if a fifth element follows.
/// - The errors of [`fill_recipients`].
#[cycle(read)]
fn fill_fourth_element(
    all: &mut Vec<CoseRecipient>,
    alloc: Global,
    elements: &mut ArrayElements,
    input: &mut Decoder<'_>,
    error: &mut CoseError,
) -> Result<(), ErrorStored>
    requires empty { map recipient_view all.old.items ≡ [] }
    ensures shrinks { length_left (state input.new) ≤ length_left (state input.old) }
    ensures fills { (vs : Items) (z : State) → AreWithin elements.old vs (state input.old) z
        → ((left : Items) × AreWithin elements.new left (state input.new) z)
        × FillsLast vs (map recipient_view all.new.items) (stored error.new result) }
{
    if !elements.next(input) {
        return Ok(());
    }
    let filled = fill_recipients(all, alloc, input, error);
    if elements.next(input) {
        input.skip();
        *error = wrong_length(EXPECTED_ARRAY);
        return Err(ErrorStored);
    }
    filled
}

/// The array of recipients in a message.
#[derive(Debug, Drop)]
pub(crate) struct Recipients(pub(crate) Vec<CoseRecipient>);

impl Decode for Recipients {
    ghost use Rattle.std.specs.Prelude.{List};
    ghost use Rattle.coset_recipient.specs.Recipient.{RecipientView};

    ghost View = { List RecipientView };

    ghost view = { λ all. map recipient_view all.0.items };

    ghost shape = { list_of recipient_shape };

    fn decode(alloc: Global, input: &mut Decoder<'_>) -> Result<Recipients> {
        let mut all = Vec::new(alloc);
        let mut error = CoseError::OutOfMemory;
        match fill_recipients(&mut all, alloc, input, &mut error) {
            Ok(()) => Ok(Recipients(all)),
            Err(ErrorStored) => Err(error),
        }
    }
}

/// Returns true if there are no recipients.
fn are_none(all: &[CoseRecipient]) -> bool
    ensures { result ≡ are_none (recipients_of (map recipient_view all.now)) }
{
    all.is_empty()
}

/// Returns the number of elements of the recipient's array.
fn count_elements(recipient: &CoseRecipient) -> usize
    ensures { result ≡ 3 + last_elements (recipient_view recipient.now).recipients }
{
    if are_none(&recipient.recipients) {
        3
    } else {
        4
    }
}

/// Appends the head and the first three elements of a recipient's array.
fn write_first(alloc: Global, recipient: &CoseRecipient, out: &mut Vec<u8>) -> Result<()>
    ensures written { Begins (recipient_view recipient.now) out.old.items out.new.items result }
    ensures kept { Extends out.old.items out.new.items }
{
    write_array_head(count_elements(recipient), out)?;
    ProtectedRef(&recipient.protected).append(alloc, out)?;
    recipient.unprotected.append(alloc, out)?;
    recipient.ciphertext.append(alloc, out)
}

/// Appends the recipient's array.
#[cycle(write)]
fn write_recipient(alloc: Global, recipient: &CoseRecipient, out: &mut Vec<u8>) -> Result<()>
    ensures written { Encodes (recipient_image (recipient_view recipient.now)) out.old.items
        out.new.items result }
    ensures kept { Extends out.old.items out.new.items }
{
    write_first(alloc, recipient, out)?;
    let inside: &[CoseRecipient] = &recipient.recipients;
    if are_none(inside) {
        return Ok(());
    }
    write_recipients(alloc, inside, out)
}

/// Appends an array of recipients.
#[cycle(write)]
fn write_recipients(alloc: Global, all: &[CoseRecipient], out: &mut Vec<u8>) -> Result<()>
    ensures written { Encodes
        (option_map array (images recipient_image (map recipient_view all.now))) out.old.items
        out.new.items result }
    ensures kept { Extends out.old.items out.new.items }
{
    write_array_head(all.len(), out)?;
    write_each(alloc, all, out)
}

/// Appends recipients, one after another.
#[cycle(write)]
fn write_each(alloc: Global, all: &[CoseRecipient], out: &mut Vec<u8>) -> Result<()>
    ensures ok { OnOk result (AppendsElements
        (images recipient_image (map recipient_view all.now)) (length all.now) out.old.items
        out.new.items) }
    ensures refused { IfErr result
        (HasNoImage (images recipient_image (map recipient_view all.now))) }
    ensures kept { Extends out.old.items out.new.items }
{
    for recipient in all {
        write_recipient(alloc, recipient, out)?;
    }
    Ok(())
}

/// Returns the approximate length of the recipient's encoding.
#[cycle(size)]
fn recipient_size_hint(recipient: &CoseRecipient) -> usize {
    ProtectedRef(&recipient.protected)
        .encoded_size_hint()
        .saturating_add(recipient.unprotected.encoded_size_hint())
        .saturating_add(recipient.ciphertext.encoded_size_hint())
        .saturating_add(recipients_size_hint(&recipient.recipients))
}

/// Returns the approximate length of the encodings of these recipients, one after another.
#[cycle(size)]
fn recipients_size_hint(all: &[CoseRecipient]) -> usize {
    let mut room: usize = 0;
    for recipient in all {
        room = room.saturating_add(recipient_size_hint(recipient));
    }
    room
}

/// Replaces the contents of `copies` with copies of these recipients.
#[cycle(copy)]
fn copy_recipients(all: &[CoseRecipient], copies: &mut Vec<CoseRecipient>) -> Result<(), AllocError>
    ensures { OnOk result (map recipient_view copies.new.items ≡ map recipient_view all.now) }
{
    make_room(copies, all.len())?;
    for recipient in all {
        push_empty(copies)?;
        let last = copies.len() - 1;
        copy_recipient(recipient, &mut copies[last])?;
    }
    Ok(())
}

/// Copies a recipient into another.
#[cycle(copy)]
fn copy_recipient(recipient: &CoseRecipient, copy: &mut CoseRecipient) -> Result<(), AllocError>
    ensures { OnOk result (recipient_view copy.new ≡ recipient_view recipient.now) }
{
    copy_protected(&recipient.protected, &mut copy.protected)?;
    copy_header(&recipient.unprotected, &mut copy.unprotected)?;
    copy_bstr_to(&recipient.ciphertext, &mut copy.ciphertext)?;
    copy_recipients(&recipient.recipients, &mut copy.recipients)
}

#[cycle(same)]
fn same_recipients(all: &[CoseRecipient], others: &[CoseRecipient]) -> bool
    ensures { result ≡ recipients_eq (recipients_of (map recipient_view all.now))
        (recipients_of (map recipient_view others.now)) }
{
    if all.len() != others.len() {
        return false;
    }
    for (a, b) in all.iter().zip(others) {
        if !same_recipient(a, b) {
            return false;
        }
    }
    true
}

#[cycle(same)]
fn same_recipient(a: &CoseRecipient, b: &CoseRecipient) -> bool
    ensures { result ≡ recipient_eq (recipient_view a.now) (recipient_view b.now) }
{
    a.protected == b.protected
        && a.unprotected == b.unprotected
        && a.ciphertext == b.ciphertext
        && same_recipients(&a.recipients, &b.recipients)
}

/// Copies recipients, kept bytes included.
pub(crate) fn copy_recipient_list(
    all: &Vec<CoseRecipient>,
) -> Result<Vec<CoseRecipient>, AllocError>
    ensures { IfOk result (λ c. map recipient_view c.items ≡ map recipient_view all.now.items) }
{
    Ok(Clone::clone(all)?)
}

/// Returns true if this is one of the three contexts of a recipient.
fn is_of_recipient(context: EncryptionContext) -> bool
    ensures { IsTrue result ↔ IsOfRecipient context }
{
    match context {
        EncryptionContext::CoseEncrypt | EncryptionContext::CoseEncrypt0 => false,
        EncryptionContext::EncRecipient
        | EncryptionContext::MacRecipient
        | EncryptionContext::RecRecipient => true,
    }
}

impl CoseRecipient {
    /// Returns an empty recipient: empty headers, no ciphertext, no recipients. Allocates nothing.
    pub fn new(alloc: Global) -> CoseRecipient
        ensures { recipient_view result ≡ empty_recipient }
    {
        CoseRecipient {
            protected: ProtectedHeader::new(alloc),
            unprotected: Header::new(alloc),
            ciphertext: None,
            recipients: Vec::new(alloc),
        }
    }

    /// Returns the additional authenticated data: the encoded `Enc_structure` (RFC 8152,
    /// section 5.3).
    ///
    /// A protected header that was read is represented by its kept bytes. `context` should be
    /// `EncRecipient` in an encrypted message, `MacRecipient` in a message with a MAC, and
    /// `RecRecipient` in another recipient. The function does not check `context`.
    ///
    /// # Errors
    /// - `OutOfMemory` if an allocation fails.
    /// - `DuplicateMapKey` if the protected header has no kept bytes and has a label twice in its
    ///   `rest`. Nested headers count too, except those inside kept bytes.
    pub fn aad(
        &self,
        alloc: Global,
        context: EncryptionContext,
        external_aad: &[u8],
    ) -> Result<Vec<u8>>
        ensures { Writes (recipient_structure context (recipient_view self.now)
            external_aad.now) (λ b. b.items) result }
    {
        enc_structure_of(alloc, context, &self.protected, external_aad)
    }

    /// Returns the ciphertext, which the recipient must carry.
    fn attached(&self) -> &[u8]
        requires { (recipient_view self.now).ciphertext ≢ None }
        ensures { (recipient_view self.now).ciphertext ≡ Some result.now }
    {
        match &self.ciphertext {
            Some(ciphertext) => ciphertext,
            None => unreachable!(),
        }
    }

    /// Calls `cipher` with the ciphertext and the additional authenticated data (RFC 8152, section
    /// 5.3), and returns the plaintext: the key, or other content.
    ///
    /// The recipient must carry a ciphertext. `context` must be that of a recipient:
    /// `EncRecipient` in an encrypted message, `MacRecipient` in a message with a MAC, or
    /// `RecRecipient` in another recipient. `cipher` gets its arguments in this order. It is called
    /// once, or not at all if the additional authenticated data can't be made.
    ///
    /// # Errors
    /// - `Coset` with an error of [`CoseRecipient::aad`].
    /// - `Caller` with the error of `cipher`.
    pub fn decrypt<F, E>(
        &self,
        alloc: Global,
        context: EncryptionContext,
        external_aad: &[u8],
        cipher: F,
    ) -> Result<Vec<u8>, CallError<E>>
    where
        F: FnOnce(&[u8], &[u8]) -> Result<Vec<u8>, E> + Drop,
        E: Drop,
        requires callable { F.IsAlwaysCallable cipher }
        requires context { IsOfRecipient context }
        requires attached { (recipient_view self.now).ciphertext ≢ None }
        ensures { IfSome (recipient_view self.now).ciphertext (λ c. CallsWith F.FnOnce cipher c
            (recipient_structure context (recipient_view self.now) external_aad.now) result) }
    {
        prove!(is_of_recipient(context));
        let structure = self.aad(alloc, context, external_aad);
        call_with(self.attached(), structure, cipher)
    }

    /// Does the same as [`CoseRecipient::decrypt`], also for a recipient without a ciphertext. If
    /// the ciphertext is missing, `missing` is called for the error, and `cipher` isn't called.
    ///
    /// # Errors
    /// - The errors of [`CoseRecipient::decrypt`].
    /// - `Caller` with the result of `missing`, if the recipient carries no ciphertext.
    pub fn decrypt_ciphertext<F, E, M>(
        &self,
        alloc: Global,
        context: EncryptionContext,
        external_aad: &[u8],
        missing: M,
        cipher: F,
    ) -> Result<Vec<u8>, CallError<E>>
    where
        F: FnOnce(&[u8], &[u8]) -> Result<Vec<u8>, E> + Drop,
        E: Drop,
        M: FnOnce() -> E + Drop,
        requires callable { F.IsAlwaysCallable cipher }
        requires missing_callable { M.IsAlwaysCallable missing }
        requires context { (recipient_view self.now).ciphertext ≢ None → IsOfRecipient context }
        ensures { CallsIfPresent F.FnOnce cipher M.FnOnce missing
            (recipient_view self.now).ciphertext (λ c. c) (λ _. recipient_structure context
            (recipient_view self.now) external_aad.now) result }
    {
        let Some(ciphertext) = &self.ciphertext else {
            return Err(CallError::Caller(missing()));
        };
        prove!(is_of_recipient(context));
        let structure = self.aad(alloc, context, external_aad);
        call_with(ciphertext, structure, cipher)
    }

    /// Returns a recipient equal to this one, kept bytes included.
    ///
    /// # Errors
    /// `OutOfMemory` if an allocation fails.
    pub fn clone(&self) -> Result<CoseRecipient>
        ensures copy { IfOk result (λ r. recipient_view r ≡ recipient_view self.now) }
        ensures memory { IfErr result (λ e. e ≡ OutOfMemory) }
    {
        Ok(Clone::clone(self)?)
    }
}

/// The same as [`CoseRecipient::clone`], for generic code.
impl Clone for CoseRecipient {
    ghost is_clone = { λ recipient copy. recipient_view copy ≡ recipient_view recipient };

    fn clone(&self) -> Result<CoseRecipient, AllocError> {
        let mut copy = CoseRecipient::new(*self.recipients.allocator());
        copy_recipient(self, &mut copy)?;
        Ok(copy)
    }
}

/// Compares every field, including the kept bytes of the protected headers.
impl PartialEq for CoseRecipient {
    ghost eq = { on recipient_view recipient_eq };

    ghost laws = { on_per recipient_view (partial_equiv_from_equiv recipient_eq_equiv) };

    fn eq(&self, other: &CoseRecipient) -> bool
        ensures answers { result
            ≡ recipient_eq (recipient_view self.now) (recipient_view other.now) }
        ensures equal { IsTrue result
            ↔ (recipient_view self.now ≡ recipient_view other.now) }
    {
        same_recipient(self, other)
    }
}

impl Eq for CoseRecipient {
    ghost laws = { on_equiv recipient_view recipient_eq_equiv };
}

impl Codec for CoseRecipient {
    ghost use Rattle.coset_recipient.specs.RecipientSame.{recipient_decides};
    ghost use Rattle.coset_recipient.specs.Recipient.{RecipientView};
    ghost use Rattle.coset_recipient.specs.RecipientLaws.{recipient_laws};

    ghost View = { RecipientView };

    ghost view = { recipient_view };

    ghost shape = { recipient_shape };

    ghost laws = { recipient_laws };

    ghost equal = { recipient_decides };

    fn read(alloc: Global, input: &mut Decoder<'_>) -> Result<CoseRecipient> {
        let mut recipient = CoseRecipient::new(alloc);
        let mut error = CoseError::OutOfMemory;
        if let Err(ErrorStored) = fill_recipient(&mut recipient, alloc, input, &mut error) {
            drop_refused(recipient);
            return Err(error);
        }
        Ok(recipient)
    }

    fn size_hint(&self) -> usize {
        recipient_size_hint(self)
    }

    fn write(&self, alloc: Global, out: &mut Vec<u8>) -> Result<()> {
        write_recipient(alloc, self, out)
    }
}

/// Builds a [`CoseRecipient`] field by field. Contracts see the builder as the recipient that
/// [`build`](CoseRecipientBuilder::build) returns.
#[derive(Debug, Drop)]
pub struct CoseRecipientBuilder(CoseRecipient);

impl Model for CoseRecipientBuilder {
    ghost use Rattle.std.specs.Coded.{codes};
    ghost use Rattle.coset_recipient.specs.contracts.recipient.CoseRecipient as contracts;
    ghost use Rattle.coset_recipient.specs.declared.recipient.CoseRecipient.{CoseRecipient};

    ghost Value = { CoseRecipient };

    ghost coded = { Prim.hlevel (codes, contracts.the_row.coded) };

    ghost view = { λ b. b.0 };

    ghost inverse = { λ v. record { 0 = v } };
}

impl CoseRecipientBuilder {
    /// Returns a builder of an empty recipient. Allocates nothing.
    pub fn new(alloc: Global) -> CoseRecipientBuilder
        ensures { recipient_view result ≡ empty_recipient }
    {
        CoseRecipientBuilder(CoseRecipient::new(alloc))
    }

    /// Returns the finished recipient.
    pub fn build(self) -> CoseRecipient
        ensures { result ≡ self }
    {
        self.0
    }

    /// Sets the protected header. It counts as not read, so it has no kept bytes.
    pub fn protected(mut self, header: Header) -> CoseRecipientBuilder
        ensures { recipient_view result ≡ record
            (recipient_view self) { protected = unread (header_view header) } }
    {
        self.0.protected = ProtectedHeader {
            original_data: None,
            header,
        };
        self
    }

    /// Sets the unprotected header.
    pub fn unprotected(mut self, header: Header) -> CoseRecipientBuilder
        ensures { recipient_view result ≡ record
            (recipient_view self) { unprotected = header_view header } }
    {
        self.0.unprotected = header;
        self
    }

    /// Sets the ciphertext.
    pub fn ciphertext(mut self, ciphertext: Vec<u8>) -> CoseRecipientBuilder
        ensures { recipient_view result
            ≡ with_ciphertext ciphertext.items (recipient_view self) }
    {
        self.0.ciphertext = Some(ciphertext);
        self
    }

    /// Calls [`ciphertext`](CoseRecipientBuilder::ciphertext) with a copy of these bytes.
    ///
    /// # Errors
    /// `OutOfMemory` if an allocation fails.
    pub fn ciphertext_from(self, alloc: Global, ciphertext: &[u8]) -> Result<CoseRecipientBuilder>
        ensures ok { IfOk result (λ b. recipient_view b
            ≡ with_ciphertext ciphertext.now (recipient_view self)) }
        ensures memory { IfErr result (λ e. e ≡ OutOfMemory) }
    {
        Ok(self.ciphertext(Vec::from_slice(alloc, ciphertext)?))
    }

    /// Appends a recipient.
    ///
    /// # Errors
    /// `OutOfMemory` if an allocation fails.
    pub fn add_recipient(mut self, recipient: CoseRecipient) -> Result<CoseRecipientBuilder>
        ensures ok { IfOk result (λ b. recipient_view b
            ≡ push_recipient (recipient_view recipient) (recipient_view self)) }
        ensures memory { IfErr result (λ e. e ≡ OutOfMemory) }
    {
        self.0.recipients.push(recipient)?;
        Ok(self)
    }

    /// Calls `cipher` with `plaintext` and the additional authenticated data (RFC 8152, section
    /// 5.3), and sets the ciphertext to its result.
    ///
    /// Set all other fields before this call. `context` must be that of a recipient:
    /// `EncRecipient` in an encrypted message, `MacRecipient` in a message with a MAC, or
    /// `RecRecipient` in another recipient. `cipher` gets its arguments in this order. It is called
    /// once, or not at all if the additional authenticated data can't be made.
    ///
    /// # Errors
    /// - `OutOfMemory` if an allocation fails.
    /// - `DuplicateMapKey` if the protected header has a label twice in its `rest`. Nested headers
    ///   count too, except those inside kept bytes.
    pub fn create_ciphertext<F>(
        self,
        alloc: Global,
        context: EncryptionContext,
        plaintext: &[u8],
        external_aad: &[u8],
        cipher: F,
    ) -> Result<CoseRecipientBuilder>
    where
        F: FnOnce(&[u8], &[u8]) -> Vec<u8> + Drop,
        requires callable { F.IsAlwaysCallable cipher }
        requires context { IsOfRecipient context }
        ensures { CreatesOf F.FnOnce cipher plaintext.now
            (recipient_structure context (recipient_view self) external_aad.now) (λ c b.
            recipient_view b ≡ with_ciphertext c.items (recipient_view self)) result }
    {
        prove!(is_of_recipient(context));
        let structure = self.0.aad(alloc, context, external_aad)?;
        Ok(self.ciphertext(cipher(plaintext, &structure)))
    }

    /// Does the same as [`CoseRecipientBuilder::create_ciphertext`] with a `cipher` that may fail.
    ///
    /// # Errors
    /// - `Coset` with an error of [`CoseRecipientBuilder::create_ciphertext`].
    /// - `Caller` with the error of `cipher`.
    pub fn try_create_ciphertext<F, E>(
        self,
        alloc: Global,
        context: EncryptionContext,
        plaintext: &[u8],
        external_aad: &[u8],
        cipher: F,
    ) -> Result<CoseRecipientBuilder, CallError<E>>
    where
        F: FnOnce(&[u8], &[u8]) -> Result<Vec<u8>, E> + Drop,
        E: Drop,
        requires callable { F.IsAlwaysCallable cipher }
        requires context { IsOfRecipient context }
        ensures { TriesToCreateOf F.FnOnce cipher plaintext.now
            (recipient_structure context (recipient_view self) external_aad.now) (λ c b.
            recipient_view b ≡ with_ciphertext c.items (recipient_view self)) result }
    {
        prove!(is_of_recipient(context));
        let structure = self.0.aad(alloc, context, external_aad);
        let ciphertext = call_with(plaintext, structure, cipher)?;
        Ok(self.ciphertext(ciphertext))
    }
}
