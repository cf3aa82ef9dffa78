//! Headers, which carry the parameters of a message (RFC 8152, sections 3 and 3.1).

ghost use Rattle.std.specs.Prelude.{◌≡◌, map, option_map, OnOk, IfOk, IfErr, ◌<◌, Option, IsTrue, Err, ◌↔◌, Some};
ghost use Rattle.std.specs.Map.{lookup};
ghost use Rattle.coset_value.specs.View.{value_item};
ghost use Rattle.coset_codec.specs.declared.error.CoseError.TheVariants as errors;
ghost use Rattle.coset_label.specs.Views.{algorithm_view, entry_view, label_view};
ghost use Rattle.coset_label.specs.LabelData.{same_label};
ghost use Rattle.coset_core.specs.FieldViews.{fields_view, signature_lists};
ghost use Rattle.coset_core.specs.Views.{header_view};
ghost use Rattle.coset_core.specs.Headers.{empty_header, fields_in, is_empty_header, layered_header, header as header_shape};
ghost use Rattle.std.specs.Option.{option_eq};
ghost use Rattle.std.specs.Ordering.{on};
ghost use Rattle.std.specs.Cmp.{on_equiv, on_per, partial_equiv_from_equiv};
ghost use Rattle.std.specs.Cmp.Lexicographic.{pointwise};
ghost use Rattle.coset_label.specs.Same.{algorithm_eq, entry_eq};
ghost use Rattle.coset_core.specs.Same.{fields_eq, header_eq};
ghost use Rattle.coset_core.specs.SameLaws.{header_eq_equiv};

use crate::content_type::same_content_type;
use crate::countersignature::{
    CoseCountersignature, copy_countersignatures, same_countersignatures,
};
use crate::critical::same_critical;
use crate::header::reading::fill_header;
use crate::header::writing::write_header;
use crate::signature::{
    CoseSignature, CounterSignatures, copy_signatures, drop_counter_signatures, same_signatures,
};
use coset_cbor::value::Value;
use coset_codec::error::ErrorStored;
use coset_codec::read::{Decoder, drop_refused};
use coset_codec::util::copy_bstr;
use coset_codec::{Codec, CoseError, Result, find_value};
use coset_iana::HeaderParameter;
use coset_label::{Algorithm, ContentType, Label, RegisteredLabelWithPrivate};
use std::alloc::{AllocError, Global};

mod builder;
pub(crate) mod reading;
pub(crate) mod writing;

pub use builder::HeaderBuilder;

/// The estimated size of a header without its byte strings and `rest`, in bytes.
const HEADS: usize = 24;

/// The estimated size of a pair of `rest`, in bytes: a label and a short value.
const PAIR: usize = 8;

/// The maximum number of protected headers' byte strings inside one another.
pub(crate) const LAYERS: usize = 16;

/// A header (RFC 8152, sections 3 and 3.1; RFC 9338, section 2).
///
/// ```cddl
/// header_map = { Generic_Headers, * label => values }
///
/// Generic_Headers = (
///     ? 1 => int / tstr,                             ; algorithm
///     ? 2 => [+label],                               ; labels that must be understood
///     ? 3 => tstr / int,                             ; content type
///     ? 4 => bstr,                                   ; key identifier
///     ? 5 => bstr,                                   ; IV
///     ? 6 => bstr,                                   ; Partial IV
///     ? 7 => COSE_Signature / [+ COSE_Signature],    ; counter signatures
///     ? 11 => COSE_Countersignature / [+ COSE_Countersignature],   ; those of version 2
///     ? 12 => bstr                                   ; an abbreviated one of version 2
/// )
/// ```
///
/// Decoding is stricter than this CDDL:
///
/// - An integer under labels 1 to 3 must be registered. Under labels 1 and 2 it may be for private
///   use.
/// - A content type that is a text must have the form of a media type.
/// - The byte strings of labels 4 to 6 must not be empty.
/// - Labels 5 and 6 must not both be there.
/// - At most 16 protected headers may be inside one another, as those of counter signatures can be.
#[cycle(header)]
#[derive(Debug)]
pub struct Header {
    /// The algorithm (label 1).
    pub alg: Option<Algorithm>,
    /// The labels that a reader must understand (label 2). Empty means absent.
    pub crit: Vec<RegisteredLabelWithPrivate<HeaderParameter>>,
    /// The content type (label 3).
    pub content_type: Option<ContentType>,
    /// The key identifier (label 4). Empty means absent.
    pub key_id: Vec<u8>,
    /// The IV (label 5). Empty means absent.
    pub iv: Vec<u8>,
    /// The Partial IV (label 6). Empty means absent.
    pub partial_iv: Vec<u8>,
    /// The counter signatures (label 7). Empty means absent.
    pub counter_signatures: Vec<CoseSignature>,
    /// The countersignatures of version 2 (label 11). Empty means absent.
    pub countersignatures_v2: Vec<CoseCountersignature>,
    /// The abbreviated countersignature of version 2 (label 12). It may be empty bytes.
    pub countersignature0_v2: Option<Vec<u8>>,
    /// The pairs with other labels, in order. Encoding refuses a label that occurs twice here.
    /// It doesn't look for labels of the fields, so a label of a field is then written twice.
    pub rest: Vec<(Label, Value)>,
}

/// Drops the counter signatures in a function of their own, to save stack: the input decides how
/// deep headers nest in them.
impl Drop for Header {
    fn drop(self) {
        drop_counter_signatures(self.into_counter_signatures());
    }
}

impl Header {
    /// Returns the counter signatures of both versions, and drops the other fields.
    #[inline(always)]
    pub(crate) fn into_counter_signatures(self) -> CounterSignatures
        ensures { (result.0.items, result.1.items) ≡ signature_lists self }
    {
        let Header {
            alg: _,
            crit: _,
            content_type: _,
            key_id: _,
            iv: _,
            partial_iv: _,
            counter_signatures,
            countersignatures_v2,
            countersignature0_v2: _,
            rest: _,
        } = self;
        (counter_signatures, countersignatures_v2)
    }

    /// Returns an empty header. Allocates nothing.
    pub fn new(alloc: Global) -> Header
        ensures { header_view result ≡ empty_header }
    {
        Header {
            alg: None,
            crit: Vec::new(alloc),
            content_type: None,
            key_id: Vec::new(alloc),
            iv: Vec::new(alloc),
            partial_iv: Vec::new(alloc),
            counter_signatures: Vec::new(alloc),
            countersignatures_v2: Vec::new(alloc),
            countersignature0_v2: None,
            rest: Vec::new(alloc),
        }
    }

    /// Returns true if the header has no parameters.
    pub fn is_empty(&self) -> bool
        ensures { result ≡ is_empty_header (header_view self.now) }
    {
        self.alg.is_none()
            && self.crit.is_empty()
            && self.content_type.is_none()
            && self.key_id.is_empty()
            && self.iv.is_empty()
            && self.partial_iv.is_empty()
            && self.counter_signatures.is_empty()
            && self.countersignatures_v2.is_empty()
            && self.countersignature0_v2.is_none()
            && self.rest.is_empty()
    }

    /// Returns the value of the first pair of `rest` with this label, or `None` if there is none.
    ///
    /// In a decoded header, `rest` has no label of a field: 1 to 7, 11 and 12 (RFC 8152, section
    /// 3.1; RFC 9338, section 2).
    pub fn get(&self, label: &Label) -> Option<&Value>
        ensures { option_map (λ v. value_item v.now) result ≡ lookup (same_label
            (label_view label.now))
            (fields_in (header_view self.now)).rest }
    {
        find_value(&self.rest, label)
    }
}

/// Compares all fields. `rest` is compared pair by pair, in order.
impl PartialEq for Header {
    ghost eq = { on header_view header_eq };

    ghost laws = { on_per header_view (partial_equiv_from_equiv header_eq_equiv) };

    fn eq(&self, other: &Header) -> bool
        ensures answers { result ≡ header_eq (header_view self.now) (header_view other.now) }
        ensures equal { IsTrue result ↔ (header_view self.now ≡ header_view other.now) }
    {
        same_header(self, other)
    }
}

impl Eq for Header {
    ghost laws = { on_equiv header_view header_eq_equiv };
}

/// The same as [`Header::clone`] for generic code, but the error is `AllocError`.
impl Clone for Header {
    ghost is_clone = { λ header copy. header_view copy ≡ header_view header };

    fn clone(&self) -> Result<Header, AllocError> {
        let mut copy = Header::new(*self.rest.allocator());
        copy_header(self, &mut copy)?;
        Ok(copy)
    }
}

impl Header {
    /// Returns an equal header.
    ///
    /// # Errors
    /// `OutOfMemory` if an allocation fails.
    pub fn clone(&self) -> Result<Header>
        ensures copy { IfOk result (λ h. header_view h ≡ header_view self.now) }
        ensures memory { IfErr result (λ e. e ≡ errors.OutOfMemory) }
    {
        Ok(Clone::clone(self)?)
    }
}

impl Codec for Header {
    ghost use Rattle.coset_core.specs.EqDecides.{header_decides};
    ghost use Rattle.coset_core.specs.Headers.{HeaderView};
    ghost use Rattle.coset_core.specs.HeaderLaws.{header_laws};

    ghost View = { HeaderView };

    ghost view = { header_view };

    ghost shape = { header_shape };

    ghost laws = { header_laws };

    ghost equal = { header_decides };

    fn read(alloc: Global, input: &mut Decoder<'_>) -> Result<Header> {
        let mut header = Header::new(alloc);
        let mut error = CoseError::OutOfMemory;
        if let Err(ErrorStored) = fill_header(&mut header, alloc, input, LAYERS, &mut error) {
            drop_refused(header);
            return Err(error);
        }
        Ok(header)
    }

    /// Estimates the size from `key_id`, `iv`, `partial_iv` and the number of pairs in `rest`.
    /// Counter signatures and long values need more.
    fn size_hint(&self) -> usize {
        HEADS
            .saturating_add(self.key_id.len())
            .saturating_add(self.iv.len())
            .saturating_add(self.partial_iv.len())
            .saturating_add(self.rest.len().saturating_mul(PAIR))
    }

    #[tactic(auto, unfolding(crate::specs::Headers::layered_header))]
    fn write(&self, alloc: Global, out: &mut Vec<u8>) -> Result<()> {
        write_header(alloc, self, out)
    }
}

/// Copies all fields except `counter_signatures` and `countersignatures_v2`.
#[inline(never)]
fn copy_fields(header: &Header, copy: &mut Header) -> Result<(), AllocError>
    ensures copy { OnOk result (fields_view copy.new ≡ fields_view header.now) }
    ensures others { signature_lists copy.new ≡ signature_lists copy.old }
{
    copy.alg = header.alg.clone()?;
    copy.crit = header.crit.clone()?;
    copy.content_type = header.content_type.clone()?;
    copy.key_id = Vec::from_slice(*header.key_id.allocator(), &header.key_id)?;
    copy.iv = Vec::from_slice(*header.iv.allocator(), &header.iv)?;
    copy.partial_iv = Vec::from_slice(*header.partial_iv.allocator(), &header.partial_iv)?;
    copy.countersignature0_v2 = copy_bstr(&header.countersignature0_v2)?;
    copy.rest = header.rest.clone()?;
    Ok(())
}

/// Copies `header` into `copy`.
///
/// # Errors
/// `AllocError` if an allocation fails. `copy` may then have both old and copied fields.
#[cycle(copy)]
pub fn copy_header(header: &Header, copy: &mut Header) -> Result<(), AllocError>
    ensures { OnOk result (header_view copy.new ≡ header_view header.now) }
{
    copy_fields(header, copy)?;
    copy_signatures(&header.counter_signatures, &mut copy.counter_signatures)?;
    copy_countersignatures(&header.countersignatures_v2, &mut copy.countersignatures_v2)
}

#[cycle(same)]
pub(crate) fn same_header(a: &Header, b: &Header) -> bool
    ensures { result ≡ header_eq (header_view a.now) (header_view b.now) }
{
    same_fields(a, b)
        && same_signatures(&a.counter_signatures, &b.counter_signatures)
        && same_countersignatures(&a.countersignatures_v2, &b.countersignatures_v2)
}

/// Returns true if all fields except `counter_signatures` and `countersignatures_v2` are equal.
fn same_fields(a: &Header, b: &Header) -> bool
    ensures { result ≡ fields_eq (fields_view a.now) (fields_view b.now) }
{
    same_algorithm(&a.alg, &b.alg)
        && same_critical(&a.crit, &b.crit)
        && same_content_type(&a.content_type, &b.content_type)
        && a.key_id == b.key_id
        && a.iv == b.iv
        && a.partial_iv == b.partial_iv
        && a.countersignature0_v2 == b.countersignature0_v2
        && same_rest(&a.rest, &b.rest)
}

fn same_algorithm(a: &Option<Algorithm>, b: &Option<Algorithm>) -> bool
    ensures { result ≡ option_eq algorithm_eq (option_map algorithm_view a.now)
        (option_map algorithm_view b.now) }
{
    *a == *b
}

fn same_rest(a: &Vec<(Label, Value)>, b: &Vec<(Label, Value)>) -> bool
    ensures { result ≡ pointwise entry_eq (map entry_view a.now.items)
        (map entry_view b.now.items) }
{
    *a == *b
}
