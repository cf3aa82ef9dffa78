//! Countersignatures of version 2 (RFC 9338, section 3.1). They have the shape of a signature, and
//! they cover more than counter signatures of label 7.

ghost use Rattle.std.specs.Prelude.{◌≡◌, [], map, OnOk, IfOk, IfErr, IfSome, IsTrue, None, ◌↔◌, ◌+◌, ◌<◌};
ghost use Rattle.coset_codec.specs.declared.error.CoseError.TheVariants.{OutOfMemory};
ghost use Rattle.coset_core.specs.Contents.{empty_signature};
ghost use Rattle.coset_core.specs.Views.{countersignature_view, header_view, signature_view};
ghost use Rattle.coset_core.specs.Headers.{signature as signature_shape, signatures_of, signatures_image};
ghost use Rattle.coset_core.specs.Written.{AppendsSignatures, signature_array};
ghost use Rattle.coset_cbor.specs.Least.{Extends};
ghost use Rattle.coset_codec.specs.Encoding.{HasNoImage, Encodes};
ghost use Rattle.std.specs.Ordering.{on};
ghost use Rattle.std.specs.Cmp.{on_equiv, on_per, partial_equiv_from_equiv};
ghost use Rattle.coset_core.specs.Same.{signature_eq, signatures_eq};
ghost use Rattle.coset_core.specs.SameLaws.{signature_eq_equiv};
ghost use Rattle.coset_core.specs.SignatureCounts.{count_in_lists};

use crate::header::writing::write_header;
use crate::header::{Header, copy_header, same_header};
use crate::protected::{
    ProtectedHeader, ProtectedRef, copy_protected, protected_from_header, same_protected,
    write_protected,
};
use crate::signature::{CoseSignature, CounterSignatures, copy_into, take_counter_signatures};
use coset_cbor::ser::{write_array_head, write_bytes};
use coset_codec::read::{Decoder, InPlace, make_room, push_empty};
use coset_codec::write::Encode;
use coset_codec::{Codec, Result, TaggedCodec};
use std::alloc::{AllocError, Global};
use std::marker::Model;

/// A countersignature of version 2 (RFC 9338, section 3.1).
///
/// Its array is that of a signature, and it may be under tag 19. It is in headers under label 11
/// ([`Header::countersignatures_v2`]).
///
/// ```cddl
/// COSE_Countersignature = [ Headers, signature : bstr ]
/// ```
#[cycle(header)]
#[derive(Debug, Drop)]
pub struct CoseCountersignature {
    /// The header that the countersignature covers.
    pub protected: ProtectedHeader,
    /// The header that the countersignature doesn't cover.
    pub unprotected: Header,
    /// The countersignature's bytes.
    pub signature: Vec<u8>,
}

impl CoseCountersignature {
    /// Returns a countersignature without bytes and with empty headers. Allocates nothing.
    pub fn new(alloc: Global) -> CoseCountersignature
        ensures { countersignature_view result ≡ empty_signature }
    {
        CoseCountersignature {
            protected: ProtectedHeader::new(alloc),
            unprotected: Header::new(alloc),
            signature: Vec::new(alloc),
        }
    }
}

/// Converts a decoded signature to a countersignature.
fn countersignature_of(signed: CoseSignature) -> CoseCountersignature
    ensures { countersignature_view result ≡ signature_view signed }
{
    let CoseSignature {
        protected,
        unprotected,
        signature,
    } = signed;
    CoseCountersignature {
        protected,
        unprotected,
        signature,
    }
}

/// Converts decoded signatures to countersignatures.
pub(crate) fn countersignatures_of(
    alloc: Global,
    read: Vec<CoseSignature>,
) -> Result<Vec<CoseCountersignature>>
    ensures ok { IfOk result (λ all. map countersignature_view all.items
        ≡ map signature_view read.items) }
    ensures memory { IfErr result (λ e. e ≡ OutOfMemory) }
{
    let mut all = Vec::with_capacity(alloc, read.len())?;
    for signed in read {
        all.push(countersignature_of(signed))?;
    }
    Ok(all)
}

/// Compares the headers and the countersignature's bytes.
impl PartialEq for CoseCountersignature {
    ghost eq = { on countersignature_view signature_eq };

    ghost laws = { on_per countersignature_view (partial_equiv_from_equiv signature_eq_equiv) };

    fn eq(&self, other: &CoseCountersignature) -> bool
        ensures answers { result ≡ signature_eq (countersignature_view self.now)
            (countersignature_view other.now) }
        ensures equal { IsTrue result
            ↔ (countersignature_view self.now ≡ countersignature_view other.now) }
    {
        same_countersignature(self, other)
    }
}

impl Eq for CoseCountersignature {
    ghost laws = { on_equiv countersignature_view signature_eq_equiv };
}

/// The same as [`CoseCountersignature::clone`] for generic code, but the error is `AllocError`.
impl Clone for CoseCountersignature {
    ghost is_clone = { λ signed copy. countersignature_view copy ≡ countersignature_view signed };

    fn clone(&self) -> Result<CoseCountersignature, AllocError> {
        let mut copy = CoseCountersignature::new(*self.signature.allocator());
        copy_countersignature(self, &mut copy)?;
        Ok(copy)
    }
}

impl CoseCountersignature {
    /// Returns an equal countersignature.
    ///
    /// # Errors
    /// `OutOfMemory` if an allocation fails.
    pub fn clone(&self) -> Result<CoseCountersignature>
        ensures copy { IfOk result (λ s. countersignature_view s ≡ countersignature_view self.now) }
        ensures memory { IfErr result (λ e. e ≡ OutOfMemory) }
    {
        Ok(Clone::clone(self)?)
    }
}

impl Codec for CoseCountersignature {
    ghost use Rattle.coset_core.specs.SameLaws.{signature_eq-decides};
    ghost use Rattle.coset_core.specs.Headers.{SignatureView};
    ghost use Rattle.coset_core.specs.HeaderLaws.{signature_laws};

    ghost View = { SignatureView };

    ghost view = { countersignature_view };

    ghost shape = { signature_shape };

    ghost laws = { signature_laws };

    ghost equal = { λ a b. signature_eq-decides (countersignature_view a)
        (countersignature_view b) };

    fn read(alloc: Global, input: &mut Decoder<'_>) -> Result<CoseCountersignature> {
        Ok(countersignature_of(CoseSignature::read(alloc, input)?))
    }

    fn size_hint(&self) -> usize {
        ProtectedRef(&self.protected)
            .encoded_size_hint()
            .saturating_add(self.unprotected.encoded_size_hint())
            .saturating_add(self.signature.encoded_size_hint())
    }

    fn write(&self, alloc: Global, out: &mut Vec<u8>) -> Result<()> {
        write_countersignature(alloc, self, out)
    }
}

impl TaggedCodec for CoseCountersignature {
    ghost TAG_NUMBER = { 19 };

    const TAG_NUMBER: u64 = 19;
}

/// Appends the countersignatures, one after the other.
#[cycle(write)]
pub(crate) fn write_each_countersignature(
    alloc: Global,
    signatures: &[CoseCountersignature],
    out: &mut Vec<u8>,
) -> Result<()>
    ensures ok { OnOk result (AppendsSignatures out.old.items out.new.items
        (map countersignature_view signatures.now)) }
    ensures refused { IfErr result
        (HasNoImage (signatures_image (signatures_of (map countersignature_view signatures.now)))) }
    ensures kept { Extends out.old.items out.new.items }
{
    for signature in signatures {
        write_countersignature(alloc, signature, out)?;
    }
    Ok(())
}

/// Appends the countersignature's array.
#[cycle(write)]
fn write_countersignature(
    alloc: Global,
    signature: &CoseCountersignature,
    out: &mut Vec<u8>,
) -> Result<()>
    ensures written { Encodes (signature_array (countersignature_view signature.now)) out.old.items
        out.new.items result }
    ensures kept { Extends out.old.items out.new.items }
{
    write_array_head(3, out)?;
    write_protected(alloc, &signature.protected, out)?;
    write_header(alloc, &signature.unprotected, out)?;
    write_bytes(&signature.signature, out)?;
    Ok(())
}

impl InPlace for CoseCountersignature {
    ghost is_empty = { λ s. countersignature_view s ≡ empty_signature };

    fn empty(alloc: Global) -> CoseCountersignature {
        CoseCountersignature::new(alloc)
    }
}

/// Replaces the content of `copies` with copies of the countersignatures.
#[cycle(copy)]
pub(crate) fn copy_countersignatures(
    all: &[CoseCountersignature],
    copies: &mut Vec<CoseCountersignature>,
) -> Result<(), AllocError>
    ensures { OnOk result (map countersignature_view copies.new.items
        ≡ map countersignature_view all.now) }
{
    make_room(copies, all.len())?;
    for signature in all {
        push_empty(copies)?;
        let last = copies.len() - 1;
        copy_countersignature(signature, &mut copies[last])?;
    }
    Ok(())
}

/// Copies `signature` into `copy`.
#[cycle(copy)]
fn copy_countersignature(
    signature: &CoseCountersignature,
    copy: &mut CoseCountersignature,
) -> Result<(), AllocError>
    ensures { OnOk result (countersignature_view copy.new
        ≡ countersignature_view signature.now) }
{
    copy_protected(&signature.protected, &mut copy.protected)?;
    copy_header(&signature.unprotected, &mut copy.unprotected)?;
    copy_into(&signature.signature, &mut copy.signature)
}

#[cycle(same)]
pub(crate) fn same_countersignatures(
    all: &[CoseCountersignature],
    others: &[CoseCountersignature],
) -> bool
    ensures { result ≡ signatures_eq (signatures_of (map countersignature_view all.now))
        (signatures_of (map countersignature_view others.now)) }
{
    if all.len() != others.len() {
        return false;
    }
    for (a, b) in all.iter().zip(others) {
        if !same_countersignature(a, b) {
            return false;
        }
    }
    true
}

#[cycle(same)]
fn same_countersignature(a: &CoseCountersignature, b: &CoseCountersignature) -> bool
    ensures { result ≡ signature_eq (countersignature_view a.now) (countersignature_view b.now) }
{
    same_protected(&a.protected, &b.protected)
        && same_header(&a.unprotected, &b.unprotected)
        && a.signature == b.signature
}

/// Removes the last countersignature and returns the counter signatures of its two headers. Drops
/// everything else in it.
#[inline(never)]
pub(crate) fn take_last_countersignature(
    all: &mut Vec<CoseCountersignature>,
) -> Option<(CounterSignatures, CounterSignatures)>
    ensures none { result ≡ None → all.old.items ≡ [] }
    ensures fewer { IfSome result (λ x. count_in_lists x.0.0.items x.0.1.items + count_in_lists
        x.1.0.items
        x.1.1.items + count_in_lists [] all.new.items < count_in_lists [] all.old.items) }
{
    let CoseCountersignature {
        protected,
        unprotected,
        signature: _,
    } = all.pop()?;
    Some(take_counter_signatures(protected, unprotected))
}

/// Builds a [`CoseCountersignature`] field by field. Contracts see the builder as the
/// countersignature that [`build`](CoseCountersignatureBuilder::build) returns.
#[derive(Debug, Drop)]
pub struct CoseCountersignatureBuilder(CoseCountersignature);

impl Model for CoseCountersignatureBuilder {
    ghost use Rattle.std.specs.Coded.{codes};
    ghost use Rattle.coset_core.specs.contracts.countersignature.CoseCountersignature as contracts;
    ghost use Rattle.coset_core.specs.declared.countersignature.CoseCountersignature.{CoseCountersignature};

    ghost Value = { CoseCountersignature };

    ghost coded = { Prim.hlevel (codes, contracts.the_row.coded) };

    ghost view = { λ b. b.0 };

    ghost inverse = { λ v. record { 0 = v } };
}

impl CoseCountersignatureBuilder {
    /// Returns a builder of a countersignature without bytes and with empty headers. Allocates
    /// nothing.
    pub fn new(alloc: Global) -> CoseCountersignatureBuilder
        ensures { countersignature_view result ≡ empty_signature }
    {
        CoseCountersignatureBuilder(CoseCountersignature::new(alloc))
    }

    /// Returns the finished countersignature.
    pub fn build(self) -> CoseCountersignature
        ensures { result ≡ self }
    {
        self.0
    }

    /// Sets the protected header, without kept bytes.
    pub fn protected(mut self, header: Header) -> CoseCountersignatureBuilder
        ensures { countersignature_view result ≡ record (countersignature_view self) {
          protected = record { original = None; header = header_view header };
        } }
    {
        self.0.protected = protected_from_header(header);
        self
    }

    /// Sets the unprotected header.
    pub fn unprotected(mut self, header: Header) -> CoseCountersignatureBuilder
        ensures { countersignature_view result ≡ record
            (countersignature_view self) { unprotected = header_view header } }
    {
        self.0.unprotected = header;
        self
    }

    /// Sets the countersignature's bytes.
    pub fn signature(mut self, signature: Vec<u8>) -> CoseCountersignatureBuilder
        ensures { countersignature_view result ≡ record
            (countersignature_view self) { signature = signature.items } }
    {
        self.0.signature = signature;
        self
    }

    /// Calls [`signature`](CoseCountersignatureBuilder::signature) with a copy of these bytes.
    ///
    /// # Errors
    /// `OutOfMemory` if an allocation fails.
    pub fn signature_from(
        self,
        alloc: Global,
        signature: &[u8],
    ) -> Result<CoseCountersignatureBuilder>
        ensures ok { IfOk result (λ b. countersignature_view b
            ≡ record (countersignature_view self) { signature = signature.now }) }
        ensures memory { IfErr result (λ e. e ≡ OutOfMemory) }
    {
        Ok(self.signature(Vec::from_slice(alloc, signature)?))
    }
}
