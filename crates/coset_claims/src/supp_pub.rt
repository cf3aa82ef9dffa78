//! Public information for a key derivation, in addition to that about the parties (RFC 8152,
//! section 11.2).

ghost use Rattle.std.specs.Prelude.{◌≡◌, ◌≤◌, IfOk, IfErr, Some};
ghost use Rattle.coset_value.specs.Item.{Items};
ghost use Rattle.coset_codec.specs.declared.error.CoseError.TheVariants.{OutOfMemory};
ghost use Rattle.coset_codec.specs.Inputs.{AreWithin, State, length_left, state};
ghost use Rattle.coset_core.specs.Messages.{unread};
ghost use Rattle.coset_core.specs.Views.{header_view};
ghost use Rattle.coset_claims.specs.SuppPub.{ReadsOther, empty_supp_pub, supp_pub, supp_pub_view};

use coset_codec::read::{ArrayElements, Decoder};
use coset_codec::util::copy_bstr;
use coset_codec::write::{Encode, encode_three, encode_two};
use coset_codec::{Codec, Result};
use coset_core::{Header, ProtectedBstr, ProtectedHeader, ProtectedRef};
use std::alloc::{AllocError, Global};
use std::marker::Model;

/// Public information for a key derivation, in addition to that about the parties: `SuppPubInfo`
/// (RFC 8152, section 11.2).
///
/// ```cddl
/// SuppPubInfo = [ keyDataLength : uint, protected : empty_or_serialized_map, ? other : bstr ]
/// ```
#[derive(Debug, Drop, PartialEq, Eq)]
pub struct SuppPubInfo {
    /// The length of the derived key in bits: 0 to 2^64 - 1.
    pub key_data_length: u64,
    /// The protected header of the recipient for whom the key is derived.
    pub protected: ProtectedHeader,
    /// Other public information.
    pub other: Option<Vec<u8>>,
}

impl SuppPubInfo {
    /// Returns information with the length 0, an empty protected header, and nothing else.
    /// Allocates nothing.
    pub fn new(alloc: Global) -> SuppPubInfo
        ensures { supp_pub_view result ≡ empty_supp_pub }
    {
        SuppPubInfo {
            key_data_length: 0,
            protected: ProtectedHeader::new(alloc),
            other: None,
        }
    }
}

/// The expected item, for the error of a wrong number of elements.
const EXPECTED_ARRAY: &str = "array with 2 or 3 items";

/// Reads the last element, if there is one.
fn read_other(
    alloc: Global,
    elements: &mut ArrayElements,
    input: &mut Decoder<'_>,
) -> Result<Option<Vec<u8>>>
    ensures shrinks { length_left (state input.new) ≤ length_left (state input.old) }
    ensures reads { (vs : Items) (z : State) → AreWithin elements.old vs (state input.old) z
        → ReadsOther vs (state input.new) z elements.new result }
{
    if !elements.next(input) {
        return Ok(None);
    }
    Ok(Some(input.bytes(alloc, "bstr")?))
}

impl Codec for SuppPubInfo {
    ghost use Rattle.coset_claims.specs.ContextSame.{supp_pub_decides};
    ghost use Rattle.coset_claims.specs.SuppPub.{SuppPubView, supp_pub_laws};

    ghost View = { SuppPubView };

    ghost view = { supp_pub_view };

    ghost shape = { supp_pub };

    ghost laws = { supp_pub_laws };

    ghost equal = { supp_pub_decides };

    /// Reads the elements in order. If their number is wrong, the error says so. Otherwise the
    /// error is the fault of the last element that has one.
    fn read(alloc: Global, input: &mut Decoder<'_>) -> Result<SuppPubInfo> {
        let mut elements = input.enter_array("array")?;
        elements.next_required(input, EXPECTED_ARRAY)?;
        let key_data_length = input.uint("int");
        elements.next_required(input, EXPECTED_ARRAY)?;
        let protected = ProtectedBstr::read(alloc, input);
        let other = read_other(alloc, &mut elements, input);
        elements.end(input, EXPECTED_ARRAY)?;
        let other = other?;
        let ProtectedBstr(protected) = protected?;
        Ok(SuppPubInfo {
            key_data_length: key_data_length?,
            protected,
            other,
        })
    }

    fn size_hint(&self) -> usize {
        let room = self
            .key_data_length
            .encoded_size_hint()
            .saturating_add(ProtectedRef(&self.protected).encoded_size_hint());
        match &self.other {
            Some(other) => room.saturating_add(other.encoded_size_hint()),
            None => room,
        }
    }

    fn write(&self, alloc: Global, out: &mut Vec<u8>) -> Result<()> {
        let protected = ProtectedRef(&self.protected);
        match &self.other {
            Some(other) => encode_three(alloc, &self.key_data_length, &protected, other, out),
            None => encode_two(alloc, &self.key_data_length, &protected, out),
        }
    }
}

/// The same as [`SuppPubInfo::clone`], for generic code.
impl Clone for SuppPubInfo {
    ghost is_clone = { λ info copy. supp_pub_view copy ≡ supp_pub_view info };

    fn clone(&self) -> Result<SuppPubInfo, AllocError> {
        Ok(SuppPubInfo {
            key_data_length: self.key_data_length,
            protected: Clone::clone(&self.protected)?,
            other: copy_bstr(&self.other)?,
        })
    }
}

impl SuppPubInfo {
    /// Returns a copy of the information, with the same kept bytes of its protected header.
    ///
    /// # Errors
    /// `OutOfMemory` if an allocation fails.
    pub fn clone(&self) -> Result<SuppPubInfo>
        ensures copy { IfOk result (λ s. supp_pub_view s ≡ supp_pub_view self.now) }
        ensures memory { IfErr result (λ e. e ≡ OutOfMemory) }
    {
        Ok(Clone::clone(self)?)
    }
}

/// Builds a [`SuppPubInfo`], field by field. Contracts see the builder as the information
/// that [`build`](SuppPubInfoBuilder::build) returns.
#[derive(Debug, Drop)]
pub struct SuppPubInfoBuilder(SuppPubInfo);

impl Model for SuppPubInfoBuilder {
    ghost use Rattle.std.specs.Coded.{codes};
    ghost use Rattle.coset_claims.specs.contracts.supp_pub.SuppPubInfo as contracts;
    ghost use Rattle.coset_claims.specs.declared.supp_pub.SuppPubInfo.{SuppPubInfo};

    ghost Value = { SuppPubInfo };

    ghost coded = { Prim.hlevel (codes, contracts.the_row.coded) };

    ghost view = { λ b. b.0 };

    ghost inverse = { λ v. record { 0 = v } };
}

impl SuppPubInfoBuilder {
    /// Returns a builder of information with the length 0, an empty protected header, and nothing
    /// else. Allocates nothing.
    pub fn new(alloc: Global) -> SuppPubInfoBuilder
        ensures { supp_pub_view result ≡ empty_supp_pub }
    {
        SuppPubInfoBuilder(SuppPubInfo::new(alloc))
    }

    /// Returns the finished information.
    pub fn build(self) -> SuppPubInfo
        ensures { result ≡ self }
    {
        self.0
    }

    /// Sets the length of the derived key in bits.
    pub fn key_data_length(mut self, key_data_length: u64) -> SuppPubInfoBuilder
        ensures { supp_pub_view result ≡ record
            (supp_pub_view self) { key_data_length = key_data_length } }
    {
        self.0.key_data_length = key_data_length;
        self
    }

    /// Sets the protected header to `header`. It counts as not read, so it has no kept bytes.
    ///
    /// For a recipient that was read, set the field `protected` of the built information instead.
    /// It then keeps the received bytes.
    pub fn protected(mut self, header: Header) -> SuppPubInfoBuilder
        ensures { supp_pub_view result ≡ record
            (supp_pub_view self) { protected = unread (header_view header) } }
    {
        self.0.protected = ProtectedHeader {
            original_data: None,
            header,
        };
        self
    }

    /// Sets other public information.
    pub fn other(mut self, other: Vec<u8>) -> SuppPubInfoBuilder
        ensures { supp_pub_view result ≡ record (supp_pub_view self) { other = Some other.items } }
    {
        self.0.other = Some(other);
        self
    }

    /// Like [`other`](SuppPubInfoBuilder::other), but copies the bytes.
    ///
    /// # Errors
    /// `OutOfMemory` if an allocation fails.
    pub fn other_from(self, alloc: Global, other: &[u8]) -> Result<SuppPubInfoBuilder>
        ensures ok { IfOk result (λ b. supp_pub_view b
            ≡ record (supp_pub_view self) { other = Some other.now }) }
        ensures memory { IfErr result (λ e. e ≡ OutOfMemory) }
    {
        Ok(self.other(Vec::from_slice(alloc, other)?))
    }
}
