//! The context of a key derivation (RFC 8152, section 11.2).

ghost use Rattle.std.specs.Prelude.{◌≡◌, ◌≤◌, length, map, IfOk, IfErr, OnOk};
ghost use Rattle.coset_value.specs.Item.{Items};
ghost use Rattle.coset_cbor.specs.Least.{Extends};
ghost use Rattle.coset_iana.specs.Algorithm as algorithms;
ghost use Rattle.coset_codec.specs.declared.error.CoseError.TheVariants.{OutOfMemory};
ghost use Rattle.coset_codec.specs.Results.{Reads};
ghost use Rattle.coset_codec.specs.Encoding.{AppendsElements, Encodes};
ghost use Rattle.coset_codec.specs.Inputs.{AreWithin, ReadsAt, State, length_left, state};
ghost use Rattle.coset_codec.specs.Sources.{source_item};
ghost use Rattle.coset_codec.specs.Lists.{ReadsEach};
ghost use Rattle.coset_codec.specs.Shape.{bstr, images};
ghost use Rattle.coset_label.specs.LabelData.{assigned};
ghost use Rattle.coset_label.specs.Labels.{algorithm};
ghost use Rattle.coset_label.specs.Views.{algorithm_view};
ghost use Rattle.coset_claims.specs.Context.{push_supp_priv_info, context, context_view, empty_context, four_elements_and};
ghost use Rattle.coset_claims.specs.Party.{party_view};
ghost use Rattle.coset_claims.specs.SuppPub.{supp_pub_view};

use crate::party::PartyInfo;
use crate::supp_pub::SuppPubInfo;
use coset_cbor::ser::{write_array_head, write_bytes};
use coset_codec::read::{ArrayElements, DecodeElements, Decoder, decode_array};
use coset_codec::write::{Array, Encode};
use coset_codec::{Codec, CoseError, ItemSource, Result};
use coset_core::{Algorithm, RegisteredLabelWithPrivate, iana};
use std::alloc::{AllocError, Global};
use std::marker::Model;

/// The context of a key derivation: `COSE_KDF_Context` (RFC 8152, section 11.2).
///
/// Its builder sets its parts, and its functions return them. Contracts see five parts: the
/// algorithm, the two parties, the public information, and the byte strings of private information.
///
/// ```cddl
/// COSE_KDF_Context = [
///     AlgorithmID : int / tstr,
///     PartyUInfo : PartyInfo,
///     PartyVInfo : PartyInfo,
///     SuppPubInfo : SuppPubInfo,
///     * SuppPrivInfo : bstr
/// ]
/// ```
///
/// The RFC allows at most one byte string of private information, but any number is read and
/// written.
#[derive(Debug, Drop, PartialEq, Eq)]
pub struct CoseKdfContext {
    algorithm_id: Algorithm,
    party_u_info: PartyInfo,
    party_v_info: PartyInfo,
    supp_pub_info: SuppPubInfo,
    supp_priv_info: Vec<Vec<u8>>,
}

impl CoseKdfContext {
    /// Returns a context with the reserved algorithm and without any information. Allocates
    /// nothing.
    pub fn new(alloc: Global) -> CoseKdfContext
        ensures { context_view result ≡ empty_context }
    {
        CoseKdfContext {
            algorithm_id: RegisteredLabelWithPrivate::Assigned(iana::Algorithm::Reserved),
            party_u_info: PartyInfo::new(),
            party_v_info: PartyInfo::new(),
            supp_pub_info: SuppPubInfo::new(alloc),
            supp_priv_info: Vec::new(alloc),
        }
    }

    /// Returns the algorithm for which the key is derived.
    pub fn algorithm_id(&self) -> &Algorithm
        ensures { algorithm_view result.now ≡ (context_view self.now).algorithm_id }
    {
        &self.algorithm_id
    }

    /// Returns the information about party U.
    pub fn party_u_info(&self) -> &PartyInfo
        ensures { party_view result.now ≡ (context_view self.now).party_u_info }
    {
        &self.party_u_info
    }

    /// Returns the information about party V.
    pub fn party_v_info(&self) -> &PartyInfo
        ensures { party_view result.now ≡ (context_view self.now).party_v_info }
    {
        &self.party_v_info
    }

    /// Returns the public information.
    pub fn supp_pub_info(&self) -> &SuppPubInfo
        ensures { supp_pub_view result.now ≡ (context_view self.now).supp_pub_info }
    {
        &self.supp_pub_info
    }

    /// Returns the byte strings of private information, in order.
    pub fn supp_priv_info(&self) -> &[Vec<u8>]
        ensures { map (λ b. b.items) result.now ≡ (context_view self.now).supp_priv_info }
    {
        &self.supp_priv_info
    }
}

/// Reads one byte string.
fn read_byte_string(alloc: Global, source: ItemSource<'_>) -> Result<Vec<u8>>
    ensures { Reads bstr (λ b. b.items) (source_item source.entry) result }
{
    let mut input = Decoder::new(source);
    input.bytes(alloc, "bstr")
}

/// Reads byte strings up to the end of an array. If several have a fault, the last fault is
/// returned.
fn read_byte_strings(
    alloc: Global,
    elements: &mut ArrayElements,
    input: &mut Decoder<'_>,
) -> Result<Vec<Vec<u8>>>
    ensures shrinks { length_left (state input.new) ≤ length_left (state input.old) }
    ensures reads { (vs : Items) (z : State) → AreWithin elements.old vs (state input.old) z
        → ((left : Items) × AreWithin elements.new left (state input.new) z)
        × ReadsEach bstr (λ b. b.items) vs result }
{
    let mut all = Vec::new(alloc);
    let mut fault = None;
    while elements.next(input) {
        match read_byte_string(alloc, input.take()?) {
            Ok(bytes) => all.push(bytes)?,
            Err(CoseError::OutOfMemory) => return Err(CoseError::OutOfMemory),
            Err(error) => fault = Some(error),
        }
    }
    match fault {
        None => Ok(all),
        Some(error) => Err(error),
    }
}

/// The byte strings of private information, up to the end of the array.
#[derive(Drop)]
struct SuppPrivInfo(Vec<Vec<u8>>);

impl DecodeElements for SuppPrivInfo {
    ghost use Rattle.std.specs.Prelude.{List, ℕ};
    ghost use Rattle.coset_codec.specs.Shape.{any_number};
    ghost use Rattle.coset_codec.specs.ShapeLaws.{any_number_laws, bstr_laws};

    ghost View = { List (List ℕ) };

    ghost view = { λ s. map (λ b. b.items) s.0.items };

    ghost elements = { any_number bstr };

    ghost fits = { (any_number_laws bstr bstr_laws).fits };

    fn decode_elements(
        alloc: Global,
        array: &mut ArrayElements,
        input: &mut Decoder<'_>,
        _want: &'static str,
    ) -> Result<SuppPrivInfo> {
        let all = read_byte_strings(alloc, array, input);
        array.finish(input);
        Ok(SuppPrivInfo(all?))
    }
}

impl Codec for CoseKdfContext {
    ghost use Rattle.coset_codec.specs.EqDecides.{vec_decides, lists_decides};
    ghost use Rattle.coset_label.specs.SameLaws.{algorithm_decides};
    ghost use Rattle.coset_claims.specs.ContextSame.{context_decides, party_decides, supp_pub_decides};
    ghost use Rattle.coset_claims.specs.Context.{ContextView, context_laws};

    ghost View = { ContextView };

    ghost view = { context_view };

    ghost shape = { context };

    ghost laws = { context_laws };

    ghost equal = { λ a b. context_decides (algorithm_decides a.algorithm_id b.algorithm_id)
        (party_decides a.party_u_info b.party_u_info) (party_decides a.party_v_info b.party_v_info)
        (supp_pub_decides a.supp_pub_info b.supp_pub_info)
        (lists_decides (λ b. b.items) _ vec_decides a.supp_priv_info.items
        b.supp_priv_info.items) };

    /// Reads the elements of a context in order. If there are too few elements, the error says so.
    /// Otherwise the error is the fault of the last element that has one.
    #[tactic(auto, unfolding(coset_label::specs::Labels::algorithm))]
    fn read(alloc: Global, input: &mut Decoder<'_>) -> Result<CoseKdfContext> {
        match decode_array(alloc, input, "array with at least 4 items") {
            Ok((algorithm_id, (party_u_info, (party_v_info, (supp_pub_info, private))))) => {
                let SuppPrivInfo(supp_priv_info) = private;
                Ok(CoseKdfContext {
                    algorithm_id,
                    party_u_info,
                    party_v_info,
                    supp_pub_info,
                    supp_priv_info,
                })
            }
            Err(error) => Err(error),
        }
    }

    /// Leaves out the algorithm, because the hints of the other elements have room for its number.
    fn size_hint(&self) -> usize {
        self.party_u_info
            .encoded_size_hint()
            .saturating_add(self.party_v_info.encoded_size_hint())
            .saturating_add(self.supp_pub_info.encoded_size_hint())
            .saturating_add(Array(&self.supp_priv_info).encoded_size_hint())
    }

    #[tactic(auto, unfolding(coset_label::specs::Labels::algorithm))]
    fn write(&self, alloc: Global, out: &mut Vec<u8>) -> Result<()> {
        encode_four_and_more(
            alloc,
            &self.algorithm_id,
            &self.party_u_info,
            &self.party_v_info,
            &self.supp_pub_info,
            &self.supp_priv_info,
            out,
        )
    }
}

/// Appends these byte strings, one after the other.
fn write_byte_strings(all: &[Vec<u8>], out: &mut Vec<u8>) -> Result<()>
    ensures ok { OnOk result (AppendsElements (images bstr.image (map (λ b. b.items) all.now))
        (length all.now) out.old.items out.new.items) }
    ensures memory { IfErr result (λ e. e ≡ OutOfMemory) }
    ensures kept { Extends out.old.items out.new.items }
{
    for bytes in all {
        write_bytes(bytes, out)?;
    }
    Ok(())
}

/// Appends an array of the four elements, followed by these byte strings.
///
/// # Errors
/// The error of the first element that has one.
fn encode_four_and_more<A: Encode, B: Encode, C: Encode, D: Encode>(
    alloc: Global,
    a: &A,
    b: &B,
    c: &C,
    d: &D,
    more: &Vec<Vec<u8>>,
    out: &mut Vec<u8>,
) -> Result<()>
    ensures written { Encodes (four_elements_and (A.image a.now) (B.image b.now) (C.image c.now)
        (D.image d.now) (images bstr.image (map (λ b. b.items) more.now.items)))
        out.old.items out.new.items result }
    ensures kept { Extends out.old.items out.new.items }
{
    write_array_head(more.len() + 4, out)?;
    a.append(alloc, out)?;
    b.append(alloc, out)?;
    c.append(alloc, out)?;
    d.append(alloc, out)?;
    write_byte_strings(more, out)?;
    Ok(())
}

/// The same as [`CoseKdfContext::clone`], for generic code.
impl Clone for CoseKdfContext {
    ghost is_clone = { λ context copy. context_view copy ≡ context_view context };

    fn clone(&self) -> Result<CoseKdfContext, AllocError> {
        Ok(CoseKdfContext {
            algorithm_id: Clone::clone(&self.algorithm_id)?,
            party_u_info: Clone::clone(&self.party_u_info)?,
            party_v_info: Clone::clone(&self.party_v_info)?,
            supp_pub_info: Clone::clone(&self.supp_pub_info)?,
            supp_priv_info: self.supp_priv_info.clone()?,
        })
    }
}

impl CoseKdfContext {
    /// Returns a copy of the context, with the same kept bytes of its protected header.
    ///
    /// # Errors
    /// `OutOfMemory` if an allocation fails.
    pub fn clone(&self) -> Result<CoseKdfContext>
        ensures copy { IfOk result (λ c. context_view c ≡ context_view self.now) }
        ensures memory { IfErr result (λ e. e ≡ OutOfMemory) }
    {
        Ok(Clone::clone(self)?)
    }
}

/// Builds a [`CoseKdfContext`], part by part. Contracts see the builder as the context
/// that [`build`](CoseKdfContextBuilder::build) returns.
#[derive(Debug, Drop)]
pub struct CoseKdfContextBuilder(CoseKdfContext);

impl Model for CoseKdfContextBuilder {
    ghost use Rattle.std.specs.Coded.{codes};
    ghost use Rattle.coset_claims.specs.contracts.context.CoseKdfContext as contracts;
    ghost use Rattle.coset_claims.specs.declared.context.CoseKdfContext.{CoseKdfContext};

    ghost Value = { CoseKdfContext };

    ghost coded = { Prim.hlevel (codes, contracts.the_row.coded) };

    ghost view = { λ b. b.0 };

    ghost inverse = { λ v. record { 0 = v } };
}

impl CoseKdfContextBuilder {
    /// Returns a builder of a context with the reserved algorithm and without any information.
    /// Allocates nothing.
    pub fn new(alloc: Global) -> CoseKdfContextBuilder
        ensures { context_view result ≡ empty_context }
    {
        CoseKdfContextBuilder(CoseKdfContext::new(alloc))
    }

    /// Returns the finished context.
    pub fn build(self) -> CoseKdfContext
        ensures { result ≡ self }
    {
        self.0
    }

    /// Sets the algorithm for which the key is derived.
    pub fn algorithm(mut self, algorithm: iana::Algorithm) -> CoseKdfContextBuilder
        ensures { context_view result ≡ record
            (context_view self) { algorithm_id = assigned (algorithms.number algorithm) } }
    {
        self.0.algorithm_id = RegisteredLabelWithPrivate::Assigned(algorithm);
        self
    }

    /// Sets the information about party U.
    pub fn party_u_info(mut self, party: PartyInfo) -> CoseKdfContextBuilder
        ensures { context_view result ≡ record
            (context_view self) { party_u_info = party_view party } }
    {
        self.0.party_u_info = party;
        self
    }

    /// Sets the information about party V.
    pub fn party_v_info(mut self, party: PartyInfo) -> CoseKdfContextBuilder
        ensures { context_view result ≡ record
            (context_view self) { party_v_info = party_view party } }
    {
        self.0.party_v_info = party;
        self
    }

    /// Sets the public information.
    pub fn supp_pub_info(mut self, info: SuppPubInfo) -> CoseKdfContextBuilder
        ensures { context_view result ≡ record
            (context_view self) { supp_pub_info = supp_pub_view info } }
    {
        self.0.supp_pub_info = info;
        self
    }

    /// Adds a byte string of private information, after the others.
    ///
    /// # Errors
    /// `OutOfMemory` if an allocation fails.
    pub fn add_supp_priv_info(mut self, info: Vec<u8>) -> Result<CoseKdfContextBuilder>
        ensures ok { IfOk result (λ b. context_view b
            ≡ push_supp_priv_info info.items (context_view self)) }
        ensures memory { IfErr result (λ e. e ≡ OutOfMemory) }
    {
        self.0.supp_priv_info.push(info)?;
        Ok(self)
    }
}
