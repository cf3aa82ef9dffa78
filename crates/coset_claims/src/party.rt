//! The parties of a key agreement (RFC 8152, section 11.2).

ghost use Rattle.std.specs.Prelude.{◌≡◌, ◌↔◌, IsTrue, IfOk, IfErr, Some, option_map};
ghost use Rattle.std.specs.Ordering.{on};
ghost use Rattle.std.specs.Cmp.{on_equiv, on_per, partial_equiv_from_equiv};
ghost use Rattle.coset_codec.specs.declared.error.CoseError.TheVariants.{OutOfMemory};
ghost use Rattle.coset_claims.specs.Party.{empty_party, nonce, nonce_or_nil, nonce_view, party, party_view};
ghost use Rattle.coset_claims.specs.ContextSame.{nonce_eq, nonce_eq_equiv};

use coset_cbor::value::Value;
use coset_codec::read::{Decode, Decoder, decode_array};
use coset_codec::util::copy_bstr;
use coset_codec::write::{Encode, encode_three};
use coset_codec::{Codec, Result};
use std::alloc::{AllocError, Global};
use std::marker::Model;

/// A nonce that a party contributes (RFC 8152, section 11.2).
///
/// ```cddl
/// nonce = bstr / int
/// ```
///
/// Reading refuses an integer outside the range of `i64`, with `OutOfRangeIntegerValue`.
#[derive(Debug, Drop)]
pub enum Nonce {
    /// A byte string.
    Bytes(Vec<u8>),
    /// An integer.
    Integer(i64),
}

/// A nonce, or null if there is none.
#[derive(Drop)]
struct NonceOrNil(Option<Nonce>);

impl Decode for NonceOrNil {
    ghost use Rattle.std.specs.Prelude.{Option};
    ghost use Rattle.coset_claims.specs.Party.{NonceView};

    ghost View = { Option NonceView };

    ghost view = { λ n. option_map nonce_view n.0 };

    ghost shape = { nonce_or_nil };

    fn decode(alloc: Global, input: &mut Decoder<'_>) -> Result<NonceOrNil> {
        if input.null() {
            return Ok(NonceOrNil(None));
        }
        let nonce = match input.integer() {
            Some(number) => Nonce::Integer(i64::try_from(number)?),
            None => Nonce::Bytes(input.bytes(alloc, "bstr / int / nil")?),
        };
        Ok(NonceOrNil(Some(nonce)))
    }
}

/// A byte string, or null if there is none.
#[derive(Drop)]
struct BstrOrNil(Option<Vec<u8>>);

impl Decode for BstrOrNil {
    ghost use Rattle.std.specs.Prelude.{List, Option, ℕ};
    ghost use Rattle.coset_codec.specs.Shape.{bstr, or_nil};

    ghost View = { Option (List ℕ) };

    ghost view = { λ b. option_map (λ v. v.items) b.0 };

    ghost shape = { or_nil bstr };

    fn decode(alloc: Global, input: &mut Decoder<'_>) -> Result<BstrOrNil> {
        Ok(BstrOrNil(input.bytes_or_nil(alloc, "bstr / nil")?))
    }
}

impl Encode for Nonce {
    ghost image = { λ n. nonce.image (nonce_view n) };

    fn encoded_size_hint(&self) -> usize {
        match self {
            Nonce::Bytes(bytes) => bytes.encoded_size_hint(),
            Nonce::Integer(number) => number.encoded_size_hint(),
        }
    }

    fn encode(&self, alloc: Global, out: &mut Vec<u8>) -> Result<()> {
        match self {
            Nonce::Bytes(bytes) => bytes.encode(alloc, out),
            Nonce::Integer(number) => number.encode(alloc, out),
        }
    }
}

/// An optional nonce, which is written as null if there is none.
#[derive(Clone, Copy)]
struct NoncePlace<'a>(&'a Option<Nonce>);

impl Encode for NoncePlace<'_> {
    ghost image = { λ p. nonce_or_nil.image (option_map nonce_view p.0.now) };

    fn encoded_size_hint(&self) -> usize {
        match self.0 {
            Some(nonce) => nonce.encoded_size_hint(),
            None => 1,
        }
    }

    fn encode(&self, alloc: Global, out: &mut Vec<u8>) -> Result<()> {
        match self.0 {
            Some(nonce) => nonce.encode(alloc, out),
            None => Value::Null.encode(alloc, out),
        }
    }
}

/// The same as [`Nonce::clone`], for generic code.
impl Clone for Nonce {
    ghost is_clone = { λ nonce copy. nonce_view copy ≡ nonce_view nonce };

    fn clone(&self) -> Result<Nonce, AllocError> {
        match self {
            Nonce::Bytes(bytes) => Ok(Nonce::Bytes(Vec::from_slice(*bytes.allocator(), bytes)?)),
            Nonce::Integer(number) => Ok(Nonce::Integer(*number)),
        }
    }
}

impl Nonce {
    /// Returns a copy of the nonce.
    ///
    /// # Errors
    /// `OutOfMemory` if an allocation fails.
    pub fn clone(&self) -> Result<Nonce>
        ensures copy { IfOk result (λ n. nonce_view n ≡ nonce_view self.now) }
        ensures memory { IfErr result (λ e. e ≡ OutOfMemory) }
    {
        Ok(Clone::clone(self)?)
    }
}

/// Nonces are equal if their integers are, or if their bytes are. An integer never equals bytes.
impl PartialEq for Nonce {
    ghost eq = { on nonce_view nonce_eq };

    ghost laws = { on_per nonce_view (partial_equiv_from_equiv nonce_eq_equiv) };

    fn eq(&self, other: &Nonce) -> bool
        ensures answers { result ≡ nonce_eq (nonce_view self.now) (nonce_view other.now) }
        ensures equal { IsTrue result ↔ (nonce_view self.now ≡ nonce_view other.now) }
    {
        same_nonce(self, other)
    }
}

impl Eq for Nonce {
    ghost laws = { on_equiv nonce_view nonce_eq_equiv };
}

/// Returns true if the nonces are equal.
fn same_nonce(a: &Nonce, b: &Nonce) -> bool
    ensures { result ≡ nonce_eq (nonce_view a.now) (nonce_view b.now) }
{
    match (a, b) {
        (Nonce::Bytes(a), Nonce::Bytes(b)) => *a == *b,
        (Nonce::Integer(a), Nonce::Integer(b)) => *a == *b,
        _ => false,
    }
}

/// Information about a party of a key agreement (RFC 8152, section 11.2).
///
/// ```cddl
/// PartyInfo = [ identity : bstr / nil, nonce : bstr / int / nil, other : bstr / nil ]
/// ```
#[derive(Debug, Drop, PartialEq, Eq)]
pub struct PartyInfo {
    /// The identity of the party.
    pub identity: Option<Vec<u8>>,
    /// The nonce of the party.
    pub nonce: Option<Nonce>,
    /// Other information about the party.
    pub other: Option<Vec<u8>>,
}

impl PartyInfo {
    /// Returns a party without any information. Allocates nothing.
    pub fn new() -> PartyInfo
        ensures { party_view result ≡ empty_party }
    {
        PartyInfo {
            identity: None,
            nonce: None,
            other: None,
        }
    }
}

impl Default for PartyInfo {
    ghost is_default = { λ p. party_view p ≡ empty_party };

    /// The same as [`PartyInfo::new`].
    fn default() -> PartyInfo {
        PartyInfo::new()
    }
}

impl Codec for PartyInfo {
    ghost use Rattle.coset_claims.specs.ContextSame.{party_decides};
    ghost use Rattle.coset_claims.specs.Party.{PartyView, party_laws};

    ghost View = { PartyView };

    ghost view = { party_view };

    ghost shape = { party };

    ghost laws = { party_laws };

    ghost equal = { party_decides };

    fn read(alloc: Global, input: &mut Decoder<'_>) -> Result<PartyInfo> {
        match decode_array(alloc, input, "array with 3 items") {
            Ok((BstrOrNil(identity), (NonceOrNil(nonce), (BstrOrNil(other), ())))) => {
                Ok(PartyInfo {
                    identity,
                    nonce,
                    other,
                })
            }
            Err(error) => Err(error),
        }
    }

    fn size_hint(&self) -> usize {
        self.identity
            .encoded_size_hint()
            .saturating_add(NoncePlace(&self.nonce).encoded_size_hint())
            .saturating_add(self.other.encoded_size_hint())
    }

    fn write(&self, alloc: Global, out: &mut Vec<u8>) -> Result<()> {
        let nonce = NoncePlace(&self.nonce);
        encode_three(alloc, &self.identity, &nonce, &self.other, out)
    }
}

/// Returns a copy of an optional nonce.
fn copy_nonce(nonce: &Option<Nonce>) -> Result<Option<Nonce>, AllocError>
    ensures { IfOk result (λ o. option_map nonce_view o ≡ option_map nonce_view nonce.now) }
{
    match nonce {
        Some(nonce) => Ok(Some(Clone::clone(nonce)?)),
        None => Ok(None),
    }
}

/// The same as [`PartyInfo::clone`], for generic code.
impl Clone for PartyInfo {
    ghost is_clone = { λ party copy. party_view copy ≡ party_view party };

    fn clone(&self) -> Result<PartyInfo, AllocError> {
        Ok(PartyInfo {
            identity: copy_bstr(&self.identity)?,
            nonce: copy_nonce(&self.nonce)?,
            other: copy_bstr(&self.other)?,
        })
    }
}

impl PartyInfo {
    /// Returns a copy of the party.
    ///
    /// # Errors
    /// `OutOfMemory` if an allocation fails.
    pub fn clone(&self) -> Result<PartyInfo>
        ensures copy { IfOk result (λ p. party_view p ≡ party_view self.now) }
        ensures memory { IfErr result (λ e. e ≡ OutOfMemory) }
    {
        Ok(Clone::clone(self)?)
    }
}

/// Builds a [`PartyInfo`], field by field. Contracts see the builder as the party
/// that [`build`](PartyInfoBuilder::build) returns.
#[derive(Debug, Drop)]
pub struct PartyInfoBuilder(PartyInfo);

impl Model for PartyInfoBuilder {
    ghost use Rattle.std.specs.Coded.{codes};
    ghost use Rattle.coset_claims.specs.contracts.party.PartyInfo as contracts;
    ghost use Rattle.coset_claims.specs.declared.party.PartyInfo.{PartyInfo};

    ghost Value = { PartyInfo };

    ghost coded = { Prim.hlevel (codes, contracts.the_row.coded) };

    ghost view = { λ b. b.0 };

    ghost inverse = { λ v. record { 0 = v } };
}

impl Default for PartyInfoBuilder {
    ghost is_default = { λ b. party_view b ≡ empty_party };

    /// The same as [`PartyInfoBuilder::new`].
    fn default() -> PartyInfoBuilder {
        PartyInfoBuilder::new()
    }
}

impl PartyInfoBuilder {
    /// Returns a builder of a party without any information. Allocates nothing.
    pub fn new() -> PartyInfoBuilder
        ensures { party_view result ≡ empty_party }
    {
        PartyInfoBuilder(PartyInfo::new())
    }

    /// Returns the finished party.
    pub fn build(self) -> PartyInfo
        ensures { result ≡ self }
    {
        self.0
    }

    /// Sets the identity of the party.
    pub fn identity(mut self, identity: Vec<u8>) -> PartyInfoBuilder
        ensures { party_view result ≡ record (party_view self) { identity = Some identity.items } }
    {
        self.0.identity = Some(identity);
        self
    }

    /// Like [`identity`](PartyInfoBuilder::identity), but copies the bytes.
    ///
    /// # Errors
    /// `OutOfMemory` if an allocation fails.
    pub fn identity_from(self, alloc: Global, identity: &[u8]) -> Result<PartyInfoBuilder>
        ensures ok { IfOk result (λ b. party_view b
            ≡ record (party_view self) { identity = Some identity.now }) }
        ensures memory { IfErr result (λ e. e ≡ OutOfMemory) }
    {
        Ok(self.identity(Vec::from_slice(alloc, identity)?))
    }

    /// Sets the nonce of the party.
    pub fn nonce(mut self, nonce: Nonce) -> PartyInfoBuilder
        ensures { party_view result ≡ record
            (party_view self) { nonce = Some (nonce_view nonce) } }
    {
        self.0.nonce = Some(nonce);
        self
    }

    /// Sets other information about the party.
    pub fn other(mut self, other: Vec<u8>) -> PartyInfoBuilder
        ensures { party_view result ≡ record (party_view self) { other = Some other.items } }
    {
        self.0.other = Some(other);
        self
    }

    /// Like [`other`](PartyInfoBuilder::other), but copies the bytes.
    ///
    /// # Errors
    /// `OutOfMemory` if an allocation fails.
    pub fn other_from(self, alloc: Global, other: &[u8]) -> Result<PartyInfoBuilder>
        ensures ok { IfOk result (λ b. party_view b
            ≡ record (party_view self) { other = Some other.now }) }
        ensures memory { IfErr result (λ e. e ≡ OutOfMemory) }
    {
        Ok(self.other(Vec::from_slice(alloc, other)?))
    }
}
