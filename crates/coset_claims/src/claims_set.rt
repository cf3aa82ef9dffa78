//! Claims sets: the claims of CBOR web tokens (RFC 8392, sections 3 and 4).

ghost use Rattle.std.specs.Prelude.{◌≡◌, ◌≤◌, ◌<◌, ◌==◌, not, string_bytes, IsTrue, IfOk, IfErr, OnOk, OnErr, Some, option_map};
ghost use Rattle.std.specs.Map.{keys_of, lookup};
ghost use Rattle.coset_value.specs.View.{value_item};
ghost use Rattle.coset_iana.specs.CwtClaimName as claim_names;
ghost use Rattle.coset_iana.specs.WithPrivateRange.{is_private_use};
ghost use Rattle.coset_codec.specs.declared.error.CoseError.TheVariants.{OutOfMemory};
ghost use Rattle.coset_codec.specs.Errors.{UnlessMemory};
ghost use Rattle.coset_codec.specs.Inputs.{ReadsAt, length_left, state};
ghost use Rattle.coset_codec.specs.Maps.{Adds, Refuses, are_distinct};
ghost use Rattle.coset_label.specs.LabelData.{assigned, text_name, private_use};
ghost use Rattle.coset_claims.specs.Timestamp.{timestamp_view};
ghost use Rattle.coset_claims.specs.Claims.{IsOtherClaim, push_claim, claim_name, claims, claims_view, fields, name_view, names, no_claims, parts_of, same_label};

use crate::timestamp::Timestamp;
use coset_cbor::value::Value;
use coset_codec::read::{Decoder, MapEntries, MapVisitor, read_map, set_field};
use coset_codec::write::{Encode, write_optional, write_pairs_head, write_rest};
use coset_codec::{Codec, Result, find_value, has_repeats};
use coset_iana::{CwtClaimName, EnumI64, WithPrivateRange};
use coset_label::{ClaimName, RegisteredLabelWithPrivate};
use std::alloc::{AllocError, Global};
use std::marker::Model;

/// The estimated length of an encoded claims set in bytes, without its strings and other claims.
const HEADS: usize = 40;

/// The estimated length of another claim in bytes: a name and a short value.
const CLAIM: usize = 8;

/// A claims set (RFC 8392, section 2).
///
/// ```cddl
/// claims_set = {
///     ? 1 => tstr,                   ; iss, issuer
///     ? 2 => tstr,                   ; sub, subject
///     ? 3 => tstr,                   ; aud, audience
///     ? 4 => timestamp,              ; exp, expiration time
///     ? 5 => timestamp,              ; nbf, not before
///     ? 6 => timestamp,              ; iat, issued at
///     ? 7 => bstr,                   ; cti, CWT ID
///     * (int / tstr) => any
/// }
/// ```
///
/// The number of another claim must be registered or for private use (RFC 8392, section 9.1).
/// Reading refuses other numbers with `UnregisteredIanaNonPrivateValue`. It refuses an array of
/// audiences with `UnexpectedItem`. [`ClaimsSet::known_from_slice`] reads both.
#[derive(Debug, Drop, PartialEq, Eq)]
pub struct ClaimsSet {
    /// The issuer of the token (claim 1).
    pub issuer: Option<String>,
    /// The subject of the claims (claim 2).
    pub subject: Option<String>,
    /// The audience that the token is meant for (claim 3).
    pub audience: Option<String>,
    /// The time from which the token isn't valid any more (claim 4).
    pub expiration_time: Option<Timestamp>,
    /// The time before which the token isn't valid yet (claim 5).
    pub not_before: Option<Timestamp>,
    /// The time at which the token was issued (claim 6).
    pub issued_at: Option<Timestamp>,
    /// The token's identifier, which may be empty (claim 7).
    pub cwt_id: Option<Vec<u8>>,
    /// The other claims, in order.
    pub rest: Vec<(ClaimName, Value)>,
}

impl ClaimsSet {
    /// Returns a claims set without claims. Allocates nothing.
    pub fn new(alloc: Global) -> ClaimsSet
        ensures { claims_view result ≡ no_claims }
    {
        ClaimsSet {
            issuer: None,
            subject: None,
            audience: None,
            expiration_time: None,
            not_before: None,
            issued_at: None,
            cwt_id: None,
            rest: Vec::new(alloc),
        }
    }
}

/// Returns the estimated length of an encoded value, or 0 if there is none.
fn size_hint_of<T: Encode>(value: &Option<T>) -> usize {
    match value {
        Some(value) => value.encoded_size_hint(),
        None => 0,
    }
}

/// Returns true if `name` is the name of `claim`.
fn is_claim(name: &ClaimName, claim: CwtClaimName) -> bool
    ensures { result ≡ same_label (assigned (claim_names.number claim)) (name_view name.now) }
{
    match name {
        RegisteredLabelWithPrivate::Assigned(found) => found.to_i64() == claim.to_i64(),
        _ => false,
    }
}

/// Reads the value of the claim `name` into the claims set.
///
/// Repeated names in `rest` are not checked here. The input is left just after the value, also
/// after an error.
///
/// # Errors
/// - `OutOfMemory` if an allocation fails.
/// - `DuplicateMapKey` if the field has a value already.
/// - A fault in the value.
///
/// The claims are then unchanged.
fn set_claim(
    claims: &mut ClaimsSet,
    alloc: Global,
    name: ClaimName,
    input: &mut Decoder<'_>,
) -> Result<()>
    ensures shrinks { length_left (state input.new) ≤ length_left (state input.old) }
    ensures takes { ReadsAt (state input.old) (state input.new) (λ v. OnOk result
        (Adds names fields (name_view name) v
        (parts_of (claims_view claims.old)) (parts_of (claims_view claims.new)))) }
    ensures refused { ReadsAt (state input.old) (state input.new) (λ v. IfErr result
        (λ e. UnlessMemory e (Refuses names fields (name_view name) v
        (parts_of (claims_view claims.old))))) }
    ensures kept { OnErr result (claims_view claims.new ≡ claims_view claims.old) }
{
    if is_claim(&name, CwtClaimName::Iss) {
        return set_field(alloc, &mut claims.issuer, input);
    }
    if is_claim(&name, CwtClaimName::Sub) {
        return set_field(alloc, &mut claims.subject, input);
    }
    if is_claim(&name, CwtClaimName::Aud) {
        return set_field(alloc, &mut claims.audience, input);
    }
    if is_claim(&name, CwtClaimName::Exp) {
        return set_field(alloc, &mut claims.expiration_time, input);
    }
    if is_claim(&name, CwtClaimName::Nbf) {
        return set_field(alloc, &mut claims.not_before, input);
    }
    if is_claim(&name, CwtClaimName::Iat) {
        return set_field(alloc, &mut claims.issued_at, input);
    }
    if is_claim(&name, CwtClaimName::Cti) {
        return set_field(alloc, &mut claims.cwt_id, input);
    }
    let value = input.value(alloc)?;
    claims.rest.push((name, value))?;
    Ok(())
}

/// A claims set is read claim by claim.
impl MapVisitor for ClaimsSet {
    ghost use Rattle.coset_label.specs.LabelData.{RegisteredLabelView};
    ghost use Rattle.coset_claims.specs.Claims.{FieldTuple};
    ghost use Rattle.coset_claims.specs.ClaimsLaws.{fields_laws, names_laws};

    type Label = ClaimName;

    ghost LabelView = { RegisteredLabelView };

    ghost FieldValues = { FieldTuple };

    ghost names = { names };

    ghost fields = { fields };

    ghost named = { name_view };

    ghost view = { λ c. parts_of (claims_view c) };

    ghost lawful_names = { names_laws };

    ghost lawful_fields = { fields_laws };

    #[tactic(auto, unfolding(crate::specs::Claims::claim_name))]
    fn next_label(
        alloc: Global,
        pairs: &mut MapEntries,
        input: &mut Decoder<'_>,
    ) -> Result<Option<ClaimName>> {
        pairs.next_key(alloc, input)
    }

    fn add(&mut self, alloc: Global, name: ClaimName, input: &mut Decoder<'_>) -> Result<()> {
        set_claim(self, alloc, name, input)
    }

    fn repeats(&self, alloc: Global) -> Result<bool>
        ensures repeats { IfOk result (λ b. b ≡ not
            (are_distinct names.same (keys_of (claims_view self.now).rest))) }
        ensures memory { IfErr result (λ e. e ≡ OutOfMemory) }
    {
        has_repeats(alloc, &self.rest)
    }
}

impl Codec for ClaimsSet {
    ghost use Rattle.std.specs.Cmp.Lexicographic.{bytes_decides};
    ghost use Rattle.coset_codec.specs.EqDecides.{bstr_decides, lists_decides, options_decides};
    ghost use Rattle.coset_claims.specs.ClaimsEquality.{claim_eq-decides, claims_decides};
    ghost use Rattle.coset_claims.specs.Timestamp.{timestamp_eq-decides, timestamp_view};
    ghost use Rattle.coset_claims.specs.Claims.{ClaimsView, entry_view};
    ghost use Rattle.coset_claims.specs.ClaimsLaws.{claims_laws};

    ghost View = { ClaimsView };

    ghost view = { claims_view };

    ghost shape = { claims };

    ghost laws = { claims_laws };

    ghost equal = { λ a b. let text = options_decides string_bytes _
        (λ x y. bytes_decides (string_bytes x) (string_bytes y)) in
        let time = options_decides timestamp_view _
        (λ x y. timestamp_eq-decides (timestamp_view x) (timestamp_view y)) in
        claims_decides (text a.issuer b.issuer) (text a.subject b.subject)
        (text a.audience b.audience) (time a.expiration_time b.expiration_time)
        (time a.not_before b.not_before) (time a.issued_at b.issued_at)
        (bstr_decides a.cwt_id b.cwt_id)
        (lists_decides entry_view _ (λ x y. claim_eq-decides (entry_view x) (entry_view y))
        a.rest.items b.rest.items) };

    #[tactic(auto, unfolding(crate::specs::Claims::claims))]
    fn read(alloc: Global, input: &mut Decoder<'_>) -> Result<ClaimsSet> {
        let mut claims = ClaimsSet::new(alloc);
        read_map(alloc, input, &mut claims)?;
        Ok(claims)
    }

    /// Returns an estimate that is enough if the values of the other claims are short.
    fn size_hint(&self) -> usize {
        HEADS
            .saturating_add(size_hint_of(&self.issuer))
            .saturating_add(size_hint_of(&self.subject))
            .saturating_add(size_hint_of(&self.audience))
            .saturating_add(size_hint_of(&self.cwt_id))
            .saturating_add(self.rest.len().saturating_mul(CLAIM))
    }

    fn write(&self, alloc: Global, out: &mut Vec<u8>) -> Result<()> {
        let there = [
            self.issuer.is_some(),
            self.subject.is_some(),
            self.audience.is_some(),
            self.expiration_time.is_some(),
            self.not_before.is_some(),
            self.issued_at.is_some(),
            self.cwt_id.is_some(),
        ];
        write_pairs_head(&there, &self.rest, out)?;
        write_optional(alloc, CwtClaimName::Iss.to_i64(), &self.issuer, out)?;
        write_optional(alloc, CwtClaimName::Sub.to_i64(), &self.subject, out)?;
        write_optional(alloc, CwtClaimName::Aud.to_i64(), &self.audience, out)?;
        write_optional(
            alloc,
            CwtClaimName::Exp.to_i64(),
            &self.expiration_time,
            out,
        )?;
        write_optional(alloc, CwtClaimName::Nbf.to_i64(), &self.not_before, out)?;
        write_optional(alloc, CwtClaimName::Iat.to_i64(), &self.issued_at, out)?;
        write_optional(alloc, CwtClaimName::Cti.to_i64(), &self.cwt_id, out)?;
        write_rest(alloc, &self.rest, out)
    }
}

/// The same as [`ClaimsSet::clone`], for generic code.
impl Clone for ClaimsSet {
    ghost is_clone = { λ claims copy. claims_view copy ≡ claims_view claims };

    fn clone(&self) -> Result<ClaimsSet, AllocError> {
        Ok(ClaimsSet {
            issuer: self.issuer.clone()?,
            subject: self.subject.clone()?,
            audience: self.audience.clone()?,
            expiration_time: self.expiration_time.clone()?,
            not_before: self.not_before.clone()?,
            issued_at: self.issued_at.clone()?,
            cwt_id: self.cwt_id.clone()?,
            rest: self.rest.clone()?,
        })
    }
}

impl ClaimsSet {
    /// Returns a copy of the claims set.
    ///
    /// # Errors
    /// `OutOfMemory` if an allocation fails.
    pub fn clone(&self) -> Result<ClaimsSet>
        ensures copy { IfOk result (λ c. claims_view c ≡ claims_view self.now) }
        ensures memory { IfErr result (λ e. e ≡ OutOfMemory) }
    {
        Ok(Clone::clone(self)?)
    }

    /// Returns the value of the first claim in `rest` with this name, or `None` if there is none.
    ///
    /// The `rest` of a claims set that was read contains no claim with a field of its own, 1 to 7
    /// (RFC 8392, section 3.1).
    pub fn get(&self, name: &ClaimName) -> Option<&Value>
        ensures { option_map (λ v. value_item v.now) result ≡ lookup (same_label
            (name_view name.now))
            (claims_view self.now).rest }
    {
        find_value(&self.rest, name)
    }
}

/// Builds a [`ClaimsSet`], claim by claim. Contracts see the builder as the claims set
/// that [`build`](ClaimsSetBuilder::build) returns.
#[derive(Drop)]
pub struct ClaimsSetBuilder(ClaimsSet);

impl Model for ClaimsSetBuilder {
    ghost use Rattle.std.specs.Coded.{codes};
    ghost use Rattle.coset_claims.specs.contracts.claims_set.ClaimsSet as contracts;
    ghost use Rattle.coset_claims.specs.declared.claims_set.ClaimsSet.{ClaimsSet};

    ghost Value = { ClaimsSet };

    ghost coded = { Prim.hlevel (codes, contracts.the_row.coded) };

    ghost view = { λ b. b.0 };

    ghost inverse = { λ v. record { 0 = v } };
}

impl ClaimsSetBuilder {
    /// Returns a builder of a claims set without claims. Allocates nothing.
    pub fn new(alloc: Global) -> ClaimsSetBuilder
        ensures { claims_view result ≡ no_claims }
    {
        ClaimsSetBuilder(ClaimsSet::new(alloc))
    }

    /// Returns the finished claims set.
    pub fn build(self) -> ClaimsSet
        ensures { result ≡ self }
    {
        self.0
    }

    /// Sets the issuer (claim 1).
    pub fn issuer(mut self, issuer: String) -> ClaimsSetBuilder
        ensures { claims_view result ≡ record
            (claims_view self) { issuer = Some (string_bytes issuer) } }
    {
        self.0.issuer = Some(issuer);
        self
    }

    /// Like [`issuer`](ClaimsSetBuilder::issuer), but copies the text.
    ///
    /// # Errors
    /// `OutOfMemory` if an allocation fails.
    pub fn issuer_from(self, alloc: Global, issuer: &str) -> Result<ClaimsSetBuilder>
        ensures ok { IfOk result (λ b. claims_view b
            ≡ record (claims_view self) { issuer = Some issuer.now }) }
        ensures memory { IfErr result (λ e. e ≡ OutOfMemory) }
    {
        Ok(self.issuer(String::from_str(alloc, issuer)?))
    }

    /// Sets the subject (claim 2).
    pub fn subject(mut self, subject: String) -> ClaimsSetBuilder
        ensures { claims_view result ≡ record
            (claims_view self) { subject = Some (string_bytes subject) } }
    {
        self.0.subject = Some(subject);
        self
    }

    /// Like [`subject`](ClaimsSetBuilder::subject), but copies the text.
    ///
    /// # Errors
    /// `OutOfMemory` if an allocation fails.
    pub fn subject_from(self, alloc: Global, subject: &str) -> Result<ClaimsSetBuilder>
        ensures ok { IfOk result (λ b. claims_view b
            ≡ record (claims_view self) { subject = Some subject.now }) }
        ensures memory { IfErr result (λ e. e ≡ OutOfMemory) }
    {
        Ok(self.subject(String::from_str(alloc, subject)?))
    }

    /// Sets the audience (claim 3).
    pub fn audience(mut self, audience: String) -> ClaimsSetBuilder
        ensures { claims_view result ≡ record
            (claims_view self) { audience = Some (string_bytes audience) } }
    {
        self.0.audience = Some(audience);
        self
    }

    /// Like [`audience`](ClaimsSetBuilder::audience), but copies the text.
    ///
    /// # Errors
    /// `OutOfMemory` if an allocation fails.
    pub fn audience_from(self, alloc: Global, audience: &str) -> Result<ClaimsSetBuilder>
        ensures ok { IfOk result (λ b. claims_view b
            ≡ record (claims_view self) { audience = Some audience.now }) }
        ensures memory { IfErr result (λ e. e ≡ OutOfMemory) }
    {
        Ok(self.audience(String::from_str(alloc, audience)?))
    }

    /// Sets the expiration time (claim 4).
    pub fn expiration_time(mut self, expiration_time: Timestamp) -> ClaimsSetBuilder
        ensures { claims_view result ≡ record
            (claims_view self) { expiration_time = Some (timestamp_view expiration_time) } }
    {
        self.0.expiration_time = Some(expiration_time);
        self
    }

    /// Sets the time before which the token isn't valid yet (claim 5).
    pub fn not_before(mut self, not_before: Timestamp) -> ClaimsSetBuilder
        ensures { claims_view result ≡ record
            (claims_view self) { not_before = Some (timestamp_view not_before) } }
    {
        self.0.not_before = Some(not_before);
        self
    }

    /// Sets the time at which the token was issued (claim 6).
    pub fn issued_at(mut self, issued_at: Timestamp) -> ClaimsSetBuilder
        ensures { claims_view result ≡ record
            (claims_view self) { issued_at = Some (timestamp_view issued_at) } }
    {
        self.0.issued_at = Some(issued_at);
        self
    }

    /// Sets the token's identifier (claim 7).
    pub fn cwt_id(mut self, cwt_id: Vec<u8>) -> ClaimsSetBuilder
        ensures { claims_view result ≡ record (claims_view self) { cwt_id = Some cwt_id.items } }
    {
        self.0.cwt_id = Some(cwt_id);
        self
    }

    /// Like [`cwt_id`](ClaimsSetBuilder::cwt_id), but copies the bytes.
    ///
    /// # Errors
    /// `OutOfMemory` if an allocation fails.
    pub fn cwt_id_from(self, alloc: Global, cwt_id: &[u8]) -> Result<ClaimsSetBuilder>
        ensures ok { IfOk result (λ b. claims_view b
            ≡ record (claims_view self) { cwt_id = Some cwt_id.now }) }
        ensures memory { IfErr result (λ e. e ≡ OutOfMemory) }
    {
        Ok(self.cwt_id(Vec::from_slice(alloc, cwt_id)?))
    }

    /// Adds a claim whose name is outside 1 to 7, since those claims have calls of their own.
    ///
    /// A claims set with a repeated name can be written, but it can't be read again
    /// (`DuplicateMapKey`).
    ///
    /// # Errors
    /// `OutOfMemory` if an allocation fails.
    pub fn claim(mut self, name: CwtClaimName, value: Value) -> Result<ClaimsSetBuilder>
        requires { IsOtherClaim (claim_names.number name) }
        ensures ok { IfOk result (λ b. claims_view b
            ≡ push_claim (assigned (claim_names.number name)) (value_item value)
            (claims_view self)) }
        ensures memory { IfErr result (λ e. e ≡ OutOfMemory) }
    {
        let number = name.to_i64();
        prove!(number < 1 || 7 < number);
        self.0.rest.push((ClaimName::Assigned(name), value))?;
        Ok(self)
    }

    /// Adds a claim whose name is a text.
    ///
    /// A claims set with a repeated name can be written, but it can't be read again
    /// (`DuplicateMapKey`).
    ///
    /// # Errors
    /// `OutOfMemory` if an allocation fails.
    pub fn text_claim(mut self, name: String, value: Value) -> Result<ClaimsSetBuilder>
        ensures ok { IfOk result (λ b. claims_view b
            ≡ push_claim (text_name (string_bytes name)) (value_item value) (claims_view self)) }
        ensures memory { IfErr result (λ e. e ≡ OutOfMemory) }
    {
        self.0.rest.push((ClaimName::Text(name), value))?;
        Ok(self)
    }

    /// Like [`text_claim`](ClaimsSetBuilder::text_claim), but copies the name.
    ///
    /// # Errors
    /// `OutOfMemory` if an allocation fails.
    pub fn text_claim_from(
        self,
        alloc: Global,
        name: &str,
        value: Value,
    ) -> Result<ClaimsSetBuilder>
        ensures ok { IfOk result (λ b. claims_view b
            ≡ push_claim (text_name name.now) (value_item value) (claims_view self)) }
        ensures memory { IfErr result (λ e. e ≡ OutOfMemory) }
    {
        self.text_claim(String::from_str(alloc, name)?, value)
    }

    /// Adds a claim whose name is a number for private use, less than -65536.
    ///
    /// A claims set with a repeated name can be written, but it can't be read again
    /// (`DuplicateMapKey`).
    ///
    /// # Errors
    /// `OutOfMemory` if an allocation fails.
    pub fn private_claim(mut self, id: i64, value: Value) -> Result<ClaimsSetBuilder>
        requires { IsTrue (is_private_use id) }
        ensures ok { IfOk result (λ b. claims_view b
            ≡ push_claim (private_use id) (value_item value) (claims_view self)) }
        ensures memory { IfErr result (λ e. e ≡ OutOfMemory) }
    {
        prove!(CwtClaimName::is_private(id));
        self.0.rest.push((ClaimName::PrivateUse(id), value))?;
        Ok(self)
    }
}
