//! Keys (RFC 8152, section 7).

ghost use Rattle.std.specs.Prelude.{◌≡◌, ◌≤◌, ◌<◌, not, length, map, option_map, Some, IsOk, OnOk, OnErr, IfOk, IfErr};
ghost use Rattle.std.specs.List.Sorted.{IsStableByKey};
ghost use Rattle.std.specs.Map.{keys_of, lookup};
ghost use Rattle.coset_value.specs.Item.{boolean, bytes};
ghost use Rattle.coset_value.specs.View.{value_item};
ghost use Rattle.coset_cbor.specs.Least.{Extends};
ghost use Rattle.coset_iana.specs.Algorithm as algorithms;
ghost use Rattle.coset_iana.specs.KeyOperation as operations;
ghost use Rattle.coset_iana.specs.KeyParameter as parameters;
ghost use Rattle.coset_iana.specs.KeyType as kinds;
ghost use Rattle.coset_iana.specs.declared.keys.KeyParameter.TheVariants as labels;
ghost use Rattle.coset_codec.specs.declared.error.CoseError.TheVariants.{OutOfMemory};
ghost use Rattle.coset_codec.specs.Encoding.{AppendsField};
ghost use Rattle.coset_codec.specs.Errors.{UnlessMemory};
ghost use Rattle.coset_codec.specs.Inputs.{ReadsAt, length_left, state};
ghost use Rattle.coset_codec.specs.Maps.{Adds, Refuses, are_distinct, unless_empty};
ghost use Rattle.coset_label.specs.LabelData.{assigned, number, same_label};
ghost use Rattle.coset_label.specs.Orderings.{label_cmp_by};
ghost use Rattle.coset_label.specs.Views.{label_view};
ghost use Rattle.coset_label.specs.Labels.{algorithm, cose_labels};
ghost use Rattle.coset_key.specs.Canonical.{Canonicalizes};
ghost use Rattle.coset_key.specs.KeyBuilt.{push_operation, push_param, ec2_key, ec2_private_key, ml_dsa_key, okp_key, symmetric_key, with_algorithm, with_base_iv, with_key_id, with_kty, IsOtherLabel};
ghost use Rattle.coset_key.specs.Keys.{empty_key, fields, key as key_shape, key_ops as key_ops_shape, key_view, kty_view, operation_view};
ghost use Rattle.coset_key.specs.Reading.{GoesTo, IsFinished, nothing, so_far_view};

use crate::key_ops::{KeyOps, add_operation, set_key_ops};
use crate::ml_dsa::MlDsaVariant;
use coset_cbor::value::Value;
use coset_codec::read::{Decoder, MapEntries, MapVisitor, read_map, set_field, set_nonempty};
use coset_codec::write::{
    write_field, write_nonempty, write_optional, write_pairs_head, write_rest,
};
use coset_codec::{Codec, find_value};
use coset_iana::{
    AkpKeyParameter, Ec2KeyParameter, EllipticCurve, EnumI64, KeyParameter, SymmetricKeyParameter,
};
use coset_label::{
    Algorithm, CborOrdering, CoseError, Encode, KeyOperation, KeyType, Label, RegisteredLabel,
    RegisteredLabelWithPrivate, Result, has_repeats, iana,
};
use std::alloc::{AllocError, Global};
use std::collections::BTreeSet;
use std::marker::Model;

/// The estimated length of an encoded key in bytes, without its byte strings and params.
const HEADS: usize = 24;

/// The estimated length of an encoded param in bytes: a label and a coordinate of 32 bytes.
const PARAM: usize = 40;

/// A key: `COSE_Key` (RFC 8152, section 7).
///
/// ```cddl
/// COSE_Key = {
///     1 => tstr / int,          ; kty
///     ? 2 => bstr,              ; kid
///     ? 3 => tstr / int,        ; alg
///     ? 4 => [+ (tstr / int)],  ; key_ops
///     ? 5 => bstr,              ; Base IV
///     * label => values
/// }
/// ```
///
/// Reading is stricter than this CDDL:
///
/// - A key type or an operation that is an unassigned number is refused with
///   `UnregisteredIanaValue`.
/// - A missing or reserved key type is refused with `UnexpectedItem`.
/// - So are an empty byte string under label 2 or 5, an empty array under label 4, and an operation
///   that is there twice.
#[derive(Debug, Drop, PartialEq, Eq)]
pub struct CoseKey {
    /// The key type (label 1), which decides the meaning of `params`.
    pub kty: KeyType,
    /// The key identifier (label 2); empty if there is none.
    pub key_id: Vec<u8>,
    /// The only algorithm that the key may be used with (label 3), or `None` if any is permitted.
    pub alg: Option<Algorithm>,
    /// The permitted uses of the key (label 4), in the order of their encodings. If empty, every
    /// use is permitted.
    pub key_ops: BTreeSet<KeyOperation>,
    /// The Base IV, which is combined with a Partial IV (label 5); empty if there is none.
    pub base_iv: Vec<u8>,
    /// The pairs with other labels, in their order.
    pub params: Vec<(Label, Value)>,
}

/// The same as [`CoseKey::clone`], for generic code.
impl Clone for CoseKey {
    ghost is_clone = { λ key copy. key_view copy ≡ key_view key };

    fn clone(&self) -> Result<CoseKey, AllocError> {
        Ok(CoseKey {
            kty: Clone::clone(&self.kty)?,
            key_id: Vec::from_slice(*self.key_id.allocator(), &self.key_id)?,
            alg: self.alg.clone()?,
            key_ops: self.key_ops.clone()?,
            base_iv: Vec::from_slice(*self.base_iv.allocator(), &self.base_iv)?,
            params: self.params.clone()?,
        })
    }
}

impl CoseKey {
    /// Returns a key of the reserved type without any other field or param. Allocates nothing.
    ///
    /// A key of the reserved type can be written, but it can't be read again (`UnexpectedItem`).
    pub fn new(alloc: Global) -> CoseKey
        ensures { key_view result ≡ empty_key }
    {
        CoseKey {
            kty: RegisteredLabel::Assigned(iana::KeyType::Reserved),
            key_id: Vec::new(alloc),
            alg: None,
            key_ops: BTreeSet::new(alloc),
            base_iv: Vec::new(alloc),
            params: Vec::new(alloc),
        }
    }

    /// Returns a copy of the key.
    ///
    /// # Errors
    /// `OutOfMemory` if an allocation fails.
    pub fn clone(&self) -> Result<CoseKey>
        ensures copy { IfOk result (λ k. key_view k ≡ key_view self.now) }
        ensures memory { IfErr result (λ e. e ≡ OutOfMemory) }
    {
        Ok(Clone::clone(self)?)
    }

    /// Returns the value of the first param with this label, or `None` if there is none.
    ///
    /// The `params` of a key that was read contain no label of a field, 1 to 5 (RFC 8152, section
    /// 7.1).
    pub fn get(&self, label: &Label) -> Option<&Value>
        ensures { option_map (λ v. value_item v.now) result ≡ lookup (same_label
            (label_view label.now))
            (key_view self.now).params }
    {
        find_value(&self.params, label)
    }

    /// Sorts `params` by the encodings of their labels, in the given order.
    ///
    /// The order compares the bytes of the encodings (RFC 8949, section 4.2.1), or first their
    /// lengths (RFC 7049, section 3.9). Params with equal labels keep their order, and the rest of
    /// the key is unchanged. All labels of a key that was read are then written in that order,
    /// except label 0. Only a param can have label 0, and it is written after the labels 1 to 5.
    /// The work grows with n log n.
    ///
    /// # Errors
    /// `OutOfMemory` if an allocation fails, which can happen only with more than 20 params. The
    /// key is then unchanged.
    pub fn canonicalize(&mut self, alloc: Global, ordering: CborOrdering) -> Result<()>
        ensures canonical { Canonicalizes ordering (key_view self.old) (key_view self.new) result }
        ensures stable { IsStableByKey (λ e. label_view e.0) (label_cmp_by ordering)
            self.old.params.items self.new.params.items }
        ensures few { length self.old.params.items ≤ 20 → IsOk result }
    {
        let params = self.params.as_mut_slice();
        params.sort_by(alloc, |a, b| ordering.compare(&a.0, &b.0))?;
        Ok(())
    }
}

/// A field of a key, chosen by the label of a pair (RFC 8152, section 7.1).
#[derive(Clone, Copy)]
enum Field {
    /// Label 1.
    Kty,
    /// Label 2.
    KeyId,
    /// Label 3.
    Alg,
    /// Label 4.
    KeyOps,
    /// Label 5.
    BaseIv,
    /// Any other label.
    Params,
}

/// Returns the field for a pair with this label.
fn field_of(label: &Label) -> Field
    ensures { GoesTo (label_view label.now) result }
{
    let Label::Int(number) = label else {
        return Field::Params;
    };
    match *number {
        1 => Field::Kty,
        2 => Field::KeyId,
        3 => Field::Alg,
        4 => Field::KeyOps,
        5 => Field::BaseIv,
        _ => Field::Params,
    }
}

/// A partly read key.
#[derive(Drop)]
struct PartialKey {
    kty: Option<KeyType>,
    key_id: Vec<u8>,
    alg: Option<Algorithm>,
    key_ops: BTreeSet<KeyOperation>,
    base_iv: Vec<u8>,
    params: Vec<(Label, Value)>,
}

impl PartialKey {
    /// Returns a partial key without any pair. Allocates nothing.
    fn new(alloc: Global) -> PartialKey
        ensures { so_far_view result ≡ nothing }
    {
        PartialKey {
            kty: None,
            key_id: Vec::new(alloc),
            alg: None,
            key_ops: BTreeSet::new(alloc),
            base_iv: Vec::new(alloc),
            params: Vec::new(alloc),
        }
    }

    /// Reads the value under `label` into the key.
    ///
    /// Repeated labels of params are not checked here. The input is left just after the value, also
    /// after an error.
    ///
    /// # Errors
    /// - `OutOfMemory` if an allocation fails.
    /// - `DuplicateMapKey` if the field has a value already.
    /// - A fault in the value.
    ///
    /// The partial key is then unchanged.
    fn set_parameter(&mut self, alloc: Global, label: Label, input: &mut Decoder<'_>) -> Result<()>
        ensures shrinks { length_left (state input.new) ≤ length_left (state input.old) }
        ensures takes { ReadsAt (state input.old) (state input.new) (λ v. OnOk result
            (Adds cose_labels fields (label_view label) v (so_far_view self.old)
            (so_far_view self.new))) }
        ensures refused { ReadsAt (state input.old) (state input.new) (λ v. IfErr result
            (λ e. UnlessMemory e (Refuses cose_labels fields (label_view label) v
            (so_far_view self.old)))) }
        ensures kept { OnErr result (so_far_view self.new ≡ so_far_view self.old) }
    {
        match field_of(&label) {
            Field::Kty => set_field(alloc, &mut self.kty, input),
            Field::KeyId => set_nonempty(alloc, &mut self.key_id, input),
            Field::Alg => set_field(alloc, &mut self.alg, input),
            Field::KeyOps => set_key_ops(alloc, &mut self.key_ops, input),
            Field::BaseIv => set_nonempty(alloc, &mut self.base_iv, input),
            Field::Params => {
                let value = input.value(alloc)?;
                self.params.push((label, value))?;
                Ok(())
            }
        }
    }

    /// Returns the finished key.
    ///
    /// # Errors
    /// `UnexpectedItem` if the key type is missing or reserved.
    fn finish(self) -> Result<CoseKey>
        ensures { IsFinished (so_far_view self) result }
    {
        let PartialKey {
            kty,
            key_id,
            alg,
            key_ops,
            base_iv,
            params,
        } = self;
        match kty {
            Some(kty) if kty != RegisteredLabel::Assigned(iana::KeyType::Reserved) => Ok(CoseKey {
                kty,
                key_id,
                alg,
                key_ops,
                base_iv,
                params,
            }),
            _ => Err(CoseError::UnexpectedItem("no kty label", "mandatory kty label")),
        }
    }
}

impl MapVisitor for PartialKey {
    ghost use Rattle.coset_label.specs.LabelData.{LabelView};
    ghost use Rattle.coset_label.specs.LabelLaws.{cose_labels_laws};
    ghost use Rattle.coset_key.specs.Keys.{FieldTuple};
    ghost use Rattle.coset_key.specs.KeyLaws.{fields_laws};

    type Label = Label;

    ghost LabelView = { LabelView };

    ghost FieldValues = { FieldTuple };

    ghost names = { cose_labels };

    ghost fields = { fields };

    ghost named = { label_view };

    ghost view = { so_far_view };

    ghost lawful_names = { cose_labels_laws };

    ghost lawful_fields = { fields_laws };

    fn next_label(
        alloc: Global,
        pairs: &mut MapEntries,
        input: &mut Decoder<'_>,
    ) -> Result<Option<Label>> {
        pairs.next_key(alloc, input)
    }

    fn add(&mut self, alloc: Global, label: Label, input: &mut Decoder<'_>) -> Result<()> {
        self.set_parameter(alloc, label, input)
    }

    fn repeats(&self, alloc: Global) -> Result<bool>
        ensures repeats { IfOk result (λ b. b ≡ not
            (are_distinct cose_labels.same (keys_of (so_far_view self.now).1))) }
        ensures memory { IfErr result (λ e. e ≡ OutOfMemory) }
    {
        has_repeats(alloc, &self.params)
    }
}

impl Codec for CoseKey {
    ghost use Rattle.coset_key.specs.Equality.{key_decides};
    ghost use Rattle.coset_key.specs.Keys.{KeyView};
    ghost use Rattle.coset_key.specs.KeyLaws.{key_laws};

    ghost View = { KeyView };

    ghost view = { key_view };

    ghost shape = { key_shape };

    ghost laws = { key_laws };

    ghost equal = { key_decides };

    fn read(alloc: Global, input: &mut Decoder<'_>) -> Result<CoseKey> {
        let mut so_far = PartialKey::new(alloc);
        read_map(alloc, input, &mut so_far)?;
        so_far.finish()
    }

    /// Returns an estimate that is enough for coordinates of at most 32 bytes and few key
    /// operations.
    fn size_hint(&self) -> usize {
        HEADS
            .saturating_add(self.key_id.len())
            .saturating_add(self.base_iv.len())
            .saturating_add(self.params.len().saturating_mul(PARAM))
    }

    fn write(&self, alloc: Global, out: &mut Vec<u8>) -> Result<()> {
        if has_repeats(alloc, &self.params)? {
            return Err(CoseError::DuplicateMapKey);
        }
        let there = [
            true,
            !self.key_id.is_empty(),
            self.alg.is_some(),
            !self.key_ops.is_empty(),
            !self.base_iv.is_empty(),
        ];
        write_pairs_head(&there, &self.params, out)?;
        write_field(alloc, KeyParameter::Kty.to_i64(), &self.kty, out)?;
        write_nonempty(alloc, KeyParameter::Kid.to_i64(), &self.key_id, out)?;
        write_optional(alloc, KeyParameter::Alg.to_i64(), &self.alg, out)?;
        write_key_ops(alloc, &self.key_ops, out)?;
        write_nonempty(alloc, KeyParameter::BaseIv.to_i64(), &self.base_iv, out)?;
        write_rest(alloc, &self.params, out)
    }
}

/// Appends the pair of the key operations, if there are any.
fn write_key_ops(
    alloc: Global,
    operations: &BTreeSet<KeyOperation>,
    out: &mut Vec<u8>,
) -> Result<()>
    ensures ok { OnOk result (AppendsField (parameters.number labels.KeyOps)
        ((unless_empty key_ops_shape).image (map operation_view operations.now.keys)) out.old.items
        out.new.items) }
    ensures memory { IfErr result (λ e. e ≡ OutOfMemory) }
    ensures kept { Extends out.old.items out.new.items }
{
    if operations.is_empty() {
        return Ok(());
    }
    write_field(
        alloc,
        KeyParameter::KeyOps.to_i64(),
        &KeyOps(operations),
        out,
    )
}

/// Builds a [`CoseKey`] field by field. Contracts see the builder as the key that
/// [`build`](CoseKeyBuilder::build) returns.
#[derive(Debug, Drop)]
pub struct CoseKeyBuilder(CoseKey);

impl Model for CoseKeyBuilder {
    ghost use Rattle.std.specs.Coded.{codes};
    ghost use Rattle.coset_key.specs.contracts.key.CoseKey as contracts;
    ghost use Rattle.coset_key.specs.declared.key.CoseKey.{CoseKey};

    ghost Value = { CoseKey };

    ghost coded = { Prim.hlevel (codes, contracts.the_row.coded) };

    ghost view = { λ b. b.0 };

    ghost inverse = { λ v. record { 0 = v } };
}

impl CoseKeyBuilder {
    /// Returns a builder of a key of the reserved type without any other field or param. Allocates
    /// nothing.
    pub fn new(alloc: Global) -> CoseKeyBuilder
        ensures { key_view result ≡ empty_key }
    {
        CoseKeyBuilder(CoseKey::new(alloc))
    }

    /// Returns a builder of an octet key pair without params (RFC 8152, section 13.2). Allocates
    /// nothing.
    pub fn new_okp_key(alloc: Global) -> CoseKeyBuilder
        ensures { key_view result ≡ okp_key }
    {
        CoseKeyBuilder::new(alloc).key_type(iana::KeyType::OKP)
    }

    /// Returns a builder of a public elliptic curve key with two coordinates (RFC 8152, section
    /// 13.1.1).
    ///
    /// # Errors
    /// `OutOfMemory` if an allocation fails.
    pub fn new_ec2_pub_key(
        alloc: Global,
        curve: EllipticCurve,
        x: Vec<u8>,
        y: Vec<u8>,
    ) -> Result<CoseKeyBuilder>
        ensures ok { IfOk result (λ b. key_view b ≡ ec2_key curve x.items (bytes y.items)) }
        ensures memory { IfErr result (λ e. e ≡ OutOfMemory) }
    {
        new_ec2_key(alloc, curve, x, Value::Bytes(y))
    }

    /// Returns a builder of a public elliptic curve key with the x coordinate and the sign of y
    /// (RFC 8152, section 13.1.1).
    ///
    /// `y_sign` is true if the octet string of the point begins with 03 (SEC 1, section 2.3.3).
    ///
    /// # Errors
    /// `OutOfMemory` if an allocation fails.
    pub fn new_ec2_pub_key_y_sign(
        alloc: Global,
        curve: EllipticCurve,
        x: Vec<u8>,
        y_sign: bool,
    ) -> Result<CoseKeyBuilder>
        ensures ok { IfOk result (λ b. key_view b ≡ ec2_key curve x.items (boolean y_sign)) }
        ensures memory { IfErr result (λ e. e ≡ OutOfMemory) }
    {
        new_ec2_key(alloc, curve, x, Value::Bool(y_sign))
    }

    /// Returns a builder of a private elliptic curve key, with its public key of two coordinates
    /// (RFC 8152, section 13.1.1).
    ///
    /// # Errors
    /// `OutOfMemory` if an allocation fails.
    pub fn new_ec2_priv_key(
        alloc: Global,
        curve: EllipticCurve,
        x: Vec<u8>,
        y: Vec<u8>,
        d: Vec<u8>,
    ) -> Result<CoseKeyBuilder>
        ensures ok { IfOk result (λ b. key_view b ≡ ec2_private_key curve x.items y.items d.items) }
        ensures memory { IfErr result (λ e. e ≡ OutOfMemory) }
    {
        let key = CoseKeyBuilder::new_ec2_pub_key(alloc, curve, x, y)?;
        key.push_param(Ec2KeyParameter::D.to_i64(), Value::Bytes(d))
    }

    /// Returns a builder of a public ML-DSA key (FIPS 204).
    ///
    /// # Errors
    /// `OutOfMemory` if an allocation fails.
    pub fn new_mldsa_pub_key(
        alloc: Global,
        variant: MlDsaVariant,
        k: Vec<u8>,
    ) -> Result<CoseKeyBuilder>
        ensures ok { IfOk result (λ b. key_view b ≡ ml_dsa_key variant k.items) }
        ensures memory { IfErr result (λ e. e ≡ OutOfMemory) }
    {
        let key = CoseKeyBuilder::new(alloc).key_type(iana::KeyType::AKP);
        key.algorithm(variant.into())
            .push_param(AkpKeyParameter::Pub.to_i64(), Value::Bytes(k))
    }

    /// Returns a builder of a symmetric key (RFC 8152, section 13.3).
    ///
    /// # Errors
    /// `OutOfMemory` if an allocation fails.
    pub fn new_symmetric_key(alloc: Global, k: Vec<u8>) -> Result<CoseKeyBuilder>
        ensures ok { IfOk result (λ b. key_view b ≡ symmetric_key k.items) }
        ensures memory { IfErr result (λ e. e ≡ OutOfMemory) }
    {
        let key = CoseKeyBuilder::new(alloc).key_type(iana::KeyType::Symmetric);
        key.push_param(SymmetricKeyParameter::K.to_i64(), Value::Bytes(k))
    }

    /// Returns the finished key.
    pub fn build(self) -> CoseKey
        ensures { result ≡ self }
    {
        self.0
    }

    /// Sets the type (label 1).
    pub fn key_type(self, key_type: iana::KeyType) -> CoseKeyBuilder
        ensures { key_view result ≡ with_kty (number (kinds.number key_type)) (key_view self) }
    {
        self.kty(RegisteredLabel::Assigned(key_type))
    }

    /// Sets the type (label 1), which may be a text.
    pub fn kty(mut self, kty: KeyType) -> CoseKeyBuilder
        ensures { key_view result ≡ with_kty (kty_view kty) (key_view self) }
    {
        self.0.kty = kty;
        self
    }

    /// Sets the identifier (label 2).
    pub fn key_id(mut self, key_id: Vec<u8>) -> CoseKeyBuilder
        ensures { key_view result ≡ with_key_id key_id.items (key_view self) }
    {
        self.0.key_id = key_id;
        self
    }

    /// Like [`key_id`](CoseKeyBuilder::key_id), but copies the bytes.
    ///
    /// # Errors
    /// `OutOfMemory` if an allocation fails.
    pub fn key_id_from(self, alloc: Global, key_id: &[u8]) -> Result<CoseKeyBuilder>
        ensures ok { IfOk result (λ b. key_view b ≡ with_key_id key_id.now (key_view self)) }
        ensures memory { IfErr result (λ e. e ≡ OutOfMemory) }
    {
        Ok(self.key_id(Vec::from_slice(alloc, key_id)?))
    }

    /// Sets the algorithm (label 3).
    pub fn algorithm(mut self, algorithm: iana::Algorithm) -> CoseKeyBuilder
        ensures { key_view result
            ≡ with_algorithm (assigned (algorithms.number algorithm)) (key_view self) }
    {
        self.0.alg = Some(RegisteredLabelWithPrivate::Assigned(algorithm));
        self
    }

    /// Adds a key operation (label 4), unless the key has it already.
    ///
    /// # Errors
    /// `OutOfMemory` if an allocation fails.
    pub fn add_key_op(mut self, op: iana::KeyOperation) -> Result<CoseKeyBuilder>
        ensures ok { IfOk result (λ b. key_view b
            ≡ push_operation (number (operations.number op)) (key_view self)) }
        ensures memory { IfErr result (λ e. e ≡ OutOfMemory) }
    {
        add_operation(&mut self.0.key_ops, RegisteredLabel::Assigned(op))?;
        Ok(self)
    }

    /// Sets the Base IV (label 5).
    pub fn base_iv(mut self, base_iv: Vec<u8>) -> CoseKeyBuilder
        ensures { key_view result ≡ with_base_iv base_iv.items (key_view self) }
    {
        self.0.base_iv = base_iv;
        self
    }

    /// Like [`base_iv`](CoseKeyBuilder::base_iv), but copies the bytes.
    ///
    /// # Errors
    /// `OutOfMemory` if an allocation fails.
    pub fn base_iv_from(self, alloc: Global, base_iv: &[u8]) -> Result<CoseKeyBuilder>
        ensures ok { IfOk result (λ b. key_view b ≡ with_base_iv base_iv.now (key_view self)) }
        ensures memory { IfErr result (λ e. e ≡ OutOfMemory) }
    {
        Ok(self.base_iv(Vec::from_slice(alloc, base_iv)?))
    }

    /// Adds a pair whose label is a number outside 0 to 5.
    ///
    /// The labels 1 to 5 have calls of their own, and 0 is reserved. A key with a repeated label in
    /// `params` can't be written (`DuplicateMapKey`).
    ///
    /// # Errors
    /// `OutOfMemory` if an allocation fails.
    pub fn param(self, label: i64, value: Value) -> Result<CoseKeyBuilder>
        requires { IsOtherLabel label }
        ensures ok { IfOk result (λ b. key_view b
            ≡ push_param (number label) (value_item value) (key_view self)) }
        ensures memory { IfErr result (λ e. e ≡ OutOfMemory) }
    {
        prove!(label < 0 || 5 < label);
        self.push_param(label, value)
    }

    /// Adds a pair whose label is a number.
    fn push_param(mut self, label: i64, value: Value) -> Result<CoseKeyBuilder>
        ensures ok { IfOk result (λ b. key_view b
            ≡ push_param (number label) (value_item value) (key_view self)) }
        ensures memory { IfErr result (λ e. e ≡ OutOfMemory) }
    {
        self.0.params.push((Label::Int(label), value))?;
        Ok(self)
    }
}

/// Returns a builder of an elliptic curve key; `y` is a byte string, or a bool for its sign.
fn new_ec2_key(alloc: Global, curve: EllipticCurve, x: Vec<u8>, y: Value) -> Result<CoseKeyBuilder>
    ensures ok { IfOk result (λ b. key_view b ≡ ec2_key curve x.items (value_item y)) }
    ensures memory { IfErr result (λ e. e ≡ OutOfMemory) }
{
    CoseKeyBuilder::new(alloc)
        .key_type(iana::KeyType::EC2)
        .push_param(Ec2KeyParameter::Crv.to_i64(), Value::from(curve.to_i64()))?
        .push_param(Ec2KeyParameter::X.to_i64(), Value::Bytes(x))?
        .push_param(Ec2KeyParameter::Y.to_i64(), y)
}
