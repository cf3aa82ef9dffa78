//! The builder of headers (RFC 8152, section 3).

ghost use Rattle.std.specs.Prelude.{◌≡◌, IfOk, IfErr, ◌<◌, Some, string_bytes};
ghost use Rattle.coset_value.specs.View.{value_item};
ghost use Rattle.coset_iana.specs.Algorithm as algorithms;
ghost use Rattle.coset_iana.specs.CoapContentFormat as content_formats;
ghost use Rattle.coset_iana.specs.HeaderParameter as parameters;
ghost use Rattle.coset_codec.specs.declared.error.CoseError.TheVariants as errors;
ghost use Rattle.coset_label.specs.Views.{algorithm_view};
ghost use Rattle.coset_label.specs.Labels.{algorithm};
ghost use Rattle.coset_label.specs.LabelData.{number, text_label, assigned};
ghost use Rattle.coset_core.specs.Views.{countersignature_view, critical_view, header_view, signature_view};
ghost use Rattle.coset_core.specs.Headers.{empty_header};
ghost use Rattle.coset_core.specs.Built.{with_algorithm, push_critical, with_content_type, with_key_id, with_iv, with_partial_iv, with_countersignature0_v2, push_counter_signature, push_countersignature_v2, push_pair, IsOtherLabel};

use crate::countersignature::CoseCountersignature;
use crate::header::Header;
use crate::signature::CoseSignature;
use coset_cbor::value::Value;
use coset_codec::Result;
use coset_iana::{CoapContentFormat, HeaderParameter};
use coset_label::{Algorithm, Label, RegisteredLabel, RegisteredLabelWithPrivate, iana};
use std::alloc::Global;
use std::marker::Model;

/// Builds a [`Header`] field by field. Contracts see the builder as the header that
/// [`build`](HeaderBuilder::build) returns.
#[derive(Debug, Drop)]
pub struct HeaderBuilder(Header);

impl Model for HeaderBuilder {
    ghost use Rattle.std.specs.Coded.{codes};
    ghost use Rattle.coset_core.specs.contracts.header.Header as contracts;
    ghost use Rattle.coset_core.specs.declared.header.Header.{Header};

    ghost Value = { Header };

    ghost coded = { Prim.hlevel (codes, contracts.the_row.coded) };

    ghost view = { λ b. b.0 };

    ghost inverse = { λ v. record { 0 = v } };
}

impl HeaderBuilder {
    /// Returns a builder of an empty header. Allocates nothing.
    pub fn new(alloc: Global) -> HeaderBuilder
        ensures { header_view result ≡ empty_header }
    {
        HeaderBuilder(Header::new(alloc))
    }

    /// Returns the finished header.
    pub fn build(self) -> Header
        ensures { result ≡ self }
    {
        self.0
    }

    /// Sets the algorithm (label 1).
    pub fn algorithm(self, algorithm: iana::Algorithm) -> HeaderBuilder
        ensures { header_view result
            ≡ with_algorithm (assigned (algorithms.number algorithm)) (header_view self) }
    {
        self.algorithm_label(RegisteredLabelWithPrivate::Assigned(algorithm))
    }

    /// Sets the algorithm (label 1) to any label: an assigned value, a private-use number or a
    /// text.
    pub fn algorithm_label(mut self, label: Algorithm) -> HeaderBuilder
        ensures { header_view result ≡ with_algorithm (algorithm_view label) (header_view self) }
    {
        self.0.alg = Some(label);
        self
    }

    /// Adds a label that a reader must understand (`crit`, label 2).
    ///
    /// # Errors
    /// `OutOfMemory` if an allocation fails.
    pub fn add_critical(self, parameter: HeaderParameter) -> Result<HeaderBuilder>
        ensures ok { IfOk result (λ b. header_view b
            ≡ push_critical (assigned (parameters.number parameter)) (header_view self)) }
        ensures memory { IfErr result (λ e. e ≡ errors.OutOfMemory) }
    {
        self.add_critical_label(RegisteredLabelWithPrivate::Assigned(parameter))
    }

    /// Adds a label that a reader must understand (`crit`, label 2): an assigned value, a
    /// private-use number or a text.
    ///
    /// # Errors
    /// `OutOfMemory` if an allocation fails.
    pub fn add_critical_label(
        mut self,
        label: RegisteredLabelWithPrivate<HeaderParameter>,
    ) -> Result<HeaderBuilder>
        ensures ok { IfOk result (λ b. header_view b
            ≡ push_critical (critical_view label) (header_view self)) }
        ensures memory { IfErr result (λ e. e ≡ errors.OutOfMemory) }
    {
        self.0.crit.push(label)?;
        Ok(self)
    }

    /// Sets the content type (label 3) to a CoAP content format.
    pub fn content_format(mut self, format: CoapContentFormat) -> HeaderBuilder
        ensures { header_view result
            ≡ with_content_type (number (content_formats.number format)) (header_view self) }
    {
        self.0.content_type = Some(RegisteredLabel::Assigned(format));
        self
    }

    /// Sets the content type (label 3) to a text. Only decoding checks that the text is a media
    /// type.
    pub fn content_type(mut self, content_type: String) -> HeaderBuilder
        ensures { header_view result ≡ with_content_type (text_label (string_bytes content_type))
            (header_view self) }
    {
        self.0.content_type = Some(RegisteredLabel::Text(content_type));
        self
    }

    /// Calls [`content_type`](HeaderBuilder::content_type) with a copy of this text.
    ///
    /// # Errors
    /// `OutOfMemory` if an allocation fails.
    pub fn content_type_from(self, alloc: Global, content_type: &str) -> Result<HeaderBuilder>
        ensures ok { IfOk result (λ b. header_view b
            ≡ with_content_type (text_label content_type.now) (header_view self)) }
        ensures memory { IfErr result (λ e. e ≡ errors.OutOfMemory) }
    {
        Ok(self.content_type(String::from_str(alloc, content_type)?))
    }

    /// Sets the key identifier (label 4).
    pub fn key_id(mut self, key_id: Vec<u8>) -> HeaderBuilder
        ensures { header_view result ≡ with_key_id key_id.items (header_view self) }
    {
        self.0.key_id = key_id;
        self
    }

    /// Calls [`key_id`](HeaderBuilder::key_id) with a copy of these bytes.
    ///
    /// # Errors
    /// `OutOfMemory` if an allocation fails.
    pub fn key_id_from(self, alloc: Global, key_id: &[u8]) -> Result<HeaderBuilder>
        ensures ok { IfOk result (λ b. header_view b ≡ with_key_id key_id.now (header_view self)) }
        ensures memory { IfErr result (λ e. e ≡ errors.OutOfMemory) }
    {
        Ok(self.key_id(Vec::from_slice(alloc, key_id)?))
    }

    /// Sets the IV (label 5), and clears the Partial IV.
    pub fn iv(mut self, iv: Vec<u8>) -> HeaderBuilder
        ensures { header_view result ≡ with_iv iv.items (header_view self) }
    {
        self.0.iv = iv;
        self.0.partial_iv.clear();
        self
    }

    /// Calls [`iv`](HeaderBuilder::iv) with a copy of these bytes.
    ///
    /// # Errors
    /// `OutOfMemory` if an allocation fails.
    pub fn iv_from(self, alloc: Global, iv: &[u8]) -> Result<HeaderBuilder>
        ensures ok { IfOk result (λ b. header_view b ≡ with_iv iv.now (header_view self)) }
        ensures memory { IfErr result (λ e. e ≡ errors.OutOfMemory) }
    {
        Ok(self.iv(Vec::from_slice(alloc, iv)?))
    }

    /// Sets the Partial IV (label 6), and clears the IV.
    pub fn partial_iv(mut self, partial_iv: Vec<u8>) -> HeaderBuilder
        ensures { header_view result ≡ with_partial_iv partial_iv.items (header_view self) }
    {
        self.0.partial_iv = partial_iv;
        self.0.iv.clear();
        self
    }

    /// Calls [`partial_iv`](HeaderBuilder::partial_iv) with a copy of these bytes.
    ///
    /// # Errors
    /// `OutOfMemory` if an allocation fails.
    pub fn partial_iv_from(self, alloc: Global, partial_iv: &[u8]) -> Result<HeaderBuilder>
        ensures ok { IfOk result (λ b. header_view b
            ≡ with_partial_iv partial_iv.now (header_view self)) }
        ensures memory { IfErr result (λ e. e ≡ errors.OutOfMemory) }
    {
        Ok(self.partial_iv(Vec::from_slice(alloc, partial_iv)?))
    }

    /// Adds a counter signature (label 7).
    ///
    /// # Errors
    /// `OutOfMemory` if an allocation fails.
    pub fn add_counter_signature(mut self, signature: CoseSignature) -> Result<HeaderBuilder>
        ensures ok { IfOk result (λ b. header_view b
            ≡ push_counter_signature (signature_view signature) (header_view self)) }
        ensures memory { IfErr result (λ e. e ≡ errors.OutOfMemory) }
    {
        self.0.counter_signatures.push(signature)?;
        Ok(self)
    }

    /// Adds a countersignature of version 2 (label 11).
    ///
    /// # Errors
    /// `OutOfMemory` if an allocation fails.
    pub fn add_countersignature_v2(
        mut self,
        signature: CoseCountersignature,
    ) -> Result<HeaderBuilder>
        ensures ok { IfOk result (λ b. header_view b
            ≡ push_countersignature_v2 (countersignature_view signature) (header_view self)) }
        ensures memory { IfErr result (λ e. e ≡ errors.OutOfMemory) }
    {
        self.0.countersignatures_v2.push(signature)?;
        Ok(self)
    }

    /// Sets the abbreviated countersignature of version 2 (label 12).
    pub fn countersignature0_v2(mut self, signature: Vec<u8>) -> HeaderBuilder
        ensures { header_view result
            ≡ with_countersignature0_v2 signature.items (header_view self) }
    {
        self.0.countersignature0_v2 = Some(signature);
        self
    }

    /// Calls [`countersignature0_v2`](HeaderBuilder::countersignature0_v2) with a copy of these
    /// bytes.
    ///
    /// # Errors
    /// `OutOfMemory` if an allocation fails.
    pub fn countersignature0_v2_from(self, alloc: Global, signature: &[u8]) -> Result<HeaderBuilder>
        ensures ok { IfOk result (λ b. header_view b
            ≡ with_countersignature0_v2 signature.now (header_view self)) }
        ensures memory { IfErr result (λ e. e ≡ errors.OutOfMemory) }
    {
        Ok(self.countersignature0_v2(Vec::from_slice(alloc, signature)?))
    }

    /// Adds a pair with a number as its label. The label must not be 1 to 7, 11 or 12, which have
    /// methods of their own.
    ///
    /// Encoding the header fails with `DuplicateMapKey` if a label occurs twice.
    ///
    /// # Errors
    /// `OutOfMemory` if an allocation fails.
    pub fn value(mut self, label: i64, value: Value) -> Result<HeaderBuilder>
        requires { IsOtherLabel label }
        ensures ok { IfOk result (λ b. header_view b
            ≡ push_pair (number label) (value_item value) (header_view self)) }
        ensures memory { IfErr result (λ e. e ≡ errors.OutOfMemory) }
    {
        prove!(label < 1 || (7 < label && !(label == 11 || label == 12)));
        self.0.rest.push((Label::Int(label), value))?;
        Ok(self)
    }

    /// Adds a pair with a text as its label.
    ///
    /// Encoding the header fails with `DuplicateMapKey` if a label occurs twice.
    ///
    /// # Errors
    /// `OutOfMemory` if an allocation fails.
    pub fn text_value(mut self, label: String, value: Value) -> Result<HeaderBuilder>
        ensures ok { IfOk result (λ b. header_view b
            ≡ push_pair (text_label (string_bytes label)) (value_item value) (header_view self)) }
        ensures memory { IfErr result (λ e. e ≡ errors.OutOfMemory) }
    {
        self.0.rest.push((Label::Text(label), value))?;
        Ok(self)
    }

    /// Calls [`text_value`](HeaderBuilder::text_value) with a copy of the label.
    ///
    /// # Errors
    /// `OutOfMemory` if an allocation fails.
    pub fn text_value_from(self, alloc: Global, label: &str, value: Value) -> Result<HeaderBuilder>
        ensures ok { IfOk result (λ b. header_view b
            ≡ push_pair (text_label label.now) (value_item value) (header_view self)) }
        ensures memory { IfErr result (λ e. e ≡ errors.OutOfMemory) }
    {
        self.text_value(String::from_str(alloc, label)?, value)
    }
}
