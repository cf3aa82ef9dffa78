//! An item as a source of reading: a value, or borrowed bytes.

ghost use Rattle.std.specs.Prelude.{string_bytes};
ghost use Rattle.coset_value.specs.Parts.{as_bytes, as_text};
ghost use Rattle.coset_value.specs.View.{value_item};
ghost use Rattle.coset_codec.specs.Errors.{IsUnexpected};
ghost use Rattle.coset_codec.specs.Kinds.{TriesAs, Says, kind};
ghost use Rattle.coset_codec.specs.Sources.{source_item};

use crate::error::{CoseError, Result};
use crate::util::{cbor_type_error, pull_type_error, type_error};
use coset_cbor::de::Pull;
use coset_cbor::value::Value;

/// One item, which is read once. A tree is consumed, and its strings are moved. From borrowed
/// bytes, strings are copied as they are read.
#[derive(Drop)]
pub enum ItemSource<'a> {
    /// A value.
    Tree(Value),
    /// A checked item in bytes.
    Borrowed(Pull<'a>),
}

/// Returns the bytes of a value that is a byte string.
pub(crate) fn tree_bytes(value: Value, want: &'static str) -> Result<Vec<u8>>
    ensures { TriesAs as_bytes (λ b. b.items) want.now (value_item value) result }
{
    match value {
        Value::Bytes(bytes) => Ok(bytes),
        other => cbor_type_error(&other, want),
    }
}

/// Returns the text of a value that is a text string.
pub(crate) fn tree_text(value: Value, want: &'static str) -> Result<String>
    ensures { TriesAs as_text string_bytes want.now (value_item value) result }
{
    match value {
        Value::Text(text) => Ok(text),
        other => cbor_type_error(&other, want),
    }
}

impl ItemSource<'_> {
    /// Returns the error for an item of another kind than `want`.
    pub fn type_error(&self, want: &'static str) -> CoseError
        ensures { IsUnexpected result × Says (kind (source_item self.now)) want.now result }
    {
        match self {
            ItemSource::Tree(value) => type_error(value, want),
            ItemSource::Borrowed(pull) => pull_type_error(*pull, want),
        }
    }
}
