//! Labels: integers and texts (RFC 8152, section 1.4).

ghost use Rattle.std.specs.Prelude.{◌≡◌, IfErr, IfOk};
ghost use Rattle.coset_codec.specs.declared.error.CoseError.TheVariants.{OutOfMemory};
ghost use Rattle.coset_label.specs.Views.{label_view};

use coset_codec::read::Decoder;
use coset_codec::write::Encode;
use coset_codec::{Codec, Result};
use std::alloc::{AllocError, Global};
use std::fmt;

/// A label: a signed 64-bit integer or a text (RFC 8152, section 1.4).
///
/// ```cddl
/// label = int / tstr
/// ```
#[derive(Debug, Drop)]
pub enum Label {
    /// An integer.
    Int(i64),
    /// A text.
    Text(String),
}

impl Codec for Label {
    ghost use Rattle.coset_codec.specs.Inputs.{IsBorrowed};
    ghost use Rattle.coset_label.specs.LabelLaws.{label_laws};
    ghost use Rattle.coset_label.specs.Labels.{label};
    ghost use Rattle.coset_label.specs.LabelData.{LabelView};
    ghost use Rattle.coset_label.specs.SameLaws.{same_label-decides};

    ghost View = { LabelView };

    ghost view = { label_view };

    ghost shape = { label };

    ghost allocates = { IsBorrowed };

    ghost laws = { label_laws };

    ghost equal = { λ a b. same_label-decides (label_view a) (label_view b) };

    /// Allocates only to copy a text from borrowed bytes.
    ///
    /// # Errors
    /// - `OutOfMemory` if an allocation fails.
    /// - `OutOfRangeIntegerValue` if the item is an integer outside the range of `i64`.
    /// - `UnexpectedItem` if the item is neither an integer nor a text.
    fn read(alloc: Global, input: &mut Decoder<'_>) -> Result<Label> {
        match input.integer() {
            Some(number) => Ok(Label::Int(i64::try_from(number)?)),
            None => Ok(Label::Text(input.text(alloc, "int/tstr")?)),
        }
    }

    fn size_hint(&self) -> usize {
        match self {
            Label::Int(number) => number.encoded_size_hint(),
            Label::Text(text) => text.encoded_size_hint(),
        }
    }

    #[inline(always)]
    fn write(&self, alloc: Global, out: &mut Vec<u8>) -> Result<()> {
        match self {
            Label::Int(number) => number.encode(alloc, out),
            Label::Text(text) => text.encode(alloc, out),
        }
    }
}

impl Clone for Label {
    ghost is_clone = { λ label copy. label_view copy ≡ label_view label };

    fn clone(&self) -> Result<Label, AllocError> {
        match self {
            Label::Int(number) => Ok(Label::Int(*number)),
            Label::Text(text) => Ok(Label::Text(text.clone()?)),
        }
    }
}

/// Writes the number in decimal, or the text as `Debug` writes it. A text of ASCII is in double
/// quotes, with escapes. Contracts say nothing of the output for other texts.
impl fmt::Display for Label {
    ghost use Rattle.coset_label.specs.Views.{label_output};

    ghost output = { label_output };

    fn fmt<W: fmt::Write>(&self, f: &mut fmt::Formatter<W>) -> fmt::Result {
        match self {
            Label::Int(number) => fmt::Display::fmt(number, f),
            Label::Text(text) => fmt::Debug::fmt(text, f),
        }
    }
}

impl Label {
    /// Returns an equal label.
    ///
    /// # Errors
    /// `OutOfMemory` if an allocation fails.
    pub fn clone(&self) -> Result<Label>
        ensures copy { IfOk result (λ x. label_view x ≡ label_view self.now) }
        ensures memory { IfErr result (λ e. e ≡ OutOfMemory) }
    {
        Ok(Clone::clone(self)?)
    }
}
