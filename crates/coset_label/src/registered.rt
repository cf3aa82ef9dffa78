//! Labels that a registry assigns (RFC 8152, section 16).

ghost use Rattle.std.specs.Prelude.{◌≡◌, IfErr, IfOk, is_some};
ghost use Rattle.coset_codec.specs.declared.error.CoseError.TheVariants.{OutOfMemory};
ghost use Rattle.coset_label.specs.Views.{registered_view, registered_or_private_view};

use coset_codec::read::Decoder;
use coset_codec::write::Encode;
use coset_codec::{Codec, CoseError, Result};
use coset_iana::{EnumI64, WithPrivateRange};
use std::alloc::{AllocError, Global};
use std::fmt;

/// A label from a registry without a private-use range: an assigned value or a text (RFC 8152,
/// section 16).
///
/// ```cddl
/// registered_label = int / tstr
/// ```
///
/// The integer must be a number that the registry assigns.
#[derive(Debug, Drop)]
pub enum RegisteredLabel<T> {
    /// A value that the registry assigns.
    Assigned(T),
    /// A text.
    Text(String),
}

/// A label from a registry with a private-use range: an assigned value, a private-use number, or a
/// text (RFC 8152, section 16).
///
/// ```cddl
/// registered_label_with_private = int / tstr
/// ```
///
/// The integer must be an assigned number or a private-use number.
#[derive(Debug, Drop)]
pub enum RegisteredLabelWithPrivate<T> {
    /// A number for private use.
    PrivateUse(i64),
    /// A value that the registry assigns.
    Assigned(T),
    /// A text.
    Text(String),
}

impl<T: EnumI64 + Drop> Codec for RegisteredLabel<T> {
    ghost use Rattle.coset_codec.specs.Inputs.{IsBorrowed};
    ghost use Rattle.coset_label.specs.LabelLaws.{registered_laws};
    ghost use Rattle.coset_label.specs.Labels.{registered_in};
    ghost use Rattle.coset_label.specs.LabelData.{LabelView};
    ghost use Rattle.coset_label.specs.SameLaws.{same_label-decides};

    ghost View = { LabelView };

    ghost view = { registered_view T.number };

    ghost shape = { registered_in T.value_of };

    ghost allocates = { IsBorrowed };

    ghost laws = { registered_laws (λ i. is_some (T.value_of i)) };

    ghost equal = { λ a b. same_label-decides (registered_view T.number a)
        (registered_view T.number b) };

    /// Allocates only to copy a text from borrowed bytes.
    ///
    /// # Errors
    /// - `OutOfMemory` if an allocation fails.
    /// - `OutOfRangeIntegerValue` if the item is an integer outside the range of `i64`.
    /// - `UnregisteredIanaValue` if the registry doesn't assign the number.
    /// - `UnexpectedItem` if the item is neither an integer nor a text.
    fn read(alloc: Global, input: &mut Decoder<'_>) -> Result<RegisteredLabel<T>> {
        match input.integer() {
            Some(number) => match T::from_i64(i64::try_from(number)?) {
                Some(value) => Ok(RegisteredLabel::Assigned(value)),
                None => Err(CoseError::UnregisteredIanaValue),
            },
            None => Ok(RegisteredLabel::Text(input.text(alloc, "int/tstr")?)),
        }
    }

    fn size_hint(&self) -> usize {
        match self {
            RegisteredLabel::Assigned(value) => value.to_i64().encoded_size_hint(),
            RegisteredLabel::Text(text) => text.encoded_size_hint(),
        }
    }

    #[inline(always)]
    fn write(&self, alloc: Global, out: &mut Vec<u8>) -> Result<()> {
        match self {
            RegisteredLabel::Assigned(value) => value.to_i64().encode(alloc, out),
            RegisteredLabel::Text(text) => text.encode(alloc, out),
        }
    }
}

impl<T: EnumI64 + WithPrivateRange + Drop> Codec for RegisteredLabelWithPrivate<T> {
    ghost use Rattle.coset_codec.specs.Inputs.{IsBorrowed};
    ghost use Rattle.coset_label.specs.LabelLaws.{registered_or_private_laws};
    ghost use Rattle.coset_label.specs.Labels.{registered_or_private_in};
    ghost use Rattle.coset_label.specs.NameOrder.{registered_cmp-apart};
    ghost use Rattle.coset_label.specs.LabelData.{RegisteredLabelView};

    ghost View = { RegisteredLabelView };

    ghost view = { registered_or_private_view T.number };

    ghost shape = { registered_or_private_in T.value_of T.is_private };

    ghost allocates = { IsBorrowed };

    ghost laws = { registered_or_private_laws (λ i. is_some (T.value_of i)) T.is_private };

    ghost equal = { λ a b. registered_cmp-apart (registered_or_private_view T.number a)
        (registered_or_private_view T.number b) };

    /// Allocates only to copy a text from borrowed bytes.
    ///
    /// # Errors
    /// - `OutOfMemory` if an allocation fails.
    /// - `OutOfRangeIntegerValue` if the item is an integer outside the range of `i64`.
    /// - `UnregisteredIanaNonPrivateValue` if the number is neither assigned nor for private use.
    /// - `UnexpectedItem` if the item is neither an integer nor a text.
    fn read(alloc: Global, input: &mut Decoder<'_>) -> Result<RegisteredLabelWithPrivate<T>> {
        let Some(number) = input.integer() else {
            return Ok(RegisteredLabelWithPrivate::Text(input.text(alloc, "int/tstr")?));
        };
        let number = i64::try_from(number)?;
        if let Some(value) = T::from_i64(number) {
            return Ok(RegisteredLabelWithPrivate::Assigned(value));
        }
        if T::is_private(number) {
            Ok(RegisteredLabelWithPrivate::PrivateUse(number))
        } else {
            Err(CoseError::UnregisteredIanaNonPrivateValue)
        }
    }

    fn size_hint(&self) -> usize {
        match self {
            RegisteredLabelWithPrivate::PrivateUse(number) => number.encoded_size_hint(),
            RegisteredLabelWithPrivate::Assigned(value) => value.to_i64().encoded_size_hint(),
            RegisteredLabelWithPrivate::Text(text) => text.encoded_size_hint(),
        }
    }

    #[inline(always)]
    fn write(&self, alloc: Global, out: &mut Vec<u8>) -> Result<()> {
        match self {
            RegisteredLabelWithPrivate::PrivateUse(number) => number.encode(alloc, out),
            RegisteredLabelWithPrivate::Assigned(value) => value.to_i64().encode(alloc, out),
            RegisteredLabelWithPrivate::Text(text) => text.encode(alloc, out),
        }
    }
}

/// Writes an assigned value as its own `Display` does. For the enums of `coset_iana`, this is the
/// value's name. Writes a text as its `Debug` does: if it is ASCII, in double quotes, with escapes.
/// Contracts say nothing of the output for other texts.
impl<T: fmt::Display> fmt::Display for RegisteredLabel<T> {
    ghost use Rattle.coset_label.specs.Views.{registered_output};

    ghost output = { registered_output T.output };

    fn fmt<W: fmt::Write>(&self, f: &mut fmt::Formatter<W>) -> fmt::Result {
        match self {
            RegisteredLabel::Assigned(value) => fmt::Display::fmt(value, f),
            RegisteredLabel::Text(text) => fmt::Debug::fmt(text, f),
        }
    }
}

/// Writes a private-use number in decimal, and an assigned value as its own `Display` does. For the
/// enums of `coset_iana`, this is the value's name. Writes a text as its `Debug` does: if it is
/// ASCII, in double quotes, with escapes. Contracts say nothing of the output for other texts.
impl<T: fmt::Display> fmt::Display for RegisteredLabelWithPrivate<T> {
    ghost use Rattle.coset_label.specs.Views.{registered_or_private_output};

    ghost output = { registered_or_private_output T.output };

    fn fmt<W: fmt::Write>(&self, f: &mut fmt::Formatter<W>) -> fmt::Result {
        match self {
            RegisteredLabelWithPrivate::PrivateUse(number) => fmt::Display::fmt(number, f),
            RegisteredLabelWithPrivate::Assigned(value) => fmt::Display::fmt(value, f),
            RegisteredLabelWithPrivate::Text(text) => fmt::Debug::fmt(text, f),
        }
    }
}

impl<T: EnumI64 + Clone> Clone for RegisteredLabel<T> {
    ghost is_clone = { λ label copy. ((x y : T) → T.is_clone x y → y ≡ x)
        → registered_view T.number copy ≡ registered_view T.number label };

    fn clone(&self) -> Result<RegisteredLabel<T>, AllocError> {
        match self {
            RegisteredLabel::Assigned(value) => Ok(RegisteredLabel::Assigned(value.clone()?)),
            RegisteredLabel::Text(text) => Ok(RegisteredLabel::Text(text.clone()?)),
        }
    }
}

impl<T: EnumI64 + Clone> RegisteredLabel<T> {
    /// Returns an equal label. A clone of a registry value must equal that value.
    ///
    /// # Errors
    /// `OutOfMemory` if an allocation fails.
    pub fn clone(&self) -> Result<RegisteredLabel<T>>
        requires { (x y : T) → T.is_clone x y → y ≡ x }
        ensures copy { IfOk result (λ x. registered_view T.number x
            ≡ registered_view T.number self.now) }
        ensures memory { IfErr result (λ e. e ≡ OutOfMemory) }
    {
        Ok(Clone::clone(self)?)
    }
}

impl<T: EnumI64 + Clone> Clone for RegisteredLabelWithPrivate<T> {
    ghost is_clone = { λ label copy. ((x y : T) → T.is_clone x y → y ≡ x)
        → registered_or_private_view T.number copy ≡ registered_or_private_view T.number label };

    fn clone(&self) -> Result<RegisteredLabelWithPrivate<T>, AllocError> {
        match self {
            RegisteredLabelWithPrivate::PrivateUse(number) => {
                Ok(RegisteredLabelWithPrivate::PrivateUse(*number))
            }
            RegisteredLabelWithPrivate::Assigned(value) => {
                Ok(RegisteredLabelWithPrivate::Assigned(value.clone()?))
            }
            RegisteredLabelWithPrivate::Text(text) => {
                Ok(RegisteredLabelWithPrivate::Text(text.clone()?))
            }
        }
    }
}

impl<T: EnumI64 + Clone> RegisteredLabelWithPrivate<T> {
    /// Returns an equal label. A clone of a registry value must equal that value.
    ///
    /// # Errors
    /// `OutOfMemory` if an allocation fails.
    pub fn clone(&self) -> Result<RegisteredLabelWithPrivate<T>>
        requires { (x y : T) → T.is_clone x y → y ≡ x }
        ensures copy { IfOk result (λ x. registered_or_private_view T.number x
            ≡ registered_or_private_view T.number self.now) }
        ensures memory { IfErr result (λ e. e ≡ OutOfMemory) }
    {
        Ok(Clone::clone(self)?)
    }
}
