//! Texts of a caller, which may not be UTF-8.

ghost use Rattle.std.specs.Prelude.{◌≡◌, IfOk, filter_map, map};
ghost use Rattle.std.specs.Option.{option_copied};
ghost use Rattle.ffi_token.specs.Texts.{are_texts, text_in, texts_view};

use std::alloc::{AllocError, Global};

/// A text of a caller, which may not be UTF-8: `coset_text` of `c/include/coset.h`.
#[repr(C)]
#[derive(Clone, Copy, Debug)]
pub struct Text<'a> {
    /// The bytes of the text.
    pub bytes: &'a [u8],
}

/// Returns the bytes as a text, or `None` if they aren't UTF-8.
pub(crate) fn text_in(bytes: &[u8]) -> Option<&str>
    ensures { option_copied result ≡ text_in bytes.now }
{
    match std::str::from_utf8(bytes) {
        Ok(text) => Some(text),
        Err(_) => None,
    }
}

/// Returns true if each text is UTF-8.
pub(crate) fn are_texts(texts: &[Text<'_>]) -> bool
    ensures { result ≡ are_texts (texts_view texts.now) }
{
    texts.iter().all(|text| text_in(text.bytes).is_some())
}

/// Returns the texts, without those that aren't UTF-8.
///
/// # Errors
/// `AllocError` if an allocation fails.
pub(crate) fn names<'a>(alloc: Global, texts: &[Text<'a>]) -> Result<Vec<&'a str>, AllocError>
    ensures { IfOk result (λ names. map (λ s. s.now) names.items
        ≡ filter_map text_in (texts_view texts.now)) }
{
    let mut names = Vec::new(alloc);
    for text in texts {
        if let Some(name) = text_in(text.bytes) {
            names.push(name)?;
        }
    }
    Ok(names)
}
