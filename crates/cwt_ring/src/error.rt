//! The reasons why a ring of keys doesn't accept a layer.

ghost use Rattle.cwt_ring.specs.Texts.{key_error_text};

use std::error::Error;
use std::fmt;

/// The reason why a ring of keys doesn't accept a layer.
#[derive(Debug, Drop)]
pub enum KeyError<E> {
    /// No key fits the layer.
    NoKey,
    /// The ciphers refused the layer with each key that fits it. The error is that of the last key.
    Cipher(E),
    /// The ciphers refused the layer with the first 16 keys that fit it, and more keys fit
    /// ([`MAX_KEYS`](crate::MAX_KEYS)).
    TooManyKeys,
}

/// Writes the reason in words. For the ciphers' own error, it writes the text of that error.
impl<E: fmt::Display> fmt::Display for KeyError<E> {
    ghost output = { key_error_text E.output };

    fn fmt<W: fmt::Write>(&self, f: &mut fmt::Formatter<W>) -> fmt::Result {
        match self {
            KeyError::NoKey => write!(f, "no key fits"),
            KeyError::Cipher(error) => write!(f, "{error}"),
            KeyError::TooManyKeys => write!(f, "too many keys fit"),
        }
    }
}

impl<E: Error> Error for KeyError<E> {}
