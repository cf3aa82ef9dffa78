//! The reasons why a token is refused.

ghost use Rattle.std.specs.Prelude.{◌≡◌};
ghost use Rattle.cwt_gate.specs.Gate.{refusal_of};
ghost use Rattle.cwt_gate.specs.Texts.{gate_error_text};

use coset::{CallError, CoseError};
use std::error::Error;
use std::fmt;

/// The reason why a token is refused. If several reasons apply, it is the first in this order.
#[derive(Debug, Drop)]
pub enum GateError<E> {
    /// The bytes aren't a message with one signature, or an allocation failed before the closure
    /// was called. The message may be plain, under its tag, or under the tag of web tokens and then
    /// its own.
    Token(CoseError),
    /// The message has no payload.
    NoPayload,
    /// The closure refused the signature.
    Caller(E),
    /// The payload isn't a claims set, or an allocation failed after the closure was called.
    Claims(CoseError),
    /// The expiration time or the not-before time is a float instead of an integer.
    FractionalTime,
    /// The token has expired: `now` is at or after its expiration time (RFC 8392, section 3.1.4).
    Expired,
    /// The token isn't valid yet: `now` is before its not-before time (RFC 8392, section 3.1.5).
    NotYetValid,
}

/// Writes the reason in words. For the closure's own error, it writes the text of that error.
impl<E: fmt::Display> fmt::Display for GateError<E> {
    ghost output = { gate_error_text E.output };

    fn fmt<W: fmt::Write>(&self, f: &mut fmt::Formatter<W>) -> fmt::Result {
        match self {
            GateError::Token(error) => write!(f, "not a token: {error}"),
            GateError::NoPayload => write!(f, "no payload"),
            GateError::Caller(error) => write!(f, "{error}"),
            GateError::Claims(error) => write!(f, "not a claims set: {error}"),
            GateError::FractionalTime => write!(f, "a time is no whole number of seconds"),
            GateError::Expired => write!(f, "expired"),
            GateError::NotYetValid => write!(f, "not yet valid"),
        }
    }
}

impl<E: Error> Error for GateError<E> {}

/// Converts an error in verifying a signature. An error of the closure is `Caller`, and an earlier
/// one is `Token`.
impl<E: Drop> From<CallError<E>> for GateError<E> {
    ghost from_gives = { λ error refusal. refusal ≡ refusal_of error };

    fn from(error: CallError<E>) -> GateError<E> {
        match error {
            CallError::Coset(error) => GateError::Token(error),
            CallError::Caller(error) => GateError::Caller(error),
        }
    }
}
