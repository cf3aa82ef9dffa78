//! The reasons why a token is refused.

ghost use Rattle.cwt_verify.specs.Texts.{layer_error_text, token_error_text};

use coset::CoseError;
use coset::iana::{CwtClaimName, Named};
use std::error::Error;
use std::fmt;

/// The reason why a layer of a token is refused. If several reasons apply, it is the first in this
/// order.
///
/// In a `COSE_Sign`, the headers of the message come first, and need no algorithm. If each
/// signature is refused, the reason is the one against the last signature: the first in this order
/// for its own headers.
#[derive(Debug, Drop)]
pub enum LayerError<E> {
    /// The bytes aren't a message of the layer's form, or an allocation failed.
    Message(CoseError),
    /// A label is in both headers, or the layer has an IV and a Partial IV (RFC 9052, sections 3
    /// and 3.1).
    Headers,
    /// The protected header has no algorithm, or none that the policy allows and that is for the
    /// layer's form. The number is that of the algorithm, if it has one.
    Algorithm(Option<i64>),
    /// A critical label isn't understood, or isn't in the protected header; or the unprotected
    /// header lists critical labels (RFC 9052, section 3.1).
    Critical,
    /// There isn't exactly one recipient, or it isn't one that is `direct` and names its key. RFC
    /// 9052, section 8.5.1, forbids other modes next to `direct`, and advises that the key is
    /// named. Such a recipient has a protected header of zero length, no encrypted key, and no
    /// recipients inside. Its unprotected header has a key identifier, and lists no critical
    /// labels.
    Recipients,
    /// The layer has no payload, or no ciphertext.
    NoPayload,
    /// The list of signatures is empty (RFC 9052, section 4.1).
    NoSignature,
    /// The list has more than 16 signatures. Its sender chose their number, and each costs a check.
    TooManySignatures,
    /// The keys were asked about this layer, or about a signature in it, and refused it.
    Keys {
        /// The key identifier that the layer or the signature names, or no bytes if it names none.
        /// The sender chose it ([`Sealed::key_id`](cwt_keys::Sealed::key_id)).
        key_id: Vec<u8>,
        /// The error that the keys returned.
        error: E,
    },
}

/// Writes the reason in words. For the keys' own error, it writes the text of that error.
impl<E: fmt::Display> fmt::Display for LayerError<E> {
    ghost output = { layer_error_text E.output };

    fn fmt<W: fmt::Write>(&self, f: &mut fmt::Formatter<W>) -> fmt::Result {
        match self {
            LayerError::Message(error) => write!(f, "not a message: {error}"),
            LayerError::Headers => write!(f, "headers contradict each other"),
            LayerError::Algorithm(None) => write!(f, "no algorithm that is allowed"),
            LayerError::Algorithm(Some(number)) => write!(f, "algorithm {number} not allowed"),
            LayerError::Critical => write!(f, "critical label not understood"),
            LayerError::Recipients => write!(f, "not one direct recipient with a key identifier"),
            LayerError::NoPayload => write!(f, "no payload"),
            LayerError::NoSignature => write!(f, "no signature"),
            LayerError::TooManySignatures => write!(f, "too many signatures"),
            LayerError::Keys { error, .. } => write!(f, "{error}"),
        }
    }
}

impl<E: Error> Error for LayerError<E> {}

/// The reason why a token is refused. If several reasons apply, it is the first in this order.
/// `Layer` comes first for each layer, from the outermost in.
#[derive(Debug, Drop)]
pub enum TokenError<E> {
    /// A layer is refused. The index counts from 0, the outermost layer.
    Layer(usize, LayerError<E>),
    /// The token has more than four nested layers.
    TooDeep,
    /// No layer has a form that authenticates the token under the policy.
    Unauthenticated,
    /// The policy lists types, and the protected header of the innermost layer names none of them
    /// (RFC 9596).
    Type,
    /// The content of the innermost layer isn't a claims set, or an allocation failed.
    Claims(CoseError),
    /// A header of a layer, or of its accepted part, has a claim that isn't in the payload with the
    /// same value, or its claims aren't a map. RFC 9597 asks only that a claim in both has one
    /// value.
    HeaderClaims,
    /// The claims name another issuer than the one whose key authenticated the token, or that
    /// issuer has no name (RFC 8725, section 3.8).
    Issuer,
    /// The policy requires an expiration time, and the token has none (RFC 8392, section 3.1.4).
    NoExpiration,
    /// The token has expired: `now` isn't before `exp` plus the leeway (RFC 8392, section 3.1.4).
    Expired,
    /// The token isn't valid yet: `now` plus the leeway is before `nbf` (RFC 8392, section 3.1.5).
    NotYetValid,
    /// The policy refuses future tokens, and `now` plus the leeway is before `iat` (RFC 8392,
    /// section 3.1.6).
    IssuedInFuture,
    /// The policy has a greatest age, and `now` isn't before `iat` plus that age and the leeway. Or
    /// the token has no `iat` (RFC 8392, section 3.1.6).
    TooOld,
    /// The token is meant for someone else (RFC 8392, section 3.1.3).
    Audience,
    /// The policy requires this claim, and the token doesn't have it.
    Missing(CwtClaimName),
}

/// Writes the reason in words, like [`LayerError`].
impl<E: fmt::Display> fmt::Display for TokenError<E> {
    ghost output = { token_error_text E.output };

    fn fmt<W: fmt::Write>(&self, f: &mut fmt::Formatter<W>) -> fmt::Result {
        match self {
            TokenError::Layer(index, error) => write!(f, "layer {index}: {error}"),
            TokenError::TooDeep => write!(f, "too many layers"),
            TokenError::Unauthenticated => write!(f, "no layer authenticates the token"),
            TokenError::Type => write!(f, "another type"),
            TokenError::Claims(error) => write!(f, "not a claims set: {error}"),
            TokenError::HeaderClaims => write!(f, "a header has other claims than the payload"),
            TokenError::Issuer => write!(f, "another issuer"),
            TokenError::NoExpiration => write!(f, "no expiration time"),
            TokenError::Expired => write!(f, "expired"),
            TokenError::NotYetValid => write!(f, "not yet valid"),
            TokenError::IssuedInFuture => write!(f, "issued in the future"),
            TokenError::TooOld => write!(f, "too old"),
            TokenError::Audience => write!(f, "another audience"),
            TokenError::Missing(name) => write!(f, "no {} claim", name.name()),
        }
    }
}

impl<E: Error> Error for TokenError<E> {}
