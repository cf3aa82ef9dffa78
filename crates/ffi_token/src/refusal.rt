//! The reasons why a caller doesn't get a token.

ghost use Rattle.std.specs.Prelude.{◌≡◌};
ghost use Rattle.ffi_token.specs.Tokens.{apart, apart_at};

use crate::layer::{Layer, LayerView, Waiting};
use coset::CoseError;
use cwt_verify::{LayerError, TokenError};

/// The reason why a caller doesn't get a token.
#[derive(Debug, Drop)]
pub enum Refusal {
    /// The rules have no meaning, or the name of an issuer isn't UTF-8.
    Misuse,
    /// The token is refused, or a layer waits to be opened.
    ///
    /// The error of the keys is the view of the layer that waits. Its texts are then in the
    /// caller's memory.
    Token(TokenError<LayerView>),
    /// The result doesn't fit, an allocation failed, or the token has no encoding.
    Answer(ffi_query::Refusal),
}

/// An error of a verified token: a layer that waits, or a refusal.
#[derive(Drop)]
pub(crate) enum Apart {
    /// The layer at this index waits, and names the key with this identifier.
    Layer(usize, Vec<u8>, Layer),
    /// No layer waits. This is the reason against the token.
    Refused(TokenError<LayerView>),
}

/// Returns the layer that waits, or the reason against the layer at this index.
fn apart_at(index: usize, error: LayerError<Waiting>) -> Apart
    ensures { result ≡ apart_at index error }
{
    let refused = match error {
        LayerError::Keys { key_id, error } => match error {
            Waiting::Layer(layer) => return Apart::Layer(index, key_id, layer),
            Waiting::OutOfMemory => LayerError::Message(CoseError::OutOfMemory),
        },
        LayerError::Message(error) => LayerError::Message(error),
        LayerError::Headers => LayerError::Headers,
        LayerError::Algorithm(number) => LayerError::Algorithm(number),
        LayerError::Critical => LayerError::Critical,
        LayerError::Recipients => LayerError::Recipients,
        LayerError::NoPayload => LayerError::NoPayload,
        LayerError::NoSignature => LayerError::NoSignature,
        LayerError::TooManySignatures => LayerError::TooManySignatures,
    };
    Apart::Refused(TokenError::Layer(index, refused))
}

/// Returns the layer that waits, or the reason against the token.
pub(crate) fn taken_apart(error: TokenError<Waiting>) -> Apart
    ensures { result ≡ apart error }
{
    let refused = match error {
        TokenError::Layer(index, error) => return apart_at(index, error),
        TokenError::TooDeep => TokenError::TooDeep,
        TokenError::Unauthenticated => TokenError::Unauthenticated,
        TokenError::Type => TokenError::Type,
        TokenError::Claims(error) => TokenError::Claims(error),
        TokenError::HeaderClaims => TokenError::HeaderClaims,
        TokenError::Issuer => TokenError::Issuer,
        TokenError::NoExpiration => TokenError::NoExpiration,
        TokenError::Expired => TokenError::Expired,
        TokenError::NotYetValid => TokenError::NotYetValid,
        TokenError::IssuedInFuture => TokenError::IssuedInFuture,
        TokenError::TooOld => TokenError::TooOld,
        TokenError::Audience => TokenError::Audience,
        TokenError::Missing(name) => TokenError::Missing(name),
    };
    Apart::Refused(refused)
}
