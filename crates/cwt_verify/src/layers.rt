//! The layers of a token, from the outermost in (RFC 8392, section 7.2).

ghost use Rattle.std.specs.Prelude.{◌≡◌};
ghost use Rattle.cwt_verify.specs.Layers.{begins_with_tag};
ghost use Rattle.cwt_verify.specs.Policy.{policy_view};
ghost use Rattle.cwt_verify.specs.Opening.{verified_view};
ghost use Rattle.cwt_verify.specs.Walk.{OpensAll, OpensNext, OpensOne, verified_views, vouched, voucher_view};

use crate::admission::check_headers;
use crate::error::{LayerError, TokenError};
use crate::layer::{Layer, OpenedLayer, VerifiedLayer};
use crate::policy::Policy;
use coset::CoseError;
use coset::laws::{
    each_signed_when_read, signed_when_read, structure_when_read, structures_when_read,
};
use cwt_keys::Keys;
use std::alloc::Global;

/// The greatest number of layers that are opened.
const MAX_LAYERS: usize = 4;

/// The opened layers of a token.
#[derive(Drop)]
pub(crate) struct Opened<'k> {
    /// The content of the innermost layer.
    pub content: Vec<u8>,
    /// The name of the issuer whose key accepted the innermost layer that authenticates. `None` if
    /// none authenticates.
    pub voucher: Option<Option<&'k str>>,
    /// The layers, from the outermost in.
    pub layers: Vec<VerifiedLayer<'k>>,
}

/// Returns true if the bytes begin with a tag, and so like a layer and not like claims.
fn begins_with_tag(bytes: &[u8]) -> bool
    ensures { result ≡ begins_with_tag bytes.now }
{
    match bytes.first() {
        Some(first) => *first / 32 == 6,
        None => false,
    }
}

/// Opens one layer, if the policy admits it.
///
/// # Errors
/// The first error of [`LayerError`] that applies.
fn open_one<'k, K: Keys>(
    alloc: Global,
    policy: &Policy<'_>,
    keys: &'k K,
    outermost: bool,
    bytes: &[u8],
) -> Result<OpenedLayer<'k>, LayerError<K::Error>>
    ensures { OpensOne (K.view keys.now) (policy_view policy.now) outermost bytes.now result }
{
    signed_when_read();
    each_signed_when_read();
    structure_when_read();
    structures_when_read();
    let lists = policy.accept_lists;
    let layer = match Layer::read(alloc, lists, policy.untagged_form, outermost, bytes) {
        Ok(layer) => layer,
        Err(error) => return Err(LayerError::Message(error)),
    };
    check_headers(alloc, policy, layer.headers())?;
    layer.open(alloc, policy, keys)
}

/// Returns the name of the issuer who vouches for the content of a layer: that of the layer itself
/// if it authenticates, else that of the layers around it.
fn vouched<'k>(
    policy: &Policy<'_>,
    layer: &VerifiedLayer<'k>,
    around: Option<Option<&'k str>>,
) -> Option<Option<&'k str>>
    ensures { voucher_view result ≡ vouched (policy_view policy.now) (verified_view layer.now)
        (voucher_view around.entry) }
{
    if policy.authenticates(layer.form) {
        Some(layer.issuer)
    } else {
        around
    }
}

/// Opens the next layer of a token, and puts it after the layers around it. The first layer is the
/// outermost.
///
/// # Errors
/// `Layer` with the first error of [`LayerError`] that applies.
fn open_next<'k, K: Keys>(
    alloc: Global,
    policy: &Policy<'_>,
    keys: &'k K,
    mut layers: Vec<VerifiedLayer<'k>>,
    voucher: Option<Option<&'k str>>,
    bytes: &[u8],
) -> Result<Opened<'k>, TokenError<K::Error>>
    ensures { OpensNext (K.view keys.now) (policy_view policy.now) (verified_views layers.entry)
        (voucher_view voucher.entry) bytes.now result }
{
    let index = layers.len();
    let opened = match open_one(alloc, policy, keys, index == 0, bytes) {
        Ok(opened) => opened,
        Err(error) => return Err(TokenError::Layer(index, error)),
    };
    if layers.reserve(1).is_err() {
        return Err(TokenError::Layer(index, LayerError::Message(CoseError::OutOfMemory)));
    }
    let voucher = vouched(policy, &opened.verified, voucher);
    layers.push_reserved(opened.verified);
    Ok(Opened {
        content: opened.content,
        voucher,
        layers,
    })
}

/// Opens the layers of a token, until the content is no further layer.
///
/// # Errors
/// - `Layer` with the first error of [`LayerError`] that applies, from the outermost layer in.
/// - `TooDeep` if there are more than four layers.
pub(crate) fn open_all<'k, K: Keys>(
    alloc: Global,
    policy: &Policy<'_>,
    keys: &'k K,
    token: &[u8],
) -> Result<Opened<'k>, TokenError<K::Error>>
    ensures { OpensAll (K.view keys.now) (policy_view policy.now) token.now result }
{
    let mut opened = open_next(alloc, policy, keys, Vec::new(alloc), None, token)?;
    while begins_with_tag(&opened.content) {
        if opened.layers.len() == MAX_LAYERS {
            return Err(TokenError::TooDeep);
        }
        let Opened {
            content,
            voucher,
            layers,
        } = opened;
        opened = open_next(alloc, policy, keys, layers, voucher, &content)?;
    }
    Ok(opened)
}
