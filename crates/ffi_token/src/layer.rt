//! A layer that waits to be opened.

ghost use Rattle.std.specs.Prelude.{◌≡◌, ◌++◌, IfOk, option_map};
ghost use Rattle.coset.specs.LabelViews.{algorithm_view};
ghost use Rattle.cwt_keys.specs.Sealed.{seal_view};
ghost use Rattle.cwt_verify.specs.Policy.{number_in, number_of};
ghost use Rattle.ffi_token.specs.Waiting.{IsLayer, IsWaiting, place_of};

use coset::iana::EnumI64;
use coset::{Algorithm, RegisteredLabelWithPrivate};
use cwt_keys::{Form, Sealed};
use ffi_query::KeyIdPlace;
use std::alloc::{AllocError, Global};

/// The view of a layer that waits to be opened, besides its five texts.
#[derive(Clone, Copy, Debug, PartialEq, Eq)]
pub struct LayerView {
    /// The form. It says whether to verify a signature, verify a MAC, or decrypt a ciphertext.
    pub form: Form,
    /// The number of the algorithm in the protected header, which the rules allow. `None` if a text
    /// names the algorithm.
    pub algorithm: Option<i64>,
    /// The header that has the key identifier.
    pub key_id_place: KeyIdPlace,
    /// The length of the first text: the structure that is signed, authenticated, or goes with the
    /// ciphertext.
    pub structure_len: usize,
    /// The length of the second text: the signature, the MAC or the ciphertext.
    pub proof_len: usize,
    /// The length of the third text: the key identifier. It is 0 if there is none.
    pub key_id_len: usize,
    /// The length of the fourth text: the initialization vector. It is 0 if there is none.
    pub iv_len: usize,
    /// The length of the fifth text: the partial initialization vector. It is 0 if there is none.
    pub partial_iv_len: usize,
    /// The total length of the five texts.
    pub len: usize,
}

/// A layer that waits to be opened.
#[derive(Debug, Drop)]
pub struct Layer {
    /// The layer's view.
    pub view: LayerView,
    /// The five texts, one after another. The last three are from the protected header, else from
    /// the unprotected one.
    pub text: Vec<u8>,
}

/// The reason why a layer isn't opened.
#[derive(Debug, Drop)]
pub enum Waiting {
    /// The caller must open the layer.
    Layer(Layer),
    /// An allocation failed.
    OutOfMemory,
}

/// Returns the number of an algorithm, or `None` if a text names it.
fn number_of(algorithm: &Algorithm) -> Option<i64>
    ensures { result ≡ number_of (algorithm_view algorithm.now) }
{
    match algorithm {
        RegisteredLabelWithPrivate::Assigned(value) => Some(value.to_i64()),
        RegisteredLabelWithPrivate::PrivateUse(number) => Some(*number),
        RegisteredLabelWithPrivate::Text(_) => None,
    }
}

/// Returns the number of the algorithm, if there is one.
fn number_in(algorithm: &Option<Algorithm>) -> Option<i64>
    ensures { result ≡ number_in (option_map algorithm_view algorithm.now) }
{
    match algorithm {
        Some(algorithm) => number_of(algorithm),
        None => None,
    }
}

/// Returns the header that has the key identifier, by the identifiers in both headers.
fn place_of(protected: &[u8], unprotected: &[u8]) -> KeyIdPlace
    ensures { result ≡ place_of protected.now unprotected.now }
{
    if !protected.is_empty() {
        return KeyIdPlace::Protected;
    }
    if !unprotected.is_empty() {
        return KeyIdPlace::Unprotected;
    }
    KeyIdPlace::Absent
}

/// Joins five texts.
///
/// # Errors
/// `AllocError` if an allocation fails.
fn joined(
    alloc: Global,
    structure: &[u8],
    proof: &[u8],
    key_id: &[u8],
    iv: &[u8],
    partial_iv: &[u8],
) -> Result<Vec<u8>, AllocError>
    ensures { IfOk result (λ b. b.items
        ≡ structure.now ++ (proof.now ++ (key_id.now ++ (iv.now ++ partial_iv.now)))) }
{
    let mut text = Vec::from_slice(alloc, structure)?;
    text.extend_from_slice(proof)?;
    text.extend_from_slice(key_id)?;
    text.extend_from_slice(iv)?;
    text.extend_from_slice(partial_iv)?;
    Ok(text)
}

/// Returns the view and the texts of a layer.
///
/// # Errors
/// `AllocError` if an allocation fails.
fn layer_of(alloc: Global, sealed: &Sealed<'_>) -> Result<Layer, AllocError>
    ensures { IfOk result (λ layer. IsLayer (seal_view sealed.now) layer) }
{
    let header = &sealed.protected.header;
    let key_id = sealed.key_id();
    let iv = sealed.iv();
    let partial_iv = sealed.partial_iv();
    let text = joined(
        alloc,
        sealed.structure,
        sealed.proof,
        key_id,
        iv,
        partial_iv,
    )?;
    let view = LayerView {
        form: sealed.form,
        algorithm: number_in(&header.alg),
        key_id_place: place_of(&header.key_id, &sealed.unprotected.key_id),
        structure_len: sealed.structure.len(),
        proof_len: sealed.proof.len(),
        key_id_len: key_id.len(),
        iv_len: iv.len(),
        partial_iv_len: partial_iv.len(),
        len: text.len(),
    };
    Ok(Layer { view, text })
}

/// Returns the layer as waiting, or `OutOfMemory` if an allocation fails.
pub(crate) fn wait_for(alloc: Global, sealed: &Sealed<'_>) -> Waiting
    ensures { IsWaiting (seal_view sealed.now) result }
{
    match layer_of(alloc, sealed) {
        Ok(layer) => Waiting::Layer(layer),
        Err(_) => Waiting::OutOfMemory,
    }
}
