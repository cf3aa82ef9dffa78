//! The layers that a caller opened.

ghost use Rattle.std.specs.Prelude.{◌≡◌, option_map};
ghost use Rattle.std.specs.List.{list_all};
ghost use Rattle.std.specs.Option.{option_copied};
ghost use Rattle.cwt_keys.specs.Keys.{name_view};
ghost use Rattle.cwt_keys.specs.Sealed.{seal_view};
ghost use Rattle.ffi_token.specs.Opened.{content_in, form_number, has_text, is_at, is_of, name_at, name_in, opened_in, slice_at};

use crate::layer::{Waiting, wait_for};
use crate::text::text_in;
use cwt_keys::{Form, Keys, Sealed};
use std::alloc::Global;

/// A layer that the caller opened: it verified the signature or the MAC, or decrypted the
/// ciphertext. The layer's bytes are in [`OpenedLayers`].
#[repr(C)]
#[derive(Clone, Copy, Debug, PartialEq, Eq)]
pub struct Opened {
    /// The form's number in `coset.h`: 1 for `COSE_Sign1`, 3 for `COSE_Mac0`, 5 for
    /// `COSE_Encrypt0`.
    pub form: u32,
    /// The offset of the layer's bytes: the structure, and then the signature, the MAC or the
    /// ciphertext.
    pub offset: usize,
    /// The length of the structure.
    pub structure_len: usize,
    /// The length of the signature, the MAC or the ciphertext.
    pub proof_len: usize,
    /// The offset of an encrypted layer's plaintext, or 0 for any other layer.
    pub plaintext: usize,
    /// The length of an encrypted layer's plaintext, or 0 for any other layer.
    pub plaintext_len: usize,
    /// The offset of the name of the issuer whose key opened the layer, or 0 for no name.
    pub issuer: usize,
    /// The length of that name, or 0 for no name.
    pub issuer_len: usize,
}

/// The layers that a caller opened, in any order.
#[derive(Clone, Copy)]
pub struct OpenedLayers<'a> {
    /// The allocator for the texts of a layer that waits.
    pub alloc: Global,
    /// The opened layers.
    pub layers: &'a [Opened],
    /// The bytes that the layers' offsets point into.
    pub bytes: &'a [u8],
}

/// Returns `len` bytes from the offset, if there are that many.
fn slice_at(bytes: &[u8], offset: usize, len: usize) -> Option<&[u8]>
    ensures { option_copied result ≡ slice_at bytes.now offset len }
{
    let end = offset.checked_add(len)?;
    bytes.get(offset..end)
}

/// Returns true if the `len` bytes at the offset are `wanted`.
fn is_at(bytes: &[u8], offset: usize, len: usize, wanted: &[u8]) -> bool
    ensures { result ≡ is_at bytes.now offset len wanted.now }
{
    match slice_at(bytes, offset, len) {
        Some(found) => found == wanted,
        None => false,
    }
}

/// Returns the number of a form in `coset.h`.
pub fn form_number(form: Form) -> u32
    ensures { result ≡ form_number form }
{
    match form {
        Form::Sign1 => 1,
        Form::Mac0 => 3,
        Form::Encrypt0 => 5,
        Form::Sign => 2,
        Form::Mac => 4,
        Form::Encrypt => 6,
    }
}

/// Returns true if `opened` is this layer.
fn is_of(bytes: &[u8], opened: &Opened, sealed: &Sealed<'_>) -> bool
    ensures { result ≡ is_of bytes.now (seal_view sealed.now) opened.now }
{
    if opened.form != form_number(sealed.form) {
        return false;
    }
    if !is_at(bytes, opened.offset, opened.structure_len, sealed.structure) {
        return false;
    }
    match opened.offset.checked_add(opened.structure_len) {
        Some(proof) => is_at(bytes, proof, opened.proof_len, sealed.proof),
        None => false,
    }
}

/// Returns the name that the bytes are: no name if they are empty. Returns `None` if they aren't
/// UTF-8.
fn name_in(bytes: &[u8]) -> Option<Option<&str>>
    ensures { option_map name_view result ≡ name_in bytes.now }
{
    if bytes.is_empty() {
        return Some(None);
    }
    match text_in(bytes) {
        Some(name) => Some(Some(name)),
        None => None,
    }
}

/// Returns the name of the issuer whose key opened the layer. Returns `None` if it isn't in the
/// bytes, or isn't UTF-8.
fn name_at<'a>(bytes: &'a [u8], opened: &Opened) -> Option<Option<&'a str>>
    ensures { option_map name_view result ≡ name_at bytes.now opened.now }
{
    match slice_at(bytes, opened.issuer, opened.issuer_len) {
        Some(name) => name_in(name),
        None => None,
    }
}

/// Returns the plaintext, and the name of the issuer, if `opened` is this layer.
fn content_in<'a>(
    bytes: &'a [u8],
    opened: &Opened,
    sealed: &Sealed<'_>,
) -> Option<(&'a [u8], Option<&'a str>)>
    ensures { option_map (λ x. (x.0.now, name_view x.1)) result
        ≡ content_in bytes.now (seal_view sealed.now) opened.now }
{
    if !is_of(bytes, opened, sealed) {
        return None;
    }
    let content = slice_at(bytes, opened.plaintext, opened.plaintext_len)?;
    let issuer = name_at(bytes, opened)?;
    Some((content, issuer))
}

/// Returns true if the name of the issuer is UTF-8, or isn't in the bytes.
fn has_text(bytes: &[u8], opened: &Opened) -> bool
    ensures { result ≡ has_text bytes.now opened.now }
{
    match slice_at(bytes, opened.issuer, opened.issuer_len) {
        Some(name) => text_in(name).is_some(),
        None => true,
    }
}

impl<'a> OpenedLayers<'a> {
    /// Returns true if the names of all issuers are UTF-8. A name that isn't in the bytes doesn't
    /// count: its layer is not opened.
    pub fn have_texts(&self) -> bool
        ensures { result ≡ list_all (has_text self.now.bytes.now) self.now.layers.now }
    {
        self.layers
            .iter()
            .all(|opened| has_text(self.bytes, opened))
    }

    /// Returns the plaintext of the first opened layer that is this one, and the name of its
    /// issuer.
    fn find(&self, sealed: &Sealed<'_>) -> Option<(&'a [u8], Option<&'a str>)>
        ensures { option_map (λ x. (x.0.now, name_view x.1)) result
            ≡ opened_in self.now.bytes.now self.now.layers.now (seal_view sealed.now) }
    {
        for opened in self.layers {
            if let Some(content) = content_in(self.bytes, opened, sealed) {
                return Some(content);
            }
        }
        None
    }
}

impl Keys for OpenedLayers<'_> {
    ghost use Rattle.ffi_token.specs.Opened.{opened_view};

    type Error = Waiting;

    ghost view = { λ k. opened_view k.bytes.now k.layers.now };

    fn verify<'k>(&'k self, sealed: &Sealed<'_>) -> Result<Option<&'k str>, Waiting> {
        match self.find(sealed) {
            Some((_, issuer)) => Ok(issuer),
            None => Err(wait_for(self.alloc, sealed)),
        }
    }

    fn decrypt<'k>(
        &'k self,
        alloc: Global,
        sealed: &Sealed<'_>,
    ) -> Result<(Vec<u8>, Option<&'k str>), Waiting> {
        match self.find(sealed) {
            Some((plaintext, issuer)) => match Vec::from_slice(alloc, plaintext) {
                Ok(plaintext) => Ok((plaintext, issuer)),
                Err(_) => Err(Waiting::OutOfMemory),
            },
            None => Err(wait_for(alloc, sealed)),
        }
    }
}
