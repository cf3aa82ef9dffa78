//! Writing a token that was accepted as one item: `verified_token` of
//! [`open_token`](crate::open_token).

ghost use Rattle.std.specs.Prelude.{IfErr, OnOk, length, map, option_map};
ghost use Rattle.coset.specs.Encoding.{AppendsElements, Encodes, HasNoImage};
ghost use Rattle.coset.specs.Item.{array};
ghost use Rattle.coset.specs.LabelViews.{entry_view};
ghost use Rattle.coset.specs.Shape.{images};
ghost use Rattle.coset_cbor.specs.Least.{Extends};
ghost use Rattle.cwt_keys.specs.Keys.{name_view};
ghost use Rattle.cwt_verify.specs.Opening.{verified_view};
ghost use Rattle.cwt_verify.specs.Verify.{token_view};
ghost use Rattle.ffi_token.specs.Written.{layer_image, name_image, others_image, token_image};

use crate::opened::form_number;
use coset::cbor::ser::{write_array_head, write_text};
use coset::cbor::value::Value;
use coset::{Encode, Label, Result};
use coset_codec::write::{
    Array, encode_five, encode_four, rolled_back, write_pairs_head, write_rest,
};
use coset_core::ProtectedRef;
use cwt_verify::{VerifiedLayer, VerifiedToken};
use std::alloc::Global;

/// The name of an issuer, which is written as a text, or as null if there is none.
#[derive(Clone, Copy)]
struct Name<'a>(Option<&'a str>);

impl Encode for Name<'_> {
    ghost image = { λ n. name_image (name_view n.0) };

    fn encode(&self, alloc: Global, out: &mut Vec<u8>) -> Result<()> {
        match self.0 {
            Some(name) => Ok(write_text(name, out)?),
            None => Value::Null.encode(alloc, out),
        }
    }
}

/// The claims with labels that have no meaning, which are written as a map.
#[derive(Clone, Copy)]
struct Others<'a>(&'a [(Label, Value)]);

/// Appends the map of these pairs.
fn write_others(alloc: Global, others: &[(Label, Value)], out: &mut Vec<u8>) -> Result<()>
    ensures written { Encodes (others_image (map entry_view others.now)) out.old.items
        out.new.items result }
    ensures kept { Extends out.old.items out.new.items }
{
    write_pairs_head(&[], others, out)?;
    write_rest(alloc, others, out)
}

impl Encode for Others<'_> {
    ghost image = { λ o. others_image (map entry_view o.0.now) };

    fn encode(&self, alloc: Global, out: &mut Vec<u8>) -> Result<()> {
        let before = out.len();
        let written = write_others(alloc, self.0, out);
        rolled_back(written, before, out)
    }
}

/// Appends the array of a layer.
fn write_layer(alloc: Global, layer: &VerifiedLayer<'_>, out: &mut Vec<u8>) -> Result<()>
    ensures written { Encodes (layer_image (verified_view layer.now)) out.old.items
        out.new.items result }
    ensures kept { Extends out.old.items out.new.items }
{
    let form = u64::from(form_number(layer.form));
    let protected = ProtectedRef(&layer.protected);
    encode_four(
        alloc,
        &form,
        &protected,
        &layer.unprotected,
        &Name(layer.issuer),
        out,
    )
}

/// Appends the arrays of the layers, one after the other.
fn write_each(alloc: Global, layers: &[VerifiedLayer<'_>], out: &mut Vec<u8>) -> Result<()>
    ensures ok { OnOk result (AppendsElements
        (images (λ l. layer_image (verified_view l)) layers.now)
        (length layers.now) out.old.items out.new.items) }
    ensures refused { IfErr result (HasNoImage
        (images (λ l. layer_image (verified_view l)) layers.now)) }
    ensures kept { Extends out.old.items out.new.items }
{
    for layer in layers {
        write_layer(alloc, layer, out)?;
    }
    Ok(())
}

/// Appends the array of the layers.
fn write_layers(alloc: Global, layers: &[VerifiedLayer<'_>], out: &mut Vec<u8>) -> Result<()>
    ensures written { Encodes (option_map array (images layer_image (map verified_view layers.now)))
        out.old.items out.new.items result }
    ensures kept { Extends out.old.items out.new.items }
{
    write_array_head(layers.len(), out)?;
    write_each(alloc, layers, out)
}

/// The layers of a token, which are written as an array.
#[derive(Clone, Copy)]
struct Layers<'a>(&'a [VerifiedLayer<'a>]);

impl Encode for Layers<'_> {
    ghost image = { λ l. option_map array (images layer_image (map verified_view l.0.now)) };

    fn encode(&self, alloc: Global, out: &mut Vec<u8>) -> Result<()> {
        let before = out.len();
        let written = write_layers(alloc, self.0, out);
        rolled_back(written, before, out)
    }
}

/// Appends the array of a token.
fn write_token<'a>(alloc: Global, token: &'a VerifiedToken<'a>, out: &mut Vec<u8>) -> Result<()>
    ensures written { Encodes (token_image (token_view token.now)) out.old.items out.new.items
        result }
    ensures kept { Extends out.old.items out.new.items }
{
    encode_five(
        alloc,
        &token.claims,
        &Array(&token.audience),
        &Others(&token.others),
        &Name(token.issuer),
        &Layers(&token.layers),
        out,
    )
}

/// A token that was accepted, to be written as one item.
#[derive(Clone, Copy)]
pub(crate) struct Written<'a>(pub(crate) &'a VerifiedToken<'a>);

impl Encode for Written<'_> {
    ghost image = { λ t. token_image (token_view t.0.now) };

    fn encode(&self, alloc: Global, out: &mut Vec<u8>) -> Result<()> {
        let before = out.len();
        let written = write_token(alloc, self.0, out);
        rolled_back(written, before, out)
    }
}
