//! The results of the calls as text.

use crate::forms;
use coset::cbor::value::Value;
use coset::{AsCborValue, CborSerializable, Header, Label, ProtectedHeader, Result};
use cwt_verify::{Part, TokenError, VerifiedLayer, VerifiedToken};
use std::alloc::Global;
use std::fmt::{Debug, Display};
use test_lines::tell::{self, hexadecimal};

/// Returns the names, separated by `|`, or `-` if there are none.
///
/// # Errors
/// `OutOfMemory` if an allocation fails.
fn names(alloc: Global, names: &[String]) -> Result<String> {
    if names.is_empty() {
        return Ok(String::from_str(alloc, "-")?);
    }
    let mut text = String::new(alloc);
    for name in names {
        if !text.is_empty() {
            text.push_str("|")?;
        }
        text.push_str(name.as_str())?;
    }
    Ok(text)
}

/// Returns `@` and the name, or `-` if there is none.
///
/// # Errors
/// `OutOfMemory` if an allocation fails.
fn spelled_issuer(alloc: Global, name: Option<&str>) -> Result<String> {
    match name {
        Some(name) => Ok(format!(in alloc; "@{name}")?),
        None => Ok(String::from_str(alloc, "-")?),
    }
}

/// Returns the other claims as an array of labels and values, or `-` if there are none.
///
/// # Errors
/// `OutOfMemory` if an allocation fails.
fn spelled_others(alloc: Global, others: Vec<(Label, Value)>) -> Result<String> {
    if others.is_empty() {
        return Ok(String::from_str(alloc, "-")?);
    }
    let mut elements = Vec::new(alloc);
    for (label, value) in others {
        elements.push(label.to_cbor_value(alloc)?)?;
        elements.push(value)?;
    }
    hexadecimal(alloc, &Value::Array(elements).to_vec(alloc)?)
}

/// Returns the protected bytes and the unprotected header.
///
/// # Errors
/// `OutOfMemory` if an allocation fails.
fn headers(alloc: Global, protected: &ProtectedHeader, unprotected: Header) -> Result<String> {
    let protected = match &protected.original_data {
        Some(bytes) => hexadecimal(alloc, bytes)?,
        None => String::from_str(alloc, "none")?,
    };
    let unprotected = hexadecimal(alloc, &unprotected.to_vec(alloc)?)?;
    Ok(format!(in alloc; "{protected}/{unprotected}")?)
}

/// Returns the part that was accepted: `/by/` and the headers and bytes of a signature, `/for/` and
/// the headers of a recipient, or nothing for a whole layer.
///
/// # Errors
/// `OutOfMemory` if an allocation fails.
fn spelled_part(alloc: Global, part: Part) -> Result<String> {
    match part {
        Part::Whole => Ok(String::new(alloc)),
        Part::Signature(by) => {
            let unprotected = by.unprotected;
            let bytes = hexadecimal(alloc, &by.signature)?;
            let headers = headers(alloc, &by.protected, unprotected)?;
            Ok(format!(in alloc; "/by/{headers}/{bytes}")?)
        }
        Part::Recipient(to) => {
            let unprotected = to.unprotected;
            let headers = headers(alloc, &to.protected, unprotected)?;
            Ok(format!(in alloc; "/for/{headers}")?)
        }
    }
}

/// Returns the layer's form, its protected bytes, its unprotected header, its issuer, and the part
/// that was accepted.
///
/// # Errors
/// `OutOfMemory` if an allocation fails.
fn spelled_layer(alloc: Global, layer: VerifiedLayer<'_>) -> Result<String> {
    let VerifiedLayer {
        form,
        protected,
        unprotected,
        part,
        issuer,
    } = layer;
    let issuer = spelled_issuer(alloc, issuer)?;
    let headers = headers(alloc, &protected, unprotected)?;
    let part = spelled_part(alloc, part)?;
    let form = forms::spelled(form);
    Ok(format!(in alloc; " {form}/{headers}/{issuer}{part}")?)
}

/// Returns the parts of a token that was accepted.
///
/// # Errors
/// `OutOfMemory` if an allocation fails.
fn accepted(alloc: Global, token: VerifiedToken<'_>) -> Result<String> {
    let VerifiedToken {
        claims,
        audience,
        others,
        issuer,
        layers,
    } = token;
    let audience = names(alloc, &audience)?;
    let issuer = spelled_issuer(alloc, issuer)?;
    let others = spelled_others(alloc, others)?;
    let claims = tell::value(alloc, Ok(claims))?;
    let mut text = format!(in alloc; "{claims} aud {audience} others {others} iss {issuer}")?;
    text.push_str(" layers")?;
    for verified in layers {
        text.push_str(&spelled_layer(alloc, verified)?)?;
    }
    Ok(text)
}

/// Returns the parts of a token that was accepted, or both texts of the reason why it wasn't.
///
/// # Errors
/// `OutOfMemory` if an allocation fails.
pub fn told<E: Debug + Display + Drop>(
    alloc: Global,
    answer: std::result::Result<VerifiedToken<'_>, TokenError<E>>,
) -> Result<String> {
    match answer {
        Ok(token) => accepted(alloc, token),
        Err(error) => Ok(format!(in alloc; "{error:?}; {error}")?),
    }
}
