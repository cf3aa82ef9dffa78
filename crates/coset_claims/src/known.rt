//! Claims sets with claims that aren't understood, or with several names of the audience.
//!
//! Claims that aren't understood are ignored (RFC 8392, section 3). `ClaimsSet::from_slice` refuses
//! the whole set instead, if the number of one of its claims is neither assigned by IANA nor for
//! private use. It also refuses an audience that is an array of texts (section 3.1.3).

ghost use Rattle.std.specs.Prelude.{◌≡◌, IfOk, IfErr, map, option_map, string_bytes};
ghost use Rattle.std.specs.Option.{option_to_list};
ghost use Rattle.coset_cbor.specs.Elements.{items_left, pairs_left};
ghost use Rattle.coset_cbor.specs.Pulls.{pull_item};
ghost use Rattle.coset_codec.specs.Lists.{ReadsEach};
ghost use Rattle.coset_codec.specs.Results.{AllocatesForItems, Describes, IsRefused, Reads};
ghost use Rattle.coset_codec.specs.Shape.{tstr};
ghost use Rattle.coset_codec.specs.declared.error.CoseError.TheVariants.{OutOfMemory};
ghost use Rattle.coset_claims.specs.Claims.{claims_view};
ghost use Rattle.coset_claims.specs.Known.{IsNamed, ReadsAudience, SplitsOff, aud_array, is_aud, known, known_view, only_claims, parts_view};

use crate::claims_set::ClaimsSet;
use coset_cbor::de::{Items, Pairs, Pull};
use coset_cbor::value::{Integer, Value};
use coset_codec::read::read_alone;
use coset_codec::traits::whole_item;
use coset_codec::util::pull_type_error;
use coset_codec::{AsCborValue, CoseError, FromPull, Result, has_repeats};
use coset_iana::{CwtClaimName, EnumI64};
use coset_label::{ClaimName, Label};
use std::alloc::Global;

/// The claims of a token that are understood, and all others.
#[derive(Debug, Drop)]
pub struct KnownClaims {
    /// The claims whose names are numbers assigned by IANA, numbers for private use, or texts.
    ///
    /// Their `audience` is `None` if the audience is an array.
    pub claims: ClaimsSet,
    /// All names of the audience, in order (claim 3). They are the texts of an array, or the one
    /// text. The list is empty exactly if there is no audience.
    pub audience: Vec<String>,
    /// All other claims, in order, with their labels.
    pub others: Vec<(Label, Value)>,
}

/// The pairs of a claims set, the arrays of its audience, and the labels and values of claims that
/// the set can't contain.
#[derive(Drop)]
struct Parts<'a> {
    named: Vec<(Value, Value)>,
    audiences: Vec<Items<'a>>,
    others: Vec<(Label, Value)>,
}

/// Returns true if `key` is the name of a claim that a claims set can contain.
///
/// # Errors
/// `OutOfMemory` if an allocation fails.
fn is_name(alloc: Global, key: Pull<'_>) -> Result<bool>
    ensures named { IfOk result (λ b. IsNamed b (pull_item key.entry)) }
    ensures memory { IfErr result (λ e. e ≡ OutOfMemory) }
{
    Ok(read_alone::<ClaimName>(alloc, key)?.is_ok())
}

/// Returns true if `key` is the number of the audience.
fn is_aud(key: Pull<'_>) -> bool
    ensures { result ≡ is_aud (pull_item key.entry) }
{
    match key.integer() {
        Some(number) => number == Integer::from(CwtClaimName::Aud.to_i64()),
        None => false,
    }
}

/// Returns the elements of the array, if the pair is an audience in an array.
fn aud_array<'a>(key: Pull<'_>, value: Pull<'a>) -> Option<Items<'a>>
    ensures { option_map items_left result
        ≡ aud_array (pull_item key.entry) (pull_item value.entry) }
{
    if is_aud(key) { value.items() } else { None }
}

/// Splits the pairs by their keys.
///
/// # Errors
/// - `OutOfMemory` if an allocation fails.
/// - The fault of a key that is neither a claim's name nor a label.
fn split(alloc: Global, pairs: Pairs<'_>) -> Result<Parts<'_>>
    ensures { SplitsOff (pairs_left pairs.entry) parts_view result }
{
    let mut named = Vec::new(alloc);
    let mut audiences = Vec::new(alloc);
    let mut others = Vec::new(alloc);
    for (key, value) in pairs {
        if let Some(names) = aud_array(key, value) {
            audiences.push(names)?;
        } else if is_name(alloc, key)? {
            named.push((key.to_value(alloc)?, value.to_value(alloc)?))?;
        } else {
            others.push((Label::from_pull(alloc, key)?, value.to_value(alloc)?))?;
        }
    }
    Ok(Parts {
        named,
        audiences,
        others,
    })
}

/// Reads each element of an array as a text, in order.
///
/// # Errors
/// - `OutOfMemory` if an allocation fails.
/// - `UnexpectedItem` for the first element that is no text.
fn texts(alloc: Global, elements: Items<'_>) -> Result<Vec<String>>
    ensures { ReadsEach tstr string_bytes (items_left elements.entry) result }
{
    let mut texts = Vec::new(alloc);
    for element in elements {
        match element.to_text(alloc)? {
            Some(text) => texts.push(text)?,
            None => return Err(pull_type_error(element, "tstr")),
        }
    }
    Ok(texts)
}

/// Returns a list of the text, or an empty list if there is none.
///
/// # Errors
/// `OutOfMemory` if an allocation fails.
fn as_list(alloc: Global, text: &Option<String>) -> Result<Vec<String>>
    ensures list { IfOk result (λ all. map string_bytes all.items
        ≡ option_to_list (option_map string_bytes text.now)) }
    ensures memory { IfErr result (λ e. e ≡ OutOfMemory) }
{
    let mut list = Vec::new(alloc);
    if let Some(text) = text {
        list.push(text.clone()?)?;
    }
    Ok(list)
}

/// Returns the names of the audience, which is the text or one of the arrays.
///
/// # Errors
/// - `OutOfMemory` if an allocation fails.
/// - `DuplicateMapKey` if there is more than one audience.
/// - `UnexpectedItem` if the array is empty, or has an element that is no text.
fn audience(alloc: Global, arrays: &[Items<'_>], text: &Option<String>) -> Result<Vec<String>>
    ensures { ReadsAudience (λ all. map string_bytes all.items) (map items_left arrays.now)
        (option_map string_bytes text.now) result }
{
    let Some(elements) = arrays.first() else {
        return as_list(alloc, text);
    };
    if arrays.len() > 1 || text.is_some() {
        return Err(CoseError::DuplicateMapKey);
    }
    let names = texts(alloc, *elements)?;
    if names.is_empty() {
        return Err(CoseError::UnexpectedItem("empty array", "non-empty array"));
    }
    Ok(names)
}

/// Returns these claims without others, and the audience as a list.
///
/// # Errors
/// `OutOfMemory` if an allocation fails.
fn only_claims(alloc: Global, claims: ClaimsSet) -> Result<KnownClaims>
    ensures known { IfOk result (λ k. known_view k ≡ only_claims (claims_view claims)) }
    ensures memory { IfErr result (λ e. e ≡ OutOfMemory) }
{
    let audience = as_list(alloc, &claims.audience)?;
    Ok(KnownClaims {
        claims,
        audience,
        others: Vec::new(alloc),
    })
}

impl ClaimsSet {
    /// Decodes a claims set, and separates the claims that aren't understood.
    ///
    /// Their numbers are neither assigned by IANA nor for private use (RFC 8392, section 3). The
    /// audience is a text or an array of texts (section 3.1.3). `from_slice` refuses a claims set
    /// with such a claim or such an array.
    ///
    /// # Errors
    /// - `OutOfMemory` if an allocation fails. This happens only if the bytes are one item.
    /// - `DuplicateMapKey` if two keys are the same label.
    /// - A fault in the bytes, if they are not a map whose keys are labels.
    /// - A fault in the claims that are understood, if they are not a claims set.
    /// - `UnexpectedItem` if the audience is an empty array, or has an element that is no text.
    pub fn known_from_slice(alloc: Global, bytes: &[u8]) -> Result<KnownClaims>
        ensures read { IfOk result (λ c. Describes known bytes.now (known_view c)) }
        ensures refused { IfErr result (λ e. IsRefused known bytes.now e) }
        ensures memory { AllocatesForItems bytes.now result }
    {
        let set = whole_item(bytes)?;
        if let Ok(all) = ClaimsSet::from_pull(alloc, set) {
            return only_claims(alloc, all);
        }
        let Some(pairs) = set.pairs() else {
            return Err(pull_type_error(set, "map"));
        };
        let parts = split(alloc, pairs)?;
        if has_repeats(alloc, &parts.others)? {
            return Err(CoseError::DuplicateMapKey);
        }
        let claims = ClaimsSet::from_cbor_value(alloc, Value::Map(parts.named))?;
        let audience = audience(alloc, &parts.audiences, &claims.audience)?;
        Ok(KnownClaims {
            claims,
            audience,
            others: parts.others,
        })
    }
}
