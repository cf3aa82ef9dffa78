//! The seals of a message, and of the messages in its payload.

ghost use Rattle.std.specs.Prelude.{◌≡◌, ◌≤◌, ◌++◌, IfOk, IfSome, Ok};
ghost use Rattle.std.specs.List.{All};
ghost use Rattle.tool_seals.specs.Seals.{IsOutermost, IsPart};
ghost use Rattle.tool_seals.specs.declared.message.Message.{Message};
ghost use Rattle.tool_seals.specs.declared.seal.Seal.{Seal};

use crate::countersigned::{abbreviated, first_version, second_version};
use crate::message::{Message, read_outermost, read_tagged};
use crate::own::own_seals;
use crate::seal::Seal;
use coset::{CoseError, Result};
use cwt_keys::Form;
use std::alloc::{AllocError, Global};

/// The greatest number of messages inside the outermost one.
const MAX_INNER: usize = 3;

/// The greatest number of seals.
pub(crate) const MOST: usize = 16;

/// The layer whose seals are sought.
#[derive(Clone, Copy)]
pub(crate) struct Asked<'a> {
    /// The allocator.
    pub alloc: Global,
    /// The index of the message, from the outermost in.
    pub layer: usize,
    /// The bytes that the application authenticates in addition to messages.
    pub external_aad: &'a [u8],
}

/// The seals of a message and of the messages in its payload.
#[derive(Drop)]
pub struct Seals {
    /// The seals, from the outermost layer in. There are at most 16.
    pub seals: Vec<Seal>,
    /// Whether there are more.
    pub has_more: bool,
}

/// Returns the two lists as one.
///
/// # Errors
/// `AllocError` if an allocation fails.
fn joined(mut list: Vec<Seal>, mut more: Vec<Seal>) -> Result<Vec<Seal>, AllocError>
    ensures { IfOk result (λ l. l.items ≡ list.items ++ more.items) }
{
    list.append(&mut more)?;
    Ok(list)
}

/// Returns the seals of one message: its own, and its countersignatures. Of each list, they are the
/// first 17 at most.
///
/// # Errors
/// `OutOfMemory` if an allocation fails.
fn of_message(asked: &Asked<'_>, message: &Message) -> Result<Vec<Seal>>
    ensures { IfOk result (λ l. All (IsPart asked.now.layer message.now
        asked.now.external_aad.now) l.items) }
{
    let target = message.target();
    let list = joined(own_seals(asked, message)?, first_version(asked, &target)?)?;
    let list = joined(list, second_version(asked, &target)?)?;
    Ok(joined(list, abbreviated(asked, &target)?)?)
}

/// Returns the result, or `None` if it is an error of the input.
///
/// # Errors
/// `AllocError` if an allocation failed.
fn unless_refused<T: Drop>(answer: Result<T>) -> Result<Option<T>, AllocError>
    ensures { IfOk result (λ o. IfSome o (λ x. answer ≡ Ok x)) }
{
    match answer {
        Ok(value) => Ok(Some(value)),
        Err(CoseError::OutOfMemory) => Err(AllocError),
        Err(_) => Ok(None),
    }
}

/// Returns the seals of a message. None are there if a structure can't be made, which happens to no
/// message that was read.
///
/// # Errors
/// `AllocError` if an allocation failed.
fn seals_in(asked: &Asked<'_>, message: &Message) -> Result<Vec<Seal>, AllocError>
    ensures { IfOk result (λ l. All (IsPart asked.now.layer message.now
        asked.now.external_aad.now) l.items) }
{
    match of_message(asked, message) {
        Ok(list) => Ok(list),
        Err(CoseError::OutOfMemory) => Err(AllocError),
        Err(_) => Ok(Vec::new(asked.alloc)),
    }
}

/// Reads the message in a payload, if it is one under its tag.
///
/// # Errors
/// `AllocError` if an allocation failed.
fn nested(alloc: Global, payload: Option<Vec<u8>>) -> Result<Option<Message>, AllocError> {
    match payload {
        Some(payload) => unless_refused(read_tagged(alloc, &payload)),
        None => Ok(None),
    }
}

/// Returns the seals of the messages in a payload.
///
/// # Errors
/// `AllocError` if an allocation fails.
fn inner_seals(
    alloc: Global,
    external_aad: &[u8],
    payload: Option<Vec<u8>>,
) -> Result<Vec<Seal>, AllocError>
    ensures { IfOk result (λ l. All (λ s. 1 ≤ s.layer) l.items) }
{
    let mut list = Vec::new(alloc);
    let mut next = nested(alloc, payload)?;
    for outer in 0..MAX_INNER {
        let Some(message) = next else {
            break;
        };
        let asked = Asked {
            alloc,
            layer: outer + 1,
            external_aad,
        };
        list = joined(list, seals_in(&asked, &message)?)?;
        next = nested(alloc, message.into_payload())?;
    }
    Ok(list)
}

/// Returns the signatures, MACs and ciphertexts of a message, with its countersignatures, and of
/// those in its payload. Returns `None` if the bytes aren't a message.
///
/// The message is of the form `form`, plain or under its tag. Without a form, its tag names it. Tag
/// 61 may be around that tag (RFC 8392, section 6). A message without any tag is of the first form
/// that fits: `COSE_Sign1`, `COSE_Mac0`, `COSE_Encrypt0`, and then those with lists.
///
/// A payload that is a message under its tag is the next layer. There are at most four layers.
/// `external_aad` is that of each layer.
///
/// # Errors
/// `AllocError` if an allocation fails.
pub fn seals_of(
    alloc: Global,
    form: Option<Form>,
    bytes: &[u8],
    external_aad: &[u8],
) -> Result<Option<Seals>, AllocError>
    // Each signature and MAC of the outermost message is over its structure.
    ensures { IfOk result (λ o. IfSome o (λ all. (m : Message) × IsOutermost form bytes.now m
        × All (λ s. s.layer ≡ 0 → IsPart 0 m external_aad.now s) all.seals.items)) }
{
    let Some(message) = unless_refused(read_outermost(alloc, form, bytes))? else {
        return Ok(None);
    };
    let asked = Asked {
        alloc,
        layer: 0,
        external_aad,
    };
    let list = seals_in(&asked, &message)?;
    let inner = inner_seals(alloc, external_aad, message.into_payload())?;
    let mut seals = joined(list, inner)?;
    let has_more = seals.len() > MOST;
    seals.truncate(MOST);
    Ok(Some(Seals { seals, has_more }))
}
