//! Calls of `CoseMac` and its builder.

use crate::missing::no_payload;
use coset::{CoseMac, CoseMacBuilder, Result};
use std::alloc::Global;
use test_lines::answer::Answer;
use test_lines::asked::{Asked, missing};
use test_lines::builder::{and_each, built};
use test_lines::message::{Given, Headed, Message, and, unknown};
use test_lines::words::{Rest, Words};
use test_lines::{header, mark};

/// The calls of `CoseMac`.
pub struct MacCalls;

/// Returns a builder with the message's headers and recipients, the payload, and the tag.
///
/// # Errors
/// `OutOfMemory` if an allocation fails.
fn taken(alloc: Global, message: CoseMac) -> Result<(CoseMacBuilder, Option<Vec<u8>>, Vec<u8>)> {
    let CoseMac {
        protected,
        unprotected,
        payload,
        tag,
        recipients,
    } = message;
    let builder = CoseMacBuilder::new(alloc)
        .protected(protected.header)
        .unprotected(unprotected);
    Ok((and_each(builder, recipients)?, payload, tag))
}

/// Adds a recipient to a message, of which only the headers and the recipients are used.
///
/// # Errors
/// - A fault in the arguments.
/// - `OutOfMemory` if an allocation fails.
pub fn add_recipient(alloc: Global, words: &Words<'_>) -> Result<String> {
    let (builder, _, _) = taken(alloc, words.value(alloc, 1)?)?;
    and(alloc, builder, words)
}

/// Sets the payload, if there is one.
fn with_payload(builder: CoseMacBuilder, payload: Option<Vec<u8>>) -> CoseMacBuilder {
    match payload {
        Some(payload) => builder.payload(payload),
        None => builder,
    }
}

impl Headed for MacCalls {
    type Made = CoseMac;

    const CALL: &'static str = "call of CoseMac";

    fn change(message: &mut CoseMac, word: &str) -> Result<()> {
        header::change(&mut message.protected, word)
    }

    fn rebuilt(alloc: Global, message: CoseMac) -> Result<CoseMac> {
        let (builder, payload, tag) = taken(alloc, message)?;
        let builder = builder.tag_from(alloc, &tag)?;
        match payload {
            Some(payload) => Ok(builder.payload_from(alloc, &payload)?.build()),
            None => Ok(builder.build()),
        }
    }
}

impl Message for MacCalls {
    type Beside = ();

    fn beside(_alloc: Global, _name: &str, _words: &mut Rest<'_>) -> Result<()> {
        Ok(())
    }

    fn ask(
        message: CoseMac,
        given: Given<'_, ()>,
        asked: &mut Asked,
        missed: &mut u32,
    ) -> Result<Answer<CoseMac>> {
        let (alloc, says_yes) = (given.alloc, given.says_yes);
        let (content, aad) = (&given.content, &given.aad);
        let judge = move |tag: &[u8], tbm: &[u8]| asked.judge(tag, tbm, says_yes);
        Ok(match given.name {
            "verify_tag" => {
                if message.payload.is_none() {
                    return Err(no_payload());
                }
                Answer::Judged(message.verify_tag(alloc, aad, judge))
            }
            "verify_payload_tag" => Answer::Judged(message.verify_payload_tag(
                alloc,
                aad,
                move || missing(missed),
                judge,
            )),
            "verify_detached_tag" => {
                Answer::Judged(message.verify_detached_tag(alloc, content, aad, judge))
            }
            "tbm" => Answer::Perhaps(message.tbm(alloc, aad)),
            "tbm_detached" => Answer::Bytes(message.tbm_detached(alloc, content, aad)),
            _ => return Err(unknown::<MacCalls>()),
        })
    }

    fn create(
        message: CoseMac,
        given: Given<'_, ()>,
        asked: &mut Asked,
    ) -> Result<Answer<CoseMac>> {
        let (builder, payload, _) = taken(given.alloc, message)?;
        mark::begin(given.alloc);
        if given.name.contains("_detached_") {
            create_detached(with_payload(builder, payload), &given, asked)
        } else {
            create_attached(builder, payload, &given, asked)
        }
    }
}

/// Makes the builder's call of that name, which authenticates the message's own payload.
///
/// # Errors
/// A fault if the name isn't known, or there is no payload.
fn create_attached(
    builder: CoseMacBuilder,
    payload: Option<Vec<u8>>,
    given: &Given<'_, ()>,
    asked: &mut Asked,
) -> Result<Answer<CoseMac>> {
    let (alloc, aad) = (given.alloc, &given.aad);
    Ok(match given.name {
        "create_tag" => {
            let builder = builder.payload(payload.ok_or(no_payload())?);
            Answer::Made(built(builder.create_tag(alloc, aad, move |tbm| asked.make(&[], tbm))))
        }
        "try_create_tag" => {
            let builder = builder.payload(payload.ok_or(no_payload())?);
            Answer::Tried(built(builder.try_create_tag(
                alloc,
                aad,
                move |tbm| asked.try_make(&[], tbm),
            )))
        }
        _ => return Err(unknown::<MacCalls>()),
    })
}

/// Makes the builder's call of that name, which authenticates a detached payload.
///
/// # Errors
/// A fault if the name isn't known.
fn create_detached(
    builder: CoseMacBuilder,
    given: &Given<'_, ()>,
    asked: &mut Asked,
) -> Result<Answer<CoseMac>> {
    let (alloc, content, aad) = (given.alloc, &given.content, &given.aad);
    Ok(match given.name {
        "create_detached_tag" => Answer::Made(built(builder.create_detached_tag(
            alloc,
            content,
            aad,
            move |tbm| asked.make(&[], tbm),
        ))),
        "try_create_detached_tag" => Answer::Tried(built(builder.try_create_detached_tag(
            alloc,
            content,
            aad,
            move |tbm| asked.try_make(&[], tbm),
        ))),
        _ => return Err(unknown::<MacCalls>()),
    })
}
