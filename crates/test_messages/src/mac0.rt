//! Calls of `CoseMac0` and its builder.

use crate::missing::no_payload;
use coset::{CoseMac0, CoseMac0Builder, Result};
use std::alloc::Global;
use test_lines::answer::Answer;
use test_lines::asked::{Asked, missing};
use test_lines::builder::built;
use test_lines::message::{Given, Headed, Message, unknown};
use test_lines::words::Rest;
use test_lines::{header, mark};

/// The calls of `CoseMac0`.
pub struct Mac0Calls;

/// Returns a builder with the message's headers, the payload, and the tag.
fn taken(alloc: Global, message: CoseMac0) -> (CoseMac0Builder, Option<Vec<u8>>, Vec<u8>) {
    let CoseMac0 {
        protected,
        unprotected,
        payload,
        tag,
    } = message;
    let builder = CoseMac0Builder::new(alloc)
        .protected(protected.header)
        .unprotected(unprotected);
    (builder, payload, tag)
}

/// Sets the payload, if there is one.
fn with_payload(builder: CoseMac0Builder, payload: Option<Vec<u8>>) -> CoseMac0Builder {
    match payload {
        Some(payload) => builder.payload(payload),
        None => builder,
    }
}

impl Headed for Mac0Calls {
    type Made = CoseMac0;

    const CALL: &'static str = "call of CoseMac0";

    fn change(message: &mut CoseMac0, word: &str) -> Result<()> {
        header::change(&mut message.protected, word)
    }

    fn rebuilt(alloc: Global, message: CoseMac0) -> Result<CoseMac0> {
        let (builder, payload, tag) = taken(alloc, message);
        let builder = builder.tag_from(alloc, &tag)?;
        match payload {
            Some(payload) => Ok(builder.payload_from(alloc, &payload)?.build()),
            None => Ok(builder.build()),
        }
    }
}

impl Message for Mac0Calls {
    type Beside = ();

    fn beside(_alloc: Global, _name: &str, _words: &mut Rest<'_>) -> Result<()> {
        Ok(())
    }

    fn ask(
        message: CoseMac0,
        given: Given<'_, ()>,
        asked: &mut Asked,
        missed: &mut u32,
    ) -> Result<Answer<CoseMac0>> {
        let (alloc, says_yes) = (given.alloc, given.says_yes);
        let (content, aad) = (&given.content, &given.aad);
        let judge = move |tag: &[u8], tbm: &[u8]| asked.judge(tag, tbm, says_yes);
        Ok(match given.name {
            "verify_tag" => {
                if message.payload.is_none() {
                    return Err(no_payload());
                }
                Answer::Judged(message.verify_tag(alloc, aad, judge))
            }
            "verify_payload_tag" => Answer::Judged(message.verify_payload_tag(
                alloc,
                aad,
                move || missing(missed),
                judge,
            )),
            "verify_detached_tag" => {
                Answer::Judged(message.verify_detached_tag(alloc, content, aad, judge))
            }
            "tbm" => Answer::Perhaps(message.tbm(alloc, aad)),
            "tbm_detached" => Answer::Bytes(message.tbm_detached(alloc, content, aad)),
            _ => return Err(unknown::<Mac0Calls>()),
        })
    }

    fn create(
        message: CoseMac0,
        given: Given<'_, ()>,
        asked: &mut Asked,
    ) -> Result<Answer<CoseMac0>> {
        let (builder, payload, _) = taken(given.alloc, message);
        mark::begin(given.alloc);
        if given.name.contains("_detached_") {
            create_detached(with_payload(builder, payload), &given, asked)
        } else {
            create_attached(builder, payload, &given, asked)
        }
    }
}

/// Makes the builder's call of that name, which authenticates the message's own payload.
///
/// # Errors
/// A fault if the name isn't known, or there is no payload.
fn create_attached(
    builder: CoseMac0Builder,
    payload: Option<Vec<u8>>,
    given: &Given<'_, ()>,
    asked: &mut Asked,
) -> Result<Answer<CoseMac0>> {
    let (alloc, aad) = (given.alloc, &given.aad);
    Ok(match given.name {
        "create_tag" => {
            let builder = builder.payload(payload.ok_or(no_payload())?);
            Answer::Made(built(builder.create_tag(alloc, aad, move |tbm| asked.make(&[], tbm))))
        }
        "try_create_tag" => {
            let builder = builder.payload(payload.ok_or(no_payload())?);
            Answer::Tried(built(builder.try_create_tag(
                alloc,
                aad,
                move |tbm| asked.try_make(&[], tbm),
            )))
        }
        _ => return Err(unknown::<Mac0Calls>()),
    })
}

/// Makes the builder's call of that name, which authenticates a detached payload.
///
/// # Errors
/// A fault if the name isn't known.
fn create_detached(
    builder: CoseMac0Builder,
    given: &Given<'_, ()>,
    asked: &mut Asked,
) -> Result<Answer<CoseMac0>> {
    let (alloc, content, aad) = (given.alloc, &given.content, &given.aad);
    Ok(match given.name {
        "create_detached_tag" => Answer::Made(built(builder.create_detached_tag(
            alloc,
            content,
            aad,
            move |tbm| asked.make(&[], tbm),
        ))),
        "try_create_detached_tag" => Answer::Tried(built(builder.try_create_detached_tag(
            alloc,
            content,
            aad,
            move |tbm| asked.try_make(&[], tbm),
        ))),
        _ => return Err(unknown::<Mac0Calls>()),
    })
}
