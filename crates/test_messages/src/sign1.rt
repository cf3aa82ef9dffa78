//! Calls of `CoseSign1` and its builder.

use coset::{CoseSign1, CoseSign1Builder, Result};
use std::alloc::Global;
use test_lines::answer::Answer;
use test_lines::asked::Asked;
use test_lines::builder::built;
use test_lines::message::{Given, Headed, Message, unknown};
use test_lines::words::Rest;
use test_lines::{header, mark};

/// The calls of `CoseSign1`.
pub struct Sign1Calls;

impl Headed for Sign1Calls {
    type Made = CoseSign1;

    const CALL: &'static str = "call of CoseSign1";

    fn change(message: &mut CoseSign1, word: &str) -> Result<()> {
        header::change(&mut message.protected, word)
    }

    fn rebuilt(alloc: Global, message: CoseSign1) -> Result<CoseSign1> {
        let CoseSign1 {
            protected,
            unprotected,
            payload,
            signature,
        } = message;
        let builder = CoseSign1Builder::new(alloc)
            .protected(protected.header)
            .unprotected(unprotected)
            .signature_from(alloc, &signature)?;
        match payload {
            Some(payload) => Ok(builder.payload_from(alloc, &payload)?.build()),
            None => Ok(builder.build()),
        }
    }
}

impl Message for Sign1Calls {
    type Beside = ();

    fn beside(_alloc: Global, _name: &str, _words: &mut Rest<'_>) -> Result<()> {
        Ok(())
    }

    fn ask(
        mut message: CoseSign1,
        given: Given<'_, ()>,
        asked: &mut Asked,
        _missed: &mut u32,
    ) -> Result<Answer<CoseSign1>> {
        let (alloc, says_yes) = (given.alloc, given.says_yes);
        let (content, aad) = (&given.content, &given.aad);
        let judge = move |signature: &[u8], tbs: &[u8]| asked.judge(signature, tbs, says_yes);
        Ok(match given.name {
            "verify_signature" => Answer::Judged(message.verify_signature(alloc, aad, judge)),
            "verify_detached_signature" => {
                message.payload = None;
                Answer::Judged(message.verify_detached_signature(alloc, content, aad, judge))
            }
            "tbs_data" => Answer::Bytes(message.tbs_data(alloc, aad)),
            "tbs_detached_data" => {
                message.payload = None;
                Answer::Bytes(message.tbs_detached_data(alloc, content, aad))
            }
            _ => return Err(unknown::<Sign1Calls>()),
        })
    }

    fn create(
        message: CoseSign1,
        given: Given<'_, ()>,
        asked: &mut Asked,
    ) -> Result<Answer<CoseSign1>> {
        if given.name.contains("_detached_") {
            create_detached(message, &given, asked)
        } else {
            create_attached(message, &given, asked)
        }
    }
}

/// Makes the builder's call of that name, which signs the message's own payload.
///
/// # Errors
/// A fault if the name isn't known.
fn create_attached(
    message: CoseSign1,
    given: &Given<'_, ()>,
    asked: &mut Asked,
) -> Result<Answer<CoseSign1>> {
    let (alloc, aad) = (given.alloc, &given.aad);
    let CoseSign1 {
        protected,
        unprotected,
        payload,
        signature: _,
    } = message;
    let builder = CoseSign1Builder::new(alloc)
        .protected(protected.header)
        .unprotected(unprotected);
    let builder = match payload {
        Some(payload) => builder.payload(payload),
        None => builder,
    };
    mark::begin(alloc);
    Ok(match given.name {
        "create_signature" => Answer::Made(built(builder.create_signature(
            alloc,
            aad,
            move |tbs| asked.make(&[], tbs),
        ))),
        "try_create_signature" => Answer::Tried(built(builder.try_create_signature(
            alloc,
            aad,
            move |tbs| asked.try_make(&[], tbs),
        ))),
        _ => return Err(unknown::<Sign1Calls>()),
    })
}

/// Makes the builder's call of that name, which signs a detached payload.
///
/// # Errors
/// A fault if the name isn't known.
fn create_detached(
    message: CoseSign1,
    given: &Given<'_, ()>,
    asked: &mut Asked,
) -> Result<Answer<CoseSign1>> {
    let (alloc, content, aad) = (given.alloc, &given.content, &given.aad);
    let CoseSign1 {
        protected,
        unprotected,
        payload: _,
        signature: _,
    } = message;
    let builder = CoseSign1Builder::new(alloc)
        .protected(protected.header)
        .unprotected(unprotected);
    mark::begin(alloc);
    Ok(match given.name {
        "create_detached_signature" => Answer::Made(built(builder.create_detached_signature(
            alloc,
            content,
            aad,
            move |tbs| asked.make(&[], tbs),
        ))),
        "try_create_detached_signature" => Answer::Tried(built(
            builder.try_create_detached_signature(
                alloc,
                content,
                aad,
                move |tbs| asked.try_make(&[], tbs),
            ),
        )),
        _ => return Err(unknown::<Sign1Calls>()),
    })
}
