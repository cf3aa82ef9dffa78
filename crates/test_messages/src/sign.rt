//! Calls of `CoseSign` and its builder.

use coset::{CoseError, CoseSign, CoseSignBuilder, CoseSignature, Result};
use std::alloc::Global;
use test_lines::answer::Answer;
use test_lines::asked::Asked;
use test_lines::builder::{and_each, built};
use test_lines::message::{Given, Headed, Message, and, unknown};
use test_lines::words::{Rest, Words, index};
use test_lines::{header, mark, spelled};

/// The calls of `CoseSign`.
pub struct SignCalls;

/// The signature for a call.
#[derive(Drop)]
pub enum Signer {
    /// The signature of the message at this index.
    At(usize),
    /// A separate signature.
    Own(CoseSignature),
}

impl Signer {
    /// Returns the index of the message's signature.
    fn place(&self) -> Result<usize> {
        match self {
            Signer::At(which) => Ok(*which),
            Signer::Own(_) => Err(no_signature()),
        }
    }

    /// Returns the separate signature.
    fn signature(self) -> Result<CoseSignature> {
        match self {
            Signer::At(_) => Err(no_signature()),
            Signer::Own(signature) => Ok(signature),
        }
    }
}

/// Returns the error for an index without a signature.
fn no_signature() -> CoseError {
    CoseError::UnexpectedItem("number", "number of a signature")
}

/// Returns a builder with the message's headers, signatures and payload, if it has one.
///
/// # Errors
/// `OutOfMemory` if an allocation fails.
fn filled(alloc: Global, message: CoseSign) -> Result<CoseSignBuilder> {
    let CoseSign {
        protected,
        unprotected,
        payload,
        signatures,
    } = message;
    let builder = CoseSignBuilder::new(alloc)
        .protected(protected.header)
        .unprotected(unprotected);
    let builder = match payload {
        Some(payload) => builder.payload(payload),
        None => builder,
    };
    and_each(builder, signatures)
}

/// Adds a signature to the message.
///
/// # Errors
/// - A fault in the arguments.
/// - `OutOfMemory` if an allocation fails.
pub fn add_signature(alloc: Global, words: &Words<'_>) -> Result<String> {
    and(alloc, filled(alloc, words.value(alloc, 1)?)?, words)
}

impl Headed for SignCalls {
    type Made = CoseSign;

    const CALL: &'static str = "call of CoseSign";

    fn change(message: &mut CoseSign, word: &str) -> Result<()> {
        header::change(&mut message.protected, word)
    }

    fn rebuilt(alloc: Global, message: CoseSign) -> Result<CoseSign> {
        let CoseSign {
            protected,
            unprotected,
            payload,
            signatures,
        } = message;
        let builder = CoseSignBuilder::new(alloc)
            .protected(protected.header)
            .unprotected(unprotected);
        let builder = match payload {
            Some(payload) => builder.payload_from(alloc, &payload)?,
            None => builder,
        };
        built(and_each(builder, signatures))
    }
}

impl Message for SignCalls {
    type Beside = Signer;

    fn beside(alloc: Global, name: &str, words: &mut Rest<'_>) -> Result<Signer> {
        let word = words.next_word();
        if name.starts_with("verify_") {
            Ok(Signer::At(index(word)?))
        } else {
            Ok(Signer::Own(spelled::read(alloc, word)?))
        }
    }

    fn change_beside(
        message: &mut CoseSign,
        signer: &mut Signer,
        words: &mut Rest<'_>,
    ) -> Result<()> {
        let word = words.next_word();
        match signer {
            Signer::At(which) => match message.signatures.get_mut(*which) {
                Some(signature) => header::change(&mut signature.protected, word),
                None => Err(no_signature()),
            },
            Signer::Own(signature) => header::change(&mut signature.protected, word),
        }
    }

    fn ask(
        message: CoseSign,
        given: Given<'_, Signer>,
        asked: &mut Asked,
        _missed: &mut u32,
    ) -> Result<Answer<CoseSign>> {
        if given.name.starts_with("verify_") {
            verify(message, &given, asked)
        } else {
            structure(message, given)
        }
    }

    fn create(
        message: CoseSign,
        given: Given<'_, Signer>,
        asked: &mut Asked,
    ) -> Result<Answer<CoseSign>> {
        if given.name.contains("_detached_") {
            add_detached(message, given, asked)
        } else {
            add_created(message, given, asked)
        }
    }
}

/// Makes the message's call of that name, which verifies the signature at an index.
///
/// # Errors
/// A fault if the name isn't known, or the message has no such signature.
fn verify(
    mut message: CoseSign,
    given: &Given<'_, Signer>,
    asked: &mut Asked,
) -> Result<Answer<CoseSign>> {
    let (alloc, says_yes) = (given.alloc, given.says_yes);
    let (content, aad) = (&given.content, &given.aad);
    let which = given.beside.place()?;
    if which >= message.signatures.len() {
        return Err(no_signature());
    }
    let judge = move |signature: &[u8], tbs: &[u8]| asked.judge(signature, tbs, says_yes);
    Ok(match given.name {
        "verify_signature" => Answer::Judged(message.verify_signature(alloc, which, aad, judge)),
        "verify_detached_signature" => {
            message.payload = None;
            Answer::Judged(message.verify_detached_signature(alloc, which, content, aad, judge))
        }
        _ => return Err(unknown::<SignCalls>()),
    })
}

/// Makes the message's call of that name, which returns the bytes for a separate signature.
///
/// # Errors
/// A fault if the name isn't known, or there is no separate signature.
fn structure(mut message: CoseSign, given: Given<'_, Signer>) -> Result<Answer<CoseSign>> {
    let (alloc, name) = (given.alloc, given.name);
    let signature = given.beside.signature()?;
    let (content, aad) = (&given.content, &given.aad);
    Ok(match name {
        "tbs_data" => Answer::Bytes(message.tbs_data(alloc, aad, &signature)),
        "tbs_detached_data" => {
            message.payload = None;
            Answer::Bytes(message.tbs_detached_data(alloc, content, aad, &signature))
        }
        _ => return Err(unknown::<SignCalls>()),
    })
}

/// Makes the builder's call of that name, which signs the message's own payload.
///
/// # Errors
/// - A fault if the name isn't known, or there is no separate signature.
/// - `OutOfMemory` if an allocation fails.
fn add_created(
    message: CoseSign,
    given: Given<'_, Signer>,
    asked: &mut Asked,
) -> Result<Answer<CoseSign>> {
    let (alloc, name) = (given.alloc, given.name);
    let signature = given.beside.signature()?;
    let aad = &given.aad;
    let builder = filled(alloc, message)?;
    mark::begin(alloc);
    Ok(match name {
        "add_created_signature" => Answer::Made(built(builder.add_created_signature(
            alloc,
            signature,
            aad,
            move |tbs| asked.make(&[], tbs),
        ))),
        "try_add_created_signature" => Answer::Tried(built(builder.try_add_created_signature(
            alloc,
            signature,
            aad,
            move |tbs| asked.try_make(&[], tbs),
        ))),
        _ => return Err(unknown::<SignCalls>()),
    })
}

/// Makes the builder's call of that name, which signs a detached payload. The builder gets only the
/// message's headers.
///
/// # Errors
/// A fault if the name isn't known, or there is no separate signature.
fn add_detached(
    message: CoseSign,
    given: Given<'_, Signer>,
    asked: &mut Asked,
) -> Result<Answer<CoseSign>> {
    let (alloc, name) = (given.alloc, given.name);
    let signature = given.beside.signature()?;
    let (content, aad) = (&given.content, &given.aad);
    let CoseSign {
        protected,
        unprotected,
        payload: _,
        signatures: _,
    } = message;
    let builder = CoseSignBuilder::new(alloc)
        .protected(protected.header)
        .unprotected(unprotected);
    mark::begin(alloc);
    Ok(match name {
        "add_detached_signature" => Answer::Made(built(builder.add_detached_signature(
            alloc,
            signature,
            content,
            aad,
            move |tbs| asked.make(&[], tbs),
        ))),
        "try_add_detached_signature" => Answer::Tried(built(builder.try_add_detached_signature(
            alloc,
            signature,
            content,
            aad,
            move |tbs| asked.try_make(&[], tbs),
        ))),
        _ => return Err(unknown::<SignCalls>()),
    })
}
