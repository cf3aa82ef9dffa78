//! Calls of `CoseEncrypt0` and its builder.

use crate::missing::no_ciphertext;
use coset::{CoseEncrypt0, CoseEncrypt0Builder, Result};
use std::alloc::Global;
use test_lines::answer::Answer;
use test_lines::asked::{Asked, missing};
use test_lines::builder::built;
use test_lines::message::{Given, Headed, Message, unknown};
use test_lines::words::Rest;
use test_lines::{header, mark};

/// The calls of `CoseEncrypt0`.
pub struct Encrypt0Calls;

/// Returns a builder with the message's headers, and the ciphertext.
fn taken(alloc: Global, message: CoseEncrypt0) -> (CoseEncrypt0Builder, Option<Vec<u8>>) {
    let CoseEncrypt0 {
        protected,
        unprotected,
        ciphertext,
    } = message;
    let builder = CoseEncrypt0Builder::new(alloc)
        .protected(protected.header)
        .unprotected(unprotected);
    (builder, ciphertext)
}

impl Headed for Encrypt0Calls {
    type Made = CoseEncrypt0;

    const CALL: &'static str = "call of CoseEncrypt0";

    fn change(message: &mut CoseEncrypt0, word: &str) -> Result<()> {
        header::change(&mut message.protected, word)
    }

    fn rebuilt(alloc: Global, message: CoseEncrypt0) -> Result<CoseEncrypt0> {
        let (builder, ciphertext) = taken(alloc, message);
        match ciphertext {
            Some(ciphertext) => Ok(builder.ciphertext_from(alloc, &ciphertext)?.build()),
            None => Ok(builder.build()),
        }
    }
}

impl Message for Encrypt0Calls {
    type Beside = ();

    fn beside(_alloc: Global, _name: &str, _words: &mut Rest<'_>) -> Result<()> {
        Ok(())
    }

    fn ask(
        message: CoseEncrypt0,
        given: Given<'_, ()>,
        asked: &mut Asked,
        missed: &mut u32,
    ) -> Result<Answer<CoseEncrypt0>> {
        let (alloc, content, aad) = (given.alloc, &given.content, &given.aad);
        let open = move |ciphertext: &[u8], structure: &[u8]| asked.try_make(ciphertext, structure);
        Ok(match given.name {
            "decrypt" => {
                if message.ciphertext.is_none() {
                    return Err(no_ciphertext());
                }
                Answer::Opened(message.decrypt(alloc, aad, open))
            }
            "decrypt_ciphertext" => Answer::Opened(message.decrypt_ciphertext(
                alloc,
                aad,
                move || missing(missed),
                open,
            )),
            "decrypt_detached" => Answer::Opened(message.decrypt_detached(
                alloc, content, aad, open,
            )),
            "aad" => Answer::Bytes(message.aad(alloc, aad)),
            _ => return Err(unknown::<Encrypt0Calls>()),
        })
    }

    fn create(
        message: CoseEncrypt0,
        given: Given<'_, ()>,
        asked: &mut Asked,
    ) -> Result<Answer<CoseEncrypt0>> {
        let (alloc, content, aad) = (given.alloc, &given.content, &given.aad);
        let (builder, _) = taken(alloc, message);
        mark::begin(alloc);
        Ok(match given.name {
            "create_ciphertext" => Answer::Made(built(builder.create_ciphertext(
                alloc,
                content,
                aad,
                move |a, b| asked.make(a, b),
            ))),
            "try_create_ciphertext" => Answer::Tried(built(builder.try_create_ciphertext(
                alloc,
                content,
                aad,
                move |a, b| asked.try_make(a, b),
            ))),
            "create_detached_ciphertext" => Answer::Sealed(builder.create_detached_ciphertext(
                alloc,
                content,
                aad,
                move |a, b| asked.make(a, b),
            )),
            "try_create_detached_ciphertext" => Answer::Opened(
                builder.try_create_detached_ciphertext(
                    alloc,
                    content,
                    aad,
                    move |a, b| asked.try_make(a, b),
                ),
            ),
            _ => return Err(unknown::<Encrypt0Calls>()),
        })
    }
}
