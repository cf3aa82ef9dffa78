//! Calls of `CoseEncrypt` and its builder.

use crate::missing::no_ciphertext;
use coset::{CoseEncrypt, CoseEncryptBuilder, Result};
use std::alloc::Global;
use test_lines::answer::Answer;
use test_lines::asked::{Asked, missing};
use test_lines::builder::{and_each, built};
use test_lines::message::{Given, Headed, Message, and, unknown};
use test_lines::words::{Rest, Words};
use test_lines::{header, mark};

/// The calls of `CoseEncrypt`.
pub struct EncryptCalls;

/// Returns a builder with the message's headers and recipients, and the ciphertext.
///
/// # Errors
/// `OutOfMemory` if an allocation fails.
fn taken(alloc: Global, message: CoseEncrypt) -> Result<(CoseEncryptBuilder, Option<Vec<u8>>)> {
    let CoseEncrypt {
        protected,
        unprotected,
        ciphertext,
        recipients,
    } = message;
    let builder = CoseEncryptBuilder::new(alloc)
        .protected(protected.header)
        .unprotected(unprotected);
    Ok((and_each(builder, recipients)?, ciphertext))
}

/// Adds a recipient to a message, of which only the headers and the recipients are used.
///
/// # Errors
/// - A fault in the arguments.
/// - `OutOfMemory` if an allocation fails.
pub fn add_recipient(alloc: Global, words: &Words<'_>) -> Result<String> {
    let (builder, _) = taken(alloc, words.value(alloc, 1)?)?;
    and(alloc, builder, words)
}

impl Headed for EncryptCalls {
    type Made = CoseEncrypt;

    const CALL: &'static str = "call of CoseEncrypt";

    fn change(message: &mut CoseEncrypt, word: &str) -> Result<()> {
        header::change(&mut message.protected, word)
    }

    fn rebuilt(alloc: Global, message: CoseEncrypt) -> Result<CoseEncrypt> {
        let (builder, ciphertext) = taken(alloc, message)?;
        match ciphertext {
            Some(ciphertext) => Ok(builder.ciphertext_from(alloc, &ciphertext)?.build()),
            None => Ok(builder.build()),
        }
    }
}

impl Message for EncryptCalls {
    type Beside = ();

    fn beside(_alloc: Global, _name: &str, _words: &mut Rest<'_>) -> Result<()> {
        Ok(())
    }

    fn ask(
        message: CoseEncrypt,
        given: Given<'_, ()>,
        asked: &mut Asked,
        missed: &mut u32,
    ) -> Result<Answer<CoseEncrypt>> {
        let (alloc, content, aad) = (given.alloc, &given.content, &given.aad);
        let open = move |ciphertext: &[u8], structure: &[u8]| asked.try_make(ciphertext, structure);
        Ok(match given.name {
            "decrypt" => {
                if message.ciphertext.is_none() {
                    return Err(no_ciphertext());
                }
                Answer::Opened(message.decrypt(alloc, aad, open))
            }
            "decrypt_ciphertext" => Answer::Opened(message.decrypt_ciphertext(
                alloc,
                aad,
                move || missing(missed),
                open,
            )),
            "decrypt_detached" => Answer::Opened(message.decrypt_detached(
                alloc, content, aad, open,
            )),
            "aad" => Answer::Bytes(message.aad(alloc, aad)),
            _ => return Err(unknown::<EncryptCalls>()),
        })
    }

    fn create(
        message: CoseEncrypt,
        given: Given<'_, ()>,
        asked: &mut Asked,
    ) -> Result<Answer<CoseEncrypt>> {
        let (alloc, content, aad) = (given.alloc, &given.content, &given.aad);
        let (builder, _) = taken(alloc, message)?;
        mark::begin(alloc);
        Ok(match given.name {
            "create_ciphertext" => Answer::Made(built(builder.create_ciphertext(
                alloc,
                content,
                aad,
                move |a, b| asked.make(a, b),
            ))),
            "try_create_ciphertext" => Answer::Tried(built(builder.try_create_ciphertext(
                alloc,
                content,
                aad,
                move |a, b| asked.try_make(a, b),
            ))),
            "create_detached_ciphertext" => Answer::Sealed(builder.create_detached_ciphertext(
                alloc,
                content,
                aad,
                move |a, b| asked.make(a, b),
            )),
            "try_create_detached_ciphertext" => Answer::Opened(
                builder.try_create_detached_ciphertext(
                    alloc,
                    content,
                    aad,
                    move |a, b| asked.try_make(a, b),
                ),
            ),
            _ => return Err(unknown::<EncryptCalls>()),
        })
    }
}
