//! Calls of `CoseRecipient` and its builder.

ghost use Rattle.std.specs.Prelude.{IfOk};
ghost use Rattle.coset_recipient.specs.Recipient.{IsOfRecipient};

use coset::{CoseError, CoseRecipient, CoseRecipientBuilder, EncryptionContext, Result};
use std::alloc::Global;
use test_lines::answer::Answer;
use test_lines::asked::{Asked, missing};
use test_lines::builder::{and_each, built};
use test_lines::message::{Given, Headed, Message, and, unknown};
use test_lines::words::{Rest, Words};
use test_lines::{header, mark};

/// The calls of `CoseRecipient`.
pub struct RecipientCalls;

/// Returns the error for a context that isn't one of a recipient.
fn no_context() -> CoseError {
    CoseError::UnexpectedItem("word", "context of a recipient")
}

/// Returns the context of that name, of any kind.
fn any_context(word: &str) -> Result<EncryptionContext> {
    match word {
        "CoseEncrypt" => Ok(EncryptionContext::CoseEncrypt),
        "CoseEncrypt0" => Ok(EncryptionContext::CoseEncrypt0),
        "EncRecipient" => Ok(EncryptionContext::EncRecipient),
        "MacRecipient" => Ok(EncryptionContext::MacRecipient),
        "RecRecipient" => Ok(EncryptionContext::RecRecipient),
        _ => Err(no_context()),
    }
}

/// Returns the context, if it is one of a recipient.
fn of_recipient(context: EncryptionContext) -> Result<EncryptionContext>
    ensures { IfOk result (λ context. IsOfRecipient context) }
{
    match context {
        EncryptionContext::EncRecipient => Ok(EncryptionContext::EncRecipient),
        EncryptionContext::MacRecipient => Ok(EncryptionContext::MacRecipient),
        EncryptionContext::RecRecipient => Ok(EncryptionContext::RecRecipient),
        _ => Err(no_context()),
    }
}

/// Returns a builder with the recipient's headers and recipients, and the ciphertext.
///
/// # Errors
/// `OutOfMemory` if an allocation fails.
fn taken(
    alloc: Global,
    recipient: CoseRecipient,
) -> Result<(CoseRecipientBuilder, Option<Vec<u8>>)> {
    let CoseRecipient {
        protected,
        unprotected,
        ciphertext,
        recipients,
    } = recipient;
    let builder = CoseRecipientBuilder::new(alloc)
        .protected(protected.header)
        .unprotected(unprotected);
    Ok((and_each(builder, recipients)?, ciphertext))
}

/// Adds a recipient to a recipient, of which only the headers and the recipients are used.
///
/// # Errors
/// - A fault in the arguments.
/// - `OutOfMemory` if an allocation fails.
pub fn add_recipient(alloc: Global, words: &Words<'_>) -> Result<String> {
    let (builder, _) = taken(alloc, words.value(alloc, 1)?)?;
    and(alloc, builder, words)
}

impl Headed for RecipientCalls {
    type Made = CoseRecipient;

    const CALL: &'static str = "call of CoseRecipient";

    fn change(recipient: &mut CoseRecipient, word: &str) -> Result<()> {
        header::change(&mut recipient.protected, word)
    }

    fn rebuilt(alloc: Global, recipient: CoseRecipient) -> Result<CoseRecipient> {
        let (builder, ciphertext) = taken(alloc, recipient)?;
        match ciphertext {
            Some(ciphertext) => Ok(builder.ciphertext_from(alloc, &ciphertext)?.build()),
            None => Ok(builder.build()),
        }
    }
}

impl Message for RecipientCalls {
    type Beside = EncryptionContext;

    fn beside(_alloc: Global, _name: &str, words: &mut Rest<'_>) -> Result<EncryptionContext> {
        any_context(words.next_word())
    }

    fn ask(
        recipient: CoseRecipient,
        given: Given<'_, EncryptionContext>,
        asked: &mut Asked,
        missed: &mut u32,
    ) -> Result<Answer<CoseRecipient>> {
        let (alloc, aad) = (given.alloc, &given.aad);
        if given.name == "aad" {
            return Ok(Answer::Bytes(recipient.aad(alloc, given.beside, aad)));
        }
        let context = of_recipient(given.beside)?;
        let open = move |ciphertext: &[u8], structure: &[u8]| asked.try_make(ciphertext, structure);
        Ok(match given.name {
            "decrypt" => {
                if recipient.ciphertext.is_none() {
                    return Err(CoseError::UnexpectedItem("no ciphertext", "ciphertext"));
                }
                Answer::Opened(recipient.decrypt(alloc, context, aad, open))
            }
            "decrypt_ciphertext" => Answer::Opened(recipient.decrypt_ciphertext(
                alloc,
                context,
                aad,
                move || missing(missed),
                open,
            )),
            _ => return Err(unknown::<RecipientCalls>()),
        })
    }

    fn create(
        recipient: CoseRecipient,
        given: Given<'_, EncryptionContext>,
        asked: &mut Asked,
    ) -> Result<Answer<CoseRecipient>> {
        let (alloc, content, aad) = (given.alloc, &given.content, &given.aad);
        let context = of_recipient(given.beside)?;
        let (builder, _) = taken(alloc, recipient)?;
        mark::begin(alloc);
        Ok(match given.name {
            "create_ciphertext" => Answer::Made(built(builder.create_ciphertext(
                alloc,
                context,
                content,
                aad,
                move |a, b| asked.make(a, b),
            ))),
            "try_create_ciphertext" => Answer::Tried(built(builder.try_create_ciphertext(
                alloc,
                context,
                content,
                aad,
                move |a, b| asked.try_make(a, b),
            ))),
            _ => return Err(unknown::<RecipientCalls>()),
        })
    }
}
