//! The common calls of messages and of their builders.

use crate::answer::Answer;
use crate::asked::{Asked, and_missing};
use crate::builder::{PartsBuilder, built};
use crate::shape::Shape;
use crate::words::{Rest, Words, bytes, says_yes};
use crate::{mark, spelled, tell};
use coset::{CborSerializable, CoseError, Result};
use std::alloc::Global;

/// The calls of a type that has a protected header and a builder.
pub trait Headed {
    /// The type. Each function that reads or writes it requires the traits for that. The current
    /// toolchain fails at an `impl` whose associated type must have `CborSerializable`.
    type Made: Drop;

    /// The thing that is missing if a line names no call of the type, for the error.
    const CALL: &'static str;

    /// Changes the protected header by a word ([`change`](crate::header::change)).
    ///
    /// # Errors
    /// - `UnexpectedItem` for another word.
    /// - `OutOfMemory` if an allocation fails.
    fn change(made: &mut Self::Made, word: &str) -> Result<()>;

    /// Makes the same value from its parts, with the builder's calls that copy their arguments.
    ///
    /// # Errors
    /// `OutOfMemory` if an allocation fails.
    fn rebuilt(alloc: Global, made: Self::Made) -> Result<Self::Made>;
}

/// Returns the error for a line that names no call of the type.
pub fn unknown<H: Headed>() -> CoseError {
    CoseError::UnexpectedItem("name", H::CALL)
}

/// The arguments of a call that takes a closure, except for the message.
#[derive(Drop)]
pub struct Given<'a, B> {
    /// The allocator.
    pub alloc: Global,
    /// The name of the call.
    pub name: &'a str,
    /// Whether a closure that may refuse accepts its arguments.
    pub says_yes: bool,
    /// A signature for `CoseSign`, a context for `CoseRecipient`.
    pub beside: B,
    /// A detached payload or ciphertext, or a plaintext.
    pub content: Vec<u8>,
    /// `external_aad`.
    pub aad: Vec<u8>,
}

/// The calls of a message, and of its builder, that take closures.
pub trait Message: Headed {
    /// A further argument: a signature for `CoseSign`, a context for `CoseRecipient`.
    type Beside: Drop;

    /// Returns the further argument of the call of that name.
    ///
    /// # Errors
    /// - A fault in the words.
    /// - `OutOfMemory` if an allocation fails.
    fn beside(alloc: Global, name: &str, words: &mut Rest<'_>) -> Result<Self::Beside>;

    /// Changes the protected header of the further argument, if it has one.
    ///
    /// # Errors
    /// - A fault in the word, or a missing header.
    /// - `OutOfMemory` if an allocation fails.
    fn change_beside(
        _message: &mut Self::Made,
        _beside: &mut Self::Beside,
        _words: &mut Rest<'_>,
    ) -> Result<()> {
        Ok(())
    }

    /// Makes the message's call of that name.
    ///
    /// # Errors
    /// A fault if the name isn't known, or the message isn't suitable for the call.
    fn ask(
        message: Self::Made,
        given: Given<'_, Self::Beside>,
        asked: &mut Asked,
        missed: &mut u32,
    ) -> Result<Answer<Self::Made>>;

    /// Makes the builder's call of that name. The builder gets the message's parts first, then the
    /// mark is set ([`mark::begin`]).
    ///
    /// # Errors
    /// - A fault if the name isn't known, or the message isn't suitable for the call.
    /// - `OutOfMemory` if an allocation fails.
    fn create(
        message: Self::Made,
        given: Given<'_, Self::Beside>,
        asked: &mut Asked,
    ) -> Result<Answer<Self::Made>>;
}

/// Makes the call of that name of a type or of its builder, if it takes no closure.
///
/// # Errors
/// A fault in the arguments, or an unknown name.
pub fn call_headed<H: Headed>(alloc: Global, name: &str, words: &Words<'_>) -> Result<String>
where
    H::Made: CborSerializable,
{
    match name {
        "build" => build::<H>(alloc, words),
        "to_vec_with" => tell::written(alloc, changed::<H>(alloc, words)?),
        _ => Err(unknown::<H>()),
    }
}

/// Makes the call of that name of a message or of its builder.
///
/// # Errors
/// The errors of [`call_headed`].
pub fn call<M: Message>(alloc: Global, name: &str, words: &Words<'_>) -> Result<String>
where
    M::Made: CborSerializable,
{
    match Shape::of(name) {
        Some(shape) => with_closure::<M>(alloc, name, shape, words),
        None => call_headed::<M>(alloc, name, words),
    }
}

/// Returns the value of the first word, with its protected header changed by the second.
fn changed<H: Headed>(alloc: Global, words: &Words<'_>) -> Result<H::Made>
where
    H::Made: CborSerializable,
{
    let mut made: H::Made = words.value(alloc, 1)?;
    H::change(&mut made, words.word(2))?;
    Ok(made)
}

/// Builds the value of the first word again, with its protected header changed by the second.
fn build<H: Headed>(alloc: Global, words: &Words<'_>) -> Result<String>
where
    H::Made: CborSerializable,
{
    let made = changed::<H>(alloc, words)?;
    mark::begin(alloc);
    let answer = H::rebuilt(alloc, made);
    mark::end(alloc);
    tell::value(alloc, answer)
}

/// Appends a part, the second word, to a builder.
///
/// # Errors
/// - A fault in a word that is no such part.
/// - `OutOfMemory` if an allocation fails.
pub fn and<B: PartsBuilder>(alloc: Global, builder: B, words: &Words<'_>) -> Result<String>
where
    B::Made: CborSerializable,
    B::Part: CborSerializable,
{
    let part: B::Part = words.value(alloc, 2)?;
    mark::begin(alloc);
    let answer = builder.and(part);
    mark::end(alloc);
    tell::value(alloc, built(answer))
}

/// Makes the call of that name with the arguments of its shape.
fn with_closure<M: Message>(
    alloc: Global,
    name: &str,
    shape: Shape,
    words: &Words<'_>,
) -> Result<String>
where
    M::Made: CborSerializable,
{
    let (message, given, mut asked) = arguments::<M>(alloc, name, shape, words)?;
    let mut missed = 0u32;
    let answer = if shape.creates() {
        M::create(message, given, &mut asked)
    } else {
        mark::begin(alloc);
        M::ask(message, given, &mut asked, &mut missed)
    };
    mark::end(alloc);
    let text = asked.told(alloc, answer?)?;
    match name {
        "verify_payload_tag" | "decrypt_ciphertext" => and_missing(alloc, text, missed),
        _ => Ok(text),
    }
}

/// Reads the arguments of a call, in the order of [`Shape`]. Returns the message, the other
/// arguments, and the state of the closure.
fn arguments<'a, M: Message>(
    alloc: Global,
    name: &'a str,
    shape: Shape,
    words: &Words<'_>,
) -> Result<(M::Made, Given<'a, M::Beside>, Asked)>
where
    M::Made: CborSerializable,
{
    let mut rest = words.after_name();
    let says_yes = if shape.may_refuse() {
        says_yes(rest.next_word())?
    } else {
        true
    };
    let mut message: M::Made = spelled::read(alloc, rest.next_word())?;
    let mut beside = M::beside(alloc, name, &mut rest)?;
    let content = next_bytes(alloc, shape.content, &mut rest)?;
    let aad = bytes(alloc, rest.next_word())?;
    let asked = not_asked(alloc, shape, says_yes, &mut rest)?;
    M::change(&mut message, rest.next_word())?;
    M::change_beside(&mut message, &mut beside, &mut rest)?;
    let given = Given {
        alloc,
        name,
        says_yes,
        beside,
        content,
        aad,
    };
    Ok((message, given, asked))
}

/// Returns the bytes that the next word spells if the call gets them, otherwise none.
fn next_bytes(alloc: Global, is_given: bool, words: &mut Rest<'_>) -> Result<Vec<u8>> {
    if is_given {
        bytes(alloc, words.next_word())
    } else {
        Ok(Vec::new(alloc))
    }
}

/// Returns the state of a closure that wasn't called yet. If it makes bytes and accepts, these are
/// the next word's.
fn not_asked(alloc: Global, shape: Shape, says_yes: bool, words: &mut Rest<'_>) -> Result<Asked> {
    let made = next_bytes(alloc, shape.makes(), words)?;
    Asked::making(
        alloc,
        if shape.makes() && says_yes {
            Some(made)
        } else {
            None
        },
    )
}
