//! Calls that read the confirmation claim and the nonces of verified tokens, and check proofs of
//! possession.
//!
//! `confirm LAYERS CLAIMS` prints the confirmation of a token.
//!
//! - LAYERS are the forms of the layers, from the outermost in, separated by commas: `sign`, `mac`,
//!   `enc`, or with a list `signs`, `macs`, `encs`. After a form may follow `:`, the protected
//!   header, `:` and the unprotected header. After a last `:` may follow the unprotected header of
//!   the signature or the recipient.
//! - CLAIMS are the claims in hexadecimal.
//!
//! The output is `none`, or the kind of the confirmation (`key`, `encrypt`, `encrypt0` or `kid`)
//! and its bytes. For a claim that is refused, the output has both texts of the error.
//!
//! `nonces CLAIMS` prints `ok` and each nonce, or both texts of the error.
//!
//! `possess LAYERS CLAIMS CHALLENGE PROOF SAYS` checks a proof of possession. SAYS has the calls
//! that the ciphers accept, as for `ring`. The output is `ok` or the error. Then follow the calls
//! of the ciphers and their arguments, also as for `ring`.

mod tokens;
mod told;

use crate::confirm::tokens::token;
use crate::verify::ciphers::Faked;
use coset::Result;
use cwt_confirm::{confirmation, nonces};
use example_tokens::possession::check_possession;
use std::alloc::Global;
use test_lines::mark;
use test_lines::words::Words;

/// Reads the confirmation of a token.
///
/// # Errors
/// - A fault in the arguments.
/// - `OutOfMemory` if an allocation fails.
pub fn confirmed(alloc: Global, words: &Words<'_>) -> Result<String> {
    let claims = words.bytes(alloc, 2)?;
    let token = token(alloc, words.word(1), &claims)?;
    mark::begin(alloc);
    let answer = confirmation(alloc, &token);
    mark::end(alloc);
    told::confirmation(alloc, answer)
}

/// Reads the nonces of a token.
///
/// # Errors
/// - A fault in the arguments.
/// - `OutOfMemory` if an allocation fails.
pub fn fresh(alloc: Global, words: &Words<'_>) -> Result<String> {
    let claims = words.bytes(alloc, 1)?;
    let token = token(alloc, "sign", &claims)?;
    mark::begin(alloc);
    let answer = nonces(alloc, &token);
    mark::end(alloc);
    told::nonces(alloc, answer)
}

/// Checks a proof of possession.
///
/// # Errors
/// - A fault in the arguments.
/// - `OutOfMemory` if an allocation fails.
pub fn possessed(alloc: Global, words: &Words<'_>) -> Result<String> {
    let claims = words.bytes(alloc, 2)?;
    let token = token(alloc, words.word(1), &claims)?;
    let challenge = words.bytes(alloc, 3)?;
    let proof = words.bytes(alloc, 4)?;
    let ciphers = Faked::new(alloc, words.word(5))?;
    mark::begin(alloc);
    let answer = check_possession(alloc, &token, &ciphers, &challenge, &proof);
    mark::end(alloc);
    let text = told::possession(alloc, &answer)?;
    ciphers.behind(alloc, text)
}
