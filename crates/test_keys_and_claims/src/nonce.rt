//! Copies of nonces. A nonce is read and written only in a party.

use coset::{CoseError, PartyInfo, Result};
use std::alloc::Global;
use test_lines::typed::{given, told};
use test_lines::words::Words;
use test_lines::{mark, tell};

/// Copies the nonce of a party, and returns the encoding of the party with the copy.
///
/// # Errors
/// - A fault in a word that is no party with a nonce.
/// - `OutOfMemory` if an allocation fails.
pub fn copy(alloc: Global, words: &Words<'_>) -> Result<String> {
    let mut party: PartyInfo = given(alloc, words, 1)?;
    let Some(nonce) = party.nonce.take() else {
        return Err(CoseError::UnexpectedItem("nul", "nonce"));
    };
    mark::begin(alloc);
    let answer = nonce.clone();
    mark::end(alloc);
    match answer {
        Ok(copy) => {
            let text = if copy == nonce { "" } else { " differs" };
            party.nonce = Some(copy);
            let told = told(alloc, Ok(party))?;
            Ok(format!(in alloc; "{told}{text}")?)
        }
        Err(error) => tell::refused(alloc, error),
    }
}
