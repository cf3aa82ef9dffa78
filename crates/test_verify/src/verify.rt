//! Calls that verify tokens, or say which key fits a layer.
//!
//! `verify ANSWERS NOW POLICY TOKEN` asks keys whose answers the line gives.
//!
//! - ANSWERS has one answer for each question, separated by commas: `yes`, `no`, or a plaintext in
//!   hexadecimal. After `@` follows the name of the issuer, if it has one. A question is a layer, or
//!   a signature of a list.
//! - NOW is a moment in seconds.
//! - POLICY has the changes of the strict policy, separated by commas, or is `strict`:
//!   - `algs=` and numbers, `need=` and numbers of claims, `types=` and names, `crit=` and labels
//!     in hexadecimal are lists. Their elements are separated by `|`.
//!   - `aud=absent`, `aud=any`, or `aud=` and a list of names.
//!   - `plain=` and `sign`, `mac`, `enc`, `signs`, `macs` or `encs`, the form of a layer without a
//!     tag. The last three are the forms with a list.
//!   - `by=` and `sign`, `mac` (a signature too) or `any`, the layers that authenticate.
//!   - `forever` accepts tokens that don't expire, `later` those that were issued later than now,
//!     and `lists` the forms with a list.
//!   - `age=` and `leeway=` are spans in seconds.
//! - TOKEN is hexadecimal, or `-` for no bytes.
//!
//! The output for a token that is accepted has `ok` and the encoded claims. Then follow the names
//! of the audience, the other claims as an array of labels and values, and the issuer, as `@` and
//! its name. Each layer has its form, the protected bytes, the unprotected header and the issuer.
//! After `/by/` follow the headers and bytes of the accepted signature, after `/for/` the headers of
//! the recipient.
//! `-` stands for nothing. For any other token the output has both texts of the error. At last
//! follow the number of questions that the keys got, and each proof and structure.
//!
//! `ring KEYSETS SAYS NOW POLICY TOKEN` asks a ring of keys.
//!
//! - KEYSETS has the issuers, separated by commas: each a name, `:` and a set of keys. The name is
//!   empty if the issuer has none.
//! - SAYS has the calls that the ciphers accept, separated by commas, or is `none`. A call is named
//!   by the identifier of its key, or by `#` and its number, from 0. After `:` follows a plaintext.
//!
//! After the result follow the calls of the ciphers, each with the identifier of its key, the
//! algorithm and the nonce, and then the arguments of all calls.
//!
//! `fits KEY FORM PROTECTED UNPROTECTED LEN` prints the nonce by which a key fits a layer with a
//! proof of that many bytes, or `no`. FORM is as after `plain=`, and both headers are maps. After
//! LEN may follow the unprotected header of a recipient.
//!
//! `keys KEYSET` prints the keys of a set that can be read.

mod changes;
pub mod ciphers;
mod keys;
mod refused;
mod told;

use crate::forms;
use crate::verify::changes::Changes;
use crate::verify::ciphers::Faked;
use crate::verify::keys::Scripted;
use crate::verify::told::told;
use coset::{CborSerializable, CoseError, CoseKey, CoseKeySet, Header, ProtectedHeader, Result};
use cwt_keys::{Keys, Sealed};
use cwt_ring::{Issuer, KeyRing, fits, keys_from_slice};
use cwt_verify::verify_token;
use std::alloc::Global;
use std::fmt::{Debug, Display};
use test_lines::words::{Words, bytes, index};
use test_lines::{mark, tell};

/// Returns what [`told`] says of a token that these keys verify. `policy` is a word.
///
/// # Errors
/// - A fault in the word.
/// - `OutOfMemory` if an allocation fails.
fn verified<E: Debug + Display + Drop, K: Keys<Error = E>>(
    alloc: Global,
    policy: &str,
    keys: &K,
    token: &[u8],
    now: i64,
) -> Result<String> {
    let changes = Changes::of(alloc, policy)?;
    let policy = changes.policy();
    mark::begin(alloc);
    let answer = verify_token(alloc, &policy, keys, token, now);
    mark::end(alloc);
    told(alloc, answer)
}

/// Verifies a token with keys whose answers the line gives.
///
/// # Errors
/// - A fault in the arguments.
/// - `OutOfMemory` if an allocation fails.
pub fn by_scripted_keys(alloc: Global, words: &Words<'_>) -> Result<String> {
    let now = words.number(2)?;
    let token = words.bytes(alloc, 4)?;
    let keys = Scripted::new(alloc, words.word(1))?;
    let text = verified(alloc, words.word(3), &keys, &token, now)?;
    keys.behind(alloc, text)
}

/// The key sets of issuers, and their names.
#[derive(Drop)]
struct Sets<'a> {
    names: Vec<Option<&'a str>>,
    sets: Vec<CoseKeySet>,
}

impl<'a> Sets<'a> {
    /// Returns the key sets of a word.
    ///
    /// # Errors
    /// - A fault in the word.
    /// - `OutOfMemory` if an allocation fails.
    fn of(alloc: Global, word: &'a str) -> Result<Sets<'a>> {
        let mut names = Vec::new(alloc);
        let mut sets = Vec::new(alloc);
        for issuer in word.split(',') {
            let Some((name, keys)) = issuer.rsplit_once(':') else {
                return Err(CoseError::UnexpectedItem("word", "name and keys"));
            };
            names.push(if name.is_empty() { None } else { Some(name) })?;
            sets.push(keys_from_slice(alloc, &bytes(alloc, keys)?)?)?;
        }
        Ok(Sets { names, sets })
    }

    /// Returns the issuers.
    ///
    /// # Errors
    /// `OutOfMemory` if an allocation fails.
    fn issuers(&self, alloc: Global) -> Result<Vec<Issuer<'_>>> {
        let mut issuers = Vec::new(alloc);
        for (name, keys) in self.names.iter().zip(self.sets.iter()) {
            issuers.push(Issuer { name: *name, keys })?;
        }
        Ok(issuers)
    }
}

/// Verifies a token with a ring of keys.
///
/// # Errors
/// - A fault in the arguments.
/// - `OutOfMemory` if an allocation fails.
pub fn by_a_ring(alloc: Global, words: &Words<'_>) -> Result<String> {
    let now = words.number(3)?;
    let token = words.bytes(alloc, 5)?;
    let sets = Sets::of(alloc, words.word(1))?;
    let issuers = sets.issuers(alloc)?;
    let ring = KeyRing {
        issuers: &issuers,
        ciphers: Faked::new(alloc, words.word(2))?,
    };
    let text = verified(alloc, words.word(4), &ring, &token, now)?;
    ring.ciphers.behind(alloc, text)
}

/// Returns this many zeros.
///
/// # Errors
/// `OutOfMemory` if an allocation fails.
fn zeros(alloc: Global, len: usize) -> Result<Vec<u8>> {
    let mut zeros = Vec::new(alloc);
    for _ in 0..len {
        zeros.push(0)?;
    }
    Ok(zeros)
}

/// Returns the nonce by which a key fits a layer, or `no`.
///
/// # Errors
/// `OutOfMemory` if an allocation fails.
fn fitting(alloc: Global, key: &CoseKey, sealed: &Sealed<'_>) -> Result<String> {
    mark::begin(alloc);
    let answer = fits(key, sealed);
    mark::end(alloc);
    match answer {
        Some(nonce) => tell::hexadecimal(alloc, nonce.as_slice()),
        None => Ok(String::from_str(alloc, "no")?),
    }
}

/// Returns the recipient's header that the last word gives, if it gives one.
///
/// # Errors
/// - A fault in the word.
/// - `OutOfMemory` if an allocation fails.
fn recipient(alloc: Global, words: &Words<'_>) -> Result<Option<Header>> {
    if words.word(6).is_empty() {
        return Ok(None);
    }
    Ok(Some(words.value(alloc, 6)?))
}

/// Says by which nonce a key fits a layer.
///
/// # Errors
/// - A fault in the arguments.
/// - `OutOfMemory` if an allocation fails.
pub fn fit(alloc: Global, words: &Words<'_>) -> Result<String> {
    let form = forms::read(words.word(2))?;
    let proof = zeros(alloc, index(words.word(5))?)?;
    let key: CoseKey = words.value(alloc, 1)?;
    let header: Header = words.value(alloc, 3)?;
    let unprotected: Header = words.value(alloc, 4)?;
    let recipient = recipient(alloc, words)?;
    let protected = ProtectedHeader {
        original_data: None,
        header,
    };
    let sealed = match &recipient {
        Some(recipient) => {
            Sealed::for_recipient(form, &protected, &unprotected, &proof, &[], recipient)
        }
        None => Sealed::new(form, &protected, &unprotected, &proof, &[]),
    };
    fitting(alloc, &key, &sealed)
}

/// Reads the keys of a set that can be read.
///
/// # Errors
/// - A fault in a word that isn't hexadecimal.
/// - `OutOfMemory` if an allocation fails.
pub fn readable_keys(alloc: Global, words: &Words<'_>) -> Result<String> {
    let set = words.bytes(alloc, 1)?;
    mark::begin(alloc);
    let answer = keys_from_slice(alloc, &set);
    mark::end(alloc);
    let keys = match answer {
        Ok(keys) => keys,
        Err(error) => return tell::refused(alloc, error),
    };
    let mut text = String::from_str(alloc, "ok")?;
    for key in keys.0 {
        text.push_str(" ")?;
        text.push_str(&tell::hexadecimal(alloc, &key.to_vec(alloc)?)?)?;
    }
    Ok(text)
}
