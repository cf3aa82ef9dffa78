//! Ciphers whose answers a line gives, by the identifier of the key or by the number of the call.

use crate::verify::refused::Refused;
use coset::iana::{Algorithm, EnumI64};
use coset::{CoseKey, Result};
use cwt_ring::Ciphers;
use std::alloc::Global;
use std::cell::Cell;
use test_lines::asked::Asked;
use test_lines::tell::hexadecimal;
use test_lines::words::{bytes, index};

/// The number of calls that are kept.
const MAX_CALLS: usize = 32;

/// The most bytes of an identifier that are kept.
const MAX_KID: usize = 64;

/// The calls that are accepted.
#[derive(Drop)]
enum Which {
    /// The call with this number, from 0.
    Call(usize),
    /// Calls with a key of this identifier.
    Kid(Vec<u8>),
}

impl Which {
    /// Returns the calls that the word names: `#` and a number, or an identifier.
    ///
    /// # Errors
    /// - A fault in the word.
    /// - `OutOfMemory` if an allocation fails.
    fn of(alloc: Global, word: &str) -> Result<Which> {
        match word.strip_prefix("#") {
            Some(number) => Ok(Which::Call(index(number)?)),
            None => Ok(Which::Kid(bytes(alloc, word)?)),
        }
    }

    /// Returns true if the call with this number and this key is accepted.
    fn accepts(&self, number: usize, key: &CoseKey) -> bool {
        match self {
            Which::Call(accepted) => *accepted == number,
            Which::Kid(kid) => *kid == key.key_id,
        }
    }
}

/// Calls that are accepted, and the plaintext for the first of them.
#[derive(Drop)]
struct Rule {
    which: Which,
    plaintext: Option<Vec<u8>>,
}

impl Rule {
    /// Returns the rule of a word: the calls, and after `:` a plaintext.
    ///
    /// # Errors
    /// - A fault in the word.
    /// - `OutOfMemory` if an allocation fails.
    fn of(alloc: Global, word: &str) -> Result<Rule> {
        match word.split_once(':') {
            Some((which, plaintext)) => Ok(Rule {
                which: Which::of(alloc, which)?,
                plaintext: Some(bytes(alloc, plaintext)?),
            }),
            None => Ok(Rule {
                which: Which::of(alloc, word)?,
                plaintext: None,
            }),
        }
    }
}

/// A call: the key's identifier, the algorithm, and the nonce.
#[derive(Drop)]
struct Call {
    kid: Vec<u8>,
    algorithm: i64,
    nonce: Vec<u8>,
}

/// The rules, the calls so far, and calls to be filled in. A call of the ciphers allocates nothing.
#[derive(Drop)]
struct Script {
    rules: Vec<Rule>,
    calls: Vec<Call>,
    spare: Vec<Call>,
    asked: Asked,
}

impl Script {
    /// Returns a script with these rules.
    ///
    /// # Errors
    /// `OutOfMemory` if an allocation fails.
    fn new(alloc: Global, rules: Vec<Rule>) -> Result<Script> {
        let mut spare = Vec::new(alloc);
        for _ in 0..MAX_CALLS {
            spare.push(Call {
                kid: Vec::with_capacity(alloc, MAX_KID)?,
                algorithm: 0,
                nonce: Vec::with_capacity(alloc, MAX_KID)?,
            })?;
        }
        Ok(Script {
            rules,
            calls: Vec::with_capacity(alloc, MAX_CALLS)?,
            spare,
            asked: Asked::new(alloc)?,
        })
    }

    /// Records a call.
    fn record(&mut self, key: &CoseKey, algorithm: Algorithm, nonce: &[u8]) {
        let Some(mut call) = self.spare.pop() else {
            return;
        };
        call.algorithm = algorithm.to_i64();
        if key.key_id.len() <= MAX_KID && nonce.len() <= MAX_KID {
            let _ = call.kid.extend_from_slice(&key.key_id);
            let _ = call.nonce.extend_from_slice(nonce);
        }
        let _ = self.calls.push(call);
    }

    /// Returns the plaintext of the first rule that accepts the call with this number and key.
    fn answer(
        &mut self,
        alloc: Global,
        number: usize,
        key: &CoseKey,
    ) -> std::result::Result<Vec<u8>, Refused> {
        for rule in &mut self.rules {
            if rule.which.accepts(number, key) {
                return match rule.plaintext.take() {
                    Some(plaintext) => Ok(plaintext),
                    None => Ok(Vec::new(alloc)),
                };
            }
        }
        Err(Refused(number))
    }
}

/// Ciphers whose answers a line gives.
#[derive(Drop)]
pub struct Faked {
    alloc: Global,
    script: Cell<Option<Script>>,
}

impl Faked {
    /// Returns ciphers that accept the calls that the word lists, separated by commas, or none if
    /// the word is `none`.
    ///
    /// # Errors
    /// - A fault in the word.
    /// - `OutOfMemory` if an allocation fails.
    pub fn new(alloc: Global, word: &str) -> Result<Faked> {
        let mut rules = Vec::new(alloc);
        if word != "none" {
            for rule in word.split(',') {
                rules.push(Rule::of(alloc, rule)?)?;
            }
        }
        Ok(Faked {
            alloc,
            script: Cell::new(Some(Script::new(alloc, rules)?)),
        })
    }

    /// Appends the calls to the text, each with the key's identifier, the algorithm and the nonce.
    /// The arguments of all calls follow.
    ///
    /// # Errors
    /// `OutOfMemory` if an allocation fails.
    pub fn behind(&self, alloc: Global, text: String) -> Result<String> {
        let Some(script) = self.script.take() else {
            return Ok(text);
        };
        let mut text = text;
        text.push_str(" calls")?;
        for call in &script.calls {
            let kid = hexadecimal(alloc, &call.kid)?;
            let nonce = hexadecimal(alloc, &call.nonce)?;
            let call = format!(in alloc; " {kid}/{}/{nonce}", call.algorithm)?;
            text.push_str(&call)?;
        }
        script.asked.behind(alloc, text)
    }

    /// Records a call, and returns its plaintext.
    fn answer(
        &self,
        key: &CoseKey,
        algorithm: Algorithm,
        nonce: &[u8],
        proof: &[u8],
        structure: &[u8],
    ) -> std::result::Result<Vec<u8>, Refused> {
        let Some(mut script) = self.script.take() else {
            return Err(Refused(0));
        };
        let number = script.calls.len();
        script.record(key, algorithm, nonce);
        let _ = script.asked.judge(proof, structure, true);
        let answer = script.answer(self.alloc, number, key);
        self.script.set(Some(script));
        answer
    }
}

impl Ciphers for Faked {
    type Error = Refused;

    ghost view = { λ c. record {
      verifies = λ k a i p. Unit {0};
      decrypts = λ k a n d c p. Unit {0};
      not_verified = λ k a i p e. Unit {0};
      not_decrypted = λ k a n d c e. Unit {0};
    } };

    fn verify(
        &self,
        key: &CoseKey,
        algorithm: Algorithm,
        input: &[u8],
        proof: &[u8],
    ) -> std::result::Result<(), Refused> {
        self.answer(key, algorithm, &[], proof, input)?;
        Ok(())
    }

    fn decrypt(
        &self,
        _alloc: Global,
        key: &CoseKey,
        algorithm: Algorithm,
        nonce: &[u8],
        aad: &[u8],
        ciphertext: &[u8],
    ) -> std::result::Result<Vec<u8>, Refused> {
        self.answer(key, algorithm, nonce, ciphertext, aad)
    }
}
