//! Keys whose answers a line gives.

use crate::verify::refused::Refused;
use coset::Result;
use cwt_keys::{Keys, Sealed};
use std::alloc::Global;
use std::cell::Cell;
use test_lines::asked::Asked;
use test_lines::words::bytes;

/// The answers of keys, the last one first, the number of answers so far, and the arguments that
/// the keys got.
#[derive(Drop)]
struct Script {
    answers: Vec<Option<Vec<u8>>>,
    count: usize,
    asked: Asked,
}

impl Script {
    /// Returns the next answer, and its place.
    fn answer(&mut self, sealed: &Sealed<'_>) -> std::result::Result<(usize, Vec<u8>), Refused> {
        let place = self.count;
        self.count = self.count.saturating_add(1);
        let _ = self.asked.judge(sealed.proof, sealed.structure, true);
        match self.answers.pop() {
            Some(Some(plaintext)) => Ok((place, plaintext)),
            _ => Err(Refused(place)),
        }
    }
}

/// Keys whose answers a line gives, one for each layer, with the names of their issuers.
#[derive(Drop)]
pub struct Scripted {
    names: Vec<Option<String>>,
    script: Cell<Option<Script>>,
}

/// Returns the plaintext of a word, or nothing if the word is `no`.
///
/// # Errors
/// - A fault in a word that is no answer.
/// - `OutOfMemory` if an allocation fails.
fn plaintext(alloc: Global, word: &str) -> Result<Option<Vec<u8>>> {
    match word {
        "yes" => Ok(Some(Vec::new(alloc))),
        "no" => Ok(None),
        plaintext => Ok(Some(bytes(alloc, plaintext)?)),
    }
}

impl Scripted {
    /// Returns keys with the answers of this word. A name follows its answer after `@`.
    ///
    /// # Errors
    /// - A fault in a word without answers.
    /// - `OutOfMemory` if an allocation fails.
    pub fn new(alloc: Global, word: &str) -> Result<Scripted> {
        let mut answers = Vec::new(alloc);
        let mut names = Vec::new(alloc);
        for answer in word.split(',') {
            match answer.split_once('@') {
                Some((answer, name)) => {
                    answers.push(plaintext(alloc, answer)?)?;
                    names.push(Some(String::from_str(alloc, name)?))?;
                }
                None => {
                    answers.push(plaintext(alloc, answer)?)?;
                    names.push(None)?;
                }
            }
        }
        answers.reverse();
        let script = Script {
            answers,
            count: 0,
            asked: Asked::new(alloc)?,
        };
        Ok(Scripted {
            names,
            script: Cell::new(Some(script)),
        })
    }

    /// Appends the arguments that the keys got to the text.
    ///
    /// # Errors
    /// `OutOfMemory` if an allocation fails.
    pub fn behind(self, alloc: Global, text: String) -> Result<String> {
        match self.script.into_inner() {
            Some(script) => script.asked.behind(alloc, text),
            None => Ok(text),
        }
    }

    /// Returns the next answer, and its place.
    fn answer(&self, sealed: &Sealed<'_>) -> std::result::Result<(usize, Vec<u8>), Refused> {
        let Some(mut script) = self.script.take() else {
            return Err(Refused(0));
        };
        let answer = script.answer(sealed);
        self.script.set(Some(script));
        answer
    }

    /// Returns the name of the issuer at this place, or `None` if it has none.
    fn name(&self, place: usize) -> Option<&str> {
        match self.names.get(place) {
            Some(Some(name)) => Some(name.as_str()),
            _ => None,
        }
    }
}

impl Keys for Scripted {
    ghost use Rattle.cwt_keys.specs.Keys.{accept_anything};

    type Error = Refused;

    ghost view = { λ keys. accept_anything };

    fn verify<'k>(&'k self, sealed: &Sealed<'_>) -> std::result::Result<Option<&'k str>, Refused> {
        let (place, _) = self.answer(sealed)?;
        Ok(self.name(place))
    }

    fn decrypt<'k>(
        &'k self,
        _alloc: Global,
        sealed: &Sealed<'_>,
    ) -> std::result::Result<(Vec<u8>, Option<&'k str>), Refused> {
        let (place, plaintext) = self.answer(sealed)?;
        Ok((plaintext, self.name(place)))
    }
}
