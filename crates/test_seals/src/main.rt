//! `test_seals` reads calls from standard input, one a line, and writes what each returns.
//!
//! A call is `seals FORM BYTES KEYS [EXTERNAL_AAD]`: the lines of `tool_seals::described` for a
//! message and for keys as CBOR, all in hexadecimal, where `-` means no bytes. FORM is
//! `auto`, `sign1`, `mac0`, `encrypt0`, `sign`, `mac` or `encrypt`. In the answer, `;` ends a line,
//! and spaces are between fields. The answer is `no message` if there is none.
#![tactic(auto)]

use coset::{CoseError, Result};
use cwt_keys::Form;
use std::alloc::{AllocError, Global};
use std::io;
use test_lines::line::{Calls, answer_input, unknown};
use test_lines::mark;
use test_lines::words::Words;
use tool_seals::described;

/// The calls that the program makes.
struct SealCalls;

/// Returns the form of that name, or `None` for `auto`.
fn form(name: &str) -> Result<Option<Form>> {
    match name {
        "auto" => Ok(None),
        "sign1" => Ok(Some(Form::Sign1)),
        "mac0" => Ok(Some(Form::Mac0)),
        "encrypt0" => Ok(Some(Form::Encrypt0)),
        "sign" => Ok(Some(Form::Sign)),
        "mac" => Ok(Some(Form::Mac)),
        "encrypt" => Ok(Some(Form::Encrypt)),
        _ => Err(CoseError::UnexpectedItem("word", "form")),
    }
}

/// Returns the text on one line.
fn on_one_line(alloc: Global, text: &str) -> Result<String, AllocError> {
    let mut line = String::new(alloc);
    for c in text.chars() {
        match c {
            '\t' => line.push(' ')?,
            '\n' => line.push(';')?,
            _ => line.push(c)?,
        }
    }
    Ok(line)
}

/// Returns the lines about an input and keys.
fn judged(alloc: Global, words: &Words<'_>) -> Result<String> {
    let form = form(words.word(1))?;
    let bytes = words.bytes(alloc, 2)?;
    let keys = words.bytes(alloc, 3)?;
    let external_aad = match words.word(4) {
        "" => Vec::new(alloc),
        _ => words.bytes(alloc, 4)?,
    };
    mark::begin(alloc);
    let answer = described(alloc, form, &bytes, &keys, &external_aad);
    mark::end(alloc);
    match answer {
        Ok(Some(text)) => Ok(on_one_line(alloc, text.as_str())?),
        Ok(None) => Ok(String::from_str(alloc, "no message")?),
        Err(AllocError) => Ok(String::from_str(alloc, "out of memory")?),
    }
}

impl Calls for SealCalls {
    fn of_no_type(alloc: Global, name: &str, words: &Words<'_>) -> Result<String> {
        match name {
            "seals" => judged(alloc, words),
            _ => Err(unknown()),
        }
    }
}

fn main(rt: HostRuntime) -> io::Result<()> {
    answer_input::<SealCalls, _>(&rt)
}
