//! Prints the subject of a signed web token, if its signature is valid. Nothing else of the token
//! is checked. It is read from standard input, in hexadecimal. If no subject is printed, standard
//! error says why, and the status is 1. The stand-in key is to be replaced: it protects nothing.
#![tactic(auto)]

ghost use Rattle.std.specs.Prelude.{◌≡◌, ℕ, List, IfErr, IsTrue, OnOk};
ghost use Rattle.std.specs.Io.KnownBytes.{Appends};
ghost use Rattle.example_subject.specs.Subject.{IsSubjectLine, comes_before_writing};

use anyhow::bail;
use coset::{CallError, CoseError};
use example_uses::cipher::{Refused, VerifyingKey};
use example_uses::stand_in::StandInKey;
use example_uses::verify::verified_claims;
use std::alloc::Global;
use std::io;
use std::io::{Read, Write};

/// The reason why no subject was printed.
#[derive(Debug, Drop)]
enum Unprinted {
    /// The token isn't verified, or its payload isn't claims.
    NotVerified(CallError<Refused>),
    /// The claims have no subject.
    NoSubject,
    /// The subject has a control character, such as a line feed.
    NotALine,
    /// The line couldn't be written, or only a part of it.
    NotWritten(io::Error),
}

/// Prints the subject of a verified token as a line.
///
/// # Errors
/// The reason why it wasn't printed. Nothing is written then, unless the error is `NotWritten`.
fn print_subject<K: VerifyingKey, W: Write>(
    alloc: Global,
    key: &K,
    token: &[u8],
    writer: &mut W,
) -> Result<(), Unprinted>
    ensures printed { OnOk result ((line : List ℕ)
        × IsSubjectLine (K.accepts key.now) token.now line
        × Appends (W.contents writer.old) (W.contents writer.new) line) }
    ensures unprinted { IfErr result (λ e. IsTrue (comes_before_writing e)
        → writer.new ≡ writer.old) }
{
    let claims = match verified_claims(alloc, key, token, b"") {
        Ok(claims) => claims,
        Err(error) => return Err(Unprinted::NotVerified(error)),
    };
    let Some(subject) = &claims.subject else {
        return Err(Unprinted::NoSubject);
    };
    if subject.chars().any(char::is_control) {
        return Err(Unprinted::NotALine);
    }
    let Ok(line) = format!(in alloc; "{subject}\n") else {
        let error = CallError::Coset(CoseError::OutOfMemory);
        return Err(Unprinted::NotVerified(error));
    };
    match writer.write_all(line.as_bytes()) {
        Ok(()) => Ok(()),
        Err(error) => Err(Unprinted::NotWritten(error)),
    }
}

fn main(rt: HostRuntime) -> anyhow::Result<()> {
    let alloc = rt.alloc();
    let mut input = String::new(alloc);
    rt.stdin().read_to_string(&mut input)?;
    let token = hex::decode(alloc, input.trim())?;
    match print_subject(alloc, &StandInKey, &token, &mut rt.stdout()) {
        Ok(()) => Ok(()),
        Err(reason) => bail!("{reason:?}"),
    }
}

#[cfg(test)]
mod tests {
    use super::*;
    use coset::cwt::ClaimsSetBuilder;
    use coset::iana::Algorithm;
    use example_uses::issue::issue_token;
    use std::test::Fail;

    #[test]
    fn a_subject_with_a_line_feed_is_refused(rt: HostRuntime) -> Result<(), Fail> {
        let alloc = rt.alloc();
        let claims = ClaimsSetBuilder::new(alloc)
            .subject_from(alloc, "erikw\nadmin")?
            .build();
        let token = issue_token(alloc, &StandInKey, Algorithm::ES256, claims, b"")?;
        let mut written = Vec::new(alloc);
        let result = print_subject(alloc, &StandInKey, &token, &mut written);
        assert!(rt; matches!(result, Err(Unprinted::NotALine)));
        assert!(rt; written.is_empty());
        Ok(())
    }
}
