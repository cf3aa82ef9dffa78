//! The changes of the strict policy in a line.

use crate::forms;
use coset::iana::{Algorithm, CwtClaimName, EnumI64, HeaderParameter};
use coset::{CoseError, RegisteredLabelWithPrivate, Result};
use cwt_verify::{Audience, Authentication, Form, Policy};
use std::alloc::Global;
use test_lines::spelled::{named, read, unsigned};

/// The audiences that a line names.
#[derive(Clone, Copy)]
enum Wanted {
    Absent,
    Any,
    Named,
}

/// The changes of the strict policy in a line.
#[derive(Drop)]
pub struct Changes<'a> {
    algorithms: Vec<Algorithm>,
    wanted: Wanted,
    names: Vec<&'a str>,
    types: Vec<&'a str>,
    required: Vec<CwtClaimName>,
    critical: Vec<RegisteredLabelWithPrivate<HeaderParameter>>,
    untagged_form: Form,
    accept_lists: bool,
    authenticated_by: Authentication,
    require_exp: bool,
    refuse_future_iat: bool,
    max_age: Option<u64>,
    leeway: u64,
}

/// Returns what authenticates, by the word that names it.
///
/// # Errors
/// `UnexpectedItem` if it names none.
fn authentication(word: &str) -> Result<Authentication> {
    match word {
        "sign" => Ok(Authentication::Signature),
        "mac" => Ok(Authentication::SignatureOrMac),
        "any" => Ok(Authentication::AnyLayer),
        _ => Err(CoseError::UnexpectedItem("word", "authentication")),
    }
}

/// Returns the parts of a list, which are separated by `|`.
///
/// # Errors
/// `OutOfMemory` if an allocation fails.
fn parts<'a>(alloc: Global, list: &'a str) -> Result<Vec<&'a str>> {
    let mut parts = Vec::new(alloc);
    if !list.is_empty() {
        for part in list.split('|') {
            parts.push(part)?;
        }
    }
    Ok(parts)
}

/// Returns the values of a registry whose numbers are in a list.
///
/// # Errors
/// - A fault in a number.
/// - `OutOfMemory` if an allocation fails.
fn numbered<T: EnumI64 + Drop>(alloc: Global, list: &str) -> Result<Vec<T>> {
    let mut values = Vec::new(alloc);
    for part in list.split('|') {
        values.push(named(part)?)?;
    }
    Ok(values)
}

/// Returns the labels in a list, each in hexadecimal.
///
/// # Errors
/// - A fault in a label.
/// - `OutOfMemory` if an allocation fails.
fn labels(alloc: Global, list: &str) -> Result<Vec<RegisteredLabelWithPrivate<HeaderParameter>>> {
    let mut labels = Vec::new(alloc);
    for part in list.split('|') {
        labels.push(read(alloc, part)?)?;
    }
    Ok(labels)
}

impl<'a> Changes<'a> {
    /// Returns no changes.
    fn none(alloc: Global) -> Changes<'a> {
        Changes {
            algorithms: Vec::new(alloc),
            wanted: Wanted::Absent,
            names: Vec::new(alloc),
            types: Vec::new(alloc),
            required: Vec::new(alloc),
            critical: Vec::new(alloc),
            untagged_form: Form::Sign1,
            accept_lists: false,
            authenticated_by: Authentication::SignatureOrMac,
            require_exp: true,
            refuse_future_iat: true,
            max_age: None,
            leeway: 0,
        }
    }

    /// Makes the change that a word names.
    ///
    /// # Errors
    /// - A fault in an unknown word.
    /// - `OutOfMemory` if an allocation fails.
    fn make(&mut self, alloc: Global, word: &'a str) -> Result<()> {
        match word.split_once('=') {
            Some(("plain", name)) => self.untagged_form = forms::read(name)?,
            Some(("by", name)) => self.authenticated_by = authentication(name)?,
            Some(("age", age)) => self.max_age = Some(unsigned(age)?),
            Some(("leeway", leeway)) => self.leeway = unsigned(leeway)?,
            Some((field, list)) => return self.list(alloc, field, list),
            None => return self.lift(word),
        }
        Ok(())
    }

    /// Sets a field that is a list.
    ///
    /// # Errors
    /// The errors of `make`.
    fn list(&mut self, alloc: Global, field: &str, list: &'a str) -> Result<()> {
        match field {
            "algs" => self.algorithms = numbered(alloc, list)?,
            "aud" => return self.meant(alloc, list),
            "types" => self.types = parts(alloc, list)?,
            "need" => self.required = numbered(alloc, list)?,
            "crit" => self.critical = labels(alloc, list)?,
            _ => return Err(CoseError::UnexpectedItem("word", "field of a policy")),
        }
        Ok(())
    }

    /// Sets the audiences: `absent`, `any`, or a list of names.
    ///
    /// # Errors
    /// The errors of `make`.
    fn meant(&mut self, alloc: Global, list: &'a str) -> Result<()> {
        match list {
            "absent" => self.wanted = Wanted::Absent,
            "any" => self.wanted = Wanted::Any,
            names => {
                self.wanted = Wanted::Named;
                self.names = parts(alloc, names)?;
            }
        }
        Ok(())
    }

    /// Lifts a requirement.
    ///
    /// # Errors
    /// A fault in an unknown word.
    fn lift(&mut self, word: &str) -> Result<()> {
        match word {
            "strict" => {}
            "forever" => self.require_exp = false,
            "later" => self.refuse_future_iat = false,
            "lists" => self.accept_lists = true,
            _ => return Err(CoseError::UnexpectedItem("word", "field of a policy")),
        }
        Ok(())
    }

    /// Returns the changes that these words name.
    ///
    /// # Errors
    /// The errors of `make`.
    pub fn of(alloc: Global, words: &'a str) -> Result<Changes<'a>> {
        let mut changes = Changes::none(alloc);
        for word in words.split(',') {
            changes.make(alloc, word)?;
        }
        Ok(changes)
    }

    /// Returns the strict policy with these changes.
    pub fn policy(&self) -> Policy<'_> {
        let audience = match self.wanted {
            Wanted::Absent => Audience::Absent,
            Wanted::Any => Audience::Unchecked,
            Wanted::Named => Audience::OneOf(&self.names),
        };
        Policy {
            algorithms: &self.algorithms,
            audience,
            types: &self.types,
            required: &self.required,
            critical: &self.critical,
            untagged_form: self.untagged_form,
            accept_lists: self.accept_lists,
            authenticated_by: self.authenticated_by,
            require_exp: self.require_exp,
            refuse_future_iat: self.refuse_future_iat,
            max_age: self.max_age,
            leeway: self.leeway,
        }
    }
}
