//! Calls of the registries.

ghost use Rattle.std.specs.Prelude.{◌≡◌, IfSome};

use crate::own::Own;
use coset::iana::*;
use coset::{CoseError, Result};
use std::alloc::Global;
use std::cmp::Ordering;
use std::fmt::{Debug, Display};
use test_lines::words::{self, Words};
use test_lines::{mark, tell};

/// A question about a registry.
#[derive(Clone, Copy)]
enum Question {
    /// The value with this number.
    Value(i64),
    /// The registry's name for the value with this number.
    Name(i64),
    /// The `Display` text of the value with this number.
    Display(i64),
    /// The number of names from the first number on, up to the second.
    Count(i64, i64),
    /// The order of the values with these numbers.
    Order(i64, i64),
}

/// Makes the call `REGISTRY::CALL`, or prints the constant of that name.
///
/// # Errors
/// A fault in the arguments, or an unknown name.
pub fn call(alloc: Global, name: &str, words: &Words<'_>) -> Result<String> {
    let Some((registry, call)) = name.split_once("::") else {
        return constant(alloc, name);
    };
    let first = words::number(words.word(1))?;
    match call {
        "is_private" => is_private(alloc, registry, first),
        "from_i64" => answer(alloc, registry, Question::Value(first)),
        "name" => answer(alloc, registry, Question::Name(first)),
        "display" => answer(alloc, registry, Question::Display(first)),
        "count" => {
            let to = words::number(words.word(2))?;
            answer(alloc, registry, Question::Count(first, to))
        }
        "cmp" => {
            let second = words::number(words.word(2))?;
            answer(alloc, registry, Question::Order(first, second))
        }
        _ => Err(CoseError::UnexpectedItem("name", "call of a registry")),
    }
}

/// Returns whether the number is for private use in that registry.
fn is_private(alloc: Global, registry: &str, number: i64) -> Result<String> {
    mark::begin(alloc);
    let answer = match registry {
        "HeaderParameter" => Some(HeaderParameter::is_private(number)),
        "Algorithm" => Some(Algorithm::is_private(number)),
        "EllipticCurve" => Some(EllipticCurve::is_private(number)),
        "CwtClaimName" => Some(CwtClaimName::is_private(number)),
        "Own" => Some(Own::is_private(number)),
        _ => None,
    };
    mark::end(alloc);
    match answer {
        Some(answer) => tell::truth(alloc, answer),
        None => Err(CoseError::UnexpectedItem("name", "registry with a private range")),
    }
}

/// Returns the constant of that name.
fn constant(alloc: Global, name: &str) -> Result<String> {
    mark::begin(alloc);
    let answer = match name {
        "HEADER_PARAMETER_PRIVATE_USE_MAX" => Some(HEADER_PARAMETER_PRIVATE_USE_MAX),
        "ALGORITHM_PRIVATE_USE_MAX" => Some(ALGORITHM_PRIVATE_USE_MAX),
        "ELLIPTIC_CURVE_PRIVATE_USE_MAX" => Some(ELLIPTIC_CURVE_PRIVATE_USE_MAX),
        "CWT_CLAIM_PRIVATE_USE_MAX" => Some(CWT_CLAIM_PRIVATE_USE_MAX),
        _ => None,
    };
    mark::end(alloc);
    match answer {
        Some(number) => Ok(format!(in alloc; "{number}")?),
        None => Err(CoseError::UnexpectedItem("name", "name in iana")),
    }
}

/// Returns the registry's answer.
fn answer(alloc: Global, registry: &str, question: Question) -> Result<String> {
    match registry {
        "HeaderParameter" => told::<HeaderParameter>(alloc, question),
        "HeaderAlgorithmParameter" => told::<HeaderAlgorithmParameter>(alloc, question),
        "Algorithm" => told::<Algorithm>(alloc, question),
        "KeyParameter" => told::<KeyParameter>(alloc, question),
        "OkpKeyParameter" => told::<OkpKeyParameter>(alloc, question),
        "Ec2KeyParameter" => told::<Ec2KeyParameter>(alloc, question),
        "RsaKeyParameter" => told::<RsaKeyParameter>(alloc, question),
        "SymmetricKeyParameter" => told::<SymmetricKeyParameter>(alloc, question),
        "HssLmsKeyParameter" => told::<HssLmsKeyParameter>(alloc, question),
        "WalnutDsaKeyParameter" => told::<WalnutDsaKeyParameter>(alloc, question),
        "AkpKeyParameter" => told::<AkpKeyParameter>(alloc, question),
        "KeyType" => told::<KeyType>(alloc, question),
        "EllipticCurve" => told::<EllipticCurve>(alloc, question),
        "KeyOperation" => told::<KeyOperation>(alloc, question),
        "CborTag" => told::<CborTag>(alloc, question),
        "CoapContentFormat" => told::<CoapContentFormat>(alloc, question),
        "CwtClaimName" => told::<CwtClaimName>(alloc, question),
        "Own" => told::<Own>(alloc, question),
        _ => Err(CoseError::UnexpectedItem("name", "registry")),
    }
}

/// Returns a value and its number, its name or its `Display` text, or `none`; or a count; or an
/// order.
fn told<T: EnumI64 + Named + Ord + Debug + Display + Drop>(
    alloc: Global,
    question: Question,
) -> Result<String> {
    match question {
        Question::Value(i) => told_value::<T>(alloc, i),
        Question::Name(i) => told_name::<T>(alloc, i),
        Question::Display(i) => told_display::<T>(alloc, i),
        Question::Count(from, to) => {
            mark::begin(alloc);
            let count = counted::<T>(from, to);
            mark::end(alloc);
            Ok(format!(in alloc; "{count}")?)
        }
        Question::Order(i, j) => {
            mark::begin(alloc);
            let order = ordered::<T>(i, j);
            mark::end(alloc);
            match order {
                Some(order) => Ok(format!(in alloc; "{order:?}")?),
                None => tell::none(alloc),
            }
        }
    }
}

fn told_value<T: EnumI64 + Debug + Drop>(alloc: Global, i: i64) -> Result<String> {
    mark::begin(alloc);
    let found = found::<T>(i);
    mark::end(alloc);
    match found {
        Some((value, number)) => Ok(format!(in alloc; "{value:?} {number}")?),
        None => tell::none(alloc),
    }
}

fn told_name<T: EnumI64 + Named + Drop>(alloc: Global, i: i64) -> Result<String> {
    mark::begin(alloc);
    let name = named::<T>(i);
    mark::end(alloc);
    match name {
        Some(name) => Ok(String::from_str(alloc, name)?),
        None => tell::none(alloc),
    }
}

fn told_display<T: EnumI64 + Display + Drop>(alloc: Global, i: i64) -> Result<String> {
    mark::begin(alloc);
    let value = T::from_i64(i);
    mark::end(alloc);
    match value {
        Some(value) => Ok(format!(in alloc; "{value}")?),
        None => tell::none(alloc),
    }
}

fn ordered<T: EnumI64 + Ord + Drop>(i: i64, j: i64) -> Option<Ordering> {
    let first = T::from_i64(i)?;
    let second = T::from_i64(j)?;
    Some(first.cmp(&second))
}

/// Returns the value with this number, and its number. The trait's laws alone say that it is the
/// same number.
fn found<T: EnumI64 + Drop>(i: i64) -> Option<(T, i64)>
    ensures { IfSome result (λ x. x.1 ≡ i) }
{
    let value = T::from_i64(i)?;
    let number = value.to_i64();
    Some((value, number))
}

fn named<T: EnumI64 + Named + Drop>(i: i64) -> Option<&'static str> {
    Some(T::from_i64(i)?.name())
}

fn counted<T: EnumI64 + Drop>(from: i64, to: i64) -> usize {
    (from..to)
        .filter(|&number| T::from_i64(number).is_some())
        .count()
}
