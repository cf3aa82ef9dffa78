//! Decodes values from bytes (RFC 8949, section 3 and appendix C).

ghost use Rattle.std.specs.Prelude.{◌≡◌, ◌≤◌, ◌+◌, ◌++◌, List, Some, ℕ, codes, take, length, IfOk, IfErr, MatchOption};
ghost use Rattle.coset_value.specs.Item.{Item};
ghost use Rattle.coset_value.specs.View.{value_item};
ghost use Rattle.coset_cbor.specs.Prefixes.{HasNoItem};
ghost use Rattle.coset_cbor.specs.Grammar.{IsItem, IsEncoding};
ghost use Rattle.coset_cbor.specs.Cost.{IsCost};
ghost use Rattle.coset_cbor.specs.Faults.{FaultAt};
ghost use Rattle.coset_cbor.specs.ReadErrors.{IsMemory, FaultIn};

use crate::check::item as check_item;
pub use crate::chunks::{ByteChunks, TextChunks};
pub use crate::elements::{Items, Pairs};
use crate::fault::{Fault, ReadError};
use crate::memory::OutOfMemory;
pub use crate::pull::Pull;
use crate::read;
pub use crate::steps::Steps;
use coset_value::Value;
use std::alloc::Global;
use std::marker::Brand;
use std::sync::ledger::{Blank, Ledger};
use std::{error, fmt};

/// How many levels of arrays, maps and tags the input may nest.
pub(crate) const MAX_DEPTH: u32 = 256;

/// The input ends before the item does.
#[derive(Clone, Copy, Debug, PartialEq, Eq)]
pub struct EndOfFile;

impl fmt::Display for EndOfFile {
    ghost output = { λ _. Some (codes "end of file") };

    fn fmt<W: fmt::Write>(&self, f: &mut fmt::Formatter<W>) -> fmt::Result {
        write!(f, "end of file")
    }
}

impl error::Error for EndOfFile {}

/// Why bytes could not be decoded. A number is the offset of the faulty head's first byte.
#[derive(Debug, Drop)]
pub enum Error<T> {
    /// The input ends too early, or a head announces more than the remaining input can contain.
    Io(T),
    /// The bytes are not well-formed (RFC 8949, appendix F), or a text string is not UTF-8 (section
    /// 5.3.1).
    Syntax(usize),
    /// A well-formed simple value other than false, true and null. `Value` has no variant for it.
    Semantic(Option<usize>, &'static str),
    /// Arrays, maps and tags nest more than 256 levels deep.
    RecursionLimitExceeded,
    /// An allocation failed.
    OutOfMemory,
}

impl<T: fmt::Debug> fmt::Display for Error<T> {
    fn fmt<W: fmt::Write>(&self, f: &mut fmt::Formatter<W>) -> fmt::Result {
        write!(f, "{self:?}")
    }
}

impl<T: fmt::Debug + Drop> error::Error for Error<T> {}

impl<T> From<OutOfMemory> for Error<T> {
    ghost use Rattle.coset_cbor.specs.declared.de.Error.TheVariants as errors;

    ghost from_gives = { λ _ e. e ≡ errors.OutOfMemory };

    fn from(_e: OutOfMemory) -> Error<T> {
        Error::OutOfMemory
    }
}

/// Returns the error for a fault in an input of `len` bytes.
pub(crate) fn error_of(fault: Fault, len: usize) -> Error<EndOfFile>
    ensures other { IsMemory result → ⊥ }
    ensures fault { (s : List ℕ) → length s ≡ len → FaultAt 256 s fault → FaultIn s result }
{
    match fault {
        Fault::End => Error::Io(EndOfFile),
        Fault::Syntax(left) => Error::Syntax(len.saturating_sub(left)),
        Fault::Simple(left) => {
            Error::Semantic(Some(len.saturating_sub(left)), "unsupported simple value")
        }
        Fault::Deep => Error::RecursionLimitExceeded,
    }
}

/// Checks the item at the start of `bytes` and returns its length.
///
/// Makes no value and allocates nothing. Passes over the bytes once, and skips those of byte
/// strings.
///
/// `steps` grows by the item's cost. Each head of an item or a chunk is one step, and so is each
/// closing break. Each byte of a text string's content is one more. Even after an error, `steps`
/// grows by at most the number of bytes.
///
/// # Errors
/// A fault in the bytes. No prefix of them is then an item within 256 levels. Never `OutOfMemory`.
pub fn check<L: Ledger>(bytes: &[u8], steps: &mut Steps<L>) -> Result<usize, Error<EndOfFile>>
    ensures length { IfOk result (λ n. n ≤ length bytes.now) }
    // That many bytes are an item, and the steps grow by its cost.
    ensures found { IfOk result (λ n. (v : Item) × (k : ℕ) × IsItem (take n bytes.now) v
        × IsCost v (take n bytes.now) k × (steps.new ≡ steps.old + k)) }
    // If there is an error, no prefix of the bytes is an item.
    ensures refused { IfErr result (λ e. HasNoItem bytes.now) }
    ensures memory { IfErr result (λ e. IsMemory e → ⊥) }
    // The fault is in the bytes, at the error's offset if it has one.
    ensures fault { IfErr result (λ e. FaultIn bytes.now e) }
    ensures bound { steps.new ≤ steps.old + length bytes.now }
{
    match check_item(bytes, MAX_DEPTH, steps) {
        Ok(rest) => Ok(bytes.len() - rest.len()),
        Err(fault) => Err(error_of(fault, bytes.len())),
    }
}

/// Returns the length of the item at the start of `bytes`. This is [`check`] without a step
/// counter. Allocates nothing.
///
/// # Errors
/// The same as [`check`].
pub fn item_length(bytes: &[u8]) -> Result<usize, Error<EndOfFile>>
    ensures length { IfOk result (λ n. n ≤ length bytes.now) }
    // That many bytes are an item.
    ensures found { IfOk result (λ n. (v : Item) × IsItem (take n bytes.now) v) }
    // If there is an error, no prefix of the bytes is an item.
    ensures refused { IfErr result (λ e. HasNoItem bytes.now) }
    ensures memory { IfErr result (λ e. IsMemory e → ⊥) }
    // The fault is in the bytes, at the error's offset if it has one.
    ensures fault { IfErr result (λ e. FaultIn bytes.now e) }
{
    counted_length::<Brand>(bytes, Blank::new(1))
}

/// Returns the length of the item at the start, by a check with its own step counter.
fn counted_length<L: Ledger>(bytes: &[u8], blank: Blank) -> Result<usize, Error<EndOfFile>>
    requires name { blank.name ≡ L.name }
    requires parts { blank.parts ≡ L.parts }
    requires some { L.parts ≡ 1 }
    ensures length { IfOk result (λ n. n ≤ length bytes.now) }
    ensures found { IfOk result (λ n. (v : Item) × IsItem (take n bytes.now) v) }
    ensures refused { IfErr result (λ e. HasNoItem bytes.now) }
    ensures memory { IfErr result (λ e. IsMemory e → ⊥) }
    ensures fault { IfErr result (λ e. FaultIn bytes.now e) }
{
    let mut steps: Steps<L> = Steps::new(blank);
    check(bytes, &mut steps)
}

/// Reads the item at the start of `bytes`. Returns its value and its length. More bytes may follow
/// the item.
///
/// Accepts every encoding (RFC 8949, section 3): heads of any width that holds the argument, and
/// definite and indefinite lengths. The keys of a map may repeat. Arrays, maps and tags may nest
/// 256 levels deep. No memory is reserved for announced content that is missing.
///
/// # Errors
/// - `OutOfMemory` if an allocation fails. The bytes are checked first, without allocating, so an
///   item is then at their start.
/// - A fault in the bytes. No prefix of them is then an item within 256 levels.
///
/// If there are several faults, the first in reading order is returned. At one head, the order is:
/// the head's form, its argument, the depth, an announced length that cannot fit in the remaining
/// input, the content.
pub fn read_value(alloc: Global, bytes: &[u8]) -> Result<(Value, usize), Error<EndOfFile>>
    ensures length { IfOk result (λ x. x.1 ≤ length bytes.now) }
    // The value is that of the item at the start.
    ensures found { IfOk result (λ x. IsItem (take x.1 bytes.now) (value_item x.0)) }
    // If there is an error other than `OutOfMemory`, no prefix of the bytes is an item.
    ensures refused { IfErr result (λ e. (IsMemory e → ⊥) → HasNoItem bytes.now) }
    // If the error is `OutOfMemory`, a prefix of the bytes is an item.
    ensures memory { IfErr result (λ e. IsMemory e
        → (v : Item) × (b : List ℕ) × (rest : List ℕ) × (bytes.now ≡ b ++ rest) × IsItem b v) }
    // The fault is in the bytes, at the error's offset if it has one.
    ensures fault { IfErr result (λ e. FaultIn bytes.now e) }
{
    let (pull, _) = Pull::new(bytes)?;
    let value = pull.to_value(alloc)?;
    Ok((value, pull.slice().len()))
}

/// Decodes `bytes` as one item of any depth. Returns `None` if they are not one item.
///
/// Use this for bytes that were written locally. The sender of received bytes chooses how deep they
/// nest, and so how much stack this call takes.
///
/// # Errors
/// `OutOfMemory` if an allocation fails.
pub fn decode_unbounded(alloc: Global, bytes: &[u8]) -> Result<Option<Value>, OutOfMemory>
    ensures { IfOk result (λ o. MatchOption o ((v : Item) → IsEncoding v bytes.now → ⊥)
        (λ x. IsEncoding (value_item x) bytes.now)) }
{
    match read::item(alloc, bytes, bytes.len()) {
        Ok((value, rest)) => {
            if !rest.is_empty() {
                return Ok(None);
            }
            Ok(Some(value))
        }
        Err(ReadError::Memory) => Err(OutOfMemory),
        Err(ReadError::Fault(_)) => Ok(None),
    }
}
