//! Heads: the first bytes of a data item (RFC 8949, section 3).

ghost use Rattle.std.specs.Prelude.{◌≡◌, ◌≤◌, ◌<◌, ◌/◌, ◌+◌, ◌==◌, ◌↔◌, length, IfOk, IsTrue, MatchResult};
ghost use Rattle.std.specs.Int.{w8, w16, w32, w64};
ghost use Rattle.coset_cbor.specs.Heads.{Fits, One, Two, Four, Eight};
ghost use Rattle.coset_cbor.specs.ReadHeads.{BeginsWithHead, HasNoHead, head_number, width_of};
ghost use Rattle.coset_cbor.specs.Reading.{Returns, major_type_of, head_at, argument_at, argument_by, argument_from, head_from};
ghost use Rattle.coset_cbor.specs.declared.head.MajorType.TheVariants as major_types;

use crate::de::{EndOfFile, Error};
use crate::fault::{Fault, end, syntax};

/// The eight major types, numbered from 0 (RFC 8949, section 3.1).
#[derive(Clone, Copy, Debug, PartialEq, Eq)]
pub enum MajorType {
    /// An unsigned integer, which is the argument.
    Unsigned,
    /// A negative integer: -1 minus the argument.
    Negative,
    /// A byte string of as many bytes as the argument says.
    Bytes,
    /// A text string of as many bytes as the argument says, in UTF-8.
    Text,
    /// An array of as many elements as the argument says.
    Array,
    /// A map of as many pairs as the argument says.
    Map,
    /// A tag, with the argument as its number. It encloses one item.
    Tag,
    /// A simple value, a float, or the break that ends an indefinite length.
    Simple,
}

/// A head: the initial byte of an item and its argument (RFC 8949, section 3).
#[derive(Clone, Copy, Debug)]
pub struct Head {
    /// The high three bits of the initial byte.
    pub major_type: MajorType,
    /// The additional information: the low five bits of the initial byte. Below 24 it is the
    /// argument itself. From 24 to 27 an argument of 1, 2, 4 or 8 bytes follows. 31 is an
    /// indefinite length or the break.
    pub info: u8,
    /// The argument, or 0 if there is none.
    pub(crate) number: u64,
}

impl Head {
    /// Returns the argument: a number, a length, or the bits of a float. Returns `None` for an
    /// indefinite length and for the break.
    #[inline(always)]
    pub fn number(self) -> Option<u64>
        ensures { result ≡ head_number self }
    {
        if self.info < 28 {
            Some(self.number)
        } else {
            None
        }
    }

    /// Returns how many bytes the argument takes after the initial byte: 0, 1, 2, 4 or 8.
    pub fn width(self) -> u8
        ensures { result ≡ width_of self.info }
    {
        match self.info {
            24 => 1,
            25 => 2,
            26 => 4,
            27 => 8,
            _ => 0,
        }
    }

    /// Returns how many bytes the head takes.
    pub fn size(self) -> usize
        ensures { result ≡ 1 + width_of self.info }
    {
        1 + usize::from(self.width())
    }

    /// Returns true if the additional information is 31: an indefinite length (RFC 8949, section
    /// 3.2) or the break.
    pub fn is_indefinite(self) -> bool
        ensures { result ≡ (self.info == 31) }
    {
        self.info == 31
    }

    /// Returns true if the head is the break, which ends an indefinite length (RFC 8949, section
    /// 3.2.1).
    pub fn is_break(self) -> bool
        ensures { IsTrue result ↔ ((self.major_type ≡ major_types.Simple) × (self.info ≡ 31)) }
    {
        self.major_type == MajorType::Simple && self.info == 31
    }

    /// Returns true if the item is `null` (RFC 8949, section 3.3).
    pub fn is_null(self) -> bool
        ensures { IsTrue result ↔ ((self.major_type ≡ major_types.Simple) × (self.info ≡ 22)) }
    {
        self.major_type == MajorType::Simple && self.info == 22
    }

    /// Returns true if the item is a float of 16, 32 or 64 bits (RFC 8949, section 3.3).
    pub fn is_float(self) -> bool
        ensures { IsTrue result ↔ ((self.major_type ≡ major_types.Simple)
            × (25 ≤ self.info) × (self.info ≤ 27)) }
    {
        self.major_type == MajorType::Simple && 25 <= self.info && self.info <= 27
    }
}

impl MajorType {
    #[inline(always)]
    fn of(n: u8) -> MajorType
        ensures { result ≡ major_type_of n }
    {
        match n {
            0 => MajorType::Unsigned,
            1 => MajorType::Negative,
            2 => MajorType::Bytes,
            3 => MajorType::Text,
            4 => MajorType::Array,
            5 => MajorType::Map,
            6 => MajorType::Tag,
            _ => MajorType::Simple,
        }
    }
}

#[inline(always)]
fn one_at(bytes: &[u8]) -> Result<(u8, &[u8]), Fault>
    ensures { Returns (λ x. (One x.0, x.1.now)) result
        (argument_at One w8 1 bytes.now) }
{
    let Some((first, rest)) = bytes.split_first() else {
        return Err(end());
    };
    Ok((*first, rest))
}

#[inline(always)]
fn two_at(bytes: &[u8]) -> Result<(u16, &[u8]), Fault>
    ensures { Returns (λ x. (Two x.0, x.1.now)) result
        (argument_at Two w16 2 bytes.now) }
{
    if bytes.len() < 2 {
        return Err(end());
    }
    let (front, rest) = bytes.split_at(2);
    let number = u16::from_be_bytes([front[0], front[1]]);
    Ok((number, rest))
}

#[inline(always)]
fn four_at(bytes: &[u8]) -> Result<(u32, &[u8]), Fault>
    ensures { Returns (λ x. (Four x.0, x.1.now)) result
        (argument_at Four w32 4 bytes.now) }
{
    if bytes.len() < 4 {
        return Err(end());
    }
    let (front, rest) = bytes.split_at(4);
    let number = u32::from_be_bytes([front[0], front[1], front[2], front[3]]);
    Ok((number, rest))
}

#[inline(always)]
fn eight_at(bytes: &[u8]) -> Result<(u64, &[u8]), Fault>
    ensures { Returns (λ x. (Eight x.0, x.1.now)) result
        (argument_at Eight w64 8 bytes.now) }
{
    if bytes.len() < 8 {
        return Err(end());
    }
    let (front, rest) = bytes.split_at(8);
    let number = u64::from_be_bytes([
        front[0], front[1], front[2], front[3], front[4], front[5], front[6], front[7],
    ]);
    Ok((number, rest))
}

/// Returns the argument that the additional information announces, or 0 if there is none. `left`
/// counts the bytes from the start of the head.
#[inline(always)]
fn number_at(info: u8, left: usize, bytes: &[u8]) -> Result<(u64, &[u8]), Fault>
    ensures number { Returns (λ x. (argument_from info x.0, x.1.now)) result
        (argument_by info left bytes.now) }
    ensures fits { IfOk result (λ x. Fits info x.0) }
{
    if info < 24 {
        return Ok((u64::from(info), bytes));
    }
    match info {
        24 => {
            let (number, rest) = one_at(bytes)?;
            Ok((u64::from(number), rest))
        }
        25 => {
            let (number, rest) = two_at(bytes)?;
            Ok((u64::from(number), rest))
        }
        26 => {
            let (number, rest) = four_at(bytes)?;
            Ok((u64::from(number), rest))
        }
        27 => eight_at(bytes),
        31 => Ok((0, bytes)),
        _ => Err(syntax(left)),
    }
}

/// Returns the head at the start, and the bytes after it.
#[tactic(auto, unfolding(crate::specs::Reading::head_at))]
#[inline(always)]
pub(crate) fn head_of(bytes: &[u8]) -> Result<(Head, &[u8]), Fault>
    ensures head { Returns (λ x. (head_from x.0, x.1.now)) result (head_at bytes.now) }
    ensures fits { IfOk result (λ x. Fits x.0.info x.0.number) }
{
    let Some((first, rest)) = bytes.split_first() else {
        return Err(end());
    };
    let major_type = MajorType::of(*first / 32);
    let info = *first % 32;
    let (number, rest) = number_at(info, bytes.len(), rest)?;
    Ok((
        Head {
            major_type,
            info,
            number,
        },
        rest,
    ))
}

/// Reads the head at the start of `bytes`. Returns the head and the bytes after it. Allocates
/// nothing.
///
/// # Errors
/// - `Io` if the bytes end before the head does.
/// - `Syntax(0)` if the additional information is 28, 29 or 30, which are reserved (RFC 8949,
///   section 3).
pub fn read_head(bytes: &[u8]) -> Result<(Head, &[u8]), Error<EndOfFile>>
    ensures { MatchResult result (λ x. BeginsWithHead bytes.now x.0 x.1.now)
        (λ e. HasNoHead bytes.now e) }
{
    match head_of(bytes) {
        Ok((head, rest)) => Ok((head, rest)),
        Err(Fault::End) => Err(Error::Io(EndOfFile)),
        Err(_) => Err(Error::Syntax(0)),
    }
}
