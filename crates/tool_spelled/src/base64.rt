//! Base64 and base64url (RFC 4648, sections 4 and 5).

ghost use Rattle.std.specs.Prelude.{[], ◌∷◌, ◌≡◌, ◌*◌, ◌+◌, ◌/◌, ◌%◌, ◌++◌, IfErr, IfOk, IfSome, List, MatchOption, ℕ};
ghost use Rattle.tool_spelled.specs.Base64.{AreDigits, IsBase64, IsPadding, bytes_of, digit_number, first_byte, second_byte, third_byte, is_break};
ghost use Rattle.tool_spelled.specs.Spelled.{IsWithin};

use crate::read::{Misspelled, Why};
use std::alloc::{AllocError, Global};

/// Returns true if the character may be between digits, which means white space.
fn is_break(byte: u8) -> bool
    ensures { result ≡ is_break byte }
{
    matches!(byte, b'\t' | b'\n' | 0x0c | b'\r' | b' ')
}

/// Returns the number of a digit, or `None` for another character.
fn digit_number(digit: u8) -> Option<u8>
    ensures { result ≡ digit_number digit }
{
    match digit {
        b'A'..=b'Z' => Some(digit - b'A'),
        b'a'..=b'z' => Some(digit - b'a' + 26),
        b'0'..=b'9' => Some(digit - b'0' + 52),
        b'+' | b'-' => Some(62),
        b'/' | b'_' => Some(63),
        _ => None,
    }
}

/// Returns the text before a sign `=` at its end, or `None` if there is no such sign.
fn before_sign(text: &[u8]) -> Option<&[u8]>
    ensures { IfSome result (λ t. text.now ≡ t.now ++ (61 ∷ [])) }
{
    match text.split_last() {
        Some((last, rest)) if *last == b'=' => Some(rest),
        _ => None,
    }
}

/// Returns the digits without the padding after them.
fn without_padding(text: &[u8]) -> &[u8]
    ensures { (padding : List ℕ) × (text.now ≡ result.now ++ padding) × IsPadding padding }
{
    let Some(rest) = before_sign(text) else {
        return text;
    };
    match before_sign(rest) {
        Some(digits) => digits,
        None => rest,
    }
}

/// Returns the numbers of the digits, or the offset of a character that is no digit.
fn numbers(alloc: Global, digits: &[u8]) -> Result<Result<Vec<u8>, Misspelled>, AllocError>
    ensures spelled { IfOk result (λ r. IfOk r (λ numbers. AreDigits digits.now numbers.items)) }
    ensures within { IfOk result (λ r. IfErr r (IsWithin digits.now)) }
{
    let mut numbers = Vec::new(alloc);
    let mut left = digits;
    while let Some((digit, rest)) = left.split_first() {
        if !is_break(*digit) {
            match digit_number(*digit) {
                Some(number) => numbers.push(number)?,
                None => {
                    return Ok(Err(Misspelled(digits.len() - left.len(), Why::Digit)));
                }
            }
        }
        left = rest;
    }
    Ok(Ok(numbers))
}

/// Returns the first byte of a group, from the numbers of its first and second digit.
fn first_byte(first: u8, second: u8) -> u8
    ensures { result ≡ first_byte first second }
{
    first % 64 * 4 + second / 16 % 4
}

/// Returns the second byte of a group, from the numbers of its second and third digit.
fn second_byte(second: u8, third: u8) -> u8
    ensures { result ≡ second_byte second third }
{
    second % 16 * 16 + third / 4 % 16
}

/// Returns the third byte of a group, from the numbers of its third and fourth digit.
fn third_byte(third: u8, fourth: u8) -> u8
    ensures { result ≡ third_byte third fourth }
{
    third % 4 * 64 + fourth % 64
}

/// Returns the bytes of groups of four digits with these numbers. The last group may have two or
/// three digits. Returns `None` if it has one.
fn bytes_of(alloc: Global, numbers: &[u8]) -> Result<Option<Vec<u8>>, AllocError>
    ensures { IfOk result (λ o. MatchOption o (bytes_of numbers.now ≡ None)
        (λ bytes. bytes_of numbers.now ≡ Some bytes.items)) }
{
    let mut bytes = Vec::new(alloc);
    let mut left = numbers;
    while let [a, b, c, d, rest @ ..] = left {
        bytes.push(first_byte(*a, *b))?;
        bytes.push(second_byte(*b, *c))?;
        bytes.push(third_byte(*c, *d))?;
        left = rest;
    }
    match left {
        [] => {}
        [a, b] => bytes.push(first_byte(*a, *b))?,
        [a, b, c] => {
            bytes.push(first_byte(*a, *b))?;
            bytes.push(second_byte(*b, *c))?;
        }
        _ => return Ok(None),
    }
    Ok(Some(bytes))
}

/// Returns the bytes that the text spells, or where it is misspelled.
///
/// The digits are of either alphabet, with or without padding after them. White space may be
/// between them.
///
/// # Errors
/// `AllocError` if an allocation fails.
pub(crate) fn bytes(alloc: Global, text: &[u8]) -> Result<Result<Vec<u8>, Misspelled>, AllocError>
    ensures spelled { IfOk result (λ r. IfOk r (λ bytes. IsBase64 text.now bytes.items)) }
    ensures within { IfOk result (λ r. IfErr r (IsWithin text.now)) }
{
    let digits = without_padding(text);
    match numbers(alloc, digits)? {
        Ok(numbers) => match bytes_of(alloc, &numbers)? {
            Some(bytes) => Ok(Ok(bytes)),
            None => Ok(Err(Misspelled(text.len(), Why::Digit))),
        },
        Err(misspelled) => Ok(Err(misspelled)),
    }
}
