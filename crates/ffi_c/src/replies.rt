//! Results as C receives them: a status, and a number in a place that the caller passes.

ghost use Rattle.std.specs.Prelude.{◌≡◌, pos};
ghost use Rattle.ffi_query.specs.Faults.{IsOffset};
ghost use Rattle.ffi_c.specs.Replies.{IsMisuse, RepliesOffset, check_status, length_of, reply_status, status_number, value_or};

use coset::CoseError;
use ffi_query::{Refusal, Status, fault_offset};

/// Success.
pub(crate) const COSET_OK: i32 = 0;
/// The result is longer than the memory for it.
const COSET_SHORT: i32 = 1;
/// An allocation failed.
pub(crate) const COSET_MEMORY: i32 = 2;
/// The bytes end before the item does.
const COSET_ENDS: i32 = 3;
/// The bytes aren't well-formed.
const COSET_MALFORMED: i32 = 4;
/// Arrays, maps and tags nest too deep.
const COSET_DEEP: i32 = 5;
/// Bytes follow the item.
const COSET_EXTRANEOUS: i32 = 6;
/// An item isn't what its place requires.
const COSET_UNEXPECTED: i32 = 7;
/// Two keys of a map are the same label.
const COSET_DUPLICATE: i32 = 8;
/// An integer is outside the range of its place.
const COSET_OUT_OF_RANGE: i32 = 9;
/// An integer isn't registered, and its registry has no private range.
const COSET_UNREGISTERED: i32 = 10;
/// An integer isn't registered, and is outside its registry's private range.
const COSET_NOT_PRIVATE: i32 = 11;
/// The requested part isn't there.
pub(crate) const COSET_ABSENT: i32 = 12;
/// An argument isn't valid, or a payload is given as detached and the message carries one too.
pub(crate) const COSET_MISUSE: i32 = 13;
/// The requested value is of another type.
pub(crate) const COSET_TYPE: i32 = 14;
/// The counted list is empty.
const COSET_EMPTY: i32 = 15;

/// Returns the number of a status.
pub(crate) fn status_number(status: Status) -> i32
    ensures { result ≡ pos (status_number status) }
{
    match status {
        Status::Short => COSET_SHORT,
        Status::Memory => COSET_MEMORY,
        Status::Ends => COSET_ENDS,
        Status::Malformed => COSET_MALFORMED,
        Status::Deep => COSET_DEEP,
        Status::Extraneous => COSET_EXTRANEOUS,
        Status::Unexpected => COSET_UNEXPECTED,
        Status::Duplicate => COSET_DUPLICATE,
        Status::OutOfRange => COSET_OUT_OF_RANGE,
        Status::Unregistered => COSET_UNREGISTERED,
        Status::NotPrivate => COSET_NOT_PRIVATE,
        Status::Absent => COSET_ABSENT,
        Status::WrongType => COSET_TYPE,
        Status::Empty => COSET_EMPTY,
        Status::Misuse => COSET_MISUSE,
    }
}

/// Returns the status of a result that is a length or a count.
///
/// Sets `place` to the length or count, to the length needed if the result is too long, and to 0
/// after any other error.
pub(crate) fn reply(answer: Result<usize, Refusal>, place: &mut usize) -> i32
    ensures status { result ≡ reply_status answer }
    ensures number { place.new ≡ length_of answer }
{
    *place = match &answer {
        Ok(length) => *length,
        Err(Refusal::Short(length)) => *length,
        Err(_) => 0,
    };
    match answer {
        Ok(_) => COSET_OK,
        Err(refusal) => status_number(refusal.status()),
    }
}

/// Returns the status of a result, and sets `place` to its value, or to `nothing` after an error.
pub(crate) fn reply_value<N: Copy>(answer: Result<N, Refusal>, nothing: N, place: &mut N) -> i32
    ensures status { result ≡ reply_status answer }
    ensures value { place.new ≡ value_or nothing answer }
{
    match answer {
        Ok(value) => {
            *place = value;
            COSET_OK
        }
        Err(refusal) => {
            *place = nothing;
            status_number(refusal.status())
        }
    }
}

/// Returns the status of a check of these bytes.
///
/// Sets `place` to the offset at which they stop being one item, or to the greatest number if that
/// isn't known or they are one item.
pub(crate) fn reply_check(answer: Result<(), CoseError>, bytes: &[u8], place: &mut usize) -> i32
    ensures status { result ≡ check_status answer }
    ensures offset { RepliesOffset bytes.now answer place.new }
{
    match answer {
        Ok(()) => {
            *place = usize::MAX;
            COSET_OK
        }
        Err(error) => {
            *place = fault_offset(bytes).unwrap_or(usize::MAX);
            status_number(Refusal::Cose(error).status())
        }
    }
}

/// Returns the status for a number without a meaning, and sets `place` to `given`.
pub(crate) fn misused<N: Copy>(given: N, place: &mut N) -> i32
    ensures { IsMisuse result place.new given }
{
    *place = given;
    COSET_MISUSE
}
