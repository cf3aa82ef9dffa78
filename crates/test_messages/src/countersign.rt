//! Calls for the structures of countersignatures of version 2.

use coset::{
    CoseCountersignature, CoseError, Result, countersign_v2_structure_data,
    countersign0_v2_structure_data, verify_countersignature,
};
use std::alloc::Global;
use test_lines::asked::Asked;
use test_lines::words::{Words, bytes};
use test_lines::{header, mark, tell};

/// Returns the other fields of a countersigned structure, which the word has between commas. `none`
/// means that there is no field, and then no structure is made.
///
/// # Errors
/// - A fault in the word, or in a structure without fields.
/// - `OutOfMemory` if an allocation fails.
fn other_fields(alloc: Global, word: &str) -> Result<Vec<Vec<u8>>> {
    let mut fields = Vec::new(alloc);
    if word != "none" {
        for field in word.split(',') {
            fields.push(bytes(alloc, field)?)?;
        }
    }
    Ok(fields)
}

/// Returns the error for a structure without other fields.
fn no_fields() -> CoseError {
    CoseError::UnexpectedItem("no other fields", "at least one")
}

/// Verifies a countersignature.
///
/// Arguments: `yes` or `no`; the countersignature; the body's protected header; `external_aad`; the
/// payload; the other fields; the changes of the body's header and of the countersignature's.
///
/// # Errors
/// A fault in the arguments.
pub fn verify(alloc: Global, words: &Words<'_>) -> Result<String> {
    let says_yes = words.says_yes(1)?;
    let mut one: CoseCountersignature = words.value(alloc, 2)?;
    header::change(&mut one.protected, words.word(8))?;
    let body = header::read(alloc, words, 3, 7)?;
    let external_aad = words.bytes(alloc, 4)?;
    let payload = words.bytes(alloc, 5)?;
    let fields = other_fields(alloc, words.word(6))?;
    let mut asked = Asked::new(alloc)?;
    let count = &mut asked;
    if fields.is_empty() {
        return Err(no_fields());
    }
    mark::begin(alloc);
    let answer = verify_countersignature(
        alloc,
        &one,
        body,
        &external_aad,
        &payload,
        &fields,
        move |signature, tbs| count.judge(signature, tbs, says_yes),
    );
    mark::end(alloc);
    asked.judged(alloc, answer)
}

/// Makes the structure of a countersignature.
///
/// Arguments: the protected headers of the body and of the countersignature; `external_aad`; the
/// payload; the other fields; the changes of the two headers.
///
/// # Errors
/// A fault in the arguments.
pub fn structure(alloc: Global, words: &Words<'_>) -> Result<String> {
    let body = header::read(alloc, words, 1, 6)?;
    let sign = header::read(alloc, words, 2, 7)?;
    let external_aad = words.bytes(alloc, 3)?;
    let payload = words.bytes(alloc, 4)?;
    let fields = other_fields(alloc, words.word(5))?;
    if fields.is_empty() {
        return Err(no_fields());
    }
    mark::begin(alloc);
    let answer = countersign_v2_structure_data(alloc, body, sign, &external_aad, &payload, &fields);
    mark::end(alloc);
    tell::bytes(alloc, answer)
}

/// Makes the structure of an abbreviated countersignature.
///
/// Arguments: the body's protected header; `external_aad`; the payload; the other fields; the
/// change of the header.
///
/// # Errors
/// A fault in the arguments.
pub fn abbreviated_structure(alloc: Global, words: &Words<'_>) -> Result<String> {
    let body = header::read(alloc, words, 1, 5)?;
    let external_aad = words.bytes(alloc, 2)?;
    let payload = words.bytes(alloc, 3)?;
    let fields = other_fields(alloc, words.word(4))?;
    if fields.is_empty() {
        return Err(no_fields());
    }
    mark::begin(alloc);
    let answer = countersign0_v2_structure_data(alloc, body, &external_aad, &payload, &fields);
    mark::end(alloc);
    tell::bytes(alloc, answer)
}
