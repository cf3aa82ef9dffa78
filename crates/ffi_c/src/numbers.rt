//! The kinds, parts and maps that numbers name.

ghost use Rattle.std.specs.Prelude.{◌≡◌};
ghost use Rattle.std.specs.Option.{option_copied};
ghost use Rattle.ffi_c.specs.Numbers.{bytes_if, content_query, countersign_query, countersignature_of, form_of, is_unflagged, kind_of, map_of, map_query, message_of, only_sign, order_of, other_of, part_of, part_query, sign1_of, sign1_query, signer_query};

use coset::CborOrdering;
use ffi_query::{Countersignature, Form, Kind, Map, Part};

pub(crate) const COSET_SIGN1: u32 = 1;

const COSET_SIGN: u32 = 2;

pub(crate) const COSET_MAC0: u32 = 3;

const COSET_MAC: u32 = 4;

pub(crate) const COSET_ENCRYPT0: u32 = 5;

const COSET_ENCRYPT: u32 = 6;

const COSET_SIGNATURE: u32 = 7;

const COSET_RECIPIENT: u32 = 8;

const COSET_HEADER: u32 = 9;

const COSET_KEY: u32 = 10;

const COSET_KEY_SET: u32 = 11;

const COSET_CLAIMS: u32 = 12;

const COSET_ITEM: u32 = 13;

const COSET_KDF_CONTEXT: u32 = 14;

/// Added to a message's number: the message is under its tag.
const COSET_TAGGED: u32 = 0x100;
/// Added to a message's number: the message is under its tag or plain.
const COSET_EITHER: u32 = 0x200;

const COSET_PROTECTED: u32 = 1;

const COSET_PAYLOAD: u32 = 2;

const COSET_CIPHERTEXT: u32 = 3;

const COSET_PROOF: u32 = 4;

pub(crate) const COSET_IN_PROTECTED: u32 = 1;

pub(crate) const COSET_IN_UNPROTECTED: u32 = 2;

const COSET_IN_ITEM: u32 = 3;

const COSET_LEXICOGRAPHIC: u32 = 1;

const COSET_LENGTH_FIRST: u32 = 2;

/// Returns the form of a message, by the number added to its kind.
fn form_of(added: u32) -> Option<Form>
    ensures { result ≡ form_of added }
{
    match added {
        0 => Some(Form::Plain),
        COSET_TAGGED => Some(Form::Tagged),
        COSET_EITHER => Some(Form::Either),
        _ => None,
    }
}

/// Returns the message with this number and form.
fn message_of(number: u32, form: Form) -> Option<Kind>
    ensures { result ≡ message_of number form }
{
    match number {
        COSET_SIGN1 => Some(Kind::Sign1(form)),
        COSET_SIGN => Some(Kind::Sign(form)),
        COSET_MAC0 => Some(Kind::Mac0(form)),
        COSET_MAC => Some(Kind::Mac(form)),
        COSET_ENCRYPT0 => Some(Kind::Encrypt0(form)),
        COSET_ENCRYPT => Some(Kind::Encrypt(form)),
        _ => None,
    }
}

/// Returns the kind with this number, other than a message.
fn other_of(number: u32) -> Option<Kind>
    ensures { result ≡ other_of number }
{
    match number {
        COSET_SIGNATURE => Some(Kind::Signature),
        COSET_RECIPIENT => Some(Kind::Recipient),
        COSET_HEADER => Some(Kind::Header),
        COSET_KEY => Some(Kind::Key),
        COSET_KEY_SET => Some(Kind::KeySet),
        COSET_CLAIMS => Some(Kind::Claims),
        COSET_ITEM => Some(Kind::Any),
        COSET_KDF_CONTEXT => Some(Kind::KdfContext),
        _ => None,
    }
}

/// Returns the kind with this number.
pub(crate) fn kind_of(number: u32) -> Option<Kind>
    ensures { result ≡ kind_of number }
{
    if let Some(kind) = other_of(number) {
        return Some(kind);
    }
    match form_of(number - number % 0x100) {
        Some(form) => message_of(number % 0x100, form),
        None => None,
    }
}

/// Returns the kind with this number, if it is a message with one signature.
fn sign1_of(number: u32) -> Option<Kind>
    ensures { result ≡ sign1_of number }
{
    match kind_of(number) {
        Some(Kind::Sign1(form)) => Some(Kind::Sign1(form)),
        _ => None,
    }
}

/// Returns true if bytes are given although the flag is 0.
fn is_unflagged(has_bytes: u32, bytes: &[u8]) -> bool
    ensures { result ≡ is_unflagged has_bytes bytes.now }
{
    if has_bytes == 0 {
        !bytes.is_empty()
    } else {
        false
    }
}

/// Returns the kind with this number, unless content is given although the flag is 0.
pub(crate) fn content_query(kind: u32, has_content: u32, content: &[u8]) -> Option<Kind>
    ensures { result ≡ content_query kind has_content content.now }
{
    if is_unflagged(has_content, content) {
        None
    } else {
        kind_of(kind)
    }
}

/// Returns the kind, if it is a message with signers.
fn only_sign(kind: Option<Kind>) -> Option<Kind>
    ensures { result ≡ only_sign kind }
{
    match kind {
        Some(Kind::Sign(form)) => Some(Kind::Sign(form)),
        _ => None,
    }
}

/// Returns the kind with this number, unless content is given although the flag is 0, or the index
/// isn't 0 although the kind has no signers.
pub(crate) fn signer_query(
    kind: u32,
    index: usize,
    has_content: u32,
    content: &[u8],
) -> Option<Kind>
    ensures { result ≡ signer_query kind index has_content content.now }
{
    let kind = content_query(kind, has_content, content);
    if index == 0 { kind } else { only_sign(kind) }
}

/// Returns the kind with this number if it has one signature, unless content is given although the
/// flag is 0.
pub(crate) fn sign1_query(kind: u32, has_content: u32, content: &[u8]) -> Option<Kind>
    ensures { result ≡ sign1_query kind has_content content.now }
{
    if is_unflagged(has_content, content) {
        None
    } else {
        sign1_of(kind)
    }
}

/// Returns the countersignature with this label.
fn countersignature_of(label: i64) -> Option<Countersignature>
    ensures { result ≡ countersignature_of label }
{
    match label {
        7 => Some(Countersignature::Full),
        9 => Some(Countersignature::Abbreviated),
        11 => Some(Countersignature::FullV2),
        12 => Some(Countersignature::AbbreviatedV2),
        _ => None,
    }
}

/// Returns the kind with this number and the countersignature with this label, unless content is
/// given although the flag is 0.
pub(crate) fn countersign_query(
    kind: u32,
    label: i64,
    has_content: u32,
    content: &[u8],
) -> Option<(Kind, Countersignature)>
    ensures { result ≡ countersign_query kind label has_content content.now }
{
    match (
        content_query(kind, has_content, content),
        countersignature_of(label),
    ) {
        (Some(kind), Some(countersignature)) => Some((kind, countersignature)),
        _ => None,
    }
}

/// Returns the part with this number.
fn part_of(number: u32) -> Option<Part>
    ensures { result ≡ part_of number }
{
    match number {
        COSET_PROTECTED => Some(Part::Protected),
        COSET_PAYLOAD => Some(Part::Payload),
        COSET_CIPHERTEXT => Some(Part::Ciphertext),
        COSET_PROOF => Some(Part::Proof),
        _ => None,
    }
}

/// Returns the map with this number.
fn map_of(number: u32) -> Option<Map>
    ensures { result ≡ map_of number }
{
    match number {
        COSET_IN_PROTECTED => Some(Map::Protected),
        COSET_IN_UNPROTECTED => Some(Map::Unprotected),
        COSET_IN_ITEM => Some(Map::Item),
        _ => None,
    }
}

/// Returns the kind and the part with these numbers.
pub(crate) fn part_query(kind: u32, part: u32) -> Option<(Kind, Part)>
    ensures { result ≡ part_query kind part }
{
    match (kind_of(kind), part_of(part)) {
        (Some(kind), Some(part)) => Some((kind, part)),
        _ => None,
    }
}

/// Returns the kind and the map with these numbers.
pub(crate) fn map_query(kind: u32, map: u32) -> Option<(Kind, Map)>
    ensures { result ≡ map_query kind map }
{
    match (kind_of(kind), map_of(map)) {
        (Some(kind), Some(map)) => Some((kind, map)),
        _ => None,
    }
}

/// Returns the bytes if the flag isn't 0.
pub(crate) fn bytes_if(has_bytes: u32, bytes: &[u8]) -> Option<&[u8]>
    ensures { option_copied result ≡ bytes_if has_bytes bytes.now }
{
    if has_bytes == 0 { None } else { Some(bytes) }
}

/// Returns the order of labels with this number.
pub(crate) fn order_of(number: u32) -> Option<CborOrdering>
    ensures { result ≡ order_of number }
{
    match number {
        COSET_LEXICOGRAPHIC => Some(CborOrdering::Lexicographic),
        COSET_LENGTH_FIRST => Some(CborOrdering::LengthFirstLexicographic),
        _ => None,
    }
}
