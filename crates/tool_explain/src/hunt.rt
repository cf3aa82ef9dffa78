//! The search for the fault for which a type's decoder refused the bytes.

use crate::faults::Fault;
use crate::frame::{Container, Frame};
use crate::head::{integer, is_integer, kind_name, tag};
use crate::role::{Message, Part, Role, is_private, name_of};
use coset::cbor::de::{Error, Pull};
use coset::cbor::head::{Head, MajorType};
use coset::cbor::value::Integer;
use coset::iana::{EnumI64, HeaderParameter};
use coset::{CborSerializable, CoseError, CoseSignature};
use std::alloc::{AllocError, Global};
use std::collections::BTreeMap;
use tool_fault::has_header_fault;

/// The fault that is searched for.
#[derive(Clone, Copy, Debug)]
enum Sought {
    /// None: the bytes were read, or their fault is one of CBOR.
    Nothing,
    /// An item of the first kind, at a place that asks for the second.
    Unexpected(&'static str, &'static str),
    /// A signature that can't be read.
    Signature,
    /// A key operation that repeats.
    Operation,
    /// A label that repeats.
    Repeated,
    /// IV and Partial IV in one map.
    BothIvs,
    /// A text that is no media type. True if it has white space at its ends, otherwise its slashes
    /// are wrong.
    MediaType(bool),
    /// The 17th of nested protected headers.
    Depth,
    /// An integer outside of the range of its place.
    OutOfRange,
    /// A number without a name, in a registry without a private range.
    Unregistered,
    /// A number without a name and outside of the private range.
    UnregisteredNonPrivate,
}

/// The fault that is searched for, and the labels so far.
#[derive(Drop)]
pub(crate) struct Hunt<'e> {
    sought: Sought,
    /// The error that names the fault.
    pub(crate) error: Option<&'e CoseError>,
    /// The labels so far, each with its map, and their indices there.
    labels: BTreeMap<String, usize>,
    /// The index of the first of two labels that must not both be there, once the second is found.
    pub(crate) earlier: Option<usize>,
}

/// Returns true if an item with this head may be at the place.
fn fits(frame: &Frame, role: Role, head: &Head) -> bool {
    match role {
        Role::Message(_, _) | Role::Signature => {
            head.major_type == MajorType::Array
                || (frame.container == Container::Input && tag(head) == Some(tag_of(role)))
        }
        Role::Signatures
        | Role::Countersignatures
        | Role::Recipient
        | Role::Recipients
        | Role::Labels
        | Role::Operations
        | Role::KeySet
        | Role::Context
        | Role::Party
        | Role::PublicInformation => head.major_type == MajorType::Array,
        Role::Header(_) | Role::Key | Role::Claims => head.major_type == MajorType::Map,
        Role::Protected | Role::Bytes | Role::FilledBytes => head.major_type == MajorType::Bytes,
        Role::Payload(_) | Role::MaybeBytes => {
            head.major_type == MajorType::Bytes || head.is_null()
        }
        Role::Nonce => { head.major_type == MajorType::Bytes || head.is_null() || is_integer(head) }
        Role::Text => head.major_type == MajorType::Text,
        Role::Length => is_integer(head),
        Role::Expiry | Role::Start | Role::Time => is_integer(head) || head.is_float(),
        Role::CriticalLabel
        | Role::Algorithm
        | Role::ContentFormat
        | Role::KeyType
        | Role::Operation
        | Role::HeaderLabel
        | Role::KeyLabel(_)
        | Role::ClaimName => is_integer(head) || head.major_type == MajorType::Text,
        _ => true,
    }
}

/// Returns the tag number of a message (RFC 8152, table 1) or a countersignature (RFC 9338, section
/// 3.1).
fn tag_of(role: Role) -> u64 {
    match role {
        Role::Message(Message::Encrypt0, _) => 16,
        Role::Message(Message::Mac0, _) => 17,
        Role::Message(Message::Sign1, _) => 18,
        Role::Message(Message::Encrypt, _) => 96,
        Role::Message(Message::Mac, _) => 97,
        Role::Message(Message::Sign, _) => 98,
        _ => 19,
    }
}

/// Returns the number of elements of the array with this head at the front of the bytes.
fn count_of(head: &Head, bytes: &[u8]) -> u64 {
    if let Some(count) = head.number() {
        return count;
    }
    let Ok((pull, _)) = Pull::new(bytes) else {
        return 0;
    };
    let mut count = 0u64;
    if let Some(elements) = pull.items() {
        for _element in elements {
            count = count.saturating_add(1);
        }
    }
    count
}

/// Returns true if the map at the front of the bytes has a key type that isn't the reserved one.
fn has_key_type(bytes: &[u8]) -> bool {
    let Ok((pull, _)) = Pull::new(bytes) else {
        return false;
    };
    let Some(pairs) = pull.pairs() else {
        return false;
    };
    for (label, value) in pairs {
        if label.integer() == Some(Integer::from(1u8)) {
            return value.integer() != Some(Integer::from(0u8));
        }
    }
    false
}

/// Returns true if an array with this role may have `count` elements.
fn has_count(role: Role, count: u64) -> bool {
    match role {
        Role::Message(Message::Encrypt0, _) | Role::Signature | Role::Party => count == 3,
        Role::Message(Message::Mac, _) => count == 5,
        Role::Message(_, _) => count == 4,
        Role::Recipient => count == 3 || count == 4,
        Role::PublicInformation => count == 2 || count == 3,
        Role::Context => 4 <= count,
        _ => true,
    }
}

/// Returns the name that errors give to an item without something that its role requires. Returns
/// `None` if nothing is missing.
fn lacking(role: Role, head: &Head, bytes: &[u8]) -> Option<&'static str> {
    if role == Role::Key && !has_key_type(bytes) {
        return Some("no kty label");
    }
    match role {
        Role::FilledBytes if is_empty(head, bytes) => Some("empty bstr"),
        Role::ContentFormat if head.major_type == MajorType::Text && is_empty(head, bytes) => {
            Some("empty tstr")
        }
        Role::Countersignatures if is_empty(head, bytes) => Some("empty sig array"),
        Role::Labels | Role::Operations if is_empty(head, bytes) => Some("empty array"),
        _ => None,
    }
}

/// Returns true if the array or string with this head, at the front of the bytes, is empty.
fn is_empty(head: &Head, bytes: &[u8]) -> bool {
    if head.major_type == MajorType::Array {
        return count_of(head, bytes) == 0;
    }
    match head.number() {
        Some(length) => length == 0,
        None => content_length(bytes) == 0,
    }
}

/// Returns the length of the longest chunk of the string in chunks at the front. It is 0 if the
/// string is empty.
fn content_length(bytes: &[u8]) -> u64 {
    let Ok((pull, _)) = Pull::new(bytes) else {
        return 0;
    };
    let mut length = 0;
    if let Some(chunks) = pull.bytes_chunks() {
        for chunk in chunks {
            length = chunk.len().max(length);
        }
    }
    if let Some(chunks) = pull.text_chunks() {
        for chunk in chunks {
            length = chunk.len().max(length);
        }
    }
    length as u64
}

/// Returns true if an error that asks for `want` can be about an item with this role.
fn asks(role: Role, want: &str) -> bool {
    match want {
        "bstr" => matches!(
            role,
            Role::Protected | Role::Bytes | Role::FilledBytes | Role::Payload(_) | Role::MaybeBytes
        ),
        "bstr or nil" => matches!(role, Role::Payload(_)),
        "bstr / nil" | "bstr / null" => role == Role::MaybeBytes,
        "bstr / int / nil" => role == Role::Nonce,
        "map" => matches!(role, Role::Header(_) | Role::Key | Role::Claims),
        "array value" => role == Role::Labels,
        "int" => role == Role::Length,
        "int/float" => matches!(role, Role::Expiry | Role::Start | Role::Time),
        "tstr" => role == Role::Text,
        _ => true,
    }
}

/// Returns the name that errors give to an item that may not be at its place, or `None` if it may.
fn unexpected(frame: &Frame, role: Role, head: &Head, bytes: &[u8]) -> Option<&'static str> {
    if !fits(frame, role, head) {
        return Some(kind_name(head));
    }
    if head.major_type == MajorType::Array && !has_count(role, count_of(head, bytes)) {
        return Some("array");
    }
    lacking(role, head, bytes)
}

/// Returns true if an integer with this role must fit an `i64`.
fn is_bounded(role: Role) -> bool {
    matches!(
        role,
        Role::CriticalLabel
            | Role::Algorithm
            | Role::ContentFormat
            | Role::KeyType
            | Role::Operation
            | Role::HeaderLabel
            | Role::KeyLabel(_)
            | Role::ClaimName
            | Role::Expiry
            | Role::Start
            | Role::Time
            | Role::Nonce
    )
}

/// Returns true if an integer is outside of the range of its role.
fn is_out_of_range(role: Role, head: &Head) -> bool {
    if role == Role::Length {
        return head.major_type == MajorType::Negative;
    }
    is_bounded(role) && is_integer(head) && integer(head).is_none()
}

/// Returns true if the item at the front of the bytes is a signature (RFC 8152, section 4.1).
fn is_signature(alloc: Global, bytes: &[u8]) -> Result<bool, AllocError> {
    let Ok((pull, _)) = Pull::new(bytes) else {
        return Ok(false);
    };
    match CoseSignature::from_slice(alloc, pull.slice()) {
        Ok(_) => Ok(true),
        Err(CoseError::OutOfMemory) => Err(AllocError),
        Err(_) => Ok(false),
    }
}

/// Returns the text string at the front of the bytes, with its chunks joined, or `None` for another
/// item.
fn text_of(alloc: Global, bytes: &[u8]) -> Result<Option<String>, AllocError> {
    let Ok((pull, _)) = Pull::new(bytes) else {
        return Ok(None);
    };
    match pull.to_text(alloc) {
        Ok(text) => Ok(text),
        Err(_) => Err(AllocError),
    }
}

/// Returns true if the text at the front of the bytes is no media type (RFC 8152, section 3.1).
/// With `is_spaced`, it has white space at its ends. Otherwise it has none, and the number of
/// slashes is wrong.
fn is_no_media_type(alloc: Global, bytes: &[u8], is_spaced: bool) -> Result<bool, AllocError> {
    let Some(text) = text_of(alloc, bytes)? else {
        return Ok(false);
    };
    let has_spaces = text.trim() != text.as_str();
    let slashes = text.as_bytes().iter().filter(|b| **b == b'/').count();
    Ok(if is_spaced {
        has_spaces
    } else {
        !has_spaces && slashes != 1
    })
}

/// Returns the byte string at the front of the bytes, with its chunks joined. It is empty for
/// another item.
fn content_of(alloc: Global, bytes: &[u8]) -> Result<Vec<u8>, AllocError> {
    let Ok((pull, _)) = Pull::new(bytes) else {
        return Ok(Vec::new(alloc));
    };
    match pull.to_bytes(alloc) {
        Ok(Some(content)) => Ok(content),
        Ok(None) => Ok(Vec::new(alloc)),
        Err(_) => Err(AllocError),
    }
}

/// Returns true if the number has no name in the registry of its role, and isn't for private use.
/// `has_private` selects the registries with a private range, otherwise those without one.
fn is_unregistered(role: Role, head: &Head, has_private: bool) -> bool {
    let Some(number) = integer(head) else {
        return false;
    };
    let (asks, is_named) = match role {
        Role::CriticalLabel => (has_private, HeaderParameter::from_i64(number).is_some()),
        Role::Algorithm | Role::ClaimName => (has_private, name_of(role, number).is_some()),
        Role::ContentFormat | Role::KeyType | Role::Operation => {
            (!has_private, name_of(role, number).is_some())
        }
        _ => (false, true),
    };
    asks && !is_named && !is_private(role, number)
}

impl<'e> Hunt<'e> {
    /// Begins the search for the fault that the error names.
    pub(crate) fn of(alloc: Global, error: Option<&'e CoseError>) -> Hunt<'e> {
        let sought = match error {
            Some(CoseError::UnexpectedItem(got, want)) => match *got {
                "non-signature" => Sought::Signature,
                "repeated array entry" => Sought::Operation,
                "IV and partial-IV specified" => Sought::BothIvs,
                "leading/trailing whitespace" => Sought::MediaType(true),
                "arbitrary text" => Sought::MediaType(false),
                got => Sought::Unexpected(got, *want),
            },
            Some(CoseError::DuplicateMapKey) => Sought::Repeated,
            Some(CoseError::OutOfRangeIntegerValue) => Sought::OutOfRange,
            Some(CoseError::UnregisteredIanaValue) => Sought::Unregistered,
            Some(CoseError::UnregisteredIanaNonPrivateValue) => Sought::UnregisteredNonPrivate,
            Some(CoseError::DecodeFailed(Error::RecursionLimitExceeded)) => Sought::Depth,
            _ => Sought::Nothing,
        };
        Hunt {
            sought,
            error,
            labels: BTreeMap::new(alloc),
            earlier: None,
        }
    }

    /// Returns the fault that is searched for, if the item with this head at the front of the bytes
    /// has it.
    ///
    /// # Errors
    /// `AllocError` if an allocation fails.
    pub(crate) fn at(
        &mut self,
        alloc: Global,
        frame: &Frame,
        part: &Part,
        head: &Head,
        bytes: &[u8],
    ) -> Result<Option<Fault>, AllocError> {
        if !part.is_read {
            return Ok(None);
        }
        let role = part.role;
        if role == Role::Protected && head.major_type == MajorType::Bytes && head.is_indefinite() {
            return self.in_chunks(alloc, bytes);
        }
        if role == Role::Protected && frame.layers == 0 && matches!(self.sought, Sought::Depth) {
            return Ok(Some(Fault::Layers));
        }
        let is_faulty = self.is_shape_fault(alloc, frame, role, head, bytes)?;
        Ok(if is_faulty { Some(Fault::Shape) } else { None })
    }

    /// Returns true if the item with this head, at the front of the bytes, has the fault that is
    /// searched for.
    fn is_shape_fault(
        &mut self,
        alloc: Global,
        frame: &Frame,
        role: Role,
        head: &Head,
        bytes: &[u8],
    ) -> Result<bool, AllocError> {
        Ok(match self.sought {
            Sought::Nothing | Sought::Depth => false,
            Sought::Unexpected(got, want) => {
                asks(role, want) && unexpected(frame, role, head, bytes) == Some(got)
            }
            Sought::Signature => frame.role == Role::Signatures && !is_signature(alloc, bytes)?,
            Sought::Operation => {
                role == Role::Operation && self.repeats(alloc, frame, head, bytes)?
            }
            Sought::Repeated => frame.is_at_key() && self.repeats(alloc, frame, head, bytes)?,
            Sought::BothIvs => {
                role == Role::HeaderLabel && self.is_other_iv(alloc, frame, head)?
            }
            Sought::MediaType(is_spaced) => {
                role == Role::ContentFormat && is_no_media_type(alloc, bytes, is_spaced)?
            }
            Sought::OutOfRange => is_out_of_range(role, head),
            Sought::Unregistered => is_unregistered(role, head, false),
            Sought::UnregisteredNonPrivate => is_unregistered(role, head, true),
        })
    }

    /// Returns the fault that is searched for, if it is in this protected header in chunks, which
    /// isn't opened.
    fn in_chunks(&self, alloc: Global, bytes: &[u8]) -> Result<Option<Fault>, AllocError> {
        match self.error {
            Some(error) if has_header_fault(alloc, error, &content_of(alloc, bytes)?)? => {
                Ok(Some(Fault::Shape))
            }
            _ => Ok(None),
        }
    }

    /// Returns true if decoding this content of a protected header gives the error of CBOR that is
    /// searched for.
    pub(crate) fn is_in(
        &self,
        alloc: Global,
        part: &Part,
        content: &[u8],
    ) -> Result<bool, AllocError> {
        match self.error {
            Some(error @ (CoseError::DecodeFailed(_) | CoseError::ExtraneousData))
                if part.is_read && part.role == Role::Protected => {
                has_header_fault(alloc, error, content)
            }
            _ => Ok(false),
        }
    }

    /// Records a label. Returns true if it was recorded before.
    fn keep(&mut self, label: String, index: usize) -> Result<bool, AllocError> {
        match self.labels.insert(label, index)? {
            Some(earlier) => {
                self.earlier = Some(earlier);
                Ok(true)
            }
            None => Ok(false),
        }
    }

    /// Returns true if the label at the front of the bytes came before in this map, or the key
    /// operation in this array.
    fn repeats(
        &mut self,
        alloc: Global,
        frame: &Frame,
        head: &Head,
        bytes: &[u8],
    ) -> Result<bool, AllocError> {
        let map = frame.id;
        let label = match integer(head) {
            Some(number) => format!(in alloc; "{map} {number}")?,
            None => {
                let Some(text) = text_of(alloc, bytes)? else {
                    return Ok(false);
                };
                format!(in alloc; "{map} t{text}")?
            }
        };
        self.keep(label, frame.place())
    }

    /// Returns true if the head is that of IV or Partial IV, and the other came before in this map.
    fn is_other_iv(
        &mut self,
        alloc: Global,
        frame: &Frame,
        head: &Head,
    ) -> Result<bool, AllocError> {
        let number = match integer(head) {
            Some(5) => 5,
            Some(6) => 6,
            _ => return Ok(false),
        };
        let (map, other) = (frame.id, 11 - number);
        let (label, other) = (
            format!(in alloc; "{map} {number}")?,
            format!(in alloc; "{map} {other}")?,
        );
        self.labels.insert(label, frame.place())?;
        self.earlier = self.labels.get(other.as_str()).copied();
        Ok(self.earlier.is_some())
    }
}
