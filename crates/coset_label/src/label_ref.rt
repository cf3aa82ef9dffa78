//! Borrowed labels of any kind, and their orders.
//!
//! Labels are ordered as their encodings: by head and then by content (RFC 8949, sections 3 and
//! 4.2.1), or by length first (RFC 7049, section 3.9). Comparing labels encodes nothing and
//! allocates nothing.

ghost use Rattle.std.specs.Prelude.{◌≡◌};
ghost use Rattle.coset_label.specs.LabelData.{number, label_cmp, canonical_cmp, major_type, argument, content, head_length, encoded_length};
ghost use Rattle.coset_label.specs.LabelRefs.{label_ref_view};

use std::cmp::Ordering;

/// A borrowed label of any kind: its number or its text.
#[derive(Clone, Copy)]
pub(crate) enum LabelRef<'a> {
    Int(i64),
    Text(&'a str),
}

/// Returns the length in bytes of the shortest head with this argument.
fn head_length(argument: u64) -> u64
    ensures { result ≡ head_length argument }
{
    match argument {
        0..=23 => 1,
        24..=0xff => 2,
        0x100..=0xffff => 3,
        0x1_0000..=0xffff_ffff => 5,
        _ => 9,
    }
}

/// Compares the encodings of two integers byte by byte. The integers from 0 up come first, followed
/// by those from -1 down.
fn number_order(a: i64, b: i64) -> Ordering
    ensures { result ≡ label_cmp (number a) (number b) }
{
    match (a >= 0, b >= 0) {
        (true, true) => a.cmp(&b),
        (true, false) => Ordering::Less,
        (false, true) => Ordering::Greater,
        (false, false) => b.cmp(&a),
    }
}

impl<'a> LabelRef<'a> {
    /// Returns the major type of the label's head.
    fn major_type(&self) -> u8
        ensures { result ≡ major_type (label_ref_view self.now) }
    {
        match self {
            LabelRef::Int(i) if *i >= 0 => 0,
            LabelRef::Int(_) => 1,
            LabelRef::Text(_) => 3,
        }
    }

    /// Returns the argument of the label's head.
    fn argument(&self) -> u64
        ensures { result ≡ argument (label_ref_view self.now) }
    {
        match self {
            LabelRef::Int(i) if *i >= 0 => *i as u64,
            LabelRef::Int(i) => (-1 - *i) as u64,
            LabelRef::Text(text) => text.len() as u64,
        }
    }

    /// Returns the bytes after the head.
    fn content(&self) -> &[u8]
        ensures { result.now ≡ content (label_ref_view self.now) }
    {
        match self {
            LabelRef::Int(_) => &[],
            LabelRef::Text(text) => text.as_bytes(),
        }
    }

    /// Returns the length in bytes of the label's encoding.
    fn encoded_length(&self) -> u128
        ensures { result ≡ encoded_length (label_ref_view self.now) }
    {
        head_length(self.argument()) as u128 + self.content().len() as u128
    }

    /// Compares the labels' encodings byte by byte.
    #[inline(always)]
    pub(crate) fn order(&self, other: &LabelRef<'_>) -> Ordering
        ensures { result ≡ label_cmp (label_ref_view self.now) (label_ref_view other.now) }
    {
        if let (LabelRef::Int(a), LabelRef::Int(b)) = (self, other) {
            return number_order(*a, *b);
        }
        let major_types = self.major_type().cmp(&other.major_type());
        match major_types.then(self.argument().cmp(&other.argument())) {
            Ordering::Equal => self.content().cmp(other.content()),
            unequal => unequal,
        }
    }

    /// Compares the labels' encodings by length first, then byte by byte.
    pub(crate) fn canonical_order(&self, other: &LabelRef<'_>) -> Ordering
        ensures { result ≡ canonical_cmp (label_ref_view self.now) (label_ref_view other.now) }
    {
        match self.encoded_length().cmp(&other.encoded_length()) {
            Ordering::Equal => self.order(other),
            unequal => unequal,
        }
    }
}
