//! Headers, plain or not, with their algorithm, `crit` and key identifier.

ghost use Rattle.std.specs.Ordering.{int_eq};
ghost use Rattle.std.specs.Prelude.{◌≡◌, List, ℕ, IfSome, IsTrue, MatchOption, None, Some, true};
ghost use Rattle.coset.specs.Pulls.{pull_item};
ghost use Rattle.coset_seen.specs.Begins.{Begins};
ghost use Rattle.coset_seen.specs.Labels.{BeginsHeader, BeginsPairs, GoesOn, IsFlat, IsHeader, IsNoNumber, IsNumber, Takes, TakesAlgorithm, TakesKeyId, TakesNone, TakesNumber, names_algorithm};
ghost use Rattle.coset_seen.specs.Named.{DescribesHeader, is_same};

use crate::forward::{Ahead, break_at, bytes_at, opened};
use crate::header::{Named, named_at};
use coset::cbor::de::Pull;
use coset::cbor::head::MajorType;
use coset::cbor::value::Integer;
use coset::laws::one_item;
use coset_codec::traits::whole_item;

/// The parameters of a header that a caller must know to check a message. The header may be
/// invalid.
#[derive(Clone, Copy)]
pub(crate) struct Header<'a> {
    pub(crate) named: Named<'a>,
    /// Whether the algorithm isn't an integer in the range of `i64`. A valid one is then a text.
    pub(crate) has_text: bool,
    pub(crate) is_critical: bool,
    pub(crate) is_plain: bool,
}

/// Returns true if the key is the integer `label`.
fn is_number(key: &Option<Integer>, label: i64) -> bool
    ensures { result ≡ is_same int_eq key.now label }
{
    match key {
        Some(number) => i128::from(*number) == i128::from(label),
        None => false,
    }
}

/// Returns the integer that the item is, if it fits in an `i64`.
fn number_of(item: Pull<'_>) -> Option<i64>
    ensures { MatchOption result (IsNoNumber (pull_item item.entry)) (λ n.
        IsNumber (pull_item item.entry) n) }
{
    match item.integer() {
        Some(number) => i64::try_from(number).ok(),
        None => None,
    }
}

impl<'a> Header<'a> {
    /// Returns the result for an empty header, which is plain or isn't said to be.
    pub(crate) fn nothing(is_plain: bool) -> Header<'a>
        ensures { TakesNone is_plain result }
    {
        Header {
            named: Named::nothing(),
            has_text: false,
            is_critical: false,
            is_plain,
        }
    }

    /// Returns true if the header is plain and each value in it is known to be an integer or a
    /// string.
    pub(crate) fn is_flat(&self) -> bool
        ensures { result ≡ true → IsFlat self.now }
    {
        self.is_plain && self.named.is_flat
    }

    /// Returns true if there is a value under `alg`.
    fn has_algorithm(self) -> bool
        ensures { result ≡ names_algorithm self.entry.named.algorithm self.entry.has_text }
    {
        match self.named.algorithm {
            Some(_) => true,
            None => self.has_text,
        }
    }

    /// Returns the same with this algorithm. It isn't a number if it is `None`.
    fn with_number(self, number: Option<i64>) -> Header<'a>
        ensures { TakesNumber self.entry number result }
    {
        Header {
            named: Named {
                algorithm: number,
                ..self.named
            },
            has_text: match number {
                Some(_) => false,
                None => true,
            },
            is_critical: self.is_critical,
            is_plain: self.is_plain,
        }
    }

    /// Returns the same with this value under `alg`, if there was none.
    fn with_algorithm(self, value: Pull<'_>) -> Header<'a>
        ensures { TakesAlgorithm self.entry (pull_item value.entry) result }
    {
        if self.has_algorithm() {
            return self;
        }
        self.with_number(number_of(value))
    }

    /// Returns the same with this value under `kid`, if there was none.
    fn with_key_id(self, value: Ahead<'a>) -> Header<'a>
        ensures { TakesKeyId self.entry value.entry result }
    {
        match self.named.key_id {
            Some(_) => self,
            None => Header {
                named: Named {
                    key_id: Some(value),
                    ..self.named
                },
                has_text: self.has_text,
                is_critical: self.is_critical,
                is_plain: self.is_plain,
            },
        }
    }

    /// Returns the same with one more pair. `at` begins with its value. Returns `None` if the label
    /// is `kid` and the value isn't a byte string of definite length.
    fn with_pair(self, key: Pull<'_>, value: Pull<'_>, at: &'a [u8]) -> Option<Header<'a>>
        ensures { (s : List ℕ) → Begins (pull_item value.entry) s at.now → IfSome result
            (Takes at.now (pull_item key.entry) (pull_item value.entry) self.entry) }
    {
        one_item();
        let label = key.integer();
        if is_number(&label, 1) {
            return Some(self.with_algorithm(value));
        }
        if is_number(&label, 2) {
            return Some(Header {
                named: self.named,
                has_text: self.has_text,
                is_critical: true,
                is_plain: self.is_plain,
            });
        }
        if is_number(&label, 4) {
            let key_id = bytes_at(at)?;
            return Some(self.with_key_id(key_id));
        }
        Some(self)
    }
}

/// Returns `found` with the pair at the front, and the bytes after the pair.
fn pair_at<'a>(found: Header<'a>, input: &'a [u8]) -> Option<(Header<'a>, &'a [u8])>
    ensures { IfSome result (λ x. GoesOn input.now found.entry x.0 x.1.now) }
{
    let Ok((key, at)) = Pull::new(input) else {
        return None;
    };
    let Ok((value, behind)) = Pull::new(at) else {
        return None;
    };
    let found = found.with_pair(key, value, at)?;
    Some((found, behind))
}

/// Returns the parameters among that many pairs, and the bytes after them.
fn counted_at(bytes: &[u8], count: u64) -> Option<(Header<'_>, &[u8])>
    ensures { IfSome result (λ x. BeginsPairs (Some count) bytes.now x.0 x.1.now) }
{
    let mut found = Header::nothing(false);
    let mut rest = bytes;
    for _ in 0..count {
        let (more, behind) = pair_at(found, rest)?;
        found = more;
        rest = behind;
    }
    Some((found, rest))
}

/// Returns the parameters among the pairs up to the break, and the bytes after the break.
fn unbounded_at(bytes: &[u8]) -> Option<(Header<'_>, &[u8])>
    ensures { IfSome result (λ x. BeginsPairs None bytes.now x.0 x.1.now) }
{
    let mut found = Header::nothing(false);
    let mut rest = bytes;
    for _ in 0..u64::MAX {
        if let Some(behind) = break_at(rest) {
            return Some((found, behind));
        }
        let (more, behind) = pair_at(found, rest)?;
        found = more;
        rest = behind;
    }
    None
}

/// Returns the parameters among that many pairs, and the bytes after them. Plain pairs are tried
/// first.
#[inline(always)]
fn pairs_at(bytes: &[u8], count: u64) -> Option<(Header<'_>, &[u8])>
    ensures { IfSome result (λ x. BeginsPairs (Some count) bytes.now x.0 x.1.now) }
{
    match named_at(bytes, count) {
        Some((named, rest)) => {
            let header = Header {
                named,
                has_text: false,
                is_critical: false,
                is_plain: true,
            };
            Some((header, rest))
        }
        None => counted_at(bytes, count),
    }
}

/// Returns the parameters of the header at the front, and the bytes after it. Returns `None` if no
/// map is there, or if a key identifier isn't a byte string of definite length. Other faults of the
/// header aren't found.
pub(crate) fn header_at(input: &[u8]) -> Option<(Header<'_>, &[u8])>
    ensures { IfSome result (λ x. BeginsHeader input.now x.0 x.1.now) }
{
    let (count, rest) = opened(input, MajorType::Map)?;
    match count {
        Some(count) => pairs_at(rest, count),
        None => unbounded_at(rest),
    }
}

/// Returns the parameters of the header that the input encodes.
///
/// `None` and faults of the header are as for [`header_at`].
pub(crate) fn whole_header(input: &[u8]) -> Option<Header<'_>>
    ensures { IfSome result (IsHeader input.now) }
{
    let (header, rest) = header_at(input)?;
    if header.is_flat() {
        // Nothing nests too deep, so the item that was read is valid.
        if !rest.is_empty() {
            return None;
        }
        return Some(header);
    }
    let Ok(_) = whole_item(input) else {
        return None;
    };
    one_item();
    Some(header)
}

/// Returns true if the input is one plain header ([`see`](crate::see) says what that is). Allocates
/// nothing.
///
/// False doesn't mean that the header is invalid: the facade may decode it all the same.
pub fn is_plain_header(input: &[u8]) -> bool
    ensures { IsTrue result → DescribesHeader input.now }
{
    match whole_header(input) {
        Some(header) => header.is_plain,
        None => false,
    }
}
