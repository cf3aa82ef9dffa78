//! Timestamps of claims (RFC 8392, section 2, "NumericDate").

ghost use Rattle.std.specs.Prelude.{◌≡◌, ◌↔◌, IsTrue, IfOk, IfErr};
ghost use Rattle.std.specs.Ordering.{on};
ghost use Rattle.std.specs.Cmp.{on_equiv, on_per, partial_equiv_from_equiv};
ghost use Rattle.coset_codec.specs.declared.error.CoseError.TheVariants.{OutOfMemory};
ghost use Rattle.coset_claims.specs.Seconds.{is_after, seconds_cmp};
ghost use Rattle.coset_claims.specs.Timestamp.{timestamp, timestamp_eq, timestamp_eq_equiv, timestamp_view};

use crate::date::{write_fraction, write_seconds};
use crate::number::{self, number_of};
use coset_cbor::value::{Float, Value};
use coset_codec::read::Decoder;
use coset_codec::write::Encode;
use coset_codec::{Codec, Result};
use std::alloc::{AllocError, Global};
use std::cmp::Ordering;
use std::fmt;

/// A moment, in seconds since 1970 began in UTC, without leap seconds (RFC 8392, section 2; RFC
/// 8949, section 3.4.2).
///
/// ```cddl
/// timestamp = int / float     ; the seconds of a tag 1, without the tag
/// ```
///
/// Reading refuses an integer outside the range of `i64`, with `OutOfRangeIntegerValue`.
#[derive(Debug, Drop)]
pub enum Timestamp {
    /// Whole seconds, which are negative before 1970.
    WholeSeconds(i64),
    /// Seconds as a float, which keeps its width and its bits.
    FractionalSeconds(Float),
}

impl Codec for Timestamp {
    ghost use Rattle.coset_claims.specs.Timestamp.{TimestampView, timestamp_eq-decides, timestamp_laws};

    ghost View = { TimestampView };

    ghost view = { timestamp_view };

    ghost shape = { timestamp };

    ghost allocates = { λ s. ⊥ };

    ghost laws = { timestamp_laws };

    ghost equal = { λ a b. timestamp_eq-decides (timestamp_view a) (timestamp_view b) };

    /// Reads a timestamp. Allocates nothing.
    #[tactic(auto, unfolding(crate::specs::Timestamp::timestamp))]
    fn read(_alloc: Global, input: &mut Decoder<'_>) -> Result<Timestamp> {
        if let Some(number) = input.integer() {
            return Ok(Timestamp::WholeSeconds(i64::try_from(number)?));
        }
        match input.float() {
            Some(float) => Ok(Timestamp::FractionalSeconds(float)),
            None => Err(input.type_error("int/float")),
        }
    }

    #[tactic(auto, unfolding(crate::specs::Timestamp::timestamp))]
    fn write(&self, alloc: Global, out: &mut Vec<u8>) -> Result<()> {
        match self {
            Timestamp::WholeSeconds(seconds) => seconds.encode(alloc, out),
            Timestamp::FractionalSeconds(seconds) => Value::Float(*seconds).encode(alloc, out),
        }
    }
}

/// Writes the moment in UTC in the form of RFC 3339 (section 5.6): `2013-03-21T20:04:00Z`.
///
/// A float is written with microseconds: `2015-10-04T07:49:04.500000Z`. A moment outside the years
/// 1 to 9999 is written as the number of seconds: `-62135596801 seconds since 1970`. So is a float
/// that is no moment. The contract specifies only the texts of whole seconds.
impl fmt::Display for Timestamp {
    ghost use Rattle.coset_claims.specs.Dates.{timestamp_output};

    ghost output = { timestamp_output };

    fn fmt<W: fmt::Write>(&self, f: &mut fmt::Formatter<W>) -> fmt::Result {
        match self {
            Timestamp::WholeSeconds(seconds) => write_seconds(*seconds, f),
            Timestamp::FractionalSeconds(seconds) => write_fraction(seconds.to_f64(), f),
        }
    }
}

/// The same as [`Timestamp::clone`], for generic code.
impl Clone for Timestamp {
    ghost is_clone = { λ timestamp copy. timestamp_view copy ≡ timestamp_view timestamp };

    fn clone(&self) -> Result<Timestamp, AllocError> {
        match self {
            Timestamp::WholeSeconds(seconds) => Ok(Timestamp::WholeSeconds(*seconds)),
            Timestamp::FractionalSeconds(seconds) => Ok(Timestamp::FractionalSeconds(*seconds)),
        }
    }
}

impl Timestamp {
    /// Returns a copy of the timestamp.
    ///
    /// # Errors
    /// `OutOfMemory` if an allocation fails.
    pub fn clone(&self) -> Result<Timestamp>
        ensures copy { IfOk result (λ t. timestamp_view t ≡ timestamp_view self.now) }
        ensures memory { IfErr result (λ e. e ≡ OutOfMemory) }
    {
        Ok(Clone::clone(self)?)
    }

    /// Compares the moment with `seconds`, whole seconds since 1970 began in UTC.
    ///
    /// The comparison is exact for floats of any width. Returns `None` for an infinity or NaN,
    /// since these are no moments. Allocates nothing.
    pub fn compare(&self, seconds: i128) -> Option<Ordering>
        ensures { result ≡ seconds_cmp (timestamp_view self.now) seconds }
    {
        match self {
            Timestamp::WholeSeconds(named) => Some(i128::from(*named).cmp(&seconds)),
            Timestamp::FractionalSeconds(float) => match number_of(*float) {
                Some(number) => Some(number::compare(&number, seconds)),
                None => None,
            },
        }
    }

    /// Returns true if the moment is later than `seconds`, by [`compare`](Timestamp::compare).
    ///
    /// If it is, claims that expire at this moment have not expired at `seconds`. Returns false for
    /// an infinity or NaN. Allocates nothing.
    pub fn is_after(&self, seconds: i64) -> bool
        ensures { result ≡ is_after (timestamp_view self.now) seconds }
    {
        self.compare(i128::from(seconds)) == Some(Ordering::Greater)
    }
}

/// Whole seconds are equal if the numbers are, and floats if their widths and bits are. Whole
/// seconds never equal a float.
impl PartialEq for Timestamp {
    ghost eq = { on timestamp_view timestamp_eq };

    ghost laws = { on_per timestamp_view (partial_equiv_from_equiv timestamp_eq_equiv) };

    fn eq(&self, other: &Timestamp) -> bool
        ensures answers { result ≡ timestamp_eq (timestamp_view self.now)
            (timestamp_view other.now) }
        ensures equal { IsTrue result ↔ (timestamp_view self.now ≡ timestamp_view other.now) }
    {
        same(self, other)
    }
}

impl Eq for Timestamp {
    ghost laws = { on_equiv timestamp_view timestamp_eq_equiv };
}

fn same(a: &Timestamp, b: &Timestamp) -> bool
    ensures { result ≡ timestamp_eq (timestamp_view a.now) (timestamp_view b.now) }
{
    match (a, b) {
        (Timestamp::WholeSeconds(m), Timestamp::WholeSeconds(n)) => *m == *n,
        (Timestamp::FractionalSeconds(x), Timestamp::FractionalSeconds(y)) => *x == *y,
        _ => false,
    }
}
