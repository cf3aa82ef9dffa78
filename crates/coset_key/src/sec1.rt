//! Points of elliptic curves as octet strings (SEC 1, sections 2.3.3 and 2.3.4; RFC 8152, section
//! 13.1.1).

ghost use Rattle.std.specs.Prelude.{◌≡◌, ◌∷◌, ◌++◌, option_map, IfOk, IfErr};
ghost use Rattle.coset_value.specs.View.{value_item};
ghost use Rattle.coset_iana.specs.Ec2KeyParameter as ec2;
ghost use Rattle.coset_codec.specs.declared.error.CoseError.TheVariants.{OutOfMemory};
ghost use Rattle.coset_label.specs.LabelData.{number};
ghost use Rattle.coset_key.specs.Keys.{key_view};
ghost use Rattle.coset_key.specs.Sec1.{GivesOctets, ParsesSec1, compressed, key_point, param, parse_sec1_error_text, point, point_key, to_sec1_error_text, uncompressed};
ghost use Rattle.coset_key.specs.declared.sec1.ToSec1OctetStringError.TheVariants as errors;

use crate::key::{CoseKey, CoseKeyBuilder};
use coset_cbor::value::Value;
use coset_iana::{Ec2KeyParameter, EllipticCurve, EnumI64};
use coset_label::{CallError, Label, RegisteredLabel, Result, iana};
use std::alloc::{AllocError, AllocFailed, Global};
use std::error::Error;
use std::fmt;

/// The first octet if y is even.
const COMPRESSED_EVEN: u8 = 0x02;

/// The first octet if y is odd.
const COMPRESSED_ODD: u8 = 0x03;

/// The first octet if x and y follow.
const UNCOMPRESSED: u8 = 0x04;

/// An error in encoding the point of a key as an octet string.
#[derive(Clone, Copy, Debug, PartialEq, Eq)]
pub enum ToSec1OctetStringError {
    /// The key type isn't EC2 (RFC 8152, section 13.1).
    NotEcKey,
    /// The x or the y coordinate is missing.
    MissingCoordinate,
    /// The x coordinate isn't a byte string, or the y coordinate is neither a byte string nor a
    /// bool.
    InvalidCoordinateType,
    /// The coordinates are byte strings of different lengths.
    UnequalCoordinateLength,
    /// An allocation failed.
    OutOfMemory,
}

impl fmt::Display for ToSec1OctetStringError {
    ghost output = { to_sec1_error_text };

    fn fmt<W: fmt::Write>(&self, f: &mut fmt::Formatter<W>) -> fmt::Result {
        match self {
            ToSec1OctetStringError::NotEcKey => write!(f, "not an EC key"),
            ToSec1OctetStringError::MissingCoordinate => write!(f, "missing coordinate"),
            ToSec1OctetStringError::InvalidCoordinateType => write!(f, "invalid coordinate type"),
            ToSec1OctetStringError::UnequalCoordinateLength => {
                write!(f, "unequal coordinate lengths")
            }
            ToSec1OctetStringError::OutOfMemory => write!(f, "out of memory"),
        }
    }
}

impl Error for ToSec1OctetStringError {}

impl From<AllocError> for ToSec1OctetStringError {
    ghost from_gives = { λ _ e. e ≡ errors.OutOfMemory };

    fn from(_e: AllocError) -> ToSec1OctetStringError {
        ToSec1OctetStringError::OutOfMemory
    }
}

impl<T: Drop> From<AllocFailed<T>> for ToSec1OctetStringError {
    ghost from_gives = { λ _ e. e ≡ errors.OutOfMemory };

    fn from(_e: AllocFailed<T>) -> ToSec1OctetStringError {
        ToSec1OctetStringError::OutOfMemory
    }
}

/// The error for a malformed octet string.
///
/// The octet string is empty, begins with an octet other than 02, 03 and 04, or has an odd number
/// of octets after 04. So 00, the point at infinity, is refused (RFC 8152, section 13.1.1).
#[derive(Clone, Copy, Debug, PartialEq, Eq)]
pub struct ParseSec1OctetStringError;

impl fmt::Display for ParseSec1OctetStringError {
    ghost output = { parse_sec1_error_text };

    fn fmt<W: fmt::Write>(&self, f: &mut fmt::Formatter<W>) -> fmt::Result {
        write!(f, "ParseSec1OctetStringError")
    }
}

impl Error for ParseSec1OctetStringError {}

/// Returns the octet `first`, followed by `x` and `y`.
fn join(alloc: Global, first: u8, x: &[u8], y: &[u8]) -> Result<Vec<u8>, ToSec1OctetStringError>
    ensures ok { IfOk result (λ b. b.items ≡ first ∷ x.now ++ y.now) }
    ensures memory { IfErr result (λ e. e ≡ errors.OutOfMemory) }
{
    let mut octets = Vec::with_capacity(alloc, 1 + x.len() + y.len())?;
    octets.push(first)?;
    octets.extend_from_slice(x)?;
    octets.extend_from_slice(y)?;
    Ok(octets)
}

/// Returns the octet string of the point with this `x`, and with `y` or its sign.
fn octet_string(alloc: Global, x: &[u8], y: &Value) -> Result<Vec<u8>, ToSec1OctetStringError>
    ensures { GivesOctets (point x.now (value_item y.now)) result }
{
    match y {
        Value::Bool(false) => join(alloc, COMPRESSED_EVEN, x, &[]),
        Value::Bool(true) => join(alloc, COMPRESSED_ODD, x, &[]),
        Value::Bytes(y) if x.len() == y.len() => join(alloc, UNCOMPRESSED, x, y),
        Value::Bytes(_) => Err(ToSec1OctetStringError::UnequalCoordinateLength),
        _ => Err(ToSec1OctetStringError::InvalidCoordinateType),
    }
}

impl CoseKey {
    /// Returns the value of this param, or `None` if there is none.
    fn param(&self, parameter: Ec2KeyParameter) -> Option<&Value>
        ensures { option_map (λ v. value_item v.now) result
            ≡ param (number (ec2.number parameter)) (key_view self.now) }
    {
        self.get(&Label::Int(parameter.to_i64()))
    }

    /// Encodes the key's point as an octet string (SEC 1, section 2.3.3).
    ///
    /// The octets are 02 and x if the sign of y is false, and 03 and x if it is true. If y itself
    /// is given, they are 04, x and y. For each coordinate the first param counts. The function
    /// checks neither the curve nor the lengths of the coordinates, except that both must have the
    /// same length.
    ///
    /// # Errors
    /// The first of these that applies: `NotEcKey`, `MissingCoordinate`, `InvalidCoordinateType`,
    /// `UnequalCoordinateLength`, `OutOfMemory`.
    pub fn to_sec1_octet_string(&self, alloc: Global) -> Result<Vec<u8>, ToSec1OctetStringError>
        ensures { GivesOctets (key_point (key_view self.now)) result }
    {
        if self.kty != RegisteredLabel::Assigned(iana::KeyType::EC2) {
            return Err(ToSec1OctetStringError::NotEcKey);
        }
        let Some(x) = self.param(Ec2KeyParameter::X) else {
            return Err(ToSec1OctetStringError::MissingCoordinate);
        };
        let Some(y) = self.param(Ec2KeyParameter::Y) else {
            return Err(ToSec1OctetStringError::MissingCoordinate);
        };
        match x.as_bytes() {
            Some(x) => octet_string(alloc, x, y),
            None => Err(ToSec1OctetStringError::InvalidCoordinateType),
        }
    }
}

/// Returns a builder of the key of the point with this `x` and this sign of y.
fn compressed_key(
    alloc: Global,
    curve: EllipticCurve,
    x: &[u8],
    y_sign: bool,
) -> Result<CoseKeyBuilder>
    ensures ok { IfOk result (λ b. key_view b ≡ point_key curve (compressed y_sign x.now)) }
    ensures memory { IfErr result (λ e. e ≡ OutOfMemory) }
{
    let x = Vec::from_slice(alloc, x)?;
    CoseKeyBuilder::new_ec2_pub_key_y_sign(alloc, curve, x, y_sign)
}

/// Returns a builder of the key of the point with these coordinates.
fn uncompressed_key(
    alloc: Global,
    curve: EllipticCurve,
    x: &[u8],
    y: &[u8],
) -> Result<CoseKeyBuilder>
    ensures ok { IfOk result (λ b. key_view b ≡ point_key curve (uncompressed x.now y.now)) }
    ensures memory { IfErr result (λ e. e ≡ OutOfMemory) }
{
    let x = Vec::from_slice(alloc, x)?;
    let y = Vec::from_slice(alloc, y)?;
    CoseKeyBuilder::new_ec2_pub_key(alloc, curve, x, y)
}

impl CoseKeyBuilder {
    /// Returns a builder of the public key of the point that `sec1` encodes (SEC 1, section 2.3.4),
    /// on `curve`.
    ///
    /// The function does not check that the point lies on the curve, or that the coordinates have
    /// its length.
    ///
    /// # Errors
    /// - `Caller` with `ParseSec1OctetStringError`, exactly if `sec1` is malformed.
    /// - `Coset` with `OutOfMemory` if an allocation fails.
    pub fn new_ec2_pub_key_sec1_octet_string(
        alloc: Global,
        curve: EllipticCurve,
        sec1: &[u8],
    ) -> Result<CoseKeyBuilder, CallError<ParseSec1OctetStringError>>
        ensures { ParsesSec1 curve sec1.now result }
    {
        let Some((first, rest)) = sec1.split_first() else {
            return Err(CallError::Caller(ParseSec1OctetStringError));
        };
        match *first {
            COMPRESSED_EVEN => Ok(compressed_key(alloc, curve, rest, false)?),
            COMPRESSED_ODD => Ok(compressed_key(alloc, curve, rest, true)?),
            UNCOMPRESSED if rest.len() % 2 == 0 => {
                let (x, y) = rest.split_at(rest.len() / 2);
                Ok(uncompressed_key(alloc, curve, x, y)?)
            }
            _ => Err(CallError::Caller(ParseSec1OctetStringError)),
        }
    }
}
