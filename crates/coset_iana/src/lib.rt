//! IANA's registries for COSE and CBOR web tokens, as enums.
//!
//! The variants of each enum have the numbers that IANA assigns. Only the numbers of
//! [`KeyOperation`] come from RFC 8152 instead. `to_i64` returns a value's number, and `from_i64`
//! returns the value of a number, if there is one. The two functions are inverse to each other.
//! [`EnumI64`] states this as a law, so generic code can rely on it for these seventeen registries
//! and for a caller's own. Values are ordered by their numbers. `name` returns a value's name in
//! its registry ([`Named`]), and `Display` writes it.
#![tactic(auto)]

ghost use Rattle.std.specs.Prelude.{◌≡◌, ℕ, ℤ, Bool, List, Option, Some};

mod algorithms;
mod claims;
mod content_formats;
mod headers;
mod key_parameters;
mod keys;
pub mod laws;
mod registry;
mod tags;

pub use algorithms::{ALGORITHM_PRIVATE_USE_MAX, Algorithm};
pub use claims::{CWT_CLAIM_PRIVATE_USE_MAX, CwtClaimName};
pub use content_formats::CoapContentFormat;
pub use headers::{HEADER_PARAMETER_PRIVATE_USE_MAX, HeaderAlgorithmParameter, HeaderParameter};
pub use key_parameters::{
    AkpKeyParameter, Ec2KeyParameter, HssLmsKeyParameter, OkpKeyParameter, RsaKeyParameter,
    SymmetricKeyParameter, WalnutDsaKeyParameter,
};
pub use keys::{
    ELLIPTIC_CURVE_PRIVATE_USE_MAX, EllipticCurve, KeyOperation, KeyParameter, KeyType,
};
pub use tags::CborTag;

/// An enum that gives each of its values an `i64` number of its own.
///
/// Contracts see `number`, the number of a value, and `value_of`, the value of a number, if there
/// is one. An implementer defines both and proves two laws. Together the laws say that
/// `from_i64(i)` is `Some(e)` exactly if `e.to_i64()` is `i`.
pub trait EnumI64: Sized + Eq {
    ghost number: { Self → ℤ };

    ghost value_of: { ℤ → Option Self };

    /// Returns the value whose number is `i`, or `None` if there is none.
    fn from_i64(i: i64) -> Option<Self>
        ensures { result ≡ value_of i };

    /// Returns the number of this value.
    fn to_i64(&self) -> i64
        ensures { result ≡ number self.now };

    ghost value_of_number: { (x : Self) → value_of (number x) ≡ Some x };

    ghost number_of_value: { (i : ℤ) (x : Self) → value_of i ≡ Some x → number x ≡ i };
}

/// An enum whose values have names in a registry.
///
/// Contracts see the bytes of a value's name as `name`.
pub trait Named {
    ghost name: { Self → List ℕ };

    /// Returns the name of this value, as its registry spells it.
    fn name(&self) -> &'static str
        ensures { result.now ≡ name self.now };
}

/// An enum whose registry leaves a range of numbers to private use.
///
/// Contracts see the range as the test `is_private`.
pub trait WithPrivateRange {
    ghost is_private: { ℤ → Bool };

    /// Returns true if the number `i` is left to private use.
    fn is_private(i: i64) -> bool
        ensures { result ≡ is_private i };
}
