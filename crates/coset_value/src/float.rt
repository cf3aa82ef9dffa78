//! CBOR floats (RFC 8949, section 3.3).

ghost use Rattle.std.specs.Prelude.{◌≡◌, ◌<◌, ◌*◌, ◌^◌, false};
ghost use Rattle.coset_value.specs.Number.{IsDouble, IsHalf, units_of};
ghost use Rattle.coset_value.specs.Item.{half};
ghost use Rattle.coset_value.specs.View.{bits_of};

use std::num::{f32_from_bits_with_nan, f64_from_bits_with_nan};

/// A float, as its width and its bits in IEEE 754 binary format (RFC 8949, section 3.3).
///
/// Floats are compared by width and bits, not as numbers. So a NaN equals itself, and 0 differs
/// from -0. The same number in two widths makes two different floats.
#[derive(Clone, Copy, Debug, PartialEq, Eq)]
pub enum Float {
    /// Half precision, 16 bits.
    Half(u16),
    /// Single precision, 32 bits.
    Single(u32),
    /// Double precision, 64 bits.
    Double(u64),
}

impl Float {
    /// Returns the same number as a double, exactly. An infinity keeps its sign, and a NaN stays a
    /// NaN.
    pub fn to_f64(self) -> f64
        ensures { IsDouble (bits_of self) result }
    {
        match self {
            Float::Half(bits) => half_to_f64(bits),
            Float::Single(bits) => f64::from(f32_from_bits_with_nan(bits)),
            Float::Double(bits) => f64_from_bits_with_nan(bits),
        }
    }
}

/// Converts a half to a double. A half has 1 sign bit, 5 exponent bits and 10 fraction bits (IEEE
/// 754, section 3.4).
fn half_to_f64(bits: u16) -> f64
    ensures { IsDouble (half bits) result }
{
    let size = half_magnitude(bits / 1_024 % 32, bits % 1_024);
    if bits / 1_024 >= 32 { -size } else { size }
}

/// Returns a half's magnitude as a double, from the half's exponent and fraction bits.
fn half_magnitude(exponent: u16, fraction: u16) -> f64
    requires exponents { exponent < 32 }
    requires fractions { fraction < 2 ^ 10 }
    ensures { IsHalf false exponent fraction result }
{
    if exponent + 1 == 32 {
        return if fraction == 0 {
            f64::INFINITY
        } else {
            f64::NAN
        };
    }
    half_units(exponent, fraction) as f64 / 16_777_216.0
}

/// Returns the magnitude of a half in units of the least positive half, which is 2^-24.
fn half_units(exponent: u16, fraction: u16) -> u64
    requires exponents { exponent < 31 }
    requires fractions { fraction < 2 ^ 10 }
    ensures counted { result ≡ units_of (2 ^ 10) exponent fraction }
    ensures few { result < 2 ^ 41 }
{
    if exponent == 0 {
        return u64::from(fraction);
    }
    (1_024 + u64::from(fraction)) << (exponent - 1)
}
