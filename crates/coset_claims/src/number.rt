//! Binary floats as numbers, and their exact comparison with integers.

ghost use Rattle.std.specs.Prelude.{◌≡◌, ◌<◌, ◌*◌, ◌^◌, option_map};
ghost use Rattle.std.specs.Ordering.{nat_cmp};
ghost use Rattle.coset_value.specs.View.{bits_of};
ghost use Rattle.coset_value.specs.Number.{number, number_in, units_of};
ghost use Rattle.coset_claims.specs.Seconds.{number_cmp};
ghost use Rattle.coset_claims.specs.NumberView.{number_view, format_view, IsFormat};

use coset_cbor::value::Float;
use std::cmp::Ordering;

/// A format of binary floats (IEEE 754, section 3.4).
#[derive(Clone, Copy)]
struct Format {
    /// The number of values of the fraction field.
    fractions: u64,
    /// The number of values of the exponent field.
    exponents: u64,
    /// The least positive number is 2 to the power of minus `scale`.
    scale: u32,
}

const HALF: Format = Format {
    fractions: 1 << 10,
    exponents: 1 << 5,
    scale: 24,
};

const SINGLE: Format = Format {
    fractions: 1 << 23,
    exponents: 1 << 8,
    scale: 149,
};

const DOUBLE: Format = Format {
    fractions: 1 << 52,
    exponents: 1 << 11,
    scale: 1074,
};

/// A finite number: `significand` times 2 to the power of `exponent`, in units. A unit is 2 to the
/// power of minus `scale`.
#[derive(Clone, Copy)]
pub(crate) struct Number {
    is_negative: bool,
    significand: u64,
    exponent: u32,
    scale: u32,
}

/// Returns the number with these bits, or `None` for an infinity or NaN.
fn number_in(bits: u64, format: Format) -> Option<Number>
    requires { IsFormat format }
    ensures { option_map number_view result ≡ number_in (format_view format) bits }
{
    let upper = bits / format.fractions;
    let exponent = upper % format.exponents;
    let fraction = bits % format.fractions;
    if exponent + 1 == format.exponents {
        return None;
    }
    let is_negative = upper >= format.exponents;
    let (significand, exponent) = scaled(format.fractions, exponent, fraction);
    Some(Number {
        is_negative,
        significand,
        exponent,
        scale: format.scale,
    })
}

/// Returns the significand for this exponent and fraction, and the exponent of the power of 2 that
/// scales it to units.
fn scaled(fractions: u64, exponent: u64, fraction: u64) -> (u64, u32)
    requires few_fractions { fractions < 2 ^ 53 }
    requires fraction { fraction < fractions }
    requires few_exponents { exponent < 2 ^ 12 }
    ensures { result.0 * 2 ^ result.1 ≡ units_of fractions exponent fraction }
{
    if exponent == 0 {
        (fraction, 0)
    } else {
        (fractions + fraction, (exponent - 1) as u32)
    }
}

/// Returns the number of a float, or `None` for an infinity or NaN.
pub(crate) fn number_of(float: Float) -> Option<Number>
    ensures { option_map number_view result ≡ number (bits_of float) }
{
    match float {
        Float::Half(bits) => number_in(u64::from(bits), HALF),
        Float::Single(bits) => number_in(u64::from(bits), SINGLE),
        Float::Double(bits) => number_in(bits, DOUBLE),
    }
}

/// Compares `a`, times 2 to the power of `up`, with `b`.
fn compare_scaled(a: u128, up: u32, b: u128) -> Ordering
    ensures { result ≡ nat_cmp (a * 2 ^ up) b }
{
    if up >= 128 {
        return if a == 0 { 0.cmp(&b) } else { Ordering::Greater };
    }
    let quotient = b >> up;
    let order = a.cmp(&quotient);
    if quotient << up == b {
        order
    } else {
        order.then(Ordering::Less)
    }
}

/// Compares the absolute value of the number with `k`.
fn compare_units(number: &Number, k: u128) -> Ordering
    ensures { result ≡ nat_cmp (number_view number.now).units (k * 2 ^ number.now.scale) }
{
    let significand = u128::from(number.significand);
    if number.exponent >= number.scale {
        compare_scaled(significand, number.exponent - number.scale, k)
    } else {
        compare_scaled(k, number.scale - number.exponent, significand).reverse()
    }
}

/// Compares the number with `k`.
pub(crate) fn compare(number: &Number, k: i128) -> Ordering
    ensures { result ≡ number_cmp (number_view number.now) k }
{
    let order = compare_units(number, k.unsigned_abs());
    if number.is_negative {
        if k > 0 {
            Ordering::Less
        } else {
            order.reverse()
        }
    } else if k < 0 {
        Ordering::Greater
    } else {
        order
    }
}
