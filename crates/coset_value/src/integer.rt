//! CBOR integers (RFC 8949, section 3.1).

ghost use Rattle.std.specs.Prelude.{◌≡◌, ◌<◌, ◌^◌, ◌<ℤ◌, pos, FitsSigned, MatchResult};
ghost use Rattle.std.specs.Int.{w64};
ghost use Rattle.std.specs.Result.{OkIff};
ghost use Rattle.coset_value.specs.Range.{IsIntegerInRange};

use std::marker::Model;
use std::num::TryFromIntError;

/// An integer from -2^64 to 2^64 - 1 (RFC 8949, section 3.1, major types 0 and 1).
///
/// Integers are ordered as numbers. `From` converts Rust's fixed-width integer types of up to 64
/// bits to an `Integer`, and an `Integer` to an `i128`. `TryFrom` converts the 128-bit types to an
/// `Integer`, and an `Integer` to an `i64` or a `u64`. Each conversion keeps the number.
#[derive(Clone, Copy, Debug, PartialEq, Eq, PartialOrd, Ord)]
pub struct Integer {
    value: i128,
}

impl Model for Integer {
    ghost use Rattle.std.specs.Prelude.{ℤ};
    ghost use Rattle.coset_value.specs.Range.{IsIntegerInRange};

    ghost Value = { ℤ };

    ghost view = { λ n. n.value };

    ghost invariant = { λ n. IsIntegerInRange n.value };

    ghost inverse = { λ z. record { value = z } };
}

impl From<u8> for Integer {
    ghost from_gives = { λ n i. i ≡ pos n };

    fn from(n: u8) -> Integer {
        Integer {
            value: i128::from(n),
        }
    }
}

impl From<u16> for Integer {
    ghost from_gives = { λ n i. i ≡ pos n };

    fn from(n: u16) -> Integer {
        Integer {
            value: i128::from(n),
        }
    }
}

impl From<u32> for Integer {
    ghost from_gives = { λ n i. i ≡ pos n };

    fn from(n: u32) -> Integer {
        Integer {
            value: i128::from(n),
        }
    }
}

impl From<u64> for Integer {
    ghost from_gives = { λ n i. i ≡ pos n };

    fn from(n: u64) -> Integer {
        Integer {
            value: i128::from(n),
        }
    }
}

impl From<i8> for Integer {
    ghost from_gives = { λ n i. i ≡ n };

    fn from(n: i8) -> Integer {
        Integer {
            value: i128::from(n),
        }
    }
}

impl From<i16> for Integer {
    ghost from_gives = { λ n i. i ≡ n };

    fn from(n: i16) -> Integer {
        Integer {
            value: i128::from(n),
        }
    }
}

impl From<i32> for Integer {
    ghost from_gives = { λ n i. i ≡ n };

    fn from(n: i32) -> Integer {
        Integer {
            value: i128::from(n),
        }
    }
}

impl From<i64> for Integer {
    ghost from_gives = { λ n i. i ≡ n };

    fn from(n: i64) -> Integer {
        Integer {
            value: i128::from(n),
        }
    }
}

/// Keeps the number. Fails if it is below -2^64 or above 2^64 - 1.
impl TryFrom<i128> for Integer {
    type Error = TryFromIntError;

    ghost try_from_gives = { λ n result. OkIff result (IsIntegerInRange n) n };

    fn try_from(n: i128) -> Result<Integer, TryFromIntError> {
        // The argument of the head: n in major type 0, -1 - n in major type 1.
        let argument = if n < 0 { -1 - n } else { n };
        u64::try_from(argument)?;
        Ok(Integer { value: n })
    }
}

/// Keeps the number. Fails if it is above 2^64 - 1.
impl TryFrom<u128> for Integer {
    type Error = TryFromIntError;

    ghost try_from_gives = { λ n result. OkIff result (n < 2 ^ 64) (pos n) };

    fn try_from(n: u128) -> Result<Integer, TryFromIntError> {
        Ok(Integer::from(u64::try_from(n)?))
    }
}

/// Keeps the number. Fails if it is below -2^63 or above 2^63 - 1.
impl TryFrom<Integer> for i64 {
    type Error = TryFromIntError;

    ghost try_from_gives = { λ n result. OkIff result (FitsSigned w64 n) n };

    fn try_from(n: Integer) -> Result<i64, TryFromIntError> {
        i64::try_from(n.value)
    }
}

/// Keeps the number. Fails if it is negative.
impl TryFrom<Integer> for u64 {
    type Error = TryFromIntError;

    ghost try_from_gives = { λ n result. MatchResult result (λ m. n ≡ pos m) (λ _. n <ℤ pos 0) };

    fn try_from(n: Integer) -> Result<u64, TryFromIntError> {
        u64::try_from(n.value)
    }
}

/// Keeps the number. The contract also states that it is in the range of an `Integer`.
impl From<Integer> for i128 {
    ghost from_gives = { λ n result. (result ≡ n) × IsIntegerInRange result };

    fn from(n: Integer) -> i128 {
        n.value
    }
}
