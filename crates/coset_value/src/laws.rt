//! Laws of integers and floats. Each law is the contract of an empty function.

ghost use Rattle.std.specs.Prelude.{◌≡◌, ◌↔◌, IsTrue};
ghost use Rattle.std.specs.Ordering.{int_cmp};
ghost use Rattle.coset_value.specs.View.{bits_of};

use crate::float::Float;
use crate::integer::Integer;

/// Integers compare as their numbers do.
pub fn integers_compare_as_numbers(a: Integer, b: Integer)
    ensures { ⟦<Integer as Ord>⟧.cmp a b ≡ int_cmp a b }
{}

/// Two floats are equal exactly when their widths and bits are equal.
pub fn floats_compare_by_bits(a: Float, b: Float)
    ensures { IsTrue (⟦<Float as PartialEq>⟧.eq a b) ↔ (bits_of a ≡ bits_of b) }
{}
