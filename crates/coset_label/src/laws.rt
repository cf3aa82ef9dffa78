//! Laws of the orders of labels. Each law is the contract of a function that does nothing.

ghost use Rattle.std.specs.Cmp.{IsTotalOrder};
ghost use Rattle.std.specs.Cmp.Lexicographic.{slice_cmp};
ghost use Rattle.std.specs.Ordering.{nat_cmp};
ghost use Rattle.coset_label.specs.LabelData.{ComparesEncodings, LabelView, TellsApart, canonical_cmp, length_first_cmp, label_cmp, registered_cmp};
ghost use Rattle.coset_label.specs.Sorted.{HasOneOrder};

use coset_cbor::laws;

/// Labels compare as their shortest encodings do: byte by byte (RFC 8949, section 4.2.1), or by
/// length first (RFC 7049, section 3.9).
pub fn orders_are_of_encodings()
    ensures bytes { (a b : LabelView) → ComparesEncodings (slice_cmp nat_cmp) a b (label_cmp a b) }
    ensures lengths { (a b : LabelView)
        → ComparesEncodings length_first_cmp a b (canonical_cmp a b) }
{
    laws::least_heads_are_shortest();
}

/// The orders of labels are total and transitive.
pub fn orders_are_total()
    ensures bytes { IsTotalOrder label_cmp }
    ensures lengths { IsTotalOrder canonical_cmp }
    ensures registered { IsTotalOrder registered_cmp }
{}

/// Each order returns `Equal` exactly when the two labels are equal.
pub fn orders_match_equality()
    ensures bytes { TellsApart label_cmp }
    ensures lengths { TellsApart canonical_cmp }
    ensures registered { TellsApart registered_cmp }
{}

/// Two lists with the same pairs are equal if neither repeats a label and one order sorts both.
/// This holds for each of the three orders.
pub fn one_order()
    ensures bytes { HasOneOrder label_cmp }
    ensures lengths { HasOneOrder canonical_cmp }
    ensures registered { HasOneOrder registered_cmp }
{}
