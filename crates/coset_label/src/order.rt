//! The orders of labels, which are those of their encodings (RFC 8949, section 4.2.1; RFC 7049,
//! section 3.9).

ghost use Rattle.std.specs.Prelude.{◌≡◌, ◌↔◌, IsTrue};
ghost use Rattle.std.specs.Ordering.{nat_cmp, on, as_partial_cmp, is_eq};
ghost use Rattle.std.specs.Cmp.{eq_by_cmp_equiv, on_total, partial_equiv_from_equiv, partial_order_from_own_ties};
ghost use Rattle.std.specs.Cmp.Lexicographic.{slice_cmp};
ghost use Rattle.std.specs.Cmp.Rules.{comparing};
ghost use Rattle.std.proofs.Common.{rules};
ghost use Rattle.coset_label.specs.LabelRefs.{label_ref_view};
ghost use Rattle.coset_label.specs.NameOrder.{registered_cmp_total};
ghost use Rattle.coset_label.specs.LabelData.{ComparesRegistered, ComparesEncodings, as_label, canonical_cmp, length_first_cmp, label_cmp, registered_cmp, private_rank};
ghost use Rattle.coset_label.specs.Views.{label_view, registered_view, registered_or_private_view};

use crate::label::Label;
use crate::label_ref::LabelRef;
use crate::laws;
use crate::registered::{RegisteredLabel, RegisteredLabelWithPrivate};
use coset_iana::EnumI64;
use std::cmp::Ordering;

impl Label {
    /// Borrows the label.
    fn label_ref(&self) -> LabelRef<'_>
        ensures { label_ref_view result ≡ label_view self.now }
    {
        match self {
            Label::Int(i) => LabelRef::Int(*i),
            Label::Text(text) => LabelRef::Text(text.as_str()),
        }
    }

    /// Compares the labels' encodings by length first, then byte by byte (RFC 7049, section 3.9).
    pub fn cmp_canonical(&self, other: &Label) -> Ordering
        ensures order { result ≡ canonical_cmp (label_view self.now) (label_view other.now) }
        ensures encodings { ComparesEncodings length_first_cmp (label_view self.now)
            (label_view other.now) result }
    {
        laws::orders_are_of_encodings();
        self.label_ref().canonical_order(&other.label_ref())
    }
}

impl Ord for Label {
    ghost cmp = { on label_view label_cmp };

    ghost total = { Prim.search (comparing, rules) };

    ghost matches_partial_cmp = { Prim.search (comparing, rules) };

    ghost matches_eq = { Prim.search (comparing, rules) };

    /// Compares the labels' encodings byte by byte (RFC 8949, section 4.2.1).
    fn cmp(&self, other: &Label) -> Ordering
        ensures order { result ≡ label_cmp (label_view self.now) (label_view other.now) }
        ensures encodings { ComparesEncodings (slice_cmp nat_cmp) (label_view self.now)
            (label_view other.now) result }
    {
        laws::orders_are_of_encodings();
        self.label_ref().order(&other.label_ref())
    }
}

impl PartialOrd for Label {
    ghost partial_cmp = { as_partial_cmp (on label_view label_cmp) };

    ghost laws = { partial_order_from_own_ties (Prim.search (comparing, rules) depth 9)
        (Prim.search (comparing, rules) depth 9) };

    fn partial_cmp(&self, other: &Label) -> Option<Ordering> {
        Some(self.cmp(other))
    }
}

impl PartialEq for Label {
    ghost eq = { λ a b. is_eq (label_cmp (label_view a) (label_view b)) };

    ghost laws = { Prim.search (comparing, rules) };

    /// Returns true if the labels are the same number or the same text.
    fn eq(&self, other: &Label) -> bool
        ensures matches_cmp { result
            ≡ is_eq (label_cmp (label_view self.now) (label_view other.now)) }
        ensures equal { IsTrue result ↔ (label_view self.now ≡ label_view other.now) }
    {
        laws::orders_match_equality();
        self.cmp(other).is_eq()
    }
}

impl Eq for Label {
    ghost laws = { Prim.search (comparing, rules) };
}

impl<T: EnumI64> RegisteredLabel<T> {
    /// Borrows the label.
    fn label_ref(&self) -> LabelRef<'_>
        ensures { label_ref_view result ≡ registered_view T.number self.now }
    {
        match self {
            RegisteredLabel::Assigned(value) => LabelRef::Int(value.to_i64()),
            RegisteredLabel::Text(text) => LabelRef::Text(text.as_str()),
        }
    }
}

impl<T: EnumI64> Ord for RegisteredLabel<T> {
    ghost cmp = { on (registered_view T.number) label_cmp };

    ghost total = { Prim.search (comparing, rules) };

    ghost matches_partial_cmp = { Prim.search (comparing, rules) };

    ghost matches_eq = { Prim.search (comparing, rules) };

    /// Compares the labels' encodings byte by byte (RFC 8949, section 4.2.1).
    fn cmp(&self, other: &RegisteredLabel<T>) -> Ordering
        ensures order { result ≡ label_cmp (registered_view T.number self.now)
            (registered_view T.number other.now) }
        ensures encodings { ComparesEncodings (slice_cmp nat_cmp)
            (registered_view T.number self.now) (registered_view T.number other.now) result }
    {
        laws::orders_are_of_encodings();
        self.label_ref().order(&other.label_ref())
    }
}

impl<T: EnumI64> PartialOrd for RegisteredLabel<T> {
    ghost partial_cmp = { as_partial_cmp (on (registered_view T.number) label_cmp) };

    ghost laws = { partial_order_from_own_ties (Prim.search (comparing, rules) depth 9)
        (Prim.search (comparing, rules) depth 9) };

    fn partial_cmp(&self, other: &RegisteredLabel<T>) -> Option<Ordering> {
        Some(self.cmp(other))
    }
}

impl<T: EnumI64> PartialEq for RegisteredLabel<T> {
    ghost eq = { λ a b.
        is_eq (label_cmp (registered_view T.number a) (registered_view T.number b)) };

    ghost laws = { Prim.search (comparing, rules) };

    /// Returns true if the labels are the same number or the same text.
    fn eq(&self, other: &RegisteredLabel<T>) -> bool
        ensures matches_cmp { result ≡ is_eq
            (label_cmp (registered_view T.number self.now) (registered_view T.number other.now)) }
        ensures equal { IsTrue result
            ↔ (registered_view T.number self.now ≡ registered_view T.number other.now) }
    {
        laws::orders_match_equality();
        self.cmp(other).is_eq()
    }
}

impl<T: EnumI64> Eq for RegisteredLabel<T> {
    ghost laws = { Prim.search (comparing, rules) };
}

impl<T: EnumI64> RegisteredLabelWithPrivate<T> {
    /// Borrows the label as a number or a text.
    fn label_ref(&self) -> LabelRef<'_>
        ensures { label_ref_view result ≡ as_label (registered_or_private_view T.number self.now) }
    {
        match self {
            RegisteredLabelWithPrivate::PrivateUse(i) => LabelRef::Int(*i),
            RegisteredLabelWithPrivate::Assigned(value) => LabelRef::Int(value.to_i64()),
            RegisteredLabelWithPrivate::Text(text) => LabelRef::Text(text.as_str()),
        }
    }

    /// Returns 1 for a private-use number, else 0.
    fn private_rank(&self) -> u8
        ensures { result ≡ private_rank (registered_or_private_view T.number self.now) }
    {
        match self {
            RegisteredLabelWithPrivate::PrivateUse(_) => 1,
            _ => 0,
        }
    }
}

impl<T: EnumI64> Ord for RegisteredLabelWithPrivate<T> {
    ghost cmp = { on (registered_or_private_view T.number) registered_cmp };

    ghost total = { Prim.search (comparing, rules) depth 9 };

    ghost matches_partial_cmp = { Prim.search (comparing, rules) depth 9 };

    ghost matches_eq = { Prim.search (comparing, rules) depth 9 };

    /// Compares the labels' encodings byte by byte (RFC 8949, section 4.2.1). If the numbers are
    /// equal, an assigned value comes before a private-use number.
    fn cmp(&self, other: &RegisteredLabelWithPrivate<T>) -> Ordering
        ensures order { result ≡ registered_cmp (registered_or_private_view T.number self.now)
            (registered_or_private_view T.number other.now) }
        ensures encodings { ComparesRegistered (registered_or_private_view T.number self.now)
            (registered_or_private_view T.number other.now) result }
    {
        laws::orders_are_of_encodings();
        self.label_ref()
            .order(&other.label_ref())
            .then(self.private_rank().cmp(&other.private_rank()))
    }
}

impl<T: EnumI64> PartialOrd for RegisteredLabelWithPrivate<T> {
    ghost partial_cmp = { as_partial_cmp (on
        (registered_or_private_view T.number) registered_cmp) };

    ghost laws = { partial_order_from_own_ties (Prim.search (comparing, rules) depth 9)
        (Prim.search (comparing, rules) depth 9) };

    fn partial_cmp(&self, other: &RegisteredLabelWithPrivate<T>) -> Option<Ordering> {
        Some(self.cmp(other))
    }
}

impl<T: EnumI64> PartialEq for RegisteredLabelWithPrivate<T> {
    ghost eq = { λ a b. is_eq (registered_cmp (registered_or_private_view T.number a)
        (registered_or_private_view T.number b)) };

    ghost laws = { partial_equiv_from_equiv
        (eq_by_cmp_equiv (on_total (registered_or_private_view T.number) registered_cmp_total)) };

    /// Returns true if the labels are the same number or the same text. An assigned value never
    /// equals a private-use number.
    fn eq(&self, other: &RegisteredLabelWithPrivate<T>) -> bool
        ensures matches_cmp { result
            ≡ is_eq (registered_cmp (registered_or_private_view T.number self.now)
            (registered_or_private_view T.number other.now)) }
        ensures equal { IsTrue result ↔ (registered_or_private_view T.number self.now
            ≡ registered_or_private_view T.number other.now) }
    {
        laws::orders_match_equality();
        self.cmp(other).is_eq()
    }
}

impl<T: EnumI64> Eq for RegisteredLabelWithPrivate<T> {
    ghost laws = { eq_by_cmp_equiv (on_total
        (registered_or_private_view T.number) registered_cmp_total) };
}
