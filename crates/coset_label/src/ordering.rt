//! The two orders of labels, as an enum.

ghost use Rattle.std.specs.Prelude.{◌≡◌};
ghost use Rattle.coset_label.specs.LabelData.{ComparesEncodings};
ghost use Rattle.coset_label.specs.Orderings.{label_cmp_by, encoding_cmp_by};
ghost use Rattle.coset_label.specs.Views.{label_view};

use crate::label::Label;
use std::cmp::Ordering;

/// An order of labels, by their encodings.
#[derive(Drop)]
pub enum CborOrdering {
    /// By the bytes of the encodings (RFC 8949, section 4.2.1).
    Lexicographic,
    /// By the length of the encodings first, then by their bytes (RFC 7049, section 3.9).
    LengthFirstLexicographic,
}

impl CborOrdering {
    /// Compares two labels in this order. Allocates nothing.
    pub fn compare(&self, a: &Label, b: &Label) -> Ordering
        ensures order { result ≡ label_cmp_by self.now (label_view a.now) (label_view b.now) }
        ensures encodings { ComparesEncodings (encoding_cmp_by self.now) (label_view a.now)
            (label_view b.now) result }
    {
        match self {
            CborOrdering::Lexicographic => a.cmp(b),
            CborOrdering::LengthFirstLexicographic => a.cmp_canonical(b),
        }
    }
}
