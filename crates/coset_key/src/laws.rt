//! Laws of keys, which callers may cite. Each law is the contract of a function without effects.
//! The laws of all types that are read and written are in `coset_codec::laws`.

ghost use Rattle.std.specs.Prelude.{◌≡◌, ◌≤◌, ℕ, Contains, List, Ok};
ghost use Rattle.coset_value.specs.Item.{Item, depth};
ghost use Rattle.coset_iana.specs.declared.keys.EllipticCurve.{EllipticCurve};
ghost use Rattle.coset_label.specs.declared.ordering.CborOrdering.{CborOrdering};
ghost use Rattle.coset_key.specs.Canonical.{CanonicalInjective, CanonicalReadsAgain, LabelsAscend, ZeroAfterFields};
ghost use Rattle.coset_key.specs.Keys.{KeyView, key, key_set};
ghost use Rattle.coset_key.specs.MlDsa.{algorithm_of};
ghost use Rattle.coset_key.specs.Sec1.{IsMalformed, Point, EncodesPoint, key_point, octets, point_key};
ghost use Rattle.coset_key.specs.declared.ml_dsa.MlDsaVariant.{MlDsaVariant};
ghost use Rattle.coset_codec.specs.Results.{Describes};

use crate::key::CoseKey;
use coset_codec::laws::encoding_is_injective;

/// An octet string encodes at most one point, and none if it is malformed. The key of a point has
/// that point, so an octet string that was decoded is encoded again as itself.
pub fn points_round_trip()
    ensures back { (curve : EllipticCurve) (s : List ℕ) (p : Point) → EncodesPoint s p
        → (key_point (point_key curve p) ≡ Ok p) × (octets p ≡ s) }
    ensures one { (s : List ℕ) (p q : Point) → EncodesPoint s p → EncodesPoint s q → p ≡ q }
    ensures none { (s : List ℕ) (p : Point) → EncodesPoint s p → IsMalformed s → ⊥ }
{}

/// Different variants of ML-DSA have different algorithms, so a variant can be recovered from its
/// algorithm.
pub fn ml_dsa_round_trip()
    ensures { (v w : MlDsaVariant) → algorithm_of v ≡ algorithm_of w → v ≡ w }
{}

/// Each key of a set that was read is described by an item of at most 255 levels. The laws below
/// are on keys that an item describes, so they apply to the keys of a set too.
pub fn keys_of_a_set()
    ensures { (b : List ℕ) (s : List KeyView) (k : KeyView) → Describes key_set b s → Contains s k
        → (v : Item) × key.describes v k × (depth v ≤ 255) }
{}

/// A key that was read and then canonicalized (`CoseKey::canonicalize`) can be written, and is read
/// again as itself. It may have been read on its own, in a set, or from a tree within 256 levels.
pub fn canonical_keys_read_again()
    ensures { (o : CborOrdering) → CanonicalReadsAgain o }
{}

/// Two canonicalized keys are written as equal bytes exactly if they agree except for the order of
/// their params. The keys must have been read, on their own, in a set or from a tree. Both must be
/// canonicalized (`CoseKey::canonicalize`) in the same order.
pub fn canonical_keys_injective()
    ensures { (o : CborOrdering) → CanonicalInjective o }
{
    encoding_is_injective::<CoseKey>();
}

/// A key that was read and canonicalized in an order is written with all labels in that order,
/// except label 0. A param with label 0 is written after the fields, although its label is less
/// than theirs.
pub fn labels_ascend()
    ensures ascend { (o : CborOrdering) → LabelsAscend o }
    ensures zero { (o : CborOrdering) → ZeroAfterFields o }
{}
