//! The labels of IANA registries that COSE uses.

ghost use Rattle.std.specs.Prelude.{◌≡◌};

use crate::registered::{RegisteredLabel, RegisteredLabelWithPrivate};
use coset_iana::{
    CoapContentFormat, CwtClaimName, EnumI64, KeyOperation as Operation, KeyType as Kind,
};

/// A content type: a CoAP content format or a text (RFC 8152, section 3.1).
pub type ContentType = RegisteredLabel<CoapContentFormat>;

/// A key type (RFC 8152, section 7.1).
pub type KeyType = RegisteredLabel<Kind>;

/// A key operation (RFC 8152, section 7.1).
pub type KeyOperation = RegisteredLabel<Operation>;

/// An algorithm (RFC 8152, section 16.4).
pub type Algorithm = RegisteredLabelWithPrivate<coset_iana::Algorithm>;

/// The key of a claim in a CBOR Web Token: an assigned number, a private-use number or a text (RFC
/// 8392, section 9.1.1).
pub type ClaimName = RegisteredLabelWithPrivate<CwtClaimName>;

impl Default for Algorithm {
    ghost use Rattle.coset_iana.specs.declared.algorithms.Algorithm.TheVariants.{Reserved};
    ghost use Rattle.coset_label.specs.declared.registered.RegisteredLabelWithPrivate.TheVariants.{Assigned};

    ghost is_default = { λ label. label ≡ Assigned Reserved };

    /// Returns the reserved algorithm.
    fn default() -> Algorithm {
        RegisteredLabelWithPrivate::Assigned(coset_iana::Algorithm::Reserved)
    }
}

impl Default for KeyType {
    ghost use Rattle.coset_iana.specs.declared.keys.KeyType.TheVariants.{Reserved};
    ghost use Rattle.coset_label.specs.declared.registered.RegisteredLabel.TheVariants.{Assigned};

    ghost is_default = { λ label. label ≡ Assigned Reserved };

    /// Returns the reserved key type.
    fn default() -> KeyType {
        RegisteredLabel::Assigned(Kind::Reserved)
    }
}

impl<T: EnumI64> From<T> for RegisteredLabel<T> {
    ghost use Rattle.coset_label.specs.declared.registered.RegisteredLabel.TheVariants.{Assigned};

    ghost from_gives = { λ x label. label ≡ Assigned x };

    fn from(value: T) -> RegisteredLabel<T> {
        RegisteredLabel::Assigned(value)
    }
}

impl<T: EnumI64> From<T> for RegisteredLabelWithPrivate<T> {
    ghost use Rattle.coset_label.specs.declared.registered.RegisteredLabelWithPrivate.TheVariants.{Assigned};

    ghost from_gives = { λ x label. label ≡ Assigned x };

    fn from(value: T) -> RegisteredLabelWithPrivate<T> {
        RegisteredLabelWithPrivate::Assigned(value)
    }
}
