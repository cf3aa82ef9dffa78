//! Labels of every key, key types, elliptic curves, and key operations.

ghost use Rattle.std.specs.Prelude.{Some, refl};
ghost use Rattle.coset_iana.specs.WithPrivateRange.{is_private_use};

use crate::registry::Registry;
use crate::{Named, WithPrivateRange};
use std::fmt;

/// Elliptic curves below this number are for private use (RFC 8152, section 16.8).
pub const ELLIPTIC_CURVE_PRIVATE_USE_MAX: i64 = -65536;

/// A label that keys of every type may have, as IANA's registry "COSE Key Common Parameters"
/// assigns it (RFC 8152, sections 7.1 and 16.5).
#[derive(Clone, Copy, Debug, Eq, Ord, PartialEq, PartialOrd)]
pub enum KeyParameter {
    /// Never a label of a key; reserved.
    Reserved = 0,
    /// The key type, which decides the other parameters: int or tstr.
    Kty = 1,
    /// The key identifier: bstr.
    Kid = 2,
    /// The only algorithm that the key may be used with: int or tstr.
    Alg = 3,
    /// The permitted uses of the key: an array of key operations.
    KeyOps = 4,
    /// The base IV, which is combined with a message's Partial IV: bstr.
    BaseIv = 5,
}

/// The labels of every key, in ascending order of their numbers.
pub const KEY_PARAMETERS: [KeyParameter; 6] = [
    KeyParameter::Reserved,
    KeyParameter::Kty,
    KeyParameter::Kid,
    KeyParameter::Alg,
    KeyParameter::KeyOps,
    KeyParameter::BaseIv,
];

impl Registry for KeyParameter {
    ghost use Rattle.coset_iana.specs.KeyParameter.{number};
    ghost use Rattle.coset_iana.specs.declared.keys.KeyParameter.TheVariants.{Reserved};
    ghost use Rattle.coset_iana.specs.declared.keys.TheConstants.{KEY_PARAMETERS};

    ghost number = { number };

    ghost values = { KEY_PARAMETERS };

    ghost ascending = { refl };

    ghost has_each = { elim [ Reserved ↦ refl | _ ↦ refl ] };

    fn values() -> &'static [KeyParameter] {
        &KEY_PARAMETERS
    }

    fn number(self) -> i64 {
        self as i64
    }
}

impl Named for KeyParameter {
    ghost use Rattle.coset_iana.specs.KeyParameter.{name};

    ghost name = { name };

    fn name(&self) -> &'static str {
        match self {
            KeyParameter::Reserved => "Reserved",
            KeyParameter::Kty => "kty",
            KeyParameter::Kid => "kid",
            KeyParameter::Alg => "alg",
            KeyParameter::KeyOps => "key_ops",
            KeyParameter::BaseIv => "Base IV",
        }
    }
}

impl fmt::Display for KeyParameter {
    ghost use Rattle.coset_iana.specs.KeyParameter.{name};

    ghost output = { λ x. Some (name x) };

    fn fmt<W: fmt::Write>(&self, f: &mut fmt::Formatter<W>) -> fmt::Result {
        f.pad(self.name())
    }
}

/// A key type, as IANA's registry "COSE Key Types" assigns it (RFC 8152, sections 13 and 16.7).
#[derive(Clone, Copy, Debug, Eq, Ord, PartialEq, PartialOrd)]
#[allow(non_camel_case_types)]
pub enum KeyType {
    /// Never a key type; reserved.
    Reserved = 0,
    /// Octet key pair: a key given by one coordinate, as for X25519 or Ed25519.
    OKP = 1,
    /// A key on an elliptic curve, given by two coordinates.
    EC2 = 2,
    /// RSA (RFC 8230, section 4).
    RSA = 3,
    /// A symmetric key, a secret that both sides share.
    Symmetric = 4,
    /// A public key for HSS/LMS (RFC 8778).
    HSS_LMS = 5,
    /// A public key for WalnutDSA (RFC 9021).
    WalnutDSA = 6,
    /// Algorithm key pair: a key for the one algorithm that it names, such as ML-DSA.
    AKP = 7,
}

/// The key types, in ascending order of their numbers.
pub const KEY_TYPES: [KeyType; 8] = [
    KeyType::Reserved,
    KeyType::OKP,
    KeyType::EC2,
    KeyType::RSA,
    KeyType::Symmetric,
    KeyType::HSS_LMS,
    KeyType::WalnutDSA,
    KeyType::AKP,
];

impl Registry for KeyType {
    ghost use Rattle.coset_iana.specs.KeyType.{number};
    ghost use Rattle.coset_iana.specs.declared.keys.KeyType.TheVariants.{Reserved};
    ghost use Rattle.coset_iana.specs.declared.keys.TheConstants.{KEY_TYPES};

    ghost number = { number };

    ghost values = { KEY_TYPES };

    ghost ascending = { refl };

    ghost has_each = { elim [ Reserved ↦ refl | _ ↦ refl ] };

    fn values() -> &'static [KeyType] {
        &KEY_TYPES
    }

    fn number(self) -> i64 {
        self as i64
    }
}

impl Named for KeyType {
    ghost use Rattle.coset_iana.specs.KeyType.{name};

    ghost name = { name };

    fn name(&self) -> &'static str {
        match self {
            KeyType::Reserved => "Reserved",
            KeyType::OKP => "OKP",
            KeyType::EC2 => "EC2",
            KeyType::RSA => "RSA",
            KeyType::Symmetric => "Symmetric",
            KeyType::HSS_LMS => "HSS-LMS",
            KeyType::WalnutDSA => "WalnutDSA",
            KeyType::AKP => "AKP",
        }
    }
}

impl fmt::Display for KeyType {
    ghost use Rattle.coset_iana.specs.KeyType.{name};

    ghost output = { λ x. Some (name x) };

    fn fmt<W: fmt::Write>(&self, f: &mut fmt::Formatter<W>) -> fmt::Result {
        f.pad(self.name())
    }
}

/// An elliptic curve, as IANA's registry "COSE Elliptic Curves" assigns it (RFC 8152, sections
/// 13.1, 13.2 and 16.8).
#[derive(Clone, Copy, Debug, Eq, Ord, PartialEq, PartialOrd)]
#[allow(non_camel_case_types)]
pub enum EllipticCurve {
    /// Never a curve; reserved.
    Reserved = 0,
    /// NIST P-256, for EC2 keys.
    P_256 = 1,
    /// NIST P-384, for EC2 keys.
    P_384 = 2,
    /// NIST P-521, for EC2 keys.
    P_521 = 3,
    /// X25519, for ECDH with OKP keys.
    X25519 = 4,
    /// X448, for ECDH with OKP keys.
    X448 = 5,
    /// Ed25519, for EdDSA with OKP keys.
    Ed25519 = 6,
    /// Ed448, for EdDSA with OKP keys.
    Ed448 = 7,
    /// SECG secp256k1, for EC2 keys (RFC 8812).
    Secp256k1 = 8,
    /// brainpoolP256r1, for EC2 keys.
    BrainpoolP256R1 = 256,
    /// brainpoolP320r1, for EC2 keys.
    BrainpoolP320R1 = 257,
    /// brainpoolP384r1, for EC2 keys.
    BrainpoolP384R1 = 258,
    /// brainpoolP512r1, for EC2 keys.
    BrainpoolP512R1 = 259,
}

/// The elliptic curves, in ascending order of their numbers.
pub const ELLIPTIC_CURVES: [EllipticCurve; 13] = [
    EllipticCurve::Reserved,
    EllipticCurve::P_256,
    EllipticCurve::P_384,
    EllipticCurve::P_521,
    EllipticCurve::X25519,
    EllipticCurve::X448,
    EllipticCurve::Ed25519,
    EllipticCurve::Ed448,
    EllipticCurve::Secp256k1,
    EllipticCurve::BrainpoolP256R1,
    EllipticCurve::BrainpoolP320R1,
    EllipticCurve::BrainpoolP384R1,
    EllipticCurve::BrainpoolP512R1,
];

impl Registry for EllipticCurve {
    ghost use Rattle.coset_iana.specs.EllipticCurve.{number};
    ghost use Rattle.coset_iana.specs.declared.keys.EllipticCurve.TheVariants.{Reserved};
    ghost use Rattle.coset_iana.specs.declared.keys.TheConstants.{ELLIPTIC_CURVES};

    ghost number = { number };

    ghost values = { ELLIPTIC_CURVES };

    ghost ascending = { refl };

    ghost has_each = { elim [ Reserved ↦ refl | _ ↦ refl ] };

    fn values() -> &'static [EllipticCurve] {
        &ELLIPTIC_CURVES
    }

    fn number(self) -> i64 {
        self as i64
    }
}

impl Named for EllipticCurve {
    ghost use Rattle.coset_iana.specs.EllipticCurve.{name};

    ghost name = { name };

    fn name(&self) -> &'static str {
        match self {
            EllipticCurve::Reserved => "Reserved",
            EllipticCurve::P_256 => "P-256",
            EllipticCurve::P_384 => "P-384",
            EllipticCurve::P_521 => "P-521",
            EllipticCurve::X25519 => "X25519",
            EllipticCurve::X448 => "X448",
            EllipticCurve::Ed25519 => "Ed25519",
            EllipticCurve::Ed448 => "Ed448",
            EllipticCurve::Secp256k1 => "secp256k1",
            EllipticCurve::BrainpoolP256R1 => "brainpoolP256r1",
            EllipticCurve::BrainpoolP320R1 => "brainpoolP320r1",
            EllipticCurve::BrainpoolP384R1 => "brainpoolP384r1",
            EllipticCurve::BrainpoolP512R1 => "brainpoolP512r1",
        }
    }
}

impl fmt::Display for EllipticCurve {
    ghost use Rattle.coset_iana.specs.EllipticCurve.{name};

    ghost output = { λ x. Some (name x) };

    fn fmt<W: fmt::Write>(&self, f: &mut fmt::Formatter<W>) -> fmt::Result {
        f.pad(self.name())
    }
}

impl WithPrivateRange for EllipticCurve {
    ghost is_private = { is_private_use };

    fn is_private(i: i64) -> bool {
        i < ELLIPTIC_CURVE_PRIVATE_USE_MAX
    }
}

/// A permitted use of a key, as an entry of `key_ops`. IANA keeps no registry of these. The numbers
/// are those of RFC 8152, section 7.1, table 4.
#[derive(Clone, Copy, Debug, Eq, Ord, PartialEq, PartialOrd)]
pub enum KeyOperation {
    /// To make signatures; requires a private key.
    Sign = 1,
    /// To verify signatures.
    Verify = 2,
    /// To encrypt content, or a key in a recipient.
    Encrypt = 3,
    /// To decrypt content, or a key in a recipient; requires a private key.
    Decrypt = 4,
    /// To wrap keys.
    WrapKey = 5,
    /// To unwrap keys; requires a private key.
    UnwrapKey = 6,
    /// To derive keys; requires a private key.
    DeriveKey = 7,
    /// To derive bits that aren't used as a key; requires a private key.
    DeriveBits = 8,
    /// To make MAC tags.
    MacCreate = 9,
    /// To verify MAC tags.
    MacVerify = 10,
}

/// The key operations, in ascending order of their numbers.
pub const KEY_OPERATIONS: [KeyOperation; 10] = [
    KeyOperation::Sign,
    KeyOperation::Verify,
    KeyOperation::Encrypt,
    KeyOperation::Decrypt,
    KeyOperation::WrapKey,
    KeyOperation::UnwrapKey,
    KeyOperation::DeriveKey,
    KeyOperation::DeriveBits,
    KeyOperation::MacCreate,
    KeyOperation::MacVerify,
];

impl Registry for KeyOperation {
    ghost use Rattle.coset_iana.specs.KeyOperation.{number};
    ghost use Rattle.coset_iana.specs.declared.keys.KeyOperation.TheVariants.{Sign};
    ghost use Rattle.coset_iana.specs.declared.keys.TheConstants.{KEY_OPERATIONS};

    ghost number = { number };

    ghost values = { KEY_OPERATIONS };

    ghost ascending = { refl };

    ghost has_each = { elim [ Sign ↦ refl | _ ↦ refl ] };

    const FIRST: i64 = 1;

    fn values() -> &'static [KeyOperation] {
        &KEY_OPERATIONS
    }

    fn number(self) -> i64 {
        self as i64
    }
}

impl Named for KeyOperation {
    ghost use Rattle.coset_iana.specs.KeyOperation.{name};

    ghost name = { name };

    fn name(&self) -> &'static str {
        match self {
            KeyOperation::Sign => "sign",
            KeyOperation::Verify => "verify",
            KeyOperation::Encrypt => "encrypt",
            KeyOperation::Decrypt => "decrypt",
            KeyOperation::WrapKey => "wrap key",
            KeyOperation::UnwrapKey => "unwrap key",
            KeyOperation::DeriveKey => "derive key",
            KeyOperation::DeriveBits => "derive bits",
            KeyOperation::MacCreate => "MAC create",
            KeyOperation::MacVerify => "MAC verify",
        }
    }
}

impl fmt::Display for KeyOperation {
    ghost use Rattle.coset_iana.specs.KeyOperation.{name};

    ghost output = { λ x. Some (name x) };

    fn fmt<W: fmt::Write>(&self, f: &mut fmt::Formatter<W>) -> fmt::Result {
        f.pad(self.name())
    }
}
