//! The keys that an algorithm takes: their type, and the members that the type defines (RFC 9052,
//! section 7; RFC 9053, section 7).

ghost use Rattle.std.specs.Prelude.{◌≡◌, ◌≤◌, IfSome};
ghost use Rattle.coset.specs.Keys.{key_view};
ghost use Rattle.cwt_ring.specs.Kinds.{coordinate_length, edwards_length, has_bytes, has_curve, has_point, has_type, has_walnut_arrays, is_ec2, is_exponent, is_modulus, is_of_kind, is_okp, is_rsa, is_walnut};

use crate::member::{
    bytes_of, has_length, has_length_from, integer_of, is_array, is_bool, is_byte_string,
    is_unsigned,
};
use coset::cbor::value::Integer;
use coset::iana::{
    AkpKeyParameter, Ec2KeyParameter, EllipticCurve, EnumI64, HssLmsKeyParameter, KeyType,
    OkpKeyParameter, RsaKeyParameter, SymmetricKeyParameter, WalnutDsaKeyParameter,
};
use coset::{CoseKey, RegisteredLabel};
use cwt_keys::KeyKind;

/// Returns true if the key is of this type (RFC 9052, section 7.1).
fn has_type(key: &CoseKey, kty: KeyType) -> bool
    ensures { result ≡ has_type kty (key_view key.now) }
{
    key.kty == RegisteredLabel::Assigned(kty)
}

/// Returns true if the key is on this curve. EC2 and OKP keys have the curve under the same label
/// (RFC 9053, sections 7.1.1 and 7.2).
pub(crate) fn has_curve(key: &CoseKey, curve: EllipticCurve) -> bool
    ensures { result ≡ has_curve curve (key_view key.now) }
{
    match integer_of(key, Ec2KeyParameter::Crv.to_i64()) {
        Some(number) => Integer::from(curve.to_i64()) == number,
        None => false,
    }
}

/// Returns the length of a coordinate on a curve for EC2 keys, in bytes, or `None` for other
/// curves.
pub(crate) fn coordinate_length(curve: EllipticCurve) -> Option<usize>
    ensures is { result ≡ coordinate_length curve }
    ensures short { IfSome result (λ n. n ≤ 66) }
{
    match curve {
        EllipticCurve::P_256 => Some(32),
        EllipticCurve::P_384 => Some(48),
        EllipticCurve::P_521 => Some(66),
        EllipticCurve::Secp256k1 => Some(32),
        EllipticCurve::BrainpoolP256R1 => Some(32),
        EllipticCurve::BrainpoolP320R1 => Some(40),
        EllipticCurve::BrainpoolP384R1 => Some(48),
        EllipticCurve::BrainpoolP512R1 => Some(64),
        _ => None,
    }
}

/// Returns true if x has this length, and y too, or y is the sign of a compressed point (RFC 9053,
/// section 7.1.1).
fn has_point(key: &CoseKey, len: usize) -> bool
    ensures { result ≡ has_point len (key_view key.now) }
{
    let y = Ec2KeyParameter::Y.to_i64();
    has_length(key, Ec2KeyParameter::X.to_i64(), len)
        && (has_length(key, y, len) || is_bool(key, y))
}

/// Returns true if this is a public EC2 key on this curve.
fn is_ec2(key: &CoseKey, curve: EllipticCurve) -> bool
    ensures { result ≡ is_ec2 curve (key_view key.now) }
{
    match coordinate_length(curve) {
        Some(len) => { has_type(key, KeyType::EC2) && has_curve(key, curve) && has_point(key, len) }
        None => false,
    }
}

/// Returns the length of a public key on a curve for EdDSA, in bytes, or `None` for other curves.
pub(crate) fn edwards_length(curve: EllipticCurve) -> Option<usize>
    ensures is { result ≡ edwards_length curve }
    ensures short { IfSome result (λ n. n ≤ 66) }
{
    match curve {
        EllipticCurve::Ed25519 => Some(32),
        EllipticCurve::Ed448 => Some(57),
        _ => None,
    }
}

/// Returns true if this is a public OKP key on this curve.
fn is_okp(key: &CoseKey, curve: EllipticCurve) -> bool
    ensures { result ≡ is_okp curve (key_view key.now) }
{
    match edwards_length(curve) {
        Some(len) => {
            let x = OkpKeyParameter::X.to_i64();
            has_type(key, KeyType::OKP) && has_curve(key, curve) && has_length(key, x, len)
        }
        None => false,
    }
}

/// Returns true if a modulus without leading zeros has at least 2048 bits.
fn is_modulus(bytes: &[u8]) -> bool
    ensures { result ≡ is_modulus bytes.now }
{
    match bytes.first() {
        Some(first) => *first > 0 && (bytes.len() > 256 || (bytes.len() == 256 && *first >= 128)),
        None => false,
    }
}

/// Returns true if n is a byte string that is a modulus of at least 2048 bits.
fn has_modulus(key: &CoseKey, label: i64) -> bool
    ensures { result ≡ has_bytes is_modulus label (key_view key.now) }
{
    match bytes_of(key, label) {
        Some(bytes) => is_modulus(bytes),
        None => false,
    }
}

/// Returns true if an exponent has no leading zeros (RFC 8230, section 4).
fn is_exponent(bytes: &[u8]) -> bool
    ensures { result ≡ is_exponent bytes.now }
{
    match bytes.first() {
        Some(first) => *first > 0,
        None => false,
    }
}

/// Returns true if e is a byte string that is such an exponent.
fn has_exponent(key: &CoseKey, label: i64) -> bool
    ensures { result ≡ has_bytes is_exponent label (key_view key.now) }
{
    match bytes_of(key, label) {
        Some(bytes) => is_exponent(bytes),
        None => false,
    }
}

/// Returns true if this is a public RSA key (RFC 8230, section 4).
fn is_rsa(key: &CoseKey) -> bool
    ensures { result ≡ is_rsa (key_view key.now) }
{
    has_type(key, KeyType::RSA)
        && has_modulus(key, RsaKeyParameter::N.to_i64())
        && has_exponent(key, RsaKeyParameter::E.to_i64())
}

/// Returns true if the key has the arrays of a WalnutDSA key (RFC 9021, section 6.3).
fn has_walnut_arrays(key: &CoseKey) -> bool
    ensures { result ≡ has_walnut_arrays (key_view key.now) }
{
    is_array(key, WalnutDsaKeyParameter::TValues.to_i64())
        && is_array(key, WalnutDsaKeyParameter::Matrix1.to_i64())
        && is_array(key, WalnutDsaKeyParameter::Permutation1.to_i64())
        && is_array(key, WalnutDsaKeyParameter::Matrix2.to_i64())
}

/// Returns true if this is a public WalnutDSA key (RFC 9021, section 6.3).
fn is_walnut(key: &CoseKey) -> bool
    ensures { result ≡ is_walnut (key_view key.now) }
{
    has_type(key, KeyType::WalnutDSA)
        && is_unsigned(key, WalnutDsaKeyParameter::N.to_i64())
        && is_unsigned(key, WalnutDsaKeyParameter::Q.to_i64())
        && has_walnut_arrays(key)
}

/// Returns true if the key is of this kind.
pub(crate) fn is_of_kind(key: &CoseKey, kind: KeyKind) -> bool
    ensures { result ≡ is_of_kind kind (key_view key.now) }
{
    match kind {
        KeyKind::NistCurve => {
            is_ec2(key, EllipticCurve::P_256)
                || is_ec2(key, EllipticCurve::P_384)
                || is_ec2(key, EllipticCurve::P_521)
        }
        KeyKind::Ec2(curve) => is_ec2(key, curve),
        KeyKind::EdwardsCurve => {
            is_okp(key, EllipticCurve::Ed25519) || is_okp(key, EllipticCurve::Ed448)
        }
        KeyKind::Okp(curve) => is_okp(key, curve),
        KeyKind::Rsa => is_rsa(key),
        KeyKind::HssLms => {
            let public = HssLmsKeyParameter::Pub.to_i64();
            has_type(key, KeyType::HSS_LMS) && is_byte_string(key, public)
        }
        KeyKind::WalnutDsa => is_walnut(key),
        KeyKind::Akp(len) => {
            has_type(key, KeyType::AKP) && has_length(key, AkpKeyParameter::Pub.to_i64(), len)
        }
        KeyKind::Symmetric(len) => {
            let k = SymmetricKeyParameter::K.to_i64();
            has_type(key, KeyType::Symmetric) && has_length(key, k, len)
        }
        KeyKind::SymmetricFrom(len) => {
            let k = SymmetricKeyParameter::K.to_i64();
            has_type(key, KeyType::Symmetric) && has_length_from(key, k, len)
        }
    }
}
