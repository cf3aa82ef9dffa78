//! The lengths of signatures, for each kind of key.

ghost use Rattle.std.specs.Prelude.{◌≡◌, ◌≤◌, IfSome};
ghost use Rattle.coset.specs.Keys.{key_view};
ghost use Rattle.cwt_ring.specs.Signatures.{has_parts, has_signature_length, is_ecdsa, is_eddsa};

use crate::kind::{coordinate_length, edwards_length, has_curve};
use crate::member::has_length;
use coset::CoseKey;
use coset::iana::{EllipticCurve, EnumI64, RsaKeyParameter};
use cwt_keys::KeyKind;

/// Returns true if the signature has two parts of this length.
fn has_parts(signature: &[u8], len: Option<usize>) -> bool
    requires { IfSome len (λ n. n ≤ 66) }
    ensures { result ≡ has_parts len signature.now }
{
    match len {
        Some(len) => signature.len() == 2 * len,
        None => false,
    }
}

/// Returns true if the key is on this curve, and r and s are as long as a coordinate (RFC 9053,
/// section 2.1; RFC 8812, section 3.2).
fn is_ecdsa(key: &CoseKey, curve: EllipticCurve, signature: &[u8]) -> bool
    ensures { result ≡ is_ecdsa curve (key_view key.now) signature.now }
{
    has_curve(key, curve) && has_parts(signature, coordinate_length(curve))
}

/// Returns true if the key is on this curve, and R and S are as long as a public key (RFC 8032,
/// sections 5.1.6 and 5.2.6).
fn is_eddsa(key: &CoseKey, curve: EllipticCurve, signature: &[u8]) -> bool
    ensures { result ≡ is_eddsa curve (key_view key.now) signature.now }
{
    has_curve(key, curve) && has_parts(signature, edwards_length(curve))
}

/// Returns true if the signature has a length that the key gives, or if its kind gives none. A
/// signature by RSA is as long as n (RFC 8017, sections 8.1.2 and 8.2.2).
pub(crate) fn has_signature_length(key: &CoseKey, kind: KeyKind, signature: &[u8]) -> bool
    ensures { result ≡ has_signature_length kind (key_view key.now) signature.now }
{
    match kind {
        KeyKind::NistCurve => {
            is_ecdsa(key, EllipticCurve::P_256, signature)
                || is_ecdsa(key, EllipticCurve::P_384, signature)
                || is_ecdsa(key, EllipticCurve::P_521, signature)
        }
        KeyKind::Ec2(curve) => is_ecdsa(key, curve, signature),
        KeyKind::EdwardsCurve => {
            is_eddsa(key, EllipticCurve::Ed25519, signature)
                || is_eddsa(key, EllipticCurve::Ed448, signature)
        }
        KeyKind::Okp(curve) => is_eddsa(key, curve, signature),
        KeyKind::Rsa => has_length(key, RsaKeyParameter::N.to_i64(), signature.len()),
        KeyKind::HssLms
        | KeyKind::WalnutDsa
        | KeyKind::Akp(_)
        | KeyKind::Symmetric(_)
        | KeyKind::SymmetricFrom(_) => true,
    }
}
