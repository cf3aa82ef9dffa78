//! The algorithms of layers: the form of each, the keys that it takes, and the lengths of its tag
//! and nonce.

ghost use Rattle.std.specs.Prelude.{◌≡◌};
ghost use Rattle.cwt_keys.specs.Table.{of_form, row_for};
ghost use Rattle.cwt_keys.specs.declared.form.Form.TheVariants.{Sign1, Mac0, Encrypt0};

use crate::form::Form;
use coset::iana::{Algorithm, EllipticCurve};

/// The keys that an algorithm takes: their type, their curve, and the length of their secret or
/// public part.
#[derive(Clone, Copy, Debug, PartialEq, Eq)]
pub enum KeyKind {
    /// EC2 keys on P-256, P-384 or P-521 (RFC 9053, section 2.1).
    NistCurve,
    /// EC2 keys on this curve.
    Ec2(EllipticCurve),
    /// OKP keys on Ed25519 or Ed448 (RFC 9053, section 2.2).
    EdwardsCurve,
    /// OKP keys on this curve.
    Okp(EllipticCurve),
    /// RSA keys of at least 2048 bits (RFC 8230, section 6.1; RFC 8812, section 2).
    Rsa,
    /// HSS/LMS keys (RFC 8778).
    HssLms,
    /// WalnutDSA keys (RFC 9021).
    WalnutDsa,
    /// AKP keys, with a public key of this many bytes.
    Akp(usize),
    /// Symmetric keys of this many bytes.
    Symmetric(usize),
    /// Symmetric keys of this many bytes or more.
    SymmetricFrom(usize),
}

/// What the table has for an algorithm.
#[derive(Clone, Copy, Debug, PartialEq, Eq)]
pub struct Row {
    /// The form of the layers that the algorithm is for, without a list. It is also for the form
    /// with a list ([`is_for`](crate::is_for)).
    pub form: Form,
    /// The keys that it takes.
    pub keys: KeyKind,
    /// The length of a MAC, or of the tag at the end of a ciphertext, in bytes; 0 for signatures.
    pub tag: usize,
    /// The length of the nonce, in bytes; 0 if the algorithm has none.
    pub nonce: usize,
}

/// Returns the row of an algorithm for signatures.
fn signature_row(algorithm: Algorithm) -> Option<Row>
    ensures { result ≡ of_form Sign1 (row_for algorithm) }
{
    let keys = match algorithm {
        Algorithm::ES256 | Algorithm::ES384 | Algorithm::ES512 => KeyKind::NistCurve,
        Algorithm::ES256K => KeyKind::Ec2(EllipticCurve::Secp256k1),
        Algorithm::ESP256 => KeyKind::Ec2(EllipticCurve::P_256),
        Algorithm::ESP384 => KeyKind::Ec2(EllipticCurve::P_384),
        Algorithm::ESP512 => KeyKind::Ec2(EllipticCurve::P_521),
        Algorithm::ESB256 => KeyKind::Ec2(EllipticCurve::BrainpoolP256R1),
        Algorithm::ESB320 => KeyKind::Ec2(EllipticCurve::BrainpoolP320R1),
        Algorithm::ESB384 => KeyKind::Ec2(EllipticCurve::BrainpoolP384R1),
        Algorithm::ESB512 => KeyKind::Ec2(EllipticCurve::BrainpoolP512R1),
        Algorithm::EdDSA => KeyKind::EdwardsCurve,
        Algorithm::Ed25519 => KeyKind::Okp(EllipticCurve::Ed25519),
        Algorithm::Ed448 => KeyKind::Okp(EllipticCurve::Ed448),
        Algorithm::PS256 | Algorithm::PS384 | Algorithm::PS512 => KeyKind::Rsa,
        Algorithm::RS256 | Algorithm::RS384 | Algorithm::RS512 => KeyKind::Rsa,
        Algorithm::HSS_LMS => KeyKind::HssLms,
        Algorithm::WalnutDSA => KeyKind::WalnutDsa,
        Algorithm::ML_DSA_44 => KeyKind::Akp(1312),
        Algorithm::ML_DSA_65 => KeyKind::Akp(1952),
        Algorithm::ML_DSA_87 => KeyKind::Akp(2592),
        _ => return None,
    };
    Some(Row {
        form: Form::Sign1,
        keys,
        tag: 0,
        nonce: 0,
    })
}

/// Returns the row of a MAC algorithm.
fn mac_row(algorithm: Algorithm) -> Option<Row>
    ensures { result ≡ of_form Mac0 (row_for algorithm) }
{
    let (keys, tag) = match algorithm {
        Algorithm::HMAC_256_64 => (KeyKind::SymmetricFrom(32), 8),
        Algorithm::HMAC_256_256 => (KeyKind::SymmetricFrom(32), 32),
        Algorithm::HMAC_384_384 => (KeyKind::SymmetricFrom(48), 48),
        Algorithm::HMAC_512_512 => (KeyKind::SymmetricFrom(64), 64),
        Algorithm::AES_MAC_128_64 => (KeyKind::Symmetric(16), 8),
        Algorithm::AES_MAC_256_64 => (KeyKind::Symmetric(32), 8),
        Algorithm::AES_MAC_128_128 => (KeyKind::Symmetric(16), 16),
        Algorithm::AES_MAC_256_128 => (KeyKind::Symmetric(32), 16),
        _ => return None,
    };
    Some(Row {
        form: Form::Mac0,
        keys,
        tag,
        nonce: 0,
    })
}

/// Returns the row of an algorithm for encryption.
fn cipher_row(algorithm: Algorithm) -> Option<Row>
    ensures { result ≡ of_form Encrypt0 (row_for algorithm) }
{
    let (key, tag, nonce) = match algorithm {
        Algorithm::A128GCM => (16, 16, 12),
        Algorithm::A192GCM => (24, 16, 12),
        Algorithm::A256GCM => (32, 16, 12),
        Algorithm::ChaCha20Poly1305 => (32, 16, 12),
        Algorithm::AES_CCM_16_64_128 => (16, 8, 13),
        Algorithm::AES_CCM_16_64_256 => (32, 8, 13),
        Algorithm::AES_CCM_64_64_128 => (16, 8, 7),
        Algorithm::AES_CCM_64_64_256 => (32, 8, 7),
        Algorithm::AES_CCM_16_128_128 => (16, 16, 13),
        Algorithm::AES_CCM_16_128_256 => (32, 16, 13),
        Algorithm::AES_CCM_64_128_128 => (16, 16, 7),
        Algorithm::AES_CCM_64_128_256 => (32, 16, 7),
        _ => return None,
    };
    Some(Row {
        form: Form::Encrypt0,
        keys: KeyKind::Symmetric(key),
        tag,
        nonce,
    })
}

/// Returns what the table has for this algorithm, or `None` if it has nothing.
pub fn row_for(algorithm: Algorithm) -> Option<Row>
    ensures { result ≡ row_for algorithm }
{
    if let Some(row) = signature_row(algorithm) {
        return Some(row);
    }
    if let Some(row) = mac_row(algorithm) {
        return Some(row);
    }
    cipher_row(algorithm)
}
