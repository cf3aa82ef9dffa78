//! Algorithms.

ghost use Rattle.std.specs.Prelude.{Some, refl};
ghost use Rattle.coset_iana.specs.WithPrivateRange.{is_private_use};

use crate::registry::Registry;
use crate::{Named, WithPrivateRange};
use std::fmt;

/// Algorithms below this number are for private use (RFC 8152, section 16.4).
pub const ALGORITHM_PRIVATE_USE_MAX: i64 = -65536;

/// An algorithm, as IANA's registry "COSE Algorithms" assigns it (RFC 8152, sections 8 to 12 and
/// 16.4; RFC 9053).
#[derive(Clone, Copy, Debug, Eq, Ord, PartialEq, PartialOrd)]
#[allow(non_camel_case_types)]
pub enum Algorithm {
    /// RSASSA-PKCS1-v1_5 with SHA-1.
    RS1 = -65535,
    /// AES-CTR with a key of 128 bits.
    AesCtr128 = -65534,
    /// AES-CTR with a key of 192 bits.
    AesCtr192 = -65533,
    /// AES-CTR with a key of 256 bits.
    AesCtr256 = -65532,
    /// AES-CBC with a key of 128 bits.
    AesCbc128 = -65531,
    /// AES-CBC with a key of 192 bits.
    AesCbc192 = -65530,
    /// AES-CBC with a key of 256 bits.
    AesCbc256 = -65529,
    /// ECDSA on brainpoolP512r1 with SHA-512.
    ESB512 = -268,
    /// ECDSA on brainpoolP384r1 with SHA-384.
    ESB384 = -267,
    /// ECDSA on brainpoolP320r1 with SHA-384.
    ESB320 = -266,
    /// ECDSA on brainpoolP256r1 with SHA-256.
    ESB256 = -265,
    /// WalnutDSA (RFC 9021).
    WalnutDSA = -260,
    /// RSASSA-PKCS1-v1_5 with SHA-512.
    RS512 = -259,
    /// RSASSA-PKCS1-v1_5 with SHA-384.
    RS384 = -258,
    /// RSASSA-PKCS1-v1_5 with SHA-256.
    RS256 = -257,
    /// EdDSA on Ed448.
    Ed448 = -53,
    /// ECDSA on P-521 with SHA-512.
    ESP512 = -52,
    /// ECDSA on P-384 with SHA-384.
    ESP384 = -51,
    /// ML-DSA-87 (FIPS 204).
    ML_DSA_87 = -50,
    /// ML-DSA-65 (FIPS 204).
    ML_DSA_65 = -49,
    /// ML-DSA-44 (FIPS 204).
    ML_DSA_44 = -48,
    /// ECDSA on secp256k1 with SHA-256 (RFC 8812, section 3.2).
    ES256K = -47,
    /// HSS/LMS, a hash-based signature (RFC 8778).
    HSS_LMS = -46,
    /// SHAKE-256 with an output of 512 bits (RFC 9054, section 3.3).
    SHAKE256 = -45,
    /// SHA-512 (RFC 9054, section 3.2).
    SHA_512 = -44,
    /// SHA-384 (RFC 9054, section 3.2).
    SHA_384 = -43,
    /// RSAES-OAEP with SHA-512 (RFC 8230, section 3).
    RSAES_OAEP_SHA_512 = -42,
    /// RSAES-OAEP with SHA-256 (RFC 8230, section 3).
    RSAES_OAEP_SHA_256 = -41,
    /// RSAES-OAEP with the default parameters of RFC 8017 (RFC 8230, section 3).
    RSAES_OAEP_RFC_8017_default = -40,
    /// RSASSA-PSS with SHA-512 (RFC 8230, section 2).
    PS512 = -39,
    /// RSASSA-PSS with SHA-384 (RFC 8230, section 2).
    PS384 = -38,
    /// RSASSA-PSS with SHA-256 (RFC 8230, section 2).
    PS256 = -37,
    /// ECDSA with SHA-512, on any curve.
    ES512 = -36,
    /// ECDSA with SHA-384, on any curve.
    ES384 = -35,
    /// ECDH with two static keys, then AES key wrap with a key of 256 bits.
    ECDH_SS_A256KW = -34,
    /// ECDH with two static keys, then AES key wrap with a key of 192 bits.
    ECDH_SS_A192KW = -33,
    /// ECDH with two static keys, then AES key wrap with a key of 128 bits.
    ECDH_SS_A128KW = -32,
    /// ECDH with an ephemeral key, then AES key wrap with a key of 256 bits.
    ECDH_ES_A256KW = -31,
    /// ECDH with an ephemeral key, then AES key wrap with a key of 192 bits.
    ECDH_ES_A192KW = -30,
    /// ECDH with an ephemeral key, then AES key wrap with a key of 128 bits.
    ECDH_ES_A128KW = -29,
    /// ECDH with two static keys, from which HKDF with SHA-512 derives the key.
    ECDH_SS_HKDF_512 = -28,
    /// ECDH with two static keys, from which HKDF with SHA-256 derives the key.
    ECDH_SS_HKDF_256 = -27,
    /// ECDH with an ephemeral key, from which HKDF with SHA-512 derives the key.
    ECDH_ES_HKDF_512 = -26,
    /// ECDH with an ephemeral key, from which HKDF with SHA-256 derives the key.
    ECDH_ES_HKDF_256 = -25,
    /// EdDSA on Ed25519.
    Ed25519 = -19,
    /// SHAKE-128 with an output of 256 bits (RFC 9054, section 3.3).
    SHAKE128 = -18,
    /// SHA-512/256 (RFC 9054, section 3.2).
    SHA_512_256 = -17,
    /// SHA-256 (RFC 9054, section 3.2).
    SHA_256 = -16,
    /// SHA-256, truncated to 64 bits (RFC 9054, section 3.2).
    SHA_256_64 = -15,
    /// SHA-1 (RFC 9054, section 3.1).
    SHA_1 = -14,
    /// A shared secret, from which HKDF with AES-MAC (256-bit key) derives the key.
    Direct_HKDF_AES_256 = -13,
    /// A shared secret, from which HKDF with AES-MAC (128-bit key) derives the key.
    Direct_HKDF_AES_128 = -12,
    /// A shared secret, from which HKDF with SHA-512 derives the key.
    Direct_HKDF_SHA_512 = -11,
    /// A shared secret, from which HKDF with SHA-256 derives the key.
    Direct_HKDF_SHA_256 = -10,
    /// ECDSA on P-256 with SHA-256.
    ESP256 = -9,
    /// EdDSA on Ed25519 or Ed448.
    EdDSA = -8,
    /// ECDSA with SHA-256, on any curve.
    ES256 = -7,
    /// The shared secret itself is the content key.
    Direct = -6,
    /// AES key wrap with a key of 256 bits.
    A256KW = -5,
    /// AES key wrap with a key of 192 bits.
    A192KW = -4,
    /// AES key wrap with a key of 128 bits.
    A128KW = -3,
    /// Never an algorithm; reserved.
    Reserved = 0,
    /// AES-GCM with a 128-bit key and a 128-bit tag.
    A128GCM = 1,
    /// AES-GCM with a 192-bit key and a 128-bit tag.
    A192GCM = 2,
    /// AES-GCM with a 256-bit key and a 128-bit tag.
    A256GCM = 3,
    /// HMAC with SHA-256, truncated to 64 bits.
    HMAC_256_64 = 4,
    /// HMAC with SHA-256.
    HMAC_256_256 = 5,
    /// HMAC with SHA-384.
    HMAC_384_384 = 6,
    /// HMAC with SHA-512.
    HMAC_512_512 = 7,
    /// AES-CCM with a 128-bit key, a 64-bit tag and a 13-byte nonce.
    AES_CCM_16_64_128 = 10,
    /// AES-CCM with a 256-bit key, a 64-bit tag and a 13-byte nonce.
    AES_CCM_16_64_256 = 11,
    /// AES-CCM with a 128-bit key, a 64-bit tag and a 7-byte nonce.
    AES_CCM_64_64_128 = 12,
    /// AES-CCM with a 256-bit key, a 64-bit tag and a 7-byte nonce.
    AES_CCM_64_64_256 = 13,
    /// AES-CBC-MAC with a 128-bit key and a 64-bit tag.
    AES_MAC_128_64 = 14,
    /// AES-CBC-MAC with a 256-bit key and a 64-bit tag.
    AES_MAC_256_64 = 15,
    /// ChaCha20 and Poly1305 with a 256-bit key and a 128-bit tag.
    ChaCha20Poly1305 = 24,
    /// AES-CBC-MAC with a 128-bit key and a 128-bit tag.
    AES_MAC_128_128 = 25,
    /// AES-CBC-MAC with a 256-bit key and a 128-bit tag.
    AES_MAC_256_128 = 26,
    /// AES-CCM with a 128-bit key, a 128-bit tag and a 13-byte nonce.
    AES_CCM_16_128_128 = 30,
    /// AES-CCM with a 256-bit key, a 128-bit tag and a 13-byte nonce.
    AES_CCM_16_128_256 = 31,
    /// AES-CCM with a 128-bit key, a 128-bit tag and a 7-byte nonce.
    AES_CCM_64_128_128 = 32,
    /// AES-CCM with a 256-bit key, a 128-bit tag and a 7-byte nonce.
    AES_CCM_64_128_256 = 33,
    /// Generates initialization vectors for symmetric algorithms (RFC 9053, section 10.2).
    IV_GENERATION = 34,
}

/// The algorithms, in ascending order of their numbers.
pub const ALGORITHMS: [Algorithm; 83] = [
    Algorithm::RS1,
    Algorithm::AesCtr128,
    Algorithm::AesCtr192,
    Algorithm::AesCtr256,
    Algorithm::AesCbc128,
    Algorithm::AesCbc192,
    Algorithm::AesCbc256,
    Algorithm::ESB512,
    Algorithm::ESB384,
    Algorithm::ESB320,
    Algorithm::ESB256,
    Algorithm::WalnutDSA,
    Algorithm::RS512,
    Algorithm::RS384,
    Algorithm::RS256,
    Algorithm::Ed448,
    Algorithm::ESP512,
    Algorithm::ESP384,
    Algorithm::ML_DSA_87,
    Algorithm::ML_DSA_65,
    Algorithm::ML_DSA_44,
    Algorithm::ES256K,
    Algorithm::HSS_LMS,
    Algorithm::SHAKE256,
    Algorithm::SHA_512,
    Algorithm::SHA_384,
    Algorithm::RSAES_OAEP_SHA_512,
    Algorithm::RSAES_OAEP_SHA_256,
    Algorithm::RSAES_OAEP_RFC_8017_default,
    Algorithm::PS512,
    Algorithm::PS384,
    Algorithm::PS256,
    Algorithm::ES512,
    Algorithm::ES384,
    Algorithm::ECDH_SS_A256KW,
    Algorithm::ECDH_SS_A192KW,
    Algorithm::ECDH_SS_A128KW,
    Algorithm::ECDH_ES_A256KW,
    Algorithm::ECDH_ES_A192KW,
    Algorithm::ECDH_ES_A128KW,
    Algorithm::ECDH_SS_HKDF_512,
    Algorithm::ECDH_SS_HKDF_256,
    Algorithm::ECDH_ES_HKDF_512,
    Algorithm::ECDH_ES_HKDF_256,
    Algorithm::Ed25519,
    Algorithm::SHAKE128,
    Algorithm::SHA_512_256,
    Algorithm::SHA_256,
    Algorithm::SHA_256_64,
    Algorithm::SHA_1,
    Algorithm::Direct_HKDF_AES_256,
    Algorithm::Direct_HKDF_AES_128,
    Algorithm::Direct_HKDF_SHA_512,
    Algorithm::Direct_HKDF_SHA_256,
    Algorithm::ESP256,
    Algorithm::EdDSA,
    Algorithm::ES256,
    Algorithm::Direct,
    Algorithm::A256KW,
    Algorithm::A192KW,
    Algorithm::A128KW,
    Algorithm::Reserved,
    Algorithm::A128GCM,
    Algorithm::A192GCM,
    Algorithm::A256GCM,
    Algorithm::HMAC_256_64,
    Algorithm::HMAC_256_256,
    Algorithm::HMAC_384_384,
    Algorithm::HMAC_512_512,
    Algorithm::AES_CCM_16_64_128,
    Algorithm::AES_CCM_16_64_256,
    Algorithm::AES_CCM_64_64_128,
    Algorithm::AES_CCM_64_64_256,
    Algorithm::AES_MAC_128_64,
    Algorithm::AES_MAC_256_64,
    Algorithm::ChaCha20Poly1305,
    Algorithm::AES_MAC_128_128,
    Algorithm::AES_MAC_256_128,
    Algorithm::AES_CCM_16_128_128,
    Algorithm::AES_CCM_16_128_256,
    Algorithm::AES_CCM_64_128_128,
    Algorithm::AES_CCM_64_128_256,
    Algorithm::IV_GENERATION,
];

impl Registry for Algorithm {
    ghost use Rattle.coset_iana.specs.Algorithm.{number};
    ghost use Rattle.coset_iana.specs.declared.algorithms.Algorithm.TheVariants.{RS1};
    ghost use Rattle.coset_iana.specs.declared.algorithms.TheConstants.{ALGORITHMS};

    ghost number = { number };

    ghost values = { ALGORITHMS };

    ghost ascending = { refl };

    ghost has_each = { elim [ RS1 ↦ refl | _ ↦ refl ] };

    const NEGATIVES: i64 = 61;

    const LAST_NEGATIVE: i64 = -3;

    fn values() -> &'static [Algorithm] {
        &ALGORITHMS
    }

    fn number(self) -> i64 {
        self as i64
    }
}

impl Named for Algorithm {
    ghost use Rattle.coset_iana.specs.Algorithm.{name};

    ghost name = { name };

    fn name(&self) -> &'static str {
        match self {
            Algorithm::RS1 => "RS1",
            Algorithm::AesCtr128 => "A128CTR",
            Algorithm::AesCtr192 => "A192CTR",
            Algorithm::AesCtr256 => "A256CTR",
            Algorithm::AesCbc128 => "A128CBC",
            Algorithm::AesCbc192 => "A192CBC",
            Algorithm::AesCbc256 => "A256CBC",
            Algorithm::ESB512 => "ESB512",
            Algorithm::ESB384 => "ESB384",
            Algorithm::ESB320 => "ESB320",
            Algorithm::ESB256 => "ESB256",
            Algorithm::WalnutDSA => "WalnutDSA",
            Algorithm::RS512 => "RS512",
            Algorithm::RS384 => "RS384",
            Algorithm::RS256 => "RS256",
            Algorithm::Ed448 => "Ed448",
            Algorithm::ESP512 => "ESP512",
            Algorithm::ESP384 => "ESP384",
            Algorithm::ML_DSA_87 => "ML-DSA-87",
            Algorithm::ML_DSA_65 => "ML-DSA-65",
            Algorithm::ML_DSA_44 => "ML-DSA-44",
            Algorithm::ES256K => "ES256K",
            Algorithm::HSS_LMS => "HSS-LMS",
            Algorithm::SHAKE256 => "SHAKE256",
            Algorithm::SHA_512 => "SHA-512",
            Algorithm::SHA_384 => "SHA-384",
            Algorithm::RSAES_OAEP_SHA_512 => "RSAES-OAEP w/ SHA-512",
            Algorithm::RSAES_OAEP_SHA_256 => "RSAES-OAEP w/ SHA-256",
            Algorithm::RSAES_OAEP_RFC_8017_default => "RSAES-OAEP w/ RFC 8017 default parameters",
            Algorithm::PS512 => "PS512",
            Algorithm::PS384 => "PS384",
            Algorithm::PS256 => "PS256",
            Algorithm::ES512 => "ES512",
            Algorithm::ES384 => "ES384",
            Algorithm::ECDH_SS_A256KW => "ECDH-SS + A256KW",
            Algorithm::ECDH_SS_A192KW => "ECDH-SS + A192KW",
            Algorithm::ECDH_SS_A128KW => "ECDH-SS + A128KW",
            Algorithm::ECDH_ES_A256KW => "ECDH-ES + A256KW",
            Algorithm::ECDH_ES_A192KW => "ECDH-ES + A192KW",
            Algorithm::ECDH_ES_A128KW => "ECDH-ES + A128KW",
            Algorithm::ECDH_SS_HKDF_512 => "ECDH-SS + HKDF-512",
            Algorithm::ECDH_SS_HKDF_256 => "ECDH-SS + HKDF-256",
            Algorithm::ECDH_ES_HKDF_512 => "ECDH-ES + HKDF-512",
            Algorithm::ECDH_ES_HKDF_256 => "ECDH-ES + HKDF-256",
            Algorithm::Ed25519 => "Ed25519",
            Algorithm::SHAKE128 => "SHAKE128",
            Algorithm::SHA_512_256 => "SHA-512/256",
            Algorithm::SHA_256 => "SHA-256",
            Algorithm::SHA_256_64 => "SHA-256/64",
            Algorithm::SHA_1 => "SHA-1",
            Algorithm::Direct_HKDF_AES_256 => "direct+HKDF-AES-256",
            Algorithm::Direct_HKDF_AES_128 => "direct+HKDF-AES-128",
            Algorithm::Direct_HKDF_SHA_512 => "direct+HKDF-SHA-512",
            Algorithm::Direct_HKDF_SHA_256 => "direct+HKDF-SHA-256",
            Algorithm::ESP256 => "ESP256",
            Algorithm::EdDSA => "EdDSA",
            Algorithm::ES256 => "ES256",
            Algorithm::Direct => "direct",
            Algorithm::A256KW => "A256KW",
            Algorithm::A192KW => "A192KW",
            Algorithm::A128KW => "A128KW",
            Algorithm::Reserved => "Reserved",
            Algorithm::A128GCM => "A128GCM",
            Algorithm::A192GCM => "A192GCM",
            Algorithm::A256GCM => "A256GCM",
            Algorithm::HMAC_256_64 => "HMAC 256/64",
            Algorithm::HMAC_256_256 => "HMAC 256/256",
            Algorithm::HMAC_384_384 => "HMAC 384/384",
            Algorithm::HMAC_512_512 => "HMAC 512/512",
            Algorithm::AES_CCM_16_64_128 => "AES-CCM-16-64-128",
            Algorithm::AES_CCM_16_64_256 => "AES-CCM-16-64-256",
            Algorithm::AES_CCM_64_64_128 => "AES-CCM-64-64-128",
            Algorithm::AES_CCM_64_64_256 => "AES-CCM-64-64-256",
            Algorithm::AES_MAC_128_64 => "AES-MAC 128/64",
            Algorithm::AES_MAC_256_64 => "AES-MAC 256/64",
            Algorithm::ChaCha20Poly1305 => "ChaCha20/Poly1305",
            Algorithm::AES_MAC_128_128 => "AES-MAC 128/128",
            Algorithm::AES_MAC_256_128 => "AES-MAC 256/128",
            Algorithm::AES_CCM_16_128_128 => "AES-CCM-16-128-128",
            Algorithm::AES_CCM_16_128_256 => "AES-CCM-16-128-256",
            Algorithm::AES_CCM_64_128_128 => "AES-CCM-64-128-128",
            Algorithm::AES_CCM_64_128_256 => "AES-CCM-64-128-256",
            Algorithm::IV_GENERATION => "IV-GENERATION",
        }
    }
}

impl fmt::Display for Algorithm {
    ghost use Rattle.coset_iana.specs.Algorithm.{name};

    ghost output = { λ x. Some (name x) };

    fn fmt<W: fmt::Write>(&self, f: &mut fmt::Formatter<W>) -> fmt::Result {
        f.pad(self.name())
    }
}

impl WithPrivateRange for Algorithm {
    ghost is_private = { is_private_use };

    fn is_private(i: i64) -> bool {
        i < ALGORITHM_PRIVATE_USE_MAX
    }
}
