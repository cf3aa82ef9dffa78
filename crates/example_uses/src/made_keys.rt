//! Makes keys of each type (RFC 8152, section 13; FIPS 204).

ghost use Rattle.std.specs.Prelude.{◌≡◌, IfOk, IfErr};
ghost use Rattle.coset_value.specs.Item.{bytes};
ghost use Rattle.coset_iana.specs.Algorithm as algorithms;
ghost use Rattle.coset_iana.specs.declared.algorithms.Algorithm.TheVariants.{ES256};
ghost use Rattle.coset_iana.specs.declared.keys.EllipticCurve.TheVariants.{P_256};
ghost use Rattle.coset_codec.specs.declared.error.CoseError.TheVariants.{OutOfMemory};
ghost use Rattle.coset_label.specs.LabelData.{assigned};
ghost use Rattle.coset_key.specs.Keys.{key_view};
ghost use Rattle.coset_key.specs.KeyBuilt.{ec2_key, ml_dsa_key, symmetric_key, with_algorithm, with_key_id};
ghost use Rattle.coset_key.specs.declared.ml_dsa.MlDsaVariant.TheVariants.{MlDsa44};
ghost use Rattle.example_uses.specs.MadeKeys.{ed25519_key};

use coset::cbor::value::Value;
use coset::iana::{Algorithm, EllipticCurve, EnumI64, OkpKeyParameter};
use coset::{CoseKey, CoseKeyBuilder, MlDsaVariant, Result};
use std::alloc::Global;

/// Makes the public key of a point on P-256, for ES256.
///
/// # Errors
/// `OutOfMemory` if an allocation fails.
pub fn p256_key(alloc: Global, key_id: &[u8], x: Vec<u8>, y: Vec<u8>) -> Result<CoseKey>
    ensures made { IfOk result (λ k. key_view k ≡ with_key_id key_id.now (with_algorithm
        (assigned (algorithms.number ES256)) (ec2_key P_256 x.items (bytes y.items)))) }
    ensures memory { IfErr result (λ e. e ≡ OutOfMemory) }
{
    let key = CoseKeyBuilder::new_ec2_pub_key(alloc, EllipticCurve::P_256, x, y)?
        .algorithm(Algorithm::ES256)
        .key_id_from(alloc, key_id)?;
    Ok(key.build())
}

/// Makes a public key for Ed25519: an octet key pair, whose parameters are set one by one.
///
/// # Errors
/// `OutOfMemory` if an allocation fails.
pub fn ed25519_key(alloc: Global, key_id: &[u8], x: Vec<u8>) -> Result<CoseKey>
    ensures made { IfOk result (λ k. key_view k ≡ ed25519_key key_id.now x.items) }
    ensures memory { IfErr result (λ e. e ≡ OutOfMemory) }
{
    let curve = Value::from(EllipticCurve::Ed25519.to_i64());
    let key = CoseKeyBuilder::new_okp_key(alloc)
        .param(OkpKeyParameter::Crv.to_i64(), curve)?
        .param(OkpKeyParameter::X.to_i64(), Value::Bytes(x))?
        .key_id_from(alloc, key_id)?;
    Ok(key.build())
}

/// Makes a symmetric key for this algorithm.
///
/// # Errors
/// `OutOfMemory` if an allocation fails.
pub fn shared_key(alloc: Global, algorithm: Algorithm, key_id: &[u8], k: Vec<u8>) -> Result<CoseKey>
    ensures made { IfOk result (λ k'. key_view k' ≡ with_key_id key_id.now (with_algorithm
        (assigned (algorithms.number algorithm)) (symmetric_key k.items))) }
    ensures memory { IfErr result (λ e. e ≡ OutOfMemory) }
{
    let key = CoseKeyBuilder::new_symmetric_key(alloc, k)?
        .algorithm(algorithm)
        .key_id_from(alloc, key_id)?;
    Ok(key.build())
}

/// Makes a public key for ML-DSA-44, which names the algorithm too.
///
/// # Errors
/// `OutOfMemory` if an allocation fails.
pub fn ml_dsa_key(alloc: Global, key_id: &[u8], public: Vec<u8>) -> Result<CoseKey>
    ensures made { IfOk result (λ k. key_view k ≡ with_key_id key_id.now
        (ml_dsa_key MlDsa44 public.items)) }
    ensures memory { IfErr result (λ e. e ≡ OutOfMemory) }
{
    let key = CoseKeyBuilder::new_mldsa_pub_key(alloc, MlDsaVariant::MlDsa44, public)?.key_id_from(
        alloc, key_id,
    )?;
    Ok(key.build())
}
