//! The bytes that are hashed (RFC 9679, sections 3 and 4).

ghost use Rattle.std.specs.Prelude.{[], ◌∷◌, pos};
ghost use Rattle.coset.specs.Keys.{key_view};
ghost use Rattle.coset.specs.LabelData.{number};
ghost use Rattle.cose_thumbprint.specs.Thumbprint.{GivesInput, byte_string, ec2, map_of_members, okp, required_map, rsa};

use crate::encoding::encode;
use crate::error::ThumbprintError;
use crate::member::{find_bytes, find_curve, find_y};
use coset::iana::{
    Ec2KeyParameter, EnumI64, HssLmsKeyParameter, KeyType, OkpKeyParameter, RsaKeyParameter,
    SymmetricKeyParameter,
};
use coset::{CoseKey, RegisteredLabel};
use std::alloc::Global;

/// Encodes an octet key pair: its curve and its public key.
fn octet_key_pair(alloc: Global, key: &CoseKey) -> Result<Vec<u8>, ThumbprintError>
    ensures { GivesInput (map_of_members (number (pos 1)) (key_view key.now) okp) result }
{
    let crv = find_curve(key, OkpKeyParameter::Crv.to_i64())?;
    let x = find_bytes(key, OkpKeyParameter::X.to_i64())?;
    encode(alloc, KeyType::OKP.to_i64(), &[crv, x])
}

/// Encodes an elliptic curve key with two coordinates: its curve and the coordinates.
fn elliptic_curve(alloc: Global, key: &CoseKey) -> Result<Vec<u8>, ThumbprintError>
    ensures { GivesInput (map_of_members (number (pos 2)) (key_view key.now) ec2) result }
{
    let crv = find_curve(key, Ec2KeyParameter::Crv.to_i64())?;
    let x = find_bytes(key, Ec2KeyParameter::X.to_i64())?;
    let y = find_y(key, Ec2KeyParameter::Y.to_i64())?;
    encode(alloc, KeyType::EC2.to_i64(), &[crv, x, y])
}

/// Encodes an RSA key: its modulus and its public exponent.
fn rsa(alloc: Global, key: &CoseKey) -> Result<Vec<u8>, ThumbprintError>
    ensures { GivesInput (map_of_members (number (pos 3)) (key_view key.now) rsa) result }
{
    let n = find_bytes(key, RsaKeyParameter::N.to_i64())?;
    let e = find_bytes(key, RsaKeyParameter::E.to_i64())?;
    encode(alloc, KeyType::RSA.to_i64(), &[n, e])
}

/// Encodes a key of type `kty` with one required member, which is a byte string.
fn single(alloc: Global, key: &CoseKey, kty: i64, label: i64) -> Result<Vec<u8>, ThumbprintError>
    ensures { GivesInput (map_of_members (number kty) (key_view key.now)
        ((label, byte_string) ∷ [])) result }
{
    let member = find_bytes(key, label)?;
    encode(alloc, kty, &[member])
}

/// Returns the bytes that are hashed for the thumbprint of a key (RFC 9679, section 3).
///
/// They are the deterministic encoding (RFC 8949, section 4.2.1) of the map of `kty` and the
/// members that the key type requires:
///
/// - `crv` and `x` of an OKP key;
/// - `crv`, `x` and `y` of an EC2 key;
/// - `n` and `e` of an RSA key;
/// - `k` of a symmetric key;
/// - `pub` of an HSS-LMS key.
///
/// `crv` is an integer, and the other members are byte strings. A curve named by a text (RFC 8152,
/// section 13.1) has no thumbprint. For each member the first param with its label counts. All else
/// in the key is ignored. The function checks neither the curve nor the lengths.
///
/// The bytes for a symmetric key contain the key, so they must stay secret.
///
/// # Errors
/// - `OtherKeyType` if the key type is none of these, or a text.
/// - `MissingMember` if a required member is missing.
/// - `InvalidMemberType` if the value of a required member has another type.
/// - `CompressedPoint` if `y` of an EC2 key is only its sign.
/// - `OutOfMemory` if an allocation fails, for a key without these faults.
///
/// If several members are at fault, the error is that of the first in the order above.
pub fn thumbprint_input(alloc: Global, key: &CoseKey) -> Result<Vec<u8>, ThumbprintError>
    ensures { GivesInput (required_map (key_view key.now)) result }
{
    let RegisteredLabel::Assigned(kty) = &key.kty else {
        return Err(ThumbprintError::OtherKeyType);
    };
    match *kty {
        KeyType::OKP => octet_key_pair(alloc, key),
        KeyType::EC2 => elliptic_curve(alloc, key),
        KeyType::RSA => rsa(alloc, key),
        KeyType::Symmetric => single(alloc, key, kty.to_i64(), SymmetricKeyParameter::K.to_i64()),
        KeyType::HSS_LMS => single(alloc, key, kty.to_i64(), HssLmsKeyParameter::Pub.to_i64()),
        KeyType::Reserved | KeyType::WalnutDSA | KeyType::AKP => Err(ThumbprintError::OtherKeyType),
    }
}
