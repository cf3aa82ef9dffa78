//! Which key fits a layer (RFC 9052, section 7; RFC 8725, section 3.1).

ghost use Rattle.std.specs.Prelude.{◌≡◌, ◌≤◌, IfSome, option_map};
ghost use Rattle.coset.specs.Keys.{key_view};
ghost use Rattle.coset_iana.specs.Algorithm as algorithms;
ghost use Rattle.cwt_keys.specs.Sealed.{key_id_of, seal_view};
ghost use Rattle.cwt_keys.specs.Table.{of_form};
ghost use Rattle.cwt_ring.specs.Fits.{fits, has_operation, has_proof_length, is_key_for, may_be, nonce_by, nonce_view, permits, row_numbered, suits};

use crate::kind::is_of_kind;
use crate::nonce::{Nonce, nonce_for};
use crate::signature::has_signature_length;
use coset::iana::{Algorithm, EnumI64, KeyOperation};
use coset::{CoseKey, RegisteredLabel, RegisteredLabelWithPrivate};
use cwt_keys::{Form, Row, Sealed, is_for, row_for};

/// Returns the row of the algorithm, if it is for layers of this form.
fn row_of_form(algorithm: Algorithm, form: Form) -> Option<Row>
    ensures is { result ≡ of_form form (row_numbered (algorithms.number algorithm)) }
    ensures short { IfSome result (λ r. r.nonce ≤ 13) }
{
    if is_for(algorithm, form) {
        row_for(algorithm)
    } else {
        None
    }
}

/// Returns true if the key is for this algorithm alone (RFC 8725, section 3.1).
fn is_key_for(key: &CoseKey, algorithm: Algorithm) -> bool
    ensures { result ≡ is_key_for (algorithms.number algorithm) (key_view key.now).alg }
{
    match &key.alg {
        Some(RegisteredLabelWithPrivate::Assigned(own)) => algorithm.to_i64() == own.to_i64(),
        _ => false,
    }
}

/// Returns true if the key lists this operation.
fn has_operation(key: &CoseKey, operation: KeyOperation) -> bool
    ensures { result ≡ has_operation (key_view key.now).key_ops operation }
{
    key.key_ops.contains(&RegisteredLabel::Assigned(operation))
}

/// Returns true if the key may be used for layers of this form (RFC 9052, section 7.1).
fn permits(key: &CoseKey, form: Form) -> bool
    ensures { result ≡ permits form (key_view key.now).key_ops }
{
    if key.key_ops.is_empty() {
        return true;
    }
    match form {
        Form::Sign1 | Form::Sign => has_operation(key, KeyOperation::Verify),
        Form::Mac0 | Form::Mac => has_operation(key, KeyOperation::MacVerify),
        Form::Encrypt0 | Form::Encrypt => {
            has_operation(key, KeyOperation::Decrypt) || has_operation(key, KeyOperation::UnwrapKey)
        }
    }
}

/// Returns true if the signature has a length that the key gives, the MAC has the length of the
/// row, or the ciphertext has room for its tag.
fn has_proof_length(row: Row, key: &CoseKey, proof: &[u8]) -> bool
    ensures { result ≡ has_proof_length row.form row (key_view key.now) proof.now }
{
    match row.form {
        Form::Sign1 | Form::Sign => has_signature_length(key, row.keys, proof),
        Form::Mac0 | Form::Mac => proof.len() == row.tag,
        Form::Encrypt0 | Form::Encrypt => row.tag <= proof.len(),
    }
}

/// Returns true if the layer names no key, or this one (RFC 9052, section 3.1).
fn may_be(key: &CoseKey, sealed: &Sealed<'_>) -> bool
    ensures { result ≡ may_be (key_id_of (seal_view sealed.now)) (key_view key.now).key_id }
{
    let named = sealed.key_id();
    named.is_empty() || key.key_id.as_slice() == named
}

/// Returns true if the key and the layer are as the row requires.
fn suits(row: Row, key: &CoseKey, sealed: &Sealed<'_>) -> bool
    ensures { result ≡ suits row (key_view key.now) (seal_view sealed.now) }
{
    is_of_kind(key, row.keys) && permits(key, row.form) && has_proof_length(row, key, sealed.proof)
}

/// Returns the nonce by which the key opens the layer, or `None` if there is none.
fn nonce_by(row: Row, key: &CoseKey, sealed: &Sealed<'_>) -> Option<Nonce>
    requires { row.nonce ≤ 13 }
    ensures { option_map nonce_view result
        ≡ nonce_by row.form row.nonce (key_view key.now) (seal_view sealed.now) }
{
    match row.form {
        Form::Encrypt0 | Form::Encrypt => nonce_for(
            sealed.iv(),
            sealed.partial_iv(),
            &key.base_iv,
            row.nonce,
        ),
        _ => Some(Nonce::empty()),
    }
}

/// Returns the nonce by which the key fits a layer, or `None` if it doesn't fit. The nonce is empty
/// if the algorithm has none.
///
/// A key fits if all of these hold:
///
/// - The layer names no key identifier, or that of the key. That of a `COSE_Mac` or `COSE_Encrypt`
///   is in its recipient. Of a key with another identifier, nothing else is looked at.
/// - Its `alg` is the algorithm in the layer's protected header (RFC 8725, section 3.1). IANA
///   assigned the algorithm's number, and the table of `cwt_keys` has a row for it, of the layer's
///   form.
/// - Its `kty`, its curve and the lengths of its members are those of the row (RFC 9053, section
///   7). Of HSS-LMS and WalnutDSA keys, the members are checked by type alone. Of several params
///   with the same label, the first counts.
/// - Its `key_ops` are absent, or contain an operation for layers of this form (RFC 9052, section
///   7.1).
/// - A signature has the length that its key gives. By ECDSA that is twice the length of a
///   coordinate (RFC 9053, section 2.1). By EdDSA it is 64 bytes for Ed25519 and 114 for Ed448 (RFC
///   8032, sections 5.1.6 and 5.2.6). By RSA it is the length of n (RFC 8017, sections 8.1.2 and
///   8.2.2). By HSS-LMS, WalnutDSA and ML-DSA, any length fits.
/// - A MAC has exactly the length of the row, and a ciphertext is at least as long as its tag.
/// - For a ciphertext, the layer has an IV of the row's length. Or it has no IV but a Partial IV of
///   at most that length, and the key has a Base IV of exactly that length (RFC 9052, section 3.1).
pub fn fits(key: &CoseKey, sealed: &Sealed<'_>) -> Option<Nonce>
    ensures { option_map nonce_view result ≡ fits (key_view key.now) (seal_view sealed.now) }
{
    if !may_be(key, sealed) {
        return None;
    }
    let algorithm = sealed.algorithm()?;
    let row = row_of_form(algorithm, sealed.form)?;
    if is_key_for(key, algorithm) && suits(row, key, sealed) {
        nonce_by(row, key, sealed)
    } else {
        None
    }
}
