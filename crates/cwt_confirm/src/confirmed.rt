//! The kinds of confirmations (RFC 8747, section 3.1).

use crate::encrypted::EncryptedKey;
use coset::CoseKey;

/// The key that the sender of a token must prove to possess: the claim `cnf` (RFC 8747, section
/// 3.1).
#[derive(Debug, Drop)]
pub enum Confirmation {
    /// A public key, or a symmetric key that a layer encrypts: `COSE_Key` (section 3.2). Whether
    /// signatures that weren't accepted, or countersignatures, show a symmetric key isn't checked.
    ///
    /// The key has the members that its type requires. `fits` of `cwt_ring` checks their lengths
    /// and the curve (RFC 9053, section 7.1). Here a symmetric key may be empty.
    Key(CoseKey),
    /// A key that the caller must decrypt: `Encrypted_COSE_Key` (section 3.3). The plaintext is the
    /// encoded `COSE_Key`. Nothing of the message or of that key is checked.
    EncryptedKey(EncryptedKey),
    /// The identifier of a key that the caller has: `kid` (section 3.4). It isn't empty. Several
    /// keys may have the same identifier.
    KeyId(Vec<u8>),
}
