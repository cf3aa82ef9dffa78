//! The structure of a ciphertext's additional authenticated data (RFC 8152, section 5.3).

ghost use Rattle.std.specs.Prelude.{◌≡◌, IfOk, IfErr};
ghost use Rattle.coset_cbor.specs.Shortest.{IsShortest};
ghost use Rattle.coset_codec.specs.declared.error.CoseError.TheVariants.{OutOfMemory};
ghost use Rattle.coset_codec.specs.Results.{Writes};
ghost use Rattle.coset_core.specs.Views.{protected_view};
ghost use Rattle.coset_msg.specs.EncStructure.{enc_item, enc_structure};

use coset_codec::Result;
use coset_core::ProtectedHeader;
use coset_core::structure::structure_bytes;
use std::alloc::Global;

/// The context of a ciphertext (RFC 8152, section 5.3). The additional authenticated data contain
/// it, so the data of one context are never those of another.
#[derive(Clone, Copy, Debug, PartialEq, Eq)]
pub enum EncryptionContext {
    /// The content of a `COSE_Encrypt` message.
    CoseEncrypt,
    /// The content of a `COSE_Encrypt0` message.
    CoseEncrypt0,
    /// A recipient of a `COSE_Encrypt` message.
    EncRecipient,
    /// A recipient of a `COSE_Mac` message.
    MacRecipient,
    /// A recipient of a recipient.
    RecRecipient,
}

impl EncryptionContext {
    ghost use Rattle.coset_msg.specs.EncStructure.{enc_text};

    /// Returns the text of the context in the structure.
    fn text(self) -> &'static str
        ensures { result.now ≡ enc_text self }
    {
        match self {
            EncryptionContext::CoseEncrypt => "Encrypt",
            EncryptionContext::CoseEncrypt0 => "Encrypt0",
            EncryptionContext::EncRecipient => "Enc_Recipient",
            EncryptionContext::MacRecipient => "Mac_Recipient",
            EncryptionContext::RecRecipient => "Rec_Recipient",
        }
    }
}

/// Encodes the `Enc_structure` of these protected bytes.
///
/// # Errors
/// `OutOfMemory` if an allocation fails.
fn enc_structure_bytes(
    alloc: Global,
    context: EncryptionContext,
    protected: &[u8],
    external_aad: &[u8],
) -> Result<Vec<u8>>
    ensures encoding { IfOk result (λ b. IsShortest b.items
        (enc_structure context protected.now external_aad.now)) }
    ensures memory { IfErr result (λ e. e ≡ OutOfMemory) }
{
    structure_bytes(alloc, context.text(), &[protected, external_aad])
}

/// Encodes the `Enc_structure` of this header. Borrows kept bytes, and encodes a header without
/// kept bytes.
///
/// # Errors
/// The same as [`enc_structure_data`].
pub fn enc_structure_of(
    alloc: Global,
    context: EncryptionContext,
    protected: &ProtectedHeader,
    external_aad: &[u8],
) -> Result<Vec<u8>>
    ensures { Writes (enc_item context (protected_view protected.now) external_aad.now) (λ b.
        b.items) result }
{
    let protected = protected.protected_bytes(alloc)?;
    enc_structure_bytes(alloc, context, &protected, external_aad)
}

/// Returns the additional authenticated data: the shortest encoding of an `Enc_structure`
/// (RFC 8152, section 5.3).
///
/// ```cddl
/// Enc_structure = [
///     context : "Encrypt" / "Encrypt0" / "Enc_Recipient" / "Mac_Recipient" / "Rec_Recipient",
///     protected : bstr,
///     external_aad : bstr
/// ]
/// ```
///
/// A header that was read is represented by its kept bytes, even if they are an empty map. An empty
/// header without kept bytes is represented by a byte string of length zero.
///
/// # Errors
/// - `OutOfMemory` if an allocation fails.
/// - `DuplicateMapKey` if the header has no kept bytes and has a label twice in its `rest`. Nested
///   headers count too, except those inside kept bytes.
pub fn enc_structure_data(
    alloc: Global,
    context: EncryptionContext,
    protected: ProtectedHeader,
    external_aad: &[u8],
) -> Result<Vec<u8>>
    ensures { Writes (enc_item context (protected_view protected) external_aad.now) (λ b. b.items)
        result }
{
    enc_structure_of(alloc, context, &protected, external_aad)
}
