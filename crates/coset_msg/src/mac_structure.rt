//! The structure that is authenticated (RFC 8152, section 6.3).

ghost use Rattle.std.specs.Prelude.{◌≡◌, IfOk, IfErr};
ghost use Rattle.coset_cbor.specs.Shortest.{IsShortest};
ghost use Rattle.coset_codec.specs.declared.error.CoseError.TheVariants.{OutOfMemory};
ghost use Rattle.coset_codec.specs.Results.{Writes};
ghost use Rattle.coset_core.specs.Views.{protected_view};
ghost use Rattle.coset_msg.specs.MacStructure.{mac_item, mac_structure};

use coset_codec::Result;
use coset_core::ProtectedHeader;
use coset_core::structure::structure_bytes;
use std::alloc::Global;

/// The context of a MAC (RFC 8152, section 6.3). The authenticated bytes contain it, so the bytes
/// of one context are never those of another.
#[derive(Clone, Copy, Debug, PartialEq, Eq)]
pub enum MacContext {
    /// The MAC of a `COSE_Mac` message.
    CoseMac,
    /// The MAC of a `COSE_Mac0` message.
    CoseMac0,
}

impl MacContext {
    ghost use Rattle.coset_msg.specs.MacStructure.{mac_text};

    /// Returns the text of the context in the structure.
    fn text(self) -> &'static str
        ensures { result.now ≡ mac_text self }
    {
        match self {
            MacContext::CoseMac => "MAC",
            MacContext::CoseMac0 => "MAC0",
        }
    }
}

/// Encodes the `MAC_structure` of these protected bytes.
///
/// # Errors
/// `OutOfMemory` if an allocation fails.
fn mac_structure_bytes(
    alloc: Global,
    context: MacContext,
    protected: &[u8],
    external_aad: &[u8],
    payload: &[u8],
) -> Result<Vec<u8>>
    ensures encoding { IfOk result (λ b. IsShortest b.items
        (mac_structure context protected.now external_aad.now payload.now)) }
    ensures memory { IfErr result (λ e. e ≡ OutOfMemory) }
{
    structure_bytes(alloc, context.text(), &[protected, external_aad, payload])
}

/// Encodes the `MAC_structure` of this header. Borrows kept bytes, and encodes a header without
/// kept bytes.
///
/// # Errors
/// The same as [`mac_structure_data`].
pub fn mac_structure_of(
    alloc: Global,
    context: MacContext,
    protected: &ProtectedHeader,
    external_aad: &[u8],
    payload: &[u8],
) -> Result<Vec<u8>>
    ensures { Writes (mac_item context (protected_view protected.now) external_aad.now payload.now)
        (λ b. b.items) result }
{
    let protected = protected.protected_bytes(alloc)?;
    mac_structure_bytes(alloc, context, &protected, external_aad, payload)
}

/// Returns the bytes to be authenticated: the shortest encoding of a `MAC_structure` (RFC 8152,
/// section 6.3).
///
/// ```cddl
/// MAC_structure = [
///     context : "MAC" / "MAC0",
///     protected : bstr,
///     external_aad : bstr,
///     payload : bstr
/// ]
/// ```
///
/// A header that was read is represented by its kept bytes, even if they are an empty map. An empty
/// header without kept bytes is represented by a byte string of length zero.
///
/// # Errors
/// - `OutOfMemory` if an allocation fails.
/// - `DuplicateMapKey` if the header has no kept bytes and has a label twice in its `rest`. Nested
///   headers count too, except those inside kept bytes.
pub fn mac_structure_data(
    alloc: Global,
    context: MacContext,
    protected: ProtectedHeader,
    external_aad: &[u8],
    payload: &[u8],
) -> Result<Vec<u8>>
    ensures { Writes (mac_item context (protected_view protected) external_aad.now payload.now)
        (λ b. b.items) result }
{
    mac_structure_of(alloc, context, &protected, external_aad, payload)
}
