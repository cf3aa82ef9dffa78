//! The structures that are signed, authenticated, or go with a ciphertext, for a message or a
//! recipient that isn't made yet (RFC 8152, sections 4.4, 5.3 and 6.3).

ghost use Rattle.std.specs.Prelude.{◌≡◌, IfOk, IfErr};
ghost use Rattle.coset.specs.CoseError.TheVariants.{OutOfMemory};
ghost use Rattle.ffi_make.specs.StructuresMade.{ChecksHeader, FindsEncoding, MakesRecipientStructure, MakesStructure, beside_ciphertext, of_recipient, of_signer, over_content, recipient_structure_made, structure_made};

use coset::Result;
use coset_core::structure::structure_bytes;
use ffi_query::{Kind, Refusal, check, write_found};
use std::alloc::Global;

/// Checks that the bytes are the content of a protected header's byte string: a header, or nothing.
///
/// # Errors
/// - The reason why the bytes aren't a header.
/// - `OutOfMemory` if an allocation fails.
fn check_header(alloc: Global, bytes: &[u8]) -> Result<()>
    ensures { ChecksHeader bytes.now result }
{
    if bytes.is_empty() {
        return Ok(());
    }
    check(alloc, Kind::Header, bytes)
}

/// Encodes a structure over a content. Returns `None` if a signer's header is given, because the
/// structure has no place for one.
///
/// # Errors
/// `OutOfMemory` if an allocation fails.
fn over_content(
    alloc: Global,
    context: &str,
    protected: &[u8],
    signer: &[u8],
    external_aad: &[u8],
    content: &[u8],
) -> Result<Option<Vec<u8>>>
    ensures found { IfOk result (FindsEncoding (λ b. b.items)
        (over_content context.now protected.now signer.now external_aad.now content.now)) }
    ensures memory { IfErr result (λ e. e ≡ OutOfMemory) }
{
    if !signer.is_empty() {
        return Ok(None);
    }
    let parts = [protected, external_aad, content];
    Ok(Some(structure_bytes(alloc, context, &parts)?))
}

/// Encodes a structure that goes with a ciphertext. Returns `None` if a signer's header or a
/// content is given, because the structure has no place for these.
///
/// # Errors
/// `OutOfMemory` if an allocation fails.
fn beside_ciphertext(
    alloc: Global,
    context: &str,
    protected: &[u8],
    signer: &[u8],
    external_aad: &[u8],
    content: &[u8],
) -> Result<Option<Vec<u8>>>
    ensures found { IfOk result (FindsEncoding (λ b. b.items)
        (beside_ciphertext context.now protected.now signer.now external_aad.now content.now)) }
    ensures memory { IfErr result (λ e. e ≡ OutOfMemory) }
{
    if !signer.is_empty() {
        return Ok(None);
    }
    if !content.is_empty() {
        return Ok(None);
    }
    Ok(Some(structure_bytes(alloc, context, &[protected, external_aad])?))
}

/// Encodes the structure that a signer with its own header signs.
///
/// # Errors
/// `OutOfMemory` if an allocation fails.
fn of_signer(
    alloc: Global,
    protected: &[u8],
    signer: &[u8],
    external_aad: &[u8],
    content: &[u8],
) -> Result<Option<Vec<u8>>>
    ensures found { IfOk result (FindsEncoding (λ b. b.items)
        (of_signer protected.now signer.now external_aad.now content.now)) }
    ensures memory { IfErr result (λ e. e ≡ OutOfMemory) }
{
    let parts = [protected, signer, external_aad, content];
    Ok(Some(structure_bytes(alloc, "Signature", &parts)?))
}

/// Encodes the structure of a message of this kind.
///
/// # Errors
/// `OutOfMemory` if an allocation fails.
fn find_structure(
    alloc: Global,
    kind: Kind,
    protected: &[u8],
    signer: &[u8],
    aad: &[u8],
    content: &[u8],
) -> Result<Option<Vec<u8>>>
    ensures found { IfOk result (FindsEncoding (λ b. b.items)
        (structure_made kind protected.now signer.now aad.now content.now)) }
    ensures memory { IfErr result (λ e. e ≡ OutOfMemory) }
{
    match kind {
        Kind::Sign1(_) => over_content(alloc, "Signature1", protected, signer, aad, content),
        Kind::Sign(_) => of_signer(alloc, protected, signer, aad, content),
        Kind::Mac0(_) => over_content(alloc, "MAC0", protected, signer, aad, content),
        Kind::Mac(_) => over_content(alloc, "MAC", protected, signer, aad, content),
        Kind::Encrypt0(_) => {
            beside_ciphertext(alloc, "Encrypt0", protected, signer, aad, content)
        }
        Kind::Encrypt(_) => beside_ciphertext(alloc, "Encrypt", protected, signer, aad, content),
        _ => Ok(None),
    }
}

/// Writes the structure of a message that isn't made yet to the front of `out`, and returns its
/// length.
///
/// The structure is what is signed, authenticated, or goes with the ciphertext: the shortest
/// encoding of `Sig_structure`, `MAC_structure` or `Enc_structure` (RFC 8152, sections 4.4, 5.3 and
/// 6.3).
///
/// - `protected` is the content of the message's protected header: a map, or nothing for an empty
///   header. An empty map stays as it is, where the RFC has no bytes (RFC 8152, section 4.4).
/// - `signer` is the same for the signer's header. Only a [`Kind::Sign`] has one.
/// - `content` is the payload, carried or detached. An `Enc_structure` has none.
///
/// # Errors
/// - `Short` with the length needed, if `out` is too small.
/// - `Absent` if items of the kind have no structure, or it has no place for the signer or content
///   that is given.
/// - `Cose` if `protected` or `signer` isn't a header, or an allocation fails.
///
/// `out` is then unchanged.
pub fn structure_of(
    alloc: Global,
    kind: Kind,
    protected: &[u8],
    signer: &[u8],
    external_aad: &[u8],
    content: &[u8],
    out: &mut [u8],
) -> Result<usize, Refusal>
    ensures { MakesStructure kind protected.now signer.now external_aad.now content.now
        out.old out.new result }
{
    if let Err(error) = check_header(alloc, protected) {
        return Err(Refusal::Cose(error));
    }
    if let Err(error) = check_header(alloc, signer) {
        return Err(Refusal::Cose(error));
    }
    write_found(
        find_structure(alloc, kind, protected, signer, external_aad, content),
        out,
    )
}

/// Encodes the structure that goes with a recipient's ciphertext.
///
/// # Errors
/// `OutOfMemory` if an allocation fails.
fn of_recipient(
    alloc: Global,
    context: &str,
    protected: &[u8],
    external_aad: &[u8],
) -> Result<Option<Vec<u8>>>
    ensures found { IfOk result (FindsEncoding (λ b. b.items)
        (of_recipient context.now protected.now external_aad.now)) }
    ensures memory { IfErr result (λ e. e ≡ OutOfMemory) }
{
    Ok(Some(structure_bytes(alloc, context, &[protected, external_aad])?))
}

/// Encodes the structure of a recipient, by the kind that contains it.
///
/// # Errors
/// `OutOfMemory` if an allocation fails.
fn find_recipient_structure(
    alloc: Global,
    holder: Kind,
    protected: &[u8],
    external_aad: &[u8],
) -> Result<Option<Vec<u8>>>
    ensures found { IfOk result (FindsEncoding (λ b. b.items)
        (recipient_structure_made holder protected.now external_aad.now)) }
    ensures memory { IfErr result (λ e. e ≡ OutOfMemory) }
{
    match holder {
        Kind::Encrypt(_) => of_recipient(alloc, "Enc_Recipient", protected, external_aad),
        Kind::Mac(_) => of_recipient(alloc, "Mac_Recipient", protected, external_aad),
        Kind::Recipient => of_recipient(alloc, "Rec_Recipient", protected, external_aad),
        _ => Ok(None),
    }
}

/// Writes the structure of a recipient that isn't made yet to the front of `out`, and returns its
/// length.
///
/// The structure goes with the recipient's ciphertext. It is the shortest encoding of
/// `Enc_structure` (RFC 8152, section 5.3).
///
/// `protected` is the content of the recipient's protected header: a map, or nothing for an empty
/// header. The context depends on the kind that will contain the recipient:
/// - `Enc_Recipient` if `holder` is a [`Kind::Encrypt`] in any form,
/// - `Mac_Recipient` if it is a [`Kind::Mac`] in any form,
/// - `Rec_Recipient` if it is a [`Kind::Recipient`] itself.
///
/// # Errors
/// - `Short` with the length needed, if `out` is too small.
/// - `Absent` if items of the kind `holder` contain no recipients.
/// - `Cose` if `protected` isn't a header, or an allocation fails.
///
/// `out` is then unchanged.
pub fn recipient_structure_of(
    alloc: Global,
    holder: Kind,
    protected: &[u8],
    external_aad: &[u8],
    out: &mut [u8],
) -> Result<usize, Refusal>
    ensures { MakesRecipientStructure holder protected.now external_aad.now out.old out.new result }
{
    if let Err(error) = check_header(alloc, protected) {
        return Err(Refusal::Cose(error));
    }
    write_found(
        find_recipient_structure(alloc, holder, protected, external_aad),
        out,
    )
}
