//! Laws that tell what `ffi_query` returns for items made here. Each law is the contract of a
//! function that does nothing.

ghost use Rattle.ffi_make.specs.Laws.{MadeUnsigned, RecipientStructureKept, RecipientStructureOfMade, SignatureAdded, StructureKept, StructureOfMade, StructureOfSigner};

/// A message from [`make`](crate::make) has the structure that
/// [`structure_of`](crate::structure_of) returned for its parts.
///
/// The structure is what is signed, authenticated, or goes with the ciphertext.
/// `ffi_query::structure_of` returns it for the message. For messages with signers,
/// [`structures_of_signers`] has the law.
pub fn structure_of_made()
    ensures { StructureOfMade }
{}

/// A message with signers is made without signatures, and signatures that are added follow one
/// another.
///
/// Each signer signs the structure that [`structure_of`](crate::structure_of) returned for the
/// message's parts and the signer's header.
pub fn structures_of_signers()
    ensures made { MadeUnsigned }
    ensures added { SignatureAdded }
    ensures signed { StructureOfSigner }
{}

/// A recipient from [`make`](crate::make) has the structure that
/// [`recipient_structure_of`](crate::recipient_structure_of) returned for its protected header.
///
/// The structure goes with the recipient's ciphertext. `ffi_query::recipient_structure_of` returns
/// it for the recipient.
pub fn recipient_structure_of_made()
    ensures { RecipientStructureOfMade }
{}

/// Adding a signature or a recipient to an item by [`add`](crate::add) keeps the item's structures.
///
/// These are the structures that each signer signs, those of the message, and those of a recipient
/// that others are added to.
pub fn structures_are_kept()
    ensures kept { StructureKept }
    ensures recipient { RecipientStructureKept }
{}
