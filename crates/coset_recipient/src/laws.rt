//! Laws of recipients and of messages with recipients, for callers to cite.
//!
//! Each law is the contract of a function that does nothing. A value is "read back" if it was read
//! from the item that another value is written as. How the item was encoded doesn't matter.

ghost use Rattle.std.specs.Prelude.{◌≡◌, ◌↔◌, ℕ, List};
ghost use Rattle.coset_value.specs.Item.{Item, tag};
ghost use Rattle.coset_cbor.specs.Shortest.{IsShortest};
ghost use Rattle.coset_codec.specs.AsWritten.{AsWritten, WhenRead};
ghost use Rattle.coset_codec.specs.PerhapsTagged.{DescribesNoTag};
ghost use Rattle.coset_codec.specs.Shape.{tagged};
ghost use Rattle.coset_codec.specs.declared.error.CoseError.{CoseError};
ghost use Rattle.coset_core.specs.Headers.{protected_bytes, signature};
ghost use Rattle.coset_core.specs.Kept.{KeepsFirst};
ghost use Rattle.coset_msg.specs.Encrypt0.{encrypt0};
ghost use Rattle.coset_msg.specs.Mac0.{mac0};
ghost use Rattle.coset_recipient.specs.Encrypt.{EncryptView, encrypt};
ghost use Rattle.coset_recipient.specs.Mac.{MacView, mac};
ghost use Rattle.coset_recipient.specs.Recipient.{RecipientView, recipient, recipient_step};
ghost use Rattle.coset_sign.specs.Countersigned.{EachCountersigns, EachCountersignsSame};
ghost use Rattle.coset_sign.specs.Sign.{sign};
ghost use Rattle.coset_sign.specs.Sign1.{sign1};
ghost use Rattle.coset_recipient.specs.AnyStructure.{AnyStructure, structure_of};
ghost use Rattle.coset_recipient.specs.Structures.{EncryptsAll, EncryptsAllSame, Macs, MacsSame, RecipientEncrypts, RecipientEncryptsSame};

use coset_cbor::laws::{one_item, shortest_is_encoding};
use coset_core::laws::{kept_as_written, signatures_kept_as_received, signatures_kept_as_written};

/// A recipient is an array of its headers, its ciphertext and, if there are any, an array of
/// recipients.
///
/// The nested recipients have the same shape as the outer one, at any depth.
pub fn recipients_hold_recipients()
    ensures describes { (v : Item) (r : RecipientView) → recipient.describes v r
        ↔ (recipient_step recipient).describes v r }
    ensures image { (r : RecipientView) → recipient.image r
        ≡ (recipient_step recipient).image r }
    ensures faults { (v : Item) (e : CoseError) → recipient.faults v e
        ↔ (recipient_step recipient).faults v e }
{}

/// The protected header of a recipient or message that was read is represented by the received
/// bytes.
///
/// They are those of the byte string in the first element of the array. A message's array is the
/// plain message, or the item in the tag of a tagged one.
pub fn received_with_recipients()
    ensures recipient { (v : Item) (r : RecipientView) → recipient.describes v r
        → KeepsFirst v r.protected }
    ensures mac { (v : Item) (m : MacView) → mac.describes v m → KeepsFirst v m.protected }
    ensures tagged_mac { (v : Item) (m : MacView) → (tagged 97 mac).describes (tag 97 v) m
        → KeepsFirst v m.protected }
    ensures encrypt { (v : Item) (m : EncryptView) → encrypt.describes v m
        → KeepsFirst v m.protected }
    ensures tagged_encrypt { (v : Item) (m : EncryptView)
        → (tagged 96 encrypt).describes (tag 96 v) m → KeepsFirst v m.protected }
{}

/// A recipient that is read back has the same protected bytes. So has a message, plain or tagged.
pub fn kept_with_recipients()
    ensures recipient { AsWritten recipient (λ r s. protected_bytes s.protected
        ≡ protected_bytes r.protected) }
    ensures mac { AsWritten mac (λ m n. protected_bytes n.protected
        ≡ protected_bytes m.protected) }
    ensures tagged_mac { AsWritten (tagged 97 mac) (λ m n. protected_bytes n.protected
        ≡ protected_bytes m.protected) }
    ensures encrypt { AsWritten encrypt (λ m n. protected_bytes n.protected
        ≡ protected_bytes m.protected) }
    ensures tagged_encrypt { AsWritten (tagged 96 encrypt) (λ m n. protected_bytes n.protected
        ≡ protected_bytes m.protected) }
{
    kept_as_written();
}

/// Countersignatures that are read back in the unprotected header of a message or a recipient sign
/// the same structures.
///
/// A message may be plain or tagged. An abbreviated countersignature of the body is covered too.
/// For signed messages, `countersigned_as_written` says the same.
pub fn all_countersigned_as_written()
    ensures mac0 { AsWritten mac0
        (λ m n. EachCountersignsSame m.protected m.unprotected n.protected n.unprotected) }
    ensures tagged_mac0 { AsWritten (tagged 17 mac0)
        (λ m n. EachCountersignsSame m.protected m.unprotected n.protected n.unprotected) }
    ensures encrypt0 { AsWritten encrypt0
        (λ m n. EachCountersignsSame m.protected m.unprotected n.protected n.unprotected) }
    ensures tagged_encrypt0 { AsWritten (tagged 16 encrypt0)
        (λ m n. EachCountersignsSame m.protected m.unprotected n.protected n.unprotected) }
    ensures recipient { AsWritten recipient
        (λ m n. EachCountersignsSame m.protected m.unprotected n.protected n.unprotected) }
    ensures mac { AsWritten mac
        (λ m n. EachCountersignsSame m.protected m.unprotected n.protected n.unprotected) }
    ensures tagged_mac { AsWritten (tagged 97 mac)
        (λ m n. EachCountersignsSame m.protected m.unprotected n.protected n.unprotected) }
    ensures encrypt { AsWritten encrypt
        (λ m n. EachCountersignsSame m.protected m.unprotected n.protected n.unprotected) }
    ensures tagged_encrypt { AsWritten (tagged 96 encrypt)
        (λ m n. EachCountersignsSame m.protected m.unprotected n.protected n.unprotected) }
{
    kept_as_written();
    signatures_kept_as_written();
}

/// Each countersignature in the unprotected header of a message or a recipient that was read has a
/// structure to be signed.
///
/// A message may be plain or tagged. An abbreviated countersignature of the body is covered too.
/// For signed messages, `countersigned_when_read` says the same.
pub fn all_countersigned_when_read()
    ensures mac0 { WhenRead mac0 (λ m. EachCountersigns m.protected m.unprotected) }
    ensures tagged_mac0 { WhenRead (tagged 17 mac0)
        (λ m. EachCountersigns m.protected m.unprotected) }
    ensures encrypt0 { WhenRead encrypt0 (λ m. EachCountersigns m.protected m.unprotected) }
    ensures tagged_encrypt0 { WhenRead (tagged 16 encrypt0)
        (λ m. EachCountersigns m.protected m.unprotected) }
    ensures recipient { WhenRead recipient (λ r. EachCountersigns r.protected r.unprotected) }
    ensures mac { WhenRead mac (λ m. EachCountersigns m.protected m.unprotected) }
    ensures tagged_mac { WhenRead (tagged 97 mac)
        (λ m. EachCountersigns m.protected m.unprotected) }
    ensures encrypt { WhenRead encrypt (λ m. EachCountersigns m.protected m.unprotected) }
    ensures tagged_encrypt { WhenRead (tagged 96 encrypt)
        (λ m. EachCountersigns m.protected m.unprotected) }
{
    signatures_kept_as_received();
}

/// A recipient or message that is read back has the same structures. So has each recipient in it,
/// at any depth.
///
/// A message may be plain or tagged. A message with a MAC has a `MAC_structure`. An encrypted
/// message or a recipient has an `Enc_structure`, in each context.
pub fn structures_as_written()
    ensures recipient { AsWritten recipient RecipientEncryptsSame }
    ensures mac { AsWritten mac MacsSame }
    ensures tagged_mac { AsWritten (tagged 97 mac) MacsSame }
    ensures encrypt { AsWritten encrypt EncryptsAllSame }
    ensures tagged_encrypt { AsWritten (tagged 96 encrypt) EncryptsAllSame }
{
    kept_as_written();
}

/// A recipient or message that was read has its structures. So has each recipient in it, at any
/// depth.
///
/// A message may be plain or tagged. The structures exist because the protected headers kept the
/// bytes that they were read from.
pub fn structures_when_read()
    ensures recipient { WhenRead recipient RecipientEncrypts }
    ensures mac { WhenRead mac Macs }
    ensures tagged_mac { WhenRead (tagged 97 mac) Macs }
    ensures encrypt { WhenRead encrypt EncryptsAll }
    ensures tagged_encrypt { WhenRead (tagged 96 encrypt) EncryptsAll }
{}

/// The shortest encoding of a structure determines its context and its parts, across all kinds of
/// structures.
///
/// The kinds are those of signatures, MACs, ciphertexts, and countersignatures of version 2. The
/// parts are one protected header, one signer or none, one `external_aad`, one payload, and the
/// other fields. Not every kind has all of these parts.
pub fn one_of_all_structures()
    ensures { (b : List ℕ) (x y : AnyStructure) → IsShortest b (structure_of x)
        → IsShortest b (structure_of y) → x ≡ y }
{
    one_item();
    shortest_is_encoding();
}

/// A CBOR tag is never an untagged message or an untagged countersignature, because these are
/// arrays (RFC 8152, sections 4 to 6; RFC 9338, section 3.1).
///
/// So each message that `from_any_slice` reads was either plain or tagged, and never both. And
/// `from_any_slice` reads everything that `from_slice` reads.
pub fn no_tag_is_a_message()
    ensures sign { (n : ℕ) → DescribesNoTag n sign }
    ensures sign1 { (n : ℕ) → DescribesNoTag n sign1 }
    ensures mac { (n : ℕ) → DescribesNoTag n mac }
    ensures mac0 { (n : ℕ) → DescribesNoTag n mac0 }
    ensures encrypt { (n : ℕ) → DescribesNoTag n encrypt }
    ensures encrypt0 { (n : ℕ) → DescribesNoTag n encrypt0 }
    ensures countersignature { (n : ℕ) → DescribesNoTag n signature }
{}
