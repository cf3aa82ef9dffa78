//! Laws of the structures, for callers to cite.
//!
//! Each law is the contract of a function that does nothing. A value is "read back" if it was read
//! from the item that another value is written as. How the item was encoded doesn't matter.

ghost use Rattle.std.specs.Prelude.{◌≡◌};
ghost use Rattle.coset_value.specs.Item.{Item, tag};
ghost use Rattle.coset_codec.specs.AsWritten.{AsWritten, WhenRead};
ghost use Rattle.coset_codec.specs.Shape.{tagged};
ghost use Rattle.coset_core.specs.Headers.{protected_bytes};
ghost use Rattle.coset_core.specs.Kept.{KeepsFirst};
ghost use Rattle.coset_msg.specs.EncStructure.{Encrypts, EncryptsSame};
ghost use Rattle.coset_msg.specs.Encrypt0.{Encrypt0View, encrypt0};
ghost use Rattle.coset_msg.specs.Mac0.{Mac0View, mac0};
ghost use Rattle.coset_msg.specs.MacStructure.{Authenticates, AuthenticatesSame};

use coset_core::laws::kept_as_written;

/// The protected header of a message that was read is represented by the received bytes.
///
/// They are those of the byte string in the first element of the message's array. This array is the
/// plain message, or the item in the tag of a tagged one.
pub fn received_in_messages()
    ensures mac0 { (v : Item) (m : Mac0View) → mac0.describes v m → KeepsFirst v m.protected }
    ensures tagged_mac0 { (v : Item) (m : Mac0View) → (tagged 17 mac0).describes (tag 17 v) m
        → KeepsFirst v m.protected }
    ensures encrypt0 { (v : Item) (m : Encrypt0View) → encrypt0.describes v m
        → KeepsFirst v m.protected }
    ensures tagged_encrypt0 { (v : Item) (m : Encrypt0View)
        → (tagged 16 encrypt0).describes (tag 16 v) m → KeepsFirst v m.protected }
{}

/// A message that is read back, plain or tagged, has the same protected bytes.
pub fn kept_in_messages()
    ensures mac0 { AsWritten mac0 (λ m n. protected_bytes n.protected
        ≡ protected_bytes m.protected) }
    ensures tagged_mac0 { AsWritten (tagged 17 mac0) (λ m n. protected_bytes n.protected
        ≡ protected_bytes m.protected) }
    ensures encrypt0 { AsWritten encrypt0 (λ m n. protected_bytes n.protected
        ≡ protected_bytes m.protected) }
    ensures tagged_encrypt0 { AsWritten (tagged 16 encrypt0) (λ m n. protected_bytes n.protected
        ≡ protected_bytes m.protected) }
{
    kept_as_written();
}

/// A message that is read back, plain or tagged, has the same structures.
///
/// For a message with a MAC they are `MAC_structure`s, for an encrypted message `Enc_structure`s.
pub fn structure_as_written()
    ensures mac0 { AsWritten mac0 (λ m n. AuthenticatesSame m.protected n.protected) }
    ensures tagged_mac0 { AsWritten (tagged 17 mac0)
        (λ m n. AuthenticatesSame m.protected n.protected) }
    ensures encrypt0 { AsWritten encrypt0 (λ m n. EncryptsSame m.protected n.protected) }
    ensures tagged_encrypt0 { AsWritten (tagged 16 encrypt0)
        (λ m n. EncryptsSame m.protected n.protected) }
{
    kept_as_written();
}

/// Every message that was read, plain or tagged, has its structure, because its protected header
/// kept its bytes.
///
/// For a message with a MAC it is a `MAC_structure`, for an encrypted message an `Enc_structure`.
pub fn structure_when_read()
    ensures mac0 { WhenRead mac0 (λ m. Authenticates m.protected) }
    ensures tagged_mac0 { WhenRead (tagged 17 mac0) (λ m. Authenticates m.protected) }
    ensures encrypt0 { WhenRead encrypt0 (λ m. Encrypts m.protected) }
    ensures tagged_encrypt0 { WhenRead (tagged 16 encrypt0) (λ m. Encrypts m.protected) }
{}
