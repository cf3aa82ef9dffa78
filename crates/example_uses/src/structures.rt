//! The structures that a receiver verifies or decrypts are those that the sender signed,
//! authenticated or encrypted.

ghost use Rattle.coset_codec.specs.Shape.{tagged};
ghost use Rattle.coset_sign.specs.Countersigned.{EachCountersignsSame};
ghost use Rattle.coset_sign.specs.Sign.{EachSigns, EachSignsSame, sign};
ghost use Rattle.coset_sign.specs.Sign1.{sign1};
ghost use Rattle.coset_msg.specs.EncStructure.{Encrypts, EncryptsSame};
ghost use Rattle.coset_msg.specs.MacStructure.{Authenticates, AuthenticatesSame};
ghost use Rattle.coset_msg.specs.Encrypt0.{encrypt0};
ghost use Rattle.coset_msg.specs.Mac0.{mac0};
ghost use Rattle.coset_recipient.specs.Encrypt.{encrypt};
ghost use Rattle.coset_recipient.specs.Mac.{mac};
ghost use Rattle.coset_recipient.specs.Structures.{EncryptsAll, EncryptsAllSame, Macs, MacsSame};
ghost use Rattle.example_uses.specs.Exchange.{Arrives, IsReceived};

use coset_cbor::laws::{one_item, shortest_is_encoding};
use coset_msg::laws::{structure_as_written, structure_when_read};
use coset_recipient::laws::{
    all_countersigned_as_written, structures_as_written, structures_when_read,
};
use coset_sign::laws::{countersigned_as_written, each_signed_as_written, each_signed_when_read};

/// If a message is written, plain or under its tag, and arrives in any spelling, the receiver's
/// structures are the sender's.
///
/// This holds for each signature, for the MAC, for the ciphertext, and for each recipient at any
/// depth. For messages with one signature, see [`verify_token`](crate::verify::verify_token).
pub fn structures_arrive()
    ensures sign { Arrives sign (λ m n. EachSignsSame n m)
        × Arrives (tagged 98 sign) (λ m n. EachSignsSame n m) }
    ensures mac0 { Arrives mac0 (λ m n. AuthenticatesSame m.protected n.protected)
        × Arrives (tagged 17 mac0) (λ m n. AuthenticatesSame m.protected n.protected) }
    ensures mac { Arrives mac MacsSame × Arrives (tagged 97 mac) MacsSame }
    ensures encrypt0 { Arrives encrypt0 (λ m n. EncryptsSame m.protected n.protected)
        × Arrives (tagged 16 encrypt0) (λ m n. EncryptsSame m.protected n.protected) }
    ensures encrypt { Arrives encrypt EncryptsAllSame
        × Arrives (tagged 96 encrypt) EncryptsAllSame }
{
    one_item();
    shortest_is_encoding();
    each_signed_as_written();
    structure_as_written();
    structures_as_written();
}

/// The law of [`structures_arrive`] also holds for the structure of each countersignature in the
/// message's unprotected header.
pub fn countersignatures_arrive()
    ensures sign1 { Arrives sign1
        (λ m n. EachCountersignsSame m.protected m.unprotected n.protected n.unprotected)
        × Arrives (tagged 18 sign1)
        (λ m n. EachCountersignsSame m.protected m.unprotected n.protected n.unprotected) }
    ensures sign { Arrives sign
        (λ m n. EachCountersignsSame m.protected m.unprotected n.protected n.unprotected)
        × Arrives (tagged 98 sign)
        (λ m n. EachCountersignsSame m.protected m.unprotected n.protected n.unprotected) }
    ensures mac0 { Arrives mac0
        (λ m n. EachCountersignsSame m.protected m.unprotected n.protected n.unprotected)
        × Arrives (tagged 17 mac0)
        (λ m n. EachCountersignsSame m.protected m.unprotected n.protected n.unprotected) }
    ensures mac { Arrives mac
        (λ m n. EachCountersignsSame m.protected m.unprotected n.protected n.unprotected)
        × Arrives (tagged 97 mac)
        (λ m n. EachCountersignsSame m.protected m.unprotected n.protected n.unprotected) }
    ensures encrypt0 { Arrives encrypt0
        (λ m n. EachCountersignsSame m.protected m.unprotected n.protected n.unprotected)
        × Arrives (tagged 16 encrypt0)
        (λ m n. EachCountersignsSame m.protected m.unprotected n.protected n.unprotected) }
    ensures encrypt { Arrives encrypt
        (λ m n. EachCountersignsSame m.protected m.unprotected n.protected n.unprotected)
        × Arrives (tagged 96 encrypt)
        (λ m n. EachCountersignsSame m.protected m.unprotected n.protected n.unprotected) }
{
    one_item();
    shortest_is_encoding();
    countersigned_as_written();
    all_countersigned_as_written();
}

/// A message that was read, plain or under its tag, always has each structure of
/// [`structures_arrive`]. So a caller that verifies or decrypts the message gets no error of the
/// library other than `OutOfMemory`.
pub fn structures_are_there()
    ensures sign { IsReceived sign EachSigns × IsReceived (tagged 98 sign) EachSigns }
    ensures mac0 { IsReceived mac0 (λ m. Authenticates m.protected)
        × IsReceived (tagged 17 mac0) (λ m. Authenticates m.protected) }
    ensures mac { IsReceived mac Macs × IsReceived (tagged 97 mac) Macs }
    ensures encrypt0 { IsReceived encrypt0 (λ m. Encrypts m.protected)
        × IsReceived (tagged 16 encrypt0) (λ m. Encrypts m.protected) }
    ensures encrypt { IsReceived encrypt EncryptsAll
        × IsReceived (tagged 96 encrypt) EncryptsAll }
{
    each_signed_when_read();
    structure_when_read();
    structures_when_read();
}
