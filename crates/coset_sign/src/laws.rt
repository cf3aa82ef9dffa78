//! Laws of the structures and of signed messages, for callers to cite.
//!
//! Each law is the contract of a function that does nothing. A value is "read back" if it was read
//! from the item that another value is written as. How the item was encoded doesn't matter.

ghost use Rattle.std.specs.Prelude.{◌≡◌, ℕ, List, Option, Some, None};
ghost use Rattle.coset_value.specs.Item.{Item, tag};
ghost use Rattle.coset_cbor.specs.Shortest.{IsShortest};
ghost use Rattle.coset_codec.specs.AsWritten.{AsWritten, WhenRead};
ghost use Rattle.coset_codec.specs.Shape.{tagged};
ghost use Rattle.coset_core.specs.Headers.{ProtectedView, layered_header, layered_signature, protected_bytes};
ghost use Rattle.coset_core.specs.Kept.{KeepsFirst};
ghost use Rattle.coset_core.specs.Structure.{structure};
ghost use Rattle.coset_sign.specs.Countersigned.{AbbreviatesSame, Countersigns, CountersignsSame, EachCountersigns, EachCountersignsSame};
ghost use Rattle.coset_sign.specs.SignatureStructure.{signature_structure};
ghost use Rattle.coset_sign.specs.Sign1.{SamePayloadAndSignature, Sign1View, sign1, sign1_structure};
ghost use Rattle.coset_sign.specs.Sign.{EachSigns, EachSignsSame, SignView, sign};
ghost use Rattle.coset_sign.specs.Signed.{SignsSame};
ghost use Rattle.coset_sign.specs.declared.signature.SignatureContext.{SignatureContext};

use coset_cbor::laws::{one_item, shortest_is_encoding};
use coset_core::laws::{kept_as_written, signatures_kept_as_received, signatures_kept_as_written};

/// The bytes of a structure determine its context and its list of parts.
pub fn one_structure()
    ensures { (c d b : List ℕ) (p q : List (List ℕ)) → IsShortest b (structure c p)
        → IsShortest b (structure d q)
        → (c ≡ d) × (p ≡ q) }
{
    one_item();
    shortest_is_encoding();
}

/// The bytes of a `Sig_structure` determine its context, body, `external_aad` and payload. They
/// also determine its signer, or that it has none.
pub fn one_signature_structure()
    ensures { (c d : SignatureContext) (p q : List ℕ) (s t : Option (List ℕ)) (a x l m b : List ℕ)
        → IsShortest b (signature_structure c p s a l)
        → IsShortest b (signature_structure d q t x m)
        → (c ≡ d) × (p ≡ q) × (s ≡ t) × (a ≡ x) × (l ≡ m) }
{
    one_structure();
}

/// Every `COSE_Sign1` message that was read, plain or tagged, has a structure to be signed, because
/// its protected header kept its bytes.
pub fn signed_when_read()
    ensures plain { (external_aad payload : List ℕ)
        → WhenRead sign1 (λ m. sign1_structure m external_aad payload ≡ None → ⊥) }
    ensures tagged { (external_aad payload : List ℕ)
        → WhenRead (tagged 18 sign1) (λ m. sign1_structure m external_aad payload ≡ None → ⊥) }
{}

/// Every signature of a `COSE_Sign` message that was read, plain or tagged, has a structure to be
/// signed.
pub fn each_signed_when_read()
    ensures plain { WhenRead sign EachSigns }
    ensures tagged { WhenRead (tagged 98 sign) EachSigns }
{}

/// A `COSE_Sign1` message that is read back, plain or tagged, has the same structures to be signed.
pub fn signed_as_written()
    ensures plain { AsWritten sign1 (λ m n. SignsSame n.protected m.protected) }
    ensures tagged { AsWritten (tagged 18 sign1) (λ m n. SignsSame n.protected m.protected) }
{
    kept_as_written();
}

/// A `COSE_Sign1` message that is read back, plain or tagged, has the same payload and signature.
pub fn attached_as_written()
    ensures plain { AsWritten sign1 SamePayloadAndSignature }
    ensures tagged { AsWritten (tagged 18 sign1) SamePayloadAndSignature }
{}

/// A `COSE_Sign` message that is read back, plain or tagged, has the same number of signatures.
/// Each signature has the same structures to be signed.
pub fn each_signed_as_written()
    ensures plain { AsWritten sign (λ m n. EachSignsSame n m) }
    ensures tagged { AsWritten (tagged 98 sign) (λ m n. EachSignsSame n m) }
{
    kept_as_written();
}

/// The protected header of a signed message that was read is represented by the received bytes.
///
/// They are those of the byte string in the first element of the message's array. This array is the
/// plain message, or the item in the tag of a tagged one.
pub fn received_in_signed()
    ensures sign1 { (v : Item) (m : Sign1View) → sign1.describes v m → KeepsFirst v m.protected }
    ensures tagged_sign1 { (v : Item) (m : Sign1View) → (tagged 18 sign1).describes (tag 18 v) m
        → KeepsFirst v m.protected }
    ensures sign { (v : Item) (m : SignView) → sign.describes v m → KeepsFirst v m.protected }
    ensures tagged_sign { (v : Item) (m : SignView) → (tagged 98 sign).describes (tag 98 v) m
        → KeepsFirst v m.protected }
{}

/// A signed message that is read back, plain or tagged, has the same protected bytes.
pub fn kept_in_signed()
    ensures sign1 { AsWritten sign1 (λ m n. protected_bytes n.protected
        ≡ protected_bytes m.protected) }
    ensures tagged_sign1 { AsWritten (tagged 18 sign1) (λ m n. protected_bytes n.protected
        ≡ protected_bytes m.protected) }
    ensures sign { AsWritten sign (λ m n. protected_bytes n.protected
        ≡ protected_bytes m.protected) }
    ensures tagged_sign { AsWritten (tagged 98 sign) (λ m n. protected_bytes n.protected
        ≡ protected_bytes m.protected) }
{
    kept_as_written();
}

/// Bodies and signers with the same protected bytes have the same structures for countersignatures.
///
/// This holds whatever the other parts are. It covers the countersignatures of labels 7 and 11. It
/// also covers the abbreviated ones of label 12 that have other fields.
pub fn countersigned_by_bytes()
    ensures full { (body signer other_body other_signer : ProtectedView)
        → protected_bytes body ≡ protected_bytes other_body
        → protected_bytes signer ≡ protected_bytes other_signer
        → CountersignsSame body signer other_body other_signer }
    ensures abbreviated { (body other_body : ProtectedView)
        → protected_bytes body ≡ protected_bytes other_body → AbbreviatesSame body other_body }
{}

/// Countersignatures that are read back sign the same structures, if the body has the same
/// protected bytes.
///
/// - `within`: each countersignature in a header.
/// - `apart` and `tagged_apart`: a countersignature by itself, plain or tagged.
/// - The other clauses: each countersignature in the unprotected header of a signed message, plain
///   or tagged.
///
/// The first three clauses hold for any number of layers. All clauses except `apart` and
/// `tagged_apart` also cover an abbreviated countersignature of the body with other fields.
///
/// `kept_in_messages` and `kept_with_recipients` say that bodies of other kinds have the same
/// protected bytes.
pub fn countersigned_as_written()
    ensures within { (k : ℕ) (body read : ProtectedView)
        → protected_bytes read ≡ protected_bytes body
        → AsWritten (layered_header k) (λ h g. EachCountersignsSame body h read g) }
    ensures apart { (k : ℕ) (body read : ProtectedView)
        → protected_bytes read ≡ protected_bytes body → AsWritten (layered_signature k)
        (λ s t. CountersignsSame body s.protected read t.protected) }
    ensures tagged_apart { (k : ℕ) (body read : ProtectedView)
        → protected_bytes read ≡ protected_bytes body
        → AsWritten (tagged 19 (layered_signature k))
        (λ s t. CountersignsSame body s.protected read t.protected) }
    ensures sign1 { AsWritten sign1
        (λ m n. EachCountersignsSame m.protected m.unprotected n.protected n.unprotected) }
    ensures tagged_sign1 { AsWritten (tagged 18 sign1)
        (λ m n. EachCountersignsSame m.protected m.unprotected n.protected n.unprotected) }
    ensures sign { AsWritten sign
        (λ m n. EachCountersignsSame m.protected m.unprotected n.protected n.unprotected) }
    ensures tagged_sign { AsWritten (tagged 98 sign)
        (λ m n. EachCountersignsSame m.protected m.unprotected n.protected n.unprotected) }
{
    kept_as_written();
    signatures_kept_as_written();
}

/// Countersignatures that were read have a structure to be signed, if the body has protected bytes.
///
/// - `within`: each countersignature in a header.
/// - `apart` and `tagged_apart`: a countersignature by itself, plain or tagged.
/// - The other clauses: each countersignature in the unprotected header of a signed message, plain
///   or tagged.
///
/// The first three clauses hold for any number of layers. All clauses except `apart` and
/// `tagged_apart` also cover an abbreviated countersignature of the body with other fields.
///
/// For other messages and for recipients, `all_countersigned_when_read` says the same.
pub fn countersigned_when_read()
    ensures within { (k : ℕ) (body : ProtectedView) (b : List ℕ) → protected_bytes body ≡ Some b
        → WhenRead (layered_header k) (λ h. EachCountersigns body h) }
    ensures apart { (k : ℕ) (body : ProtectedView) (b : List ℕ) → protected_bytes body ≡ Some b
        → WhenRead (layered_signature k) (λ s. Countersigns body s.protected) }
    ensures tagged_apart { (k : ℕ) (body : ProtectedView) (b : List ℕ)
        → protected_bytes body ≡ Some b → WhenRead (tagged 19 (layered_signature k))
        (λ s. Countersigns body s.protected) }
    ensures sign1 { WhenRead sign1 (λ m. EachCountersigns m.protected m.unprotected) }
    ensures tagged_sign1 { WhenRead (tagged 18 sign1)
        (λ m. EachCountersigns m.protected m.unprotected) }
    ensures sign { WhenRead sign (λ m. EachCountersigns m.protected m.unprotected) }
    ensures tagged_sign { WhenRead (tagged 98 sign)
        (λ m. EachCountersigns m.protected m.unprotected) }
{
    signatures_kept_as_received();
}
