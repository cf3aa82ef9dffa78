//! Laws of headers, which callers may cite. Each law is the contract of a function that does
//! nothing. The laws of all types that are read and written are in `coset_codec::laws`.

ghost use Rattle.std.specs.Prelude.{◌≡◌, ◌↔◌, ℕ, List, None, Some, true};
ghost use Rattle.coset_value.specs.Item.{Item, bytes};
ghost use Rattle.coset_codec.specs.AsWritten.{AsWritten, WhenRead};
ghost use Rattle.coset_codec.specs.Shape.{tagged};
ghost use Rattle.coset_codec.specs.declared.error.CoseError.{CoseError};
ghost use Rattle.coset_core.specs.HeaderMap.{header_map};
ghost use Rattle.coset_core.specs.Headers.{HeaderView, ProtectedView, SignatureView, empty_header, is_empty_header, layered_header, layered_protected, layered_signature, protected, protected_bytes, signatures_within};
ghost use Rattle.coset_core.specs.Kept.{KeepsAbbreviated, KeepsOwn, KeepsReceived, KeepsSignature, KeepsSignatures, SignaturesReadAs};
ghost use Rattle.coset_core.specs.Written.{AreShortest};

/// A header is the map of its fields, with one or several signatures under labels 7 and 11.
///
/// For any number of layers, a header's shape is this map, with signatures of the same number of
/// layers in it. The two shapes describe the same headers, and have the same images and faults.
pub fn headers_hold_signatures()
    ensures describes { (n : ℕ) (v : Item) (h : HeaderView) → (layered_header n).describes v h
        ↔ (header_map (signatures_within n)).describes v h }
    ensures image { (n : ℕ) (h : HeaderView) → (layered_header n).image h
        ≡ (header_map (signatures_within n)).image h }
    ensures faults { (n : ℕ) (v : Item) (e : CoseError) → (layered_header n).faults v e
        ↔ (header_map (signatures_within n)).faults v e }
{}

/// A header has no parameters exactly when it is the empty header.
pub fn one_empty_header()
    ensures { (h : HeaderView) → (is_empty_header h ≡ true) ↔ (h ≡ empty_header) }
{}

/// A decoded protected header is represented by the bytes that it was decoded from.
pub fn kept_as_received()
    ensures { (b : List ℕ) (p : ProtectedView) → protected.describes (bytes b) p → protected_bytes p
        ≡ Some b }
{}

/// A protected header that is written and read again is represented by the same bytes, however the
/// item was encoded.
pub fn kept_as_written()
    ensures { (v : Item) (p q : ProtectedView) → protected.image p ≡ Some v
        → protected.describes v q
        → protected_bytes q ≡ protected_bytes p }
{}

/// The protected header of a decoded signature or countersignature is represented by the bytes of
/// the byte string in the first element. Under a tag, it is represented by the bytes that it was
/// decoded from.
///
/// The same holds for each signature in a decoded header, protected or not, under labels 7 and 11.
/// It holds for any number of layers, and so for the signatures in the headers of signatures.
pub fn signatures_kept_as_received()
    ensures signature { (k : ℕ) (v : Item) (s : SignatureView)
        → (layered_signature k).describes v s → KeepsReceived v s }
    ensures tagged_signature { (n k : ℕ) → WhenRead (tagged n (layered_signature k))
        (λ s. KeepsOwn s.protected) }
    ensures header { (k : ℕ) → WhenRead (layered_header k) KeepsSignatures }
    ensures protected { (k : ℕ) → WhenRead (layered_protected k) (λ p. KeepsSignatures p.header) }
{}

/// A signature or countersignature that is written and read again has the same signature bytes and
/// the same protected bytes. This holds with and without a tag, however the item was encoded.
///
/// It also holds for the signatures in a header, under labels 7 and 11, which keep their number and
/// order. If the header has none under a label, none are read, unless `rest` has that label. The
/// bytes under label 12 stay the same. All this holds for any number of layers.
///
/// The same holds for the signatures and the bytes under label 12 in a protected header that was
/// built, encoded by `protected_bytes` and decoded again.
pub fn signatures_kept_as_written()
    ensures signature { (k : ℕ) → AsWritten (layered_signature k) KeepsSignature }
    ensures tagged_signature { (n k : ℕ) → AsWritten (tagged n (layered_signature k))
        KeepsSignature }
    ensures header { (k : ℕ) → AsWritten (layered_header k) (SignaturesReadAs KeepsSignature) }
    ensures abbreviated { (k : ℕ) → AsWritten (layered_header k) KeepsAbbreviated }
    ensures built { (k : ℕ) (b : List ℕ) (p q : ProtectedView) → p.original ≡ None
        → protected_bytes p ≡ Some b → AreShortest None p.header b
        → (layered_protected k).describes (bytes b) q
        → SignaturesReadAs KeepsSignature p.header q.header × KeepsAbbreviated p.header q.header }
{}
