//! Laws of claims sets and of the contexts of key derivations, for callers to cite. Each law is the
//! contract of a function that does nothing.

ghost use Rattle.std.specs.Prelude.{◌≡◌, ℕ, List};
ghost use Rattle.coset_value.specs.Item.{Item};
ghost use Rattle.coset_codec.specs.Results.{Describes};
ghost use Rattle.coset_claims.specs.Known.{KnownView, known};
ghost use Rattle.coset_claims.specs.SuppPub.{KeepsSecond, SuppPubView, supp_pub};

use coset_cbor::laws::one_item;

/// Bytes describe at most one value of `ClaimsSet::known_from_slice`: the claims that are
/// understood, the names of the audience, and all other claims.
pub fn one_known()
    ensures { (s : List ℕ) (x y : KnownView) → Describes known s x → Describes known s y
        → x ≡ y }
{
    one_item();
}

/// The protected header of a `SuppPubInfo` that was read is represented by the received bytes.
///
/// They are those of the byte string in the second element of its array.
pub fn received_in_supp_pub_info()
    ensures { (v : Item) (s : SuppPubView) → supp_pub.describes v s → KeepsSecond v s.protected }
{}
