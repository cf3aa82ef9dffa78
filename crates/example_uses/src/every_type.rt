//! Names every type that is read and written. If one lacked a trait or a law, this wouldn't
//! compile.

ghost use Rattle.std.specs.Prelude.{◌≡◌, ◌↔◌, ◌≤◌, IsTrue, ℕ, List, Result};
ghost use Rattle.coset_value.specs.Item.{Item, depth};
ghost use Rattle.coset_cbor.specs.Prefixes.{AreBytes};
ghost use Rattle.coset_cbor.specs.Grammar.{IsItem};
ghost use Rattle.coset_codec.specs.Results.{AllocatesForItems, Describes, Reads, ReadsSlice, RefusesItem};
ghost use Rattle.coset_codec.specs.ReadAgain.{EncodesInjectively, ReadsAgain, StaysAsWritten};
ghost use Rattle.coset_codec.specs.Refusals.{NamesWholeFault};
ghost use Rattle.coset_codec.specs.Shape.{tagged};
ghost use Rattle.coset_codec.specs.ShapeLaws.{Again};
ghost use Rattle.coset_codec.specs.declared.error.CoseError.{CoseError};

use coset::cbor::value::Value;
use coset::cwt::{ClaimName, ClaimsSet, Timestamp};
use coset::{
    Algorithm, CborSerializable, Codec, ContentType, CoseCountersignature, CoseEncrypt,
    CoseEncrypt0, CoseKdfContext, CoseKey, CoseKeySet, CoseMac, CoseMac0, CoseRecipient, CoseSign,
    CoseSign1, CoseSignature, FromPull, Header, KeyOperation, KeyType, Label, Lawful, PartyInfo,
    ProtectedHeader, SuppPubInfo, TaggedCborSerializable,
};
use coset_codec::laws::{
    encoding_is_injective, encodings_agree, equal_as_viewed, image_is_described, one_value,
    read_as_item, reads_again, refused_as_bytes, refused_describes_nothing, stays_as_written,
};
use std::fmt;

/// The laws of every type.
///
/// - Bytes describe at most one value, and two spellings of one item describe the same value.
/// - Bytes that aren't one item are refused for that. Bytes that are one item are read as the item
///   is.
/// - An item that is refused describes nothing, unless an allocation failed.
/// - A value that was read is written and read again as itself. So is a value that an item within
///   256 levels describes.
/// - Two values that were read are written as equal bytes exactly if they are equal, however each
///   was spelled.
/// - Those bytes stay the same when they are read and written again.
pub fn keeps_the_laws<T: Lawful + CborSerializable + FromPull + PartialEq + fmt::Debug>()
    ensures one { (s : List ℕ) (x y : T.View) → Describes T.shape s x → Describes T.shape s y
        → x ≡ y }
    ensures spellings { (s t : List ℕ) (v : Item) (x : T.View) → IsItem s v → IsItem t v
        → Describes T.shape s x → Describes T.shape t x }
    ensures refused { (s : List ℕ) (r : Result T CoseError) → ReadsSlice T.shape T.view s r
        → AllocatesForItems s r → NamesWholeFault s r }
    ensures as_items { (s : List ℕ) (v : Item) (r : Result T CoseError) → AreBytes s → IsItem s v
        → ReadsSlice T.shape T.view s r → Reads T.shape T.view v r }
    ensures refused_items { (v : Item) (r : Result T CoseError) → Reads T.shape T.view v r
        → RefusesItem T.shape v r }
    ensures again { (s : List ℕ) (x : T.View) → Describes T.shape s x → ReadsAgain T.shape x }
    ensures items { (v : Item) (x : T.View) → T.shape.describes v x → depth v ≤ 256
        → ReadsAgain T.shape x }
    ensures apart { EncodesInjectively T.shape }
    ensures stays { StaysAsWritten T.shape }
{
    one_value::<T>();
    encodings_agree::<T>();
    refused_as_bytes::<T>();
    read_as_item::<T>();
    refused_describes_nothing::<T>();
    reads_again::<T>();
    encoding_is_injective::<T>();
    stays_as_written::<T>();
}

/// The additional laws of every type that may be under its tag.
///
/// They are the laws about bytes, with the tag. In addition, a value that was read under the tag is
/// read again if it is written without the tag.
pub fn keeps_the_laws_when_tagged<T: Lawful + TaggedCborSerializable>()
    ensures one { (n : ℕ) (s : List ℕ) (x y : T.View) → Describes (tagged n T.shape) s x
        → Describes (tagged n T.shape) s y → x ≡ y }
    ensures spellings { (n : ℕ) (s t : List ℕ) (v : Item) (x : T.View) → IsItem s v → IsItem t v
        → Describes (tagged n T.shape) s x → Describes (tagged n T.shape) t x }
    ensures refused { (n : ℕ) (s : List ℕ) (r : Result T CoseError)
        → ReadsSlice (tagged n T.shape) T.view s r → AllocatesForItems s r → NamesWholeFault s r }
    ensures as_items { (n : ℕ) (s : List ℕ) (v : Item) (r : Result T CoseError) → AreBytes s
        → IsItem s v → ReadsSlice (tagged n T.shape) T.view s r
        → Reads (tagged n T.shape) T.view v r }
    ensures again { (n : ℕ) (s : List ℕ) (x : T.View) → Describes (tagged n T.shape) s x
        → ReadsAgain (tagged n T.shape) x }
    ensures untagged { (n : ℕ) (s : List ℕ) (x : T.View) → Describes (tagged n T.shape) s x
        → ReadsAgain T.shape x }
    ensures apart { (n : ℕ) → EncodesInjectively (tagged n T.shape) }
    ensures stays { (n : ℕ) → StaysAsWritten (tagged n T.shape) }
{
    one_value::<T>();
    encodings_agree::<T>();
    refused_as_bytes::<T>();
    read_as_item::<T>();
    reads_again::<T>();
    encoding_is_injective::<T>();
    stays_as_written::<T>();
}

/// The law of a type that is read from items alone: a value that an item describes is written as an
/// item that describes it.
pub fn keeps_the_law_of_items<T: Lawful + PartialEq + fmt::Debug>()
    ensures { (v : Item) (x : T.View) → T.shape.describes v x → Again T.View T.shape v x }
{
    image_is_described::<T>();
}

/// The additional law of every type that implements `Codec`: `==` is equality of views.
pub fn keeps_the_law_of_equality<T: Codec>()
    ensures { (a b : T) → IsTrue (T.PartialEq.eq a b) ↔ (T.view a ≡ T.view b) }
{
    equal_as_viewed::<T>();
}

/// Applies the laws to every type.
pub fn every_type_keeps_the_laws() {
    every_plain_type_keeps_the_laws();
    every_tagged_type_keeps_the_laws();
    every_codec_keeps_the_law_of_equality();
}

/// Applies the laws to every type as it is read without a tag.
fn every_plain_type_keeps_the_laws() {
    keeps_the_laws::<Value>();
    keeps_the_laws::<Label>();
    keeps_the_laws::<KeyType>();
    keeps_the_laws::<KeyOperation>();
    keeps_the_laws::<ContentType>();
    keeps_the_laws::<Algorithm>();
    keeps_the_laws::<ClaimName>();
    keeps_the_laws::<Header>();
    keeps_the_laws::<ProtectedHeader>();
    keeps_the_laws::<CoseSignature>();
    keeps_the_laws::<CoseCountersignature>();
    keeps_the_laws::<CoseSign>();
    keeps_the_laws::<CoseSign1>();
    keeps_the_laws::<CoseMac>();
    keeps_the_laws::<CoseMac0>();
    keeps_the_laws::<CoseEncrypt>();
    keeps_the_laws::<CoseEncrypt0>();
    keeps_the_laws::<CoseRecipient>();
    keeps_the_laws::<CoseKey>();
    keeps_the_laws::<CoseKeySet>();
    keeps_the_law_of_items::<Timestamp>();
    keeps_the_laws::<ClaimsSet>();
    keeps_the_laws::<PartyInfo>();
    keeps_the_laws::<SuppPubInfo>();
    keeps_the_laws::<CoseKdfContext>();
}

/// Applies the laws to every type with a tag.
fn every_tagged_type_keeps_the_laws() {
    keeps_the_laws_when_tagged::<CoseCountersignature>();
    keeps_the_laws_when_tagged::<CoseSign>();
    keeps_the_laws_when_tagged::<CoseSign1>();
    keeps_the_laws_when_tagged::<CoseMac>();
    keeps_the_laws_when_tagged::<CoseMac0>();
    keeps_the_laws_when_tagged::<CoseEncrypt>();
    keeps_the_laws_when_tagged::<CoseEncrypt0>();
}

/// Applies the law of equality to every type that implements `Codec`.
fn every_codec_keeps_the_law_of_equality() {
    keeps_the_law_of_equality::<Header>();
    keeps_the_law_of_equality::<ProtectedHeader>();
    keeps_the_law_of_equality::<CoseSignature>();
    keeps_the_law_of_equality::<CoseCountersignature>();
    keeps_the_law_of_equality::<CoseSign>();
    keeps_the_law_of_equality::<CoseSign1>();
    keeps_the_law_of_equality::<CoseMac>();
    keeps_the_law_of_equality::<CoseMac0>();
    keeps_the_law_of_equality::<CoseEncrypt>();
    keeps_the_law_of_equality::<CoseEncrypt0>();
    keeps_the_law_of_equality::<CoseRecipient>();
    keeps_the_law_of_equality::<CoseKey>();
    keeps_the_law_of_equality::<CoseKeySet>();
    keeps_the_law_of_equality::<ClaimsSet>();
    keeps_the_law_of_equality::<PartyInfo>();
    keeps_the_law_of_equality::<SuppPubInfo>();
    keeps_the_law_of_equality::<CoseKdfContext>();
}
