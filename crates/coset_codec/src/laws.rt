//! Laws of every type that is read and written. Each law is the contract of a function that does
//! nothing.

ghost use Rattle.std.specs.Prelude.{◌≡◌, ◌↔◌, ◌≤◌, ◌⊎◌, IsTrue, List, Result, ℕ};
ghost use Rattle.coset_value.specs.Item.{Item, depth};
ghost use Rattle.coset_cbor.specs.Prefixes.{AreBytes};
ghost use Rattle.coset_cbor.specs.Grammar.{IsItem};
ghost use Rattle.coset_codec.specs.Results.{AllocatesForItems, Describes, Reads, ReadsSlice, RefusesItem};
ghost use Rattle.coset_codec.specs.PerhapsTagged.{DescribesNoTag, perhaps_tagged};
ghost use Rattle.coset_codec.specs.ReadAgain.{EncodesInjectively, ImagesInjectively, ReadsAgain, StaysAsWritten};
ghost use Rattle.coset_codec.specs.Refusals.{IsNoTag, NamesUnexpected, NamesWholeFault};
ghost use Rattle.coset_codec.specs.Shape.{tagged};
ghost use Rattle.coset_codec.specs.ShapeLaws.{Again};
ghost use Rattle.coset_codec.specs.declared.error.CoseError.{CoseError};

use crate::codec::Codec;
use crate::traits::{AsCborValue, Lawful};
use coset_cbor::laws::{
    least_heads_are_shortest, no_item_at_a_fault, one_item, shortest_is_in_range,
};

/// Bytes describe at most one value: plain, under a tag, or in whichever form `from_any_slice`
/// reads.
pub fn one_value<T: AsCborValue>()
    ensures plain { (s : List ℕ) (x y : T.View) → Describes T.shape s x → Describes T.shape s y
        → x ≡ y }
    ensures tagged { (n : ℕ) (s : List ℕ) (x y : T.View) → Describes (tagged n T.shape) s x
        → Describes (tagged n T.shape) s y → x ≡ y }
    ensures either { (n : ℕ) (s : List ℕ) (x y : T.View) → Describes (perhaps_tagged n T.shape) s x
        → Describes (perhaps_tagged n T.shape) s y → x ≡ y }
{
    one_item();
}

/// Two encodings of one item describe the same value, or neither describes any. The same holds
/// under a tag.
pub fn encodings_agree<T: AsCborValue>()
    ensures plain { (s t : List ℕ) (v : Item) (x : T.View) → IsItem s v → IsItem t v
        → Describes T.shape s x → Describes T.shape t x }
    ensures tagged { (n : ℕ) (s t : List ℕ) (v : Item) (x : T.View) → IsItem s v → IsItem t v
        → Describes (tagged n T.shape) s x → Describes (tagged n T.shape) t x }
{
    one_item();
}

/// Bytes that are not one item are refused for that reason, however much memory there is. If no
/// prefix of them is an item, the error names a fault in them. If more bytes follow an item, the
/// error is `ExtraneousData`. The premises are the clauses `read` and `memory` of `from_slice`,
/// `from_tagged_slice` and `from_any_slice`.
pub fn refused_as_bytes<T: AsCborValue>()
    ensures plain { (s : List ℕ) (r : Result T CoseError) → ReadsSlice T.shape T.view s r
        → AllocatesForItems s r → NamesWholeFault s r }
    ensures tagged { (n : ℕ) (s : List ℕ) (r : Result T CoseError)
        → ReadsSlice (tagged n T.shape) T.view s r → AllocatesForItems s r → NamesWholeFault s r }
    ensures either { (n : ℕ) (s : List ℕ) (r : Result T CoseError)
        → ReadsSlice (perhaps_tagged n T.shape) T.view s r → AllocatesForItems s r
        → NamesWholeFault s r }
{
    one_item();
    no_item_at_a_fault();
}

/// Bytes that are one item are read like that item. The result is the value that the item
/// describes, or a fault of the type in the item, or `OutOfMemory`. Under a tag, an item with no
/// tag or another tag is refused with `UnexpectedItem` or `OutOfMemory`. The premise is the clause
/// `read` of `from_slice`, `from_tagged_slice` and `from_any_slice`.
pub fn read_as_item<T: AsCborValue>()
    ensures plain { (s : List ℕ) (v : Item) (r : Result T CoseError) → AreBytes s → IsItem s v
        → ReadsSlice T.shape T.view s r → Reads T.shape T.view v r }
    ensures tagged { (n : ℕ) (s : List ℕ) (v : Item) (r : Result T CoseError) → AreBytes s
        → IsItem s v → ReadsSlice (tagged n T.shape) T.view s r
        → Reads (tagged n T.shape) T.view v r }
    ensures either { (n : ℕ) (s : List ℕ) (v : Item) (r : Result T CoseError) → AreBytes s
        → IsItem s v → ReadsSlice (perhaps_tagged n T.shape) T.view s r
        → Reads (perhaps_tagged n T.shape) T.view v r }
    ensures untagged { (n : ℕ) (s : List ℕ) (v : Item) (r : Result T CoseError) → AreBytes s
        → IsItem s v → IsNoTag n v → ReadsSlice (tagged n T.shape) T.view s r
        → NamesUnexpected r }
{
    one_item();
    no_item_at_a_fault();
}

/// An item that any call refuses describes no value, unless the error is `OutOfMemory`. The premise
/// is the clause of `from_cbor_value` and of `from_pull`.
pub fn refused_describes_nothing<T: AsCborValue>()
    ensures { (v : Item) (r : Result T CoseError) → Reads T.shape T.view v r
        → RefusesItem T.shape v r }
{}

/// If an item describes a value, the value is written as an item no deeper, which describes the
/// same value. So, unless an allocation fails, `to_cbor_value` writes each value that
/// `from_cbor_value` read. `from_cbor_value` then reads the written item as the same value.
pub fn image_is_described<T: Lawful>()
    ensures { (v : Item) (x : T.View) → T.shape.describes v x → Again T.View T.shape v x }
{}

/// A value that was read, plain or under a tag, is written and read again as itself. A value that
/// was read under a tag is also written without the tag, and read again as itself. The same holds
/// for a value that any item within 256 levels describes, from any source.
pub fn reads_again<T: Lawful>()
    ensures plain { (s : List ℕ) (x : T.View) → Describes T.shape s x → ReadsAgain T.shape x }
    ensures tagged { (n : ℕ) (s : List ℕ) (x : T.View) → Describes (tagged n T.shape) s x
        → ReadsAgain (tagged n T.shape) x }
    ensures untagged { (n : ℕ) (s : List ℕ) (x : T.View) → Describes (tagged n T.shape) s x
        → ReadsAgain T.shape x }
    ensures items { (v : Item) (x : T.View) → T.shape.describes v x → depth v ≤ 256
        → ReadsAgain T.shape x }
{}

/// Every value that `from_any_slice` reads is described plain or under the tag. Conversely,
/// `from_any_slice` reads every value under the tag. It reads every plain value if the type itself
/// describes no such tag. Each value that it reads is written and read again as itself.
pub fn plain_or_tagged<T: Lawful>()
    ensures either { (n : ℕ) (s : List ℕ) (x : T.View) → Describes (perhaps_tagged n T.shape) s x
        → Describes T.shape s x ⊎ Describes (tagged n T.shape) s x }
    ensures tagged { (n : ℕ) (s : List ℕ) (x : T.View) → Describes (tagged n T.shape) s x
        → Describes (perhaps_tagged n T.shape) s x }
    ensures plain { (n : ℕ) (s : List ℕ) (x : T.View) → DescribesNoTag n T.shape
        → Describes T.shape s x → Describes (perhaps_tagged n T.shape) s x }
    ensures again { (n : ℕ) (s : List ℕ) (x : T.View) → Describes (perhaps_tagged n T.shape) s x
        → ReadsAgain T.shape x }
{
    reads_again::<T>();
}

/// Two values that were read are written as equal bytes if and only if they are equal. This holds
/// if both are written plain, or both under one tag. It also holds for the items that they are
/// written as. Each value may come from bytes (with or without a tag), a tree, a borrowed item, or
/// a part of another value. The only premise is that some item describes it.
pub fn encoding_is_injective<T: Lawful>()
    ensures plain { EncodesInjectively T.shape }
    ensures tagged { (n : ℕ) → EncodesInjectively (tagged n T.shape) }
    ensures items { ImagesInjectively T.shape }
{
    one_item();
    shortest_is_in_range();
    least_heads_are_shortest();
}

/// A value that was read is written as bytes that stay the same when they are read and written
/// again. This holds plain or under a tag, and for values from any source.
pub fn stays_as_written<T: Lawful>()
    ensures plain { StaysAsWritten T.shape }
    ensures tagged { (n : ℕ) → StaysAsWritten (tagged n T.shape) }
{
    one_item();
    encoding_is_injective::<T>();
}

/// `==` is equality of what contracts see.
pub fn equal_as_viewed<T: Codec>()
    ensures { (a b : T) → IsTrue (T.PartialEq.eq a b) ↔ (T.view a ≡ T.view b) }
{}
