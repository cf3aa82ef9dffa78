//! Laws about the definitions, which callers may cite. Each law is the contract of a function that
//! does nothing.

ghost use Rattle.std.specs.Prelude.{◌≡◌, ◌<◌, ℕ, ◌+◌, List, [], ◌∷◌, ◌++◌, replicate, true, false};
ghost use Rattle.coset_value.specs.Item.{Item};
ghost use Rattle.coset_value.specs.Range.{IsInRange};
ghost use Rattle.coset_value.specs.Item as model;
ghost use Rattle.coset_cbor.specs.Chunks.{chunks_bytes, chunks_left, text_chunks_bytes, text_chunks_left};
ghost use Rattle.coset_cbor.specs.Grammar.{IsEncoding, AreEncodings, ArePairEncodings, EachInOrder, IsDefinite, IsItem};
ghost use Rattle.coset_cbor.specs.Elements.{items_bytes, items_left, pairs_bytes, pairs_left};
ghost use Rattle.coset_cbor.specs.Pulls.{pull_bytes, pull_item};
ghost use Rattle.coset_cbor.specs.declared.chunks.ByteChunks.{ByteChunks};
ghost use Rattle.coset_cbor.specs.declared.chunks.TextChunks.{TextChunks};
ghost use Rattle.coset_cbor.specs.declared.elements.Items.{Items};
ghost use Rattle.coset_cbor.specs.declared.elements.Pairs.{Pairs};
ghost use Rattle.coset_cbor.specs.declared.pull.Pull.{Pull};
ghost use Rattle.coset_cbor.specs.Cost.{IsCost};
ghost use Rattle.coset_cbor.specs.Prefixes.{AreBytes, HasNoItem, IsEndOfInput};
ghost use Rattle.coset_cbor.specs.ReadErrors.{IsMemory, FaultIn};
ghost use Rattle.coset_cbor.specs.declared.de.EndOfFile.{EndOfFile};
ghost use Rattle.coset_cbor.specs.declared.de.Error.{Error};
ghost use Rattle.coset_cbor.specs.Least.{least_encoding};
ghost use Rattle.coset_cbor.specs.Shortest.{IsShortest};

/// Bytes encode at most one item, and no encoding is a proper prefix of another.
pub fn one_item()
    ensures { (v w : Item) (b c x y : List ℕ) → IsEncoding v b → IsEncoding w c → b ++ x ≡ c ++ y
        → (v ≡ w) × (b ≡ c) }
{}

/// The bytes of a `Pull` encode the item that contracts see of it, within 256 levels, and no other
/// item.
pub fn borrowed_item()
    ensures { (p : Pull) → IsItem (pull_bytes p) (pull_item p)
        × ((v : Item) → IsEncoding v (pull_bytes p) → v ≡ pull_item p) }
{}

/// The remaining bytes of `Items` encode its remaining elements, in order, and no other items. The
/// remaining bytes of `Pairs` encode its remaining keys and values, and no others.
pub fn borrowed_elements()
    ensures items { (it : Items) → AreEncodings (items_left it) (items_bytes it)
        × ((vs : model.Items) → AreEncodings vs (items_bytes it) → vs ≡ items_left it) }
    ensures pairs { (it : Pairs) → ArePairEncodings (pairs_left it) (pairs_bytes it)
        × ((ps : model.Pairs) → ArePairEncodings ps (pairs_bytes it) → ps ≡ pairs_left it) }
{}

/// The remaining bytes of `ByteChunks` and `TextChunks` are definite-length strings, one after the
/// other. Their contents are those of the remaining chunks, and no others (RFC 8949, section
/// 3.2.3).
pub fn borrowed_chunks()
    ensures bytes { (c : ByteChunks)
        → EachInOrder (IsDefinite false) (chunks_left c) (chunks_bytes c)
        × ((ss : List (List ℕ)) → EachInOrder (IsDefinite false) ss (chunks_bytes c)
        → ss ≡ chunks_left c) }
    ensures text { (c : TextChunks)
        → EachInOrder (IsDefinite true) (text_chunks_left c) (text_chunks_bytes c)
        × ((ss : List (List ℕ)) → EachInOrder (IsDefinite true) ss (text_chunks_bytes c)
        → ss ≡ text_chunks_left c) }
{}

/// Every item within CBOR's ranges has exactly one shortest encoding.
pub fn one_shortest()
    ensures { (v : Item) → IsInRange v
        → (b : List ℕ) × IsShortest b v × ((c : List ℕ) → IsShortest c v → c ≡ b) }
{}

/// In the shortest encoding of an item within CBOR's ranges, every head has the least width that
/// holds its argument.
pub fn least_heads_are_shortest()
    ensures { (v : Item) (b : List ℕ) → IsInRange v → IsShortest b v → b ≡ least_encoding v }
{}

/// The encoding whose heads all have the least width is the shortest encoding of an item within
/// CBOR's ranges. So the shortest encoding of an array or a map is its shortest head, then the
/// shortest encodings of its elements, or of its keys and values.
pub fn least_encoding_is_shortest()
    ensures { (v : Item) → IsInRange v → IsShortest (least_encoding v) v }
{}

/// An item with a shortest encoding is within CBOR's ranges.
pub fn shortest_is_in_range()
    ensures { (v : Item) (b : List ℕ) → IsShortest b v → IsInRange v }
{}

/// The shortest encoding of an item is one of its encodings.
pub fn shortest_is_encoding()
    ensures { (v : Item) (b : List ℕ) → IsShortest b v → IsEncoding v b }
{}

/// An encoding has exactly one cost.
pub fn one_cost()
    ensures { (v : Item) (b : List ℕ) → IsEncoding v b
        → (k : ℕ) × IsCost v b k × ((j : ℕ) → IsCost v b j → j ≡ k) }
{}

/// The shortest encoding of an empty array inside n arrays of one element each costs n + 1 steps.
/// It is an item if n is below 256.
pub fn nested_arrays_cost()
    ensures cost { (n k : ℕ) (v : Item) → IsCost v (replicate n 0x81 ++ 0x80 ∷ []) k → k ≡ n + 1 }
    ensures item { (n : ℕ) → n < 256 → (v : Item) × IsItem (replicate n 0x81 ++ 0x80 ∷ []) v }
{}

/// If a fault is in bytes, no prefix of them is an item.
pub fn no_item_at_a_fault()
    ensures { (s : List ℕ) (e : Error EndOfFile) → AreBytes s → (IsMemory e → ⊥) → FaultIn s e
        → HasNoItem s }
{}

/// In a prefix of an item, the end of the input is the only fault, apart from `OutOfMemory`.
pub fn only_end_in_prefix()
    ensures { (v : Item) (b s more : List ℕ) (e : Error EndOfFile) → AreBytes b → IsItem b v
        → b ≡ s ++ more → (IsMemory e → ⊥) → FaultIn s e → IsEndOfInput e }
{}
