//! Laws about the definitions, which callers may cite. Each law is the contract of a function that
//! does nothing.

ghost use Rattle.std.specs.Prelude.{◌≡◌, List, ℕ, Some};
ghost use Rattle.coset.specs.Headers.{ProtectedView};
ghost use Rattle.coset_seen.specs.declared.kind.Kind.{Kind};
ghost use Rattle.coset_seen.specs.Structures.{IsStructureOf, structure_of};

/// If a decoded protected header keeps these bytes as received, both structures are the same: the
/// facade's, and the one over the bytes. They are over the same external data and content.
pub fn structure_of_a_seen_message()
    ensures { (k : Kind) (p : ProtectedView) (b aad content : List ℕ) → p.original ≡ Some b
        → IsStructureOf k p aad content (structure_of k b aad content) }
{}
