//! Laws of thumbprints, which callers may cite. Each law is the contract of an empty function.

ghost use Rattle.cose_thumbprint.specs.ThumbprintLaws.{InputsAgree, InputsAreDeterministic};

use coset::laws::{one_item, one_shortest, shortest_is_encoding, shortest_is_in_range};

/// If two keys have thumbprint inputs, these are the same exactly if both keys have the same type
/// and the same values of the members that it requires.
pub fn inputs_agree()
    ensures { InputsAgree }
{
    one_item();
    one_shortest();
    shortest_is_encoding();
    shortest_is_in_range();
}

/// Each thumbprint input is the deterministic encoding of its map: heads are the shortest, and
/// labels are in the order of their encodings (RFC 8949, section 4.2.1).
pub fn inputs_are_deterministic()
    ensures { InputsAreDeterministic }
{}
