//! The two headers that messages begin with (RFC 8152, section 3).
//!
//! ```cddl
//! Headers = ( protected : empty_or_serialized_map, unprotected : header_map )
//! ```

ghost use Rattle.std.specs.Prelude.{◌≡◌, ◌≤◌};
ghost use Rattle.coset_core.specs.Headers.{empty_header, header as header_shape, protected as protected_shape};
ghost use Rattle.coset_core.specs.Views.{header_view, protected_view};
ghost use Rattle.coset_codec.specs.InPlace.{Fills};
ghost use Rattle.coset_codec.specs.Results.{Reads};
ghost use Rattle.coset_codec.specs.Inputs.{ReadsAt, length_left, state, ReadsForward};
ghost use Rattle.coset_core.specs.Messages.{with_headers};

use crate::header::reading::fill_header;
use crate::header::{Header, LAYERS};
use crate::protected::{ProtectedHeader, fill_bstr};
use coset_codec::error::ErrorStored;
use coset_codec::read::{Decode, DecodeElements, Decoder};
use coset_codec::{CoseError, Result};
use std::alloc::Global;

/// Reads the first element of a message into `protected`, and keeps its bytes. The header of
/// `protected` must be empty.
///
/// # Errors
/// The same as [`ProtectedHeader::from_cbor_bstr`]. `protected` may then have the kept bytes and a
/// part of the header.
pub fn fill_protected_header(
    protected: &mut ProtectedHeader,
    alloc: Global,
    input: &mut Decoder<'_>,
) -> Result<()>
    requires empty { (protected_view protected.old).header ≡ empty_header }
    ensures shrinks { length_left (state input.new) ≤ length_left (state input.old) }
    ensures fills { ReadsAt (state input.old) (state input.new)
        (λ v. Fills protected_shape v (protected_view protected.new) result) }
{
    let mut error = CoseError::OutOfMemory;
    match fill_bstr(protected, alloc, input, &mut error) {
        Ok(()) => Ok(()),
        Err(ErrorStored) => Err(error),
    }
}

/// Reads the second element of a message into `unprotected`, which must be empty.
///
/// # Errors
/// - `OutOfMemory` if an allocation fails.
/// - `UnexpectedItem` if the item is not a map.
/// - Otherwise the first fault found, from the first pair on.
///
/// `unprotected` may then have a part of the header.
pub fn fill_unprotected_header(
    unprotected: &mut Header,
    alloc: Global,
    input: &mut Decoder<'_>,
) -> Result<()>
    requires empty { header_view unprotected.old ≡ empty_header }
    ensures shrinks { length_left (state input.new) ≤ length_left (state input.old) }
    ensures fills { ReadsAt (state input.old) (state input.new)
        (λ v. Fills header_shape v (header_view unprotected.new) result) }
{
    let mut error = CoseError::OutOfMemory;
    match fill_header(unprotected, alloc, input, LAYERS, &mut error) {
        Ok(()) => Ok(()),
        Err(ErrorStored) => Err(error),
    }
}

/// A payload or a ciphertext, or `None` if it is detached: `bstr / nil` (RFC 8152, sections 2, 4.1
/// and 5.1).
#[derive(Debug, Drop)]
pub struct BstrOrNil(pub Option<Vec<u8>>);

impl Decode for BstrOrNil {
    ghost use Rattle.std.specs.Prelude.{List, Option, option_map, ℕ};
    ghost use Rattle.coset_codec.specs.Shape.{bstr, or_nil};

    ghost View = { Option (List ℕ) };

    ghost view = { λ c. option_map (λ b. b.items) c.0 };

    ghost shape = { or_nil bstr };

    fn decode(alloc: Global, input: &mut Decoder<'_>) -> Result<BstrOrNil> {
        Ok(BstrOrNil(input.bytes_or_nil(alloc, "bstr")?))
    }
}

/// Reads the two headers of a message into `protected` and `unprotected`, and returns the other
/// elements. `unprotected` and the header of `protected` must be empty.
///
/// # Errors
/// - `OutOfMemory` if an allocation fails.
/// - `UnexpectedItem` if the item is not an array.
/// - `UnexpectedItem` with `want` if the array has a wrong number of elements.
/// - The fault of the last element that has one.
///
/// `protected` and `unprotected` may then have parts of their headers.
pub fn read_with_headers<P: DecodeElements + Drop>(
    protected: &mut ProtectedHeader,
    unprotected: &mut Header,
    alloc: Global,
    input: &mut Decoder<'_>,
    want: &'static str,
) -> Result<P>
    requires protected { (protected_view protected.old).header ≡ empty_header }
    requires unprotected { header_view unprotected.old ≡ empty_header }
    ensures forward { ReadsForward (state input.old) (state input.new) result
        (λ v. Reads (with_headers P.elements)
        (λ x. (protected_view protected.new, (header_view unprotected.new, P.view x))) v result) }
{
    let mut elements = input.enter_array("array")?;
    elements.next_required(input, want)?;
    let first = fill_protected_header(protected, alloc, input);
    elements.next_required(input, want)?;
    let second = fill_unprotected_header(unprotected, alloc, input);
    let others = P::decode_elements(alloc, &mut elements, input, want)?;
    second?;
    first?;
    Ok(others)
}
