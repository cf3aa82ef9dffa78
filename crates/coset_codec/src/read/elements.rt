//! Arrays with a fixed number of elements. All elements are read in order, even after a fault in
//! one of them.

ghost use Rattle.std.specs.Prelude.{◌≡◌, ◌≤◌};
ghost use Rattle.coset_value.specs.Item.{Items};
ghost use Rattle.coset_codec.specs.Results.{Reads, ReadsElements};
ghost use Rattle.coset_codec.specs.Inputs.{AreWithin, State, length_left, state, ReadsForward};
ghost use Rattle.coset_codec.specs.Shape.{Elements, array_of, end, ◌then◌};

use crate::error::Result;
use crate::read::{ArrayElements, Decode, Decoder};
use std::alloc::Global;

/// The elements of an array, read one by one. `()` is no element, and `(A, P)` is one element
/// followed by the elements `P`. So `(A, (B, ()))` is two elements.
pub trait DecodeElements: Sized {
    /// The view of the values, and which elements of an array represent which values.
    ghost View: { Type 0 };

    ghost view: { Self → View };

    ghost elements: { Elements View };

    /// Elements that represent values are neither too few nor too many.
    ghost fits: { (vs : Items) (x : View)
        → elements.describes vs x → elements.wrong_length vs → ⊥ };

    /// Reads the elements from first to last, and leaves the input just after the array.
    ///
    /// # Errors
    /// - `UnexpectedItem` with `want` if there are too few elements or too many.
    /// - Otherwise the error of the last element that has one.
    fn decode_elements(
        alloc: Global,
        array: &mut ArrayElements,
        input: &mut Decoder<'_>,
        want: &'static str,
    ) -> Result<Self>
        ensures shrinks { length_left (state input.new) ≤ length_left (state input.old) }
        ensures reads { (vs : Items) (z : State) → AreWithin array.old vs (state input.old) z
            → (state input.new ≡ z) × ReadsElements elements view vs result };
}

/// No elements.
impl DecodeElements for () {
    ghost use Rattle.coset_codec.specs.ShapeLaws.{end_laws};

    ghost View = { Unit {0} };

    ghost view = { λ x. x };

    ghost elements = { end };

    ghost fits = { end_laws.fits };

    #[inline]
    fn decode_elements(
        _alloc: Global,
        array: &mut ArrayElements,
        input: &mut Decoder<'_>,
        want: &'static str,
    ) -> Result<()> {
        array.end(input, want)
    }
}

/// An element, and those after it.
impl<A: Decode + Drop, P: DecodeElements + Drop> DecodeElements for (A, P) {
    ghost use Rattle.coset_codec.specs.ShapeLaws.{fits_after};

    ghost View = { A.View × P.View };

    ghost view = { λ x. (A.view x.0, P.view x.1) };

    ghost elements = { A.shape then P.elements };

    ghost fits = { fits_after A.shape P.elements P.fits };

    #[inline]
    fn decode_elements(
        alloc: Global,
        array: &mut ArrayElements,
        input: &mut Decoder<'_>,
        want: &'static str,
    ) -> Result<(A, P)> {
        array.next_required(input, want)?;
        let first = A::decode(alloc, input);
        let others = P::decode_elements(alloc, array, input, want)?;
        Ok((first?, others))
    }
}

/// Reads an array of the elements `P`, from first to last. For two elements, `P` is `(A, (B, ()))`
/// and `want` is `"array with 2 items"`, for example.
///
/// # Errors
/// - `UnexpectedItem` if the item is no array.
/// - `UnexpectedItem` with `want` if the array has another number of elements.
/// - Otherwise the error of the last element that has one: a fault, or `OutOfMemory`.
#[inline]
pub fn decode_array<P: DecodeElements>(
    alloc: Global,
    input: &mut Decoder<'_>,
    want: &'static str,
) -> Result<P>
    ensures forward { ReadsForward (state input.old) (state input.new) result
        (λ v. Reads (array_of P.elements) P.view v result) }
{
    let mut array = input.enter_array("array")?;
    P::decode_elements(alloc, &mut array, input, want)
}
