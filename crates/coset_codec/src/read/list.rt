//! Lists, read element by element.

ghost use Rattle.std.specs.Prelude.{◌≡◌, ◌≤◌, Some, None, map, IfErr};
ghost use Rattle.coset_value.specs.Item.{Items, no_items};
ghost use Rattle.coset_value.specs.Parts.{as_array};
ghost use Rattle.coset_codec.specs.Results.{Reads};
ghost use Rattle.coset_codec.specs.Lists.{ReadsEach};
ghost use Rattle.coset_codec.specs.Errors.{UnlessMemory};
ghost use Rattle.coset_codec.specs.Inputs.{State, state, AreWithin, ReadsAt, length_left, ReadsForward};
ghost use Rattle.coset_codec.specs.Kinds.{Says, kind};
ghost use Rattle.coset_codec.specs.Shape.{list_of, some_of};

use crate::error::{CoseError, Result};
use crate::read::{ArrayElements, Decoder};
use crate::traits::FromPull;
use std::alloc::Global;

/// Reads the elements that are left, up to the first with a fault.
fn read_each<T: FromPull + Drop>(
    alloc: Global,
    elements: &mut ArrayElements,
    input: &mut Decoder<'_>,
) -> Result<Vec<T>>
    ensures shrinks { length_left (state input.new) ≤ length_left (state input.old) }
    ensures reads { (vs : Items) (z : State) → AreWithin elements.old vs (state input.old) z
        → ((left : Items) × AreWithin elements.new left (state input.new) z)
        × ReadsEach T.shape T.view vs result }
{
    let mut all = Vec::new(alloc);
    while elements.next(input) {
        let element = match T::from_input(alloc, input) {
            Ok(element) => element,
            Err(error) => return Err(error),
        };
        all.push(element)?;
    }
    Ok(all)
}

/// Reads an array whose elements are of one type, in order.
///
/// # Errors
/// - `OutOfMemory` if an allocation fails.
/// - `UnexpectedItem` with `want` if the item is no array.
/// - The fault of the first element that has one.
pub fn read_list<T: FromPull + Drop>(
    alloc: Global,
    input: &mut Decoder<'_>,
    want: &'static str,
) -> Result<Vec<T>>
    ensures forward { ReadsForward (state input.old) (state input.new) result
        (λ v. Reads (list_of T.shape) (λ all. map T.view all.items) v result) }
    ensures says { ReadsAt (state input.old) (state input.new)
        (λ v. IfErr result (λ e. as_array v ≡ None → Says (kind v) want.now e)) }
{
    let mut elements = input.enter_array(want)?;
    let all = read_each(alloc, &mut elements, input);
    elements.finish(input);
    all
}

/// Reads an array that is not empty, with elements of one type.
///
/// # Errors
/// The same as [`read_list`]. An empty array is `UnexpectedItem` with the two texts of `empty`.
pub fn read_nonempty_list<T: FromPull + Drop>(
    alloc: Global,
    input: &mut Decoder<'_>,
    want: &'static str,
    empty: (&'static str, &'static str),
) -> Result<Vec<T>>
    ensures shrinks { length_left (state input.new) ≤ length_left (state input.old) }
    ensures reads { ReadsAt (state input.old) (state input.new)
        (λ v. Reads (some_of T.shape) (λ all. map T.view all.items) v result) }
    ensures says { ReadsAt (state input.old) (state input.new)
        (λ v. IfErr result (λ e. as_array v ≡ None → Says (kind v) want.now e)) }
    ensures empty { ReadsAt (state input.old) (state input.new)
        (λ v. IfErr result (λ e. as_array v ≡ Some no_items
        → UnlessMemory e (Says empty.entry.0.now empty.entry.1.now))) }
{
    let all = read_list(alloc, input, want)?;
    if all.is_empty() {
        return Err(CoseError::UnexpectedItem(empty.0, empty.1));
    }
    Ok(all)
}
