//! Lists whose elements contain lists of their own kind, as recipients contain recipients. The
//! input chooses how deep these nest, and returning a value takes its size in stack at every level.
//! So an element is made empty at its place in the list, and filled there.

ghost use Rattle.std.specs.Prelude.{◌≡◌, ◌≤◌, ◌<◌, [], option_map, IfOk, IsTrue, OnOk};
ghost use Rattle.coset_value.specs.Item.{Items};
ghost use Rattle.coset_codec.specs.Errors.{stored};
ghost use Rattle.coset_codec.specs.InPlace.{BeginsNext, GetsOne, GetsPlace};
ghost use Rattle.coset_codec.specs.Inputs.{State, state, AreWithin, MovesForward, input_size, items_size, items_turns, length_left};

use crate::error::{CoseError, ErrorStored};
use crate::read::{ArrayElements, Decoder};
use crate::util::copy_bstr;
use std::alloc::{AllocError, Global};

/// A type whose values are made empty and then filled in place.
pub trait InPlace: Sized + Drop {
    /// The property of an empty value.
    ghost is_empty: { Self → Type 0 };

    /// Returns an empty value. Allocates nothing.
    fn empty(alloc: Global) -> Self
        ensures { is_empty result };
}

/// Appends an empty value to a list. The first one reserves room for itself alone.
///
/// # Errors
/// `AllocError` if an allocation fails.
#[inline(never)]
pub fn push_empty<T: InPlace>(all: &mut Vec<T>) -> Result<(), AllocError>
    ensures { OnOk result (GetsOne T.is_empty all.old.items all.new.items) }
{
    if all.is_empty() {
        all.reserve_exact(1)?;
    } else {
        all.reserve(1)?;
    }
    let alloc = *all.allocator();
    all.push_reserved(T::empty(alloc));
    Ok(())
}

/// If the array has another element, pushes an empty value for it and returns true. The element is
/// then at the input.
///
/// # Errors
/// `ErrorStored` if an allocation fails. `error` is then `OutOfMemory`, and the element is skipped.
#[inline(never)]
pub fn next_place<T: InPlace>(
    all: &mut Vec<T>,
    elements: &mut ArrayElements,
    input: &mut Decoder<'_>,
    error: &mut CoseError,
) -> Result<bool, ErrorStored>
    ensures shrinks { length_left (state input.new) ≤ length_left (state input.old) }
    ensures size { items_size elements.new (state input.new) ≤ items_size elements.old
        (state input.old) }
    ensures element { IfOk result (λ b. IsTrue b
        → input_size (state input.new) ≤ items_size elements.old (state input.old)) }
    ensures turns { IfOk result (λ b. IsTrue b → (t : State) → MovesForward (state input.new) t
        → items_turns elements.new t < items_turns elements.old (state input.old)) }
    ensures place { IfOk result (GetsPlace T.is_empty all.old.items all.new.items) }
    ensures next { (vs : Items) (z : State) → AreWithin elements.old vs (state input.old) z
        → BeginsNext vs (state input.new) z elements.new (stored error.new result) }
{
    if !elements.next(input) {
        return Ok(false);
    }
    if push_empty(all).is_err() {
        input.skip();
        *error = CoseError::OutOfMemory;
        return Err(ErrorStored);
    }
    Ok(true)
}

/// Drops a value that was read in part, because its item is refused. A function that drops a value
/// keeps room for it in its stack frame. It clears that room on every path, even if nothing is
/// dropped. So the drop has a function of its own.
#[cold]
#[inline(never)]
pub fn drop_refused<T: Drop>(_value: T) {}

/// Empties a list and reserves room for `count` values.
///
/// # Errors
/// `AllocError` if an allocation fails. The list is empty all the same.
#[inline(never)]
pub fn make_room<T: Drop>(copies: &mut Vec<T>, count: usize) -> Result<(), AllocError>
    ensures { copies.new.items ≡ [] }
{
    copies.clear();
    copies.reserve_exact(count)
}

/// Copies bytes that may be missing into `copy`.
///
/// # Errors
/// `AllocError` if an allocation fails.
#[inline(never)]
pub fn copy_bstr_to(bytes: &Option<Vec<u8>>, copy: &mut Option<Vec<u8>>) -> Result<(), AllocError>
    ensures { OnOk result (option_map (λ b. b.items) copy.new
        ≡ option_map (λ b. b.items) bytes.now) }
{
    *copy = copy_bstr(bytes)?;
    Ok(())
}
