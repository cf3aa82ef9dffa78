//! The look-up of a number, which all registries share.

ghost use Rattle.std.specs.Prelude.{◌≡◌, ℤ, List, Some, IfSome, IsTrue};
ghost use Rattle.coset_iana.specs.Registry.{first_numbered, is_ascending, number-first_numbered};

use crate::EnumI64;

/// A registry: an enum that lists its values and gives each an `i64` number.
pub(crate) trait Registry: Copy + Eq + 'static {
    ghost number: { Self → ℤ };

    ghost values: { List Self };

    ghost ascending: { IsTrue (is_ascending number values) };

    ghost has_each: { (x : Self) → first_numbered number values (number x) ≡ Some x };

    /// How many values have a negative number.
    const NEGATIVES: i64 = 0;

    /// The last negative number, if there is one.
    const LAST_NEGATIVE: i64 = -1;

    /// The first of the other numbers, if there is one.
    const FIRST: i64 = 0;

    /// Returns all values, in ascending order of their numbers.
    fn values() -> &'static [Self]
        ensures { result.now ≡ values };

    /// Returns the number of this value.
    fn number(self) -> i64
        ensures { result ≡ number self };
}

/// Returns the value at the place that `i` has in a registry without gaps.
/// Returns `None` if that value has another number, or if the registry is shorter.
fn value_at_place<T: Registry>(i: i64) -> Option<T>
    ensures { IfSome result (λ x. T.number x ≡ i) }
{
    let from_first = if i < 0 {
        i.wrapping_sub(T::LAST_NEGATIVE).wrapping_sub(1)
    } else {
        i.wrapping_sub(T::FIRST)
    };
    let place = usize::try_from(from_first.wrapping_add(T::NEGATIVES)).ok()?;
    let value = *T::values().get(place)?;
    if value.number() == i {
        Some(value)
    } else {
        None
    }
}

impl<T: Registry> EnumI64 for T {
    ghost number = { T.number };

    ghost value_of = { first_numbered T.number T.values };

    fn from_i64(i: i64) -> Option<T> {
        if let Some(value) = value_at_place(i) {
            return Some(value);
        }
        let values = T::values();
        match values.binary_search_by_key(&i, |value| value.number()) {
            Ok(place) => Some(values[place]),
            Err(_) => None,
        }
    }

    fn to_i64(&self) -> i64 {
        self.number()
    }

    ghost value_of_number = { T.has_each };

    ghost number_of_value = { number-first_numbered T.number T.values };
}
