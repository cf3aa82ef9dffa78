//! Looking up a key in a list of pairs.

ghost use Rattle.std.specs.Prelude.{◌≡◌, option_map};
ghost use Rattle.std.specs.Map.{lookup};

/// Returns the value of the first pair whose key equals `key`, or `None` if there is no such pair.
/// Allocates nothing.
pub fn find_value<'a, K: PartialEq, V>(pairs: &'a [(K, V)], key: &K) -> Option<&'a V>
    ensures { option_map (λ v. v.now) result ≡ lookup (K.eq key.now) pairs.now }
{
    match pairs.iter().find(|pair| *key == pair.0) {
        Some((_, value)) => Some(value),
        None => None,
    }
}
