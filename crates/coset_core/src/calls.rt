//! Calls of the caller's closures, which check a structure or make something of it.

ghost use Rattle.std.specs.Prelude.{◌≡◌, Option};
ghost use Rattle.coset_value.specs.Item.{Item};
ghost use Rattle.coset_codec.specs.Results.{Writes};
ghost use Rattle.coset_core.specs.Calls.{CallsWith, TriesToCreate};

use coset_codec::{CallError, Result};

/// Calls `f` with `bytes` and `structure`, in this order, and returns its result. For example,
/// `bytes` is a signature, and `structure` is the bytes that it is over. If `structure` is an
/// error, `f` isn't called.
///
/// # Errors
/// - `Coset` with the error in `structure`, if it is one.
/// - `Caller` with the error that `f` returns.
pub fn call_with<F, U, E>(bytes: &[u8], structure: Result<Vec<u8>>, f: F) -> Result<U, CallError<E>>
where
    F: FnOnce(&[u8], &[u8]) -> Result<U, E> + Drop,
    E: Drop,
    requires { F.IsAlwaysCallable f }
    ensures { (o : Option Item) → Writes o (λ b. b.items) structure
        → CallsWith F.FnOnce f bytes.now o result }
{
    let structure = structure?;
    match f(bytes, &structure) {
        Ok(answer) => Ok(answer),
        Err(error) => Err(CallError::Caller(error)),
    }
}

/// Returns the result of `f` for a structure, such as a signature over it. Calls `f` once if the
/// structure could be made, and not at all otherwise.
///
/// # Errors
/// - `Coset` with the error in `structure`, if it is one.
/// - `Caller` with the error that `f` returns.
pub fn create_with<F, V, E>(structure: Result<Vec<u8>>, f: F) -> Result<V, CallError<E>>
where
    F: FnOnce(&[u8]) -> Result<V, E> + Drop,
    E: Drop,
    requires { F.IsAlwaysCallable f }
    ensures { (o : Option Item) → Writes o (λ b. b.items) structure
        → TriesToCreate F.FnOnce f o (λ made given. made ≡ given) result }
{
    let structure = structure?;
    match f(&structure) {
        Ok(made) => Ok(made),
        Err(error) => Err(CallError::Caller(error)),
    }
}
