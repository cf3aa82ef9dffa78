//! Why bytes could not be read.

ghost use Rattle.std.specs.Prelude.{◌≡◌};
ghost use Rattle.coset_cbor.specs.declared.fault.Fault.TheVariants.{End, Syntax};
ghost use Rattle.coset_cbor.specs.declared.fault.ReadError.TheVariants.{Memory};

use std::alloc::{AllocError, AllocFailed};

/// A fault in the bytes. A number counts the bytes from the start of the faulty head to the end of
/// the input.
#[derive(Clone, Copy, Debug, PartialEq, Eq)]
pub(crate) enum Fault {
    End,
    Syntax(usize),
    Simple(usize),
    Deep,
}

/// Returns `Fault::End`, out of line because few inputs end early.
#[cold]
#[inline(never)]
pub(crate) fn end() -> Fault
    ensures { result ≡ End }
{
    Fault::End
}

/// Returns `Fault::Syntax`, out of line.
#[cold]
#[inline(never)]
pub(crate) fn syntax(left: usize) -> Fault
    ensures { result ≡ Syntax left }
{
    Fault::Syntax(left)
}

#[derive(Debug, Drop)]
pub(crate) enum ReadError {
    Memory,
    Fault(Fault),
}

impl From<Fault> for ReadError {
    ghost use Rattle.coset_cbor.specs.declared.fault.ReadError.TheVariants as errors;

    ghost from_gives = { λ f e. e ≡ errors.Fault f };

    fn from(fault: Fault) -> ReadError {
        ReadError::Fault(fault)
    }
}

impl From<AllocError> for ReadError {
    ghost from_gives = { λ _ e. e ≡ Memory };

    fn from(_e: AllocError) -> ReadError {
        ReadError::Memory
    }
}

impl<T: Drop> From<AllocFailed<T>> for ReadError {
    ghost from_gives = { λ _ e. e ≡ Memory };

    fn from(_e: AllocFailed<T>) -> ReadError {
        ReadError::Memory
    }
}
