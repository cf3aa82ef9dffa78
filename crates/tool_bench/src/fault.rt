//! The reason why nothing was timed.

use coset_cbor::{EndOfFile, de};
use coset_codec::CoseError;
use std::alloc::{AllocError, AllocFailed};
use std::{fmt, io};

/// The reason why nothing was timed.
#[derive(Debug, Drop)]
pub enum Fault {
    /// The file or the clock can't be read, or the line can't be written.
    System(io::Error),
    /// A call was refused.
    Cose(CoseError),
    /// A call returned something other than the first call did, or accepted bytes that it should
    /// refuse.
    Unexpected,
}

impl fmt::Display for Fault {
    fn fmt<W: fmt::Write>(&self, f: &mut fmt::Formatter<W>) -> fmt::Result {
        match self {
            Fault::System(error) => write!(f, "{error}"),
            Fault::Cose(error) => write!(f, "{error}"),
            Fault::Unexpected => f.write_str("a call answered what wasn't expected"),
        }
    }
}

impl From<io::Error> for Fault {
    fn from(error: io::Error) -> Fault {
        Fault::System(error)
    }
}

impl From<CoseError> for Fault {
    fn from(error: CoseError) -> Fault {
        Fault::Cose(error)
    }
}

impl From<de::Error<EndOfFile>> for Fault {
    fn from(error: de::Error<EndOfFile>) -> Fault {
        Fault::Cose(CoseError::from(error))
    }
}

impl From<AllocError> for Fault {
    fn from(_refused: AllocError) -> Fault {
        Fault::Cose(CoseError::OutOfMemory)
    }
}

impl<T: Drop> From<AllocFailed<T>> for Fault {
    fn from(_refused: AllocFailed<T>) -> Fault {
        Fault::Cose(CoseError::OutOfMemory)
    }
}
