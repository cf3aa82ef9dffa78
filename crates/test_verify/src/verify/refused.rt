//! The error of keys and ciphers that refuse.

ghost use Rattle.std.specs.Prelude.{Some, codes};
ghost use Rattle.std.specs.Fmt.{◌++?◌, decimal};

use std::fmt;

/// The error of keys and ciphers that refuse, with the number of their calls before this one.
#[derive(Clone, Copy, Debug, Drop, PartialEq, Eq)]
pub struct Refused(pub usize);

impl fmt::Display for Refused {
    ghost output = { λ r. Some (codes "refused at ") ++? Some (decimal r.0) };

    fn fmt<W: fmt::Write>(&self, f: &mut fmt::Formatter<W>) -> fmt::Result {
        write!(f, "refused at {}", self.0)
    }
}
