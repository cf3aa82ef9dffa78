//! A registry of a caller's own, in which every number without a name is for private use.

ghost use Rattle.std.specs.Prelude.{[], ◌∷◌, codes, pos, true, refl};
ghost use Rattle.coset.specs.Registry.{minus};

use coset::iana::{EnumI64, Named, WithPrivateRange};
use std::fmt;

/// The names in the registry.
#[derive(Clone, Copy, Debug, Eq, Ord, PartialEq, PartialOrd)]
pub enum Own {
    Other,
    Reserved,
    Something,
}

impl EnumI64 for Own {
    ghost use Rattle.coset.specs.Registry.{first_numbered, number-first_numbered};
    ghost use Rattle.test_headers.specs.declared.own.Own.TheVariants.{Reserved, Something, Other};

    ghost number = { elim [ Reserved ↦ pos 0 | Something ↦ pos 1 | Other ↦ minus 1 ] };

    ghost value_of = { first_numbered
        (elim [ Reserved ↦ pos 0 | Something ↦ pos 1 | Other ↦ minus 1 ])
        (Reserved ∷ Something ∷ Other ∷ []) };

    fn from_i64(i: i64) -> Option<Own> {
        match i {
            0 => Some(Own::Reserved),
            1 => Some(Own::Something),
            -1 => Some(Own::Other),
            _ => None,
        }
    }

    fn to_i64(&self) -> i64 {
        match self {
            Own::Reserved => 0,
            Own::Something => 1,
            Own::Other => -1,
        }
    }

    ghost value_of_number = { elim [ Reserved ↦ refl | Something ↦ refl | Other ↦ refl ] };

    ghost number_of_value = { number-first_numbered
        (elim [ Reserved ↦ pos 0 | Something ↦ pos 1 | Other ↦ minus 1 ])
        (Reserved ∷ Something ∷ Other ∷ []) };
}

impl Named for Own {
    ghost use Rattle.test_headers.specs.declared.own.Own.TheVariants.{Reserved, Something, Other};

    ghost name = { elim [
      | Reserved ↦ codes "reserved"
      | Something ↦ codes "something"
      | Other ↦ codes "other"
    ] };

    fn name(&self) -> &'static str {
        match self {
            Own::Reserved => "reserved",
            Own::Something => "something",
            Own::Other => "other",
        }
    }
}

impl fmt::Display for Own {
    fn fmt<W: fmt::Write>(&self, f: &mut fmt::Formatter<W>) -> fmt::Result {
        f.pad(self.name())
    }
}

impl WithPrivateRange for Own {
    ghost is_private = { λ _. true };

    fn is_private(_i: i64) -> bool {
        true
    }
}
