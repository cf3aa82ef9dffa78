//! A parcel: an array of four fixed elements.
//!
//! ```cddl
//! parcel = [ number : int, receiver : bstr, note : bstr / nil, marks : [* int] ]
//! ```

ghost use Rattle.example_types.specs.Parcel.{view, parcel};

use crate::reading::Mark;
use coset_codec::read::{Decoder, decode_array};
use coset_codec::write::{Array, Encode, encode_four};
use coset_codec::{Codec, Result};
use std::alloc::Global;

/// A parcel: a number, a receiver, an optional note, and marks.
#[derive(Debug, Drop, PartialEq, Eq)]
pub struct Parcel {
    pub number: i64,
    pub receiver: Vec<u8>,
    pub note: Option<Vec<u8>>,
    pub marks: Vec<Mark>,
}

impl Codec for Parcel {
    ghost use Rattle.coset_codec.specs.EqDecides.{bstr_decides, vec_decides, last_decides, lists_decides, part_decides, parts_decide};
    ghost use Rattle.std.specs.Cmp.{signed_Decides};
    ghost use Rattle.std.specs.Prelude.{refl};
    ghost use Rattle.example_types.specs.Parcel.{View as ParcelView, of_parts, parcel_laws, parts};
    ghost use Rattle.example_types.specs.Reading.{mark_view};

    ghost View = { ParcelView };

    ghost view = { view };

    ghost shape = { parcel };

    ghost laws = { parcel_laws };

    ghost equal = { λ a b. parts_decide of_parts parts (λ x. refl)
        (part_decides (signed_Decides a.number b.number)
        (part_decides (vec_decides a.receiver b.receiver)
        (part_decides (bstr_decides a.note b.note) (last_decides (lists_decides mark_view _
        (λ x y. signed_Decides x.0 y.0) a.marks.items b.marks.items))))) };

    fn read(alloc: Global, input: &mut Decoder<'_>) -> Result<Parcel> {
        match decode_array(alloc, input, "array with 4 items") {
            Ok((number, (receiver, (note, (marks, ()))))) => Ok(Parcel {
                number,
                receiver,
                note,
                marks,
            }),
            Err(error) => Err(error),
        }
    }

    fn write(&self, alloc: Global, out: &mut Vec<u8>) -> Result<()> {
        let marks = Array(&self.marks);
        encode_four(alloc, &self.number, &self.receiver, &self.note, &marks, out)
    }
}
