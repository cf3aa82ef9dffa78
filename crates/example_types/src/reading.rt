//! A reading: an array of fixed elements.

ghost use Rattle.std.specs.Prelude.{ℤ};
ghost use Rattle.coset_codec.specs.Shape.{int64};
ghost use Rattle.coset_codec.specs.ShapeLaws.{int64_laws};
ghost use Rattle.example_types.specs.Reading.{mark_view, view, reading};

use coset_codec::read::{Decoder, decode_array};
use coset_codec::write::{Array, Encode, encode_three};
use coset_codec::{Codec, Result, TaggedCodec};
use std::alloc::Global;

/// A signed 64-bit number.
#[derive(Clone, Copy, Debug, PartialEq, Eq)]
pub struct Mark(pub i64);

impl Codec for Mark {
    ghost use Rattle.std.proofs.Common.{rules};

    ghost View = { ℤ };

    ghost view = { mark_view };

    ghost shape = { int64 };

    ghost laws = { int64_laws };

    ghost equal = { Prim.search rules };

    fn read(_alloc: Global, input: &mut Decoder<'_>) -> Result<Mark> {
        Ok(Mark(input.int64("int")?))
    }

    fn write(&self, alloc: Global, out: &mut Vec<u8>) -> Result<()> {
        self.0.encode(alloc, out)
    }
}

/// A reading: a number, an optional payload, and marks.
#[derive(Debug, Drop, PartialEq, Eq)]
pub struct Reading {
    /// The number of the reading.
    pub number: i64,
    /// The bytes that came with the reading.
    pub payload: Option<Vec<u8>>,
    /// The marks, in order.
    pub marks: Vec<Mark>,
}

impl Codec for Reading {
    ghost use Rattle.coset_codec.specs.EqDecides.{bstr_decides, last_decides, lists_decides, part_decides, parts_decide};
    ghost use Rattle.std.specs.Cmp.{signed_Decides};
    ghost use Rattle.std.specs.Prelude.{refl};
    ghost use Rattle.example_types.specs.Reading.{View as ReadingView, of_parts, parts, reading_laws};

    ghost View = { ReadingView };

    ghost view = { view };

    ghost shape = { reading };

    ghost laws = { reading_laws };

    ghost equal = { λ a b. parts_decide of_parts parts (λ x. refl)
        (part_decides (signed_Decides a.number b.number)
        (part_decides (bstr_decides a.payload b.payload)
        (last_decides (lists_decides mark_view _ (λ x y. signed_Decides x.0 y.0)
        a.marks.items b.marks.items)))) };

    fn read(alloc: Global, input: &mut Decoder<'_>) -> Result<Reading> {
        match decode_array(alloc, input, "array with 3 items") {
            Ok((number, (payload, (marks, ())))) => Ok(Reading {
                number,
                payload,
                marks,
            }),
            Err(error) => Err(error),
        }
    }

    fn write(&self, alloc: Global, out: &mut Vec<u8>) -> Result<()> {
        encode_three(alloc, &self.number, &self.payload, &Array(&self.marks), out)
    }
}

impl TaggedCodec for Reading {
    ghost TAG_NUMBER = { 1000 };

    const TAG_NUMBER: u64 = 1000;
}
