//! Protected headers as messages have them: in byte strings.

ghost use Rattle.coset_core.specs.Headers.{protected};
ghost use Rattle.coset_core.specs.Views.{protected_view};

use crate::protected::{ProtectedHeader, ProtectedRef, read_protected};
use coset_codec::read::Decoder;
use coset_codec::write::Encode;
use coset_codec::{Codec, Result};
use std::alloc::Global;

/// A protected header as its byte string in messages (RFC 8152, section 3).
///
/// It is read and written as that byte string. A [`ProtectedHeader`] itself is read and written as
/// its map.
///
/// ```cddl
/// empty_or_serialized_map = bstr .cbor header_map / bstr .size 0
/// ```
#[derive(Debug, Drop, PartialEq, Eq)]
pub struct ProtectedBstr(pub ProtectedHeader);

impl Codec for ProtectedBstr {
    ghost use Rattle.coset_core.specs.EqDecides.{protected_decides};
    ghost use Rattle.coset_core.specs.Headers.{ProtectedView};
    ghost use Rattle.coset_core.specs.HeaderLaws.{protected_laws};

    ghost View = { ProtectedView };

    ghost view = { λ p. protected_view p.0 };

    ghost shape = { protected };

    ghost laws = { protected_laws };

    ghost equal = { λ a b. protected_decides a.0 b.0 };

    fn read(alloc: Global, input: &mut Decoder<'_>) -> Result<ProtectedBstr> {
        Ok(ProtectedBstr(read_protected(alloc, input)?))
    }

    fn size_hint(&self) -> usize {
        ProtectedRef(&self.0).encoded_size_hint()
    }

    fn write(&self, alloc: Global, out: &mut Vec<u8>) -> Result<()> {
        ProtectedRef(&self.0).append(alloc, out)
    }
}
