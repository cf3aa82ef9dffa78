//! Reading items independently, so that a refused item does not affect the others.

ghost use Rattle.std.specs.Prelude.{◌≡◌, IfOk, IfErr};
ghost use Rattle.coset_cbor.specs.Pulls.{pull_item};
ghost use Rattle.coset_codec.specs.Alone.{AreReadAlone, IsReadAlone, elements};
ghost use Rattle.coset_codec.specs.Results.{AllocatesForItems, IsRefused};
ghost use Rattle.coset_codec.specs.declared.error.CoseError.TheVariants.{OutOfMemory};

use crate::error::{CoseError, Result};
use crate::laws::refused_describes_nothing;
use crate::traits::{FromPull, whole_item};
use crate::util::pull_type_error;
use coset_cbor::de::Pull;
use std::alloc::Global;

/// Returns the value that an item describes, or the reason why it describes none.
///
/// # Errors
/// `OutOfMemory` if an allocation fails. This says nothing about the item.
pub fn read_alone<T: FromPull + Drop>(alloc: Global, item: Pull<'_>) -> Result<Result<T>>
    ensures alone { IfOk result (IsReadAlone T.shape T.view (pull_item item.entry)) }
    ensures memory { IfErr result (λ e. e ≡ OutOfMemory) }
{
    refused_describes_nothing::<T>();
    match T::from_pull(alloc, item) {
        Err(CoseError::OutOfMemory) => Err(CoseError::OutOfMemory),
        read => Ok(read),
    }
}

/// Reads each element of an array independently, in order. `bytes` must be one array. Each result
/// is the value that the element describes, or the reason why it describes none. So a key of an
/// unknown type does not affect the other keys of its set (RFC 9052, section 7).
///
/// # Errors
/// - `DecodeFailed`, `ExtraneousData` or `UnexpectedItem` if the bytes are not one array.
/// - `OutOfMemory` if an allocation fails. This happens only if the bytes are one item.
pub fn each_from_slice<T: FromPull + Drop>(alloc: Global, bytes: &[u8]) -> Result<Vec<Result<T>>>
    ensures each { IfOk result (λ all. AreReadAlone T.shape T.view bytes.now all.items) }
    ensures refused { IfErr result (λ e. IsRefused elements bytes.now e) }
    ensures memory { AllocatesForItems bytes.now result }
{
    let whole = whole_item(bytes)?;
    let Some(elements) = whole.items() else {
        return Err(pull_type_error(whole, "array"));
    };
    let mut all = Vec::new(alloc);
    for element in elements {
        all.push(read_alone(alloc, element)?)?;
    }
    Ok(all)
}
