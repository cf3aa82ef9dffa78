//! Lists of values.

ghost use Rattle.std.specs.Prelude.{◌≡◌, IfOk, IfErr};
ghost use Rattle.coset.specs.CoseError.TheVariants.{OutOfMemory};
ghost use Rattle.coset.specs.View.{value_items, value_item};
ghost use Rattle.ffi_make.specs.Messages.{and_item};

use coset::Result;
use coset::cbor::value::Value;

/// Returns the values with one more at the end.
///
/// # Errors
/// `OutOfMemory` if an allocation fails.
pub(crate) fn and_value(mut values: Vec<Value>, value: Value) -> Result<Vec<Value>>
    ensures values { IfOk result (λ vs. value_items vs.items
        ≡ and_item (value_items values.items) (value_item value)) }
    ensures memory { IfErr result (λ e. e ≡ OutOfMemory) }
{
    values.push(value)?;
    Ok(values)
}
