//! The `crit` parameter: the labels that a reader must understand (RFC 8152, section 3.1).

ghost use Rattle.std.specs.Prelude.{◌≡◌, ◌≤◌, map, OnOk, IfOk, IfErr, OnErr};
ghost use Rattle.coset_core.specs.Views.{critical_view};
ghost use Rattle.coset_codec.specs.Results.{Reads};
ghost use Rattle.coset_codec.specs.Errors.{UnlessMemory};
ghost use Rattle.coset_codec.specs.Inputs.{state, ReadsAt, length_left};
ghost use Rattle.coset_core.specs.Fields.{critical};
ghost use Rattle.coset_codec.specs.Maps.{RefusesValue, TakesValue, unless_empty};
ghost use Rattle.coset_codec.specs.Shape.{some_of};
ghost use Rattle.std.specs.Cmp.Lexicographic.{pointwise};
ghost use Rattle.coset_core.specs.Same.{critical_eq};

use coset_codec::Result;
use coset_codec::read::{Decoder, read_nonempty_list};
use coset_iana::HeaderParameter;
use coset_label::RegisteredLabelWithPrivate;
use std::alloc::Global;

/// Reads the value of `crit`, which must not be empty.
#[tactic(auto, unfolding(crate::specs::Fields::critical))]
fn read_critical(
    alloc: Global,
    input: &mut Decoder<'_>,
) -> Result<Vec<RegisteredLabelWithPrivate<HeaderParameter>>>
    ensures shrinks { length_left (state input.new) ≤ length_left (state input.old) }
    ensures reads { ReadsAt (state input.old) (state input.new)
        (λ v. Reads (some_of critical) (λ all. map critical_view all.items) v result) }
{
    read_nonempty_list(
        alloc,
        input,
        "array value",
        ("empty array", "non-empty array"),
    )
}

/// Sets `crit`. Returns `DuplicateMapKey` if it is set already.
pub(crate) fn set_critical(
    alloc: Global,
    field: &mut Vec<RegisteredLabelWithPrivate<HeaderParameter>>,
    input: &mut Decoder<'_>,
) -> Result<()>
    ensures shrinks { length_left (state input.new) ≤ length_left (state input.old) }
    ensures takes { ReadsAt (state input.old) (state input.new) (λ v. OnOk result
        (TakesValue (unless_empty (some_of critical)) v
        (map critical_view field.old.items) (map critical_view field.new.items))) }
    ensures refused { ReadsAt (state input.old) (state input.new) (λ v. IfErr result
        (λ e. UnlessMemory e (RefusesValue (unless_empty (some_of critical)) v
        (map critical_view field.old.items)))) }
    ensures kept { OnErr result (field.new ≡ field.old) }
{
    if !field.is_empty() {
        return Err(input.repeated());
    }
    *field = read_critical(alloc, input)?;
    Ok(())
}

pub(crate) fn same_critical(
    a: &Vec<RegisteredLabelWithPrivate<HeaderParameter>>,
    b: &Vec<RegisteredLabelWithPrivate<HeaderParameter>>,
) -> bool
    ensures { result ≡ pointwise critical_eq (map critical_view a.now.items)
        (map critical_view b.now.items) }
{
    *a == *b
}
