//! The function that writes the structure of a countersignature.

ghost use Rattle.std.specs.Prelude.{◌≡◌, MatchOption};
ghost use Rattle.ffi_query.specs.Results.{ReturnsOr};
ghost use Rattle.ffi_query.specs.Countersigns.{HasNoCountersigned, IsCountersigned};
ghost use Rattle.ffi_c.specs.Numbers.{bytes_if, countersign_query};
ghost use Rattle.ffi_c.specs.Replies.{IsMisuse, Replies};

use crate::lengths::within;
use crate::numbers::{bytes_if, countersign_query};
use crate::replies::{misused, reply};
use ffi_query::countersign_structure_of;
use std::alloc::Global;

/// Writes the structure that a countersignature of the input signs.
///
/// `label` says which countersignature it is, and `signer` is the content of its own protected
/// header. `detached` is the payload if `has_detached` isn't 0; else it is empty.
#[unsafe(no_mangle)]
pub extern "C" fn coset_countersign_structure(
    alloc: Global,
    kind: u32,
    input: &[u8],
    label: i64,
    signer: &[u8],
    external_aad: &[u8],
    has_detached: u32,
    detached: &[u8],
    out: &mut [u8],
    len: &mut usize,
) -> i32
    ensures { let d = bytes_if has_detached detached.now in
        MatchOption (countersign_query kind label has_detached detached.now)
        (IsMisuse result len.new 0 × (out.new ≡ out.old))
        (λ q. Replies (ReturnsOr q.0 input.now
        (IsCountersigned q.0 q.1 signer.now external_aad.now d)
        (HasNoCountersigned q.0 q.1 signer.now external_aad.now d) out.old out.new)
        result len.new) }
{
    let query = within(
        countersign_query(kind, label, has_detached, detached),
        input,
        out,
    );
    match within(within(query, signer, external_aad), detached, &[]) {
        Some((kind, countersignature)) => {
            let detached = bytes_if(has_detached, detached);
            reply(
                countersign_structure_of(
                    alloc,
                    kind,
                    input,
                    countersignature,
                    signer,
                    external_aad,
                    detached,
                    out,
                ),
                len,
            )
        }
        None => misused(0, len),
    }
}
