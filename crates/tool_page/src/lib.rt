//! The viewer for a page: functions with the C calling convention, which `tools/page` compiles to
//! WebAssembly.
#![tactic(auto)]

ghost use Rattle.std.specs.Prelude.{◌≡◌, ◌≤◌, ℕ, Result, false};
ghost use Rattle.tool_page.specs.Numbers.{kind_of};
ghost use Rattle.tool_page.specs.Told.{Tells, number_of};
ghost use Rattle.tool_page.specs.declared.answer.Unanswered.{Unanswered};
ghost use Rattle.tool_view.specs.Accepted.{AcceptsInput};

mod answer;
mod numbers;

use answer::{Unanswered, answered, judged, number_of};
use numbers::{asked, message_form};
use std::alloc::Global;

/// Shows an input: writes text to the front of `out`, and its length to `len`.
///
/// `now` is a moment unless `has_now` is 0. Returns one of these numbers:
///
/// - 0 if the input is of the kind.
/// - 1 if it was refused.
/// - 2 if an allocation failed. Then `len` is 0.
/// - 3 if `out` has no room for the text. Then `len` is the length that is needed.
///
/// With 2 and 3, `out` is unchanged.
#[unsafe(no_mangle)]
pub extern "C" fn page_look(
    alloc: Global,
    input: &[u8],
    kind: u32,
    form: u32,
    has_now: u32,
    now: i64,
    external_aad: &[u8],
    out: &mut [u8],
    len: &mut usize,
) -> i32
    // At most `out` is written. 0 says that the library reads the input as its kind.
    ensures { (r : Result ℕ Unanswered) × (result ≡ number_of r) × Tells
        (λ s. s ≡ 0 → AcceptsInput false (kind_of kind) input.now) out.old out.new len.new r }
{
    *len = 0;
    let now = if has_now == 0 { None } else { Some(now) };
    match asked(alloc, kind, form, now, external_aad) {
        Ok(asked) => number_of(answered(alloc, &asked, input, out, len)),
        Err(_) => number_of(Err(Unanswered::Memory)),
    }
}

/// Writes which of `keys` fits which signature or MAC of an input's message, and which bytes each
/// covers. The text is that of `tool_seals`. Its length is written to `len`.
///
/// `keys` are the bytes of a `COSE_Key` or a `COSE_KeySet`, or empty. A `kind` that is no message
/// counts as 0: the tag or the bytes say which message it is. Returns one of these numbers:
///
/// - 0 if the input is a message. The text is at the front of `out`.
/// - 1 if it isn't. Then `len` is 0.
/// - 2 if an allocation failed. Then `len` is 0.
/// - 3 if `out` has no room for the text. Then `len` is the length that is needed.
///
/// With 1, 2 and 3, `out` is unchanged.
#[unsafe(no_mangle)]
pub extern "C" fn page_seals(
    alloc: Global,
    input: &[u8],
    kind: u32,
    keys: &[u8],
    external_aad: &[u8],
    out: &mut [u8],
    len: &mut usize,
) -> i32
    // At most `out` is written.
    ensures { (r : Result ℕ Unanswered) × (result ≡ number_of r) × Tells
        (λ s. s ≤ 1) out.old out.new len.new r }
{
    number_of(judged(
        alloc,
        message_form(kind),
        input,
        keys,
        external_aad,
        out,
        len,
    ))
}
