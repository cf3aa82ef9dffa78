//! Writes answers into the page's memory.

ghost use Rattle.std.specs.Prelude.{◌≡◌, ◌≤◌};
ghost use Rattle.tool_page.specs.Told.{Tells, number_of};
ghost use Rattle.tool_view.specs.Accepted.{AcceptsInput};

use cwt_keys::Form;
use std::alloc::{AllocError, Global};
use tool_seals::described;
use tool_view::{Asked, look, read_bytes};

/// The reason why there is no answer.
#[derive(Clone, Copy, Debug)]
pub enum Unanswered {
    /// An allocation failed.
    Memory,
    /// There is no room for an answer of this length.
    Short(usize),
}

/// Writes the text to the front of `out`, and returns its status.
///
/// # Errors
/// `Short` if `out` is too short, which is then unchanged.
fn put(text: &[u8], status: u8, out: &mut [u8], len: &mut usize) -> Result<u8, Unanswered>
    ensures { Tells (λ s. s ≡ status) out.old out.new len.new result }
{
    *len = text.len();
    if out.len() < text.len() {
        return Err(Unanswered::Short(text.len()));
    }
    let (front, _) = out.split_at_mut(text.len());
    front.copy_from_slice(text);
    Ok(status)
}

/// Writes the text about an input to the front of `out`, and returns the status.
///
/// # Errors
/// - `Memory` if an allocation fails.
/// - `Short` if `out` is too short for the text.
pub(crate) fn answered(
    alloc: Global,
    asked: &Asked,
    input: &[u8],
    out: &mut [u8],
    len: &mut usize,
) -> Result<u8, Unanswered>
    ensures { Tells (λ s. s ≡ 0
        → AcceptsInput asked.entry.now.is_notation asked.entry.now.kind input.now)
        out.old out.new len.new result }
{
    *len = 0;
    match look(alloc, asked, input, "") {
        Ok(shown) => put(shown.text.as_str().as_bytes(), shown.status, out, len),
        Err(_) => Err(Unanswered::Memory),
    }
}

/// Returns the lines about the seals of an input and about the keys. Returns `None` if the input
/// isn't a message.
fn text_of(
    alloc: Global,
    form: Option<Form>,
    input: &[u8],
    keys: &[u8],
    external_aad: &[u8],
) -> Result<Option<String>, AllocError> {
    match read_bytes(alloc, false, input)? {
        Ok(reading) => described(alloc, form, &reading.bytes, keys, external_aad),
        Err(_) => Ok(None),
    }
}

/// Writes the lines about the seals of an input and about the keys to the front of `out`. Returns
/// 0. If the input isn't a message, the text is empty, and 1 is returned.
///
/// # Errors
/// - `Memory` if an allocation fails.
/// - `Short` if `out` is too short for the text.
pub(crate) fn judged(
    alloc: Global,
    form: Option<Form>,
    input: &[u8],
    keys: &[u8],
    external_aad: &[u8],
    out: &mut [u8],
    len: &mut usize,
) -> Result<u8, Unanswered>
    ensures { Tells (λ s. s ≤ 1) out.old out.new len.new result }
{
    *len = 0;
    match text_of(alloc, form, input, keys, external_aad) {
        Ok(Some(text)) => put(text.as_str().as_bytes(), 0, out, len),
        Ok(None) => put(&[], 1, out, len),
        Err(AllocError) => Err(Unanswered::Memory),
    }
}

/// Returns the number that the page gets for an answer.
pub(crate) fn number_of(answer: Result<u8, Unanswered>) -> i32
    ensures { result ≡ number_of answer }
{
    match answer {
        Ok(status) => i32::from(status),
        Err(Unanswered::Memory) => 2,
        Err(Unanswered::Short(_)) => 3,
    }
}
