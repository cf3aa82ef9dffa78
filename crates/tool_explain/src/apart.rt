//! Takes the input apart.

ghost use Rattle.std.specs.Prelude.{◌≡◌, ◌≤◌, ◌+◌, ◌*◌, IfOk, IfSome, IsSome, MatchOption, None, Some, length};
ghost use Rattle.tool_explain.specs.Column.{EndsAt, column, place, shown, whole};
ghost use Rattle.tool_explain.specs.Refusal.{JudgesAs};
ghost use Rattle.tool_fault.specs.Places.{IsPlace};

use crate::about::About;
use crate::column::{Column, Line};
use crate::faults::Fault;
use crate::hunt::Hunt;
use crate::kind::Kind;
use crate::paths::{path, steps};
use crate::refusal;
use crate::walk::Walk;
use coset::CoseError;
use coset::cbor::de::Pull;
use std::alloc::{AllocError, Global};
use tool_fault::{Step, fault_at};

/// An input, taken apart.
#[derive(Drop)]
pub struct Explained<'a> {
    /// The lines. If [`explain`] refused the input and knows the fault's place, the last line has
    /// all bytes from the fault on.
    pub lines: Vec<Line<'a>>,
    /// The reason why the input isn't of the kind.
    pub error: Option<CoseError>,
    /// The offset and the kind of the first fault, if its place is known.
    pub fault: Option<(usize, Fault)>,
    /// Facts for the summary.
    pub(crate) about: About,
}

/// The reason why an input isn't of a kind.
#[derive(Drop)]
pub struct Refusal {
    /// The error of the library's decoder.
    pub error: CoseError,
    /// The place of the fault that the error names, if it was found.
    pub place: Option<Place>,
}

/// A place in an input.
#[derive(Drop)]
pub struct Place {
    /// The offset in the input.
    pub offset: usize,
    /// The steps to the place.
    pub steps: Vec<Step>,
    /// The steps as a text:
    ///
    /// - `.` and a label for the value under it; `{`, a label and `}` for the label itself.
    /// - `.` and a name for an element that has one; `[`, an index and `]` for another element.
    /// - `()` for the content of a tag, `<<>>` for the content of a byte string.
    /// - `(_`, an index and `)` for a chunk.
    /// - `.` alone for the whole input.
    pub path: String,
}

/// Returns the lines of the walk. If the input was refused, one more line says so and has the rest
/// of the input.
fn lines_of<'a>(
    mut so_far: Column<'a>,
    error: Option<&CoseError>,
    fault: Option<(usize, Fault)>,
    path: &str,
) -> Result<Vec<Line<'a>>, AllocError>
    ensures column { IfOk result (λ lines. column lines.items ≡ whole so_far.entry) }
    ensures lines { IfOk result (λ lines. length lines.items ≤ shown so_far.entry + 1) }
    ensures ends { IsSome fault → IfOk result (λ lines. EndsAt (place so_far.entry) lines.items) }
{
    if fault.is_none() && error.is_none() {
        return so_far.finish();
    }
    refusal::push(&mut so_far.note, error, fault, path)?;
    so_far.is_refused = true;
    so_far.end_with_rest()
}

/// Runs the walk to its end: a fault, or the end of the input.
fn walked<'a, 'e>(alloc: Global, mut walk: Walk<'a, 'e>) -> Result<Walk<'a, 'e>, AllocError>
    ensures whole { IfOk result (λ w. whole w.column ≡ whole walk.entry.column) }
    ensures lines { IfOk result (λ w. shown w.column
        ≤ shown walk.entry.column + (2 * length walk.entry.bytes.now + 2)) }
{
    let count = walk.bytes.len();
    walk.run(alloc, count)?;
    walk.end_line(alloc)?;
    Ok(walk)
}

/// Walks over bytes that should be of `kind`, up to the first fault or the end.
fn walk_to_fault<'a, 'e>(
    alloc: Global,
    kind: Kind,
    bytes: &'a [u8],
    error: Option<&'e CoseError>,
    now: Option<i64>,
) -> Result<Walk<'a, 'e>, AllocError>
    ensures whole { IfOk result (λ w. whole w.column ≡ bytes.now) }
    ensures lines { IfOk result (λ w. shown w.column ≤ 2 * length bytes.now + 2) }
{
    let hunt = Hunt::of(alloc, error);
    walked(alloc, Walk::new(alloc, bytes, kind.role(), hunt, now)?)
}

/// Walks over bytes that should be of `kind`. Opens byte strings that contain a message or claims,
/// and goes on after a fault if it can.
fn walk_through<'a, 'e>(
    alloc: Global,
    kind: Kind,
    bytes: &'a [u8],
    error: Option<&'e CoseError>,
    keys: &'e [Option<CoseError>],
    now: Option<i64>,
) -> Result<Walk<'a, 'e>, AllocError>
    ensures whole { IfOk result (λ w. whole w.column ≡ bytes.now) }
    ensures lines { IfOk result (λ w. shown w.column ≤ 2 * length bytes.now + 2) }
{
    let hunt = Hunt::of(alloc, error);
    walked(
        alloc,
        Walk::through(alloc, bytes, kind.role(), hunt, keys, now)?,
    )
}

/// Returns the error of each key of a set, `None` for a key that is accepted. The list is empty for
/// another kind, and for bytes that aren't one array.
fn key_errors(
    alloc: Global,
    kind: Kind,
    bytes: &[u8],
) -> Result<Vec<Option<CoseError>>, AllocError> {
    let mut errors = Vec::new(alloc);
    if kind != Kind::Keyset {
        return Ok(errors);
    }
    let Ok((pull, rest)) = Pull::new(bytes) else {
        return Ok(errors);
    };
    if !rest.is_empty() {
        return Ok(errors);
    }
    if let Some(keys) = pull.items() {
        for key in keys {
            let error = Kind::Key.refusal(alloc, key.slice());
            if matches!(error, Some(CoseError::OutOfMemory)) {
                return Err(AllocError);
            }
            errors.push(error)?;
        }
    }
    Ok(errors)
}

/// Returns the place where the walk ended, if the fault that the error names is there.
fn place_of(
    alloc: Global,
    bytes: &[u8],
    error: &CoseError,
    walk: &Walk<'_, '_>,
) -> Result<Option<Place>, AllocError>
    ensures place { IfOk result (λ o. IfSome o
        (λ p. IsPlace error.now bytes.now p.steps.items p.offset)) }
    ensures within { IfOk result (λ o. IfSome o (λ p. p.offset ≤ length bytes.now)) }
{
    let Some(fault) = walk.fault else {
        return Ok(None);
    };
    let steps = steps(alloc, &walk.open, fault == Fault::Extraneous)?;
    let path = path(alloc, bytes, &walk.open, walk.column.left())?;
    match fault_at(alloc, bytes, error, &steps, walk.hunt.earlier)? {
        Some(offset) => Ok(Some(Place {
            offset,
            steps,
            path,
        })),
        None => Ok(None),
    }
}

/// Takes bytes that should be of `kind` apart into lines.
///
/// Each line has some bytes, their meaning with registered names, and a note. With `now`, in
/// seconds since 1970 began, the notes say if a token has expired or isn't valid yet at that
/// moment.
///
/// The bytes of the lines are the input: each byte once and in order, whatever the input is. If the
/// bytes are refused, everything before the fault is shown, and the last line has the rest. A fault
/// of CBOR always has a place. A fault of a type has one if an item of the kind that the error
/// names is found, or a repeated label.
///
/// # Errors
/// `AllocError` if an allocation fails.
pub fn explain<'a>(
    alloc: Global,
    kind: Kind,
    bytes: &'a [u8],
    now: Option<i64>,
) -> Result<Explained<'a>, AllocError>
    // The bytes of the lines are the input.
    ensures column { IfOk result (λ e. column e.lines.items ≡ bytes.now) }
    // There are at most 2 n + 3 lines for n bytes.
    ensures lines { IfOk result (λ e. length e.lines.items ≤ 2 * length bytes.now + 3) }
    // If the fault has a place, the last line has the bytes from there on.
    ensures place { IfOk result (λ e. IfSome e.fault (λ f. EndsAt f.0 e.lines.items)) }
    // The error is the one of the library's decoder.
    ensures error { IfOk result (λ e. JudgesAs kind bytes.now e.error) }
{
    let error = kind.refusal(alloc, bytes);
    if matches!(error, Some(CoseError::OutOfMemory)) {
        return Err(AllocError);
    }
    let walk = walk_to_fault(alloc, kind, bytes, error.as_ref(), now)?;
    let left = walk.column.left();
    let fault = match walk.fault {
        Some(fault) => Some((bytes.len().saturating_sub(left), fault)),
        None => None,
    };
    let path = path(alloc, bytes, &walk.open, left)?;
    let lines = lines_of(walk.column, error.as_ref(), fault, path.as_str())?;
    let about = walk.about;
    Ok(Explained {
        lines,
        error,
        fault,
        about,
    })
}

/// Takes all of the bytes apart as [`explain`] does, and goes further.
///
/// - It opens byte strings that contain a message or claims, and those of tag 24.
/// - It shows a faulty key of a set up to its fault, and then the keys after it.
/// - It shows a simple value other than false, true and null, and the bytes after it.
///
/// Each fault has its place in its note, and `fault` is the first fault.
///
/// # Errors
/// `AllocError` if an allocation fails.
pub fn explain_whole<'a>(
    alloc: Global,
    kind: Kind,
    bytes: &'a [u8],
    now: Option<i64>,
) -> Result<Explained<'a>, AllocError>
    // The bytes of the lines are the input.
    ensures column { IfOk result (λ e. column e.lines.items ≡ bytes.now) }
    // There are at most 2 n + 3 lines for n bytes.
    ensures lines { IfOk result (λ e. length e.lines.items ≤ 2 * length bytes.now + 3) }
    // The error is the one of the library's decoder.
    ensures error { IfOk result (λ e. JudgesAs kind bytes.now e.error) }
{
    let error = kind.refusal(alloc, bytes);
    if matches!(error, Some(CoseError::OutOfMemory)) {
        return Err(AllocError);
    }
    let keys = key_errors(alloc, kind, bytes)?;
    let walk = walk_through(alloc, kind, bytes, error.as_ref(), &keys, now)?;
    let left = walk.column.left();
    let offset = bytes.len().saturating_sub(left);
    let last = match walk.fault {
        Some(fault) => Some((offset, fault)),
        None => None,
    };
    let path = path(alloc, bytes, &walk.open, left)?;
    let fault = walk.first.or(last);
    // Faults that the walk went past are in notes already.
    let unsaid = if walk.first.is_some() {
        None
    } else {
        error.as_ref()
    };
    let lines = lines_of(walk.column, unsaid, last, path.as_str())?;
    let about = walk.about;
    Ok(Explained {
        lines,
        error,
        fault,
        about,
    })
}

/// Returns why the bytes aren't of `kind` and where the fault is, or `None` if they are of `kind`.
///
/// The place has an offset and a path. The offset is one in the input, also for a fault in a
/// protected byte string. The fault was checked again by following the steps from the front of the
/// bytes. If several items have the fault that the error names, the place is that of the first.
///
/// # Errors
/// `AllocError` if an allocation fails.
pub fn fault(alloc: Global, kind: Kind, bytes: &[u8]) -> Result<Option<Refusal>, AllocError>
    // The error is the one of the library's decoder.
    ensures error { IfOk result (λ o. MatchOption o (JudgesAs kind bytes.now None)
        (λ r. JudgesAs kind bytes.now (Some r.error))) }
    // The steps lead to the offset, and the fault that the error names is there.
    ensures place { IfOk result (λ o. IfSome o (λ r. IfSome r.place
        (λ p. IsPlace r.error bytes.now p.steps.items p.offset))) }
    // The offset is in the bytes, or at their end.
    ensures within { IfOk result (λ o. IfSome o (λ r. IfSome r.place
        (λ p. p.offset ≤ length bytes.now))) }
{
    let Some(error) = kind.refusal(alloc, bytes) else {
        return Ok(None);
    };
    if matches!(error, CoseError::OutOfMemory) {
        return Err(AllocError);
    }
    let walk = walk_to_fault(alloc, kind, bytes, Some(&error), None)?;
    let place = place_of(alloc, bytes, &error, &walk)?;
    Ok(Some(Refusal { error, place }))
}
