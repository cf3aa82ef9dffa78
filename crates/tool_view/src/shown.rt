//! The output for an input.

ghost use Rattle.std.specs.Prelude.{◌≡◌, IfOk, None, false};
ghost use Rattle.tool_explain.specs.Refusal.{JudgesAs};
ghost use Rattle.tool_explain.specs.declared.kind.Kind.TheVariants.{Auto};
ghost use Rattle.tool_view.specs.Accepted.{Accepts, AcceptsInput};

use crate::asked::{Asked, Form};
use crate::json::{Told, object};
use crate::page::section;
use crate::read::{Reading, read_bytes};
use crate::rows::rows;
use crate::sequence::{items, mark, push_item};
use coset::CoseError;
use coset::cwt::Timestamp;
use std::alloc::{AllocError, Global};
use tool_explain::{
    Kind, Line, Style, commented, explain, explain_whole, fault, fitting, notation, push_date,
    shortened_note, structure_notes, styled,
};

/// The status of an input that has its kind.
pub(crate) const TAKEN: u8 = 0;

/// The status of an input that was refused.
pub(crate) const REFUSED: u8 = 1;

/// The status if a file can't be read, an argument isn't understood, or an allocation fails.
pub const UNANSWERED: u8 = 2;

/// The output for an input.
#[derive(Drop)]
pub struct Shown {
    /// A line for standard error: how the input was read, or where it is misspelled.
    pub said: String,
    /// The text about the bytes.
    pub text: String,
    /// The status.
    pub status: u8,
}

/// Returns the status of an input that was refused or not.
fn status_of(is_refused: bool) -> u8
    ensures { result ≡ 0 → is_refused ≡ false }
{
    if is_refused { REFUSED } else { TAKEN }
}

/// Returns true if the bytes begin with a tag.
fn begins_with_tag(bytes: &[u8]) -> bool {
    match bytes.first() {
        Some(first) => *first / 32 == 6,
        None => false,
    }
}

/// Adds all kinds but the first.
fn push_others(kinds: &[Kind], others: &mut Vec<Kind>) -> Result<(), AllocError> {
    for kind in kinds.iter().skip(1) {
        others.push(*kind)?;
    }
    Ok(())
}

/// Returns the kind by which the bytes are shown. If neither `asked` nor a tag says it, this is the
/// first kind that reads them, otherwise `Auto`. Then `others` get the other kinds that do.
fn kind_of(
    alloc: Global,
    asked: &Asked,
    bytes: &[u8],
    others: &mut Vec<Kind>,
) -> Result<Kind, AllocError>
    ensures { IfOk result
        (λ k. (asked.entry.now.kind ≡ Auto → ⊥) → k ≡ asked.entry.now.kind) }
{
    if asked.kind != Kind::Auto || begins_with_tag(bytes) {
        return Ok(asked.kind);
    }
    match Kind::Value.refusal(alloc, bytes) {
        None => {
            let kinds = fitting(alloc, bytes)?;
            push_others(&kinds, others)?;
            Ok(kinds.first().copied().unwrap_or(Kind::Auto))
        }
        Some(CoseError::OutOfMemory) => Err(AllocError),
        Some(_) => Ok(Kind::Auto),
    }
}

/// Returns one line with the offset of the fault, its path and the error, or `accepted` if there is
/// no fault.
fn fault_line(alloc: Global, kind: Kind, bytes: &[u8]) -> Result<(String, u8), AllocError>
    ensures { IfOk result (λ r. r.1 ≡ 0 → JudgesAs kind bytes.now None) }
{
    let Some(refusal) = fault(alloc, kind, bytes)? else {
        return Ok((String::from_str(alloc, "accepted\n")?, TAKEN));
    };
    let error = &refusal.error;
    let text = match &refusal.place {
        Some(place) => {
            let (offset, path) = (place.offset, place.path.as_str());
            format!(in alloc; "{offset} {path} {error}\n")?
        }
        None => format!(in alloc; "? ? {error}\n")?,
    };
    Ok((text, REFUSED))
}

/// Returns the structures that are signed, authenticated, or go with the ciphertext. They are cut
/// if `asked` says so.
fn notes_of(
    alloc: Global,
    asked: &Asked,
    kind: Kind,
    bytes: &[u8],
) -> Result<Vec<String>, AllocError> {
    let notes = structure_notes(alloc, kind, bytes, &asked.external_aad)?;
    if !asked.is_short || asked.form == Form::Json {
        return Ok(notes);
    }
    let mut short = Vec::new(alloc);
    for note in &notes {
        short.push(shortened_note(alloc, note.as_str())?)?;
    }
    Ok(short)
}

/// The lines of an input, the notes under them, and the summary.
#[derive(Drop)]
struct Answer<'a> {
    lines: Vec<Line<'a>>,
    notes: Vec<String>,
    summary: String,
}

/// Returns the lines as text, followed by the notes as comments.
fn annotated_text(alloc: Global, asked: &Asked, answer: &Answer<'_>) -> Result<String, AllocError> {
    let style = Style {
        is_colored: asked.is_colored,
        is_short: asked.is_short,
    };
    let mut text = styled(alloc, &answer.lines, style)?;
    text.push_str(commented(alloc, &answer.notes)?.as_str())?;
    Ok(text)
}

/// Returns the answer as an object in JSON. The bytes are of `kind`, unless `status` says that they
/// were refused.
fn json_of(
    alloc: Global,
    asked: &Asked,
    (kind, bytes): (Kind, &[u8]),
    answer: &Answer<'_>,
    (name, said): (&str, &str),
    status: u8,
) -> Result<String, AllocError> {
    let refusal = fault(alloc, kind, bytes)?;
    let told = Told {
        name,
        read_as: said,
        summary: answer.summary.as_str(),
        kind: kind.name(),
        now: asked.now,
        status,
    };
    object(alloc, told, &answer.lines, &answer.notes, refusal.as_ref())
}

/// Adds the moment for which times were judged.
fn push_judged_at(alloc: Global, text: &mut String, now: Option<i64>) -> Result<(), AllocError> {
    let Some(now) = now else {
        return Ok(());
    };
    text.push_str(" Judged at ")?;
    push_date(alloc, text, &Timestamp::WholeSeconds(now))?;
    text.push('.')
}

/// Returns the answer in the form that `asked` has. Adds the summary to `said`.
fn answer_text(
    alloc: Global,
    asked: &Asked,
    (kind, bytes): (Kind, &[u8]),
    answer: &Answer<'_>,
    said: &mut String,
    name: &str,
    status: u8,
) -> Result<String, AllocError> {
    let summary = answer.summary.as_str();
    let text = match asked.form {
        Form::Rows => rows(alloc, said.as_str(), summary, &answer.lines, &answer.notes)?,
        Form::Json => json_of(
            alloc,
            asked,
            (kind, bytes),
            answer,
            (name, said.as_str()),
            status,
        )?,
        Form::Page => {
            let mut said = format!(in alloc; "{said}. {summary}")?;
            push_judged_at(alloc, &mut said, asked.now)?;
            section(
                alloc,
                name,
                said.as_str(),
                &answer.lines,
                &answer.notes,
                asked.is_short,
            )?
        }
        Form::Plain => notation(alloc, &answer.lines)?,
        _ => annotated_text(alloc, asked, answer)?,
    };
    push_sentence(said, summary)?;
    Ok(text)
}

/// Returns the lines in the form that `asked` has, and the status. Adds their summary to `said`.
fn lines_of(
    alloc: Global,
    asked: &Asked,
    kind: Kind,
    bytes: &[u8],
    others: &[Kind],
    said: &mut String,
    name: &str,
) -> Result<(String, u8), AllocError>
    ensures { IfOk result (λ r. r.1 ≡ 0 → JudgesAs kind bytes.now None) }
{
    let explained = explain_whole(alloc, kind, bytes, asked.now)?;
    let status = status_of(explained.error.is_some());
    let summary = explained.summary(alloc, others, asked.now)?;
    let answer = Answer {
        lines: explained.lines,
        notes: notes_of(alloc, asked, kind, bytes)?,
        summary,
    };
    let text = answer_text(alloc, asked, (kind, bytes), &answer, said, name, status)?;
    Ok((text, status))
}

/// Adds the summary of an input after the words on how it was read.
fn push_sentence(said: &mut String, summary: &str) -> Result<(), AllocError> {
    said.push_str(". ")?;
    said.push_str(summary)
}

/// Adds the summary of an input whose lines aren't shown.
fn push_summary(
    alloc: Global,
    asked: &Asked,
    kind: Kind,
    bytes: &[u8],
    others: &[Kind],
    said: &mut String,
) -> Result<(), AllocError> {
    let explained = explain_whole(alloc, kind, bytes, asked.now)?;
    let summary = explained.summary(alloc, others, asked.now)?;
    push_sentence(said, summary.as_str())
}

/// Returns diagnostic notation alone, and the status. If the input is refused, the notation ends
/// before the fault.
fn notation_of(
    alloc: Global,
    asked: &Asked,
    kind: Kind,
    bytes: &[u8],
) -> Result<(String, u8), AllocError>
    ensures { IfOk result (λ r. r.1 ≡ 0 → JudgesAs kind bytes.now None) }
{
    let explained = explain(alloc, kind, bytes, asked.now)?;
    let status = status_of(explained.error.is_some());
    Ok((notation(alloc, &explained.lines)?, status))
}

/// Adds lines and notes.
fn add<'a>(
    answer: &mut Answer<'a>,
    lines: Vec<Line<'a>>,
    notes: Vec<String>,
) -> Result<(), AllocError> {
    for line in lines {
        answer.lines.push(line)?;
    }
    for note in notes {
        answer.notes.push(note)?;
    }
    Ok(())
}

/// Adds the lines and the summary of one item of a sequence of `count` items. `number` counts from
/// 1, and the item begins at `offset`.
fn add_item<'a>(
    alloc: Global,
    asked: &Asked,
    item: &'a [u8],
    (number, count, offset): (usize, usize, usize),
    answer: &mut Answer<'a>,
) -> Result<(), AllocError> {
    let mut others = Vec::new(alloc);
    let kind = kind_of(alloc, asked, item, &mut others)?;
    let explained = explain_whole(alloc, kind, item, asked.now)?;
    let summary = explained.summary(alloc, &others, asked.now)?;
    push_item(&mut answer.summary, number, count, summary.as_str())?;
    let mut lines = if asked.form == Form::Plain {
        explain(alloc, kind, item, asked.now)?.lines
    } else {
        explained.lines
    };
    mark(alloc, &mut lines, number, count, offset)?;
    let notes = notes_of(alloc, asked, kind, item)?;
    add(answer, lines, notes)
}

/// Returns the output for a sequence of these items. Adds its summary to `said`.
fn sequence(
    alloc: Global,
    asked: &Asked,
    bytes: &[u8],
    items: &[&[u8]],
    said: &mut String,
    name: &str,
) -> Result<String, AllocError> {
    let count = items.len();
    let mut answer = Answer {
        lines: Vec::new(alloc),
        notes: Vec::new(alloc),
        summary: format!(in alloc; "A sequence of {count} items.")?,
    };
    let (mut number, mut offset) = (0usize, 0usize);
    for item in items {
        number = number.saturating_add(1);
        add_item(alloc, asked, item, (number, count, offset), &mut answer)?;
        offset = offset.saturating_add(item.len());
    }
    answer_text(
        alloc,
        asked,
        (Kind::Auto, bytes),
        &answer,
        said,
        name,
        REFUSED,
    )
}

/// Returns true if the output has no place for the summary.
fn is_said_apart(form: Form) -> bool {
    matches!(form, Form::Plain | Form::Where)
}

/// Returns the output for bytes that should be one item. `said` tells how the input was read.
fn look_at_item(
    alloc: Global,
    asked: &Asked,
    bytes: &[u8],
    mut said: String,
    name: &str,
) -> Result<Shown, AllocError>
    ensures { IfOk result
        (λ shown. shown.status ≡ 0 → Accepts asked.entry.now.kind bytes.now) }
{
    let mut others = Vec::new(alloc);
    let kind = kind_of(alloc, asked, bytes, &mut others)?;
    if is_said_apart(asked.form) {
        push_summary(alloc, asked, kind, bytes, &others, &mut said)?;
    }
    let (text, status) = match asked.form {
        Form::Annotated | Form::Page | Form::Rows | Form::Json => {
            lines_of(alloc, asked, kind, bytes, &others, &mut said, name)?
        }
        Form::Plain => notation_of(alloc, asked, kind, bytes)?,
        Form::Where => fault_line(alloc, kind, bytes)?,
    };
    Ok(Shown { said, text, status })
}

/// Returns the output for the bytes of an input of that name. `said` tells how the input was read.
/// A sequence is shown item by item, unless `asked` names a kind.
fn look_at(
    alloc: Global,
    asked: &Asked,
    bytes: &[u8],
    mut said: String,
    name: &str,
) -> Result<Shown, AllocError>
    ensures { IfOk result
        (λ shown. shown.status ≡ 0 → Accepts asked.entry.now.kind bytes.now) }
{
    if asked.kind != Kind::Auto || asked.form == Form::Where {
        return look_at_item(alloc, asked, bytes, said, name);
    }
    let items = items(alloc, bytes)?;
    if items.len() < 2 {
        return look_at_item(alloc, asked, bytes, said, name);
    }
    // A decoder of one item refuses a sequence.
    let text = sequence(alloc, asked, bytes, &items, &mut said, name)?;
    Ok(Shown {
        said,
        text,
        status: REFUSED,
    })
}

/// Returns the object of an input that spells no bytes.
fn unread(alloc: Global, asked: &Asked, name: &str, said: &str) -> Result<String, AllocError> {
    let told = Told {
        name,
        read_as: said,
        summary: "",
        kind: "",
        now: asked.now,
        status: REFUSED,
    };
    object(alloc, told, &[], &[], None)
}

/// Returns the output for an input of that name.
///
/// The status is 0 only if the library reads the input's bytes as its kind.
///
/// # Errors
/// `AllocError` if an allocation fails.
pub fn look(alloc: Global, asked: &Asked, input: &[u8], name: &str) -> Result<Shown, AllocError>
    ensures { IfOk result
        (λ shown. shown.status ≡ 0
        → AcceptsInput asked.entry.now.is_notation asked.entry.now.kind input.now) }
{
    match read_bytes(alloc, asked.is_notation, input)? {
        Ok(Reading { bytes, said }) => look_at(alloc, asked, &bytes, said, name),
        Err(said) => {
            let text = match asked.form {
                Form::Page => section(alloc, name, said.as_str(), &[], &[], false)?,
                Form::Rows => rows(alloc, said.as_str(), "", &[], &[])?,
                Form::Json => unread(alloc, asked, name, said.as_str())?,
                _ => String::new(alloc),
            };
            Ok(Shown {
                said,
                text,
                status: REFUSED,
            })
        }
    }
}
