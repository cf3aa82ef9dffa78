//! Content types of headers: CoAP content formats or media types (RFC 8152, section 3.1).

ghost use Rattle.std.specs.Prelude.{◌≡◌, ◌≤◌, option_map, OnOk, IfOk, IfErr, filter, length, ◌==◌, OnErr};
ghost use Rattle.coset_core.specs.Views.{content_type_view};
ghost use Rattle.coset_codec.specs.Results.{Reads};
ghost use Rattle.coset_codec.specs.Errors.{IsUnexpected, UnlessMemory};
ghost use Rattle.coset_codec.specs.Inputs.{state, ReadsAt, length_left};
ghost use Rattle.coset_core.specs.Fields.{IsMediaType, content_type};
ghost use Rattle.coset_codec.specs.Maps.{RefusesValue, TakesValue, optional};
ghost use Rattle.std.specs.Option.{option_eq};
ghost use Rattle.coset_core.specs.Same.{content_type_eq};

use coset_codec::read::Decoder;
use coset_codec::traits::FromPull;
use coset_codec::{CoseError, Result};
use coset_label::{ContentType, RegisteredLabel};
use std::alloc::Global;

/// Returns the number of `/` in the text.
fn slashes(text: &str) -> usize
    ensures { result ≡ length (filter (λ b. b == 47) text.now) }
{
    text.as_bytes().iter().filter(|b| **b == b'/').count()
}

/// Checks that the text has the form of a media type.
///
/// # Errors
/// `UnexpectedItem` if the text is empty, begins or ends with white space, or does not have exactly
/// one `/`.
fn check_media_type(text: &str) -> Result<()>
    ensures ok { IfOk result (λ _. IsMediaType text.now) }
    ensures refused { IfErr result (λ e. IsUnexpected e × (IsMediaType text.now → ⊥)) }
{
    if text.is_empty() {
        return Err(CoseError::UnexpectedItem("empty tstr", "non-empty tstr"));
    }
    if text.trim() != text {
        return Err(CoseError::UnexpectedItem(
            "leading/trailing whitespace",
            "no leading/trailing whitespace",
        ));
    }
    if slashes(text) != 1 {
        return Err(CoseError::UnexpectedItem("arbitrary text", "text of form type/subtype"));
    }
    Ok(())
}

/// Reads a content type.
#[tactic(auto, unfolding(crate::specs::Fields::content_type))]
fn read_content_type(alloc: Global, input: &mut Decoder<'_>) -> Result<ContentType>
    ensures shrinks { length_left (state input.new) ≤ length_left (state input.old) }
    ensures reads { ReadsAt (state input.old) (state input.new)
        (λ v. Reads content_type content_type_view v result) }
{
    let content_type = ContentType::from_input(alloc, input)?;
    if let RegisteredLabel::Text(text) = &content_type {
        check_media_type(text)?;
    }
    Ok(content_type)
}

/// Sets the content type. Returns `DuplicateMapKey` if it is set already.
pub(crate) fn set_content_type(
    alloc: Global,
    field: &mut Option<ContentType>,
    input: &mut Decoder<'_>,
) -> Result<()>
    ensures shrinks { length_left (state input.new) ≤ length_left (state input.old) }
    ensures takes { ReadsAt (state input.old) (state input.new) (λ v. OnOk result
        (TakesValue (optional content_type) v
        (option_map content_type_view field.old) (option_map content_type_view field.new))) }
    ensures refused { ReadsAt (state input.old) (state input.new) (λ v. IfErr result
        (λ e. UnlessMemory e (RefusesValue (optional content_type) v
        (option_map content_type_view field.old)))) }
    ensures kept { OnErr result (field.new ≡ field.old) }
{
    if field.is_some() {
        return Err(input.repeated());
    }
    *field = Some(read_content_type(alloc, input)?);
    Ok(())
}

pub(crate) fn same_content_type(a: &Option<ContentType>, b: &Option<ContentType>) -> bool
    ensures { result ≡ option_eq content_type_eq (option_map content_type_view a.now)
        (option_map content_type_view b.now) }
{
    *a == *b
}
