//! The numbers of kinds and forms.

ghost use Rattle.std.specs.Prelude.{◌≡◌, IfOk, false};
ghost use Rattle.tool_page.specs.Numbers.{kind_of};

use cwt_keys::Form as MessageForm;
use std::alloc::{AllocError, Global};
use tool_explain::Kind;
use tool_view::{Asked, Form};

/// Returns the kind with this number.
fn kind_of(number: u32) -> Kind
    ensures { result ≡ kind_of number }
{
    match number {
        1 => Kind::Cwt,
        2 => Kind::Value,
        3 => Kind::Sign1,
        4 => Kind::Sign,
        5 => Kind::Mac,
        6 => Kind::Mac0,
        7 => Kind::Encrypt,
        8 => Kind::Encrypt0,
        9 => Kind::Countersignature,
        10 => Kind::Key,
        11 => Kind::Keyset,
        12 => Kind::Claims,
        13 => Kind::Kdf,
        _ => Kind::Auto,
    }
}

/// Returns the form of the messages of the kind with this number, or `None` if these have no form.
pub(crate) fn message_form(number: u32) -> Option<MessageForm> {
    match kind_of(number) {
        Kind::Sign1 => Some(MessageForm::Sign1),
        Kind::Sign => Some(MessageForm::Sign),
        Kind::Mac => Some(MessageForm::Mac),
        Kind::Mac0 => Some(MessageForm::Mac0),
        Kind::Encrypt => Some(MessageForm::Encrypt),
        Kind::Encrypt0 => Some(MessageForm::Encrypt0),
        _ => None,
    }
}

/// Returns the form with this number.
fn form_of(number: u32) -> Form {
    match number {
        1 => Form::Annotated,
        2 => Form::Plain,
        3 => Form::Where,
        _ => Form::Rows,
    }
}

/// Returns the options with these numbers.
///
/// # Errors
/// `AllocError` if an allocation fails.
pub(crate) fn asked(
    alloc: Global,
    kind: u32,
    form: u32,
    now: Option<i64>,
    external_aad: &[u8],
) -> Result<Asked, AllocError>
    ensures kind { IfOk result (λ a. a.kind ≡ kind_of kind) }
    ensures spelling { IfOk result (λ a. a.is_notation ≡ false) }
{
    Ok(Asked {
        kind: kind_of(kind),
        form: form_of(form),
        now,
        external_aad: Vec::from_slice(alloc, external_aad)?,
        is_colored: false,
        is_short: false,
        is_notation: false,
    })
}
