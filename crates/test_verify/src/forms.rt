//! The words that name the forms of layers.

use coset::{CoseError, Result};
use cwt_verify::Form;

/// Returns the form that the word names.
///
/// # Errors
/// `UnexpectedItem` if it names none.
pub fn read(word: &str) -> Result<Form> {
    match word {
        "sign" => Ok(Form::Sign1),
        "mac" => Ok(Form::Mac0),
        "enc" => Ok(Form::Encrypt0),
        "signs" => Ok(Form::Sign),
        "macs" => Ok(Form::Mac),
        "encs" => Ok(Form::Encrypt),
        _ => Err(CoseError::UnexpectedItem("word", "form")),
    }
}

/// Returns the word that names the form.
pub fn spelled(form: Form) -> &'static str {
    match form {
        Form::Sign1 => "sign",
        Form::Mac0 => "mac",
        Form::Encrypt0 => "enc",
        Form::Sign => "signs",
        Form::Mac => "macs",
        Form::Encrypt => "encs",
    }
}
