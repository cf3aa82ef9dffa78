//! The forms of a token's layers (RFC 8392, section 6).

ghost use Rattle.std.specs.Prelude.{◌≡◌, is_some};
ghost use Rattle.cwt_keys.specs.Table.{of_form, row_for, same_form, single_form};

use crate::table::row_for;
use coset::iana::Algorithm;

/// The form of a layer: which message it is.
#[derive(Clone, Copy, Debug, PartialEq, Eq)]
pub enum Form {
    /// A message with one signature: `COSE_Sign1` (RFC 8152, section 4.2).
    Sign1,
    /// A message with a MAC: `COSE_Mac0` (RFC 8152, section 6.2).
    Mac0,
    /// An encrypted message: `COSE_Encrypt0` (RFC 8152, section 5.2).
    Encrypt0,
    /// A message with a list of signatures: `COSE_Sign` (RFC 8152, section 4.1).
    Sign,
    /// A message with a MAC and a list of recipients: `COSE_Mac` (RFC 8152, section 6.1).
    Mac,
    /// An encrypted message with a list of recipients: `COSE_Encrypt` (RFC 8152, section 5.1).
    Encrypt,
}

/// Returns the form without a list that takes the same algorithms: `Sign1` for `Sign`, and so on.
/// A form without a list is returned as it is.
pub fn single_form(form: Form) -> Form
    ensures { result ≡ single_form form }
{
    match form {
        Form::Sign1 | Form::Sign => Form::Sign1,
        Form::Mac0 | Form::Mac => Form::Mac0,
        Form::Encrypt0 | Form::Encrypt => Form::Encrypt0,
    }
}

/// Returns true if the two forms are the same.
fn same_form(one: Form, other: Form) -> bool
    ensures { result ≡ same_form one other }
{
    match (one, other) {
        (Form::Sign1, Form::Sign1) => true,
        (Form::Mac0, Form::Mac0) => true,
        (Form::Encrypt0, Form::Encrypt0) => true,
        (Form::Sign, Form::Sign) => true,
        (Form::Mac, Form::Mac) => true,
        (Form::Encrypt, Form::Encrypt) => true,
        _ => false,
    }
}

/// Returns true if the algorithm is for layers of this form. The algorithms of a form with a list
/// are those of the form without one.
pub fn is_for(algorithm: Algorithm, form: Form) -> bool
    ensures { result ≡ is_some (of_form form (row_for algorithm)) }
{
    match row_for(algorithm) {
        Some(row) => same_form(single_form(form), row.form),
        None => false,
    }
}
