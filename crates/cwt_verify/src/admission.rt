//! What a policy requires of the headers of a layer, or of one signature.

ghost use Rattle.std.specs.Prelude.{◌≡◌};
ghost use Rattle.cwt_verify.specs.Admission.{ChecksHeaders, headers_view, is_allowed};
ghost use Rattle.cwt_verify.specs.Policy.{policy_view};

use crate::error::LayerError;
use crate::headers::contradict;
use crate::policy::{Policy, named_number};
use coset::Header;
use cwt_keys::Form;
use std::alloc::Global;

/// The headers of a layer, or of one signature of a `COSE_Sign`.
#[derive(Clone, Copy)]
pub(crate) struct Headers<'a> {
    /// The form of layers that the algorithm in the protected header must be for, or `None` if the
    /// header needs no algorithm. The body of a `COSE_Sign` needs none.
    pub form: Option<Form>,
    /// The protected header.
    pub protected: &'a Header,
    /// The unprotected header.
    pub unprotected: &'a Header,
}

/// Returns true if the policy allows the algorithm in the protected header, or if the header needs
/// none.
fn is_allowed(policy: &Policy<'_>, headers: Headers<'_>) -> bool
    ensures { result ≡ is_allowed (policy_view policy.now) (headers_view headers.entry) }
{
    match headers.form {
        Some(form) => policy.allows(form, headers.protected),
        None => true,
    }
}

/// Checks that the policy admits the headers.
///
/// # Errors
/// - `Message` with `OutOfMemory` if an allocation fails.
/// - `Headers` if the headers contradict each other.
/// - `Algorithm` if the policy doesn't allow the algorithm.
/// - `Critical` if a critical label isn't understood.
pub(crate) fn check_headers<E: Drop>(
    alloc: Global,
    policy: &Policy<'_>,
    headers: Headers<'_>,
) -> Result<(), LayerError<E>>
    ensures { ChecksHeaders (policy_view policy.now) (headers_view headers.entry) result }
{
    let Headers {
        protected,
        unprotected,
        ..
    } = headers;
    match contradict(alloc, protected, unprotected) {
        Ok(false) => {}
        Ok(true) => return Err(LayerError::Headers),
        Err(error) => return Err(LayerError::Message(error)),
    }
    if !is_allowed(policy, headers) {
        return Err(LayerError::Algorithm(named_number(protected)));
    }
    if !policy.understands(protected, unprotected) {
        return Err(LayerError::Critical);
    }
    Ok(())
}
