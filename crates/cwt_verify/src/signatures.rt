//! Messages with a list of signatures, of which the keys must accept one.

ghost use Rattle.std.specs.Prelude.{◌≡◌, None, map};
ghost use Rattle.coset.specs.Sign.{sign_view};
ghost use Rattle.coset.specs.Views.{protected_view, signature_view};
ghost use Rattle.cwt_verify.specs.Admission.{headers_view, signature_headers};
ghost use Rattle.cwt_verify.specs.Layers.{signed_by};
ghost use Rattle.cwt_verify.specs.Opening.{Opens};
ghost use Rattle.cwt_verify.specs.Policy.{policy_view};
ghost use Rattle.cwt_verify.specs.Signatures.{FindsSignature, TriesSignature, is_message};

use crate::admission::{Headers, check_headers};
use crate::error::LayerError;
use crate::headers::named_key;
use crate::layer::{OpenedLayer, Part, VerifiedLayer};
use crate::policy::Policy;
use coset::{CoseSign, CoseSignature};
use cwt_keys::{Form, Keys, Sealed};
use std::alloc::Global;
use std::mem;

/// The greatest number of signatures in a list.
const MAX_SIGNATURES: usize = 16;

/// Returns the headers of a signature, which must name an algorithm.
fn headers_of(signature: &CoseSignature) -> Headers<'_>
    ensures { headers_view result ≡ signature_headers (signature_view signature.now) }
{
    Headers {
        form: Some(Form::Sign),
        protected: &signature.protected.header,
        unprotected: &signature.unprotected,
    }
}

/// Tries one signature of a message that carries `content`. Returns it, and the name of the issuer
/// whose key accepted it, or `None` if that issuer has no name.
///
/// # Errors
/// - `Headers`, `Algorithm` or `Critical` if the policy doesn't admit the signature's headers.
/// - `Message` if the structure can't be made, for example because an allocation fails.
/// - `Keys` if the keys refuse the signature.
fn try_signature<'k, K: Keys>(
    alloc: Global,
    policy: &Policy<'_>,
    keys: &'k K,
    message: &CoseSign,
    content: &[u8],
    signature: CoseSignature,
) -> Result<(CoseSignature, Option<&'k str>), LayerError<K::Error>>
    requires { message.now.payload ≡ None }
    ensures { TriesSignature (K.view keys.now) (policy_view policy.now)
        (protected_view message.now.protected) content.now (signature_view signature) result }
{
    check_headers(alloc, policy, headers_of(&signature))?;
    let structure = match message.tbs_detached_data(alloc, content, &[], &signature) {
        Ok(structure) => structure,
        Err(error) => return Err(LayerError::Message(error)),
    };
    let sealed = Sealed::new(
        Form::Sign,
        &signature.protected,
        &signature.unprotected,
        &signature.signature,
        &structure,
    );
    match keys.verify(&sealed) {
        Ok(issuer) => Ok((signature, issuer)),
        Err(error) => Err(LayerError::Keys {
            key_id: named_key(alloc, signature.protected, signature.unprotected),
            error,
        }),
    }
}

/// Returns true if no structure could be made, for example because an allocation failed.
fn is_message<E: Drop>(error: &LayerError<E>) -> bool
    ensures { result ≡ is_message error.now }
{
    match error {
        LayerError::Message(_) => true,
        _ => false,
    }
}

/// Tries each signature of a message that carries `content`, in order, until one is accepted.
/// Returns it, and the name of its issuer.
///
/// # Errors
/// - `Message` if a structure can't be made, for example because an allocation fails.
/// - `NoSignature` if there are no signatures.
/// - The reason against the last signature, if each is refused.
fn find_signature<'k, K: Keys>(
    alloc: Global,
    policy: &Policy<'_>,
    keys: &'k K,
    message: &CoseSign,
    content: &[u8],
    signatures: Vec<CoseSignature>,
) -> Result<(CoseSignature, Option<&'k str>), LayerError<K::Error>>
    requires { message.now.payload ≡ None }
    ensures { FindsSignature (K.view keys.now) (policy_view policy.now)
        (protected_view message.now.protected) content.now (map signature_view signatures.items)
        result }
{
    let mut refused = LayerError::NoSignature;
    for signature in signatures {
        match try_signature(alloc, policy, keys, message, content, signature) {
            Ok(accepted) => return Ok(accepted),
            Err(error) => {
                if is_message(&error) {
                    return Err(error);
                }
                refused = error;
            }
        }
    }
    Err(refused)
}

/// Returns a message and its payload, if the policy admits one of its signatures and the keys
/// accept it.
pub(crate) fn open_signed_by<'k, K: Keys>(
    alloc: Global,
    policy: &Policy<'_>,
    keys: &'k K,
    mut message: CoseSign,
) -> Result<OpenedLayer<'k>, LayerError<K::Error>>
    ensures { Opens (K.view keys.now) (policy_view policy.now) (signed_by (sign_view message))
        result }
{
    let Some(content) = message.payload.take() else {
        return Err(LayerError::NoPayload);
    };
    let signatures = mem::replace(&mut message.signatures, Vec::new(alloc));
    if signatures.len() > MAX_SIGNATURES {
        return Err(LayerError::TooManySignatures);
    }
    let (signature, issuer) = find_signature(alloc, policy, keys, &message, &content, signatures)?;
    Ok(OpenedLayer {
        content,
        verified: VerifiedLayer {
            form: Form::Sign,
            protected: message.protected,
            unprotected: message.unprotected,
            part: Part::Signature(signature),
            issuer,
        },
    })
}
