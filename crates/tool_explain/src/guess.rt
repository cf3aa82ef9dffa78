//! The kinds that bytes without a tag can be read as.

ghost use Rattle.std.specs.Prelude.{◌≡◌, IfOk, None};
ghost use Rattle.std.specs.List.{All};
ghost use Rattle.tool_explain.specs.Refusal.{JudgesAs};

use crate::kind::Kind;
use coset::CoseError;
use coset::cbor::de::Pull;
use coset::iana::{CwtClaimName, EnumI64};
use std::alloc::{AllocError, Global};

/// The kinds that are tried, in this order.
const TRIED: [Kind; 10] = [
    Kind::Claims,
    Kind::Key,
    Kind::Keyset,
    Kind::Sign1,
    Kind::Mac0,
    Kind::Encrypt0,
    Kind::Sign,
    Kind::Mac,
    Kind::Encrypt,
    Kind::Kdf,
];

/// Returns true if the item is the number of a registered claim.
fn is_claim(name: Pull<'_>) -> bool {
    let Some(number) = name.integer() else {
        return false;
    };
    match i64::try_from(number) {
        Ok(number) => match CwtClaimName::from_i64(number) {
            Some(claim) => claim != CwtClaimName::Reserved,
            None => false,
        },
        Err(_) => false,
    }
}

/// Returns true if a map is at the front of the bytes, and has a registered claim under its number.
///
/// The library reads many other maps as claims, because names of claims may be texts.
pub(crate) fn has_registered_claim(bytes: &[u8]) -> bool {
    let Ok((pull, _)) = Pull::new(bytes) else {
        return false;
    };
    let Some(pairs) = pull.pairs() else {
        return false;
    };
    for (name, _) in pairs {
        if is_claim(name) {
            return true;
        }
    }
    false
}

/// Returns the kinds that the bytes can be read as: claims, a key, a set of keys, a message, or the
/// context of a key derivation. They are tried in a fixed order. Claims are left out if no claim
/// has a registered number.
///
/// Bytes without a tag may have several kinds. For example, messages with one signature and
/// messages with a MAC have the same form.
///
/// # Errors
/// `AllocError` if an allocation fails.
pub fn fitting(alloc: Global, bytes: &[u8]) -> Result<Vec<Kind>, AllocError>
    // The library reads the bytes as each of these kinds.
    ensures { IfOk result (λ kinds. All (λ k. JudgesAs k bytes.now None) kinds.items) }
{
    let mut kinds = Vec::new(alloc);
    for kind in TRIED {
        if kind == Kind::Claims && !has_registered_claim(bytes) {
            continue;
        }
        match kind.refusal(alloc, bytes) {
            None => kinds.push(kind)?,
            Some(CoseError::OutOfMemory) => return Err(AllocError),
            Some(_) => {}
        }
    }
    Ok(kinds)
}
