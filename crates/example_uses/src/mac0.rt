//! Messages with a MAC for receivers that know the key without its name (RFC 8152, section 6.2).

ghost use Rattle.coset_iana.specs.Algorithm as algorithms;
ghost use Rattle.coset_label.specs.LabelData.{assigned};
ghost use Rattle.example_uses.specs.Mac0.{MacsAlone, VerifiesAlone};

use coset::iana::Algorithm;
use coset::{CallError, CborSerializable, CoseMac0, CoseMac0Builder, HeaderBuilder};
use coset_msg::laws::structure_when_read;
use std::alloc::Global;

/// Makes a message with this payload and its MAC, and encodes it.
///
/// # Errors
/// - `OutOfMemory` if an allocation fails.
/// - `Caller` with the error of `mac`.
pub fn authenticate<F, E>(
    alloc: Global,
    algorithm: Algorithm,
    payload: Vec<u8>,
    external_aad: &[u8],
    mac: F,
) -> Result<Vec<u8>, CallError<E>>
where
    F: FnOnce(&[u8]) -> Result<Vec<u8>, E> + Drop,
    E: Drop,
    requires { F.IsAlwaysCallable mac }
    ensures { MacsAlone F.FnOnce mac (assigned (algorithms.number algorithm))
        external_aad.now payload.items result }
{
    let protected = HeaderBuilder::new(alloc).algorithm(algorithm).build();
    let untagged = CoseMac0Builder::new(alloc)
        .protected(protected)
        .payload(payload);
    let tagged = untagged.try_create_tag(alloc, external_aad, mac)?;
    Ok(tagged.build().to_vec(alloc)?)
}

/// Decodes and returns the message, if `verify` accepts its MAC.
///
/// # Errors
/// - A fault in bytes that aren't a message with a MAC.
/// - `OutOfMemory` if an allocation fails.
/// - `Caller` with `absent` if the message has no payload.
/// - `Caller` with the error of `verify`.
pub fn verify_mac<F, E>(
    alloc: Global,
    message: &[u8],
    external_aad: &[u8],
    absent: E,
    verify: F,
) -> Result<CoseMac0, CallError<E>>
where
    F: FnOnce(&[u8], &[u8]) -> Result<(), E> + Drop,
    E: Drop,
    requires { F.IsAlwaysCallable verify }
    ensures { VerifiesAlone F.FnOnce verify external_aad.now absent message.now result }
{
    structure_when_read();
    let message = CoseMac0::from_slice(alloc, message)?;
    if message.payload.is_none() {
        return Err(CallError::Caller(absent));
    }
    message.verify_tag(alloc, external_aad, verify)?;
    Ok(message)
}
