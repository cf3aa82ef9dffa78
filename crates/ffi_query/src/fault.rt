//! The offset at which bytes stop being one data item of CBOR.

ghost use Rattle.ffi_query.specs.Faults.{IsOffset};

use coset::cbor::de::{Error, Pull};

/// Returns the offset at which the bytes stop being one data item (RFC 8949, section 3 and appendix
/// F), or `None`.
///
/// The offset is one of these:
/// - the first byte of the head at fault,
/// - the end of the bytes, if they end too early,
/// - the first byte after the item, if bytes follow it.
///
/// `None` means that the bytes are one item, or that they nest too deep. Allocates nothing.
pub fn fault_offset(bytes: &[u8]) -> Option<usize>
    ensures { IsOffset bytes.now result }
{
    match Pull::new(bytes) {
        Ok((_, rest)) => {
            if rest.is_empty() {
                None
            } else {
                Some(bytes.len() - rest.len())
            }
        }
        Err(error) => match &error {
            Error::Io(_) => Some(bytes.len()),
            Error::Syntax(at) => Some(*at),
            Error::Semantic(at, _) => *at,
            _ => None,
        },
    }
}
