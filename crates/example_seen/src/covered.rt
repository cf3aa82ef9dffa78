//! The bytes that a signature covers, without allocating.

ghost use Rattle.coset_iana.specs.Algorithm as algorithms;
ghost use Rattle.coset_seen.specs.declared.kind.Kind.TheVariants.{Sign1};
ghost use Rattle.coset_seen.specs.declared.message.Seen.{Seen};
ghost use Rattle.coset_seen.specs.Seen.{IsSeen, PutsStructure};
ghost use Rattle.std.specs.Prelude.{◌≡◌, [], IfSome, None, Ok, Some};

use coset::iana::{Algorithm, EnumI64};
use coset_seen::{Kind, see};

/// Writes the bytes that the message's signature covers to `memory`. Returns their number, and the
/// signature, which isn't verified. The external data is empty.
///
/// Returns `None` if `see` does, or if `memory` is too small. Also returns `None` if the protected
/// header doesn't name this algorithm, or if the message carries no payload.
pub fn covered<'a>(
    message: &'a [u8],
    algorithm: Algorithm,
    memory: &mut [u8],
) -> Option<(usize, &'a [u8])>
    ensures { IfSome result (λ x. (s : Seen) × IsSeen Sign1 message.now s
        × (s.algorithm ≡ Some (algorithms.number algorithm)) × (x.1.now ≡ s.proof.bytes.now)
        × PutsStructure s [] s.content None memory.old memory.new (Ok x.0)) }
{
    let seen = see(Kind::Sign1, message)?;
    if seen.algorithm != Some(algorithm.to_i64()) {
        return None;
    }
    let Ok(len) = seen.put_structure(&[], None, memory) else {
        return None;
    };
    Some((len, seen.proof.bytes))
}
