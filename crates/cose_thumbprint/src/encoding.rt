//! The encoding of a key's type and its required members (RFC 9679, section 3).

ghost use Rattle.std.specs.Prelude.{◌≡◌, ◌≤◌, IfOk, IfErr, length, map};
ghost use Rattle.coset.specs.LabelData.{number};
ghost use Rattle.coset.specs.Shortest.{IsShortest};
ghost use Rattle.cose_thumbprint.specs.Thumbprint.{map_of};
ghost use Rattle.cose_thumbprint.specs.Views.{member_view};
ghost use Rattle.cose_thumbprint.specs.declared.error.ThumbprintError.TheVariants.{OutOfMemory};

use crate::error::ThumbprintError;
use crate::member::Member;
use coset::cbor::ser::{write_integer, write_map_head, write_value};
use coset::cbor::value::Integer;
use coset::iana::{EnumI64, KeyParameter};
use coset::laws::{least_encoding_is_shortest, least_heads_are_shortest, shortest_is_in_range};
use std::alloc::Global;

/// Encodes the map of the key type and these members, in the given order.
///
/// # Errors
/// `OutOfMemory` if an allocation fails.
pub(crate) fn encode(
    alloc: Global,
    kty: i64,
    members: &[Member<'_>],
) -> Result<Vec<u8>, ThumbprintError>
    requires { length members.now ≤ 3 }
    ensures ok { IfOk result (λ b. IsShortest b.items
        (map_of (number kty) (map member_view members.now))) }
    ensures memory { IfErr result (λ e. e ≡ OutOfMemory) }
{
    least_encoding_is_shortest();
    least_heads_are_shortest();
    shortest_is_in_range();
    let mut out = Vec::new(alloc);
    write_map_head(1 + members.len(), &mut out)?;
    write_integer(Integer::from(KeyParameter::Kty.to_i64()), &mut out)?;
    write_integer(Integer::from(kty), &mut out)?;
    for member in members {
        write_integer(Integer::from(member.label), &mut out)?;
        write_value(member.value, &mut out)?;
    }
    Ok(out)
}
