//! Skips claims that aren't understood: those with numbers that IANA hasn't assigned (RFC 8392,
//! section 3).

ghost use Rattle.std.specs.Prelude.{◌≡◌, IfOk, IfErr};
ghost use Rattle.coset_codec.specs.Results.{Describes, IsRefused};
ghost use Rattle.coset_claims.specs.Claims.{claims_view};
ghost use Rattle.coset_claims.specs.Known.{KnownView, known};

use coset::Result;
use coset::cwt::ClaimsSet;
use std::alloc::Global;

/// Decodes claims, and skips those that aren't understood.
///
/// # Errors
/// The errors of [`ClaimsSet::known_from_slice`].
pub fn claims_kept(alloc: Global, bytes: &[u8]) -> Result<ClaimsSet>
    ensures read { IfOk result (λ c. (x : KnownView) × Describes known bytes.now x
        × (x.claims ≡ claims_view c)) }
    ensures refused { IfErr result (λ e. IsRefused known bytes.now e) }
{
    Ok(ClaimsSet::known_from_slice(alloc, bytes)?.claims)
}
