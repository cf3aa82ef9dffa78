//! Checks of the times in claims (RFC 8392, sections 3.1.4 and 3.1.5).

ghost use Rattle.std.specs.Prelude.{◌≡◌, option_map};
ghost use Rattle.coset.specs.Timestamp.{timestamp_view};
ghost use Rattle.coset.specs.Claims.{claims_view};
ghost use Rattle.cwt_gate.specs.Moment.{has_come, has_expired, has_fraction, is_early, is_fractional};

use coset::cwt::{ClaimsSet, Timestamp};

/// Returns true if there is a time, and it is a float.
fn is_fractional(named: &Option<Timestamp>) -> bool
    ensures { result ≡ is_fractional (option_map timestamp_view named.now) }
{
    matches!(named, Some(Timestamp::FractionalSeconds(_)))
}

/// Returns true if the expiration time or the not-before time is a float.
pub(crate) fn has_fraction(claims: &ClaimsSet) -> bool
    ensures { result ≡ has_fraction (claims_view claims.now) }
{
    is_fractional(&claims.expiration_time) || is_fractional(&claims.not_before)
}

/// Returns true if `moment` has come at `now`. For an infinity or NaN, returns `otherwise`.
fn has_come(otherwise: bool, now: i64, moment: &Timestamp) -> bool
    ensures { result ≡ has_come otherwise now (timestamp_view moment.now) }
{
    match moment.compare(i128::from(now)) {
        Some(order) => order.is_le(),
        None => otherwise,
    }
}

/// Returns true if `now` is at least the expiration time. An infinity or NaN has always expired.
pub(crate) fn has_expired(now: i64, expiration_time: &Option<Timestamp>) -> bool
    ensures { result ≡ has_expired now (option_map timestamp_view expiration_time.now) }
{
    match expiration_time {
        Some(moment) => has_come(true, now, moment),
        None => false,
    }
}

/// Returns true if `now` is before the not-before time. An infinity or NaN is always early.
pub(crate) fn is_early(now: i64, not_before: &Option<Timestamp>) -> bool
    ensures { result ≡ is_early now (option_map timestamp_view not_before.now) }
{
    match not_before {
        Some(moment) => !has_come(false, now, moment),
        None => false,
    }
}
