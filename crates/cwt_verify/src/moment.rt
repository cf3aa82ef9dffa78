//! Checks of the times in claims (RFC 8392, sections 3.1.4 to 3.1.6).

ghost use Rattle.std.specs.Prelude.{◌≡◌, option_map};
ghost use Rattle.coset.specs.Timestamp.{timestamp_view};
ghost use Rattle.cwt_verify.specs.Moment.{has_come, has_expired, is_early, is_too_old};

use coset::cwt::Timestamp;

/// Returns true if `moment` has come at `seconds`. For an infinity or NaN, returns `otherwise`.
fn has_come(otherwise: bool, seconds: i128, moment: &Timestamp) -> bool
    ensures { result ≡ has_come otherwise seconds (timestamp_view moment.now) }
{
    match moment.compare(seconds) {
        Some(order) => order.is_le(),
        None => otherwise,
    }
}

/// Returns true if `now` is at least the expiration time plus the leeway. An infinity or NaN has
/// always expired.
pub(crate) fn has_expired(leeway: u64, now: i64, expiration_time: &Option<Timestamp>) -> bool
    ensures { result ≡ has_expired leeway now (option_map timestamp_view expiration_time.now) }
{
    match expiration_time {
        Some(moment) => has_come(true, i128::from(now) - i128::from(leeway), moment),
        None => false,
    }
}

/// Returns true if `now` plus the leeway is before the not-before time. An infinity or NaN is
/// always early.
pub(crate) fn is_early(leeway: u64, now: i64, not_before: &Option<Timestamp>) -> bool
    ensures { result ≡ is_early leeway now (option_map timestamp_view not_before.now) }
{
    match not_before {
        Some(moment) => !has_come(false, i128::from(now) + i128::from(leeway), moment),
        None => false,
    }
}

/// Returns true if claims with this time of issue have reached the greatest age, if there is one.
///
/// They have reached it if `now` is at least the time of issue plus the age and the leeway. Claims
/// without a time of issue count as too old, and so do an infinity and NaN.
pub(crate) fn is_too_old(
    max_age: Option<u64>,
    leeway: u64,
    now: i64,
    issued_at: &Option<Timestamp>,
) -> bool
    ensures { result ≡ is_too_old max_age leeway now (option_map timestamp_view issued_at.now) }
{
    let Some(age) = max_age else {
        return false;
    };
    match issued_at {
        Some(moment) => {
            let latest = i128::from(now) - i128::from(leeway) - i128::from(age);
            has_come(true, latest, moment)
        }
        None => true,
    }
}
