//! Timestamps as text. The dates come from Python's `datetime`.

use coset::cbor::value::Float;
use coset::cwt::Timestamp;
use std::test::*;

/// Seconds since 1970, and the date.
const WHOLE: &[(i64, &str)] = &[
    (0, "1970-01-01T00:00:00Z"),
    (-1, "1969-12-31T23:59:59Z"),
    (1_363_896_240, "2013-03-21T20:04:00Z"),
    (951_868_799, "2000-02-29T23:59:59Z"),
    (951_868_800, "2000-03-01T00:00:00Z"),
    (4_107_542_399, "2100-02-28T23:59:59Z"),
    (4_107_542_400, "2100-03-01T00:00:00Z"),
    (-2_203_891_200, "1900-03-01T00:00:00Z"),
    (1_709_251_199, "2024-02-29T23:59:59Z"),
    (1_735_689_599, "2024-12-31T23:59:59Z"),
    (-62_135_596_800, "0001-01-01T00:00:00Z"),
    (253_402_300_799, "9999-12-31T23:59:59Z"),
    (-62_135_596_801, "-62135596801 seconds since 1970"),
    (253_402_300_800, "253402300800 seconds since 1970"),
];

/// The bits of doubles, and the date. A part of a microsecond is left out, as of -1e-20 seconds.
const FRACTIONAL: &[(u64, &str)] = &[
    (0x41d5_8452_8420_0000, "2015-10-04T15:47:28.500000Z"),
    (0xbfd0_0000_0000_0000, "1969-12-31T23:59:59.750000Z"),
    (0xbbc7_9ca1_0c92_4223, "1969-12-31T23:59:59.999999Z"),
    (0x7ff0_0000_0000_0000, "inf seconds since 1970"),
    (0x7ff8_0000_0000_0000, "NaN seconds since 1970"),
];

/// Returns true if the timestamp has this text.
fn is_written(rt: &HostRuntime, timestamp: &Timestamp, expected: &str) -> Result<bool, Fail> {
    let mut text = String::new(rt.alloc());
    write!(text, "{timestamp}").ok().ok_or("memory")?;
    Ok(text.as_str() == expected)
}

#[test]
fn whole_seconds(rt: HostRuntime) -> Result<(), Fail> {
    for (seconds, expected) in WHOLE {
        assert!(&rt; is_written(&rt, &Timestamp::WholeSeconds(*seconds), expected)?);
    }
    Ok(())
}

#[test]
fn fractional_seconds(rt: HostRuntime) -> Result<(), Fail> {
    for (bits, expected) in FRACTIONAL {
        let timestamp = Timestamp::FractionalSeconds(Float::Double(*bits));
        assert!(&rt; is_written(&rt, &timestamp, expected)?);
    }
    Ok(())
}
