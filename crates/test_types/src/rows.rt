//! Worked rows: readings, reports and settings, read in two ways, written, and tagged.

use coset_cbor::de::read_value;
use coset_cbor::value::Value;
use coset_codec::{AsCborValue, CborSerializable, CoseError, Result, TaggedCborSerializable};
use example_types::parcel::Parcel;
use example_types::reading::Reading;
use example_types::report::Report;
use example_types::settings::{Name, Settings};
use std::alloc::Global;
use std::test::*;

/// The expected result of a row: the bytes that are written for the value, or the text of the
/// error.
#[derive(Clone, Copy)]
enum Expected<'a> {
    Written(&'a [u8]),
    Refused(&'a str),
}

use Expected::{Refused, Written};

/// Reads through a `Value`, whatever methods the type has.
pub(crate) fn through_a_value<T: AsCborValue>(alloc: Global, s: &[u8]) -> Result<T> {
    let (value, length) = read_value(alloc, s)?;
    if length < s.len() {
        return Err(CoseError::ExtraneousData);
    }
    T::from_cbor_value(alloc, value)
}

/// Returns true if the result is the expected one.
fn is_expected<T: CborSerializable + Drop>(
    alloc: Global,
    answer: Result<T>,
    expected: Expected<'_>,
) -> std::result::Result<bool, Fail> {
    match (answer, expected) {
        (Ok(x), Written(bytes)) => match x.to_vec(alloc) {
            Ok(written) => Ok(written.as_slice() == bytes),
            Err(_) => Ok(false),
        },
        (Err(error), Refused(text)) => Ok(format!(in alloc; "{error}")?.as_str() == text),
        (Ok(_), Refused(_)) | (Err(_), Written(_)) => Ok(false),
    }
}

/// Returns true if the type reads the input as expected, from bytes and through a `Value`.
fn reads<T: CborSerializable + Drop>(
    alloc: Global,
    input: &[u8],
    expected: Expected<'_>,
) -> std::result::Result<bool, Fail> {
    let lent: Result<T> = T::from_slice(alloc, input);
    let tree: Result<T> = through_a_value(alloc, input);
    Ok(is_expected(alloc, lent, expected)? && is_expected(alloc, tree, expected)?)
}

const READINGS: [(&[u8], Expected); 16] = [
    (
        b"\x83\x05\x42\x01\x02\x82\x01\x20",
        Written(b"\x83\x05\x42\x01\x02\x82\x01\x20"),
    ),
    (
        b"\x9f\x18\x05\x5f\x41\x01\x40\x41\x02\xff\x9f\x01\x20\xff\xff",
        Written(b"\x83\x05\x42\x01\x02\x82\x01\x20"),
    ),
    (b"\x83\x00\xf6\x80", Written(b"\x83\x00\xf6\x80")),
    (
        b"\x83\x3b\x7f\xff\xff\xff\xff\xff\xff\xff\x40\x80",
        Written(b"\x83\x3b\x7f\xff\xff\xff\xff\xff\xff\xff\x40\x80"),
    ),
    (b"", Refused("decode CBOR failure: Io(EndOfFile)")),
    (
        b"\x83\x05\x1e\x80",
        Refused("decode CBOR failure: Syntax(2)"),
    ),
    (
        b"\x83\x05\xf6\x80\x00",
        Refused("extraneous data in CBOR input"),
    ),
    (b"\x05", Refused("got int, expected array")),
    (b"\xc1\x80", Refused("got tag, expected array")),
    (
        b"\x82\x05\xf6",
        Refused("got array, expected array with 3 items"),
    ),
    (
        b"\x84\x05\xf6\x80\x00",
        Refused("got array, expected array with 3 items"),
    ),
    (
        b"\x83\x1b\x80\x00\x00\x00\x00\x00\x00\x00\xf6\x80",
        Refused("out of range integer value"),
    ),
    (b"\x83\xf5\xf6\x80", Refused("got bool, expected int")),
    (
        b"\x83\xf5\x00\x80",
        Refused("got int, expected bstr or nil"),
    ),
    (b"\x83\xf5\x00\xa0", Refused("got map, expected array")),
    (
        b"\x83\x05\xf6\x83\x00\x61\x61\xf4",
        Refused("got tstr, expected int"),
    ),
];

#[test]
fn readings(rt: HostRuntime) -> std::result::Result<(), Fail> {
    let alloc = rt.alloc();
    for (input, expected) in &READINGS {
        assert!(rt; reads::<Reading>(alloc, input, *expected)?);
    }
    Ok(())
}

/// The fault in the last element is reported, and in that element the fault of the first reading.
const REPORTS: [(&[u8], Expected); 9] = [
    (
        b"\x82\x41\xaa\x82\x83\x05\xf6\x80\x83\x06\x40\x81\x07",
        Written(b"\x82\x41\xaa\x82\x83\x05\xf6\x80\x83\x06\x40\x81\x07"),
    ),
    (
        b"\x9f\x5f\x41\xaa\xff\x9f\x83\x18\x05\xf6\x80\xff\xff",
        Written(b"\x82\x41\xaa\x81\x83\x05\xf6\x80"),
    ),
    (b"\x82\x40\x80", Written(b"\x82\x40\x80")),
    (
        b"\x81\x40",
        Refused("got array, expected array with 2 items"),
    ),
    (
        b"\x83\x40\x80\x00",
        Refused("got array, expected array with 2 items"),
    ),
    (b"\x82\xf6\x80", Refused("got nul, expected bstr")),
    (b"\x82\xf6\xa0", Refused("got map, expected array")),
    (
        b"\x82\xf6\x82\x83\xf5\xf6\x80\x00",
        Refused("got bool, expected int"),
    ),
    (b"\xa0", Refused("got map, expected array")),
];

#[test]
fn reports(rt: HostRuntime) -> std::result::Result<(), Fail> {
    let alloc = rt.alloc();
    for (input, expected) in &REPORTS {
        assert!(rt; reads::<Report>(alloc, input, *expected)?);
    }
    Ok(())
}

/// The fault of the last faulty element is reported.
const PARCELS: [(&[u8], Expected); 8] = [
    (
        b"\x84\x05\x41\xaa\x42\x01\x02\x82\x01\x20",
        Written(b"\x84\x05\x41\xaa\x42\x01\x02\x82\x01\x20"),
    ),
    (
        b"\x9f\x18\x05\x5f\x41\xaa\xff\xf6\x9f\xff\xff",
        Written(b"\x84\x05\x41\xaa\xf6\x80"),
    ),
    (
        b"\x83\x05\x40\xf6",
        Refused("got array, expected array with 4 items"),
    ),
    (
        b"\x85\x05\x40\xf6\x80\x00",
        Refused("got array, expected array with 4 items"),
    ),
    (b"\x84\xf5\x40\xf6\x80", Refused("got bool, expected int")),
    (b"\x84\xf5\x00\xf6\x80", Refused("got int, expected bstr")),
    (
        b"\x84\xf5\x00\x01\x80",
        Refused("got int, expected bstr or nil"),
    ),
    (
        b"\x84\xf5\x00\x01\x81\xf4",
        Refused("got bool, expected int"),
    ),
];

#[test]
fn parcels(rt: HostRuntime) -> std::result::Result<(), Fail> {
    let alloc = rt.alloc();
    for (input, expected) in &PARCELS {
        assert!(rt; reads::<Parcel>(alloc, input, *expected)?);
    }
    Ok(())
}

#[test]
fn tagged_reports(rt: HostRuntime) -> std::result::Result<(), Fail> {
    let alloc = rt.alloc();
    let rows: [(&[u8], Expected); 5] = [
        (
            b"\xd9\x03\xea\x82\x41\xaa\x80",
            Written(b"\x82\x41\xaa\x80"),
        ),
        (
            b"\xd9\x03\xe8\x82\x41\xaa\x80",
            Refused("got tag, expected other tag"),
        ),
        (b"\x82\x41\xaa\x80", Refused("got array, expected tag")),
        (
            b"\xd9\x03\xea\x82\x41\xaa\x80\x00",
            Refused("extraneous data in CBOR input"),
        ),
        (
            b"\xd9\x03\xea\x82\x41",
            Refused("decode CBOR failure: Io(EndOfFile)"),
        ),
    ];
    for (input, expected) in &rows {
        let answer: Result<Report> = Report::from_tagged_slice(alloc, input);
        assert!(rt; is_expected(alloc, answer, *expected)?);
    }
    let report = Report {
        sender: vec![in alloc; 0xaa]?,
        readings: Vec::new(alloc),
    };
    let written = report.to_tagged_vec(alloc).ok().ok_or("memory")?;
    assert_eq!(rt;
        written.as_slice(),
        b"\xd9\x03\xea\x82\x41\xaa\x80".as_slice()
    );
    Ok(())
}

#[test]
fn tagged_readings(rt: HostRuntime) -> std::result::Result<(), Fail> {
    let alloc = rt.alloc();
    let rows: [(&[u8], Expected); 6] = [
        (
            b"\xd9\x03\xe8\x83\x05\xf6\x80",
            Written(b"\x83\x05\xf6\x80"),
        ),
        (
            b"\xd9\x03\xe9\x83\x05\xf6\x80",
            Refused("got tag, expected other tag"),
        ),
        (b"\x83\x05\xf6\x80", Refused("got array, expected tag")),
        (b"\xd9\x03\xe8\x05", Refused("got int, expected array")),
        (
            b"\xd9\x03\xe9\x83\x05\xf6\x80\x00",
            Refused("extraneous data in CBOR input"),
        ),
        (
            b"\xd9\x03\xe8",
            Refused("decode CBOR failure: Io(EndOfFile)"),
        ),
    ];
    for (input, expected) in &rows {
        let answer: Result<Reading> = Reading::from_tagged_slice(alloc, input);
        assert!(rt; is_expected(alloc, answer, *expected)?);
    }
    let reading = Reading {
        number: 5,
        payload: None,
        marks: Vec::new(alloc),
    };
    let written = reading.to_tagged_vec(alloc).ok().ok_or("memory")?;
    assert_eq!(rt;
        written.as_slice(),
        b"\xd9\x03\xe8\x83\x05\xf6\x80".as_slice()
    );
    Ok(())
}

const SETTINGS: [(&[u8], Expected); 18] = [
    (b"\xa1\x01\x05", Written(b"\xa1\x01\x05")),
    (
        b"\xa3\x04\x39\x01\x00\x07\xf6\x01\x05",
        Written(b"\xa3\x01\x05\x04\x39\x01\x00\x07\xf6"),
    ),
    (
        b"\xa3\x04\x00\x01\x05\x18\x04\x01",
        Refused("duplicate map key"),
    ),
    (b"\xa2\x04\x40\x01\x05", Refused("got bstr, expected int")),
    (
        b"\xa3\x02\x41\xaa\x01\x05\x03\x80",
        Written(b"\xa3\x01\x05\x02\x41\xaa\x03\x80"),
    ),
    (
        b"\xbf\x07\x01\x18\x01\x05\x06\x00\x20\xf5\xff",
        Written(b"\xa4\x01\x05\x07\x01\x06\x00\x20\xf5"),
    ),
    (b"\xa0", Refused("got no level, expected level")),
    (b"\xa1\x02\x40", Refused("got no level, expected level")),
    (b"\x80", Refused("got array, expected map")),
    (b"\xa2\x01\x05\x18\x01\x06", Refused("duplicate map key")),
    (b"\xa2\x01\x05\x01\xf6", Refused("duplicate map key")),
    (b"\xa2\x01\xf6\x01\x05", Refused("got nul, expected int")),
    (
        b"\xa3\x01\x05\x07\x00\x18\x07\x00",
        Refused("duplicate map key"),
    ),
    (
        b"\xa4\x07\x00\x07\x00\x02\x05\x01\x05",
        Refused("duplicate map key"),
    ),
    (
        b"\xa4\x02\x05\x07\x00\x07\x00\x01\x05",
        Refused("got int, expected bstr"),
    ),
    (
        b"\xa2\x01\x05\x61\x61\x00",
        Refused("got tstr, expected int"),
    ),
    (
        b"\xa2\x01\x05\x1b\x80\x00\x00\x00\x00\x00\x00\x00\x00",
        Refused("out of range integer value"),
    ),
    (
        b"\xa1\x01\x05\xf6",
        Refused("extraneous data in CBOR input"),
    ),
];

#[test]
fn settings(rt: HostRuntime) -> std::result::Result<(), Fail> {
    let alloc = rt.alloc();
    for (input, expected) in &SETTINGS {
        let answer: Result<Settings> = Settings::from_slice(alloc, input);
        assert!(rt; is_expected(alloc, answer, *expected)?);
        let tree: Result<Settings> = through_a_value(alloc, input);
        assert!(rt; is_expected(alloc, tree, *expected)?);
    }
    let tagged: Result<Settings> = Settings::from_tagged_slice(alloc, b"\xd9\x03\xe9\xa1\x01\x05");
    assert!(rt; is_expected(alloc, tagged, Written(b"\xa1\x01\x05"))?);
    let other: Result<Settings> = Settings::from_tagged_slice(alloc, b"\xd9\x03\xe8\xa1\x01\x05");
    assert!(rt; is_expected(alloc, other, Refused("got tag, expected other tag"))?);
    Ok(())
}

#[test]
fn settings_with_repeats(rt: HostRuntime) -> std::result::Result<(), Fail> {
    let alloc = rt.alloc();
    let rest = vec![in alloc;
        (Name(7), Value::Null),
        (Name(8), Value::Null),
        (Name(7), Value::from(1u8)),
    ]?;
    let settings = Settings {
        level: 1,
        name: None,
        limit: None,
        rest,
    };
    assert!(rt; matches!(settings.to_vec(alloc), Err(CoseError::DuplicateMapKey)));
    let rest = vec![in alloc; (Name(1), Value::Null)]?;
    let settings = Settings {
        level: 1,
        name: None,
        limit: None,
        rest,
    };
    let written = settings.to_tagged_vec(alloc).ok().ok_or("memory")?;
    assert_eq!(rt;
        written.as_slice(),
        b"\xd9\x03\xe9\xa2\x01\x01\x01\xf6".as_slice()
    );
    Ok(())
}
