//! Values that are asked for as one kind: the content, or the error that names both kinds. Also the
//! array of the images of values.

use coset_cbor::value::{Float, Value};
use coset_codec::util::{ValueTryAs, cbor_type_error, to_cbor_array};
use coset_codec::{CallError, CoseError, Result};
use example_types::reading::Mark;
use std::alloc::{AllocError, Global};
use std::test::*;

/// Returns a value of each kind, with the kind's name in errors.
fn kinds(alloc: Global) -> std::result::Result<Vec<(Value, &'static str)>, AllocError> {
    let tagged = Box::new(alloc, Value::Null)?;
    let pairs = vec![in alloc; (Value::Null, Value::Bool(true))]?;
    Ok(vec![in alloc;
        (Value::from(7u8), "int"),
        (Value::Bytes(vec![in alloc; 1, 2]?), "bstr"),
        (Value::Float(Float::Half(0x3e00)), "float"),
        (Value::Text(String::from_str(alloc, "a")?), "tstr"),
        (Value::Bool(true), "bool"),
        (Value::Null, "nul"),
        (Value::Tag(18, tagged), "tag"),
        (Value::Array(vec![in alloc; Value::Null]?), "array"),
        (Value::Map(pairs), "map"),
    ]?)
}

/// Returns true if the error has these two texts.
fn refused(error: &Option<CoseError>, got: &str, want: &str) -> bool {
    match error {
        Some(CoseError::UnexpectedItem(g, w)) => *g == got && *w == want,
        _ => false,
    }
}

/// Returns the error of a result.
macro_rules! error_of {
    ($answer:expr) => {
        match $answer {
            Ok(_) => None,
            Err(error) => Some(error),
        }
    };
}

/// Returns the error of the call that asks for that kind.
fn ask(value: Value, kind: &str) -> Option<CoseError> {
    match kind {
        "int" => error_of!(value.try_as_integer()),
        "bstr" => error_of!(value.try_as_bytes()),
        "filled bstr" => error_of!(value.try_as_nonempty_bytes()),
        "array" => error_of!(value.try_as_array()),
        "map" => error_of!(value.try_as_map()),
        "tag" => error_of!(value.try_as_tag()),
        "tstr" => error_of!(value.try_as_string()),
        _ => error_of!(cbor_type_error::<()>(&value, "other")),
    }
}

#[test]
fn each_call_asks_for_its_kind(rt: HostRuntime) -> std::result::Result<(), Fail> {
    let rows = [
        ("int", "int"),
        ("bstr", "bstr"),
        ("filled bstr", "bstr"),
        ("array", "array"),
        ("map", "map"),
        ("tag", "tag"),
        ("tstr", "tstr"),
        ("none", "other"),
    ];
    for (call, want) in &rows {
        for (value, kind) in kinds(rt.alloc())? {
            let answer = ask(value, *call);
            if kind == *want {
                assert!(rt; answer.is_none(), "{call} of {kind}");
            } else {
                assert!(rt; refused(&answer, kind, *want), "{call} of {kind}");
            }
        }
    }
    Ok(())
}

#[test]
fn empty_bytes(rt: HostRuntime) -> std::result::Result<(), Fail> {
    let answer = ask(Value::Bytes(Vec::new(rt.alloc())), "filled bstr");
    assert!(rt; refused(&answer, "empty bstr", "non-empty bstr"));
    Ok(())
}

/// Returns twice the number, if it fits a byte.
fn twice(value: Value) -> std::result::Result<u8, u8> {
    match value.as_integer() {
        Some(n) => match u64::try_from(n) {
            Ok(n) if n < 100 => Ok(2 * n as u8),
            _ => Err(1),
        },
        None => Err(2),
    }
}

/// Returns the array of these numbers, converted.
fn converted(alloc: Global, numbers: &[u8]) -> std::result::Result<Vec<u8>, CallError<u8>> {
    let mut elements = Vec::new(alloc);
    for n in numbers {
        if elements.push(Value::from(*n)).is_err() {
            return Err(CallError::Coset(CoseError::OutOfMemory));
        }
    }
    Value::Array(elements).try_as_array_then_convert(alloc, twice)
}

#[test]
fn converts_elements(rt: HostRuntime) -> std::result::Result<(), Fail> {
    let alloc = rt.alloc();
    assert!(rt;
        matches!(converted(alloc, &[1, 2, 30]), Ok(all) if all.as_slice() == [2u8, 4, 60].as_slice())
    );
    assert!(rt; matches!(converted(alloc, &[]), Ok(all) if all.is_empty()));
    assert!(rt; matches!(converted(alloc, &[1, 100, 2]), Err(CallError::Caller(1))));
    let no_array = Value::Null.try_as_array_then_convert(alloc, twice);
    assert!(rt;
        matches!(
            no_array,
            Err(CallError::Coset(CoseError::UnexpectedItem("nul", "array")))
        )
    );
    Ok(())
}

#[test]
fn writes_elements(rt: HostRuntime) -> std::result::Result<(), Fail> {
    let alloc = rt.alloc();
    let mut marks = Vec::new(alloc);
    marks.push(Mark(5))?;
    marks.push(Mark(-1))?;
    let mut numbers = Vec::new(alloc);
    numbers.push(Value::from(5u8))?;
    numbers.push(Value::from(-1i64))?;
    let array = to_cbor_array(alloc, marks).ok().ok_or("refused")?;
    assert!(rt; array == Value::Array(numbers));
    Ok(())
}
