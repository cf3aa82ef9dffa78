//! Repeated labels among many.

use coset_cbor::value::Value;
use coset_codec::has_repeats;
use example_types::settings::Name;
use std::alloc::{AllocError, Global};
use std::test::*;

/// Returns the label of a number. A greater number has a smaller label.
fn label(n: i64) -> Name {
    Name(1000i64.wrapping_sub(n.wrapping_mul(7)))
}

/// Returns forty pairs. The last pair has the label of `last`.
fn forty(alloc: Global, last: i64) -> Result<Vec<(Name, Value)>, AllocError> {
    let mut pairs = Vec::new(alloc);
    for n in 0..39i64 {
        pairs.push((label(n), Value::Null))?;
    }
    pairs.push((label(last), Value::Null))?;
    Ok(pairs)
}

#[test]
fn many_labels(rt: HostRuntime) -> Result<(), Fail> {
    let alloc = rt.alloc();
    let none = forty(alloc, 39)?;
    for n in 0..=none.len() {
        assert!(rt; matches!(has_repeats(alloc, &none[..n]), Ok(false)));
    }
    for n in 0..39i64 {
        assert!(rt; matches!(has_repeats(alloc, &forty(alloc, n)?), Ok(true)));
    }
    Ok(())
}
