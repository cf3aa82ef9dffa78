//! `example_files FROM TO` reads the item of CBOR in the file FROM, and writes its shortest
//! encoding to the file TO. If it can't, standard error says why, and the status is 1.
#![tactic(auto)]

use anyhow::{Context, Result, bail};
use coset::CborSerializable;
use coset::cbor::value::Value;
use std::alloc::Global;
use std::{env, fs};

/// Returns the shortest encoding of the item that the bytes encode.
fn shortest(alloc: Global, bytes: &[u8]) -> coset::Result<Vec<u8>> {
    Value::from_slice(alloc, bytes)?.to_vec(alloc)
}

fn main(rt: HostRuntime) -> Result<()> {
    let mut names = env::args(&rt)?.skip(1);
    let (Some(from), Some(to)) = (names.next(), names.next()) else {
        bail!("usage: example_files FROM TO");
    };
    let bytes = fs::read(&rt, &from).context(format_args!("reading {from}"))?;
    let written = shortest(rt.alloc(), &bytes)?;
    fs::write(&rt, &to, &written).context(format_args!("writing {to}"))?;
    println!(rt; "{} bytes written", written.len())?;
    Ok(())
}

#[cfg(test)]
mod tests {
    use super::*;
    use std::test::Fail;

    #[test]
    fn long_heads_become_short(rt: HostRuntime) -> Result<(), Fail> {
        let written = shortest(rt.alloc(), b"\x18\x05")?;
        assert_eq!(rt; written.as_slice(), b"\x05".as_slice());
        assert!(rt; shortest(rt.alloc(), b"\x18").is_err());
        Ok(())
    }
}
