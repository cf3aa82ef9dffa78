//! Calls of `CoseSignature` and `CoseCountersignature`, and of their builders.

use coset::{
    CoseCountersignature, CoseCountersignatureBuilder, CoseSignature, CoseSignatureBuilder, Result,
};
use std::alloc::Global;
use test_lines::header;
use test_lines::message::Headed;

/// The calls of `CoseSignature`.
pub struct SignatureCalls;

impl Headed for SignatureCalls {
    type Made = CoseSignature;

    const CALL: &'static str = "call of CoseSignature";

    fn change(made: &mut CoseSignature, word: &str) -> Result<()> {
        header::change(&mut made.protected, word)
    }

    fn rebuilt(alloc: Global, made: CoseSignature) -> Result<CoseSignature> {
        let CoseSignature {
            protected,
            unprotected,
            signature,
        } = made;
        let builder = CoseSignatureBuilder::new(alloc)
            .protected(protected.header)
            .unprotected(unprotected)
            .signature_from(alloc, &signature)?;
        Ok(builder.build())
    }
}

/// The calls of `CoseCountersignature`.
pub struct CountersignatureCalls;

impl Headed for CountersignatureCalls {
    type Made = CoseCountersignature;

    const CALL: &'static str = "call of CoseCountersignature";

    fn change(made: &mut CoseCountersignature, word: &str) -> Result<()> {
        header::change(&mut made.protected, word)
    }

    fn rebuilt(alloc: Global, made: CoseCountersignature) -> Result<CoseCountersignature> {
        let CoseCountersignature {
            protected,
            unprotected,
            signature,
        } = made;
        let builder = CoseCountersignatureBuilder::new(alloc)
            .protected(protected.header)
            .unprotected(unprotected)
            .signature_from(alloc, &signature)?;
        Ok(builder.build())
    }
}
