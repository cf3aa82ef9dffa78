//! Private header parameters, and content types (RFC 8152, sections 3.1 and 16.2).

ghost use Rattle.std.specs.Prelude.{◌≡◌, IfOk, IfErr, option_map};
ghost use Rattle.std.specs.Map.{lookup};
ghost use Rattle.std.specs.Option.{option_and_then};
ghost use Rattle.coset_value.specs.Parts.{as_bytes};
ghost use Rattle.coset_iana.specs.Algorithm as algorithms;
ghost use Rattle.coset_codec.specs.declared.error.CoseError.TheVariants.{OutOfMemory};
ghost use Rattle.coset_label.specs.LabelData.{assigned, number, same_label};
ghost use Rattle.coset_core.specs.Headers.{fields_in};
ghost use Rattle.coset_core.specs.Views.{header_view};
ghost use Rattle.example_uses.specs.Parameters.{is_of_token, traced};

use coset::cbor::value::Value;
use coset::iana::{Algorithm, CoapContentFormat};
use coset::{ContentType, Header, HeaderBuilder, Label, RegisteredLabelWithPrivate, Result};
use std::alloc::Global;

/// The label of a private parameter: a number below -65536, which IANA leaves to private use.
pub const TRACE: i64 = -70_002;

/// Makes a header that says that the content is a web token. It also has a private parameter, which
/// a reader must understand.
///
/// # Errors
/// `OutOfMemory` if an allocation fails.
pub fn traced(alloc: Global, algorithm: Algorithm, trace: &[u8]) -> Result<Header>
    ensures made { IfOk result (λ h. header_view h
        ≡ traced (assigned (algorithms.number algorithm)) trace.now) }
    ensures memory { IfErr result (λ e. e ≡ OutOfMemory) }
{
    let trace = Value::Bytes(Vec::from_slice(alloc, trace)?);
    let header = HeaderBuilder::new(alloc)
        .algorithm(algorithm)
        .content_format(CoapContentFormat::Cwt)
        .value(TRACE, trace)?
        .add_critical_label(RegisteredLabelWithPrivate::PrivateUse(TRACE))?;
    Ok(header.build())
}

/// Returns the value of the parameter [`TRACE`], if the header has it and it is a byte string.
pub fn trace_of(header: &Header) -> Option<&[u8]>
    ensures { option_map (λ b. b.now) result ≡ option_and_then as_bytes
        (lookup (same_label (number TRACE)) (fields_in (header_view header.now)).rest) }
{
    match header.get(&Label::Int(TRACE))? {
        Value::Bytes(trace) => Some(trace.as_slice()),
        _ => None,
    }
}

/// Returns true if the header says that the content is a web token.
pub fn is_of_token(header: &Header) -> bool
    ensures { result ≡ is_of_token (header_view header.now) }
{
    match &header.content_type {
        Some(format) => *format == ContentType::Assigned(CoapContentFormat::Cwt),
        None => false,
    }
}
