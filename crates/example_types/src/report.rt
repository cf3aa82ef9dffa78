//! A report: an array of two elements, of which the second contains values of another type. The
//! traits of a report are implemented one by one, as for a type without
//! [`Codec`](coset_codec::Codec).
//!
//! ```cddl
//! report = [ sender : bstr, readings : [* reading] ]
//! ```

ghost use Rattle.coset_cbor.specs.Least.{Extends};
ghost use Rattle.coset_codec.specs.Encoding.{Encodes};
ghost use Rattle.coset_codec.specs.Results.{Reads};
ghost use Rattle.coset_codec.specs.Inputs.{state, ReadsForward};
ghost use Rattle.example_types.specs.Report.{view, report};

use crate::reading::Reading;
use coset_cbor::de::Pull;
use coset_cbor::value::Value;
use coset_codec::read::{Decoder, decode_array};
use coset_codec::traits::FromPull;
use coset_codec::write::{Array, Encode, encode_to_value, encode_two, rolled_back};
use coset_codec::{
    AsCborValue, CborSerializable, ItemSource, Lawful, Result, TaggedCborSerializable,
};
use std::alloc::Global;

/// A report: a sender, and readings.
#[derive(Debug, Drop, PartialEq, Eq)]
pub struct Report {
    /// The sender of the report.
    pub sender: Vec<u8>,
    /// The readings, in order.
    pub readings: Vec<Reading>,
}

/// Reads the elements in order. A wrong number of elements is reported before the fault of the last
/// element that has one.
fn read_report(alloc: Global, input: &mut Decoder<'_>) -> Result<Report>
    ensures forward { ReadsForward (state input.old) (state input.new) result
        (λ v. Reads report view v result) }
{
    match decode_array(alloc, input, "array with 2 items") {
        Ok((sender, (readings, ()))) => Ok(Report { sender, readings }),
        Err(error) => Err(error),
    }
}

impl AsCborValue for Report {
    ghost use Rattle.example_types.specs.Report.{View as ReportView, report_laws};

    ghost View = { ReportView };

    ghost view = { view };

    ghost shape = { report };

    ghost unique = { report_laws.unique };

    ghost sound = { report_laws.sound };

    fn from_cbor_value(alloc: Global, value: Value) -> Result<Report> {
        read_report(alloc, &mut Decoder::Tree(value))
    }

    fn to_cbor_value(self, alloc: Global) -> Result<Value> {
        encode_to_value(alloc, &self)
    }
}

impl Lawful for Report {
    ghost use Rattle.example_types.specs.Report.{report_laws};

    ghost laws = { report_laws };
}

/// Appends the array of a report.
fn write_report(alloc: Global, sent: &Report, out: &mut Vec<u8>) -> Result<()>
    ensures written { Encodes (report.image (view sent.now)) out.old.items out.new.items result }
    ensures kept { Extends out.old.items out.new.items }
{
    encode_two(alloc, &sent.sender, &Array(&sent.readings), out)
}

impl Encode for Report {
    ghost image = { λ r. report.image (view r) };

    fn encode(&self, alloc: Global, out: &mut Vec<u8>) -> Result<()> {
        let before = out.len();
        let written = write_report(alloc, self, out);
        rolled_back(written, before, out)
    }
}

impl FromPull for Report {
    fn from_pull(alloc: Global, pull: Pull<'_>) -> Result<Report> {
        read_report(alloc, &mut Decoder::new(ItemSource::Borrowed(pull)))
    }

    fn from_input(alloc: Global, input: &mut Decoder<'_>) -> Result<Report> {
        read_report(alloc, input)
    }
}

/// The default methods read and write a report by way of a value, also under its tag.
impl CborSerializable for Report {}

impl TaggedCborSerializable for Report {
    ghost TAG = { 1002 };

    const TAG: u64 = 1002;
}
