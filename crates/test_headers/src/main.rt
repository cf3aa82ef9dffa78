//! `test_headers` makes calls line by line (see `test_lines`), and prints the results. The calls are
//! those of registries and labels, and of headers, protected headers and their builder.
#![tactic(auto)]

mod header;
mod label;
mod order;
mod own;
mod protected;
mod registry;

use crate::own::Own;
use coset::cwt::ClaimName;
use coset::iana::{EllipticCurve, HeaderParameter};
use coset::{
    Algorithm, ContentType, Header, KeyOperation, KeyType, Label, ProtectedBstr, ProtectedHeader,
    RegisteredLabel, RegisteredLabelWithPrivate, Result,
};
use std::alloc::Global;
use std::io;
use test_lines::copies::copied;
use test_lines::line::{Calls, answer_input, unknown};
use test_lines::typed::{Operation, plain, serialized};
use test_lines::words::Words;

/// The calls that the program makes.
struct AllCalls;

impl Calls for AllCalls {
    /// Makes a call that every type has. If a registry's labels have no name of their own, they
    /// have the registry's.
    fn typed(alloc: Global, kind: &str, call: Operation, words: &Words<'_>) -> Result<String> {
        match kind {
            "Label" => plain(alloc, call, words, |v: &Label| copied(v.clone())),
            "Algorithm" => plain(alloc, call, words, |v: &Algorithm| copied(v.clone())),
            "ContentType" => plain(alloc, call, words, |v: &ContentType| copied(v.clone())),
            "KeyType" => plain(alloc, call, words, |v: &KeyType| copied(v.clone())),
            "KeyOperation" => plain(alloc, call, words, |v: &KeyOperation| copied(v.clone())),
            "ClaimName" => plain(alloc, call, words, |v: &ClaimName| copied(v.clone())),
            "HeaderParameter" => plain(
                alloc,
                call,
                words,
                |v: &RegisteredLabelWithPrivate<HeaderParameter>| copied(v.clone()),
            ),
            "EllipticCurve" => plain(
                alloc,
                call,
                words,
                |v: &RegisteredLabel<EllipticCurve>| copied(v.clone()),
            ),
            "Own" => plain(
                alloc,
                call,
                words,
                |v: &RegisteredLabelWithPrivate<Own>| copied(v.clone()),
            ),
            "Header" => plain(alloc, call, words, |v: &Header| copied(v.clone())),
            "ProtectedHeader" => plain(alloc, call, words, |v: &ProtectedHeader| copied(v.clone())),
            "ProtectedBstr" => serialized::<ProtectedBstr>(alloc, call, words),
            _ => Err(unknown()),
        }
    }

    /// Makes a call that only one type, its builder or one registry has.
    fn of_type(alloc: Global, kind: &str, name: &str, words: &Words<'_>) -> Result<String> {
        match (kind, name) {
            ("iana", _) => registry::call(alloc, name, words),
            ("Header", "is_empty") => header::is_empty(alloc, words),
            ("Header", "get") => header::get(alloc, words),
            ("HeaderBuilder", "build") => header::builder::build(alloc, words),
            ("ProtectedHeader", _) => protected::call(alloc, name, words),
            ("CborOrdering", "compare") => order::compare(alloc, words),
            ("Label", "cmp_canonical") => order::cmp_canonical(alloc, words),
            (_, "cmp") => order::cmp(alloc, kind, words),
            (_, "debug" | "display") => label::show(alloc, kind, name, words),
            (_, "of_private_use") => label::of_private_use(alloc, kind, words),
            (_, "from") => label::from(alloc, kind, words),
            (_, "default") => label::default(alloc, kind),
            _ => Err(unknown()),
        }
    }
}

fn main(rt: HostRuntime) -> io::Result<()> {
    answer_input::<AllCalls, _>(&rt)
}
