//! `test_messages` makes calls of messages, signatures and countersignatures, of their builders,
//! and of structures. It does so line by line (see `test_lines`), and prints the results.
#![tactic(auto)]

mod countersign;
mod encrypt;
mod encrypt0;
mod mac;
mod mac0;
mod missing;
mod sign;
mod sign1;
mod signature;
mod structures;

use crate::encrypt::EncryptCalls;
use crate::encrypt0::Encrypt0Calls;
use crate::mac::MacCalls;
use crate::mac0::Mac0Calls;
use crate::sign::SignCalls;
use crate::sign1::Sign1Calls;
use crate::signature::{CountersignatureCalls, SignatureCalls};
use coset::{
    CoseCountersignature, CoseEncrypt, CoseEncrypt0, CoseMac, CoseMac0, CoseSign, CoseSign1,
    CoseSignature, Result,
};
use std::alloc::Global;
use std::io;
use test_lines::copies::copied;
use test_lines::line::{Calls, answer_input, unknown};
use test_lines::message::{call, call_headed};
use test_lines::typed::{Operation, message, plain};
use test_lines::words::Words;

/// The calls that the program makes.
struct AllCalls;

impl Calls for AllCalls {
    /// Makes a call that every type has.
    fn typed(alloc: Global, kind: &str, call: Operation, words: &Words<'_>) -> Result<String> {
        match kind {
            "CoseSign1" => message(alloc, call, words, |v: &CoseSign1| copied(v.clone())),
            "CoseSign" => message(alloc, call, words, |v: &CoseSign| copied(v.clone())),
            "CoseMac0" => message(alloc, call, words, |v: &CoseMac0| copied(v.clone())),
            "CoseMac" => message(alloc, call, words, |v: &CoseMac| copied(v.clone())),
            "CoseEncrypt0" => message(alloc, call, words, |v: &CoseEncrypt0| copied(v.clone())),
            "CoseEncrypt" => message(alloc, call, words, |v: &CoseEncrypt| copied(v.clone())),
            "CoseSignature" => plain(alloc, call, words, |v: &CoseSignature| copied(v.clone())),
            "CoseCountersignature" => message(
                alloc,
                call,
                words,
                |v: &CoseCountersignature| copied(v.clone()),
            ),
            _ => Err(unknown()),
        }
    }

    /// Makes a call that only one type or its builder has.
    fn of_type(alloc: Global, kind: &str, name: &str, words: &Words<'_>) -> Result<String> {
        match (kind, name) {
            ("CoseSignBuilder", "add_signature") => sign::add_signature(alloc, words),
            ("CoseMacBuilder", "add_recipient") => mac::add_recipient(alloc, words),
            ("CoseEncryptBuilder", "add_recipient") => encrypt::add_recipient(alloc, words),
            ("CoseSign1" | "CoseSign1Builder", _) => call::<Sign1Calls>(alloc, name, words),
            ("CoseSign" | "CoseSignBuilder", _) => call::<SignCalls>(alloc, name, words),
            ("CoseMac0" | "CoseMac0Builder", _) => call::<Mac0Calls>(alloc, name, words),
            ("CoseMac" | "CoseMacBuilder", _) => call::<MacCalls>(alloc, name, words),
            ("CoseEncrypt0" | "CoseEncrypt0Builder", _) => call::<Encrypt0Calls>(
                alloc, name, words,
            ),
            ("CoseEncrypt" | "CoseEncryptBuilder", _) => call::<EncryptCalls>(alloc, name, words),
            ("CoseSignature" | "CoseSignatureBuilder", _) => {
                call_headed::<SignatureCalls>(alloc, name, words)
            }
            ("CoseCountersignature" | "CoseCountersignatureBuilder", _) => {
                call_headed::<CountersignatureCalls>(alloc, name, words)
            }
            _ => Err(unknown()),
        }
    }

    /// Makes a call without a type.
    fn of_no_type(alloc: Global, name: &str, words: &Words<'_>) -> Result<String> {
        structures::call(alloc, name, words)
    }
}

fn main(rt: HostRuntime) -> io::Result<()> {
    answer_input::<AllCalls, _>(&rt)
}
