//! `test_keys_and_claims` makes calls line by line (see `test_lines`), and prints the results. The
//! calls are those of keys, recipients, contexts of key derivations, claims sets and timestamps.
#![tactic(auto)]

mod claims;
mod context;
mod key;
mod nonce;
mod recipient;
mod timestamp;

use crate::recipient::RecipientCalls;
use coset::cwt::{ClaimsSet, Timestamp};
use coset::{CoseKdfContext, CoseKey, CoseKeySet, CoseRecipient, PartyInfo, Result, SuppPubInfo};
use std::alloc::Global;
use std::io;
use test_lines::copies::{copied, copy};
use test_lines::line::{Calls, answer_input, unknown};
use test_lines::message;
use test_lines::typed::{Operation, eq, plain, valued};
use test_lines::words::Words;

/// The calls that the program makes.
struct AllCalls;

impl Calls for AllCalls {
    /// Makes a call that every type has. A nonce is only copied. A timestamp is read from items and
    /// written as items alone.
    fn typed(alloc: Global, kind: &str, call: Operation, words: &Words<'_>) -> Result<String> {
        match (kind, call) {
            ("CoseKey", _) => plain(alloc, call, words, |v: &CoseKey| copied(v.clone())),
            ("CoseKeySet", _) => plain(alloc, call, words, |v: &CoseKeySet| copied(v.clone())),
            ("CoseRecipient", _) => plain(
                alloc,
                call,
                words,
                |v: &CoseRecipient| copied(v.clone()),
            ),
            ("PartyInfo", _) => plain(alloc, call, words, |v: &PartyInfo| copied(v.clone())),
            ("SuppPubInfo", _) => plain(alloc, call, words, |v: &SuppPubInfo| copied(v.clone())),
            ("CoseKdfContext", _) => plain(
                alloc,
                call,
                words,
                |v: &CoseKdfContext| copied(v.clone()),
            ),
            ("Nonce", Operation::Clone) => nonce::copy(alloc, words),
            ("ClaimsSet", _) => plain(alloc, call, words, |v: &ClaimsSet| copied(v.clone())),
            ("Timestamp", Operation::Eq) => eq::<Timestamp>(alloc, words),
            ("Timestamp", Operation::Clone) => copy(
                alloc,
                words,
                |v: &Timestamp| copied(v.clone()),
            ),
            ("Timestamp", _) => valued::<Timestamp>(alloc, call, words),
            _ => Err(unknown()),
        }
    }

    /// Makes a call that only one type or its builder has.
    fn of_type(alloc: Global, kind: &str, name: &str, words: &Words<'_>) -> Result<String> {
        match (kind, name) {
            ("CoseKey", _) => key::call(alloc, name, words),
            ("CoseKeyBuilder", _) => key::builder::call(alloc, name, words),
            ("CoseKeySet", "each_from_slice") => key::set::each(alloc, words),
            ("MlDsaVariant", _) => key::call_variant(alloc, name, words),
            ("CoseRecipientBuilder", "add_recipient") => recipient::add_recipient(alloc, words),
            ("CoseRecipient" | "CoseRecipientBuilder", _) => message::call::<RecipientCalls>(
                alloc, name, words,
            ),
            ("PartyInfoBuilder", "build") => context::build_party(alloc, words),
            ("SuppPubInfoBuilder", "build") => context::build_public(alloc, words),
            ("CoseKdfContextBuilder", "build") => context::build(alloc, words),
            ("ClaimsSet", "get") => claims::get(alloc, words),
            ("ClaimsSet", "known_from_slice") => claims::known(alloc, words),
            ("ClaimsSetBuilder", "build") => claims::builder::build(alloc, words),
            ("Timestamp", "debug") => timestamp::debug(alloc, words),
            ("Timestamp", "compare") => timestamp::compare(alloc, words),
            _ => Err(unknown()),
        }
    }
}

fn main(rt: HostRuntime) -> io::Result<()> {
    answer_input::<AllCalls, _>(&rt)
}
