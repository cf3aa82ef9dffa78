//! The operations that can be timed.

ghost use Rattle.std.specs.Prelude.{◌≡◌, MatchOption};
ghost use Rattle.tool_bench.specs.Operation.{operation_name};

use crate::calls::{time_canonicalize, time_check, time_compare, time_copy, time_refusal};
use crate::fault::Fault;
use crate::kind::Kind;
use crate::seen::time_seen;
use crate::structure::Structure;
use crate::tokens::{time_by_hand, time_judge, time_verify_token};
use coset_recipient::{CoseRecipient, CoseSign1};
use std::rt::Clock;
use std::time::Duration;

/// An operation of the library.
#[derive(Clone, Copy, Debug, PartialEq, Eq)]
pub enum Operation {
    /// Checking an item, without making a value.
    Check,
    /// Reading a value.
    Read(Kind),
    /// Writing a value.
    Write(Kind),
    /// Making a message's structure.
    Make(Structure),
    /// Refusing a message with one signature.
    Sign1Refused,
    /// Copying a message with one signature.
    Sign1Copy,
    /// Comparing a message with one signature with its copy.
    Sign1Compare,
    /// Refusing a recipient.
    RecipientRefused,
    /// Copying a recipient.
    RecipientCopy,
    /// Comparing a recipient with its copy.
    RecipientCompare,
    /// Putting the parameters of a key in order.
    KeyCanonicalize,
    /// Verifying a token by a ring of keys and a policy, with `verify_token`.
    VerifyToken,
    /// Finding a message without allocating, and writing its structure.
    Seen,
    /// Judging a token with `judge`.
    Judge,
    /// Reading a token's message, its structure and its claims by hand.
    TokenByHand,
}

impl Operation {
    /// Returns the operation of that name.
    pub fn of(name: &str) -> Option<Operation>
        ensures { MatchOption result ((o : Operation) → name.now ≡ operation_name o → ⊥)
            (λ o. name.now ≡ operation_name o) }
    {
        if let Some(kind) = Kind::read_by(name) {
            return Some(Operation::Read(kind));
        }
        if let Some(kind) = Kind::written_by(name) {
            return Some(Operation::Write(kind));
        }
        if let Some(structure) = Structure::made_by(name) {
            return Some(Operation::Make(structure));
        }
        match name {
            "check" => Some(Operation::Check),
            "sign1_refused" => Some(Operation::Sign1Refused),
            "sign1_copy" => Some(Operation::Sign1Copy),
            "sign1_compare" => Some(Operation::Sign1Compare),
            "recipient_refused" => Some(Operation::RecipientRefused),
            "recipient_copy" => Some(Operation::RecipientCopy),
            "recipient_compare" => Some(Operation::RecipientCompare),
            "key_canonicalize" => Some(Operation::KeyCanonicalize),
            "verify_token" => Some(Operation::VerifyToken),
            "seen" => Some(Operation::Seen),
            "judge" => Some(Operation::Judge),
            "token_by_hand" => Some(Operation::TokenByHand),
            _ => None,
        }
    }

    /// Makes the calls over the bytes and returns the time that they took.
    ///
    /// # Errors
    /// The fault of the call that failed.
    pub fn time<R: AllocGlobal + Clock>(
        self,
        rt: &R,
        bytes: &[u8],
        calls: usize,
    ) -> Result<Duration, Fault> {
        match self {
            Operation::Check => time_check(rt, bytes, calls),
            Operation::Read(kind) => kind.time(false, rt, bytes, calls),
            Operation::Write(kind) => kind.time(true, rt, bytes, calls),
            Operation::Make(structure) => structure.time(rt, bytes, calls),
            Operation::Sign1Refused => time_refusal::<CoseSign1, R>(rt, bytes, calls),
            Operation::Sign1Copy => time_copy::<CoseSign1, R>(rt, bytes, calls),
            Operation::Sign1Compare => time_compare::<CoseSign1, R>(rt, bytes, calls),
            Operation::RecipientRefused => time_refusal::<CoseRecipient, R>(rt, bytes, calls),
            Operation::RecipientCopy => time_copy::<CoseRecipient, R>(rt, bytes, calls),
            Operation::RecipientCompare => time_compare::<CoseRecipient, R>(rt, bytes, calls),
            Operation::KeyCanonicalize => time_canonicalize(rt, bytes, calls),
            Operation::VerifyToken => time_verify_token(rt, bytes, calls),
            Operation::Seen => time_seen(rt, bytes, calls),
            Operation::Judge => time_judge(rt, bytes, calls),
            Operation::TokenByHand => time_by_hand(rt, bytes, calls),
        }
    }
}
