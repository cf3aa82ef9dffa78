//! The structures whose making is timed: those of signatures, MACs, ciphers and countersignatures.

ghost use Rattle.std.specs.Prelude.{◌≡◌, MatchOption};
ghost use Rattle.tool_bench.specs.Operation.{structure_name};

use crate::calls::time_structure;
use crate::fault::Fault;
use coset_recipient::{
    CoseCountersignature, CoseEncrypt, CoseEncrypt0, CoseMac, CoseMac0, CoseSign, CoseSign1,
};
use std::rt::Clock;
use std::time::Duration;

/// A structure of a message (RFC 8152, sections 4.4, 5.3 and 6.3), or of a countersignature of
/// version 2.
#[derive(Clone, Copy, Debug, PartialEq, Eq)]
pub enum Structure {
    /// The `Countersign_structure` of a countersignature of version 2.
    CountersignatureTbs,
    /// The `Sig_structure` of a message with one signature.
    Sign1Tbs,
    /// The `Sig_structure` of a message's first signature.
    SignTbs,
    /// The `MAC_structure` of a message with a MAC.
    Mac0Tbm,
    /// The `MAC_structure` of a message with a MAC and recipients.
    MacTbm,
    /// The `Enc_structure` of an encrypted message.
    Encrypt0Aad,
    /// The `Enc_structure` of an encrypted message with recipients.
    EncryptAad,
}

impl Structure {
    /// Returns the structure that the operation `name` makes.
    pub fn made_by(name: &str) -> Option<Structure>
        ensures { MatchOption result ((s : Structure) → name.now ≡ structure_name s → ⊥)
            (λ s. name.now ≡ structure_name s) }
    {
        match name {
            "countersignature_tbs" => Some(Structure::CountersignatureTbs),
            "sign1_tbs" => Some(Structure::Sign1Tbs),
            "sign_tbs" => Some(Structure::SignTbs),
            "mac0_tbm" => Some(Structure::Mac0Tbm),
            "mac_tbm" => Some(Structure::MacTbm),
            "encrypt0_aad" => Some(Structure::Encrypt0Aad),
            "encrypt_aad" => Some(Structure::EncryptAad),
            _ => None,
        }
    }

    /// Returns the time that the calls take to make the structure of the message in `bytes`.
    ///
    /// # Errors
    /// The fault of the call that failed.
    pub fn time<R: AllocGlobal + Clock>(
        self,
        rt: &R,
        bytes: &[u8],
        calls: usize,
    ) -> Result<Duration, Fault> {
        match self {
            Structure::CountersignatureTbs => {
                time_structure::<CoseCountersignature, R>(rt, bytes, calls)
            }
            Structure::Sign1Tbs => time_structure::<CoseSign1, R>(rt, bytes, calls),
            Structure::SignTbs => time_structure::<CoseSign, R>(rt, bytes, calls),
            Structure::Mac0Tbm => time_structure::<CoseMac0, R>(rt, bytes, calls),
            Structure::MacTbm => time_structure::<CoseMac, R>(rt, bytes, calls),
            Structure::Encrypt0Aad => time_structure::<CoseEncrypt0, R>(rt, bytes, calls),
            Structure::EncryptAad => time_structure::<CoseEncrypt, R>(rt, bytes, calls),
        }
    }
}
