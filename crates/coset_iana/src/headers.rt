//! Labels of header parameters, and of those that belong to a recipient's algorithm.

ghost use Rattle.std.specs.Prelude.{Some, refl};
ghost use Rattle.coset_iana.specs.WithPrivateRange.{is_private_use};

use crate::registry::Registry;
use crate::{Named, WithPrivateRange};
use std::fmt;

/// Header labels below this number are for private use (RFC 8152, section 16.2).
pub const HEADER_PARAMETER_PRIVATE_USE_MAX: i64 = -65536;

/// The label of a header parameter, as IANA's registry "COSE Header Parameters" assigns it (RFC
/// 8152, sections 3.1 and 16.2).
#[derive(Clone, Copy, Debug, Eq, Ord, PartialEq, PartialOrd)]
pub enum HeaderParameter {
    /// Never a header label; reserved.
    Reserved = 0,
    /// The algorithm: int or tstr.
    Alg = 1,
    /// The labels that a recipient must understand: an array of labels.
    Crit = 2,
    /// The type of the payload: a CoAP content format or a media type.
    ContentType = 3,
    /// The key identifier, a hint at the key: bstr.
    Kid = 4,
    /// The full initialization vector: bstr.
    Iv = 5,
    /// The part of the initialization vector that changes with each message: bstr.
    PartialIv = 6,
    /// One countersignature or several.
    CounterSignature = 7,
    /// A countersignature without headers: bstr.
    CounterSignature0 = 9,
    /// Distinguishes equal key identifiers of different senders: bstr (RFC 8613, section 5.1).
    KidContext = 10,
    /// One countersignature or several, version 2 (RFC 9338, section 3.1).
    CounterSignatureV2 = 11,
    /// A countersignature without headers, version 2 (RFC 9338, section 3.2).
    CounterSignature0V2 = 12,
    /// A CWT whose `cnf` claim contains the key (RFC 9528).
    KeyCwt = 13,
    /// An unsigned claims set whose `cnf` claim contains the key (RFC 9528).
    KeyCwtClaimsSet = 14,
    /// Claims about the message, outside of its payload: map (RFC 9597).
    CwtClaims = 15,
    /// The type of the whole COSE object: a CoAP content format or a media type (RFC 9596).
    ObjectContentType = 16,
    /// X.509 certificates in no order (RFC 9360, section 2).
    X5Bag = 32,
    /// A chain of X.509 certificates, the end entity's first (RFC 9360, section 2).
    X5Chain = 33,
    /// The hash of the end entity's X.509 certificate (RFC 9360, section 2).
    X5T = 34,
    /// The URI of an X.509 certificate or chain (RFC 9360, section 2).
    X5U = 35,
    /// A nonce of FIDO Device Onboard: bstr.
    CuphNonce = 256,
    /// The owner's public key in FIDO Device Onboard.
    CuphOwnerPubKey = 257,
}

/// The header labels, in ascending order of their numbers.
pub const HEADER_PARAMETERS: [HeaderParameter; 22] = [
    HeaderParameter::Reserved,
    HeaderParameter::Alg,
    HeaderParameter::Crit,
    HeaderParameter::ContentType,
    HeaderParameter::Kid,
    HeaderParameter::Iv,
    HeaderParameter::PartialIv,
    HeaderParameter::CounterSignature,
    HeaderParameter::CounterSignature0,
    HeaderParameter::KidContext,
    HeaderParameter::CounterSignatureV2,
    HeaderParameter::CounterSignature0V2,
    HeaderParameter::KeyCwt,
    HeaderParameter::KeyCwtClaimsSet,
    HeaderParameter::CwtClaims,
    HeaderParameter::ObjectContentType,
    HeaderParameter::X5Bag,
    HeaderParameter::X5Chain,
    HeaderParameter::X5T,
    HeaderParameter::X5U,
    HeaderParameter::CuphNonce,
    HeaderParameter::CuphOwnerPubKey,
];

impl Registry for HeaderParameter {
    ghost use Rattle.coset_iana.specs.HeaderParameter.{number};
    ghost use Rattle.coset_iana.specs.declared.headers.HeaderParameter.TheVariants.{Reserved};
    ghost use Rattle.coset_iana.specs.declared.headers.TheConstants.{HEADER_PARAMETERS};

    ghost number = { number };

    ghost values = { HEADER_PARAMETERS };

    ghost ascending = { refl };

    ghost has_each = { elim [ Reserved ↦ refl | _ ↦ refl ] };

    fn values() -> &'static [HeaderParameter] {
        &HEADER_PARAMETERS
    }

    fn number(self) -> i64 {
        self as i64
    }
}

impl Named for HeaderParameter {
    ghost use Rattle.coset_iana.specs.HeaderParameter.{name};

    ghost name = { name };

    fn name(&self) -> &'static str {
        match self {
            HeaderParameter::Reserved => "Reserved",
            HeaderParameter::Alg => "alg",
            HeaderParameter::Crit => "crit",
            HeaderParameter::ContentType => "content type",
            HeaderParameter::Kid => "kid",
            HeaderParameter::Iv => "IV",
            HeaderParameter::PartialIv => "Partial IV",
            HeaderParameter::CounterSignature => "counter signature",
            HeaderParameter::CounterSignature0 => "CounterSignature0",
            HeaderParameter::KidContext => "kid context",
            HeaderParameter::CounterSignatureV2 => "Countersignature version 2",
            HeaderParameter::CounterSignature0V2 => "Countersignature0 version 2",
            HeaderParameter::KeyCwt => "kcwt",
            HeaderParameter::KeyCwtClaimsSet => "kccs",
            HeaderParameter::CwtClaims => "CWT Claims",
            HeaderParameter::ObjectContentType => "typ",
            HeaderParameter::X5Bag => "x5bag",
            HeaderParameter::X5Chain => "x5chain",
            HeaderParameter::X5T => "x5t",
            HeaderParameter::X5U => "x5u",
            HeaderParameter::CuphNonce => "CUPHNonce",
            HeaderParameter::CuphOwnerPubKey => "CUPHOwnerPubKey",
        }
    }
}

impl fmt::Display for HeaderParameter {
    ghost use Rattle.coset_iana.specs.HeaderParameter.{name};

    ghost output = { λ x. Some (name x) };

    fn fmt<W: fmt::Write>(&self, f: &mut fmt::Formatter<W>) -> fmt::Result {
        f.pad(self.name())
    }
}

impl WithPrivateRange for HeaderParameter {
    ghost is_private = { is_private_use };

    fn is_private(i: i64) -> bool {
        i < HEADER_PARAMETER_PRIVATE_USE_MAX
    }
}

/// The label of a header parameter that belongs to a recipient's algorithm, as IANA's registry
/// "COSE Header Algorithm Parameters" assigns it (RFC 8152, sections 11, 12 and 16.3).
#[derive(Clone, Copy, Debug, Eq, Ord, PartialEq, PartialOrd)]
pub enum HeaderAlgorithmParameter {
    /// The certificate chain of the sender's static key (RFC 9360, section 3).
    X5ChainSender = -29,
    /// The URI of the certificate chain of the sender's static key (RFC 9360, section 3).
    X5USender = -28,
    /// The hash of the certificate of the sender's static key (RFC 9360, section 3).
    X5TSender = -27,
    /// Other information about party V: bstr.
    PartyVOther = -26,
    /// A nonce from party V: bstr or int.
    PartyVNonce = -25,
    /// The identity of party V: bstr.
    PartyVIdentity = -24,
    /// Other information about party U: bstr.
    PartyUOther = -23,
    /// A nonce from party U: bstr or int.
    PartyUNonce = -22,
    /// The identity of party U: bstr.
    PartyUIdentity = -21,
    /// A random salt for HKDF: bstr.
    Salt = -20,
    /// The identifier of the sender's static key: bstr.
    StaticKeyId = -3,
    /// The sender's static public key: COSE_Key.
    StaticKey = -2,
    /// The sender's ephemeral public key, for this message only: COSE_Key.
    EphemeralKey = -1,
}

/// The header labels of recipients' algorithms, in ascending order of their numbers.
pub const HEADER_ALGORITHM_PARAMETERS: [HeaderAlgorithmParameter; 13] = [
    HeaderAlgorithmParameter::X5ChainSender,
    HeaderAlgorithmParameter::X5USender,
    HeaderAlgorithmParameter::X5TSender,
    HeaderAlgorithmParameter::PartyVOther,
    HeaderAlgorithmParameter::PartyVNonce,
    HeaderAlgorithmParameter::PartyVIdentity,
    HeaderAlgorithmParameter::PartyUOther,
    HeaderAlgorithmParameter::PartyUNonce,
    HeaderAlgorithmParameter::PartyUIdentity,
    HeaderAlgorithmParameter::Salt,
    HeaderAlgorithmParameter::StaticKeyId,
    HeaderAlgorithmParameter::StaticKey,
    HeaderAlgorithmParameter::EphemeralKey,
];

impl Registry for HeaderAlgorithmParameter {
    ghost use Rattle.coset_iana.specs.HeaderAlgorithmParameter.{number};
    ghost use Rattle.coset_iana.specs.declared.headers.HeaderAlgorithmParameter.TheVariants.{X5ChainSender};
    ghost use Rattle.coset_iana.specs.declared.headers.TheConstants.{HEADER_ALGORITHM_PARAMETERS};

    ghost number = { number };

    ghost values = { HEADER_ALGORITHM_PARAMETERS };

    ghost ascending = { refl };

    ghost has_each = { elim [ X5ChainSender ↦ refl | _ ↦ refl ] };

    const NEGATIVES: i64 = 13;

    fn values() -> &'static [HeaderAlgorithmParameter] {
        &HEADER_ALGORITHM_PARAMETERS
    }

    fn number(self) -> i64 {
        self as i64
    }
}

impl Named for HeaderAlgorithmParameter {
    ghost use Rattle.coset_iana.specs.HeaderAlgorithmParameter.{name};

    ghost name = { name };

    fn name(&self) -> &'static str {
        match self {
            HeaderAlgorithmParameter::X5ChainSender => "x5chain-sender",
            HeaderAlgorithmParameter::X5USender => "x5u-sender",
            HeaderAlgorithmParameter::X5TSender => "x5t-sender",
            HeaderAlgorithmParameter::PartyVOther => "PartyV other",
            HeaderAlgorithmParameter::PartyVNonce => "PartyV nonce",
            HeaderAlgorithmParameter::PartyVIdentity => "PartyV identity",
            HeaderAlgorithmParameter::PartyUOther => "PartyU other",
            HeaderAlgorithmParameter::PartyUNonce => "PartyU nonce",
            HeaderAlgorithmParameter::PartyUIdentity => "PartyU identity",
            HeaderAlgorithmParameter::Salt => "salt",
            HeaderAlgorithmParameter::StaticKeyId => "static key id",
            HeaderAlgorithmParameter::StaticKey => "static key",
            HeaderAlgorithmParameter::EphemeralKey => "ephemeral key",
        }
    }
}

impl fmt::Display for HeaderAlgorithmParameter {
    ghost use Rattle.coset_iana.specs.HeaderAlgorithmParameter.{name};

    ghost output = { λ x. Some (name x) };

    fn fmt<W: fmt::Write>(&self, f: &mut fmt::Formatter<W>) -> fmt::Result {
        f.pad(self.name())
    }
}
