//! Claim names.

ghost use Rattle.std.specs.Prelude.{Some, refl};
ghost use Rattle.coset_iana.specs.WithPrivateRange.{is_private_use};

use crate::registry::Registry;
use crate::{Named, WithPrivateRange};
use std::fmt;

/// Claim names below this number are for private use (RFC 8392, section 9.1).
pub const CWT_CLAIM_PRIVATE_USE_MAX: i64 = -65536;

/// The name of a claim, as IANA's registry "CBOR Web Token (CWT) Claims" assigns it (RFC 8392,
/// sections 3.1 and 9.1). Sections without an RFC are of RFC 8392. Claims about the device, its
/// boot, hardware and software are those of attestation tokens (RFC 9711).
#[derive(Clone, Copy, Debug, Eq, Ord, PartialEq, PartialOrd)]
pub enum CwtClaimName {
    /// The components that a GlobalPlatform token attests.
    GlobalPlatformComponents = -261,
    /// A health certificate.
    Hcert = -260,
    /// A nonce of FIDO Device Onboard.
    EuphNonce = -259,
    /// The prefix of a restricted environment that several applications share, in FIDO Device
    /// Onboard.
    EatMaroePrefix = -258,
    /// The payload of an attestation token in FIDO Device Onboard.
    EatFido = -257,
    /// Never a claim; reserved.
    Reserved = 0,
    /// The issuer of the token (section 3.1.1).
    Iss = 1,
    /// The subject of the claims (section 3.1.2).
    Sub = 2,
    /// The audience that the token is meant for (section 3.1.3).
    Aud = 3,
    /// The time at which the token stops being valid (section 3.1.4).
    Exp = 4,
    /// The time at which the token starts being valid (section 3.1.5).
    Nbf = 5,
    /// The time at which the token was issued (section 3.1.6).
    Iat = 6,
    /// The identifier of the token (section 3.1.7).
    Cti = 7,
    /// The key that the presenter must prove to possess (RFC 8747, section 3.1).
    Cnf = 8,
    /// The scope that the token grants (RFC 8693, section 4.2).
    Scope = 9,
    /// A nonce, which shows that an attestation is fresh (RFC 9711).
    Nonce = 10,
    /// The ACE profile to use with the token (RFC 9200, section 5.10).
    AceProfile = 38,
    /// A nonce by which a server recognizes a fresh token (RFC 9200, section 5.10).
    CNonce = 39,
    /// The token's lifetime in seconds, counted from its first receipt (RFC 9200, section 5.10.3).
    Exi = 40,
    /// The identifier of the device, for its whole life.
    UEID = 256,
    /// Identifiers of the device that last for a part of its life.
    SUEIDs = 257,
    /// The maker of the hardware.
    HardwareOemid = 258,
    /// The model of the hardware.
    HardwareModel = 259,
    /// The version of the hardware.
    HardwareVersion = 260,
    /// Seconds since the device was booted.
    Uptime = 261,
    /// Whether the device booted only software that its maker authorized.
    OemAuthorizedBoot = 262,
    /// Whether debugging is possible.
    DebugStatus = 263,
    /// The location of the device.
    Location = 264,
    /// The profile that the attestation token follows.
    EatProfile = 265,
    /// The claims of the device's parts.
    SubmodulesSection = 266,
    /// The number of times that the device has booted.
    BootCount = 267,
    /// A value that is new at each boot of the device.
    BootSeed = 268,
    /// Digital letters of approval.
    DLoAs = 269,
    /// The name of the software.
    SoftwareName = 270,
    /// The version of the software.
    SoftwareVersion = 271,
    /// Descriptions of the software on the device, by the makers of the software.
    SoftwareManifests = 272,
    /// Measurements of the software on the device.
    Measurements = 273,
    /// The results of comparing the measurements with expected ones.
    SoftwareMeasurementResults = 274,
    /// The intended use of the attestation token.
    IntendedUse = 275,
    /// A place, as a geohash.
    Geohash = 282,
    /// The version of a watermark token.
    WmVersion = 300,
    /// The vendor of a watermark token.
    WmVendor = 301,
    /// The length of the pattern of a watermark token.
    WmPatternLen = 302,
    /// The duration of a segment of a watermark token.
    WmSegmentDuration = 303,
    /// The pattern of a watermark token.
    WmPattern = 304,
    /// The identifier of a watermark token.
    WmId = 305,
    /// The identifier of the operator of a watermark token.
    WmOpId = 306,
    /// The version of the key of a watermark token.
    WmKeyVer = 307,
    /// Whether a common access token may be used again.
    CatReplay = 308,
    /// The probability that a common access token is rejected.
    CatPor = 309,
    /// The version of a common access token.
    CatVersion = 310,
    /// The networks that may use a common access token.
    CatNetworkIp = 311,
    /// The URIs that a common access token gives access to.
    CatUri = 312,
    /// The HTTP methods that a common access token allows.
    CatMethod = 313,
    /// The ALPN protocols that a common access token allows.
    CatAlpn = 314,
    /// The HTTP headers that a common access token requires.
    CatHeader = 315,
    /// The countries in which a common access token is valid.
    CatGeoIso3166 = 316,
    /// The places in which a common access token is valid.
    CatGeoCoord = 317,
    /// The altitudes at which a common access token is valid.
    CatGeoAlt = 318,
    /// The public key of the TLS client of a common access token.
    CatTlsPublicKey = 319,
    /// The data on which the conditions of a common access token are tested.
    CatIfData = 320,
    /// The way in which DPoP proves possession for a common access token.
    CatDPoP = 321,
    /// The conditions of a common access token, each with its consequence.
    CatIf = 322,
    /// The way in which a common access token is renewed.
    CatRenewal = 323,
    /// The requester of a PSA token (RFC 9783).
    PsaClientId = 2394,
    /// The state of the device's life, in a PSA token (RFC 9783).
    PsaSecurityLifecycle = 2395,
    /// The identifier of the root of trust, in a PSA token (RFC 9783).
    PsaImplementationId = 2396,
    /// The reference to the device's PSA certification, in a PSA token (RFC 9783).
    PsaCertificationReference = 2398,
    /// The software that was booted, in a PSA token (RFC 9783).
    PsaSoftwareComponents = 2399,
    /// The service that verifies a PSA token (RFC 9783).
    PsaVerificationServiceIndicator = 2400,
}

/// The claim names, in ascending order of their numbers.
pub const CWT_CLAIM_NAMES: [CwtClaimName; 70] = [
    CwtClaimName::GlobalPlatformComponents,
    CwtClaimName::Hcert,
    CwtClaimName::EuphNonce,
    CwtClaimName::EatMaroePrefix,
    CwtClaimName::EatFido,
    CwtClaimName::Reserved,
    CwtClaimName::Iss,
    CwtClaimName::Sub,
    CwtClaimName::Aud,
    CwtClaimName::Exp,
    CwtClaimName::Nbf,
    CwtClaimName::Iat,
    CwtClaimName::Cti,
    CwtClaimName::Cnf,
    CwtClaimName::Scope,
    CwtClaimName::Nonce,
    CwtClaimName::AceProfile,
    CwtClaimName::CNonce,
    CwtClaimName::Exi,
    CwtClaimName::UEID,
    CwtClaimName::SUEIDs,
    CwtClaimName::HardwareOemid,
    CwtClaimName::HardwareModel,
    CwtClaimName::HardwareVersion,
    CwtClaimName::Uptime,
    CwtClaimName::OemAuthorizedBoot,
    CwtClaimName::DebugStatus,
    CwtClaimName::Location,
    CwtClaimName::EatProfile,
    CwtClaimName::SubmodulesSection,
    CwtClaimName::BootCount,
    CwtClaimName::BootSeed,
    CwtClaimName::DLoAs,
    CwtClaimName::SoftwareName,
    CwtClaimName::SoftwareVersion,
    CwtClaimName::SoftwareManifests,
    CwtClaimName::Measurements,
    CwtClaimName::SoftwareMeasurementResults,
    CwtClaimName::IntendedUse,
    CwtClaimName::Geohash,
    CwtClaimName::WmVersion,
    CwtClaimName::WmVendor,
    CwtClaimName::WmPatternLen,
    CwtClaimName::WmSegmentDuration,
    CwtClaimName::WmPattern,
    CwtClaimName::WmId,
    CwtClaimName::WmOpId,
    CwtClaimName::WmKeyVer,
    CwtClaimName::CatReplay,
    CwtClaimName::CatPor,
    CwtClaimName::CatVersion,
    CwtClaimName::CatNetworkIp,
    CwtClaimName::CatUri,
    CwtClaimName::CatMethod,
    CwtClaimName::CatAlpn,
    CwtClaimName::CatHeader,
    CwtClaimName::CatGeoIso3166,
    CwtClaimName::CatGeoCoord,
    CwtClaimName::CatGeoAlt,
    CwtClaimName::CatTlsPublicKey,
    CwtClaimName::CatIfData,
    CwtClaimName::CatDPoP,
    CwtClaimName::CatIf,
    CwtClaimName::CatRenewal,
    CwtClaimName::PsaClientId,
    CwtClaimName::PsaSecurityLifecycle,
    CwtClaimName::PsaImplementationId,
    CwtClaimName::PsaCertificationReference,
    CwtClaimName::PsaSoftwareComponents,
    CwtClaimName::PsaVerificationServiceIndicator,
];

impl Registry for CwtClaimName {
    ghost use Rattle.coset_iana.specs.CwtClaimName.{number};
    ghost use Rattle.coset_iana.specs.declared.claims.CwtClaimName.TheVariants.{GlobalPlatformComponents};
    ghost use Rattle.coset_iana.specs.declared.claims.TheConstants.{CWT_CLAIM_NAMES};

    ghost number = { number };

    ghost values = { CWT_CLAIM_NAMES };

    ghost ascending = { refl };

    ghost has_each = { elim [ GlobalPlatformComponents ↦ refl | _ ↦ refl ] };

    const NEGATIVES: i64 = 5;

    const LAST_NEGATIVE: i64 = -257;

    fn values() -> &'static [CwtClaimName] {
        &CWT_CLAIM_NAMES
    }

    fn number(self) -> i64 {
        self as i64
    }
}

impl Named for CwtClaimName {
    ghost use Rattle.coset_iana.specs.CwtClaimName.{name};

    ghost name = { name };

    fn name(&self) -> &'static str {
        match self {
            CwtClaimName::GlobalPlatformComponents => "GlobalPlatform Components",
            CwtClaimName::Hcert => "hcert",
            CwtClaimName::EuphNonce => "EUPHNonce",
            CwtClaimName::EatMaroePrefix => "EATMAROEPrefix",
            CwtClaimName::EatFido => "EAT-FDO",
            CwtClaimName::Reserved => "Reserved",
            CwtClaimName::Iss => "iss",
            CwtClaimName::Sub => "sub",
            CwtClaimName::Aud => "aud",
            CwtClaimName::Exp => "exp",
            CwtClaimName::Nbf => "nbf",
            CwtClaimName::Iat => "iat",
            CwtClaimName::Cti => "cti",
            CwtClaimName::Cnf => "cnf",
            CwtClaimName::Scope => "scope",
            CwtClaimName::Nonce => "nonce",
            CwtClaimName::AceProfile => "ace_profile",
            CwtClaimName::CNonce => "cnonce",
            CwtClaimName::Exi => "exi",
            CwtClaimName::UEID => "ueid",
            CwtClaimName::SUEIDs => "sueids",
            CwtClaimName::HardwareOemid => "oemid",
            CwtClaimName::HardwareModel => "hwmodel",
            CwtClaimName::HardwareVersion => "hwversion",
            CwtClaimName::Uptime => "uptime",
            CwtClaimName::OemAuthorizedBoot => "oemboot",
            CwtClaimName::DebugStatus => "dbgstat",
            CwtClaimName::Location => "location",
            CwtClaimName::EatProfile => "eat_profile",
            CwtClaimName::SubmodulesSection => "submods",
            CwtClaimName::BootCount => "bootcount",
            CwtClaimName::BootSeed => "bootseed",
            CwtClaimName::DLoAs => "dloas",
            CwtClaimName::SoftwareName => "swname",
            CwtClaimName::SoftwareVersion => "swversion",
            CwtClaimName::SoftwareManifests => "manifests",
            CwtClaimName::Measurements => "measurements",
            CwtClaimName::SoftwareMeasurementResults => "measres",
            CwtClaimName::IntendedUse => "intuse",
            CwtClaimName::Geohash => "geohash",
            CwtClaimName::WmVersion => "wmver",
            CwtClaimName::WmVendor => "wmvnd",
            CwtClaimName::WmPatternLen => "wmpatlen",
            CwtClaimName::WmSegmentDuration => "wmsegduration",
            CwtClaimName::WmPattern => "wmpat",
            CwtClaimName::WmId => "wmid",
            CwtClaimName::WmOpId => "wmopid",
            CwtClaimName::WmKeyVer => "wmkeyver",
            CwtClaimName::CatReplay => "catreplay",
            CwtClaimName::CatPor => "catpor",
            CwtClaimName::CatVersion => "catv",
            CwtClaimName::CatNetworkIp => "catnip",
            CwtClaimName::CatUri => "catu",
            CwtClaimName::CatMethod => "catm",
            CwtClaimName::CatAlpn => "catalpn",
            CwtClaimName::CatHeader => "cath",
            CwtClaimName::CatGeoIso3166 => "catgeoiso3166",
            CwtClaimName::CatGeoCoord => "catgeocoord",
            CwtClaimName::CatGeoAlt => "catgeoalt",
            CwtClaimName::CatTlsPublicKey => "cattpk",
            CwtClaimName::CatIfData => "catifdata",
            CwtClaimName::CatDPoP => "catdpop",
            CwtClaimName::CatIf => "catif",
            CwtClaimName::CatRenewal => "catr",
            CwtClaimName::PsaClientId => "psa-client-id",
            CwtClaimName::PsaSecurityLifecycle => "psa-security-lifecycle",
            CwtClaimName::PsaImplementationId => "psa-implementation-id",
            CwtClaimName::PsaCertificationReference => "psa-certification-reference",
            CwtClaimName::PsaSoftwareComponents => "psa-software-components",
            CwtClaimName::PsaVerificationServiceIndicator => "psa-verification-service-indicator",
        }
    }
}

impl fmt::Display for CwtClaimName {
    ghost use Rattle.coset_iana.specs.CwtClaimName.{name};

    ghost output = { λ x. Some (name x) };

    fn fmt<W: fmt::Write>(&self, f: &mut fmt::Formatter<W>) -> fmt::Result {
        f.pad(self.name())
    }
}

impl WithPrivateRange for CwtClaimName {
    ghost is_private = { is_private_use };

    fn is_private(i: i64) -> bool {
        i < CWT_CLAIM_PRIVATE_USE_MAX
    }
}
