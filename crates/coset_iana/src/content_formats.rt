//! CoAP content formats.

ghost use Rattle.std.specs.Prelude.{Some, refl};

use crate::Named;
use crate::registry::Registry;
use std::fmt;

/// A content format, as IANA's registry "CoAP Content-Formats" assigns it (RFC 7252, section 12.3):
/// a media type, and a content coding if there is one.
#[derive(Clone, Copy, Debug, Eq, Ord, PartialEq, PartialOrd)]
pub enum CoapContentFormat {
    /// `text/plain; charset=utf-8`
    TextPlainUtf8 = 0,
    /// `application/cose; cose-type="cose-encrypt0"`
    CoseEncrypt0 = 16,
    /// `application/cose; cose-type="cose-mac0"`
    CoseMac0 = 17,
    /// `application/cose; cose-type="cose-sign1"`
    CoseSign1 = 18,
    /// `application/ace+cbor`
    AceCbor = 19,
    /// `image/gif`
    ImageGif = 21,
    /// `image/jpeg`
    ImageJpeg = 22,
    /// `image/png`
    ImagePng = 23,
    /// `application/link-format`
    LinkFormat = 40,
    /// `application/xml`
    Xml = 41,
    /// `application/octet-stream`
    OctetStream = 42,
    /// `application/exi`
    Exi = 47,
    /// `application/json`
    Json = 50,
    /// `application/json-patch+json`
    JsonPatchJson = 51,
    /// `application/merge-patch+json`
    MergePatchJson = 52,
    /// `application/cbor`
    Cbor = 60,
    /// `application/cwt`
    Cwt = 61,
    /// `application/multipart-core`
    MultipartCore = 62,
    /// `application/cbor-seq`
    CborSeq = 63,
    /// `application/edhoc+cbor-seq`
    EdhocCborSeq = 64,
    /// `application/cid-edhoc+cbor-seq`
    CidEdhocCborSeq = 65,
    /// `application/cose; cose-type="cose-encrypt"`
    CoseEncrypt = 96,
    /// `application/cose; cose-type="cose-mac"`
    CoseMac = 97,
    /// `application/cose; cose-type="cose-sign"`
    CoseSign = 98,
    /// `application/cose-key`
    CoseKey = 101,
    /// `application/cose-key-set`
    CoseKeySet = 102,
    /// `application/senml+json`
    SenmlJson = 110,
    /// `application/sensml+json`
    SensmlJson = 111,
    /// `application/senml+cbor`
    SenmlCbor = 112,
    /// `application/sensml+cbor`
    SensmlCbor = 113,
    /// `application/senml-exi`
    SenmlExi = 114,
    /// `application/sensml-exi`
    SensmlExi = 115,
    /// `application/yang-data+cbor; id=sid`
    YangData = 140,
    /// `application/coap-group+json`
    CoapGroupJson = 256,
    /// `application/concise-problem-details+cbor`
    ConciseProblemDetailsCbor = 257,
    /// `application/swid+cbor`
    SwidCbor = 258,
    /// `application/pkixcmp`
    PkixCmp = 259,
    /// `application/yang-sid+json`
    YangSidJson = 260,
    /// `application/ace-groupcomm+cbor`
    AceGroupcommCbor = 261,
    /// `application/ace-trl+cbor`
    AceTrlCbor = 262,
    /// `application/eat+cwt`
    EatCwt = 263,
    /// `application/eat+jwt`
    EatJwt = 264,
    /// `application/eat-bun+cbor`
    EatBunCbor = 265,
    /// `application/eat-bun+json`
    EatBunJson = 266,
    /// `application/eat-ucs+cbor`
    EatUcsCbor = 267,
    /// `application/eat-ucs+json`
    EatUcsJson = 268,
    /// `application/dots+cbor`
    DotsCbor = 271,
    /// `application/missing-blocks+cbor-seq`
    MissingBlocksCborSeq = 272,
    /// `application/pkcs7-mime; smime-type=server-generated-key`
    Pkcs7MimeSmimeTypeServerGeneratedKey = 280,
    /// `application/pkcs7-mime; smime-type=certs-only`
    Pkcs7MimeSmimeTypeCertsOnly = 281,
    /// `application/pkcs7-mime; smime-type=CMC-request`
    Pkcs7MimeSmimeTypeCmcRequest = 282,
    /// `application/pkcs7-mime; smime-type=CMC-response`
    Pkcs7MimeSmimeTypeCmcResponse = 283,
    /// `application/pkcs8`
    Pkcs8 = 284,
    /// `application/csrattrs`
    Csrattrs = 285,
    /// `application/pkcs10`
    Pkcs10 = 286,
    /// `application/pkix-cert`
    PkixCert = 287,
    /// `application/aif+cbor`
    AifCbor = 290,
    /// `application/aif+json`
    AifJson = 291,
    /// `application/senml+xml`
    SenmlXml = 310,
    /// `application/sensml+xml`
    SensmlXml = 311,
    /// `application/senml-etch+json`
    SenmlEtchJson = 320,
    /// `application/senml-etch+cbor`
    SenmlEtchCbor = 322,
    /// `application/yang-data+cbor`
    YangDataCbor = 340,
    /// `application/yang-data+cbor; id=name`
    YangDataCborName = 341,
    /// `application/td+json`
    TdJson = 432,
    /// `application/tm+json`
    TmJson = 433,
    /// `application/uccs+cbor`
    UccsCbor = 601,
    /// `application/vnd.ocf+cbor`
    VndOcfCbor = 10000,
    /// `application/oscore`
    Oscore = 10001,
    /// `application/javascript`
    Javascript = 10002,
    /// `application/eat+cwt; eat_profile="tag:psacertified.org,2023:psa#tfm"` (RFC 9783)
    EatCwtTfm = 10003,
    /// `application/eat+cwt; eat_profile="tag:psacertified.org,2019:psa#legacy"` (RFC 9783)
    EatCwtLegacy = 10004,
    /// `application/json`, compressed by deflate.
    JsonDeflate = 11050,
    /// `application/cbor`, compressed by deflate.
    CborDeflate = 11060,
    /// `application/vnd.oma.lwm2m+tlv`
    VndOmaLwm2mTlv = 11542,
    /// `application/vnd.oma.lwm2m+json`
    VndOmaLwm2mJson = 11543,
    /// `application/vnd.oma.lwm2m+cbor`
    VndOmaLwm2mCbor = 11544,
    /// `text/css`
    TextCss = 20000,
    /// `image/svg+xml`
    ImageSvgXml = 30000,
}

/// The content formats, in ascending order of their numbers.
pub const COAP_CONTENT_FORMATS: [CoapContentFormat; 79] = [
    CoapContentFormat::TextPlainUtf8,
    CoapContentFormat::CoseEncrypt0,
    CoapContentFormat::CoseMac0,
    CoapContentFormat::CoseSign1,
    CoapContentFormat::AceCbor,
    CoapContentFormat::ImageGif,
    CoapContentFormat::ImageJpeg,
    CoapContentFormat::ImagePng,
    CoapContentFormat::LinkFormat,
    CoapContentFormat::Xml,
    CoapContentFormat::OctetStream,
    CoapContentFormat::Exi,
    CoapContentFormat::Json,
    CoapContentFormat::JsonPatchJson,
    CoapContentFormat::MergePatchJson,
    CoapContentFormat::Cbor,
    CoapContentFormat::Cwt,
    CoapContentFormat::MultipartCore,
    CoapContentFormat::CborSeq,
    CoapContentFormat::EdhocCborSeq,
    CoapContentFormat::CidEdhocCborSeq,
    CoapContentFormat::CoseEncrypt,
    CoapContentFormat::CoseMac,
    CoapContentFormat::CoseSign,
    CoapContentFormat::CoseKey,
    CoapContentFormat::CoseKeySet,
    CoapContentFormat::SenmlJson,
    CoapContentFormat::SensmlJson,
    CoapContentFormat::SenmlCbor,
    CoapContentFormat::SensmlCbor,
    CoapContentFormat::SenmlExi,
    CoapContentFormat::SensmlExi,
    CoapContentFormat::YangData,
    CoapContentFormat::CoapGroupJson,
    CoapContentFormat::ConciseProblemDetailsCbor,
    CoapContentFormat::SwidCbor,
    CoapContentFormat::PkixCmp,
    CoapContentFormat::YangSidJson,
    CoapContentFormat::AceGroupcommCbor,
    CoapContentFormat::AceTrlCbor,
    CoapContentFormat::EatCwt,
    CoapContentFormat::EatJwt,
    CoapContentFormat::EatBunCbor,
    CoapContentFormat::EatBunJson,
    CoapContentFormat::EatUcsCbor,
    CoapContentFormat::EatUcsJson,
    CoapContentFormat::DotsCbor,
    CoapContentFormat::MissingBlocksCborSeq,
    CoapContentFormat::Pkcs7MimeSmimeTypeServerGeneratedKey,
    CoapContentFormat::Pkcs7MimeSmimeTypeCertsOnly,
    CoapContentFormat::Pkcs7MimeSmimeTypeCmcRequest,
    CoapContentFormat::Pkcs7MimeSmimeTypeCmcResponse,
    CoapContentFormat::Pkcs8,
    CoapContentFormat::Csrattrs,
    CoapContentFormat::Pkcs10,
    CoapContentFormat::PkixCert,
    CoapContentFormat::AifCbor,
    CoapContentFormat::AifJson,
    CoapContentFormat::SenmlXml,
    CoapContentFormat::SensmlXml,
    CoapContentFormat::SenmlEtchJson,
    CoapContentFormat::SenmlEtchCbor,
    CoapContentFormat::YangDataCbor,
    CoapContentFormat::YangDataCborName,
    CoapContentFormat::TdJson,
    CoapContentFormat::TmJson,
    CoapContentFormat::UccsCbor,
    CoapContentFormat::VndOcfCbor,
    CoapContentFormat::Oscore,
    CoapContentFormat::Javascript,
    CoapContentFormat::EatCwtTfm,
    CoapContentFormat::EatCwtLegacy,
    CoapContentFormat::JsonDeflate,
    CoapContentFormat::CborDeflate,
    CoapContentFormat::VndOmaLwm2mTlv,
    CoapContentFormat::VndOmaLwm2mJson,
    CoapContentFormat::VndOmaLwm2mCbor,
    CoapContentFormat::TextCss,
    CoapContentFormat::ImageSvgXml,
];

impl Registry for CoapContentFormat {
    ghost use Rattle.coset_iana.specs.CoapContentFormat.{number};
    ghost use Rattle.coset_iana.specs.declared.content_formats.CoapContentFormat.TheVariants.{TextPlainUtf8};
    ghost use Rattle.coset_iana.specs.declared.content_formats.TheConstants.{COAP_CONTENT_FORMATS};

    ghost number = { number };

    ghost values = { COAP_CONTENT_FORMATS };

    ghost ascending = { refl };

    ghost has_each = { elim [ TextPlainUtf8 ↦ refl | _ ↦ refl ] };

    fn values() -> &'static [CoapContentFormat] {
        &COAP_CONTENT_FORMATS
    }

    fn number(self) -> i64 {
        self as i64
    }
}

impl Named for CoapContentFormat {
    ghost use Rattle.coset_iana.specs.CoapContentFormat.{name};

    ghost name = { name };

    fn name(&self) -> &'static str {
        match self {
            CoapContentFormat::TextPlainUtf8 => "text/plain; charset=utf-8",
            CoapContentFormat::CoseEncrypt0 => "application/cose; cose-type=\"cose-encrypt0\"",
            CoapContentFormat::CoseMac0 => "application/cose; cose-type=\"cose-mac0\"",
            CoapContentFormat::CoseSign1 => "application/cose; cose-type=\"cose-sign1\"",
            CoapContentFormat::AceCbor => "application/ace+cbor",
            CoapContentFormat::ImageGif => "image/gif",
            CoapContentFormat::ImageJpeg => "image/jpeg",
            CoapContentFormat::ImagePng => "image/png",
            CoapContentFormat::LinkFormat => "application/link-format",
            CoapContentFormat::Xml => "application/xml",
            CoapContentFormat::OctetStream => "application/octet-stream",
            CoapContentFormat::Exi => "application/exi",
            CoapContentFormat::Json => "application/json",
            CoapContentFormat::JsonPatchJson => "application/json-patch+json",
            CoapContentFormat::MergePatchJson => "application/merge-patch+json",
            CoapContentFormat::Cbor => "application/cbor",
            CoapContentFormat::Cwt => "application/cwt",
            CoapContentFormat::MultipartCore => "application/multipart-core",
            CoapContentFormat::CborSeq => "application/cbor-seq",
            CoapContentFormat::EdhocCborSeq => "application/edhoc+cbor-seq",
            CoapContentFormat::CidEdhocCborSeq => "application/cid-edhoc+cbor-seq",
            CoapContentFormat::CoseEncrypt => "application/cose; cose-type=\"cose-encrypt\"",
            CoapContentFormat::CoseMac => "application/cose; cose-type=\"cose-mac\"",
            CoapContentFormat::CoseSign => "application/cose; cose-type=\"cose-sign\"",
            CoapContentFormat::CoseKey => "application/cose-key",
            CoapContentFormat::CoseKeySet => "application/cose-key-set",
            CoapContentFormat::SenmlJson => "application/senml+json",
            CoapContentFormat::SensmlJson => "application/sensml+json",
            CoapContentFormat::SenmlCbor => "application/senml+cbor",
            CoapContentFormat::SensmlCbor => "application/sensml+cbor",
            CoapContentFormat::SenmlExi => "application/senml-exi",
            CoapContentFormat::SensmlExi => "application/sensml-exi",
            CoapContentFormat::YangData => "application/yang-data+cbor; id=sid",
            CoapContentFormat::CoapGroupJson => "application/coap-group+json",
            CoapContentFormat::ConciseProblemDetailsCbor =>
                "application/concise-problem-details+cbor",
            CoapContentFormat::SwidCbor => "application/swid+cbor",
            CoapContentFormat::PkixCmp => "application/pkixcmp",
            CoapContentFormat::YangSidJson => "application/yang-sid+json",
            CoapContentFormat::AceGroupcommCbor => "application/ace-groupcomm+cbor",
            CoapContentFormat::AceTrlCbor => "application/ace-trl+cbor",
            CoapContentFormat::EatCwt => "application/eat+cwt",
            CoapContentFormat::EatJwt => "application/eat+jwt",
            CoapContentFormat::EatBunCbor => "application/eat-bun+cbor",
            CoapContentFormat::EatBunJson => "application/eat-bun+json",
            CoapContentFormat::EatUcsCbor => "application/eat-ucs+cbor",
            CoapContentFormat::EatUcsJson => "application/eat-ucs+json",
            CoapContentFormat::DotsCbor => "application/dots+cbor",
            CoapContentFormat::MissingBlocksCborSeq => "application/missing-blocks+cbor-seq",
            CoapContentFormat::Pkcs7MimeSmimeTypeServerGeneratedKey =>
                "application/pkcs7-mime; smime-type=server-generated-key",
            CoapContentFormat::Pkcs7MimeSmimeTypeCertsOnly =>
                "application/pkcs7-mime; smime-type=certs-only",
            CoapContentFormat::Pkcs7MimeSmimeTypeCmcRequest =>
                "application/pkcs7-mime; smime-type=CMC-request",
            CoapContentFormat::Pkcs7MimeSmimeTypeCmcResponse =>
                "application/pkcs7-mime; smime-type=CMC-response",
            CoapContentFormat::Pkcs8 => "application/pkcs8",
            CoapContentFormat::Csrattrs => "application/csrattrs",
            CoapContentFormat::Pkcs10 => "application/pkcs10",
            CoapContentFormat::PkixCert => "application/pkix-cert",
            CoapContentFormat::AifCbor => "application/aif+cbor",
            CoapContentFormat::AifJson => "application/aif+json",
            CoapContentFormat::SenmlXml => "application/senml+xml",
            CoapContentFormat::SensmlXml => "application/sensml+xml",
            CoapContentFormat::SenmlEtchJson => "application/senml-etch+json",
            CoapContentFormat::SenmlEtchCbor => "application/senml-etch+cbor",
            CoapContentFormat::YangDataCbor => "application/yang-data+cbor",
            CoapContentFormat::YangDataCborName => "application/yang-data+cbor; id=name",
            CoapContentFormat::TdJson => "application/td+json",
            CoapContentFormat::TmJson => "application/tm+json",
            CoapContentFormat::UccsCbor => "application/uccs+cbor",
            CoapContentFormat::VndOcfCbor => "application/vnd.ocf+cbor",
            CoapContentFormat::Oscore => "application/oscore",
            CoapContentFormat::Javascript => "application/javascript",
            CoapContentFormat::EatCwtTfm =>
                "application/eat+cwt; eat_profile=\"tag:psacertified.org,2023:psa#tfm\"",
            CoapContentFormat::EatCwtLegacy =>
                "application/eat+cwt; eat_profile=\"tag:psacertified.org,2019:psa#legacy\"",
            CoapContentFormat::JsonDeflate => "application/json (deflate)",
            CoapContentFormat::CborDeflate => "application/cbor (deflate)",
            CoapContentFormat::VndOmaLwm2mTlv => "application/vnd.oma.lwm2m+tlv",
            CoapContentFormat::VndOmaLwm2mJson => "application/vnd.oma.lwm2m+json",
            CoapContentFormat::VndOmaLwm2mCbor => "application/vnd.oma.lwm2m+cbor",
            CoapContentFormat::TextCss => "text/css",
            CoapContentFormat::ImageSvgXml => "image/svg+xml",
        }
    }
}

impl fmt::Display for CoapContentFormat {
    ghost use Rattle.coset_iana.specs.CoapContentFormat.{name};

    ghost output = { λ x. Some (name x) };

    fn fmt<W: fmt::Write>(&self, f: &mut fmt::Formatter<W>) -> fmt::Result {
        f.pad(self.name())
    }
}
