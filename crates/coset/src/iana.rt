//! IANA's registries for COSE, CBOR web tokens, CBOR tags and CoAP content formats, as enums.
//!
//! Only the numbers of [`KeyOperation`] are from no registry, but from RFC 8152, section 7.1.

pub use coset_iana::{
    ALGORITHM_PRIVATE_USE_MAX, AkpKeyParameter, Algorithm, CWT_CLAIM_PRIVATE_USE_MAX, CborTag,
    CoapContentFormat, CwtClaimName, ELLIPTIC_CURVE_PRIVATE_USE_MAX, Ec2KeyParameter,
    EllipticCurve, EnumI64, HEADER_PARAMETER_PRIVATE_USE_MAX, HeaderAlgorithmParameter,
    HeaderParameter, HssLmsKeyParameter, KeyOperation, KeyParameter, KeyType, Named,
    OkpKeyParameter, RsaKeyParameter, SymmetricKeyParameter, WalnutDsaKeyParameter,
    WithPrivateRange,
};
