//! Laws of the registries. Each law is the contract of an empty function.

ghost use Rattle.coset_iana.specs.EnumI64.{IsInverse};
ghost use Rattle.coset_iana.specs.Registry.{IsOrderOf};

use crate::{
    AkpKeyParameter, Algorithm, CborTag, CoapContentFormat, CwtClaimName, Ec2KeyParameter,
    EllipticCurve, EnumI64, HeaderAlgorithmParameter, HeaderParameter, HssLmsKeyParameter,
    KeyOperation, KeyParameter, KeyType, OkpKeyParameter, RsaKeyParameter, SymmetricKeyParameter,
    WalnutDsaKeyParameter,
};

/// For every enum with numbers, including a caller's own, `from_i64(i)` is `Some(e)` exactly if
/// `e.to_i64()` is `i`.
pub fn numbers_are_inverse<T: EnumI64>()
    ensures { IsInverse T.number T.value_of }
{}

/// The values of each registry are ordered by their numbers.
pub fn orders_are_by_number()
    ensures header_parameter { IsOrderOf ⟦<HeaderParameter as EnumI64>⟧.number
        ⟦<HeaderParameter as Ord>⟧.cmp }
    ensures header_algorithm_parameter { IsOrderOf ⟦<HeaderAlgorithmParameter as EnumI64>⟧.number
        ⟦<HeaderAlgorithmParameter as Ord>⟧.cmp }
    ensures algorithm { IsOrderOf ⟦<Algorithm as EnumI64>⟧.number ⟦<Algorithm as Ord>⟧.cmp }
    ensures key_parameter { IsOrderOf ⟦<KeyParameter as EnumI64>⟧.number
        ⟦<KeyParameter as Ord>⟧.cmp }
    ensures key_type { IsOrderOf ⟦<KeyType as EnumI64>⟧.number ⟦<KeyType as Ord>⟧.cmp }
    ensures elliptic_curve { IsOrderOf ⟦<EllipticCurve as EnumI64>⟧.number
        ⟦<EllipticCurve as Ord>⟧.cmp }
    ensures key_operation { IsOrderOf ⟦<KeyOperation as EnumI64>⟧.number
        ⟦<KeyOperation as Ord>⟧.cmp }
    ensures okp_key_parameter { IsOrderOf ⟦<OkpKeyParameter as EnumI64>⟧.number
        ⟦<OkpKeyParameter as Ord>⟧.cmp }
    ensures ec2_key_parameter { IsOrderOf ⟦<Ec2KeyParameter as EnumI64>⟧.number
        ⟦<Ec2KeyParameter as Ord>⟧.cmp }
    ensures rsa_key_parameter { IsOrderOf ⟦<RsaKeyParameter as EnumI64>⟧.number
        ⟦<RsaKeyParameter as Ord>⟧.cmp }
    ensures symmetric_key_parameter { IsOrderOf ⟦<SymmetricKeyParameter as EnumI64>⟧.number
        ⟦<SymmetricKeyParameter as Ord>⟧.cmp }
    ensures hss_lms_key_parameter { IsOrderOf ⟦<HssLmsKeyParameter as EnumI64>⟧.number
        ⟦<HssLmsKeyParameter as Ord>⟧.cmp }
    ensures walnut_dsa_key_parameter { IsOrderOf ⟦<WalnutDsaKeyParameter as EnumI64>⟧.number
        ⟦<WalnutDsaKeyParameter as Ord>⟧.cmp }
    ensures akp_key_parameter { IsOrderOf ⟦<AkpKeyParameter as EnumI64>⟧.number
        ⟦<AkpKeyParameter as Ord>⟧.cmp }
    ensures cbor_tag { IsOrderOf ⟦<CborTag as EnumI64>⟧.number ⟦<CborTag as Ord>⟧.cmp }
    ensures coap_content_format { IsOrderOf ⟦<CoapContentFormat as EnumI64>⟧.number
        ⟦<CoapContentFormat as Ord>⟧.cmp }
    ensures cwt_claim_name { IsOrderOf ⟦<CwtClaimName as EnumI64>⟧.number
        ⟦<CwtClaimName as Ord>⟧.cmp }
{}
