//! The variants of ML-DSA (FIPS 204).

ghost use Rattle.std.specs.Prelude.{◌≡◌};
ghost use Rattle.coset_key.specs.MlDsa.{IsVariant, algorithm_of};

use coset_label::{CoseError, Result, iana};

/// A variant of ML-DSA (FIPS 204).
#[derive(Clone, Copy, Debug, PartialEq, Eq, Hash)]
pub enum MlDsaVariant {
    /// ML-DSA-44.
    MlDsa44,
    /// ML-DSA-65.
    MlDsa65,
    /// ML-DSA-87.
    MlDsa87,
}

impl From<MlDsaVariant> for iana::Algorithm {
    ghost from_gives = { λ variant algorithm. algorithm ≡ algorithm_of variant };

    fn from(variant: MlDsaVariant) -> iana::Algorithm {
        match variant {
            MlDsaVariant::MlDsa44 => iana::Algorithm::ML_DSA_44,
            MlDsaVariant::MlDsa65 => iana::Algorithm::ML_DSA_65,
            MlDsaVariant::MlDsa87 => iana::Algorithm::ML_DSA_87,
        }
    }
}

/// Converts an algorithm into its variant; other algorithms are refused with
/// `OutOfRangeIntegerValue`.
impl TryFrom<iana::Algorithm> for MlDsaVariant {
    type Error = CoseError;

    ghost try_from_gives = { IsVariant };

    fn try_from(algorithm: iana::Algorithm) -> Result<MlDsaVariant> {
        match algorithm {
            iana::Algorithm::ML_DSA_44 => Ok(MlDsaVariant::MlDsa44),
            iana::Algorithm::ML_DSA_65 => Ok(MlDsaVariant::MlDsa65),
            iana::Algorithm::ML_DSA_87 => Ok(MlDsaVariant::MlDsa87),
            _ => Err(CoseError::OutOfRangeIntegerValue),
        }
    }
}
