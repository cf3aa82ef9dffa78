//! Labels of keys that depend on the key type. One number means different things for different key
//! types.

ghost use Rattle.std.specs.Prelude.{Some, refl};

use crate::Named;
use crate::registry::Registry;
use std::fmt;

/// A label of an octet key pair, as IANA's registry "COSE Key Type Parameters" assigns it to key
/// type 1 (RFC 8152, sections 13.2 and 16.6).
#[derive(Clone, Copy, Debug, Eq, Ord, PartialEq, PartialOrd)]
pub enum OkpKeyParameter {
    /// The curve: int or tstr.
    Crv = -1,
    /// The public key: bstr.
    X = -2,
    /// The private key: bstr.
    D = -4,
}

/// The labels of octet key pairs, in ascending order of their numbers.
pub const OKP_KEY_PARAMETERS: [OkpKeyParameter; 3] = [
    OkpKeyParameter::D,
    OkpKeyParameter::X,
    OkpKeyParameter::Crv,
];

impl Registry for OkpKeyParameter {
    ghost use Rattle.coset_iana.specs.OkpKeyParameter.{number};
    ghost use Rattle.coset_iana.specs.declared.key_parameters.OkpKeyParameter.TheVariants.{Crv};
    ghost use Rattle.coset_iana.specs.declared.key_parameters.TheConstants.{OKP_KEY_PARAMETERS};

    ghost number = { number };

    ghost values = { OKP_KEY_PARAMETERS };

    ghost ascending = { refl };

    ghost has_each = { elim [ Crv ↦ refl | _ ↦ refl ] };

    const NEGATIVES: i64 = 3;

    fn values() -> &'static [OkpKeyParameter] {
        &OKP_KEY_PARAMETERS
    }

    fn number(self) -> i64 {
        self as i64
    }
}

impl Named for OkpKeyParameter {
    ghost use Rattle.coset_iana.specs.OkpKeyParameter.{name};

    ghost name = { name };

    fn name(&self) -> &'static str {
        match self {
            OkpKeyParameter::Crv => "crv",
            OkpKeyParameter::X => "x",
            OkpKeyParameter::D => "d",
        }
    }
}

impl fmt::Display for OkpKeyParameter {
    ghost use Rattle.coset_iana.specs.OkpKeyParameter.{name};

    ghost output = { λ x. Some (name x) };

    fn fmt<W: fmt::Write>(&self, f: &mut fmt::Formatter<W>) -> fmt::Result {
        f.pad(self.name())
    }
}

/// A label of an elliptic curve key with two coordinates, as IANA's registry "COSE Key Type
/// Parameters" assigns it to key type 2 (RFC 8152, sections 13.1.1 and 16.6).
#[derive(Clone, Copy, Debug, Eq, Ord, PartialEq, PartialOrd)]
pub enum Ec2KeyParameter {
    /// The curve: int or tstr.
    Crv = -1,
    /// The x coordinate: bstr.
    X = -2,
    /// The y coordinate: bstr, or only its sign: bool.
    Y = -3,
    /// The private key: bstr.
    D = -4,
}

/// The labels of keys with two coordinates, in ascending order of their numbers.
pub const EC2_KEY_PARAMETERS: [Ec2KeyParameter; 4] = [
    Ec2KeyParameter::D,
    Ec2KeyParameter::Y,
    Ec2KeyParameter::X,
    Ec2KeyParameter::Crv,
];

impl Registry for Ec2KeyParameter {
    ghost use Rattle.coset_iana.specs.Ec2KeyParameter.{number};
    ghost use Rattle.coset_iana.specs.declared.key_parameters.Ec2KeyParameter.TheVariants.{Crv};
    ghost use Rattle.coset_iana.specs.declared.key_parameters.TheConstants.{EC2_KEY_PARAMETERS};

    ghost number = { number };

    ghost values = { EC2_KEY_PARAMETERS };

    ghost ascending = { refl };

    ghost has_each = { elim [ Crv ↦ refl | _ ↦ refl ] };

    const NEGATIVES: i64 = 4;

    fn values() -> &'static [Ec2KeyParameter] {
        &EC2_KEY_PARAMETERS
    }

    fn number(self) -> i64 {
        self as i64
    }
}

impl Named for Ec2KeyParameter {
    ghost use Rattle.coset_iana.specs.Ec2KeyParameter.{name};

    ghost name = { name };

    fn name(&self) -> &'static str {
        match self {
            Ec2KeyParameter::Crv => "crv",
            Ec2KeyParameter::X => "x",
            Ec2KeyParameter::Y => "y",
            Ec2KeyParameter::D => "d",
        }
    }
}

impl fmt::Display for Ec2KeyParameter {
    ghost use Rattle.coset_iana.specs.Ec2KeyParameter.{name};

    ghost output = { λ x. Some (name x) };

    fn fmt<W: fmt::Write>(&self, f: &mut fmt::Formatter<W>) -> fmt::Result {
        f.pad(self.name())
    }
}

/// A label of an RSA key, as IANA's registry "COSE Key Type Parameters" assigns it to key type 3
/// (RFC 8230, section 4). All but `Other` are bstr.
#[derive(Clone, Copy, Debug, Eq, Ord, PartialEq, PartialOrd)]
pub enum RsaKeyParameter {
    /// The modulus.
    N = -1,
    /// The public exponent.
    E = -2,
    /// The private exponent.
    D = -3,
    /// The prime factor p of the modulus.
    P = -4,
    /// The prime factor q of the modulus.
    Q = -5,
    /// d modulo p - 1.
    DP = -6,
    /// d modulo q - 1.
    DQ = -7,
    /// The inverse of q modulo p.
    QInv = -8,
    /// The further prime factors: an array of maps.
    Other = -9,
    /// A further prime factor, in a map of `Other`.
    RI = -10,
    /// d modulo (the further prime factor minus 1), in a map of `Other`.
    DI = -11,
    /// The inverse of the product of all earlier prime factors, in a map of `Other`.
    TI = -12,
}

/// The labels of RSA keys, in ascending order of their numbers.
pub const RSA_KEY_PARAMETERS: [RsaKeyParameter; 12] = [
    RsaKeyParameter::TI,
    RsaKeyParameter::DI,
    RsaKeyParameter::RI,
    RsaKeyParameter::Other,
    RsaKeyParameter::QInv,
    RsaKeyParameter::DQ,
    RsaKeyParameter::DP,
    RsaKeyParameter::Q,
    RsaKeyParameter::P,
    RsaKeyParameter::D,
    RsaKeyParameter::E,
    RsaKeyParameter::N,
];

impl Registry for RsaKeyParameter {
    ghost use Rattle.coset_iana.specs.RsaKeyParameter.{number};
    ghost use Rattle.coset_iana.specs.declared.key_parameters.RsaKeyParameter.TheVariants.{N};
    ghost use Rattle.coset_iana.specs.declared.key_parameters.TheConstants.{RSA_KEY_PARAMETERS};

    ghost number = { number };

    ghost values = { RSA_KEY_PARAMETERS };

    ghost ascending = { refl };

    ghost has_each = { elim [ N ↦ refl | _ ↦ refl ] };

    const NEGATIVES: i64 = 12;

    fn values() -> &'static [RsaKeyParameter] {
        &RSA_KEY_PARAMETERS
    }

    fn number(self) -> i64 {
        self as i64
    }
}

impl Named for RsaKeyParameter {
    ghost use Rattle.coset_iana.specs.RsaKeyParameter.{name};

    ghost name = { name };

    fn name(&self) -> &'static str {
        match self {
            RsaKeyParameter::N => "n",
            RsaKeyParameter::E => "e",
            RsaKeyParameter::D => "d",
            RsaKeyParameter::P => "p",
            RsaKeyParameter::Q => "q",
            RsaKeyParameter::DP => "dP",
            RsaKeyParameter::DQ => "dQ",
            RsaKeyParameter::QInv => "qInv",
            RsaKeyParameter::Other => "other",
            RsaKeyParameter::RI => "r_i",
            RsaKeyParameter::DI => "d_i",
            RsaKeyParameter::TI => "t_i",
        }
    }
}

impl fmt::Display for RsaKeyParameter {
    ghost use Rattle.coset_iana.specs.RsaKeyParameter.{name};

    ghost output = { λ x. Some (name x) };

    fn fmt<W: fmt::Write>(&self, f: &mut fmt::Formatter<W>) -> fmt::Result {
        f.pad(self.name())
    }
}

/// A label of a symmetric key, as IANA's registry "COSE Key Type Parameters" assigns it to key type
/// 4 (RFC 8152, sections 13.3 and 16.6).
#[derive(Clone, Copy, Debug, Eq, Ord, PartialEq, PartialOrd)]
pub enum SymmetricKeyParameter {
    /// The key: bstr.
    K = -1,
}

/// The label of symmetric keys.
pub const SYMMETRIC_KEY_PARAMETERS: [SymmetricKeyParameter; 1] = [SymmetricKeyParameter::K];

impl Registry for SymmetricKeyParameter {
    ghost use Rattle.coset_iana.specs.SymmetricKeyParameter.{number};
    ghost use Rattle.coset_iana.specs.declared.key_parameters.SymmetricKeyParameter.TheVariants.{K};
    ghost use Rattle.coset_iana.specs.declared.key_parameters.TheConstants.{SYMMETRIC_KEY_PARAMETERS};

    ghost number = { number };

    ghost values = { SYMMETRIC_KEY_PARAMETERS };

    ghost ascending = { refl };

    ghost has_each = { elim [ K ↦ refl ] };

    const NEGATIVES: i64 = 1;

    fn values() -> &'static [SymmetricKeyParameter] {
        &SYMMETRIC_KEY_PARAMETERS
    }

    fn number(self) -> i64 {
        self as i64
    }
}

impl Named for SymmetricKeyParameter {
    ghost use Rattle.coset_iana.specs.SymmetricKeyParameter.{name};

    ghost name = { name };

    fn name(&self) -> &'static str {
        match self {
            SymmetricKeyParameter::K => "k",
        }
    }
}

impl fmt::Display for SymmetricKeyParameter {
    ghost use Rattle.coset_iana.specs.SymmetricKeyParameter.{name};

    ghost output = { λ x. Some (name x) };

    fn fmt<W: fmt::Write>(&self, f: &mut fmt::Formatter<W>) -> fmt::Result {
        f.pad(self.name())
    }
}

/// A label of an HSS/LMS key, as IANA's registry "COSE Key Type Parameters" assigns it to key type
/// 5 (RFC 8778).
#[derive(Clone, Copy, Debug, Eq, Ord, PartialEq, PartialOrd)]
pub enum HssLmsKeyParameter {
    /// The public key: bstr.
    Pub = -1,
}

/// The label of HSS/LMS keys.
pub const HSS_LMS_KEY_PARAMETERS: [HssLmsKeyParameter; 1] = [HssLmsKeyParameter::Pub];

impl Registry for HssLmsKeyParameter {
    ghost use Rattle.coset_iana.specs.HssLmsKeyParameter.{number};
    ghost use Rattle.coset_iana.specs.declared.key_parameters.HssLmsKeyParameter.TheVariants.{Pub};
    ghost use Rattle.coset_iana.specs.declared.key_parameters.TheConstants.{HSS_LMS_KEY_PARAMETERS};

    ghost number = { number };

    ghost values = { HSS_LMS_KEY_PARAMETERS };

    ghost ascending = { refl };

    ghost has_each = { elim [ Pub ↦ refl ] };

    const NEGATIVES: i64 = 1;

    fn values() -> &'static [HssLmsKeyParameter] {
        &HSS_LMS_KEY_PARAMETERS
    }

    fn number(self) -> i64 {
        self as i64
    }
}

impl Named for HssLmsKeyParameter {
    ghost use Rattle.coset_iana.specs.HssLmsKeyParameter.{name};

    ghost name = { name };

    fn name(&self) -> &'static str {
        match self {
            HssLmsKeyParameter::Pub => "pub",
        }
    }
}

impl fmt::Display for HssLmsKeyParameter {
    ghost use Rattle.coset_iana.specs.HssLmsKeyParameter.{name};

    ghost output = { λ x. Some (name x) };

    fn fmt<W: fmt::Write>(&self, f: &mut fmt::Formatter<W>) -> fmt::Result {
        f.pad(self.name())
    }
}

/// A label of a WalnutDSA key, as IANA's registry "COSE Key Type Parameters" assigns it to key type
/// 6 (RFC 9021).
#[derive(Clone, Copy, Debug, Eq, Ord, PartialEq, PartialOrd)]
pub enum WalnutDsaKeyParameter {
    /// The size of the braid group.
    N = -1,
    /// The size of the finite field.
    Q = -2,
    /// The T-values, elements of the field: a list.
    TValues = -3,
    /// The first matrix of the public key.
    Matrix1 = -4,
    /// The permutation that belongs to the first matrix.
    Permutation1 = -5,
    /// The second matrix of the public key.
    Matrix2 = -6,
}

/// The labels of WalnutDSA keys, in ascending order of their numbers.
pub const WALNUT_DSA_KEY_PARAMETERS: [WalnutDsaKeyParameter; 6] = [
    WalnutDsaKeyParameter::Matrix2,
    WalnutDsaKeyParameter::Permutation1,
    WalnutDsaKeyParameter::Matrix1,
    WalnutDsaKeyParameter::TValues,
    WalnutDsaKeyParameter::Q,
    WalnutDsaKeyParameter::N,
];

impl Registry for WalnutDsaKeyParameter {
    ghost use Rattle.coset_iana.specs.WalnutDsaKeyParameter.{number};
    ghost use Rattle.coset_iana.specs.declared.key_parameters.WalnutDsaKeyParameter.TheVariants.{N};
    ghost use Rattle.coset_iana.specs.declared.key_parameters.TheConstants.{WALNUT_DSA_KEY_PARAMETERS};

    ghost number = { number };

    ghost values = { WALNUT_DSA_KEY_PARAMETERS };

    ghost ascending = { refl };

    ghost has_each = { elim [ N ↦ refl | _ ↦ refl ] };

    const NEGATIVES: i64 = 6;

    fn values() -> &'static [WalnutDsaKeyParameter] {
        &WALNUT_DSA_KEY_PARAMETERS
    }

    fn number(self) -> i64 {
        self as i64
    }
}

impl Named for WalnutDsaKeyParameter {
    ghost use Rattle.coset_iana.specs.WalnutDsaKeyParameter.{name};

    ghost name = { name };

    fn name(&self) -> &'static str {
        match self {
            WalnutDsaKeyParameter::N => "N",
            WalnutDsaKeyParameter::Q => "q",
            WalnutDsaKeyParameter::TValues => "t-values",
            WalnutDsaKeyParameter::Matrix1 => "matrix 1",
            WalnutDsaKeyParameter::Permutation1 => "permutation 1",
            WalnutDsaKeyParameter::Matrix2 => "matrix 2",
        }
    }
}

impl fmt::Display for WalnutDsaKeyParameter {
    ghost use Rattle.coset_iana.specs.WalnutDsaKeyParameter.{name};

    ghost output = { λ x. Some (name x) };

    fn fmt<W: fmt::Write>(&self, f: &mut fmt::Formatter<W>) -> fmt::Result {
        f.pad(self.name())
    }
}

/// A label of an algorithm key pair, as IANA's registry "COSE Key Type Parameters" assigns it to
/// key type 7.
#[derive(Clone, Copy, Debug, Eq, Ord, PartialEq, PartialOrd)]
pub enum AkpKeyParameter {
    /// The public key: bstr.
    Pub = -1,
    /// The private key: bstr.
    Priv = -2,
}

/// The labels of algorithm key pairs, in ascending order of their numbers.
pub const AKP_KEY_PARAMETERS: [AkpKeyParameter; 2] = [AkpKeyParameter::Priv, AkpKeyParameter::Pub];

impl Registry for AkpKeyParameter {
    ghost use Rattle.coset_iana.specs.AkpKeyParameter.{number};
    ghost use Rattle.coset_iana.specs.declared.key_parameters.AkpKeyParameter.TheVariants.{Pub};
    ghost use Rattle.coset_iana.specs.declared.key_parameters.TheConstants.{AKP_KEY_PARAMETERS};

    ghost number = { number };

    ghost values = { AKP_KEY_PARAMETERS };

    ghost ascending = { refl };

    ghost has_each = { elim [ Pub ↦ refl | _ ↦ refl ] };

    const NEGATIVES: i64 = 2;

    fn values() -> &'static [AkpKeyParameter] {
        &AKP_KEY_PARAMETERS
    }

    fn number(self) -> i64 {
        self as i64
    }
}

impl Named for AkpKeyParameter {
    ghost use Rattle.coset_iana.specs.AkpKeyParameter.{name};

    ghost name = { name };

    fn name(&self) -> &'static str {
        match self {
            AkpKeyParameter::Pub => "pub",
            AkpKeyParameter::Priv => "priv",
        }
    }
}

impl fmt::Display for AkpKeyParameter {
    ghost use Rattle.coset_iana.specs.AkpKeyParameter.{name};

    ghost output = { λ x. Some (name x) };

    fn fmt<W: fmt::Write>(&self, f: &mut fmt::Formatter<W>) -> fmt::Result {
        f.pad(self.name())
    }
}
