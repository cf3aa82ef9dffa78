//! The members that a key must have or must not have, by its type (RFC 9052, section 7; RFC 9053,
//! section 7).

ghost use Rattle.std.specs.Prelude.{◌≡◌};
ghost use Rattle.coset.specs.Keys.{key_view};
ghost use Rattle.coset.specs.View.{value_item};
ghost use Rattle.cwt_confirm.specs.KeyMembers.{has_algorithm, has_member, has_members, has_private, has_required, is_complete, is_of_kind, is_private, is_symmetric, private, required, type_of};

use coset::cbor::value::Value;
use coset::iana::KeyType;
use coset::{CoseKey, Label, RegisteredLabel};

/// The values of a member.
#[derive(Clone, Copy, Debug)]
enum Kind {
    /// A number or a text, such as the name of a curve.
    Name,
    /// A byte string.
    Bytes,
    /// A byte string, or the sign of a compressed coordinate.
    Coordinate,
    /// An integer that is not negative.
    Unsigned,
    /// An array.
    Array,
}

/// Returns true if the value is of this kind.
fn is_of_kind(value: &Value, kind: Kind) -> bool
    ensures { result ≡ is_of_kind kind (value_item value.now) }
{
    match kind {
        Kind::Name => value.as_integer().is_some() || value.as_text().is_some(),
        Kind::Bytes => value.as_bytes().is_some(),
        Kind::Coordinate => value.as_bytes().is_some() || value.as_bool().is_some(),
        Kind::Unsigned => match value.as_integer() {
            Some(number) => u64::try_from(number).is_ok(),
            None => false,
        },
        Kind::Array => value.as_array().is_some(),
    }
}

/// Returns true if the key has a member of this kind with this label.
fn has_member(key: &CoseKey, label: i64, kind: Kind) -> bool
    ensures { result ≡ has_member label kind (key_view key.now) }
{
    match key.get(&Label::Int(label)) {
        Some(value) => is_of_kind(value, kind),
        None => false,
    }
}

/// Returns the labels of the members that a public or symmetric key of this type must have.
fn required(kty: KeyType) -> &'static [(i64, Kind)]
    ensures { result.now ≡ required kty }
{
    match kty {
        KeyType::OKP => &[(-1, Kind::Name), (-2, Kind::Bytes)],
        KeyType::EC2 => &[(-1, Kind::Name), (-2, Kind::Bytes), (-3, Kind::Coordinate)],
        KeyType::RSA => &[(-1, Kind::Bytes), (-2, Kind::Bytes)],
        KeyType::Symmetric => &[(-1, Kind::Bytes)],
        KeyType::HSS_LMS => &[(-1, Kind::Bytes)],
        KeyType::WalnutDSA => &[
            (-1, Kind::Unsigned),
            (-2, Kind::Unsigned),
            (-3, Kind::Array),
            (-4, Kind::Array),
            (-5, Kind::Array),
            (-6, Kind::Array),
        ],
        KeyType::AKP => &[(-1, Kind::Bytes)],
        KeyType::Reserved => &[],
    }
}

/// Returns the labels of the private members of a key of this type.
fn private(kty: KeyType) -> &'static [i64]
    ensures { result.now ≡ private kty }
{
    match kty {
        KeyType::OKP => &[-4],
        KeyType::EC2 => &[-4],
        KeyType::RSA => &[-3, -4, -5, -6, -7, -8, -9, -10, -11, -12],
        KeyType::AKP => &[-2],
        _ => &[],
    }
}

/// Returns true if the key is symmetric.
pub(crate) fn is_symmetric(key: &CoseKey) -> bool
    ensures { result ≡ is_symmetric (key_view key.now) }
{
    key.kty == RegisteredLabel::Assigned(KeyType::Symmetric)
}

/// Returns the type of the key, if IANA assigned its number.
fn type_of(key: &CoseKey) -> Option<KeyType>
    ensures { result ≡ type_of (key_view key.now) }
{
    match &key.kty {
        RegisteredLabel::Assigned(kty) => Some(*kty),
        RegisteredLabel::Text(_) => None,
    }
}

/// Returns true if the key names its algorithm, or has a type that doesn't require it.
fn has_algorithm(key: &CoseKey, kty: KeyType) -> bool
    ensures { result ≡ has_algorithm kty (key_view key.now) }
{
    match kty {
        KeyType::AKP => key.alg.is_some(),
        _ => true,
    }
}

/// Returns true if the key has each of the members that this type requires.
fn has_members(key: &CoseKey, kty: KeyType) -> bool
    ensures { result ≡ has_members kty (key_view key.now) }
{
    required(kty)
        .iter()
        .all(|(label, kind)| has_member(key, *label, *kind))
}

/// Returns true if the key has what this type requires.
fn has_required(key: &CoseKey, kty: KeyType) -> bool
    ensures { result ≡ has_required kty (key_view key.now) }
{
    has_algorithm(key, kty) && has_members(key, kty)
}

/// Returns true if IANA assigned the key's type, and the key has each member that the type
/// requires.
pub(crate) fn is_complete(key: &CoseKey) -> bool
    ensures { result ≡ is_complete (key_view key.now) }
{
    match type_of(key) {
        Some(kty) => has_required(key, kty),
        None => false,
    }
}

/// Returns true if the key has a private member of this type.
fn has_private(key: &CoseKey, kty: KeyType) -> bool
    ensures { result ≡ has_private kty (key_view key.now) }
{
    private(kty)
        .iter()
        .any(|label| key.get(&Label::Int(*label)).is_some())
}

/// Returns true if the key has a private member.
pub(crate) fn is_private(key: &CoseKey) -> bool
    ensures { result ≡ is_private (key_view key.now) }
{
    match type_of(key) {
        Some(kty) => has_private(key, kty),
        None => false,
    }
}
