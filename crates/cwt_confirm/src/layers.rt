//! Whether the layers of a token keep its confirmation claim from those who can't decrypt them.

ghost use Rattle.std.specs.Prelude.{◌≡◌, map};
ghost use Rattle.coset.specs.View.{value_item};
ghost use Rattle.coset.specs.Views.{header_view};
ghost use Rattle.cwt_verify.specs.Layers.{part_view};
ghost use Rattle.cwt_verify.specs.Opening.{verified_view};
ghost use Rattle.cwt_confirm.specs.Concealed.{conceal_cnf, has_cnf, is_encrypted, part_shows_cnf, reveals, shows_cnf};

use crate::member::member;
use coset::cbor::value::Value;
use coset::iana::{CwtClaimName, EnumI64};
use coset::{Header, Label};
use cwt_verify::{Form, Part, VerifiedLayer};

/// The label of claims in a header (RFC 9597).
const CWT_CLAIMS: i64 = 15;

/// Returns true if the value is claims with a confirmation.
fn has_cnf(value: &Value) -> bool
    ensures { result ≡ has_cnf (value_item value.now) }
{
    match value.as_map() {
        Some(claims) => member(claims, CwtClaimName::Cnf.to_i64()).is_some(),
        None => false,
    }
}

/// Returns true if the claims in the header have a confirmation (RFC 9597).
fn shows_cnf(header: &Header) -> bool
    ensures { result ≡ shows_cnf (header_view header.now) }
{
    match header.get(&Label::Int(CWT_CLAIMS)) {
        Some(value) => has_cnf(value),
        None => false,
    }
}

/// Returns true if a header of the accepted part shows the confirmation.
fn part_shows_cnf(part: &Part) -> bool
    ensures { result ≡ part_shows_cnf (part_view part.now) }
{
    match part {
        Part::Whole => false,
        Part::Signature(signature) => {
            shows_cnf(&signature.protected.header) || shows_cnf(&signature.unprotected)
        }
        Part::Recipient(recipient) => shows_cnf(&recipient.unprotected),
    }
}

/// Returns true if a header of the layer, or of its accepted part, shows the confirmation.
fn reveals(layer: &VerifiedLayer<'_>) -> bool
    ensures { result ≡ reveals (verified_view layer.now) }
{
    shows_cnf(&layer.protected.header)
        || shows_cnf(&layer.unprotected)
        || part_shows_cnf(&layer.part)
}

/// Returns true if the layer is encrypted.
fn is_encrypted(layer: &VerifiedLayer<'_>) -> bool
    ensures { result ≡ is_encrypted (verified_view layer.now).form }
{
    match layer.form {
        Form::Encrypt0 | Form::Encrypt => true,
        _ => false,
    }
}

/// Returns true if one of the layers is encrypted, and neither its headers nor those of the layers
/// around it show the confirmation. The claims are inside all layers.
pub(crate) fn conceal_cnf(layers: &[VerifiedLayer<'_>]) -> bool
    ensures { result ≡ conceal_cnf (map verified_view layers.now) }
{
    for layer in layers {
        if reveals(layer) {
            return false;
        }
        if is_encrypted(layer) {
            return true;
        }
    }
    false
}
