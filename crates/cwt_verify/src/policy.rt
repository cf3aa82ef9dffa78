//! A verifier's requirements for a token, in addition to acceptance by its keys.

ghost use Rattle.std.specs.List.{list_all, list_any};
ghost use Rattle.std.specs.Prelude.{◌≡◌, ◌++◌, map, option_map};
ghost use Rattle.coset.specs.Headers.{fields_in};
ghost use Rattle.coset.specs.LabelViews.{algorithm_view};
ghost use Rattle.coset.specs.LabelData.{as_label};
ghost use Rattle.coset.specs.Views.{critical_view, header_view};
ghost use Rattle.cwt_verify.specs.Policy.{allows, authenticates, has_meaning, is_known, is_listed, is_missing, is_named, is_type, is_understood, knows, lists_none, named_number, number_of, own_labels, policy_view, strict, understands};

use crate::headers::{Critical, has_label};
use coset::iana::{Algorithm, CwtClaimName, EnumI64, HeaderParameter};
use coset::{Header, RegisteredLabelWithPrivate};
use cwt_keys::{Form, is_for};

/// The kinds of layers that authenticate the sender of a token.
#[derive(Clone, Copy, Debug, PartialEq, Eq)]
pub enum Authentication {
    /// A layer with a signature.
    Signature,
    /// A layer with a signature or a MAC.
    SignatureOrMac,
    /// Any layer. An encrypted layer shows at most that its sender has the key (RFC 8152, section
    /// 10).
    AnyLayer,
}

/// The audiences (`aud`) of the tokens that are accepted (RFC 8392, section 3.1.3).
#[derive(Clone, Copy, Debug)]
pub enum Audience<'a> {
    /// Tokens without an audience.
    Absent,
    /// Tokens that have one of these names in their audience.
    OneOf(&'a [&'a str]),
    /// All tokens. The caller must compare `audience` of the result with its own names (RFC 7519,
    /// section 4.1.3).
    Unchecked,
}

/// A verifier's requirements for a token, in addition to acceptance by its keys.
///
/// Fields that aren't named have the values of [`Policy::strict`]:
/// `Policy { algorithms: &[Algorithm::ES256], ..Policy::strict() }`. It checks no type, and accepts
/// tokens without an audience. If the issuer has other relying parties, name `audience` (RFC 8725,
/// section 3.9).
#[derive(Clone, Copy, Debug)]
pub struct Policy<'a> {
    /// The allowed algorithms. The protected header of each layer must name one of them that is for
    /// the layer's form ([`is_for`]). Of a `COSE_Sign` it is the header of the accepted signature,
    /// and an algorithm in the message's own header isn't checked. `direct` of a recipient needs no
    /// entry. An algorithm in the unprotected header doesn't count.
    pub algorithms: &'a [Algorithm],
    /// The audiences that are accepted.
    pub audience: Audience<'a>,
    /// The types that are accepted, such as `application/cwt`. If there is one, the protected
    /// header of the innermost layer must name one of them (`typ`), as a media type or by its
    /// number (RFC 9596). Upper and lower case are the same. If there is none, the type isn't
    /// checked.
    pub types: &'a [&'a str],
    /// The claims that a token must have.
    pub required: &'a [CwtClaimName],
    /// The labels that the caller understands, out of those that a header may list as critical (RFC
    /// 9052, section 3.1). `verify_token` doesn't look at their values, so the caller must do so.
    /// The labels 1, 2, 4 to 6 and 15 are always understood, and 16 (`typ`) if there are `types`.
    pub critical: &'a [RegisteredLabelWithPrivate<HeaderParameter>],
    /// The form of an outermost layer without a tag. Sender and verifier must agree on it (RFC
    /// 8392, section 7.2, step 3). A form with a list is accepted here, whatever `accept_lists`
    /// says.
    pub untagged_form: Form,
    /// True if a layer under a tag may also be a `COSE_Sign`, a `COSE_Mac` or a `COSE_Encrypt`. Of
    /// a list of signatures, the keys must accept one, and nothing is known about the others (RFC
    /// 9052, section 4.1). A list of recipients must have exactly one, which is `direct` and names
    /// its key. RFC 9052, section 8.5.1, forbids other modes next to `direct`, and advises that the
    /// key is named.
    pub accept_lists: bool,
    /// The layers that authenticate the sender. A token must have at least one of them.
    pub authenticated_by: Authentication,
    /// True if a token must have an expiration time (`exp`).
    pub require_exp: bool,
    /// True if a token is refused when it was issued later than `now` plus the leeway (`iat`).
    pub refuse_future_iat: bool,
    /// The age in seconds since the time of issue (`iat`) at which a token is refused; `leeway` is
    /// added to it. A token without a time of issue is then refused too.
    pub max_age: Option<u64>,
    /// The number of seconds by which the clocks of issuer and verifier may differ. A token is
    /// valid that much longer, and that much earlier.
    pub leeway: u64,
}

impl<'a> Policy<'a> {
    /// Returns a policy that accepts no token, because it allows no algorithm.
    ///
    /// Tokens with an audience are refused. The type isn't checked, no claim but `exp` is required,
    /// and the caller understands no critical labels. A layer without a tag has one signature.
    /// Lists of signatures and of recipients are refused. A signature or a MAC authenticates. A
    /// token must not be issued later than now. The clocks don't differ, and there is no greatest
    /// age.
    pub fn strict() -> Policy<'a>
        ensures { policy_view result ≡ strict }
    {
        Policy {
            algorithms: &[],
            audience: Audience::Absent,
            types: &[],
            required: &[],
            critical: &[],
            untagged_form: Form::Sign1,
            accept_lists: false,
            authenticated_by: Authentication::SignatureOrMac,
            require_exp: true,
            refuse_future_iat: true,
            max_age: None,
            leeway: 0,
        }
    }
}

/// Returns the number of an algorithm, or `None` if it is a text.
fn number_of(algorithm: &coset::Algorithm) -> Option<i64>
    ensures { result ≡ number_of (algorithm_view algorithm.now) }
{
    match algorithm {
        RegisteredLabelWithPrivate::Assigned(value) => Some(value.to_i64()),
        RegisteredLabelWithPrivate::PrivateUse(number) => Some(*number),
        RegisteredLabelWithPrivate::Text(_) => None,
    }
}

/// Returns the number of the algorithm that the header names. Returns `None` if it names none, or
/// by a text.
pub(crate) fn named_number(header: &Header) -> Option<i64>
    ensures { result ≡ named_number (header_view header.now) }
{
    match &header.alg {
        Some(algorithm) => number_of(algorithm),
        None => None,
    }
}

/// The labels that this crate may understand. The last one, `typ`, takes a policy with types.
const OWN_LABELS: [HeaderParameter; 7] = [
    HeaderParameter::Alg,
    HeaderParameter::Crit,
    HeaderParameter::Kid,
    HeaderParameter::Iv,
    HeaderParameter::PartialIv,
    HeaderParameter::CwtClaims,
    HeaderParameter::ObjectContentType,
];

/// Returns true if the label is one that this crate always understands: 1, 2, 4 to 6 or 15.
fn is_known(label: &Critical) -> bool
    ensures { result ≡ is_known (critical_view label.now) }
{
    match label {
        RegisteredLabelWithPrivate::Assigned(parameter) => {
            matches!(parameter.to_i64(), 1 | 2 | 4 | 5 | 6 | 15)
        }
        _ => false,
    }
}

/// Returns true if the label is 16: `typ`, the type of a whole message (RFC 9596).
fn is_type(label: &Critical) -> bool
    ensures { result ≡ is_type (critical_view label.now) }
{
    match label {
        RegisteredLabelWithPrivate::Assigned(parameter) => parameter.to_i64() == 16,
        _ => false,
    }
}

/// Returns true if the header lists no critical label.
fn lists_none(header: &Header) -> bool
    ensures { result ≡ lists_none (header_view header.now) }
{
    header.crit.is_empty()
}

/// Returns true if the header lists this label as critical.
fn is_listed(header: &Header, label: &Critical) -> bool
    ensures { result ≡ is_listed (header_view header.now) (critical_view label.now) }
{
    header.crit.iter().any(|listed| label == listed)
}

/// Returns true if the header lists this label as critical, and doesn't have it.
fn is_missing(header: &Header, label: &Critical) -> bool
    ensures { result ≡ is_missing (header_view header.now) (critical_view label.now) }
{
    is_listed(header, label) && !has_label(header, label)
}

/// Returns true if the header lists a critical label that it doesn't have, out of those that this
/// crate may understand.
fn lacks_own(header: &Header) -> bool
    ensures { result ≡ list_any (is_missing (header_view header.now)) own_labels }
{
    OWN_LABELS.iter().any(|parameter| is_missing(
        header,
        &RegisteredLabelWithPrivate::Assigned(*parameter),
    ))
}

/// Returns true if a header names this algorithm.
fn is_named(named: &Option<coset::Algorithm>, algorithm: Algorithm) -> bool
    ensures { result ≡ is_named (option_map algorithm_view named.now) algorithm }
{
    match named {
        Some(RegisteredLabelWithPrivate::Assigned(found)) => found.to_i64() == algorithm.to_i64(),
        _ => false,
    }
}

impl Policy<'_> {
    /// Returns true if the header names an algorithm that the policy allows, and that is for layers
    /// of this form.
    pub(crate) fn allows(&self, form: Form, header: &Header) -> bool
        ensures { result ≡ allows (policy_view self.now) form (header_view header.now) }
    {
        let named = &header.alg;
        self.algorithms.iter().any(|allowed| is_named(named, *allowed) && is_for(*allowed, form))
    }

    /// Returns true if a layer of this form authenticates.
    pub(crate) fn authenticates(&self, form: Form) -> bool
        ensures { result ≡ authenticates (policy_view self.now).authenticated_by form }
    {
        match (self.authenticated_by, form) {
            (Authentication::AnyLayer, _) => true,
            (_, Form::Sign1 | Form::Sign) => true,
            (Authentication::SignatureOrMac, Form::Mac0 | Form::Mac) => true,
            _ => false,
        }
    }

    /// Returns true if this crate understands the label under this policy: the type only if there
    /// are types.
    fn knows(&self, label: &Critical) -> bool
        ensures { result ≡ knows (policy_view self.now) (critical_view label.now) }
    {
        is_known(label) || (is_type(label) && !self.types.is_empty())
    }

    /// Returns true if the caller or this crate understands the label.
    fn has_meaning(&self, label: &Critical) -> bool
        ensures { result ≡ has_meaning (policy_view self.now) (critical_view label.now) }
    {
        self.knows(label) || self.critical.contains(label)
    }

    /// Returns true if the header lists a critical label that it doesn't have, out of those that
    /// this crate may understand and those of the caller.
    fn finds_missing(&self, header: &Header) -> bool
        ensures { result ≡ list_any (is_missing (header_view header.now))
            (own_labels ++ (policy_view self.now).critical) }
    {
        lacks_own(header) || self.critical.iter().any(|label| is_missing(header, label))
    }

    /// Returns true if the caller or this crate understands each critical label of the header.
    fn finds_meanings(&self, header: &Header) -> bool
        ensures { result ≡ list_all (has_meaning (policy_view self.now))
            (fields_in (header_view header.now)).crit }
    {
        header.crit.iter().all(|label| self.has_meaning(label))
    }

    /// Returns true if each critical label of the header is understood.
    ///
    /// It looks for each label that may be understood in both lists of the sender, and not for each
    /// label of one list in the other. So the time grows with the header's length, times the number
    /// of the caller's labels.
    fn understands_all(&self, header: &Header) -> bool
        ensures { result ≡ list_all (is_understood (policy_view self.now) (header_view header.now))
            (fields_in (header_view header.now)).crit }
    {
        self.finds_meanings(header) && !self.finds_missing(header)
    }

    /// Returns true if each critical label of the protected header `header` is understood, and the
    /// unprotected header lists none.
    pub(crate) fn understands(&self, header: &Header, unprotected: &Header) -> bool
        ensures { result ≡ understands (policy_view self.now) (header_view header.now)
            (header_view unprotected.now) }
    {
        self.understands_all(header) && lists_none(unprotected)
    }
}
