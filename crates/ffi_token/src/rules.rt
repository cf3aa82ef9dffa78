//! A verifier's requirements for a token, with algorithms, labels and claims as numbers.

ghost use Rattle.std.specs.Prelude.{◌≡◌, IfOk, filter_map, map};
ghost use Rattle.coset.specs.LabelViews.{registered_or_private_view};
ghost use Rattle.cwt_verify.specs.Policy.{audience_view};
ghost use Rattle.ffi_token.specs.Opened.{opened_view};
ghost use Rattle.ffi_token.specs.Rules.{ListsOf, are_assigned, audience_of, has_meaning, named, policy_with, rules_view};
ghost use Rattle.ffi_token.specs.Texts.{texts_view};
ghost use Rattle.ffi_token.specs.Tokens.{VerifiesOr};

use crate::layer::Waiting;
use crate::opened::OpenedLayers;
use crate::text::{Text, are_texts, names};
use coset::iana::{Algorithm, CwtClaimName, EnumI64, HeaderParameter};
use coset::{CoseError, RegisteredLabelWithPrivate};
use cwt_verify::{
    Audience, Authentication, Form, LayerError, Policy, TokenError, VerifiedToken, verify_token,
};
use std::alloc::{AllocError, Global};

/// A verifier's requirements for a token: a [`Policy`] in numbers. They have a meaning only if
/// [`has_meaning`](Rules::has_meaning) says so.
#[derive(Clone, Copy, Debug)]
pub struct Rules<'a> {
    /// The allowed algorithms.
    pub algorithms: &'a [i64],
    /// The labels that the caller understands, out of those that a header may list as critical. The
    /// labels 1, 2, 4 to 6 and 15 are always understood, and 16 if there are `types`. A number that
    /// IANA hasn't assigned counts as a private-use number.
    pub critical: &'a [i64],
    /// The claims that a token must have.
    pub required: &'a [i64],
    /// The audiences that are accepted. If there is none, a token with an audience is refused.
    pub audiences: &'a [Text<'a>],
    /// The types that are accepted. If there is none, the type isn't looked at, and a critical type
    /// is refused, unless `critical` names it.
    pub types: &'a [Text<'a>],
    /// True if the audience isn't checked. There are then no `audiences`.
    pub any_audience: bool,
    /// The form of an outermost layer without a tag, which may be one with a list. Layers under a
    /// tag have no list of signatures or recipients.
    pub untagged_form: Form,
    /// The layers that authenticate the sender. A token must have at least one of them.
    pub authenticated_by: Authentication,
    /// True if a token must have an expiration time (`exp`).
    pub require_exp: bool,
    /// True if a token is refused when it was issued later than now (`iat`).
    pub refuse_future_iat: bool,
    /// The age in seconds since the time of issue at which a token is refused. A token without a
    /// time of issue is then refused too.
    pub max_age: Option<u64>,
    /// The number of seconds by which the clocks of issuer and verifier may differ.
    pub leeway: u64,
}

/// Returns the label with this number: a value of the registry, or else a private-use number.
pub(crate) fn label<T: EnumI64>(number: i64) -> RegisteredLabelWithPrivate<T>
    ensures { registered_or_private_view T.number result ≡ named T.value_of number }
{
    match T::from_i64(number) {
        Some(value) => RegisteredLabelWithPrivate::Assigned(value),
        None => RegisteredLabelWithPrivate::PrivateUse(number),
    }
}

/// Returns the labels with these numbers.
///
/// # Errors
/// `AllocError` if an allocation fails.
fn labels<T: EnumI64 + Drop>(
    alloc: Global,
    numbers: &[i64],
) -> Result<Vec<RegisteredLabelWithPrivate<T>>, AllocError>
    ensures { IfOk result (λ labels. map (registered_or_private_view T.number) labels.items
        ≡ map (named T.value_of) numbers.now) }
{
    let mut labels = Vec::new(alloc);
    for number in numbers {
        labels.push(label(*number))?;
    }
    Ok(labels)
}

/// Returns true if each number is one of the registry.
fn are_assigned<T: EnumI64 + Drop>(numbers: &[i64]) -> bool
    ensures { result ≡ are_assigned T.value_of numbers.now }
{
    numbers.iter().all(|number| T::from_i64(*number).is_some())
}

/// Returns the values of the registry with these numbers, without numbers that aren't assigned.
///
/// # Errors
/// `AllocError` if an allocation fails.
fn values<T: EnumI64 + Drop>(alloc: Global, numbers: &[i64]) -> Result<Vec<T>, AllocError>
    ensures { IfOk result (λ values. values.items ≡ filter_map T.value_of numbers.now) }
{
    numbers
        .iter()
        .filter_map(|number| T::from_i64(*number))
        .collect(alloc)
}

/// Returns the audiences that are accepted: those with these names, if texts are given.
fn audience_of<'a>(any: bool, given: &[Text<'_>], names: &'a [&'a str]) -> Audience<'a>
    ensures { audience_view result ≡ audience_of any (texts_view given.now)
        (map (λ s. s.now) names.now) }
{
    if any {
        return Audience::Unchecked;
    }
    if given.is_empty() {
        return Audience::Absent;
    }
    Audience::OneOf(names)
}

/// The lists of a policy.
#[derive(Drop)]
struct Lists<'a> {
    algorithms: Vec<Algorithm>,
    critical: Vec<RegisteredLabelWithPrivate<HeaderParameter>>,
    required: Vec<CwtClaimName>,
    audiences: Vec<&'a str>,
    types: Vec<&'a str>,
}

impl<'a> Rules<'a> {
    /// Returns true if IANA assigned the numbers of algorithms and of claims, and the texts are
    /// UTF-8. There must also be no audiences if any is accepted.
    pub fn has_meaning(&self) -> bool
        ensures { result ≡ has_meaning (rules_view self.now) }
    {
        if self.any_audience && !self.audiences.is_empty() {
            return false;
        }
        are_assigned::<Algorithm>(self.algorithms)
            && are_assigned::<CwtClaimName>(self.required)
            && are_texts(self.audiences)
            && are_texts(self.types)
    }

    /// Returns the lists of the policy.
    ///
    /// # Errors
    /// `AllocError` if an allocation fails.
    fn lists(&self, alloc: Global) -> Result<Lists<'a>, AllocError>
        ensures { IfOk result (λ lists. ListsOf (rules_view self.now) lists) }
    {
        Ok(Lists {
            algorithms: values::<Algorithm>(alloc, self.algorithms)?,
            critical: labels::<HeaderParameter>(alloc, self.critical)?,
            required: values::<CwtClaimName>(alloc, self.required)?,
            audiences: names(alloc, self.audiences)?,
            types: names(alloc, self.types)?,
        })
    }

    /// Verifies a token, given the layers that the caller opened.
    ///
    /// # Errors
    /// The first reason against the token, in the order of [`TokenError`]. A waiting layer is
    /// `Keys`.
    pub(crate) fn verify<'k>(
        &self,
        alloc: Global,
        opened: &'k OpenedLayers<'_>,
        token: &[u8],
        now: i64,
    ) -> Result<VerifiedToken<'k>, TokenError<Waiting>>
        ensures { VerifiesOr (opened_view opened.now.bytes.now opened.now.layers.now)
            (policy_with (rules_view self.now)) now token.now result }
    {
        let Ok(lists) = self.lists(alloc) else {
            return Err(TokenError::Layer(0, LayerError::Message(CoseError::OutOfMemory)));
        };
        let policy = Policy {
            algorithms: &lists.algorithms,
            audience: audience_of(self.any_audience, self.audiences, &lists.audiences),
            types: &lists.types,
            required: &lists.required,
            critical: &lists.critical,
            untagged_form: self.untagged_form,
            accept_lists: false,
            authenticated_by: self.authenticated_by,
            require_exp: self.require_exp,
            refuse_future_iat: self.refuse_future_iat,
            max_age: self.max_age,
            leeway: self.leeway,
        };
        verify_token(alloc, &policy, opened, token, now)
    }
}
