//! Attestation tokens that are let in, and their claims. Plain Python made the tokens and their
//! structures by RFC 8949, RFC 8152, RFC 9711 and RFC 9783.

use coset::cbor::value::{Integer, Value};
use coset::cwt::ClaimsSet;
use coset::iana::CwtClaimName;
use coset::{CborSerializable, CoseError};
use cwt_verify::{Form, Keys, Sealed, TokenError, VerifiedToken};
use example_uses::attestation::{
    NotAttested, bytes_of, claim, integer_of, is_fresh, let_in_attestation, submodule,
    submodule_claims, text_of,
};
use std::alloc::Global;
use std::test::*;

/// The error of keys that don't accept a layer.
#[derive(Clone, Copy, Debug, Drop)]
struct No;

/// Keys of an issuer. They accept the signature or MAC `s` of one structure, which begins with
/// these bytes and ends with the claims.
#[derive(Clone, Copy, Debug)]
struct OneStructure<'a> {
    name: Option<&'a str>,
    before: &'a [u8],
    claims: &'a [u8],
}

impl Keys for OneStructure<'_> {
    ghost use Rattle.cwt_keys.specs.Keys.{accept_anything};

    type Error = No;

    ghost view = { λ keys. accept_anything };

    fn verify<'k>(&'k self, sealed: &Sealed<'_>) -> Result<Option<&'k str>, No> {
        match sealed.structure.strip_prefix(self.before) {
            Some(behind) if behind == self.claims && sealed.proof == b"s".as_slice() => Ok(
                self.name,
            ),
            _ => Err(No),
        }
    }

    fn decrypt<'k>(
        &'k self,
        _alloc: Global,
        _sealed: &Sealed<'_>,
    ) -> Result<(Vec<u8>, Option<&'k str>), No> {
        Err(No)
    }
}

/// Returns keys that accept the structure of these claims, for an issuer without a name.
fn keys_for<'a>(before: &'a [u8], claims: &'a [u8]) -> OneStructure<'a> {
    OneStructure {
        name: None,
        before,
        claims,
    }
}

/// Verifies a token with keys that accept one structure. The claims of the structure are between
/// these bytes and the proof `s`.
fn let_in<'k>(
    alloc: Global,
    keys: &'k OneStructure<'_>,
    token: &[u8],
    nonce: &[u8],
) -> Result<Result<VerifiedToken<'k>, NotAttested<No>>, Fail> {
    let mut bytes = Vec::from_slice(alloc, token)?;
    bytes.extend_from_slice(keys.claims)?;
    bytes.extend_from_slice(b"\x41s")?;
    Ok(let_in_attestation(alloc, keys, nonce, &bytes, 0))
}

const NONCE: &[u8] = b"nnnnnnnnnnnnnnnnnnnnnnnnnnnnnnnn";

/// The claims of a PSA token.
const PSA: &[u8] =
    b"\xa7\x19\x01\x00X!\x01uuuuuuuuuuuuuuuuuuuuuuuuuuuuuuuu\x19\x09\x5cX iiiiiiiiiiiiiiiiiiii\
iiiiiiiiiiii\x0aX nnnnnnnnnnnnnnnnnnnnnnnnnnnnnnnn\x19\x09Z\x1a\x7f\xff\xff\xff\x19\x09[\
\x190\x00\x19\x01\x09x!tag:psacertified.org,2023:psa#tfm\x19\x09_\x81\xa3\x01dPRoT\x02X \
mmmmmmmmmmmmmmmmmmmmmmmmmmmmmmmm\x05X ssssssssssssssssssssssssssssssss";

/// The bytes before the claims in a token with an ES256 signature, and in its structure.
const SIGNED: (&[u8], &[u8]) = (
    b"\xd2\x84C\xa1\x01&\xa0X\xf4",
    b"\x84jSignature1C\xa1\x01&@X\xf4",
);

/// The same for a token with a MAC, by HMAC 256/256.
const MACED: (&[u8], &[u8]) = (
    b"\xd1\x84C\xa1\x01\x05\xa0X\xf4",
    b"\x84dMAC0C\xa1\x01\x05@X\xf4",
);

/// The same for a token with an ES384 signature.
const BY_ANOTHER_ALGORITHM: (&[u8], &[u8]) = (
    b"\xd2\x84D\xa1\x018\x22\xa0X\xf4",
    b"\x84jSignature1D\xa1\x018\x22@X\xf4",
);

#[test]
fn psa_tokens(rt: HostRuntime) -> Result<(), Fail> {
    let alloc = rt.alloc();
    for ((token, structure), form) in [(SIGNED, Form::Sign1), (MACED, Form::Mac0)] {
        let keys = keys_for(structure, PSA);
        let verified = let_in(alloc, &keys, token, NONCE)?.ok().ok_or("refused")?;
        assert!(rt; verified.others.is_empty());
        assert!(rt; verified.audience.is_empty());
        assert!(rt; verified.issuer.is_none());
        let layers = &verified.layers;
        assert!(rt; layers.len() == 1 && layers.first().is_some_and(|it| it.form == form));
        let claims = &verified.claims;
        assert!(rt; is_fresh(claims, NONCE));
        assert!(rt; bytes_of(claims, CwtClaimName::Nonce) == Some(NONCE));
        let device = bytes_of(claims, CwtClaimName::UEID);
        assert!(rt; device == Some(b"\x01uuuuuuuuuuuuuuuuuuuuuuuuuuuuuuuu".as_slice()));
        let client = integer_of(claims, CwtClaimName::PsaClientId);
        assert!(rt; client == Some(Integer::from(2_147_483_647i32)));
        let lifecycle = integer_of(claims, CwtClaimName::PsaSecurityLifecycle);
        assert!(rt; lifecycle == Some(Integer::from(0x3000i32)));
        let profile = text_of(claims, CwtClaimName::EatProfile);
        assert!(rt; profile == Some("tag:psacertified.org,2023:psa#tfm"));
        assert!(rt; claim(claims, CwtClaimName::BootSeed).is_none());
        assert!(rt; integer_of(claims, CwtClaimName::Nonce).is_none());
        assert!(rt; text_of(claims, CwtClaimName::Nonce).is_none());
        assert!(rt; bytes_of(claims, CwtClaimName::PsaClientId).is_none());
        assert!(rt; submodule(claims, "app").is_none());
    }
    Ok(())
}

/// Claims with two nonces, which PSA tokens don't have.
const TWO_NONCES: &[u8] = b"\xa1\x0a\x82HnnnnnnnnHoooooooo";

const TWO_NONCES_SIGNED: (&[u8], &[u8]) = (
    b"\xd2\x84C\xa1\x01&\xa0U",
    b"\x84jSignature1C\xa1\x01&@U",
);

#[test]
fn tokens_that_are_refused(rt: HostRuntime) -> Result<(), Fail> {
    let alloc = rt.alloc();
    let (token, structure) = SIGNED;
    let keys = keys_for(structure, PSA);
    let other_nonce = let_in(alloc, &keys, token, b"nnnnnnnn")?;
    assert!(rt; matches!(other_nonce, Err(NotAttested::NotFresh)));
    let (of_two, structure_of_two) = TWO_NONCES_SIGNED;
    let keys = keys_for(structure_of_two, TWO_NONCES);
    let two = let_in(alloc, &keys, of_two, b"nnnnnnnn")?;
    assert!(rt; matches!(two, Err(NotAttested::NotFresh)));
    let keys = keys_for(MACED.1, PSA);
    let other_structure = let_in(alloc, &keys, token, NONCE)?;
    assert!(rt;
        matches!(
            other_structure,
            Err(NotAttested::Refused(TokenError::Layer(0, _)))
        )
    );
    let (by_another, structure) = BY_ANOTHER_ALGORITHM;
    let keys = keys_for(structure, PSA);
    let other_algorithm = let_in(alloc, &keys, by_another, NONCE)?;
    assert!(rt;
        matches!(
            other_algorithm,
            Err(NotAttested::Refused(TokenError::Layer(0, _)))
        )
    );
    Ok(())
}

/// The bytes before claims of 14 bytes in a signed token, and in its structure.
const OF_14_BYTES: (&[u8], &[u8]) = (b"\xd2\x84C\xa1\x01&\xa0N", b"\x84jSignature1C\xa1\x01&@N");

/// Claims with the issuer `a` and a nonce.
const FROM_A: &[u8] = b"\xa2\x01aa\x0aHnnnnnnnn";

/// Claims with the audience `a` and a nonce.
const FOR_A: &[u8] = b"\xa2\x03aa\x0aHnnnnnnnn";

#[test]
fn issuers(rt: HostRuntime) -> Result<(), Fail> {
    let alloc = rt.alloc();
    let (token, before) = OF_14_BYTES;
    let of_a = OneStructure {
        name: Some("a"),
        before,
        claims: FROM_A,
    };
    let verified = let_in(alloc, &of_a, token, b"nnnnnnnn")?
        .ok()
        .ok_or("refused")?;
    assert!(rt; verified.issuer == Some("a"));
    for name in [None, Some("b"), Some("")] {
        let of_another = OneStructure {
            name,
            before,
            claims: FROM_A,
        };
        let refused = let_in(alloc, &of_another, token, b"nnnnnnnn")?;
        assert!(rt; matches!(refused, Err(NotAttested::Refused(TokenError::Issuer))));
    }
    Ok(())
}

#[test]
fn an_audience_is_refused(rt: HostRuntime) -> Result<(), Fail> {
    let alloc = rt.alloc();
    let (token, structure) = OF_14_BYTES;
    let keys = keys_for(structure, FOR_A);
    let refused = let_in(alloc, &keys, token, b"nnnnnnnn")?;
    assert!(rt; matches!(refused, Err(NotAttested::Refused(TokenError::Audience))));
    Ok(())
}

/// Claims with a nonce of 7, 8, 64 and 65 bytes, and the bytes before each in a signed token and in
/// its structure. A nonce has 8 to 64 bytes (RFC 9711, section 4.1).
const NONCES: [(&[u8], &[u8], &[u8], bool); 4] = [
    (
        b"\xa1\x0aGnnnnnnn",
        b"\xd2\x84C\xa1\x01&\xa0J",
        b"\x84jSignature1C\xa1\x01&@J",
        false,
    ),
    (
        b"\xa1\x0aHnnnnnnnn",
        b"\xd2\x84C\xa1\x01&\xa0K",
        b"\x84jSignature1C\xa1\x01&@K",
        true,
    ),
    (
        b"\xa1\x0aX@nnnnnnnnnnnnnnnnnnnnnnnnnnnnnnnnnnnnnnnnnnnnnnnnnnnnnnnnnnnnnnnn",
        b"\xd2\x84C\xa1\x01&\xa0XD",
        b"\x84jSignature1C\xa1\x01&@XD",
        true,
    ),
    (
        b"\xa1\x0aXAnnnnnnnnnnnnnnnnnnnnnnnnnnnnnnnnnnnnnnnnnnnnnnnnnnnnnnnnnnnnnnnnn",
        b"\xd2\x84C\xa1\x01&\xa0XE",
        b"\x84jSignature1C\xa1\x01&@XE",
        false,
    ),
];

#[test]
fn lengths_of_nonces(rt: HostRuntime) -> Result<(), Fail> {
    let alloc = rt.alloc();
    for (claims, token, structure, is_nonce) in NONCES {
        let keys = keys_for(structure, claims);
        let read = ClaimsSet::from_slice(alloc, claims)
            .ok()
            .ok_or("no claims")?;
        let nonce = bytes_of(&read, CwtClaimName::Nonce).ok_or("no nonce")?;
        assert!(rt; is_fresh(&read, nonce) == is_nonce);
        match let_in(alloc, &keys, token, nonce)? {
            Ok(_) => assert!(rt; is_nonce),
            Err(error) => assert!(rt; !is_nonce && matches!(error, NotAttested::NotFresh)),
        }
    }
    Ok(())
}

/// Claims with three submodules: claims, a token of its own, and a digest. They also have a claim
/// that no registry has.
const MODULES: &[u8] =
    b"\xa3\x0aHnnnnnnnn\x19\x01\x0a\xa3capp\xa2\x19\x01\x0egupdater\x19\x09Z bseU\xd2\x84C\xa1\
\x01&\xa0K\xa1\x0aHnnnnnnnnAsclog\x82/Ddddd\x19\xfd\xe8\x07";

const MODULES_SIGNED: (&[u8], &[u8]) = (
    b"\xd2\x84C\xa1\x01&\xa0XK",
    b"\x84jSignature1C\xa1\x01&@XK",
);

/// The token in one of the submodules, and its claims.
const INNER: &[u8] = b"\xd2\x84C\xa1\x01&\xa0K\xa1\x0aHnnnnnnnnAs";

const INNER_CLAIMS: &[u8] = b"\xa1\x0aHnnnnnnnn";

/// The structure of that token's signature, up to the claims.
const INNER_STRUCTURE: &[u8] = b"\x84jSignature1C\xa1\x01&@K";

/// Returns the claims with submodules.
fn with_submodules(alloc: Global) -> Result<ClaimsSet, Fail> {
    let (token, structure) = MODULES_SIGNED;
    let keys = keys_for(structure, MODULES);
    let verified = let_in(alloc, &keys, token, b"nnnnnnnn")?
        .ok()
        .ok_or("refused")?;
    Ok(verified.claims)
}

#[test]
fn claims_that_no_registry_has(rt: HostRuntime) -> Result<(), Fail> {
    let alloc = rt.alloc();
    let (token, structure) = MODULES_SIGNED;
    let keys = keys_for(structure, MODULES);
    let verified = let_in(alloc, &keys, token, b"nnnnnnnn")?
        .ok()
        .ok_or("refused")?;
    assert!(rt; verified.others.len() == 1);
    Ok(())
}

#[test]
fn submodules(rt: HostRuntime) -> Result<(), Fail> {
    let alloc = rt.alloc();
    let claims = with_submodules(alloc)?;
    let app = submodule_claims(alloc, &claims, "app")
        .ok()
        .ok_or("refused")?
        .ok_or("none")?;
    assert!(rt; text_of(&app, CwtClaimName::SoftwareName) == Some("updater"));
    assert!(rt; integer_of(&app, CwtClaimName::PsaClientId) == Some(Integer::from(-1i32)));
    let none = submodule_claims(alloc, &claims, "none");
    assert!(rt; matches!(none, Ok(None)));
    let digest = submodule_claims(alloc, &claims, "log");
    assert!(rt; matches!(digest, Err(CoseError::UnexpectedItem("array", "map"))));
    Ok(())
}

#[test]
fn a_submodule_that_is_a_token(rt: HostRuntime) -> Result<(), Fail> {
    let alloc = rt.alloc();
    let claims = with_submodules(alloc)?;
    let inner = submodule(&claims, "se")
        .and_then(Value::as_bytes)
        .ok_or("no token")?;
    assert!(rt; inner.as_slice() == INNER);
    let keys = keys_for(INNER_STRUCTURE, INNER_CLAIMS);
    let verified = let_in_attestation(alloc, &keys, b"nnnnnnnn", inner, 0);
    let verified = verified.ok().ok_or("refused")?;
    assert!(rt; is_fresh(&verified.claims, b"nnnnnnnn"));
    Ok(())
}
