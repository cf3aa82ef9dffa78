//! One layer of a token: read from its bytes, and opened by the caller's keys.

ghost use Rattle.std.specs.Prelude.{◌≡◌};
ghost use Rattle.coset.specs.Results.{AllocatesForItems, ReadsSlice, RefusesSlice};
ghost use Rattle.coset.specs.Encrypt.{encrypt_view};
ghost use Rattle.coset.specs.Encrypt0.{encrypt0_view};
ghost use Rattle.coset.specs.Mac.{mac_view};
ghost use Rattle.coset.specs.Mac0.{mac0_view};
ghost use Rattle.coset.specs.Parts.{as_tag};
ghost use Rattle.coset.specs.Pulls.{pull_item};
ghost use Rattle.coset.specs.Sign.{sign_view};
ghost use Rattle.coset.specs.Sign1.{sign1_view};
ghost use Rattle.coset.specs.Views.{header_view};
ghost use Rattle.cwt_verify.specs.Admission.{headers_view};
ghost use Rattle.cwt_verify.specs.Opening.{Opens};
ghost use Rattle.cwt_verify.specs.Policy.{PolicyView, policy_view};
ghost use Rattle.cwt_verify.specs.Layers.{encrypted, headers_of, layer, layer_item, layer_view, list_form, macced, message_in, named_by, named_form, names_form, protected_of, signed, unprotected_of, without_cwt_tag};

use crate::admission::Headers;
use crate::error::LayerError;
use crate::headers::named_key;
use crate::policy::Policy;
use crate::recipients::{open_encrypted_for, open_macced_for};
use crate::signatures::open_signed_by;
use coset::cbor::de::Pull;
use coset::{
    CoseEncrypt, CoseEncrypt0, CoseMac, CoseMac0, CoseRecipient, CoseSign, CoseSign1,
    CoseSignature, FromPull, Header, ProtectedHeader, Result,
};
use coset_codec::traits::whole_item;
use cwt_keys::{Form, Keys, Sealed};
use std::alloc::Global;

/// The tag of messages with one signature (RFC 8152, section 2).
const COSE_SIGN1: u64 = 18;

/// The tag of messages with a MAC (RFC 8152, section 2).
const COSE_MAC0: u64 = 17;

/// The tag of encrypted messages (RFC 8152, section 2).
const COSE_ENCRYPT0: u64 = 16;

/// The tag of messages with a list of signatures (RFC 8152, section 2).
const COSE_SIGN: u64 = 98;

/// The tag of messages with a MAC and a list of recipients (RFC 8152, section 2).
const COSE_MAC: u64 = 97;

/// The tag of encrypted messages with a list of recipients (RFC 8152, section 2).
const COSE_ENCRYPT: u64 = 96;

/// The tag of web tokens (RFC 8392, section 6).
const CWT: u64 = 61;

/// The part of a layer that the keys accepted.
#[derive(Debug, Drop)]
pub enum Part {
    /// The layer itself: a `COSE_Sign1`, a `COSE_Mac0` or a `COSE_Encrypt0`.
    Whole,
    /// A signature of a `COSE_Sign`. Nothing is known about the other signatures.
    Signature(CoseSignature),
    /// The recipient of a `COSE_Mac` or a `COSE_Encrypt`, which is `direct`. Whoever sent the token
    /// chose its values.
    Recipient(CoseRecipient),
}

/// A layer that the keys accepted.
#[derive(Debug, Drop)]
pub struct VerifiedLayer<'k> {
    /// The form of the layer.
    pub form: Form,
    /// The protected header, with the bytes as they were received (`original_data`).
    pub protected: ProtectedHeader,
    /// The unprotected header. Whoever sent the token chose its values.
    pub unprotected: Header,
    /// The part of the layer that a key accepted.
    pub part: Part,
    /// The name of the issuer whose key accepted the layer, or `None` if that issuer has no name.
    pub issuer: Option<&'k str>,
}

/// An opened layer.
#[derive(Drop)]
pub(crate) struct OpenedLayer<'k> {
    /// The payload, or the plaintext that the keys returned.
    pub content: Vec<u8>,
    /// The layer itself.
    pub verified: VerifiedLayer<'k>,
}

/// A layer: a message of one of the forms.
///
/// ```cddl
/// single = COSE_Sign1 / COSE_Mac0 / COSE_Encrypt0
/// list = COSE_Sign / COSE_Mac / COSE_Encrypt          ; only if the policy accepts lists
/// tagged = #6.18(COSE_Sign1) / #6.17(COSE_Mac0) / #6.16(COSE_Encrypt0)
///        / #6.98(COSE_Sign) / #6.97(COSE_Mac) / #6.96(COSE_Encrypt)
/// layer = single / list / tagged  ; the outermost also #6.61(tagged)
/// ```
#[derive(Debug, Drop)]
pub(crate) enum Layer {
    Sign1(CoseSign1),
    Mac0(CoseMac0),
    Encrypt0(CoseEncrypt0),
    Sign(CoseSign),
    Mac(CoseMac),
    Encrypt(CoseEncrypt),
}

/// Returns the form with a list that the tag `number` names, or `None` if it names none.
fn list_form(number: u64) -> Option<Form>
    ensures { result ≡ list_form number }
{
    if number == COSE_SIGN {
        return Some(Form::Sign);
    }
    if number == COSE_MAC {
        return Some(Form::Mac);
    }
    if number == COSE_ENCRYPT {
        return Some(Form::Encrypt);
    }
    None
}

/// Returns the form that the tag `number` names, or `None` if it names none. Forms with a list are
/// named only if `lists` is true.
fn named_form(lists: bool, number: u64) -> Option<Form>
    ensures { result ≡ named_form lists number }
{
    if number == COSE_SIGN1 {
        return Some(Form::Sign1);
    }
    if number == COSE_MAC0 {
        return Some(Form::Mac0);
    }
    if number == COSE_ENCRYPT0 {
        return Some(Form::Encrypt0);
    }
    if lists { list_form(number) } else { None }
}

/// Returns true if the item is under the tag of a form.
fn names_form(lists: bool, item: Pull<'_>) -> bool
    ensures { result ≡ names_form lists (as_tag (pull_item item.entry)) }
{
    match item.tag() {
        Some((number, _)) => named_form(lists, number).is_some(),
        None => false,
    }
}

/// Removes the tag of web tokens if the tag of a form follows; any other item is returned as it is.
fn without_cwt_tag(lists: bool, item: Pull<'_>) -> Pull<'_>
    ensures { pull_item result
        ≡ without_cwt_tag lists (pull_item item.entry) (as_tag (pull_item item.entry)) }
{
    match item.tag() {
        Some((number, inner)) => {
            if number == CWT {
                if names_form(lists, inner) {
                    return inner;
                }
            }
            item
        }
        None => item,
    }
}

/// Returns the item of a layer. Only the outermost layer may be under the tag of web tokens.
fn layer_item(lists: bool, outermost: bool, item: Pull<'_>) -> Pull<'_>
    ensures { pull_item result ≡ layer_item lists outermost (pull_item item.entry) }
{
    if outermost {
        without_cwt_tag(lists, item)
    } else {
        item
    }
}

/// Returns the form that the item's tag names, and the item of the message. An item without such a
/// tag is itself the message, of the form `plain`.
fn message_in(lists: bool, plain: Form, item: Pull<'_>) -> (Form, Pull<'_>)
    ensures { (result.0, pull_item result.1) ≡ message_in lists plain (pull_item item.entry) }
{
    match item.tag() {
        Some((number, inner)) => match named_form(lists, number) {
            Some(form) => (form, inner),
            None => (plain, item),
        },
        None => (plain, item),
    }
}

impl Layer {
    /// Reads a layer from its bytes. `lists` says whether forms with a list are read too, and
    /// `plain` is the form of a layer without a tag.
    ///
    /// # Errors
    /// - `OutOfMemory` if an allocation fails. This happens only if the bytes are one item.
    /// - A fault in the bytes, if they are not a layer.
    pub(crate) fn read(
        alloc: Global,
        lists: bool,
        plain: Form,
        outermost: bool,
        bytes: &[u8],
    ) -> Result<Layer>
        ensures read { ReadsSlice (layer lists plain outermost) layer_view bytes.now result }
        ensures refused { RefusesSlice (layer lists plain outermost) bytes.now result }
        ensures memory { AllocatesForItems bytes.now result }
    {
        let item = layer_item(lists, outermost, whole_item(bytes)?);
        let (form, message) = message_in(lists, plain, item);
        match form {
            Form::Sign1 => Ok(Layer::Sign1(CoseSign1::from_pull(alloc, message)?)),
            Form::Mac0 => Ok(Layer::Mac0(CoseMac0::from_pull(alloc, message)?)),
            Form::Encrypt0 => Ok(Layer::Encrypt0(CoseEncrypt0::from_pull(alloc, message)?)),
            Form::Sign => Ok(Layer::Sign(CoseSign::from_pull(alloc, message)?)),
            Form::Mac => Ok(Layer::Mac(CoseMac::from_pull(alloc, message)?)),
            Form::Encrypt => Ok(Layer::Encrypt(CoseEncrypt::from_pull(alloc, message)?)),
        }
    }

    /// Returns the form that the algorithm in the protected header must be for, or `None` if the
    /// header needs no algorithm, because each signature names its own.
    fn named_by(&self) -> Option<Form>
        ensures { result ≡ named_by (layer_view self.now) }
    {
        match self {
            Layer::Sign1(_) => Some(Form::Sign1),
            Layer::Mac0(_) => Some(Form::Mac0),
            Layer::Encrypt0(_) => Some(Form::Encrypt0),
            Layer::Sign(_) => None,
            Layer::Mac(_) => Some(Form::Mac),
            Layer::Encrypt(_) => Some(Form::Encrypt),
        }
    }

    /// Returns the protected header.
    fn protected(&self) -> &Header
        ensures { header_view result.now ≡ (protected_of (layer_view self.now)).header }
    {
        match self {
            Layer::Sign1(message) => &message.protected.header,
            Layer::Mac0(message) => &message.protected.header,
            Layer::Encrypt0(message) => &message.protected.header,
            Layer::Sign(message) => &message.protected.header,
            Layer::Mac(message) => &message.protected.header,
            Layer::Encrypt(message) => &message.protected.header,
        }
    }

    /// Returns the unprotected header.
    fn unprotected(&self) -> &Header
        ensures { header_view result.now ≡ unprotected_of (layer_view self.now) }
    {
        match self {
            Layer::Sign1(message) => &message.unprotected,
            Layer::Mac0(message) => &message.unprotected,
            Layer::Encrypt0(message) => &message.unprotected,
            Layer::Sign(message) => &message.unprotected,
            Layer::Mac(message) => &message.unprotected,
            Layer::Encrypt(message) => &message.unprotected,
        }
    }

    /// Returns the headers of the message, which the policy must admit.
    pub(crate) fn headers(&self) -> Headers<'_>
        ensures { headers_view result ≡ headers_of (layer_view self.now) }
    {
        Headers {
            form: self.named_by(),
            protected: self.protected(),
            unprotected: self.unprotected(),
        }
    }

    /// Returns the layer and its content, if the keys accept it: its payload, or the plaintext of
    /// its ciphertext. Of a list of signatures, the keys must accept one that the policy admits.
    ///
    /// # Errors
    /// - `Recipients` if the layer has recipients, except for exactly one that is `direct`.
    /// - `NoPayload` if the layer has no payload, or no ciphertext.
    /// - `NoSignature` if the list of signatures is empty, and `TooManySignatures` if it has more
    ///   than 16.
    /// - `Message` if the structure can't be made, for example because an allocation fails.
    /// - `Headers`, `Algorithm` or `Critical` if the policy doesn't admit the last signature.
    /// - `Keys` if the keys refuse the layer, or the last signature.
    pub(crate) fn open<'k, K: Keys>(
        self,
        alloc: Global,
        policy: &Policy<'_>,
        keys: &'k K,
    ) -> std::result::Result<OpenedLayer<'k>, LayerError<K::Error>>
        ensures { Opens (K.view keys.now) (policy_view policy.now) (layer_view self) result }
    {
        match self {
            Layer::Sign1(message) => open_signed(alloc, keys, message),
            Layer::Mac0(message) => open_macced(alloc, keys, message),
            Layer::Encrypt0(message) => open_encrypted(alloc, keys, message),
            Layer::Sign(message) => open_signed_by(alloc, policy, keys, message),
            Layer::Mac(message) => open_macced_for(alloc, keys, message),
            Layer::Encrypt(message) => open_encrypted_for(alloc, keys, message),
        }
    }
}

/// Returns a signed message and its payload, if the keys accept its signature.
fn open_signed<'k, K: Keys>(
    alloc: Global,
    keys: &'k K,
    mut message: CoseSign1,
) -> std::result::Result<OpenedLayer<'k>, LayerError<K::Error>>
    ensures { (p : PolicyView) → Opens (K.view keys.now) p (signed (sign1_view message)) result }
{
    let Some(content) = message.payload.take() else {
        return Err(LayerError::NoPayload);
    };
    let structure = match message.tbs_detached_data(alloc, &content, &[]) {
        Ok(structure) => structure,
        Err(error) => return Err(LayerError::Message(error)),
    };
    let sealed = Sealed::new(
        Form::Sign1,
        &message.protected,
        &message.unprotected,
        &message.signature,
        &structure,
    );
    match keys.verify(&sealed) {
        Ok(issuer) => Ok(OpenedLayer {
            content,
            verified: VerifiedLayer {
                form: Form::Sign1,
                protected: message.protected,
                unprotected: message.unprotected,
                part: Part::Whole,
                issuer,
            },
        }),
        Err(error) => Err(LayerError::Keys {
            key_id: named_key(alloc, message.protected, message.unprotected),
            error,
        }),
    }
}

/// Returns a message with a MAC and its payload, if the keys accept its MAC.
fn open_macced<'k, K: Keys>(
    alloc: Global,
    keys: &'k K,
    mut message: CoseMac0,
) -> std::result::Result<OpenedLayer<'k>, LayerError<K::Error>>
    ensures { (p : PolicyView) → Opens (K.view keys.now) p (macced (mac0_view message)) result }
{
    let Some(content) = message.payload.take() else {
        return Err(LayerError::NoPayload);
    };
    let structure = match message.tbm_detached(alloc, &content, &[]) {
        Ok(structure) => structure,
        Err(error) => return Err(LayerError::Message(error)),
    };
    let sealed = Sealed::new(
        Form::Mac0,
        &message.protected,
        &message.unprotected,
        &message.tag,
        &structure,
    );
    match keys.verify(&sealed) {
        Ok(issuer) => Ok(OpenedLayer {
            content,
            verified: VerifiedLayer {
                form: Form::Mac0,
                protected: message.protected,
                unprotected: message.unprotected,
                part: Part::Whole,
                issuer,
            },
        }),
        Err(error) => Err(LayerError::Keys {
            key_id: named_key(alloc, message.protected, message.unprotected),
            error,
        }),
    }
}

/// Returns an encrypted message and its plaintext, if the keys decrypt its ciphertext.
fn open_encrypted<'k, K: Keys>(
    alloc: Global,
    keys: &'k K,
    mut message: CoseEncrypt0,
) -> std::result::Result<OpenedLayer<'k>, LayerError<K::Error>>
    ensures { (p : PolicyView) → Opens (K.view keys.now) p (encrypted (encrypt0_view message))
        result }
{
    let Some(ciphertext) = message.ciphertext.take() else {
        return Err(LayerError::NoPayload);
    };
    let structure = match message.aad(alloc, &[]) {
        Ok(structure) => structure,
        Err(error) => return Err(LayerError::Message(error)),
    };
    let sealed = Sealed::new(
        Form::Encrypt0,
        &message.protected,
        &message.unprotected,
        &ciphertext,
        &structure,
    );
    match keys.decrypt(alloc, &sealed) {
        Ok((content, issuer)) => Ok(OpenedLayer {
            content,
            verified: VerifiedLayer {
                form: Form::Encrypt0,
                protected: message.protected,
                unprotected: message.unprotected,
                part: Part::Whole,
                issuer,
            },
        }),
        Err(error) => Err(LayerError::Keys {
            key_id: named_key(alloc, message.protected, message.unprotected),
            error,
        }),
    }
}
