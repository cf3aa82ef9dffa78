//! Reads a message although a signature or a recipient in it can't be read, such as one with an
//! unregistered algorithm (RFC 8152, section 4.1; RFC 9052, section 8.5.2).

ghost use Rattle.std.specs.Prelude.{◌≡◌, [], map, IfOk, IfErr};
ghost use Rattle.coset_value.specs.View.{value_item};
ghost use Rattle.coset_codec.specs.Alone.{IsReadAlone};
ghost use Rattle.coset_codec.specs.Results.{ReadsSlice};
ghost use Rattle.coset_codec.specs.declared.error.CoseError.TheVariants.{OutOfMemory};
ghost use Rattle.coset_core.specs.Headers.{signature};
ghost use Rattle.coset_core.specs.Views.{signature_view};
ghost use Rattle.coset_recipient.specs.Encrypt.{encrypt_view};
ghost use Rattle.coset_recipient.specs.Recipient.{recipient};
ghost use Rattle.coset_recipient.specs.RecipientViews.{recipient_view};
ghost use Rattle.coset_sign.specs.Sign.{sign_view};
ghost use Rattle.example_uses.specs.ReadableParts.{AreRead, EachIsRead, IsNoList, encrypt_without, list_view, sign_without, with_list};

use coset::cbor::value::Value;
use coset::{
    CoseEncrypt, CoseError, CoseRecipient, CoseSign, CoseSignature, Header, ProtectedBstr, Result,
};
use coset_codec::laws::refused_describes_nothing;
use coset_codec::read::{Decoder, decode_array};
use coset_codec::traits::whole_item;
use coset_codec::{FromPull, ItemSource};
use std::alloc::Global;

/// The elements of a message with a list: both headers, the content, and the items of the list.
type Parts = (ProtectedBstr, (Header, (Option<Vec<u8>>, (Vec<Value>, ()))));

/// Decodes the elements of a message with a list.
fn parts(alloc: Global, bytes: &[u8]) -> Result<Parts>
    ensures { ReadsSlice with_list list_view bytes.now result }
{
    let item = whole_item(bytes)?;
    let mut input = Decoder::new(ItemSource::Borrowed(item));
    decode_array(alloc, &mut input, "array with 4 items")
}

/// Returns the value that an item describes, or the reason why it describes none.
fn read_alone<T: FromPull + Drop>(alloc: Global, item: Value) -> Result<Result<T>>
    ensures alone { IfOk result (IsReadAlone T.shape T.view (value_item item)) }
    ensures memory { IfErr result (λ e. e ≡ OutOfMemory) }
{
    refused_describes_nothing::<T>();
    match T::from_cbor_value(alloc, item) {
        Err(CoseError::OutOfMemory) => Err(CoseError::OutOfMemory),
        read => Ok(read),
    }
}

/// Reads each item by itself, in order.
fn read_each<T: FromPull + Drop>(alloc: Global, items: Vec<Value>) -> Result<Vec<Result<T>>>
    ensures each { IfOk result (λ all. EachIsRead T.shape T.view (map value_item items.items)
        all.items) }
    ensures memory { IfErr result (λ e. e ≡ OutOfMemory) }
{
    let mut all = Vec::new(alloc);
    for item in items {
        all.push(read_alone(alloc, item)?)?;
    }
    Ok(all)
}

/// Decodes a message with signatures, and each of its signatures by itself.
///
/// Returns the message without its signatures. Besides, it returns for each signature, in order,
/// its value or the error in reading it.
///
/// # Errors
/// - A fault in bytes that aren't an array of headers, a payload and a list.
/// - `OutOfMemory` if an allocation fails.
pub fn readable_signatures(
    alloc: Global,
    bytes: &[u8],
) -> Result<(CoseSign, Vec<Result<CoseSignature>>)>
    ensures read { IfOk result (λ r. AreRead signature signature_view bytes.now
        (sign_without (sign_view r.0)) r.1.items) }
    ensures empty { IfOk result (λ r. (sign_view r.0).signatures ≡ []) }
    ensures refused { IfErr result (λ e. IsNoList bytes.now e) }
{
    let (ProtectedBstr(protected), (unprotected, (payload, (items, ())))) = parts(alloc, bytes)?;
    let signatures = read_each(alloc, items)?;
    let message = CoseSign {
        protected,
        unprotected,
        payload,
        signatures: Vec::new(alloc),
    };
    Ok((message, signatures))
}

/// Decodes an encrypted message with recipients, and each of its recipients by itself.
///
/// Returns the message without its recipients. Besides, it returns for each recipient, in order,
/// its value or the error in reading it.
///
/// # Errors
/// - A fault in bytes that aren't an array of headers, a ciphertext and a list.
/// - `OutOfMemory` if an allocation fails.
pub fn readable_recipients(
    alloc: Global,
    bytes: &[u8],
) -> Result<(CoseEncrypt, Vec<Result<CoseRecipient>>)>
    ensures read { IfOk result (λ r. AreRead recipient recipient_view bytes.now
        (encrypt_without (encrypt_view r.0)) r.1.items) }
    ensures empty { IfOk result (λ r. (encrypt_view r.0).recipients ≡ []) }
    ensures refused { IfErr result (λ e. IsNoList bytes.now e) }
{
    let (ProtectedBstr(protected), (unprotected, (ciphertext, (items, ())))) = parts(alloc, bytes)?;
    let recipients = read_each(alloc, items)?;
    let message = CoseEncrypt {
        protected,
        unprotected,
        ciphertext,
        recipients: Vec::new(alloc),
    };
    Ok((message, recipients))
}
