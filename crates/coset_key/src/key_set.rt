//! Sets of keys (RFC 8152, section 7).

ghost use Rattle.std.specs.Prelude.{◌≡◌, [], IfOk, IfErr};
ghost use Rattle.coset_codec.specs.declared.error.CoseError.TheVariants.{OutOfMemory};
ghost use Rattle.coset_codec.specs.Alone.{AreReadAlone, elements};
ghost use Rattle.coset_codec.specs.Results.{AllocatesForItems, IsRefused};
ghost use Rattle.coset_key.specs.Keys.{key, key_view, key_set, key_set_view};

use crate::key::CoseKey;
use coset_codec::Codec;
use coset_codec::read::{Decoder, each_from_slice, read_list};
use coset_codec::write::Array;
use coset_label::{Encode, Result};
use std::alloc::{AllocError, Global};

/// A set of keys, in order: `COSE_KeySet` (RFC 8152, section 7).
///
/// ```cddl
/// COSE_KeySet = [ * COSE_Key ]
/// ```
///
/// RFC 8152 requires at least one key. A set without keys can be read and written too.
#[derive(Debug, Drop, PartialEq, Eq)]
pub struct CoseKeySet(pub Vec<CoseKey>);

/// The same as [`CoseKeySet::clone`], for generic code.
impl Clone for CoseKeySet {
    ghost is_clone = { λ keys copy. key_set_view copy ≡ key_set_view keys };

    fn clone(&self) -> Result<CoseKeySet, AllocError> {
        Ok(CoseKeySet(self.0.clone()?))
    }
}

impl CoseKeySet {
    /// Returns a set without keys. Allocates nothing.
    pub fn new(alloc: Global) -> CoseKeySet
        ensures { key_set_view result ≡ [] }
    {
        CoseKeySet(Vec::new(alloc))
    }

    /// Decodes each key of an encoded set by itself, in order.
    ///
    /// Each element of the result is a key, or the error in reading it. So a key of an unknown type
    /// doesn't affect the others (RFC 8152, section 7), while `from_slice` refuses the whole set.
    ///
    /// # Errors
    /// - `DecodeFailed`, `ExtraneousData` or `UnexpectedItem` if the bytes are not one array.
    /// - `OutOfMemory` if an allocation fails. This happens only if the bytes are one item.
    pub fn each_from_slice(alloc: Global, bytes: &[u8]) -> Result<Vec<Result<CoseKey>>>
        ensures each { IfOk result (λ keys. AreReadAlone key key_view bytes.now keys.items) }
        ensures refused { IfErr result (λ e. IsRefused elements bytes.now e) }
        ensures memory { AllocatesForItems bytes.now result }
    {
        each_from_slice(alloc, bytes)
    }

    /// Returns a copy of the set.
    ///
    /// # Errors
    /// `OutOfMemory` if an allocation fails.
    pub fn clone(&self) -> Result<CoseKeySet>
        ensures copy { IfOk result (λ s. key_set_view s ≡ key_set_view self.now) }
        ensures memory { IfErr result (λ e. e ≡ OutOfMemory) }
    {
        Ok(Clone::clone(self)?)
    }
}

impl Codec for CoseKeySet {
    ghost use Rattle.coset_codec.specs.EqDecides.{lists_decides};
    ghost use Rattle.coset_key.specs.Equality.{key_decides};
    ghost use Rattle.std.specs.Prelude.{List};
    ghost use Rattle.coset_key.specs.Keys.{KeyView};
    ghost use Rattle.coset_key.specs.KeyLaws.{key_set_laws};

    ghost View = { List KeyView };

    ghost view = { key_set_view };

    ghost shape = { key_set };

    ghost laws = { key_set_laws };

    ghost equal = { λ a b. lists_decides key_view _ key_decides a.0.items b.0.items };

    /// Reads a set of keys, in order.
    fn read(alloc: Global, input: &mut Decoder<'_>) -> Result<CoseKeySet> {
        Ok(CoseKeySet(read_list(alloc, input, "array")?))
    }

    fn write(&self, alloc: Global, out: &mut Vec<u8>) -> Result<()> {
        Array(&self.0).append(alloc, out)
    }
}
