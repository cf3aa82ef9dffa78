//! The common calls of builders of messages.

use coset::{
    CoseEncrypt, CoseEncrypt0, CoseEncrypt0Builder, CoseEncryptBuilder, CoseMac, CoseMac0,
    CoseMac0Builder, CoseMacBuilder, CoseRecipient, CoseRecipientBuilder, CoseSign, CoseSign1,
    CoseSign1Builder, CoseSignBuilder, CoseSignature, Result,
};

/// A builder.
pub trait Builder: Sized + Drop {
    type Made: Drop;

    /// Returns the value that was built.
    fn made(self) -> Self::Made;
}

/// Returns the value that was built, or the builder's error.
pub fn built<B: Builder, E: Drop>(
    made: std::result::Result<B, E>,
) -> std::result::Result<B::Made, E> {
    match made {
        Ok(builder) => Ok(builder.made()),
        Err(error) => Err(error),
    }
}

/// A builder of a value with several parts of one type: signatures, or recipients.
pub trait PartsBuilder: Builder {
    type Part: Drop;

    /// Appends a part, and returns the builder.
    ///
    /// # Errors
    /// `OutOfMemory` if an allocation fails.
    fn and(self, part: Self::Part) -> Result<Self>;
}

/// Appends these parts, and returns the builder.
///
/// # Errors
/// `OutOfMemory` if an allocation fails.
pub fn and_each<B: PartsBuilder>(mut builder: B, parts: Vec<B::Part>) -> Result<B> {
    for part in parts {
        builder = builder.and(part)?;
    }
    Ok(builder)
}

impl Builder for CoseSign1Builder {
    type Made = CoseSign1;

    fn made(self) -> CoseSign1 {
        self.build()
    }
}

impl Builder for CoseSignBuilder {
    type Made = CoseSign;

    fn made(self) -> CoseSign {
        self.build()
    }
}

impl Builder for CoseMac0Builder {
    type Made = CoseMac0;

    fn made(self) -> CoseMac0 {
        self.build()
    }
}

impl Builder for CoseMacBuilder {
    type Made = CoseMac;

    fn made(self) -> CoseMac {
        self.build()
    }
}

impl Builder for CoseEncrypt0Builder {
    type Made = CoseEncrypt0;

    fn made(self) -> CoseEncrypt0 {
        self.build()
    }
}

impl Builder for CoseEncryptBuilder {
    type Made = CoseEncrypt;

    fn made(self) -> CoseEncrypt {
        self.build()
    }
}

impl Builder for CoseRecipientBuilder {
    type Made = CoseRecipient;

    fn made(self) -> CoseRecipient {
        self.build()
    }
}

impl PartsBuilder for CoseSignBuilder {
    type Part = CoseSignature;

    fn and(self, signature: CoseSignature) -> Result<CoseSignBuilder> {
        self.add_signature(signature)
    }
}

impl PartsBuilder for CoseMacBuilder {
    type Part = CoseRecipient;

    fn and(self, recipient: CoseRecipient) -> Result<CoseMacBuilder> {
        self.add_recipient(recipient)
    }
}

impl PartsBuilder for CoseEncryptBuilder {
    type Part = CoseRecipient;

    fn and(self, recipient: CoseRecipient) -> Result<CoseEncryptBuilder> {
        self.add_recipient(recipient)
    }
}

impl PartsBuilder for CoseRecipientBuilder {
    type Part = CoseRecipient;

    fn and(self, recipient: CoseRecipient) -> Result<CoseRecipientBuilder> {
        self.add_recipient(recipient)
    }
}
