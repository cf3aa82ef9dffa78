//! The kinds of messages.

ghost use Rattle.std.specs.Prelude.{◌≡◌};
ghost use Rattle.coset_seen.specs.Kinds.{elements_of, has_recipients, tag_of};

/// A kind of message without a list of signatures (RFC 8152, sections 4.2, 5 and 6).
#[derive(Clone, Copy, Debug, PartialEq, Eq)]
pub enum Kind {
    /// `COSE_Sign1`: a message with one signature.
    Sign1,
    /// `COSE_Mac0`: a message with a MAC.
    Mac0,
    /// `COSE_Encrypt0`: an encrypted message.
    Encrypt0,
    /// `COSE_Mac`: a message with a MAC and recipients. [`see`](crate::see) finds none.
    Mac,
    /// `COSE_Encrypt`: an encrypted message with recipients. [`see`](crate::see) finds none.
    Encrypt,
}

impl Kind {
    /// Returns the number of the message's tag (RFC 8152, section 2).
    pub(crate) fn tag(self) -> u64
        ensures { result ≡ tag_of self }
    {
        match self {
            Kind::Sign1 => 18,
            Kind::Mac0 => 17,
            Kind::Encrypt0 => 16,
            Kind::Mac => 97,
            Kind::Encrypt => 96,
        }
    }

    /// Returns the number of the message's elements.
    pub(crate) fn elements(self) -> u64
        ensures { result ≡ elements_of self }
    {
        match self {
            Kind::Encrypt0 => 3,
            Kind::Sign1 | Kind::Mac0 | Kind::Encrypt => 4,
            Kind::Mac => 5,
        }
    }

    /// Returns true if messages of the kind have recipients.
    pub(crate) fn has_recipients(self) -> bool
        ensures { result ≡ has_recipients self }
    {
        match self {
            Kind::Sign1 | Kind::Mac0 | Kind::Encrypt0 => false,
            Kind::Mac | Kind::Encrypt => true,
        }
    }
}
