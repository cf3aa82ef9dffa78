//! The arguments of calls that take closures.

/// The kind of closure that a call takes.
#[derive(Clone, Copy, PartialEq, Eq)]
enum Closure {
    /// None: the call returns the bytes that a closure would get.
    None,
    /// A closure that accepts a signature or a tag, or refuses it.
    Judges,
    /// A closure that makes a plaintext, or refuses.
    Opens,
    /// A closure that makes a signature, a tag or a ciphertext.
    Creates,
    /// A closure that makes such bytes, or refuses.
    MayCreate,
}

/// The arguments of a call, in this order:
///
/// - `yes` or `no`, if its closure may refuse.
/// - The message.
/// - A signature for `CoseSign`, a context for `CoseRecipient`.
/// - The content, if the message has none of its own.
/// - `external_aad`.
/// - The closure's result, if it makes something.
/// - The change of the protected header.
#[derive(Clone, Copy, PartialEq, Eq)]
pub struct Shape {
    closure: Closure,
    /// Whether the call gets content: a detached payload or ciphertext, or a plaintext.
    pub content: bool,
}

impl Shape {
    /// Returns the shape of the call of that name.
    pub fn of(name: &str) -> Option<Shape> {
        let (closure, content) = match name {
            "tbs_data" | "tbm" | "aad" => (Closure::None, false),
            "tbs_detached_data" | "tbm_detached" => (Closure::None, true),
            "verify_signature" | "verify_tag" | "verify_payload_tag" => (Closure::Judges, false),
            "verify_detached_signature" | "verify_detached_tag" => (Closure::Judges, true),
            "decrypt" | "decrypt_ciphertext" => (Closure::Opens, false),
            "decrypt_detached" => (Closure::Opens, true),
            "create_signature" | "create_tag" | "add_created_signature" => (
                Closure::Creates,
                false,
            ),
            "create_detached_signature"
            | "create_detached_tag"
            | "add_detached_signature"
            | "create_ciphertext"
            | "create_detached_ciphertext" => (Closure::Creates, true),
            "try_create_signature" | "try_create_tag" | "try_add_created_signature" => (
                Closure::MayCreate,
                false,
            ),
            "try_create_detached_signature"
            | "try_create_detached_tag"
            | "try_add_detached_signature"
            | "try_create_ciphertext"
            | "try_create_detached_ciphertext" => (Closure::MayCreate, true),
            _ => return None,
        };
        Some(Shape { closure, content })
    }

    /// Returns true if the closure may refuse.
    pub fn may_refuse(&self) -> bool {
        matches!(
            self.closure,
            Closure::Judges | Closure::Opens | Closure::MayCreate
        )
    }

    /// Returns true if the closure makes bytes.
    pub fn makes(&self) -> bool {
        matches!(
            self.closure,
            Closure::Opens | Closure::Creates | Closure::MayCreate
        )
    }

    /// Returns true if the call is one of the builder.
    pub fn creates(&self) -> bool {
        matches!(self.closure, Closure::Creates | Closure::MayCreate)
    }
}
