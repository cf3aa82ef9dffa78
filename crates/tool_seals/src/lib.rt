//! Which key fits which signature or MAC of a message, and which bytes each covers, for a program
//! that has ciphers.
//!
//! [`described`] writes it as lines of fields with tabs between them. `tools/page` reads them, so
//! their form is fixed. Bytes are in hexadecimal, and `-` is an absent field. A text is in double
//! quotes, with the escapes of Rust's `escape_default`.
//!
//! ```text
//! X <INDEX> <ERROR>
//! S <NAME> <FORM> <ALGORITHM> <STRUCTURE> <PROOF> <REMARKS>
//! K <INDEX> <KID> <VERDICT> <KTY> <CRV> <MEMBER>..
//! E <NAME> <ALGORITHM>
//! .. more
//! ```
//!
//! - `X` is a key that can't be read, by its index in the set. It is skipped (RFC 9052, section 7).
//!   The index is `-` if the keys are neither a key nor a set. These lines come first.
//! - `S` is a signature or MAC. A line `K` for each key that was read follows it.
//! - `E` is a ciphertext. No line `K` follows it.
//! - The last line is `.. more` if there are more than 16 of both.
//!
//! The fields:
//!
//! - `NAME` is `signature`, `signature 0` (of several signers), `tag` or `ciphertext`. Under label
//!   7 it is `countersignature 0 of the message`, under label 11 `version 2 countersignature 0 of
//!   the message`, and under label 12 `version 2 abbreviated countersignature of the message`.
//!   Messages in the payload begin with `layer 1: `, `layer 2: ` or `layer 3: `.
//! - `FORM` is `sign` or `mac`.
//! - `ALGORITHM` is that of the protected header: the number, the text, or `-`.
//! - `STRUCTURE` is the `Sig_structure` or the `MAC_structure` (RFC 8152, sections 4.4 and 6.3), or
//!   the `Countersign_structure` (RFC 9338, section 3.3). It is `-` if the payload is detached. It
//!   is also `-` for an abbreviated countersignature of a message without a signature or MAC of
//!   its own.
//! - `PROOF` is the signature or the MAC.
//! - `REMARKS` is `critical` if a header of the layer or of a recipient lists critical labels, and
//!   `both` if a label is in both headers of the layer (RFC 9052, sections 3.1 and 3). The headers
//!   of the message count for a signature of a `COSE_Sign`. It is `critical,both` for both, and `-`
//!   for neither. The library's verifier of web tokens refuses a layer with such a label twice, and
//!   critical labels that it doesn't know.
//! - `VERDICT` is `fits` or the reason against the key: `algorithm`, `alg`, `kty`, `crv`, `length`,
//!   `key_ops` or `kid`. See [`Verdict`].
//! - `KTY` and `CRV` are a number or a text.
//! - `MEMBER` is `x=HEX` and `y=HEX` for EC2 and OKP keys, `n=HEX` and `e=HEX` for RSA, `k=HEX` for
//!   symmetric keys. If `y` is the sign of a compressed point, it is `y=sign0` or `y=sign1`. No
//!   other member is written, so none that is private.
#![tactic(auto)]

mod countersigned;
mod keys;
mod message;
mod own;
mod remarks;
mod seal;
mod seals;
mod text;
mod verdict;

pub use keys::{Keys, keys_from_slice};
pub use remarks::Remarks;
pub use seal::{Part, Seal};
pub use seals::{Seals, seals_of};
pub use text::described;
pub use verdict::{Verdict, judge};
