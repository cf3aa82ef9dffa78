//! The nonce of an encrypted layer (RFC 9052, section 3.1).

ghost use Rattle.std.specs.Prelude.{◌≡◌, ◌≤◌, ◌<◌, [], length, option_map, take};
ghost use Rattle.cwt_ring.specs.Nonce.{nonce_of, padded, xored};

/// The length of the longest nonce.
const MOST: usize = 13;

/// The nonce of a layer: at most 13 bytes.
#[derive(Clone, Copy, Debug)]
pub struct Nonce {
    bytes: [u8; 13],
    len: usize,
    ghost within: { len ≤ 13 },
}

impl Nonce {
    /// Returns the nonce of an algorithm that has none.
    pub(crate) fn empty() -> Nonce
        ensures { take result.len result.bytes ≡ [] }
    {
        Nonce {
            bytes: [0; MOST],
            len: 0,
        }
    }

    /// Returns the bytes of the nonce.
    pub fn as_slice(&self) -> &[u8]
        ensures { result.now ≡ take self.now.len self.now.bytes }
    {
        &self.bytes[..self.len]
    }
}

/// Returns the byte at this place of the Partial IV, which is padded on the left with zeros.
fn padded(partial_iv: &[u8], len: usize, place: usize) -> u8
    requires short { length partial_iv.now ≤ len }
    requires within { place < len }
    ensures { result ≡ padded partial_iv.now len place }
{
    let zeros = len - partial_iv.len();
    if place < zeros {
        0
    } else {
        partial_iv[place - zeros]
    }
}

/// Returns the IV as a nonce.
fn copied(iv: &[u8]) -> Nonce
    requires { length iv.now ≤ 13 }
    ensures { take result.len result.bytes ≡ iv.now }
{
    let mut bytes = [0; MOST];
    let len = iv.len();
    for place in 0..len {
        bytes[place] = iv[place];
    }
    Nonce { bytes, len }
}

/// Returns the padded Partial IV XOR the Base IV.
fn xored(partial_iv: &[u8], base_iv: &[u8]) -> Nonce
    requires within { length base_iv.now ≤ 13 }
    requires short { length partial_iv.now ≤ length base_iv.now }
    ensures { take result.len result.bytes ≡ xored partial_iv.now base_iv.now }
{
    let mut bytes = [0; MOST];
    let len = base_iv.len();
    for place in 0..len {
        bytes[place] = base_iv[place] ^ padded(partial_iv, len, place);
    }
    Nonce { bytes, len }
}

/// Returns the nonce of this length, for a layer with this IV or Partial IV and a key with this
/// Base IV. Returns `None` if there is none.
pub(crate) fn nonce_for(iv: &[u8], partial_iv: &[u8], base_iv: &[u8], len: usize) -> Option<Nonce>
    requires { len ≤ 13 }
    ensures { option_map (λ n. take n.len n.bytes) result
        ≡ nonce_of iv.now partial_iv.now base_iv.now len }
{
    if iv.len() == len {
        return Some(copied(iv));
    }
    if iv.is_empty() && !partial_iv.is_empty() && base_iv.len() == len && partial_iv.len() <= len {
        return Some(xored(partial_iv, base_iv));
    }
    None
}
