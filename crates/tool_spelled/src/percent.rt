//! Percent-encoding (RFC 3986, section 2.1).

ghost use Rattle.std.specs.Prelude.{◌≡◌};
ghost use Rattle.tool_spelled.specs.Pieces.{IsFirstPiece, is_of_url};
ghost use Rattle.tool_spelled.specs.declared.pieces.Format.TheVariants.{Percent};

use crate::hexadecimal::byte_at_front;
use crate::part::behind_byte;
use crate::pieces::Next;

/// Returns true if the character stands for itself in the data of a URL. `+` doesn't, because
/// forms write a space so.
fn is_of_url(byte: u8) -> bool
    ensures { result ≡ is_of_url byte }
{
    matches!(byte, b'!'..=b'~')
        && !matches!(
            byte,
            b'"' | b'#' | b'%' | b'+' | b'<' | b'>' | b'\\' | b'^' | b'`'
        )
        && !matches!(byte, b'{' | b'|' | b'}')
}

/// Returns the character or escape at the front of the text.
pub(crate) fn front(text: &[u8]) -> Next<'_>
    ensures { IsFirstPiece Percent text.now result }
{
    if let Some(digits) = behind_byte(text, b'%') {
        return match byte_at_front(digits) {
            Next::Misspelled(offset) => Next::Misspelled(1 + offset),
            front => front,
        };
    }
    match text.split_first() {
        Some((plain, rest)) => {
            if is_of_url(*plain) {
                Next::Byte(*plain, rest)
            } else {
                Next::Misspelled(0)
            }
        }
        None => Next::End,
    }
}
