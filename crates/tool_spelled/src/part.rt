//! Parts of a text.

ghost use Rattle.std.specs.Prelude.{◌∷◌, ◌≡◌, ◌++◌, IfSome, List, ℕ};
ghost use Rattle.tool_spelled.specs.Framed.{IsPart};

/// Returns true if the character is white space.
pub(crate) fn is_space(byte: u8) -> bool {
    matches!(byte, b'\t' | b'\n' | 0x0c | b'\r' | b' ')
}

/// Returns the text after the white space at the front.
pub(crate) fn without_front(text: &[u8]) -> &[u8]
    ensures { (front : List ℕ) × (text.now ≡ front ++ result.now) }
{
    let mut left = text;
    while let Some((first, rest)) = left.split_first() {
        if !is_space(*first) {
            return left;
        }
        left = rest;
    }
    left
}

/// Returns the text before the white space at the end.
pub(crate) fn without_end(text: &[u8]) -> &[u8]
    ensures { (back : List ℕ) × (text.now ≡ result.now ++ back) }
{
    let mut left = text;
    while let Some((last, rest)) = left.split_last() {
        if !is_space(*last) {
            return left;
        }
        left = rest;
    }
    left
}

/// Returns the text after the word, if the text begins with it. The word's letters may be of
/// either case.
pub(crate) fn behind_word<'a>(text: &'a [u8], word: &[u8]) -> Option<&'a [u8]>
    ensures { IfSome result (λ t. (front : List ℕ) × (text.now ≡ front ++ t.now)) }
{
    let (front, rest) = text.split_at(word.len().min(text.len()));
    if front.eq_ignore_ascii_case(word) {
        Some(rest)
    } else {
        None
    }
}

/// Returns the text after its first character, if that is `byte`.
pub(crate) fn behind_byte(text: &[u8], byte: u8) -> Option<&[u8]>
    ensures { IfSome result (λ t. text.now ≡ byte ∷ t.now) }
{
    match text.split_first() {
        Some((first, rest)) if *first == byte => Some(rest),
        _ => None,
    }
}

/// Returns the text after a byte order mark of UTF-8, or the whole text if it doesn't begin so.
pub(crate) fn without_mark(text: &[u8]) -> &[u8]
    ensures { (front : List ℕ) × (text.now ≡ front ++ result.now) }
{
    match behind_word(text, b"\xef\xbb\xbf") {
        Some(rest) => rest,
        None => text,
    }
}

/// Returns the text from the offset `start` to the offset `end`, or `None` if there is no such
/// part.
pub(crate) fn cut(text: &[u8], start: usize, end: usize) -> Option<&[u8]>
    ensures { IfSome result (λ t. IsPart text.now start t.now) }
{
    let count = end.checked_sub(start)?;
    if text.len() < end {
        return None;
    }
    let (_, behind) = text.split_at(start);
    let (found, _) = behind.split_at(count);
    Some(found)
}

/// Returns the text before `behind`, which is the end of it.
pub(crate) fn before<'a>(text: &'a [u8], behind: &[u8]) -> &'a [u8]
    requires { (front : List ℕ) × (text.now ≡ front ++ behind.now) }
    ensures { text.now ≡ result.now ++ behind.now }
{
    let (front, _) = text.split_at(text.len() - behind.len());
    front
}
