//! The words of a line.
ghost use Rattle.std.specs.Prelude.{◌≡◌, ◌≤◌, length};
ghost use Rattle.std.specs.Char.{is_ascii_whitespace};
ghost use Rattle.std.specs.List.{position_or_len, prefix_len};
ghost use Rattle.ipnet_lists.specs.Words as words;
ghost use Rattle.ipnet_lists.specs.Words.{ends_word, leading};

/// Whether the byte ends a word.
fn is_word_end(byte: u8) -> bool
    ensures { result ≡ ends_word byte }
{
    byte.is_ascii_whitespace() || byte == b';' || byte == b','
}

/// The length of the first word of the bytes.
pub(crate) fn word_len(bytes: &[u8]) -> usize
    ensures word { result ≡ position_or_len ends_word bytes.now }
    ensures within { result ≤ length bytes.now }
{
    for index in 0..bytes.len() {
        if is_word_end(bytes[index]) {
            return index;
        }
    }
    bytes.len()
}

/// The number of bytes before the first word.
fn gap_len(bytes: &[u8]) -> usize
    ensures gap { result ≡ prefix_len ends_word bytes.now }
    ensures within { result ≤ length bytes.now }
{
    for index in 0..bytes.len() {
        if !is_word_end(bytes[index]) {
            return index;
        }
    }
    bytes.len()
}

/// The first word of bytes that begin with one.
pub(crate) fn leading_word(bytes: &[u8]) -> &[u8]
    ensures { result.now ≡ leading bytes.now }
{
    &bytes[..word_len(bytes)]
}

/// The bytes from the second word on, if they begin with a word.
pub(crate) fn after_leading(bytes: &[u8]) -> &[u8]
    ensures { result.now ≡ words.after_leading bytes.now }
{
    let rest = &bytes[word_len(bytes)..];
    &rest[gap_len(rest)..]
}

/// The second word of bytes that begin with one. It is empty if there is none.
pub(crate) fn second_word(bytes: &[u8]) -> &[u8]
    ensures { result.now ≡ words.second_word bytes.now }
{
    leading_word(after_leading(bytes))
}

/// The first two words of bytes that begin with one, and what is between them.
pub(crate) fn two_words(bytes: &[u8]) -> &[u8]
    ensures { result.now ≡ words.two_words bytes.now }
{
    let rest = after_leading(bytes);
    &bytes[..bytes.len() - rest.len() + word_len(rest)]
}

/// The bytes from their first word on.
pub(crate) fn from_word(bytes: &[u8]) -> &[u8]
    ensures { result.now ≡ words.from_word bytes.now }
{
    &bytes[gap_len(bytes)..]
}

/// Returns the index of the first blank, or the length of the text if it has none.
///
/// ```text
/// "permit 10.0.0.0/8":  6
/// "permit":             6
/// ```
pub fn first_blank(text: &[u8]) -> usize
    ensures index { result ≡ position_or_len is_ascii_whitespace text.now }
    ensures within { result ≤ length text.now }
{
    for index in 0..text.len() {
        if text[index].is_ascii_whitespace() {
            return index;
        }
    }
    text.len()
}

/// Returns the first word of the text, and the rest without the blanks between. If the text begins with a
/// blank, the first word is empty.
///
/// ```text
/// "permit  10.0.0.0/8":  "permit" and "10.0.0.0/8"
/// "permit":              "permit" and ""
/// ```
pub fn cut_word(text: &[u8]) -> (&[u8], &[u8])
    ensures word { result.0.now ≡ words.leading_word text.now }
    ensures rest { result.1.now ≡ words.after_word text.now }
{
    let end = first_blank(text);
    (&text[..end], text[end..].trim_ascii_start())
}
