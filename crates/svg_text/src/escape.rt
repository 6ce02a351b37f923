//! Any text as a part of a document.
ghost use Rattle.std.specs.Prelude.{◌≡◌, ◌%◌, ◌++◌, ◌||◌, OnOk, map, flat_map, string_bytes};
ghost use Rattle.std.specs.Char.{digit_char};
ghost use Rattle.svg_text.specs.Escapes.{is_reserved, is_plain, turns_writing, is_xml_character, is_referred};
ghost use Rattle.svg_text.specs.Escapes.{octet, pieces_of, piece_text, escaped};

use std::alloc::AllocError;

/// Whether XML reserves the character.
fn is_xml_mark(c: char) -> bool
    ensures { result ≡ is_reserved c }
{
    c == '&' || c == '<' || c == '>' || c == '"' || c == '\''
}

/// Whether the character is written as it is.
fn is_written(c: char) -> bool
    ensures { result ≡ is_plain c }
{
    ' ' <= c && c <= '~' && !is_xml_mark(c) && c != '\\'
}

/// Whether the character turns the direction of writing.
fn is_turn(c: char) -> bool
    ensures { result ≡ turns_writing c }
{
    c == '\u{61c}'
        || ('\u{200e}' <= c && c <= '\u{200f}')
        || ('\u{2028}' <= c && c <= '\u{202e}')
        || ('\u{2066}' <= c && c <= '\u{2069}')
}

/// Whether a document may have the character.
fn is_in_xml(c: char) -> bool
    ensures { result ≡ is_xml_character c }
{
    (c == '\t' || c == '\n' || c == '\r')
        || (' ' <= c && c <= '\u{d7ff}')
        || ('\u{e000}' <= c && c <= '\u{fffd}')
        || ('\u{10000}' <= c && c <= '\u{10ffff}')
}

/// Whether the character is written as a reference to its number.
fn is_numbered(c: char) -> bool
    ensures { result ≡ is_referred c }
{
    is_xml_mark(c) || ('\u{a0}' <= c && is_in_xml(c) && !is_turn(c))
}

/// Whether a reader of a document sees the character itself: otherwise `push_escaped` writes its bytes, each as `\x`
/// and two digits.
///
/// ```text
/// a, < and ü: true; a tab and a backslash: false
/// ```
pub fn is_shown(c: char) -> bool
    ensures { result ≡ (is_plain c || is_referred c) }
{
    is_written(c) || is_numbered(c)
}

/// The last hexadecimal digit of the number.
fn last_digit(number: u8) -> char
    ensures { result ≡ digit_char (number % 16) }
{
    let digit = number % 16;
    if digit < 10 {
        char::from(b'0' + digit)
    } else {
        char::from(b'a' + (digit - 10))
    }
}

/// Appends a backslash and the number of the byte.
fn push_octet(text: &mut String, byte: u8) -> Result<(), AllocError>
    ensures { OnOk result (string_bytes text.new ≡ string_bytes text.old ++ piece_text (octet byte)) }
{
    text.push_str("\\x")?;
    text.push(last_digit(byte / 16))?;
    text.push(last_digit(byte))
}

/// Appends the bytes, each as a backslash and its number.
fn push_octets(text: &mut String, bytes: &[u8]) -> Result<(), AllocError>
    ensures { OnOk result (string_bytes text.new
        ≡ string_bytes text.old ++ flat_map piece_text (map octet bytes.now)) }
{
    for byte in bytes {
        push_octet(text, *byte)?;
    }
    Ok(())
}

/// Appends the pieces of the character.
fn push_pieces(text: &mut String, c: char) -> Result<(), AllocError>
    ensures { OnOk result (string_bytes text.new ≡ string_bytes text.old ++ flat_map piece_text (pieces_of c)) }
{
    if is_written(c) {
        return text.push(c);
    }
    if is_numbered(c) {
        let number = u32::from(c);
        return write!(text, "&#{number};");
    }
    let mut buffer = [0; 4];
    push_octets(text, c.encode_utf8(&mut buffer).as_bytes())
}

/// Appends the text, escaped: in printable ASCII, and with the characters that XML reserves as references to their
/// numbers. So it can be the content of an element or the value of an attribute.
///
/// A character from U+00A0 on is written as a reference too, except U+FFFE, U+FFFF and those that turn the direction of
/// writing. These, control characters and the backslash are written byte by byte, each as `\x` and two digits.
///
/// # Errors
///
/// Memory runs out. Then `text` has a part of the escaped text at its end.
///
/// ```text
/// a<b:                   a&#60;b
/// ü, a tab, a backslash:  &#252;\x09\x5c
/// ```
pub fn push_escaped(text: &mut String, value: &str) -> Result<(), AllocError>
    ensures { OnOk result (string_bytes text.new ≡ string_bytes text.old ++ escaped value.now) }
{
    for c in value.chars() {
        push_pieces(text, c)?;
    }
    Ok(())
}
