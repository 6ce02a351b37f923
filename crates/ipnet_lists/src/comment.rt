//! The comments of lines, in all kinds of lists: how a comment begins, and whether it hides an entry.
ghost use Rattle.std.specs.Prelude.{◌≡◌, ◌==◌, ◌↔◌, ◌<◌, length, IsTrue};
ghost use Rattle.std.specs.List.{before_first};
ghost use Rattle.ipnet_lists.specs.Comments as comments;
ghost use Rattle.ipnet_lists.specs.Comments.{Opens, IsCommentAt, BeginsWithEntry, IsRuleStart, IsAddressesWord};
ghost use Rattle.ipnet_lists.specs.Comments.{BeginsWithAction, BeginsWithBound, BeginsWithPrefixList};
ghost use Rattle.ipnet_lists.specs.Comments.{BeginsWithPrefixWords, BeginsWithRouting, BeginsWithRule, BeginsWithVrp};
ghost use Rattle.ipnet_lists.specs.Comments.{HidesEntry, IsAsWord, IsDigits};
ghost use Rattle.ipnet_lists.specs.Lists.{IsContents};

use crate::bytes::{are_digits, has_byte};
use crate::cause_words::is_entry_word;
use crate::word::{after_leading, from_word, leading_word, second_word, two_words};
use memchr::{memchr, memchr2};

/// Whether the byte at this index of the line begins a comment.
fn opens_comment(line: &[u8], index: usize) -> bool
    requires { index < length line.now }
    ensures { IsTrue result ↔ Opens line.now index }
{
    match line[index] {
        b'#' => true,
        b';' => index == 0 || line[index - 1].is_ascii_whitespace(),
        _ => false,
    }
}

/// Returns the index at which the comment of the line begins, or the length of the line if it has none.
///
/// ```text
/// of b"10.0.0.1 # ours": 9; of b"10.0.0.1;x": 10
/// ```
pub fn comment_start(line: &[u8]) -> usize
    ensures { IsCommentAt line.now result }
{
    let Some(first) = memchr2(b'#', b';', line) else {
        return line.len();
    };
    for index in first..line.len() {
        if opens_comment(line, index) {
            return index;
        }
    }
    line.len()
}

/// The bytes before the first "#", or all of them.
fn before_hash(bytes: &[u8]) -> &[u8]
    ensures { result.now ≡ before_first (λ b. b == 35) bytes.now }
{
    match memchr(b'#', bytes) {
        Some(end) => &bytes[..end],
        None => bytes,
    }
}

/// The text of the comment: all from its first word up to a "#".
fn comment_text(comment: &[u8]) -> &[u8]
    ensures { result.now ≡ comments.comment_text comment.now }
{
    from_word(before_hash(comment))
}

/// Whether the first word of the text is an entry, or the first two words are a range.
fn begins_with_entry(text: &[u8]) -> bool
    ensures { IsTrue result ↔ BeginsWithEntry text.now }
{
    is_entry_word(leading_word(text)) || is_entry_word(two_words(text))
}

/// Whether the word is the first of a rule or of a change, or comes before an address of a rule.
fn is_rule_start(word: &[u8]) -> bool
    ensures { IsTrue result ↔ IsRuleStart word.now }
{
    word == b"permit".as_slice()
        || word == b"deny".as_slice()
        || word == b"+".as_slice()
        || word == b"-".as_slice()
        || word == b"host".as_slice()
}

/// Whether the word names addresses in the rules of a router, or is the protocol before them.
fn is_addresses_word(word: &[u8]) -> bool
    ensures { IsTrue result ↔ IsAddressesWord word.now }
{
    word == b"any".as_slice()
        || word == b"all".as_slice()
        || word == b"default".as_slice()
        || word == b"host".as_slice()
        || word == b"ip".as_slice()
}

/// Whether the text begins with a rule or a change.
fn begins_with_action(text: &[u8]) -> bool
    ensures { IsTrue result ↔ BeginsWithAction text.now }
{
    if !is_rule_start(leading_word(text)) {
        return false;
    }
    let rest = after_leading(text);
    begins_with_entry(rest) || is_addresses_word(leading_word(rest))
}

/// Whether the text begins with the words of a router's prefix list.
fn begins_with_prefix_list(text: &[u8]) -> bool
    ensures { IsTrue result ↔ BeginsWithPrefixList text.now }
{
    let word = leading_word(text);
    if word != b"ip".as_slice() && word != b"ipv6".as_slice() {
        return false;
    }
    leading_word(after_leading(text)) == b"prefix-list".as_slice()
}

/// Whether the text is decimal digits.
fn is_number(text: &[u8]) -> bool
    ensures { IsTrue result ↔ IsDigits text.now }
{
    !text.is_empty() && are_digits(text)
}

/// Whether the text begins with a bound or a number of a rule in a prefix list.
fn begins_with_bound(text: &[u8]) -> bool
    ensures { IsTrue result ↔ BeginsWithBound text.now }
{
    let word = leading_word(text);
    if word != b"le".as_slice() && word != b"ge".as_slice() && word != b"seq".as_slice() {
        return false;
    }
    is_number(second_word(text))
}

/// Whether the text begins with words of a router's prefix list.
fn begins_with_prefix_words(text: &[u8]) -> bool
    ensures { IsTrue result ↔ BeginsWithPrefixWords text.now }
{
    begins_with_prefix_list(text) || begins_with_bound(text)
}

/// Whether the word is the number of an AS.
fn is_as_word(word: &[u8]) -> bool
    ensures { IsTrue result ↔ IsAsWord word.now }
{
    match word.strip_prefix(b"AS") {
        Some(digits) => is_number(digits),
        None => is_number(word),
    }
}

/// Whether the text begins with a VRP: the number of an AS, and an entry.
fn begins_with_vrp(text: &[u8]) -> bool
    ensures { IsTrue result ↔ BeginsWithVrp text.now }
{
    if !is_as_word(leading_word(text)) {
        return false;
    }
    begins_with_entry(after_leading(text))
}

/// Whether the text begins with words of a router's prefix list, or with a VRP.
fn begins_with_routing(text: &[u8]) -> bool
    ensures { IsTrue result ↔ BeginsWithRouting text.now }
{
    begins_with_prefix_words(text) || begins_with_vrp(text)
}

/// Whether the text begins with a rule, a change, words of a router's prefix list, or a VRP.
fn begins_with_rule(text: &[u8]) -> bool
    ensures { IsTrue result ↔ BeginsWithRule text.now }
{
    begins_with_action(text) || begins_with_routing(text)
}

/// Whether the comment begins with ";", and its text with an entry, or with a line of another kind of list.
fn hides_entry(comment: &[u8]) -> bool
    ensures { IsTrue result ↔ HidesEntry comment.now }
{
    if comment.is_empty() || comment[0] != b';' {
        return false;
    }
    let text = comment_text(comment);
    begins_with_entry(text) || begins_with_rule(text)
}

/// Returns the contents of the line: the text before its comment, or the whole line if the comment hides an entry, a
/// rule, a change or a VRP, or if a carriage return is between other bytes than blanks. Otherwise a line that is only a
/// comment has no contents, whatever is in the comment.
///
/// ```text
/// of b" 10.0.0.1 # ours\r": b"10.0.0.1"
/// of b"; 10.0.0.1": nothing
/// of b"10.0.0.1 ; 10.0.0.2", b"permit ::/0 ; deny ::1" and b"- ::/0 ; + ::1": all of it
/// of b"10.0.0.1 # ours\r10.0.0.2" and b"# ours\r10.0.0.2": all of it
/// ```
pub fn contents_of(line: &[u8]) -> &[u8]
    ensures { IsContents line.now result.now }
{
    let start = comment_start(line);
    let whole = line.trim_ascii();
    if start == line.len() {
        return whole;
    }
    if has_byte(whole, b'\r') {
        return whole;
    }
    let text = line[..start].trim_ascii();
    if text.is_empty() {
        return text;
    }
    if hides_entry(&line[start..]) {
        return whole;
    }
    text
}
