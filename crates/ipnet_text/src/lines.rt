//! Texts of lines: the first line of a text, the complete lines at the front of bytes, and networks as lines.
ghost use Rattle.std.specs.Prelude.{◌≡◌, ◌≢◌, ℕ, ◌<◌, ◌≤◌, List, [], ◌∷◌, ◌++◌, length, take, map, true, false};
ghost use Rattle.std.specs.Prelude.{OnOk, IfOk, string_bytes, slice_index};
ghost use Rattle.ipnet.specs.CanonicalTexts.{canonical_text};
ghost use Rattle.ipnet.specs.Lines.{lines_of};
ghost use Rattle.ipnet.specs.NetworkOf.{ip_network};
ghost use Rattle.ipnet_text.specs.LineTexts.{text_of_lines};

use ipnet::IpNet;
use memchr::memrchr;
use std::alloc::{AllocError, Global};

/// The first line of a text that is not empty, and the text after its end. The line is without its "\n".
///
/// ```text
/// "10.0.0.0/8\n\nx" gives "10.0.0.0/8" and "\nx"; "x" gives "x" and ""
/// ```
pub fn first_line(text: &str) -> (&str, &str)
    requires { 0 < length text.now }
    ensures lines { lines_of text.now ≡ result.0.now ∷ lines_of result.1.now }
    ensures shorter { length result.1.now < length text.now }
{
    match text.split_once('\n') {
        Some(cut) => cut,
        None => (text, ""),
    }
}

/// The length of the complete lines at the front of the bytes, or of all bytes if the input has ended. `more` says
/// that bytes may come after these.
///
/// ```text
/// "a\nb\nc" has complete lines of 4 bytes if more may come, and of 5 if not
/// ```
pub fn lines_len(bytes: &[u8], more: bool) -> usize
    ensures at_most { result ≤ length bytes.now }
    ensures all { more ≡ false → result ≡ length bytes.now }
    ensures closed { more ≡ true → (after : List ℕ) → lines_of (take result bytes.now ++ after)
        ≡ lines_of (take result bytes.now) ++ lines_of after }
    ensures last { more ≡ true → (k : ℕ) → result ≤ k → k < length bytes.now → slice_index bytes.now k ≢ 10 }
{
    if !more {
        return bytes.len();
    }
    match memrchr(b'\n', bytes) {
        Some(end) => end + 1,
        None => 0,
    }
}

/// Appends the network's canonical text and a newline. Fails if memory runs out.
///
/// ```text
/// "fd00::/32\n" and the network 10.0.0.0/8 give "fd00::/32\n10.0.0.0/8\n"
/// ```
pub fn push_line(text: &mut String, network: IpNet) -> Result<(), AllocError>
    ensures { OnOk result
        (string_bytes text.new ≡ (string_bytes text.old ++ canonical_text (ip_network network)) ++ 10 ∷ []) }
{
    text.push_str(network.to_text().as_str())?;
    text.push_str("\n")
}

/// Returns the canonical texts of the networks, one per line. Fails if memory runs out.
///
/// ```text
/// of 10.0.0.0/8 and fd00::/8: "10.0.0.0/8\nfd00::/8\n"
/// ```
pub fn lines_of_networks(alloc: Global, networks: &[IpNet]) -> Result<String, AllocError>
    ensures { IfOk result (λ text. string_bytes text ≡ text_of_lines (map ip_network networks.now)) }
{
    let mut text = String::new(alloc);
    for network in networks {
        push_line(&mut text, *network)?;
    }
    Ok(text)
}
