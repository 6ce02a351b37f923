//! The names of a firewall's sets.
ghost use Rattle.std.specs.Prelude.{◌≡◌, ◌≢◌, ◌↔◌, codes, IsTrue};
ghost use Rattle.std.specs.List.{list_all};
ghost use Rattle.ipnet_lists.specs.Causes.{IsCutAt};
ghost use Rattle.netset_forms.specs.Layouts.{new_name};
ghost use Rattle.netset_forms.specs.SetWords.{is_name_start, is_name_byte, IsNameWord, IsNftFamily, IsNftWord};
ghost use Rattle.netset_forms.specs.SetWords.{AreNftWords, AreFamilyAndWords, IsNftName, IsIpsetName, AreApart};
ghost use Rattle.netset_forms.specs.SetWords.{IsFrrName, is_symbol_byte, IsBirdName, IsBuiltIn, IsTargetName};
ghost use Rattle.netset_forms.specs.SetWords.{IsChainName};

/// The greatest length of a name of a table or a set of nft: the kernel's NFT_NAME_MAXLEN without the zero byte.
const MOST_NFT: usize = 255;

/// The greatest length of a name of a set of ipset: the kernel's IPSET_MAXNAMELEN, without the zero byte and the four
/// bytes of ".new".
const MOST_IPSET: usize = 27;

/// The greatest length of a name of a prefix list of FRR.
const MOST_FRR: usize = 128;

/// The greatest length of a symbol of BIRD.
const MOST_BIRD: usize = 64;

/// The greatest length of a name of a chain or a target of iptables: the kernel's XT_EXTENSION_MAXNAMELEN without the
/// zero byte.
const MOST_CHAIN: usize = 28;

/// Whether the byte may be the first of a name.
fn is_start(byte: u8) -> bool
    ensures { result ≡ is_name_start byte }
{
    byte.is_ascii_alphabetic() || byte == b'_'
}

/// Whether the byte may be in a name.
fn is_in_name(byte: u8) -> bool
    ensures { result ≡ is_name_byte byte }
{
    byte.is_ascii_alphanumeric() || (byte == b'_' || (byte == b'-' || byte == b'.'))
}

/// Whether all bytes may be in a name.
fn are_in_name(bytes: &[u8]) -> bool
    ensures { result ≡ list_all is_name_byte bytes.now }
{
    bytes.iter().all(|byte| is_in_name(*byte))
}

/// Whether the text is a word of a name.
fn is_name_word(text: &[u8]) -> bool
    ensures { IsTrue result ↔ IsNameWord text.now }
{
    match text {
        [] => false,
        [first, rest @ ..] => is_start(*first) && are_in_name(rest),
    }
}

/// Whether the text is a family of tables of nft.
fn is_nft_family(text: &str) -> bool
    ensures { IsTrue result ↔ IsNftFamily text.now }
{
    match text {
        "ip" => true,
        "ip6" => true,
        "inet" => true,
        "arp" => true,
        "bridge" => true,
        "netdev" => true,
        _ => false,
    }
}

/// Whether the text names a table or a set of nft.
fn is_nft_word(text: &str) -> bool
    ensures { IsTrue result ↔ IsNftWord text.now }
{
    text.len() <= MOST_NFT && is_name_word(text.as_bytes())
}

/// Whether the two texts are such names.
fn are_nft_words(table: &str, set: &str) -> bool
    ensures { IsTrue result ↔ AreNftWords table.now set.now }
{
    is_nft_word(table) && is_nft_word(set)
}

/// Whether the text is two such names with a space between.
fn is_table_and_set(text: &str) -> bool
    ensures { IsTrue result ↔ IsCutAt 32 AreNftWords text.now }
{
    match text.split_once(' ') {
        Some((table, set)) => are_nft_words(table, set),
        None => false,
    }
}

/// Whether the first text is a family, and the rest two such names.
fn are_family_and_words(family: &str, rest: &str) -> bool
    ensures { IsTrue result ↔ AreFamilyAndWords family.now rest.now }
{
    is_nft_family(family) && is_table_and_set(rest)
}

/// Returns whether the text names a set of nft: the family of its table, the table and the set, with a space between.
/// The family is `ip`, `ip6`, `inet`, `arp`, `bridge` or `netdev`. The table and the set have at most 255 bytes each: a
/// letter or "_", and then letters, digits, "_", "-" and ".".
///
/// ```text
/// "inet filter allowed":                                              true
/// "allowed", "inet filter", "inet filter a;b", "ip4 filter allowed":  false
/// ```
pub fn is_nft_name(name: &str) -> bool
    ensures { IsTrue result ↔ IsNftName name.now }
{
    match name.split_once(' ') {
        Some((family, rest)) => are_family_and_words(family, rest),
        None => false,
    }
}

/// Returns whether the text names a set of ipset: one word of at most 27 bytes, so that ".new" can follow. A word is a
/// letter or "_", and then letters, digits, "_", "-" and ".".
///
/// ```text
/// "allowed":                     true
/// "", "inet filter allowed":     false
/// ```
pub fn is_ipset_name(name: &str) -> bool
    ensures { IsTrue result ↔ IsIpsetName name.now }
{
    name.len() <= MOST_IPSET && is_name_word(name.as_bytes())
}

/// Returns whether the text names a prefix list of FRR: one word of at most 128 bytes. A word is a letter or "_", and
/// then letters, digits, "_", "-" and ".".
///
/// ```text
/// "allowed", "from-peer.4":  true
/// "", "9", "a b":            false
/// ```
pub fn is_frr_name(name: &str) -> bool
    ensures { IsTrue result ↔ IsFrrName name.now }
{
    name.len() <= MOST_FRR && is_name_word(name.as_bytes())
}

/// Whether the byte may be in a symbol of BIRD.
fn is_in_symbol(byte: u8) -> bool
    ensures { result ≡ is_symbol_byte byte }
{
    byte.is_ascii_alphanumeric() || byte == b'_'
}

/// Whether all bytes may be in a symbol of BIRD.
fn are_in_symbol(bytes: &[u8]) -> bool
    ensures { result ≡ list_all is_symbol_byte bytes.now }
{
    bytes.iter().all(|byte| is_in_symbol(*byte))
}

/// Returns whether the text is a symbol of BIRD: at most 64 bytes, a letter or "_", and then letters, digits and "_".
/// BIRD itself refuses two kinds of these texts: keywords, such as `table`, and 32, 34 or more hexadecimal digits in
/// pairs, which it reads as bytes.
///
/// ```text
/// "ALLOWED4", "_a":  true
/// "", "9", "a-b":    false
/// ```
pub fn is_bird_name(name: &str) -> bool
    ensures { IsTrue result ↔ IsBirdName name.now }
{
    let bytes = name.as_bytes();
    name.len() <= MOST_BIRD && (is_name_word(bytes) && are_in_symbol(bytes))
}

/// Whether the text is a chain or a target that iptables has itself.
fn is_built_in(name: &str) -> bool
    ensures { IsTrue result ↔ IsBuiltIn name.now }
{
    match name {
        "ACCEPT" => true,
        "DROP" => true,
        "QUEUE" => true,
        "RETURN" => true,
        "INPUT" => true,
        "FORWARD" => true,
        "OUTPUT" => true,
        _ => false,
    }
}

/// Returns whether the text names a target of iptables: one word of at most 28 bytes. A word is a letter or "_", and
/// then letters, digits, "_", "-" and ".".
///
/// ```text
/// "DROP", "blocked":          true
/// "", "REJECT --reject-with": false
/// ```
pub fn is_target_name(name: &str) -> bool
    ensures { IsTrue result ↔ IsTargetName name.now }
{
    name.len() <= MOST_CHAIN && is_name_word(name.as_bytes())
}

/// Returns whether the text names a chain that a user creates: a name as a target has, but not `ACCEPT`, `DROP`,
/// `QUEUE`, `RETURN`, `INPUT`, `FORWARD` or `OUTPUT`. iptables creates no chain with the first four of these names. The
/// last three have rules of other kinds, which would be lost.
///
/// ```text
/// "blocked":        true
/// "INPUT", "DROP":  false
/// ```
pub fn is_chain_name(name: &str) -> bool
    ensures { IsTrue result ↔ IsChainName name.now }
{
    is_target_name(name) && !is_built_in(name)
}

/// Returns whether the two names are of two sets of nft, or of BIRD: whether they are different.
///
/// ```text
/// "inet f a" and "inet f b":  true
/// "inet f a" and "inet f a":  false
/// ```
pub fn are_nft_sets(ipv4: &str, ipv6: &str) -> bool
    ensures { IsTrue result ↔ (ipv4.now ≢ ipv6.now) }
{
    ipv4 != ipv6
}

/// Whether the bytes are ".new".
fn is_new(bytes: &[u8]) -> bool
    ensures { IsTrue result ↔ (bytes.now ≡ codes ".new") }
{
    bytes == b".new".as_slice()
}

/// Whether the first name is the other with ".new", the name of its new set.
fn is_new_of(name: &str, other: &str) -> bool
    ensures { IsTrue result ↔ (name.now ≡ new_name other.now) }
{
    let whole = name.as_bytes();
    let front = other.as_bytes();
    match whole.strip_prefix(front) {
        Some(rest) => is_new(rest),
        None => false,
    }
}

/// Returns whether the commands of ipset for each of the two sets leave the other as it is. The commands for a set also
/// make and remove a set with this name and ".new" after it.
///
/// ```text
/// "a" and "b":            true
/// "a" and "a":            false
/// "a" and "a.new":        false
/// ```
pub fn are_ipset_sets(name: &str, other: &str) -> bool
    ensures { IsTrue result ↔ AreApart name.now other.now }
{
    name != other && !is_new_of(name, other) && !is_new_of(other, name)
}
