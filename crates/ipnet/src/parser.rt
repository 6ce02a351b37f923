//! Networks from text: the strict grammar by `FromStr`, the legacy one by `parse_legacy`.
//!
//! Both read a whole text: an address, "/" and a prefix length (RFC 4632, section 3.1; RFC 4291, section 2.3). An
//! IPv4 address is four octets joined by "."; an IPv6 address is eight groups joined by ":". One "::" may replace
//! groups of zeros, and an IPv4 address may replace the last two groups (RFC 4291, section 2.2). The address keeps its
//! host bits.
//!
//! The legacy grammar reads each strict text as the same network, and accepts more texts in two ways:
//!
//! - Octets and prefix lengths, which are always decimal, may have leading zeros. The strict grammar refuses leading
//!   zeros, except the number 0 itself.
//! - A "::" may replace no group: eight groups are written, at most seven of them before the "::". In the strict
//!   grammar, as in RFC 4291, a "::" replaces at least one group.
//!
//! The limits are the same in both grammars, and leading zeros count as digits:
//!
//! - An octet has 1 to 3 digits and is at most 255.
//! - A prefix length has 1 or 2 digits in an IPv4 text and is at most 32. It has 1 to 3 digits in an IPv6 text and is
//!   at most 128.
//! - A group has 1 to 4 hexadecimal digits of either case, with or without leading zeros in both grammars.
//!
//! Every other text is refused, such as one with a blank, a sign, a zone or no prefix length.
//!
//! ```text
//!                            from_str             parse_legacy
//! 10.1.1.0/24                10.1.1.0/24          10.1.1.0/24
//! 0.0.0.0/0                  0.0.0.0/0            0.0.0.0/0
//! 010.0.0.1/08               an error             10.0.0.1/8
//! 0001.0.0.0/8               an error             an error
//! 10.0.0.0/032               an error             an error
//! ::010.0.0.1/96             an error             ::a00:1/96
//! ::/000                     an error             ::/0
//! 1:2:3:4:5:6:7::/128        1:2:3:4:5:6:7:0/128  1:2:3:4:5:6:7:0/128
//! 1:2:3:4:5:6:7::8/64        an error             1:2:3:4:5:6:7:8/64
//! 1:2:3:4:5:6:7:8::/64       an error             an error
//! ```
ghost use Rattle.ipnet.specs.declared.parser.Grammar.TheVariants.{Strict, Legacy};
ghost use Rattle.ipnet.specs.NetworkOf.{ip_network, ipv4_network, ipv6_network};
ghost use Rattle.ipnet.specs.NetworkTexts.{IsNetworkText, IsIpv4NetworkText, IsIpv6NetworkText, ReadsNetwork};

use crate::net::{IpNet, Ipv4Net, Ipv6Net};
use std::str::FromStr;
use thiserror::Error;

pub mod laws;
mod reader;

/// The text is not a network of the requested type.
///
/// Displayed as `invalid IP address syntax`.
///
/// ```text
/// 10.0.0.0/33 read as an Ipv4Net or IpNet    Err(AddrParseError)
/// fd00::9/32 read as an Ipv4Net              Err(AddrParseError)
/// fd00::9/32 read as an Ipv6Net or IpNet     Ok(fd00::9/32)
/// ```
#[derive(Clone, Debug, PartialEq, Eq, Drop, Error)]
#[error("invalid IP address syntax")]
pub struct AddrParseError(());

/// The two grammars of network texts, described in the module `parser`: `from_str` reads the strict grammar, and
/// `parse_legacy` the legacy grammar. Each strict text is a legacy text of the same network.
///
/// ```text
/// 10.0.0.1/8          is a strict text, and a legacy one
/// 010.0.0.1/08        is only a legacy text
/// 1:2:3:4:5:6:7::8/64 is only a legacy text
/// 10.0.0.1            is neither
/// ```
#[derive(Clone, Copy, Debug, PartialEq, Eq)]
pub enum Grammar {
    /// No leading zeros in octets and prefix lengths, and a "::" stands for one group at least.
    Strict,
    /// Octets and prefix lengths may have leading zeros, and a "::" may stand for no group.
    Legacy,
}

impl FromStr for Ipv4Net {
    type Err = AddrParseError;

    ghost from_str_gives = { ReadsNetwork ipv4_network (IsIpv4NetworkText Strict) };

    /// Reads a text of the strict grammar: a dotted address, "/" and a prefix length (RFC 4632, section 3.1), no number
    /// with a leading zero but 0 itself. Every other text is refused.
    ///
    /// ```text
    /// 10.1.1.9/24    Ok(10.1.1.9/24)
    /// 0.0.0.0/0      Ok(0.0.0.0/0)
    /// 010.0.0.1/08   Err(AddrParseError)
    /// fd00::9/32     Err(AddrParseError)
    /// ```
    fn from_str(text: &str) -> Result<Ipv4Net, AddrParseError> {
        Ipv4Net::parse_as(text, Grammar::Strict)
    }
}

impl Ipv4Net {
    /// Reads a text of this grammar: as `from_str` if it is strict, and as `parse_legacy` if it is legacy. An error for
    /// every other text, and for the text of an IPv6 network.
    ///
    /// ```text
    /// 10.1.1.9/24 in either grammar     Ok(10.1.1.9/24)
    /// 010.0.0.1/08 in the legacy one    Ok(10.0.0.1/8)
    /// 010.0.0.1/08 in the strict one    Err(AddrParseError)
    /// ```
    pub fn parse_as(text: &str, grammar: Grammar) -> Result<Ipv4Net, AddrParseError>
        ensures { ReadsNetwork ipv4_network (IsIpv4NetworkText grammar) text.now result }
    {
        let Ok(read) = IpNet::parse_as(text, grammar) else {
            return Err(AddrParseError(()));
        };
        match read {
            IpNet::V4(net) => Ok(net),
            IpNet::V6(_) => Err(AddrParseError(())),
        }
    }

    /// Reads a text of the legacy grammar, described in the module `parser`: a dotted address, "/" and a prefix length
    /// (RFC 4632, section 3.1), whose numbers may have leading zeros. What `from_str` reads is read alike.
    ///
    /// Fails for every other text: if there are not four octets, or an octet has more than 3 digits or is above 255; if
    /// the prefix length is missing, has more than 2 digits or is above 32; and for the text of an IPv6 network.
    ///
    /// ```text
    /// 10.1.1.9/24    Ok(10.1.1.9/24)
    /// 010.0.0.1/08   Ok(10.0.0.1/8)
    /// 10.0.0.0/00    Ok(10.0.0.0/0)
    /// 0001.0.0.0/8   Err(AddrParseError)
    /// 10.0.0.0/032   Err(AddrParseError)
    /// fd00::9/32     Err(AddrParseError)
    /// ```
    pub fn parse_legacy(text: &str) -> Result<Ipv4Net, AddrParseError>
        ensures { ReadsNetwork ipv4_network (IsIpv4NetworkText Legacy) text.now result }
    {
        Ipv4Net::parse_as(text, Grammar::Legacy)
    }
}

impl FromStr for Ipv6Net {
    type Err = AddrParseError;

    ghost from_str_gives = { ReadsNetwork ipv6_network (IsIpv6NetworkText Strict) };

    /// Reads a text of the strict grammar: an address (RFC 4291, section 2.2), "/" and a prefix length (section 2.3). A
    /// "::" stands for one group at least, and no decimal number but 0 itself has a leading zero. Every other text is
    /// refused.
    ///
    /// ```text
    /// fd00::9/32            Ok(fd00::9/32)
    /// ::/0                  Ok(::/0)
    /// 1:2:3:4:5:6:7::8/64   Err(AddrParseError)
    /// 10.1.1.9/24           Err(AddrParseError)
    /// ```
    fn from_str(text: &str) -> Result<Ipv6Net, AddrParseError> {
        Ipv6Net::parse_as(text, Grammar::Strict)
    }
}

impl Ipv6Net {
    /// Reads a text of this grammar: as `from_str` if it is strict, and as `parse_legacy` if it is legacy. An error for
    /// every other text, and for the text of an IPv4 network.
    ///
    /// ```text
    /// fd00::9/32 in either grammar             Ok(fd00::9/32)
    /// 1:2:3:4:5:6:7::8/64 in the legacy one    Ok(1:2:3:4:5:6:7:8/64)
    /// 1:2:3:4:5:6:7::8/64 in the strict one    Err(AddrParseError)
    /// ```
    pub fn parse_as(text: &str, grammar: Grammar) -> Result<Ipv6Net, AddrParseError>
        ensures { ReadsNetwork ipv6_network (IsIpv6NetworkText grammar) text.now result }
    {
        let Ok(read) = IpNet::parse_as(text, grammar) else {
            return Err(AddrParseError(()));
        };
        match read {
            IpNet::V4(_) => Err(AddrParseError(())),
            IpNet::V6(net) => Ok(net),
        }
    }

    /// Reads a text of the legacy grammar, described in the module `parser`: an address (RFC 4291, section 2.2), "/"
    /// and a prefix length (section 2.3). All numbers may have leading zeros, and a "::" may replace no group. A text
    /// that `from_str` reads has the same network here.
    ///
    /// Fails for every other text: if there are not eight groups, including the groups that "::" replaces and the two
    /// that an IPv4 address at the end replaces; if eight groups come before a "::"; if a group has more than 4 digits;
    /// if an octet has more than 3 digits or is above 255; if the prefix length is missing, has more than 3 digits or
    /// is above 128; and for the text of an IPv4 network.
    ///
    /// ```text
    /// fd00::9/32             Ok(fd00::9/32)
    /// 1:2:3:4:5:6:7::8/64    Ok(1:2:3:4:5:6:7:8/64)
    /// ::010.0.0.1/96         Ok(::a00:1/96)
    /// ::/000                 Ok(::/0)
    /// 1:2:3:4:5:6:7:8::/64   Err(AddrParseError)
    /// 12345::/16             Err(AddrParseError)
    /// 10.1.1.9/24            Err(AddrParseError)
    /// ```
    pub fn parse_legacy(text: &str) -> Result<Ipv6Net, AddrParseError>
        ensures { ReadsNetwork ipv6_network (IsIpv6NetworkText Legacy) text.now result }
    {
        Ipv6Net::parse_as(text, Grammar::Legacy)
    }
}

impl FromStr for IpNet {
    type Err = AddrParseError;

    ghost from_str_gives = { ReadsNetwork ip_network (IsNetworkText Strict) };

    /// Reads a text of either family by the strict grammar of [`Ipv4Net`] or [`Ipv6Net`]. No text is one of both.
    ///
    /// ```text
    /// 10.1.1.9/24    Ok(10.1.1.9/24)
    /// fd00::9/32     Ok(fd00::9/32)
    /// 010.0.0.1/08   Err(AddrParseError)
    /// ```
    fn from_str(text: &str) -> Result<IpNet, AddrParseError> {
        IpNet::parse_as(text, Grammar::Strict)
    }
}

impl IpNet {
    /// Reads a text of either family in this grammar: as `from_str` if it is strict, and as `parse_legacy` if it is
    /// legacy. An error for every other text.
    ///
    /// ```text
    /// fd00::9/32 in either grammar      Ok(fd00::9/32)
    /// 010.0.0.1/08 in the legacy one    Ok(10.0.0.1/8)
    /// 010.0.0.1/08 in the strict one    Err(AddrParseError)
    /// ```
    pub fn parse_as(text: &str, grammar: Grammar) -> Result<IpNet, AddrParseError>
        ensures { ReadsNetwork ip_network (IsNetworkText grammar) text.now result }
    {
        reader::read_network(text.as_bytes(), grammar).ok_or(AddrParseError(()))
    }

    /// Reads a text of either family by the legacy grammar, described in the module `parser`, as `parse_legacy` of
    /// [`Ipv4Net`] or [`Ipv6Net`] does. No text is one of both. An error for a text of neither.
    ///
    /// ```text
    /// 010.0.0.1/08          Ok(10.0.0.1/8)
    /// 1:2:3:4:5:6:7::8/64   Ok(1:2:3:4:5:6:7:8/64)
    /// 10.0.0.0/032          Err(AddrParseError)
    /// 10.0.0.1              Err(AddrParseError)
    /// ```
    pub fn parse_legacy(text: &str) -> Result<IpNet, AddrParseError>
        ensures { ReadsNetwork ip_network (IsNetworkText Legacy) text.now result }
    {
        IpNet::parse_as(text, Grammar::Legacy)
    }
}
