//! Laws of all values of `Grammar` and `AddrParseError`, and of the readers of the standard trait. Each law is the
//! contract of a function that does nothing.
ghost use Rattle.std.specs.Prelude.{◌↔◌, ℕ, List, Result};
ghost use Rattle.ipnet_base.specs.Values.{EqualsExactly, ClonesExactly};
ghost use Rattle.ipnet.specs.NetworkOf.{ipv4_network, ipv6_network, ip_network};
ghost use Rattle.ipnet.specs.NetworkTexts.{IsNetworkText, IsIpv4NetworkText, IsIpv6NetworkText, ReadsNetwork};
ghost use Rattle.ipnet.specs.declared.net.IpNet.{IpNet};
ghost use Rattle.ipnet.specs.declared.net.ipv4_net.Ipv4Net.{Ipv4Net};
ghost use Rattle.ipnet.specs.declared.net.ipv6_net.Ipv6Net.{Ipv6Net};
ghost use Rattle.ipnet.specs.declared.parser.AddrParseError.{AddrParseError};
ghost use Rattle.ipnet.specs.declared.parser.Grammar.TheVariants.{Strict};

use super::{AddrParseError, Grammar};
use crate::net::{IpNet, Ipv4Net, Ipv6Net};
use ipnet_base::mask::laws::is_error_with_eq;
use std::str::FromStr;

/// `==` says whether two grammars are one.
pub fn grammars_compare_by_value()
    ensures { EqualsExactly ⟦<Grammar as PartialEq>⟧.eq }
{}

/// The clone of a grammar is the same grammar, and cloning never fails.
pub fn grammars_clone()
    ensures { ClonesExactly ⟦<Grammar as Clone>⟧.is_clone ⟦<Grammar as Clone>⟧.is_infallible }
{}

/// `==` says whether two values of the error are one.
pub fn addr_parse_errors_compare_by_value()
    ensures { EqualsExactly ⟦<AddrParseError as PartialEq>⟧.eq }
{}

/// The clone of the error is equal, and cloning never fails.
pub fn addr_parse_errors_clone()
    ensures { ClonesExactly ⟦<AddrParseError as Clone>⟧.is_clone ⟦<AddrParseError as Clone>⟧.is_infallible }
{}

/// The error is an `Error` with `Eq`.
//
// The contract says nothing: the body does not compile if an implementation is missing.
pub fn addr_parse_errors_have_eq(error: &AddrParseError) {
    is_error_with_eq(error);
}

/// `FromStr` reads the strict grammar, of all three types.
pub fn from_str_reads_strict_texts()
    ensures ipv4 { (text : List ℕ) (result : Result Ipv4Net AddrParseError)
        → ⟦<Ipv4Net as FromStr>⟧.from_str_gives text result
        ↔ ReadsNetwork ipv4_network (IsIpv4NetworkText Strict) text result }
    ensures ipv6 { (text : List ℕ) (result : Result Ipv6Net AddrParseError)
        → ⟦<Ipv6Net as FromStr>⟧.from_str_gives text result
        ↔ ReadsNetwork ipv6_network (IsIpv6NetworkText Strict) text result }
    ensures either { (text : List ℕ) (result : Result IpNet AddrParseError)
        → ⟦<IpNet as FromStr>⟧.from_str_gives text result
        ↔ ReadsNetwork ip_network (IsNetworkText Strict) text result }
{}
