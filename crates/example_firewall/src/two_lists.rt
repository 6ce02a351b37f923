//! The access list of two lists of networks, with its verdicts. The program makes it before it reads its input; a
//! verdict that differs is an error.
use crate::access_list::AccessList;
use anyhow::{Result, ensure};
use ipnet::{IpAddr, IpNet};

/// A denial takes precedence over an allowance. Fails if a verdict differs, or if memory runs out.
pub fn test_verdicts(rt: &HostRuntime) -> Result<()> {
    let mut allow = Vec::new(rt.alloc());
    for text in ["10.0.0.0/24", "10.0.1.0/24", "fd00::/32"] {
        allow.push(text.parse::<IpNet>()?)?;
    }
    let mut deny = Vec::new(rt.alloc());
    deny.push("10.0.1.128/25".parse::<IpNet>()?)?;
    let list = AccessList::new(rt.alloc(), allow.as_slice(), deny.as_slice())?;
    for (text, allowed) in [
        ("10.0.1.5", true),
        ("10.0.1.200", false),
        ("fd00::1", true),
        ("8.8.8.8", false),
    ] {
        let address = text.parse::<IpAddr>()?;
        ensure!(list.allows(&address) == allowed, "{text}");
    }
    let mut open = Vec::new(rt.alloc());
    for text in ["10.0.0.0/24", "10.0.1.0/25", "fd00::/32"] {
        open.push(text.parse::<IpNet>()?)?;
    }
    ensure!(list.networks(rt.alloc())? == open);
    Ok(())
}
