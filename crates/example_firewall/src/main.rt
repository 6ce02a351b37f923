//! A firewall: reports which addresses an access list permits, and which of its rules decide on none; then it prints
//! the lines of a log that are not from the office.
//!
//! The input has lines `permit NETWORK`, `deny NETWORK`, `ask ADDRESS` and `log LINE`. The first rule that matches an
//! address decides; no match denies.
#![tactic(auto)]

mod access_list;
mod log_filter;
mod two_lists;

use crate::access_list::AccessList;
use anyhow::{Result, bail};
use ipnet::{IpAddr, IpNet};
use ipnet_rules::{Action, Addresses, Rule, Rules};
use std::alloc::Global;

/// The input: the rules, the addresses that are asked, and the lines of a log.
#[derive(Drop)]
struct Input {
    list: Vec<Rule>,
    asked: Vec<IpAddr>,
    log: Vec<String>,
}

impl Input {
    /// Reads a line of the input.
    fn push(&mut self, alloc: Global, line: &str) -> Result<()> {
        match line.split_once(' ') {
            Some(("permit", network)) => self.list.push(rule(Action::Permit, network)?)?,
            Some(("deny", network)) => self.list.push(rule(Action::Deny, network)?)?,
            Some(("ask", address)) => self.asked.push(address.parse::<IpAddr>()?)?,
            Some(("log", line)) => self.log.push(String::from_str(alloc, line)?)?,
            _ => bail!("{line}: no rule"),
        }
        Ok(())
    }
}

/// Returns the rule for the network of this text.
fn rule(action: Action, text: &str) -> Result<Rule> {
    let addresses = Addresses::Network(text.parse::<IpNet>()?);
    Ok(Rule { action, addresses })
}

/// Prints the verdict on each address, and the rules that decide on no address.
fn print_verdicts(rt: &HostRuntime, rules: &Rules, asked: &[IpAddr]) -> Result<()> {
    let access = AccessList::from_rules(rt.alloc(), rules)?;
    for address in asked {
        let answer = if access.allows(address) {
            "permitted"
        } else {
            "denied"
        };
        println!(rt; "{address} {answer}")?;
    }
    for unreached in &rules.unreached(rt.alloc())? {
        let index = unreached.rule;
        println!(rt; "rule {index} decides on no address")?;
    }
    Ok(())
}

fn main(rt: HostRuntime) -> Result<()> {
    two_lists::test_verdicts(&rt)?;
    let mut input = Input {
        list: Vec::new(rt.alloc()),
        asked: Vec::new(rt.alloc()),
        log: Vec::new(rt.alloc()),
    };
    for line in rt.lines(rt.alloc()) {
        let line = line?;
        input.push(rt.alloc(), line.as_str())?;
    }
    let Input { list, asked, log } = input;
    let default = Action::Deny;
    print_verdicts(&rt, &Rules { list, default }, &asked)?;
    log_filter::print_others(&rt, &log)
}
