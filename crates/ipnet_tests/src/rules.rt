//! Every list of up to four rules over four addresses: 20 rules, so 160,000 lists of four.
use ipnet::{IpAddr, Ipv4Addr};
use ipnet_rules::{Action, Addresses, Rule, Rules};
use std::alloc::{AllocError, Global};
use std::test::Fail;

/// The ranges of cells, from a first to a last one.
const RANGES: [(u32, u32); 10] = [
    (0, 0),
    (0, 1),
    (0, 2),
    (0, 3),
    (1, 1),
    (1, 2),
    (1, 3),
    (2, 2),
    (2, 3),
    (3, 3),
];

/// Returns the address of the cell.
fn address(cell: u32) -> IpAddr {
    IpAddr::V4(Ipv4Addr::from_bits(cell))
}

/// Returns the action of the rule with this number, below 20.
fn action(number: usize) -> Action {
    if number < 10 {
        Action::Permit
    } else {
        Action::Deny
    }
}

/// Returns whether the rule with this number matches the cell.
fn is_match(number: usize, cell: u32) -> bool {
    let (first, last) = RANGES[number % 10];
    first <= cell && cell <= last
}

/// Returns the list of `length` rules with this number: its digits to the base 20 are the rules.
fn list(alloc: Global, number: usize, length: usize) -> Result<Vec<Rule>, AllocError> {
    let mut left = number;
    let mut list = Vec::new(alloc);
    for _ in 0..length {
        let (first, last) = RANGES[left % 10];
        list.push(Rule {
            action: action(left % 20),
            addresses: Addresses::Range(address(first), address(last)),
        })?;
        left /= 20;
    }
    Ok(list)
}

/// Returns the index of the first rule of the list that matches the cell, and its action.
fn first_match(number: usize, length: usize, cell: u32) -> Option<(usize, Action)> {
    let mut left = number;
    for index in 0..length {
        if is_match(left % 20, cell) {
            return Some((index, action(left % 20)));
        }
        left /= 20;
    }
    None
}

/// Returns whether the rule at the index is the first match of no cell.
fn is_unreached(number: usize, length: usize, index: usize) -> bool {
    for cell in 0..4 {
        if let Some((first, _)) = first_match(number, length, cell) {
            if first == index {
                return false;
            }
        }
    }
    true
}

/// Returns whether the verdicts and the set of the permitted addresses are the ones that the search finds.
fn is_right(
    alloc: Global,
    number: usize,
    length: usize,
    default: Action,
) -> Result<bool, AllocError> {
    let rules = Rules {
        list: list(alloc, number, length)?,
        default,
    };
    let permitted = rules.permitted(alloc)?;
    for cell in 0..4 {
        let expected = match first_match(number, length, cell) {
            Some((_, action)) => action,
            None => default,
        };
        let is_permitted = matches!(expected, Action::Permit);
        if rules.verdict(&address(cell)) != expected
            || permitted.contains(&address(cell)) != is_permitted
        {
            return Ok(false);
        }
    }
    Ok(true)
}

/// Returns whether the unreached rules are the ones that the search finds.
fn finds_unreached(alloc: Global, number: usize, length: usize) -> Result<bool, AllocError> {
    let rules = Rules {
        list: list(alloc, number, length)?,
        default: Action::Deny,
    };
    let found = rules.unreached(alloc)?;
    for index in 0..length {
        let is_found = found.iter().any(|unreached| unreached.rule == index);
        if is_found != is_unreached(number, length, index) {
            return Ok(false);
        }
    }
    Ok(true)
}

#[test]
fn every_list_of_up_to_four_rules(rt: HostRuntime) -> Result<(), Fail> {
    for (length, count) in [(0, 1), (1, 20), (2, 400), (3, 8_000), (4, 160_000)] {
        for number in 0..count {
            assert!(rt;
                is_right(rt.alloc(), number, length, Action::Deny)?,
                "denied by default"
            );
            assert!(rt;
                is_right(rt.alloc(), number, length, Action::Permit)?,
                "permitted by default"
            );
            assert!(rt;
                finds_unreached(rt.alloc(), number, length)?,
                "unreached rules"
            );
        }
    }
    Ok(())
}
