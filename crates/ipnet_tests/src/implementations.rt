//! Tests which implementations the arithmetic traits have. Each is called through a trait bound, so that the compiler
//! checks its output type.
use ipnet::{IpAdd, IpBitAnd, IpBitOr, IpSub};
use std::net::{Ipv4Addr, Ipv6Addr};
use std::test::Fail;

fn sum<L: IpAdd<R, Output = O>, R, O>(left: L, right: R) -> O {
    left.saturating_add(right)
}

fn difference<L: IpSub<R, Output = O>, R, O>(left: L, right: R) -> O {
    left.saturating_sub(right)
}

fn common<L: IpBitAnd<R, Output = O>, R, O>(left: L, right: R) -> O {
    left.bitand(right)
}

fn united<L: IpBitOr<R, Output = O>, R, O>(left: L, right: R) -> O {
    left.bitor(right)
}

#[test]
fn ipv4(rt: HostRuntime) {
    let left = Ipv4Addr::new(192, 168, 1, 100);
    let answer: Ipv4Addr = sum(Ipv4Addr::new(255, 255, 255, 254), 5u32);
    assert!(rt; answer == Ipv4Addr::new(255, 255, 255, 255), "add a number");
    let answer: u32 = difference(left, Ipv4Addr::new(192, 168, 1, 5));
    assert!(rt; answer == 95, "subtract an address");
    let answer: Ipv4Addr = difference(left, 101u32);
    assert!(rt;
        answer == Ipv4Addr::new(192, 168, 0, 255),
        "subtract a number"
    );
    let answer: Ipv4Addr = common(left, Ipv4Addr::new(255, 255, 0, 15));
    assert!(rt;
        answer == Ipv4Addr::new(192, 168, 0, 4),
        "and with an address"
    );
    let answer: Ipv4Addr = common(left, 4294901760u32);
    assert!(rt;
        answer == Ipv4Addr::new(192, 168, 0, 0),
        "and with a number"
    );
    let answer: Ipv4Addr = united(Ipv4Addr::new(10, 0, 0, 5), Ipv4Addr::new(0, 0, 255, 250));
    assert!(rt;
        answer == Ipv4Addr::new(10, 0, 255, 255),
        "or with an address"
    );
    let answer: Ipv4Addr = united(Ipv4Addr::new(10, 0, 0, 5), 250u32);
    assert!(rt; answer == Ipv4Addr::new(10, 0, 0, 255), "or with a number");
}

#[test]
fn ipv6(rt: HostRuntime) -> Result<(), Fail> {
    let left = "fd00:1234::1".parse::<Ipv6Addr>()?;
    let five = "fd00::5".parse::<Ipv6Addr>()?;
    let answer: Ipv6Addr = sum("fd00::ffff".parse::<Ipv6Addr>()?, 1u128);
    assert!(rt; answer == "fd00::1:0".parse::<Ipv6Addr>()?, "add a number");
    let answer: u128 = difference("fd01::".parse::<Ipv6Addr>()?, "fd00::".parse::<Ipv6Addr>()?);
    assert!(rt;
        answer == 5192296858534827628530496329220096,
        "subtract an address"
    );
    let answer: Ipv6Addr = difference("::4".parse::<Ipv6Addr>()?, 5u128);
    assert!(rt; answer == "::".parse::<Ipv6Addr>()?, "subtract a number");
    let answer: Ipv6Addr = common(left, "ffff::".parse::<Ipv6Addr>()?);
    assert!(rt;
        answer == "fd00::".parse::<Ipv6Addr>()?,
        "and with an address"
    );
    let answer: Ipv6Addr = common(left, 65535u128);
    assert!(rt; answer == "::1".parse::<Ipv6Addr>()?, "and with a number");
    let answer: Ipv6Addr = united(five, "::fffe:0:fa".parse::<Ipv6Addr>()?);
    assert!(rt;
        answer == "fd00::fffe:0:ff".parse::<Ipv6Addr>()?,
        "or with an address"
    );
    let answer: Ipv6Addr = united(five, 250u128);
    assert!(rt;
        answer == "fd00::ff".parse::<Ipv6Addr>()?,
        "or with a number"
    );
    Ok(())
}
