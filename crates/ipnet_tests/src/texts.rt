//! The text tool in both grammars.
use super::runs::{self, Ends};
use ipnet::IpNet;
use ipnet::aggregate::is_aggregated;
use ipnet_tool::{ToolError, aggregate_text, aggregate_text_legacy};
use std::alloc::{AllocError, Global};
use std::process::Abort;
use std::test::Fail;
use test_support::devices::{ArrayWriter, ByteReader};

/// Asserts that the tool gave this answer, whose networks are their own aggregate, or refused the line of this number.
fn check<R: Abort + AllocGlobal>(
    rt: &R,
    label: &str,
    answer: Result<String, ToolError>,
    wanted: Result<&str, usize>,
) -> Result<(), Fail> {
    let answer = match answer {
        Ok(answer) => answer,
        Err(error) => {
            let is_wanted = match wanted {
                Ok(_) => false,
                Err(line) => error == ToolError::Line(line),
            };
            assert!(rt; is_wanted, "tool: {label}: {error}");
            return Ok(());
        }
    };
    assert!(rt; wanted == Ok(answer.as_str()), "tool: {label}: {answer}");
    let mut networks = Vec::new(rt.alloc());
    for line in answer.as_str().lines() {
        networks.push(line.parse::<IpNet>()?)?;
    }
    assert!(rt;
        is_aggregated(networks.as_slice()),
        "lists: the lines of every answer of the tool: {label}"
    );
    Ok(())
}

#[test]
fn texts(rt: HostRuntime) -> Result<(), Fail> {
    let joined: Result<&str, usize> = Ok("10.0.0.0/23\n");
    let both: Result<&str, usize> = Ok("10.0.0.0/24\nfd00::/32\n");
    // label, text, the answer or the bad line by the strict grammar, and by the legacy grammar
    let rows: [(&str, &str, Result<&str, usize>, Result<&str, usize>); 9] = [
        (
            "an empty line, no newline at the end",
            "10.0.1.0/24\n\n10.0.0.0/24",
            joined,
            joined,
        ),
        ("nothing", "", Ok(""), Ok("")),
        ("only empty lines", "\n\n", Ok(""), Ok("")),
        (
            "a bad line after an empty one",
            "10.0.0.0/24\n\nx\n",
            Err(3),
            Err(3),
        ),
        ("a carriage return", "10.0.0.0/24\r\n", Err(1), Err(1)),
        (
            "a line of the legacy grammar",
            "10.0.0.0/24\n10.0.01.0/24\n",
            Err(2),
            joined,
        ),
        ("both families", "fd00::/32\n10.0.0.0/24\n", both, both),
        (
            "the first of two bad lines",
            "x\n10.0.0.0/24\ny",
            Err(1),
            Err(1),
        ),
        (
            "a bad last line without a newline",
            "10.0.0.0/24\n10.0.0.0/33",
            Err(2),
            Err(2),
        ),
    ];
    for (label, text, strict, legacy) in rows {
        check(&rt, label, aggregate_text(rt.alloc(), text), strict)?;
        check(&rt, label, aggregate_text_legacy(rt.alloc(), text), legacy)?;
    }
    Ok(())
}

/// Every address of 10.6.0.0/15, one a line.
fn each_address(alloc: Global) -> Result<String, AllocError> {
    let mut text = String::new(alloc);
    for second in 6..8u8 {
        for third in 0..=255u8 {
            for fourth in 0..=255u8 {
                writeln!(text, "10.{second}.{third}.{fourth}/32")?;
            }
        }
    }
    Ok(text)
}

#[test]
fn input_above_a_megabyte(rt: HostRuntime) -> Result<(), Fail> {
    let label = "input above a megabyte";
    let text = each_address(rt.alloc())?;
    assert!(&rt; text.len() > 1_000_000, "{label}: its length");
    let wanted: Result<&str, usize> = Ok("10.6.0.0/15\n");
    check(
        &rt,
        label,
        aggregate_text(rt.alloc(), text.as_str()),
        wanted,
    )?;
    check(
        &rt,
        label,
        aggregate_text_legacy(rt.alloc(), text.as_str()),
        wanted,
    )?;
    let mut input = ByteReader::whole(text.as_bytes());
    let ends: Ends = (b"10.6.0.0/15\n", b"", 0);
    runs::check(&rt, label, &mut input, &mut ArrayWriter::whole(), ends);
    Ok(())
}

#[test]
fn errors(rt: HostRuntime) -> Result<(), Fail> {
    let rows = [
        (
            "bad line",
            ToolError::Line(3),
            "line 3: invalid IP address syntax",
        ),
        (
            "memory ran out in the tool",
            ToolError::Memory,
            "out of memory",
        ),
    ];
    for (label, error, text) in rows {
        assert!(&rt;
            error.to_string(rt.alloc())?.as_str() == text,
            "errors: {label}"
        );
    }
    Ok(())
}
