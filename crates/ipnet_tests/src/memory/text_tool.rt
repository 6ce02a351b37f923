//! Refused memory of the text tool. Each call runs with ample memory, then with none, and then with more and more. The
//! program runs with refused memory in tests/memory.
//!
//! Each call but one is refused up to one run, and answered from then on. The answer to a long line outgrows its first
//! block. The allocator keeps a block that a run gave back for later requests of the same size, so it may have none of
//! the next size: answers and refusals alternate until there is room for all.
use ipnet_tool::{ToolError, aggregate_text, aggregate_text_legacy};
use std::test::Fail;
use test_support::memory::{
    Outcome, grow_stack, is_refused_and_answered, is_refused_then_answered, needs_no_memory,
};

/// The outcome of the text tool, if this answer or the bad line of this number is right.
fn text_outcome(answer: Result<String, ToolError>, wanted: Result<&str, usize>) -> Outcome {
    match &answer {
        Ok(text) if wanted == Ok(text.as_str()) => Outcome::Answered,
        Err(ToolError::Line(line)) if wanted == Err(*line) => Outcome::Answered,
        Err(ToolError::Memory) => Outcome::Refused,
        _ => Outcome::Wrong,
    }
}

#[test]
fn text_tool(rt: HostRuntime) -> Result<(), Fail> {
    grow_stack(rt.alloc())?;
    let alloc = rt.alloc();
    // label, text, the answer or the number of the bad line
    let rows: [(&str, &str, Result<&str, usize>); 4] = [
        ("tool", "10.0.1.0/24\n\n10.0.0.0/24", Ok("10.0.0.0/23\n")),
        ("tool, a bad line", "10.0.0.0/24\n\nx\n", Err(3)),
        (
            "tool, a bad line of the legacy grammar",
            "10.0.0.0/24\n10.0.01.0/24\n",
            Err(2),
        ),
        (
            "tool, both families",
            "fd00::/32\n10.0.0.0/24\n",
            Ok("10.0.0.0/24\nfd00::/32\n"),
        ),
    ];
    for (label, text, wanted) in rows {
        let call = || text_outcome(aggregate_text(alloc, text), wanted);
        assert!(&rt; is_refused_then_answered(alloc, call)?, "memory: {label}");
    }
    let text = "2001:db8:1111:2222:3333:4444:5555:6666/128\n";
    let call = || text_outcome(aggregate_text(alloc, text), Ok(text));
    assert!(&rt;
        is_refused_and_answered(alloc, call)?,
        "memory: tool, a long line"
    );
    Ok(())
}

#[test]
fn no_request(rt: HostRuntime) -> Result<(), Fail> {
    grow_stack(rt.alloc())?;
    let alloc = rt.alloc();
    // label, text, the answer or the number of the bad line, in both grammars
    let rows: [(&str, &str, Result<&str, usize>); 4] = [
        ("tool on nothing", "", Ok("")),
        ("tool on empty lines", "\n\n", Ok("")),
        ("tool, the first line bad", "10.0.0.0/24\r\n", Err(1)),
        (
            "tool, a bad line after an empty one",
            "\n10.0.0.0/24\r\n",
            Err(2),
        ),
    ];
    for (label, text, wanted) in rows {
        let call = || {
            text_outcome(aggregate_text(alloc, text), wanted) == Outcome::Answered
                && text_outcome(aggregate_text_legacy(alloc, text), wanted) == Outcome::Answered
        };
        assert!(&rt; needs_no_memory(alloc, call)?, "memory: {label}");
    }
    Ok(())
}
