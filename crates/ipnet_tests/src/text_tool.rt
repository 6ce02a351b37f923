//! The text tool, called from another crate.
ghost use Rattle.std.specs.Prelude.{IfSome, string_bytes};
ghost use Rattle.ipnet.specs.declared.parser.Grammar.TheVariants.{Strict};
ghost use Rattle.ipnet_tool.specs.Answers.{IsAnswerTo};

use ipnet_tool::{ToolError, aggregate_text, aggregate_text_legacy};
use std::alloc::Global;
use std::test::Fail;

/// The shortest list of the text's networks, if there is one. The contract of the tool is enough to prove this.
fn shortest(alloc: Global, text: &str) -> Option<String>
    ensures { IfSome result (λ answer. IsAnswerTo Strict text.now (string_bytes answer)) }
{
    match aggregate_text(alloc, text) {
        Ok(answer) => Some(answer),
        Err(_) => None,
    }
}

#[test]
fn texts(rt: HostRuntime) -> Result<(), Fail> {
    let alloc = rt.alloc();
    let rows = [
        ("fd00::/32\n10.0.0.0/24\n", "10.0.0.0/24\nfd00::/32\n"),
        ("10.0.1.0/24\n\n10.0.0.0/24", "10.0.0.0/23\n"),
        ("", ""),
    ];
    for (text, wanted) in rows {
        let answer = shortest(alloc, text).expect(&rt, text);
        assert!(rt; answer.as_str() == wanted, "the shortest list of {text:?}");
    }
    for (text, line) in [
        ("10.0.0.0/24\n\nx\n", 3),
        ("10.0.0.0/24\r\n", 1),
        ("10.0.0.0/24\n10.0.01.0/24\n", 2),
    ] {
        assert!(rt; shortest(alloc, text).is_none(), "a bad line of {text:?}");
        let is_line = aggregate_text(alloc, text) == Err(ToolError::Line(line));
        assert!(rt; is_line, "the number of the bad line of {text:?}");
    }
    let legacy = aggregate_text_legacy(alloc, "10.0.0.0/24\n10.0.01.0/24\n")?;
    assert!(rt;
        legacy.as_str() == "10.0.0.0/23\n",
        "a line of the legacy grammar"
    );
    Ok(())
}
