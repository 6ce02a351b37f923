//! Runs on input that is read in pieces: reads that cut lines and characters, reads that fail late, and lines that fill
//! the window.
use super::runs::{Ends, LINE_3, NOT_UTF8, UNREADABLE, check};
use std::io::ErrorKind;
use std::test::Fail;
use test_support::devices::{ArrayWriter, ByteReader, NEVER, WHOLE};

/// How many bytes of input the program holds at a time.
const WINDOW: usize = 65536;

#[test]
fn reads_that_cut_lines_and_characters(rt: HostRuntime) {
    let networks: Ends = (b"10.0.0.0/23\nfd00::/32\n", b"", 0);
    // label, input, the ends of the run
    let rows: [(&str, &[u8], Ends); 8] = [
        (
            "networks",
            b"10.0.1.0/24\n\n10.0.0.0/24\nfd00::/32",
            networks,
        ),
        ("a bad line", b"::/0\n\n\xc3\xa9\xe2\x82\xac\n", LINE_3),
        ("a bad last line", b"::/0\n\n\xf0\x9f\x8c\x90", LINE_3),
        (
            "characters after a bad line",
            b"::/0\n\nx\n\xf0\x9f\x8c\x90\n\xe2\x82\xac",
            LINE_3,
        ),
        ("a byte past UTF-8", b"::/0\n\n\xc3\xa9\xff\n", NOT_UTF8),
        (
            "a byte past UTF-8 after a bad line",
            b"::/0\nx\n\xc3\xa9\n\xff\n::/0\n",
            NOT_UTF8,
        ),
        (
            "input that ends in a character",
            b"::/0\n\xe2\x82",
            NOT_UTF8,
        ),
        (
            "input that ends in a character after a bad line",
            b"x\n\xf0\x9f\x8c",
            NOT_UTF8,
        ),
    ];
    for (label, given, wanted) in rows {
        for most in 1..given.len() {
            let mut input = ByteReader::new(given, most, NEVER, ErrorKind::Other);
            check(&rt, label, &mut input, &mut ArrayWriter::whole(), wanted);
        }
    }
}

#[test]
fn reads_that_fail_late(rt: HostRuntime) {
    let rows: [(&str, &[u8]); 3] = [
        ("networks", b"10.0.1.0/24\n\n10.0.0.0/24\nfd00::/32"),
        ("a bad line", b"::/0\nx\n\n10.0.0.0/24\nfd00::/32"),
        ("a byte past UTF-8", b"::/0\n\xff\n\n10.0.0.0/24\nfd00::/32"),
    ];
    for (label, given) in rows {
        for fails_at in 1..given.len() + 2 {
            let mut input = ByteReader::new(given, 1, fails_at, ErrorKind::Other);
            check(
                &rt,
                label,
                &mut input,
                &mut ArrayWriter::whole(),
                UNREADABLE,
            );
        }
    }
}

#[test]
fn lines_that_fill_the_window(rt: HostRuntime) -> Result<(), Fail> {
    // label, the length of line 3 up to its last bytes, these bytes and the next ones, the ends of the run
    let rows: [(&str, usize, &[u8], Ends); 9] = [
        ("as long as the window", WINDOW, b"", LINE_3),
        ("one byte shorter", WINDOW - 1, b"\n::/0\n", LINE_3),
        ("as long, and a newline", WINDOW, b"\n::/0\n", LINE_3),
        ("longer", WINDOW + 5000, b"\n::/0\n", LINE_3),
        ("longer, and the end", WINDOW + 5000, b"", LINE_3),
        (
            "a character across the window's end",
            WINDOW - 1,
            b"\xc3\xa9\n",
            LINE_3,
        ),
        (
            "a cut character at the window's end",
            WINDOW - 1,
            b"\xc3\n::/0\n",
            NOT_UTF8,
        ),
        (
            "a byte past UTF-8 in it",
            WINDOW + 5000,
            b"\xff\n",
            NOT_UTF8,
        ),
        (
            "the end in a character",
            WINDOW + 5000,
            b"\xe2\x82",
            NOT_UTF8,
        ),
    ];
    for (label, length, rest, wanted) in rows {
        let mut text = Vec::from_slice(rt.alloc(), b"\n::/0\n")?;
        for _ in 0..length {
            text.push(b'x')?;
        }
        text.extend_from_slice(rest)?;
        for most in [1000, WINDOW, WHOLE] {
            let mut input = ByteReader::new(text.as_slice(), most, NEVER, ErrorKind::Other);
            check(&rt, label, &mut input, &mut ArrayWriter::whole(), wanted);
        }
        let mut input = ByteReader::new(text.as_slice(), 1000, 67, ErrorKind::Other);
        check(
            &rt,
            "a read that fails",
            &mut input,
            &mut ArrayWriter::whole(),
            UNREADABLE,
        );
    }
    Ok(())
}
