//! Runs of the program on readers and writers that fail, are interrupted, or move few bytes in a call.
use ipnet_tool::run;
use std::alloc::{AllocError, Global};
use std::io::ErrorKind;
use std::process::Abort;
use std::test::Fail;
use test_support::devices::{ArrayWriter, ByteReader, NEVER, WHOLE};

/// Standard output, standard error and the status of a run.
pub type Ends = (&'static [u8], &'static [u8], u8);

pub const UNREADABLE: Ends = (b"", b"ipnet: input cannot be read\n", 3);

pub const NOT_UTF8: Ends = (b"", b"ipnet: input is not UTF-8\n", 3);

pub const UNWRITABLE: Ends = (b"", b"ipnet: output cannot be written\n", 3);

pub const LINE_1: Ends = (b"", b"line 1: invalid IP address syntax\n", 1);

pub const LINE_2: Ends = (b"", b"line 2: invalid IP address syntax\n", 1);

pub const LINE_3: Ends = (b"", b"line 3: invalid IP address syntax\n", 1);

/// The input of most rows, which is also its own answer.
const ROUTE: &[u8] = b"10.0.0.0/24\n";

const ROUTE_ENDS: Ends = (ROUTE, b"", 0);

/// Asserts standard output, standard error and the status of a run without arguments.
pub fn check<R: Abort + AllocGlobal>(
    rt: &R,
    label: &str,
    input: &mut ByteReader,
    out: &mut ArrayWriter,
    wanted: Ends,
) {
    let mut faults = ArrayWriter::whole();
    let status = run(rt.alloc(), &[], input, out, &mut faults);
    let (answer, report, number) = wanted;
    assert!(rt; status == number, "program: {label}: status {status}");
    assert!(rt; out.held() == answer, "program: {label}: standard output");
    assert!(rt; faults.held() == report, "program: {label}: standard error");
}

#[test]
fn readers(rt: HostRuntime) {
    let interrupted = ErrorKind::Interrupted;
    let other = ErrorKind::Other;
    let memory = ErrorKind::OutOfMemory;
    // label, input, the most bytes of a read, the read that fails and its error, the ends of the run
    let rows: [(&str, &[u8], usize, usize, ErrorKind, Ends); 9] = [
        ("first read fails", ROUTE, WHOLE, 1, other, UNREADABLE),
        ("second read fails", ROUTE, WHOLE, 2, other, UNREADABLE),
        (
            "second read of one byte fails",
            ROUTE,
            1,
            2,
            other,
            UNREADABLE,
        ),
        (
            "a read that is refused memory",
            ROUTE,
            WHOLE,
            1,
            memory,
            UNREADABLE,
        ),
        (
            "first read is interrupted",
            ROUTE,
            WHOLE,
            1,
            interrupted,
            ROUTE_ENDS,
        ),
        (
            "second read of one byte is interrupted",
            ROUTE,
            1,
            2,
            interrupted,
            ROUTE_ENDS,
        ),
        ("one byte a read", ROUTE, 1, NEVER, other, ROUTE_ENDS),
        ("a byte past UTF-8", b"\xff", WHOLE, NEVER, other, NOT_UTF8),
        (
            "a bad line before a byte past UTF-8",
            b"x\n\xff\n",
            WHOLE,
            NEVER,
            other,
            NOT_UTF8,
        ),
    ];
    for (label, given, most, fails_at, kind, wanted) in rows {
        let mut input = ByteReader::new(given, most, fails_at, kind);
        check(&rt, label, &mut input, &mut ArrayWriter::whole(), wanted);
    }
    let mut input = ByteReader::interrupted_twice(ROUTE);
    let label = "two interrupted reads in a row";
    check(
        &rt,
        label,
        &mut input,
        &mut ArrayWriter::whole(),
        ROUTE_ENDS,
    );
}

#[test]
fn writers(rt: HostRuntime) {
    let unwritable = UNWRITABLE.1;
    // label, the writer, the ends of the run
    let rows: [(&str, usize, usize, Ends); 4] = [
        ("first write fails", WHOLE, 1, UNWRITABLE),
        ("one byte a write", 1, NEVER, ROUTE_ENDS),
        (
            "third write of one byte fails",
            1,
            3,
            (b"10", unwritable, 3),
        ),
        ("a writer that takes nothing", 0, NEVER, UNWRITABLE),
    ];
    for (label, most, fails_at, wanted) in rows {
        let mut out = ArrayWriter::new(most, fails_at);
        check(&rt, label, &mut ByteReader::whole(ROUTE), &mut out, wanted);
    }
    let mut out = ArrayWriter::never_flushed();
    let label = "a writer that cannot be flushed";
    check(
        &rt,
        label,
        &mut ByteReader::whole(ROUTE),
        &mut out,
        (ROUTE, unwritable, 3),
    );
    let mut out = ArrayWriter::interrupted();
    let label = "second write of one byte is interrupted";
    check(
        &rt,
        label,
        &mut ByteReader::whole(ROUTE),
        &mut out,
        ROUTE_ENDS,
    );
}

// Each end of a run, with all later ones possible too: the first that holds is the end.
#[test]
fn order_of_failures(rt: HostRuntime) {
    // label, input, the read that fails, the ends of the run; the first write fails
    let rows: [(&str, &[u8], usize, Ends); 4] = [
        ("reading fails", b"x\n\xff", 2, UNREADABLE),
        ("not UTF-8", b"x\n\xff", NEVER, NOT_UTF8),
        ("a bad line", b"::/0\nx\ny", NEVER, LINE_2),
        ("writing fails", b"::/0\n", NEVER, UNWRITABLE),
    ];
    for (label, given, fails_at, wanted) in rows {
        let mut input = ByteReader::new(given, WHOLE, fails_at, ErrorKind::Other);
        check(
            &rt,
            label,
            &mut input,
            &mut ArrayWriter::new(WHOLE, 1),
            wanted,
        );
    }
    let wanted: Ends = (b"::/0\n", b"", 0);
    check(
        &rt,
        "done",
        &mut ByteReader::whole(b"::/0\n"),
        &mut ArrayWriter::whole(),
        wanted,
    );
}

#[test]
fn reports_in_pieces(rt: HostRuntime) {
    // label, input, the read that fails, the write that fails, the writer of standard error, the ends of the run
    let rows: [(&str, &[u8], usize, usize, usize, usize, Ends); 6] = [
        (
            "standard error takes one byte a write",
            b"10.0.0.0/24\nx\n",
            NEVER,
            NEVER,
            1,
            NEVER,
            LINE_2,
        ),
        (
            "second write of one byte of standard error fails",
            b"10.0.0.0/24\nx\n",
            NEVER,
            NEVER,
            1,
            2,
            (b"", b"l", 1),
        ),
        (
            "a read that fails, faults unwritten",
            b"",
            1,
            NEVER,
            WHOLE,
            1,
            (b"", b"", 3),
        ),
        (
            "not UTF-8, faults unwritten",
            b"\xff",
            NEVER,
            NEVER,
            WHOLE,
            1,
            (b"", b"", 3),
        ),
        (
            "standard error cannot be written",
            b"10.0.0.0/24\nx\n",
            NEVER,
            NEVER,
            WHOLE,
            1,
            (b"", b"", 1),
        ),
        (
            "a write that fails, faults unwritten",
            ROUTE,
            NEVER,
            1,
            WHOLE,
            1,
            (b"", b"", 3),
        ),
    ];
    for (label, given, read, write, most, fault, (answer, report, number)) in rows {
        let mut input = ByteReader::new(given, WHOLE, read, ErrorKind::Other);
        let mut out = ArrayWriter::new(WHOLE, write);
        let mut faults = ArrayWriter::new(most, fault);
        let status = run(rt.alloc(), &[], &mut input, &mut out, &mut faults);
        assert!(&rt; status == number, "program: {label}: status {status}");
        assert!(&rt; out.held() == answer, "program: {label}: standard output");
        assert!(&rt; faults.held() == report, "program: {label}: standard error");
    }
}

/// Every second address of 10.0.0.0/18, one a line: as many lines as networks, of which no two join.
fn every_second_address(alloc: Global) -> Result<String, AllocError> {
    let mut text = String::new(alloc);
    for third in 0..64u8 {
        for half in 0..128u8 {
            writeln!(text, "10.0.{third}.{}/32", 2 * half)?;
        }
    }
    Ok(text)
}

#[test]
fn large_pieces(rt: HostRuntime) -> Result<(), Fail> {
    let text = every_second_address(rt.alloc())?;
    let mut input = ByteReader::whole(text.as_bytes());
    let mut out = ArrayWriter::whole();
    let mut faults = ArrayWriter::whole();
    let status = run(rt.alloc(), &[], &mut input, &mut out, &mut faults);
    assert!(&rt; status == 0, "program: large pieces: status {status}");
    assert!(&rt;
        out.held() == text.as_bytes(),
        "program: large pieces: standard output"
    );
    assert!(&rt;
        faults.held().is_empty(),
        "program: large pieces: standard error"
    );
    assert!(&rt; input.largest() >= 65536, "program: large pieces: read");
    assert!(&rt; out.largest() <= 8192, "program: large pieces: written");
    Ok(())
}

#[test]
fn pieces_that_cannot_be_written(rt: HostRuntime) -> Result<(), Fail> {
    let text = every_second_address(rt.alloc())?;
    for fails_at in 1..10 {
        let mut input = ByteReader::whole(text.as_bytes());
        let mut out = ArrayWriter::new(WHOLE, fails_at);
        let mut faults = ArrayWriter::whole();
        let status = run(rt.alloc(), &[], &mut input, &mut out, &mut faults);
        assert!(&rt;
            status == 3,
            "program: piece {fails_at} unwritten: status {status}"
        );
        let written = out.held();
        assert!(&rt;
            text.as_bytes().starts_with(written),
            "program: piece {fails_at} unwritten: order"
        );
        assert!(&rt;
            (fails_at - 1) * 8100 <= written.len(),
            "program: piece {fails_at} unwritten: length"
        );
        assert!(&rt;
            faults.held() == UNWRITABLE.1,
            "program: piece {fails_at} unwritten: standard error"
        );
    }
    Ok(())
}
