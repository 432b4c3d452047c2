//! The keyed words of a request's line that name its routines, as its step has them.

use std::process::Abort;
use vlm_lines::{Line, read_line};

// A completion routine, a blocking routine, and their parameter.
type Routines = (Option<u32>, Option<u32>, u32);

// What the step of a line has, or the text of the line's fault.
fn routines(line: &[u8]) -> Result<Routines, &'static str> {
    match read_line(line) {
        Ok(Line::Enq(_, request)) => Ok((request.ast, request.bast, request.param)),
        Ok(Line::Cvt(_, conversion)) => Ok((conversion.ast, conversion.bast, conversion.param)),
        Ok(_) => Err("no request"),
        Err(fault) => Err(fault.text()),
    }
}

// An enq and a cvt line with these words at their ends.
fn check<R: Abort + AllocGlobal>(rt: &R, words: &str, want: Result<Routines, &'static str>) {
    for begun in ["enq P EX name=A block=1", "cvt P 1 EX block=1"] {
        let line = format!(in rt.alloc(); "{begun} {words}").expect(rt, "memory");
        assert!(rt; routines(line.as_bytes()) == want, "{line}");
    }
}

// Each alone, all in any order, and at the ends of their range.
#[test]
fn named(rt: HostRuntime) {
    let rows = [
        ("", (None, None, 0)),
        ("ast=0000000009", (Some(9), None, 0)),
        ("bast=7", (None, Some(7), 0)),
        ("param=8", (None, None, 8)),
        ("ast=1 bast=2 param=3", (Some(1), Some(2), 3)),
        (
            "param=4294967295 valblk bast=0 noqueue ast=4294967295",
            (Some(u32::MAX), Some(0), u32::MAX),
        ),
    ];
    for (words, want) in rows {
        check(&rt, words, Ok(want));
    }
}

// Out of range, given twice, without a number, and with what is none.
#[test]
fn faulty(rt: HostRuntime) {
    let rows = [
        ("ast=4294967296", "number out of range"),
        ("bast=10000000000", "number out of range"),
        ("param=00000000001", "number out of range"),
        ("ast=1 ast=1", "wrong word"),
        ("bast=1 param=2 bast=4294967296", "wrong word"),
        ("param=0 param=0", "wrong word"),
        ("ast=", "wrong word"),
        ("bast=-1", "wrong word"),
        ("param=0x1", "wrong word"),
    ];
    for (words, fault) in rows {
        check(&rt, words, Err(fault));
    }
}
