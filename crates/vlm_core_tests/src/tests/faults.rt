//! The faults that end a run, as they display.

use std::process::Abort;
use vlm_lines::LineFault;
use vlm_script::PlayFault;

fn check<R: Abort + AllocGlobal>(rt: &R, fault: &PlayFault, text: &str) {
    let shown = format!(in rt.alloc(); "{fault}").expect(rt, "memory");
    assert!(rt; shown.as_str() == text);
}

// A fault displays the text of its line.
#[test]
fn texts(rt: HostRuntime) {
    check(
        &rt,
        &PlayFault::Line(3, LineFault::WrongWord),
        "line 3: wrong word",
    );
    check(&rt, &PlayFault::Memory, "memory");
    check(&rt, &PlayFault::Read, "read");
    check(&rt, &PlayFault::Write, "write");
    check(&rt, &PlayFault::Long, "script too long");
}
