//! The tables of modes, beside those of Linux's lock manager (fs/dlm/lock.c of Linux 6.12).

use std::process::Abort;
use vlm_words::modes::{Act, Mode, compatible, quecvt_legal, value_action};

// In each table the rows are the held mode, the columns the requested mode.
const MODES: [Mode; 6] = [Mode::Nl, Mode::Cr, Mode::Cw, Mode::Pr, Mode::Pw, Mode::Ex];

const COMPATIBLE: [[u8; 6]; 6] = [
    *b"YYYYYY", *b"YYYYYN", *b"YYYNNN", *b"YYNYNN", *b"YYNNNN", *b"YNNNNN",
];

const VALUE_ACTIONS: [[u8; 6]; 6] = [
    *b"RRRRRR", *b"-RRRRR", *b"--RRRR", *b"---RRR", *b"WWWWWR", *b"WWWWWW",
];

const QUEUED_LEGALLY: [[u8; 6]; 6] = [
    *b"NYYYYY", *b"NNYYYY", *b"NNNYYY", *b"NNYNYY", *b"NNNNNY", *b"NNNNNN",
];

fn letter(yes: bool) -> u8 {
    if yes { b'Y' } else { b'N' }
}

// Compares a table with the answers for each pair of modes.
fn compare<R: Abort, F: Fn(Mode, Mode) -> u8>(rt: &R, table: &[[u8; 6]; 6], answered: F)
    requires { F.IsAlwaysCallable answered }
{
    for (held, row) in MODES.iter().zip(table.iter()) {
        for (want, cell) in MODES.iter().zip(row.iter()) {
            assert!(rt; answered(*held, *want) == *cell);
        }
    }
}

// What may be held together, what VALBLK does on a conversion, and which conversions QUECVT goes with.
#[test]
fn tables(rt: HostRuntime) {
    compare(&rt, &COMPATIBLE, |a, b| letter(compatible(a, b)));
    compare(
        &rt,
        &VALUE_ACTIONS,
        |held, want| match value_action(held, want) {
            Act::Nothing => b'-',
            Act::Return => b'R',
            Act::Write => b'W',
        },
    );
    compare(&rt, &QUEUED_LEGALLY, |held, want| {
        letter(quecvt_legal(held, want))
    });
}
