//! Commands by their words, and the program's own server in memory.
use crate::rows::none_fails;
use crate::running::{End, Runtime, Script, runs};
use xa_program::LocalYard;

const CALL: &[u8] = b"client a\ncall ECHO none\n";

const NONE: Script<'static> = (b"", &[], &[]);

// READY of the server TEST1 and NEXT.
const GREETING: &[u8] = b"XA\x01\x01\0\0\0\x06\0\0\0\0\x05TEST1XA\x01\x02\0\0\0\0\0\0\0\0";

// The words, the script with its faults, how it ends, and what is written.
type Row = (&'static [&'static str], Script<'static>, End, &'static [u8]);

static ROWS: [Row; 34] = [
    (&[], NONE, End::Usage, b""),
    (&["run"], NONE, End::Usage, b""),
    (&["run", "-c"], NONE, End::Usage, b""),
    (&["run", "c"], NONE, End::ConfigRead, b""),
    (&["record"], NONE, End::Usage, b""),
    (&["record", "-c"], NONE, End::Usage, b""),
    (&["record", "c"], NONE, End::ConfigRead, b""),
    (&["audit"], NONE, End::Usage, b""),
    (&["audit", "-r"], NONE, End::Usage, b""),
    (&["audit", "r"], NONE, End::ConfigRead, b""),
    (&["audit", "r", "x"], NONE, End::Usage, b""),
    (&["play"], (CALL, &[], &[]), End::Usage, b""),
    (&["play", "ECHO", "x"], (CALL, &[], &[]), End::Usage, b""),
    (&["play", "-x"], (CALL, &[], &[]), End::Usage, b""),
    (&["-play", "TEST1"], NONE, End::Usage, b""),
    (&["Play", "TEST1"], NONE, End::Usage, b""),
    (&["server", "TEST1"], NONE, End::Done, GREETING),
    (&["play", "TEST1"], NONE, End::Done, b""),
    (
        &["play", "ECHO"],
        (b"client a\nbogus\n", &[], &[]),
        End::BadLine(2, 2),
        b"",
    ),
    (
        &["play", "ECHO"],
        (b"client a\n# \x7f\n", &[], &[]),
        End::BadLine(2, 1),
        b"",
    ),
    (
        &["play", "ECHO"],
        (b"\ncall ECHO none\n", &[], &[]),
        End::BadLine(2, 3),
        b"",
    ),
    (
        &["play", "ECHO"],
        (b"client .a\n", &[], &[]),
        End::BadLine(1, 5),
        b"",
    ),
    (
        &["play", "ECHO"],
        (b"client a\nclient a\n", &[], &[]),
        End::BadLine(2, 6),
        b"",
    ),
    (
        &["play", "ECHO"],
        (b"client a\ncall ECHO none\nclient b\n", &[], &[]),
        End::BadLine(3, 7),
        b"",
    ),
    (&["play", "ECHO"], (CALL, &[2], &[]), End::ScriptRead, b""),
    (&["play", "ECHO"], (CALL, &[], &[1]), End::WriteFault, b""),
    (
        &["play", "ECHO"],
        (CALL, &[], &[2]),
        End::WriteFault,
        b"a 1 O",
    ),
    (
        &["play", "ECHO"],
        (CALL, &[], &[]),
        End::Done,
        b"a 1 OK 0 none\n",
    ),
    (
        &["play", "ECHO"],
        (
            b"client a\ncall ECHO text \"hello\"\n# again\n call  ECHO none \n",
            &[],
            &[],
        ),
        End::Done,
        b"a 1 OK 0 octet 68656c6c6f\na 2 OK 0 none\n",
    ),
    (
        &["play", "LEN"],
        (
            b"client a\ncall LEN text \"hello\"\ncall LEN none\n",
            &[],
            &[],
        ),
        End::Done,
        b"a 1 OK 5 none\na 2 OK 0 none\n",
    ),
    (
        &["play", "FAIL"],
        (b"client a\ncall FAIL text \"no\"\n", &[], &[]),
        End::Done,
        b"a 1 TPESVCFAIL 7 octet 6e6f\n",
    ),
    (
        &["play", "OTHER"],
        (b"client a\ncall OTHER none\n", &[], &[]),
        End::Done,
        b"a 1 TPESVCFAIL 99 none\n",
    ),
    (
        &["play", "DIE"],
        (b"client a\ncall DIE none\ncall DIE none\n", &[], &[]),
        End::Done,
        b"a 1 TPESVCERR\na 2 TPENOENT\n",
    ),
    (
        &["play", "EXIT"],
        (b"client a\ncall EXIT none\ncall EXIT none\n", &[], &[]),
        End::Done,
        b"a 1 TPESVCFAIL 1 none\na 2 TPENOENT\n",
    ),
];

fn is_told<R: Runtime>(rt: &R, (words, script, end, wrote): Row) -> bool {
    let mut yard = LocalYard::new(rt.alloc());
    runs(rt, words, (&[], &[]), script, &mut yard, (end, wrote))
}

fn first_not_told<R: Runtime>(rt: &R) -> Option<usize> {
    for (place, row) in ROWS.iter().enumerate() {
        if !is_told(rt, *row) {
            return Some(place);
        }
    }
    None
}

#[test]
fn commands_are_told_apart(rt: HostRuntime) {
    none_fails(&rt, first_not_told(&rt));
}
