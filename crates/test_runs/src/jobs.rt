// Each job once, where nothing fails.

use crate::runs::{ANSWER, Outside, UNIFIED, asks};
use std::test::Fail;

const PAIR: &[u8] = b"\\existentialConstants { int a, b; } \\problem { a + b >= 5 & a <= 2 }";

const SIDES: &[u8] =
    b"\\universalConstants { int x, y; } \\problem { \\part[l] (x = 2*y) & \\part[r] (x = 1) -> false } \\interpolant { r; l }";

const SCRIPT: &[u8] = b"(declare-const x Int) (check-sat) (assert (< x x)) (check-sat)";

#[test]
fn each_job_is_done(rt: HostRuntime) -> Result<(), Fail> {
    let outside = Outside {
        source_fails: &[],
        source_most: u64::MAX,
        sink_fails: &[],
        sink_most: 3,
    };
    let rows: [(&[&str], &[u8], (u8, &str)); 12] = [
        (&["solve", "f"], UNIFIED, (0, ANSWER)),
        (
            &["solve", "f", "--proof"],
            UNIFIED,
            (
                0,
                "VALID\nconstraint: a - 3 = 0\nsolution: a = 3\nproof:\nprincess-proof 1\ncharges 18\nalpha 0\nclose\nlog\ngives c0 - 3 = 0\ngives c0 - 3 = 0\nsolution 3\n",
            ),
        ),
        (
            &["solve", "f", "--short"],
            UNIFIED,
            (
                0,
                "VALID\nconstraint: a - 3 = 0\nsolution: a = 3\nproof:\nprincess-proof 2\nparts 0\ncharges 18\nalpha 0\nclose\nlog\ngives c0 - 3 = 0\ngives c0 - 3 = 0\nsolution 3\n",
            ),
        ),
        (&["solve", "f"], b"\\problem { 2 = 3 }", (1, "INVALID\n")),
        (
            &["solve", "f"],
            SIDES,
            (0, "VALID\ninterpolant: x - 1 = 0\n"),
        ),
        (
            &["check", "f", "g"],
            UNIFIED,
            (0, "CHECKED VALID\nconstraint: a - 3 = 0\nsolution: a = 3\n"),
        ),
        (
            &["elim", "f"],
            PAIR,
            (0, "constraint: -a + 2 >= 0 & a + b - 5 >= 0\n"),
        ),
        (
            &["least", "f", "a + 2*b"],
            PAIR,
            (0, "least: 8\nat: a = 2, b = 3\n"),
        ),
        (&["smt", "f"], SCRIPT, (0, "sat\nunsat\n")),
        (&["drill", "2"], b"", (0, "drill 2: VALID\n")),
        (&["solve", "f"], b"", (3, "refused: Syntax at 0\n")),
        (&[], b"", (5, "refused words\n")),
    ];
    for (words, f, answer) in rows {
        asks(&rt, rt.alloc(), words, f, &outside, answer)?;
    }
    Ok(())
}
