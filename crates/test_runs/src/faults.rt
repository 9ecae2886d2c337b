// Reads and writes that fail, and those that move few bytes: the status, and the bytes taken before that.

use crate::runs::{ANSWER, Outside, UNIFIED, asks};
use std::test::Fail;

const TRUE: &[u8] = b"\\problem { true }";

// The outside with a source that fails at these calls and gives this many bytes a read.
fn reading(source_fails: &[u64], source_most: u64) -> Outside<'_> {
    Outside {
        source_fails,
        source_most,
        sink_fails: &[],
        sink_most: 3,
    }
}

#[test]
fn reads_that_fail_end_a_run(rt: HostRuntime) -> Result<(), Fail> {
    let rows: [(&[&str], &[u8], &[u64], u64, (u8, &str)); 7] = [
        (&["solve", "f"], UNIFIED, &[0], u64::MAX, (6, "")),
        (&["solve", "f"], UNIFIED, &[1], u64::MAX, (6, "")),
        (&["solve", "f"], UNIFIED, &[2], u64::MAX, (6, "")),
        (&["solve", "f"], UNIFIED, &[3], u64::MAX, (0, ANSWER)),
        (&["solve", "f"], UNIFIED, &[], 1, (0, ANSWER)),
        (&["check", "f", "g"], UNIFIED, &[5], u64::MAX, (6, "")),
        (&["check", "f", "g"], b"", &[2], u64::MAX, (6, "")),
    ];
    for (words, f, source_fails, source_most, answer) in rows {
        let outside = reading(source_fails, source_most);
        asks(&rt, rt.alloc(), words, f, &outside, answer)?;
    }
    Ok(())
}

#[test]
fn a_long_file_is_read_to_its_limit(rt: HostRuntime) -> Result<(), Fail> {
    let spaces = vec![in rt.alloc(); b' '; 1_048_577]?;
    let rows: [(&[u64], (u8, &str)); 2] = [
        (&[17], (6, "")),
        (&[18], (9, "refused: file too long\n")),
    ];
    for (source_fails, answer) in rows {
        let outside = reading(source_fails, u64::MAX);
        asks(
            &rt,
            rt.alloc(),
            &["solve", "f"],
            spaces.as_slice(),
            &outside,
            answer,
        )?;
    }
    Ok(())
}

#[test]
fn writes_that_fail_end_a_run(rt: HostRuntime) -> Result<(), Fail> {
    let rows: [(u64, &[u64], (u8, &str)); 3] = [
        (10, &[2], (7, "VALID\nconstraint: a ")),
        (44, &[1], (0, ANSWER)),
        (44, &[0], (7, "")),
    ];
    for (sink_most, sink_fails, answer) in rows {
        let outside = Outside {
            source_fails: &[],
            source_most: u64::MAX,
            sink_fails,
            sink_most,
        };
        asks(&rt, rt.alloc(), &["solve", "f"], UNIFIED, &outside, answer)?;
    }
    Ok(())
}

#[test]
fn faults_end_a_run(rt: HostRuntime) -> Result<(), Fail> {
    let rows: [(&[u64], &[u64], (u8, &str)); 6] = [
        (&[0], &[], (6, "")),
        (&[1], &[], (6, "")),
        (&[2], &[], (6, "")),
        (&[3], &[2], (0, "VALID\n")),
        (&[], &[1], (7, "VAL")),
        (&[], &[0], (7, "")),
    ];
    for (source_fails, sink_fails, answer) in rows {
        let outside = Outside {
            source_fails,
            source_most: u64::MAX,
            sink_fails,
            sink_most: 3,
        };
        asks(&rt, rt.alloc(), &["solve", "f"], TRUE, &outside, answer)?;
    }
    Ok(())
}
