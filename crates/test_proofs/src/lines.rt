// The lines that a proof's text gives, one by one; a part stands for its entries wherever a line uses it.

use crate::files::{USED, has_two_entries};
use proof_file::{Line, Lines, ProofLines};
use sequent::Pick;
use std::alloc::{AllocError, Global};

/// What comes next: a rule with its position and the number of its premises, or another line, which is told by its length.
#[derive(Clone, Copy, PartialEq, Eq)]
enum Step {
    Alpha(u32, u32),
    Close(u32),
    OtherRow,
    Log(usize),
    Gives(usize),
    End,
    Nothing,
    Memory,
}

fn next_step<L: ProofLines>(alloc: Global, lines: &mut L) -> Step {
    match lines.next(alloc) {
        Ok(Some(Line::Row(Pick::Alpha(position), count))) => Step::Alpha(position, count),
        Ok(Some(Line::Row(Pick::Close, count))) => Step::Close(count),
        Ok(Some(Line::Row(_, _))) => Step::OtherRow,
        Ok(Some(Line::Log)) => Step::Log(lines.log().entries.len()),
        Ok(Some(Line::Gives(clauses))) => Step::Gives(clauses.len()),
        Ok(Some(Line::End)) => Step::End,
        Ok(None) => Step::Nothing,
        Err(_) => Step::Memory,
    }
}

/// Whether these lines come in this order from a text that charges 18, and after them a log of two entries as the conclusion, or
/// another one.
fn gives_in_order(alloc: Global, text: &str, steps: &[Step], two_entries: bool) -> bool {
    match Lines::new(alloc, text.as_bytes()) {
        Ok(mut lines) => {
            let mut same = lines.charges() == 18;
            for is in steps {
                same = next_step(alloc, &mut lines) == *is && same;
            }
            same && has_two_entries(lines.conclusion()) == two_entries
        }
        Err(_) => false,
    }
}

#[test]
fn lines_come_in_their_order(rt: HostRuntime) -> Result<(), AllocError> {
    let text =
        "princess-proof 1\ncharges 18\nalpha 0\nclose\nlog e0 s1\ngives c0 - 3 = 0\ngives c0 - 3 = 0 | c0 >= 0\nsolution 3\n";
    let first = [
        Step::Alpha(0, 1),
        Step::Close(0),
        Step::Log(2),
        Step::Gives(1),
        Step::Gives(2),
        Step::End,
        Step::Nothing,
        Step::Nothing,
    ];
    assert!(rt; gives_in_order(rt.alloc(), text, &first, false));
    let second = [
        Step::OtherRow,
        Step::Close(0),
        Step::Log(2),
        Step::Gives(1),
        Step::Log(2),
        Step::Gives(1),
        Step::End,
        Step::Nothing,
    ];
    assert!(rt; gives_in_order(rt.alloc(), USED, &second, true));
    Ok(())
}
