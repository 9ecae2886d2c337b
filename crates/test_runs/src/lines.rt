// The lines of answers, and that they are put.

use base_answers::{put_all, refused, refused_at, refused_proof, say, unknown};
use prover_io::MemorySink;
use std::test::Fail;

#[test]
fn lines_are_made_and_put(rt: HostRuntime) -> Result<(), Fail> {
    let alloc = rt.alloc();
    for (output, status, text) in [
        (say(alloc, 0, b"VALID")?, 0, "VALID\n"),
        (refused(alloc, b"Large")?, 3, "refused: Large\n"),
        (
            refused_at(alloc, b"Syntax", 18)?,
            3,
            "refused: Syntax at 18\n",
        ),
        (
            refused_proof(alloc, b"node ", 18)?,
            4,
            "refused proof: node 18\n",
        ),
        (unknown(alloc, b"overflow")?, 2, "UNKNOWN: overflow\n"),
    ] {
        let mut sink = MemorySink::new(alloc, 64, 3, Vec::new(alloc))?;
        assert_eq!(rt; output.status, status, "at {text}");
        assert!(rt;
            put_all(&mut sink, output.text.as_slice()).is_ok(),
            "at {text}"
        );
        assert_eq!(rt; sink.taken(), text.as_bytes(), "at {text}");
    }
    Ok(())
}
