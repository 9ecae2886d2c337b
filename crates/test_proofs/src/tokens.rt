// How long the first token of a proof's text is.

use proof_tokens::first_piece;
use std::alloc::AllocError;

// The length of the first token, 0 where there is none.
fn first_len(text: &str) -> usize {
    match first_piece(text.as_bytes()) {
        Some(piece) => piece.len,
        None => 0,
    }
}

#[test]
fn tokens_end_where_they_should(rt: HostRuntime) -> Result<(), AllocError> {
    for (text, len) in [
        ("", 0),
        ("018", 3),
        ("m0,1x", 5),
        ("m0,x", 2),
        ("e0,1", 2),
        ("closeX", 6),
        ("close,log", 5),
        ("-0", 1),
        (">= 0", 2),
        ("> 0", 1),
        ("princess-proof 1", 14),
        ("princes-proof 1", 7),
        ("  log", 1),
    ] {
        assert!(rt; first_len(text) == len);
    }
    Ok(())
}
