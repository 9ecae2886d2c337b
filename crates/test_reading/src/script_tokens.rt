// The tokens of scripts, worked out by hand.

use smt_tokens::{Terminal, lexemes, tokens_law};
use std::alloc::{AllocError, Global};

/// Whether a text is cut into these tokens, each with its place and its length.
fn is_cut(alloc: Global, text: &str, wanted: &[(u64, u64, Terminal)]) -> Result<bool, AllocError> {
    let found = lexemes(alloc, text.as_bytes())?;
    if found.len() != wanted.len() {
        return Ok(false);
    }
    for (x, want) in found.as_slice().iter().zip(wanted) {
        if x.at != want.0 || x.len != want.1 || x.terminal != want.2 {
            return Ok(false);
        }
    }
    Ok(true)
}

#[test]
fn every_terminal_is_cut(rt: HostRuntime) -> Result<(), AllocError> {
    let all = [
        (0, 1, Terminal::Open),
        (1, 1, Terminal::Symbol),
        (2, 5, Terminal::Quoted),
        (7, 2, Terminal::Keyword),
        (10, 2, Terminal::Numeral),
        (13, 3, Terminal::Decimal),
        (17, 3, Terminal::Symbol),
        (20, 4, Terminal::Hash),
        (25, 4, Terminal::Hash),
        (29, 6, Terminal::StringLiteral),
        (35, 1, Terminal::Close),
        (39, 5, Terminal::Unfinished),
    ];
    let text = "(a|b c|:k 70 0.5 x.1#xaF #b01\"p\"\"q\");c\n\"open";
    assert!(rt; is_cut(rt.alloc(), text, &all)?);
    for (text, at, terminal) in [
        ("0", 0, Terminal::Numeral),
        ("120", 0, Terminal::Numeral),
        ("0.0", 0, Terminal::Decimal),
        ("#xABCDEF0123456789abcdef", 0, Terminal::Hash),
        ("#b0", 0, Terminal::Hash),
        ("\"\"", 0, Terminal::StringLiteral),
        ("\"a\"\"b\"", 0, Terminal::StringLiteral),
        ("\"\\\"", 0, Terminal::StringLiteral),
        ("\"\r\n\"", 0, Terminal::StringLiteral),
        (":56", 0, Terminal::Keyword),
        (":smt-lib-version", 0, Terminal::Keyword),
        ("<=", 0, Terminal::Symbol),
        ("~!@$%^&*_-+=<>.?/", 0, Terminal::Symbol),
        ("||", 0, Terminal::Quoted),
        ("|a b \" ;(\n|", 0, Terminal::Quoted),
        ("|é|", 0, Terminal::Quoted),
        ("\"a\"\"b", 0, Terminal::Unfinished),
        ("|a", 0, Terminal::Unfinished),
        ("007", 0, Terminal::Bad),
        ("1a", 0, Terminal::Bad),
        ("0x1F", 0, Terminal::Bad),
        ("00.5", 0, Terminal::Bad),
        ("1.", 0, Terminal::Bad),
        ("1.5.2", 0, Terminal::Bad),
        ("1-2", 0, Terminal::Bad),
        (":", 0, Terminal::Bad),
        ("#", 0, Terminal::Bad),
        ("#b", 0, Terminal::Bad),
        ("#x", 0, Terminal::Bad),
        ("[a]", 0, Terminal::Bad),
        ("|a\\|", 0, Terminal::Bad),
        ("|\u{7f}|", 0, Terminal::Bad),
        ("\"\u{1}", 0, Terminal::Bad),
        ("é", 0, Terminal::Bad),
        ("; ( \"\n7", 6, Terminal::Numeral),
        (";;\r7", 3, Terminal::Numeral),
        (" \t\r\n;\n7", 6, Terminal::Numeral),
    ] {
        let len = (text.len() as u64).saturating_sub(at);
        assert!(rt; is_cut(rt.alloc(), text, &[(at, len, terminal)])?);
    }
    for text in ["7;", "7 ;|"] {
        assert!(rt; is_cut(rt.alloc(), text, &[(0, 1, Terminal::Numeral)])?);
    }
    tokens_law();
    Ok(())
}
