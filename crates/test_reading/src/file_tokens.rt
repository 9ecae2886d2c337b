// The tokens of texts, worked out by hand.

use base_numerals::numeral;
use pri_tokens::{
    Lexeme, Terminal, Token, TokenKind, lexemes, spelling, spelling_law, tokens, tokens_law,
};
use std::alloc::Global;
use std::process::Abort;
use std::test::Fail;

// Asks that a text is one token of this terminal, with the text as its spelling.
fn is_one_token(
    rt: &impl Abort,
    alloc: Global,
    text: &str,
    terminal: Terminal,
) -> Result<(), Fail> {
    let found = lexemes(alloc, text.as_bytes())?;
    let wanted = Lexeme {
        at: 0,
        len: text.len() as u64,
        terminal,
    };
    assert!(rt; found.as_slice() == [wanted].as_slice(), "at {text}");
    assert!(rt; spelling(text.as_bytes(), &wanted) == text.as_bytes());
    Ok(())
}

#[test]
fn a_text_is_one_token(rt: HostRuntime) -> Result<(), Fail> {
    for (text, terminal) in [
        ("int", Terminal::Int),
        ("nat", Terminal::Nat),
        ("\\forall", Terminal::Forall),
        ("<->", Terminal::Iff),
        ("x_1", Terminal::Identifier),
        ("_", Terminal::Identifier),
        ("ints", Terminal::Identifier),
        ("nat1", Terminal::Identifier),
        ("0127", Terminal::Number),
        ("\\problemx", Terminal::Bad),
        ("\\", Terminal::Bad),
        ("/", Terminal::Bad),
        ("#", Terminal::Bad),
        ("/*/ int", Terminal::Bad),
        ("/* int *", Terminal::Bad),
    ] {
        is_one_token(&rt, rt.alloc(), text, terminal)?;
    }
    Ok(())
}

// The token at this offset, so long and of this kind.
fn token((at, len, kind): (u64, u64, TokenKind)) -> Token {
    Token { at, len, kind }
}

// Asks that the tokens of a text are these two.
fn are_two_tokens(
    rt: &impl Abort,
    alloc: Global,
    text: &str,
    [first, second]: [(u64, u64, TokenKind); 2],
) -> Result<(), Fail> {
    let found = tokens(alloc, text.as_bytes())?;
    assert!(rt;
        found.as_slice() == [token(first), token(second)].as_slice(),
        "in {text}"
    );
    Ok(())
}

#[test]
fn blanks_part_tokens(rt: HostRuntime) -> Result<(), Fail> {
    tokens_law();
    spelling_law();
    for (text, first, second) in [
        ("1 = ", (0, 1, TokenKind::Number), (2, 1, TokenKind::Sign)),
        (
            "\t1/* } /* * */\r\nint",
            (1, 1, TokenKind::Number),
            (16, 3, TokenKind::Word),
        ),
        (
            "// a\r b\nx \\if//",
            (8, 1, TokenKind::Identifier),
            (10, 3, TokenKind::Command),
        ),
        ("<-", (0, 1, TokenKind::Sign), (1, 1, TokenKind::Sign)),
        (
            "a/**/#",
            (0, 1, TokenKind::Identifier),
            (5, 1, TokenKind::Bad),
        ),
    ] {
        are_two_tokens(&rt, rt.alloc(), text, [first, second])?;
    }
    Ok(())
}

#[test]
fn numerals_end_below_two_to_127(rt: HostRuntime) {
    for (digits, value) in [
        ("0", Some(0)),
        ("007", Some(7)),
        ("170141183460469231731687303715884105727", Some(i128::MAX)),
        ("170141183460469231731687303715884105728", None),
        ("340282366920938463463374607431768211456", None),
        ("1000000000000000000000000000000000000000000000000", None),
    ] {
        assert_eq!(rt; numeral(digits.as_bytes()), value, "at {digits}");
    }
}

#[test]
fn a_file_of_spaces_has_no_tokens(rt: HostRuntime) -> Result<(), Fail> {
    let mut text = Vec::new(rt.alloc());
    for _ in 0..1_048_576 {
        text.push(b' ')?;
    }
    assert_eq!(rt; tokens(rt.alloc(), &text)?.len(), 0);
    Ok(())
}
