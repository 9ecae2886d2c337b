// Files that are read and files that are refused, with offsets counted by hand.

use pri_reader::{
    Block, Declared, File, Form, ReadRefusal, TypeName, completion_law, first_refusal_law,
    machine_law, one_file_law, read,
};
use std::alloc::{AllocError, Global};
use std::process::Abort;
use std::test::Fail;

// What is wrong with a file; none where it is read.
fn refusal(alloc: Global, text: &str) -> Option<ReadRefusal> {
    if text.len() >= 4_294_967_296 {
        return Some(ReadRefusal::Memory);
    }
    read(alloc, text.as_bytes()).err()
}

// Asks that this is what is wrong with the text.
fn ends(rt: &impl Abort, alloc: Global, text: &str, wanted: Option<ReadRefusal>, at: &str) {
    assert_eq!(rt; refusal(alloc, text), wanted, "at {at}");
}

// The beginning of a `\problem`, with this text this many times.
fn opened(alloc: Global, before: &str, times: u32) -> Result<String, AllocError> {
    let mut text = String::from_str(alloc, "\\problem { ")?;
    for _ in 0..times {
        text.push_str(before)?;
    }
    Ok(text)
}

// A `\problem` of this text in its middle, this many times with the one before it and the other after it.
fn nested(
    alloc: Global,
    before: &str,
    middle: &str,
    behind: &str,
    times: u32,
) -> Result<String, AllocError> {
    let mut text = opened(alloc, before, times)?;
    text.push_str(middle)?;
    for _ in 0..times {
        text.push_str(behind)?;
    }
    text.push_str(" }")?;
    Ok(text)
}

// Asks that this is what is wrong with a `\problem` so nested.
fn nested_ends(
    rt: &impl Abort,
    alloc: Global,
    (before, middle, behind): (&str, &str, &str),
    times: u32,
    wanted: Option<ReadRefusal>,
) -> Result<(), Fail> {
    let text = nested(alloc, before, middle, behind, times)?;
    let at = if middle == "1" { before } else { middle };
    ends(rt, alloc, text.as_str(), wanted, at);
    Ok(())
}

#[test]
fn files_of_the_grammar_are_read(rt: HostRuntime) {
    machine_law();
    one_file_law();
    for text in [
        "\\problem { true }",
        "\\problem{1=1}//",
        "\\problem { true } \\functions { }",
        "\\functions { int f(int x, int), g, h(); int i; } \\problem { f(1, g) = h() + i }",
        "\\predicates { p; q(int), r(); } \\problem { p & q(0) | r() }",
        "\\universalConstants { int a, b; int c; } \\existentialConstants { } \\problem { a < b }",
        "\\interpolant { p, q; r; p } \\problem { \\part [p] true } \\interpolant { a; b }",
        "\\problem { \\forall int x, y; \\exists (int a, b; int c) (x + a - 3*y*b <= c) }",
        "\\universalConstants { nat n, m; int[0, 9] i; } \\problem { n < i }",
        "\\existentialConstants { int[-3,-1] a; int [ - 2 /* b */ , 5 ] b; } \\problem { a < b }",
        "\\problem { \\forall nat x; \\exists (int[1, 2] a, b; nat c; int d) (x + a - c <= b + d) }",
        "\\problem { \\forall int[-170141183460469231731687303715884105727, 170141183460469231731687303715884105727] x; x = x }",
        "\\universalConstants { int[3, 1] x; } \\problem { x = 0 }",
        "\\problem { ! a -> b <-> c -> ! (d | e & f) }",
        "\\problem { \\if (a) \\then (1) \\else (-x) >= \\abs(y) + \\min(1, 2) * \\max(3, 4) }",
        "\\problem { 170141183460469231731687303715884105727 != 0 /* } */ }",
    ] {
        ends(&rt, rt.alloc(), text, None, text);
    }
}

#[test]
fn files_are_refused_at_the_first_token(rt: HostRuntime) {
    completion_law();
    first_refusal_law();
    for (text, wanted) in [
        ("", ReadRefusal::Syntax(0)),
        ("\\functions { } ", ReadRefusal::Syntax(15)),
        ("\\problemx { true }", ReadRefusal::Syntax(0)),
        (
            "\\problem { true } \\problem { true }",
            ReadRefusal::Syntax(18),
        ),
        (
            "\\universalConstants { int x, int y; }",
            ReadRefusal::Syntax(29),
        ),
        ("\\problem { 1 < 2 <= 3 }", ReadRefusal::Syntax(17)),
        ("\\problem { \\forall int x true }", ReadRefusal::Syntax(25)),
        ("\\problem { a /* }", ReadRefusal::Syntax(13)),
        (
            "\\problem { # 170141183460469231731687303715884105728 }",
            ReadRefusal::Syntax(11),
        ),
        (
            "\\problem { f(0, 170141183460469231731687303715884105728",
            ReadRefusal::Literal(16),
        ),
    ] {
        ends(&rt, rt.alloc(), text, Some(wanted), text);
    }
}

#[test]
fn types_are_refused_at_the_first_token(rt: HostRuntime) {
    for (text, wanted) in [
        (
            "\\universalConstants { int[1, 2 x; }",
            ReadRefusal::Syntax(31),
        ),
        (
            "\\universalConstants { nat[1, 2] x; }",
            ReadRefusal::Syntax(25),
        ),
        ("\\functions { int f(nat); }", ReadRefusal::Syntax(19)),
        (
            "\\problem { \\forall (nat x; nat) true }",
            ReadRefusal::Syntax(30),
        ),
        (
            "\\universalConstants { int[1, 170141183460469231731687303715884105728] x; }",
            ReadRefusal::Literal(29),
        ),
        (
            "\\universalConstants { int[1 170141183460469231731687303715884105728] x; }",
            ReadRefusal::Syntax(28),
        ),
    ] {
        ends(&rt, rt.alloc(), text, Some(wanted), text);
    }
}

// Inside 200 parentheses no further level may be opened, but a word that opens none is no refusal yet.
#[test]
fn words_before_a_level_are_read(rt: HostRuntime) -> Result<(), Fail> {
    for (middle, wanted) in [
        ("\\forall x; 1", ReadRefusal::Syntax(219)),
        ("\\forall int 1; 1", ReadRefusal::Syntax(223)),
        ("\\forall int x; 1", ReadRefusal::Deep(223)),
        ("\\forall nat 1; 1", ReadRefusal::Syntax(223)),
        ("\\forall int[-1, -2] x; 1", ReadRefusal::Deep(231)),
        ("\\forall int[-1, -] x; 1", ReadRefusal::Syntax(228)),
        ("\\if 1", ReadRefusal::Syntax(215)),
        ("\\if (1) \\then (1) \\else (1)", ReadRefusal::Deep(215)),
        ("\\part a 1", ReadRefusal::Deep(211)),
        ("f(1)", ReadRefusal::Deep(212)),
        ("f 1", ReadRefusal::Syntax(213)),
    ] {
        nested_ends(&rt, rt.alloc(), ("(", middle, ")"), 200, Some(wanted))?;
    }
    Ok(())
}

// Asks that 200 such levels are read, and the 201st is refused at this place inside it.
fn levels_end(
    rt: &impl Abort,
    alloc: Global,
    before: &str,
    behind: &str,
    place: u8,
) -> Result<(), Fail> {
    nested_ends(rt, alloc, (before, "1", behind), 200, None)?;
    let wanted = opened(alloc, before, 200)?.len() as u64 + u64::from(place);
    let refused = Some(ReadRefusal::Deep(wanted));
    nested_ends(rt, alloc, (before, "1", behind), 201, refused)
}

#[test]
fn two_hundred_levels_are_read(rt: HostRuntime) -> Result<(), Fail> {
    for (before, behind, place) in [
        ("(", ")", 0),
        ("!", "", 0),
        ("-", "", 0),
        ("\\part [p] ", "", 0),
        ("\\forall int x; ", "", 12),
        ("\\forall nat x; ", "", 12),
        ("\\exists int[-1, -2] x; ", "", 20),
        ("a -> ", "", 2),
        ("a <-> ", "", 2),
        ("a * ", "", 2),
        ("f(", ")", 1),
        ("\\abs(", ")", 4),
        ("\\min(", ", 1)", 4),
        ("\\if (", ") \\then (1) \\else (2)", 4),
    ] {
        levels_end(&rt, rt.alloc(), before, behind, place)?;
    }
    Ok(())
}

#[test]
fn chains_open_no_levels(rt: HostRuntime) -> Result<(), Fail> {
    for before in ["a & ", "a | ", "a + ", "a - ", "a | b & "] {
        nested_ends(&rt, rt.alloc(), (before, "1", ""), 100_000, None)?;
    }
    Ok(())
}

// Whether the problem is `(a -> b) <-> (c <-> d)`.
fn is_grouped_right(file: &File) -> bool {
    let Some(Block::Problem(0, problem)) = file.blocks.get(0) else {
        return false;
    };
    let Form::Iff(left, right) = &problem.form else {
        return false;
    };
    matches!(&left.get().form, Form::Implies(_, _))
        && matches!(&right.get().form, Form::Iff(_, _))
        && right.get().at == 22
}

#[test]
fn signs_group_as_the_grammar_says(rt: HostRuntime) {
    match read(rt.alloc(), "\\problem { a -> b <-> c <-> d }".as_bytes()) {
        Ok(file) => assert!(rt; is_grouped_right(&file)),
        Err(refusal) => assert_eq!(rt; Some(refusal), None),
    }
}

// Whether this name has this type and begins at this offset.
fn is_typed(declared: Option<&Declared>, sort: TypeName, at: u64) -> bool {
    match declared {
        Some(found) => found.sort == sort && found.name.at == at,
        None => false,
    }
}

// Whether the constants are `nat a, b` and `int[-3, 2] c`, and the bound names of the problem `int x, y` and `nat z`.
fn is_typed_as_written(file: &File) -> bool {
    let Some(Block::Existentials(0, constants)) = file.blocks.get(0) else {
        return false;
    };
    let Some(Block::Problem(55, problem)) = file.blocks.get(1) else {
        return false;
    };
    let Form::Quantified(true, bound, _) = &problem.form else {
        return false;
    };
    is_typed(constants.get(0), TypeName::Nat, 28)
        && is_typed(constants.get(1), TypeName::Nat, 31)
        && is_typed(constants.get(2), TypeName::Range(-3, 2), 50)
        && is_typed(bound.get(0), TypeName::Int, 79)
        && is_typed(bound.get(1), TypeName::Int, 82)
        && is_typed(bound.get(2), TypeName::Nat, 89)
}

#[test]
fn names_have_the_types_of_their_lines(rt: HostRuntime) {
    let text =
        "\\existentialConstants { nat a, b; int [ - 3 , 2 ] c; } \\problem { \\forall (int x, y; nat z) true }";
    match read(rt.alloc(), text.as_bytes()) {
        Ok(file) => assert!(rt; is_typed_as_written(&file)),
        Err(refusal) => assert_eq!(rt; Some(refusal), None),
    }
}
