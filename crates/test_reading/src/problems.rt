// Each fault of typing once at its exact offset, counted by hand, and what a name stands for.

use pri_reader::read;
use pri_typing::{
    TypeRefusal, components_law, cuts_law, existentials_law, holds_law, least_law, limits_law,
    names_law, place_order_law, purity_law, resolve, says_law, well_formed_law,
};
use std::alloc::{AllocError, Global};
use std::process::Abort;
use std::test::Fail;

/// Declarations of a constant c, a function f of one argument and one without, g, and a predicate p of one argument and
/// one without, q: 89 bytes, so that a formula after them and `\problem { ` stands at 100.
const DECLARED: &str =
    "\\existentialConstants { int c; } \\functions { int f(int), g; } \\predicates { p(int), q; }";

/// The least fault of a file of the grammar; none where it poses a problem.
#[tactic(auto, using(pri_typing::proofs::Answered::file_resolvable))]
fn fault(alloc: Global, text: &str) -> Option<TypeRefusal> {
    if text.len() >= 4_294_967_296 {
        return Some(TypeRefusal::Memory);
    }
    match read(alloc, text.as_bytes()) {
        Ok(file) => resolve(alloc, &file).err(),
        Err(_) => Some(TypeRefusal::Memory),
    }
}

/// Asks that this is the least fault of a file.
fn has_fault(rt: &impl Abort, alloc: Global, text: &str, wanted: Option<TypeRefusal>, at: &str) {
    assert_eq!(rt; fault(alloc, text), wanted, "at {at}");
}

/// A problem after the declarations.
fn behind_declarations(alloc: Global, formula: &str) -> Result<String, AllocError> {
    let mut text = String::from_str(alloc, DECLARED)?;
    text.push_str("\\problem { ")?;
    text.push_str(formula)?;
    text.push_str(" }")?;
    Ok(text)
}

#[test]
fn formulas_are_typed(rt: HostRuntime) -> Result<(), Fail> {
    names_law();
    well_formed_law();
    least_law::<u64>();
    place_order_law();
    for (formula, wanted) in [
        ("f(g) = c", None),
        ("x = c", Some(TypeRefusal::Undeclared(100))),
        ("c = f", Some(TypeRefusal::Arity(104))),
        ("c(c) = g", Some(TypeRefusal::Arity(100))),
        ("p(q)", Some(TypeRefusal::Kind(102))),
        ("p = c", Some(TypeRefusal::Arity(100))),
        ("(c)", Some(TypeRefusal::Kind(100))),
        ("(x)", Some(TypeRefusal::Undeclared(101))),
        ("c & x", Some(TypeRefusal::Kind(100))),
        ("2 * c = c", None),
        ("c * x = c", Some(TypeRefusal::NonLinear(102))),
        ("\\forall int q; q = q", None),
        ("\\forall int q; q", Some(TypeRefusal::Kind(115))),
    ] {
        let text = behind_declarations(rt.alloc(), formula)?;
        has_fault(&rt, rt.alloc(), text.as_str(), wanted, formula);
    }
    Ok(())
}

/// A file of this many declarations of different constants, and the first of them again if asked: the name of the i-th
/// stands at 26 + 11 i.
fn declared(alloc: Global, count: u16, again: bool) -> Result<String, AllocError> {
    let mut text = String::from_str(alloc, "\\universalConstants { ")?;
    for i in 0..count {
        let number = (1000 + u32::from(i)).to_string(alloc)?;
        text.push_str("int x")?;
        text.push_str(number.as_str())?;
        text.push_str("; ")?;
    }
    if again {
        text.push_str("int x1000; ")?;
    }
    text.push_str("} \\problem { true }")?;
    Ok(text)
}

#[test]
fn declarations_differ_and_are_few(rt: HostRuntime) -> Result<(), Fail> {
    limits_law();
    for (count, again, wanted) in [
        (1000, false, None),
        (1001, false, Some(TypeRefusal::Many(11026))),
        (7, true, Some(TypeRefusal::Redeclared(103))),
    ] {
        let text = declared(rt.alloc(), count, again)?;
        let at = count.to_string(rt.alloc())?;
        has_fault(&rt, rt.alloc(), text.as_str(), wanted, at.as_str());
    }
    Ok(())
}

#[test]
fn cuts_divide_the_parts(rt: HostRuntime) {
    components_law();
    cuts_law();
    for (text, wanted) in [
        (
            "\\problem { \\part [a] true -> \\part [b] true } \\interpolant { b; a }",
            None,
        ),
        // a part is missing
        (
            "\\problem { \\part [a] true -> \\part [b] true } \\interpolant { a; a }",
            Some(TypeRefusal::Parts(46)),
        ),
        // no part has this name
        (
            "\\problem { \\part [a] true -> \\part [b] true } \\interpolant { a, b; x }",
            Some(TypeRefusal::Parts(67)),
        ),
        // an existential constant
        (
            "\\existentialConstants { int c; } \\problem { \\part [a] true -> \\part [b] true } \\interpolant { a; b }",
            Some(TypeRefusal::Parts(79)),
        ),
        // a part inside a part
        (
            "\\problem { \\part [a] \\part [b] true } \\interpolant { a; b }",
            Some(TypeRefusal::Parts(21)),
        ),
        // an equivalence, and a conjunction, are no components
        (
            "\\problem { \\part [a] true <-> true } \\interpolant { a; a }",
            Some(TypeRefusal::Parts(11)),
        ),
        (
            "\\problem { true & true } \\interpolant { a; b }",
            Some(TypeRefusal::Parts(11)),
        ),
        // under a negation the members of a conjunction are
        (
            "\\problem { !(true & \\part [a] true) -> \\part [b] true } \\interpolant { b; a }",
            Some(TypeRefusal::Parts(13)),
        ),
        (
            "\\problem { (true & \\part [a] true) -> \\part [b] true } \\interpolant { b; a }",
            None,
        ),
    ] {
        has_fault(&rt, rt.alloc(), text, wanted, text);
    }
}

#[test]
fn laws_of_problems_are_proved() {
    holds_law();
    existentials_law();
    purity_law();
    says_law();
}
