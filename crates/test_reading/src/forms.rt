// Each form of a formula and a term once, with both signs; conditions and functions inside each other; parts.

use crate::shown::{counted, is_assumed, is_encoded, joined};
use std::alloc::{AllocError, Global};
use std::process::Abort;
use std::test::Fail;

/// The constants x and y are the names 0 and 1, f is the function 0, p and q are the predicates 0 and 1.
const DECLARED: &str =
    "\\existentialConstants { int x, y; } \\functions { int f(int); } \\predicates { p; q(int); }";

fn file(alloc: Global, before: &str, formula: &str, behind: &str) -> Result<String, AllocError> {
    joined(
        alloc,
        &[DECLARED, " \\problem { ", before, formula, behind, " }"],
    )
}

fn is(
    rt: &impl Abort,
    alloc: Global,
    before: &str,
    formula: &str,
    behind: &str,
    wanted: &str,
) -> Result<(), Fail> {
    let text = file(alloc, before, formula, behind)?;
    is_encoded(rt, alloc, text.as_str(), wanted)
}

/// A row: a formula, and what it is with plus and with minus.
type Row = (&'static str, &'static str, &'static str);

fn are(rt: &impl Abort, alloc: Global, rows: &[Row]) -> Result<(), Fail> {
    for (formula, plus, minus) in rows {
        is(rt, alloc, "", formula, "", plus)?;
        is(rt, alloc, "!(", formula, ")", minus)?;
    }
    Ok(())
}

#[test]
fn connectives_go_by_their_sign(rt: HostRuntime) -> Result<(), Fail> {
    are(
        &rt,
        rt.alloc(),
        &[
            ("true", "And[]", "Or[]"),
            ("false", "Or[]", "And[]"),
            ("p", "P0()", "!P0()"),
            ("!p", "!P0()", "P0()"),
            ("p & q(x)", "And[P0(),P1(+1x0+0)]", "Or[!P0(),!P1(+1x0+0)]"),
            (
                "p | q(x) | p",
                "Or[P0(),P1(+1x0+0),P0()]",
                "And[!P0(),!P1(+1x0+0),!P0()]",
            ),
            ("p -> q(x)", "Or[!P0(),P1(+1x0+0)]", "And[P0(),!P1(+1x0+0)]"),
            (
                "p <-> q(x)",
                "And[Or[!P0(),P1(+1x0+0)],Or[P0(),!P1(+1x0+0)]]",
                "And[Or[P0(),P1(+1x0+0)],Or[!P0(),!P1(+1x0+0)]]",
            ),
            ("\\forall int z; q(z)", "All[P1(+1x2+0)]", "Ex[!P1(+1x2+0)]"),
            ("\\exists int z; q(z)", "Ex[P1(+1x2+0)]", "All[!P1(+1x2+0)]"),
            (
                "\\forall int z; \\exists int w; z = w",
                "All[Ex[Eq(+1x2-1x3+0)]]",
                "Ex[All[Neq(+1x2-1x3+0)]]",
            ),
        ],
    )
}

#[test]
fn relations_go_by_their_sign(rt: HostRuntime) -> Result<(), Fail> {
    are(
        &rt,
        rt.alloc(),
        &[
            ("x = y + 1", "Eq(+1x0-1x1-1)", "Neq(+1x0-1x1-1)"),
            ("x != y", "Neq(+1x0-1x1+0)", "Eq(+1x0-1x1+0)"),
            ("x >= y", "Geq(+1x0-1x1+0)", "Geq(-1x0+1x1-1)"),
            ("x > y", "Geq(+1x0-1x1-1)", "Geq(-1x0+1x1+0)"),
            ("x <= y", "Geq(-1x0+1x1+0)", "Geq(+1x0-1x1-1)"),
            ("x < y", "Geq(-1x0+1x1-1)", "Geq(+1x0-1x1+0)"),
            ("2 * x - y - 3 = 0", "Eq(+2x0-1x1-3)", "Neq(+2x0-1x1-3)"),
            (
                "x * -3 = 2 * 5 - (x - y)",
                "Eq(-2x0-1x1-10)",
                "Neq(-2x0-1x1-10)",
            ),
            ("-(x + y) > -7", "Geq(-1x0-1x1+6)", "Geq(+1x0+1x1-7)"),
        ],
    )
}

#[test]
fn functions_are_relations(rt: HostRuntime) -> Result<(), Fail> {
    are(
        &rt,
        rt.alloc(),
        &[
            (
                "f(x) = y",
                "All[Or[F0(+1x0+0;+1x2+0),Eq(-1x1+1x2+0)]]",
                "All[Or[F0(+1x0+0;+1x2+0),Neq(-1x1+1x2+0)]]",
            ),
            (
                "q(f(x + 1) - y)",
                "All[Or[F0(+1x0+1;+1x2+0),P1(-1x1+1x2+0)]]",
                "All[Or[F0(+1x0+1;+1x2+0),!P1(-1x1+1x2+0)]]",
            ),
            // the inner one first
            (
                "f(f(x)) = 0",
                "All[Or[F0(+1x0+0;+1x2+0),All[Or[F0(+1x2+0;+1x3+0),Eq(+1x3+0)]]]]",
                "All[Or[F0(+1x0+0;+1x2+0),All[Or[F0(+1x2+0;+1x3+0),Neq(+1x3+0)]]]]",
            ),
            // the left one first
            (
                "f(x) = f(y)",
                "All[Or[F0(+1x0+0;+1x2+0),All[Or[F0(+1x1+0;+1x3+0),Eq(+1x2-1x3+0)]]]]",
                "All[Or[F0(+1x0+0;+1x2+0),All[Or[F0(+1x1+0;+1x3+0),Neq(+1x2-1x3+0)]]]]",
            ),
            // the value of a function has the name after those of the quantifiers
            (
                "\\forall int z; f(z) > z",
                "All[All[Or[F0(+1x2+0;+1x3+0),Geq(-1x2+1x3-1)]]]",
                "Ex[All[Or[F0(+1x2+0;+1x3+0),Geq(+1x2-1x3+0)]]]",
            ),
        ],
    )
}

#[test]
fn conditions_are_cases(rt: HostRuntime) -> Result<(), Fail> {
    are(
        &rt,
        rt.alloc(),
        &[
            (
                "\\if (p) \\then (x) \\else (y) = 3",
                "Or[And[P0(),Eq(+1x0-3)],And[!P0(),Eq(+1x1-3)]]",
                "Or[And[P0(),Neq(+1x0-3)],And[!P0(),Neq(+1x1-3)]]",
            ),
            (
                "\\abs(x) = 3",
                "Or[And[Geq(+1x0+0),Eq(+1x0-3)],And[Geq(-1x0-1),Eq(-1x0-3)]]",
                "Or[And[Geq(+1x0+0),Neq(+1x0-3)],And[Geq(-1x0-1),Neq(-1x0-3)]]",
            ),
            (
                "\\min(x, y) = 3",
                "Or[And[Geq(-1x0+1x1+0),Eq(+1x0-3)],And[Geq(+1x0-1x1-1),Eq(+1x1-3)]]",
                "Or[And[Geq(-1x0+1x1+0),Neq(+1x0-3)],And[Geq(+1x0-1x1-1),Neq(+1x1-3)]]",
            ),
            (
                "\\max(x, y) = 3",
                "Or[And[Geq(+1x0-1x1+0),Eq(+1x0-3)],And[Geq(-1x0+1x1-1),Eq(+1x1-3)]]",
                "Or[And[Geq(+1x0-1x1+0),Neq(+1x0-3)],And[Geq(-1x0+1x1-1),Neq(+1x1-3)]]",
            ),
            // what stands before and after a condition in its sum
            (
                "x + \\abs(y) - 2 = 0",
                "Or[And[Geq(+1x1+0),Eq(+1x0+1x1-2)],And[Geq(-1x1-1),Eq(+1x0-1x1-2)]]",
                "Or[And[Geq(+1x1+0),Neq(+1x0+1x1-2)],And[Geq(-1x1-1),Neq(+1x0-1x1-2)]]",
            ),
            // a function in a condition in a function
            (
                "f(\\if (f(x) = 0) \\then (1) \\else (2)) = y",
                "Or[And[All[Or[F0(+1x0+0;+1x2+0),Eq(+1x2+0)]],All[Or[F0(+1;+1x2+0),Eq(-1x1+1x2+0)]]],And[All[Or[F0(+1x0+0;+1x2+0),Neq(+1x2+0)]],All[Or[F0(+2;+1x2+0),Eq(-1x1+1x2+0)]]]]",
                "Or[And[All[Or[F0(+1x0+0;+1x2+0),Eq(+1x2+0)]],All[Or[F0(+1;+1x2+0),Neq(-1x1+1x2+0)]]],And[All[Or[F0(+1x0+0;+1x2+0),Neq(+1x2+0)]],All[Or[F0(+2;+1x2+0),Neq(-1x1+1x2+0)]]]]",
            ),
            // a condition after a function speaks of its value by the next name
            (
                "\\abs(f(x)) = y",
                "All[Or[F0(+1x0+0;+1x2+0),Or[And[Geq(+1x2+0),Eq(-1x1+1x2+0)],And[Geq(-1x2-1),Eq(-1x1-1x2+0)]]]]",
                "All[Or[F0(+1x0+0;+1x2+0),Or[And[Geq(+1x2+0),Neq(-1x1+1x2+0)],And[Geq(-1x2-1),Neq(-1x1-1x2+0)]]]]",
            ),
        ],
    )
}

#[test]
fn universal_constants_are_bound_in_their_order(rt: HostRuntime) -> Result<(), Fail> {
    let text =
        "\\universalConstants { int a, b; } \\existentialConstants { int x; } \\problem { a < b + x }";
    is_encoded(&rt, rt.alloc(), text, "All[All[Geq(+1x0-1x1+1x2-1)]]")?;
    let applied = file(rt.alloc(), "", "f(x) = y", "")?;
    for (text, wanted) in [(text, (1, true)), (applied.as_str(), (2, false))] {
        assert_eq!(rt; counted(rt.alloc(), text), Some(wanted));
    }
    Ok(())
}

#[test]
fn parts_assume_one_flat_conjunction(rt: HostRuntime) -> Result<(), Fail> {
    let text =
        "\\universalConstants { int x, y; } \\problem { \\part[l] (x = 2 * y) & \\part[m] (x > 3) -> \\part[r] (x >= 0) }";
    for (l, m, r, wanted) in [
        (true, false, false, "And[Eq(+1x0-2x1+0)]"),
        (false, true, false, "And[Geq(+1x0-4)]"),
        (false, false, true, "And[Geq(-1x0-1)]"),
        (true, false, true, "And[Eq(+1x0-2x1+0),Geq(-1x0-1)]"),
        (
            true,
            true,
            true,
            "And[Eq(+1x0-2x1+0),Geq(+1x0-4),Geq(-1x0-1)]",
        ),
        (false, false, false, "And[]"),
    ] {
        let mut set = Vec::new(rt.alloc());
        for (chosen, part) in [(r, 2), (l, 0), (m, 1)] {
            if chosen {
                set.push(part)?;
            }
        }
        is_assumed(&rt, rt.alloc(), text, set.as_slice(), wanted)?;
    }
    Ok(())
}
