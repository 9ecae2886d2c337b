// The limits on nodes, levels and numbers.

use crate::shown::{is_assumed, is_encoded, joined, measured};
use std::alloc::{AllocError, Global};
use std::test::Fail;

/// Before a chain, after it, and how often its link stands in it.
fn chain(
    alloc: Global,
    before: &str,
    link: &str,
    times: u32,
    behind: &str,
) -> Result<String, AllocError> {
    let mut text = String::from_str(alloc, before)?;
    for _ in 0..times {
        text.push_str(link)?;
    }
    text.push_str(behind)?;
    Ok(text)
}

#[test]
fn doubling_is_large_at_once(rt: HostRuntime) -> Result<(), Fail> {
    let before = "\\existentialConstants { int x; } \\predicates { p; } \\problem { ";
    for (link, times, behind) in [
        ("p <-> ", 30, "p }"),
        ("true <-> ", 30, "true }"),
        ("\\if (p) \\then (1) \\else (2) + ", 40, "x = 0 }"),
        ("\\abs(x) + ", 199, "x = 0 }"),
        // it comes before a number that leaves the range
        (
            "2 * 170141183460469231731687303715884105727 = 0 <-> ",
            30,
            "p }",
        ),
    ] {
        let text = chain(rt.alloc(), before, link, times, behind)?;
        is_encoded(&rt, rt.alloc(), text.as_str(), "Large")?;
    }
    let parts = chain(
        rt.alloc(),
        "\\predicates { p; } \\problem { \\part[a] (",
        "p <-> ",
        30,
        "p) }",
    )?;
    is_assumed(&rt, rt.alloc(), parts.as_str(), &[0], "Large")
}

/// A disjunction of chains of k equivalences, each of 6 · 2^k - 5 nodes, and of this many atoms: with two of them, of
/// 786,427 + 196,603 + 12,283 + 3,067 + 1,531 + 43 + 43 + 1 + 1 members and itself, of 1,000,000 nodes.
fn many_nodes(alloc: Global, atoms: u32) -> Result<String, AllocError> {
    let mut text = String::from_str(alloc, "\\predicates { p; } \\problem { false")?;
    for times in [17, 15, 11, 9, 8, 3, 3] {
        let member = chain(alloc, " | (", "p <-> ", times, "p)")?;
        text.push_str(member.as_str())?;
    }
    for _ in 0..atoms {
        text.push_str(" | p")?;
    }
    text.push_str(" }")?;
    Ok(text)
}

#[test]
fn a_million_nodes_are_encoded(rt: HostRuntime) -> Result<(), Fail> {
    // `false` is one of the two atoms
    for (atoms, wanted) in [(1, Some((1_000_000, 36))), (2, None)] {
        let text = many_nodes(rt.alloc(), atoms)?;
        assert_eq!(rt; measured(rt.alloc(), text.as_str()), wanted);
    }
    Ok(())
}

#[test]
fn a_long_sum_takes_no_stack(rt: HostRuntime) -> Result<(), Fail> {
    let before = "\\universalConstants { int a; } \\problem { ";
    let text = chain(rt.alloc(), before, "a + ", 299_999, "a >= 0 }")?;
    assert_eq!(rt; measured(rt.alloc(), text.as_str()), Some((2, 2)));
    Ok(())
}

#[test]
fn two_thousand_levels_are_encoded(rt: HostRuntime) -> Result<(), Fail> {
    // each function is two levels, and each universal constant one
    for (universals, functions, wanted) in [
        ("int a;", 999, Some((2_999, 2_000))),
        ("int a, b;", 999, None),
        ("", 999, Some((2_998, 1_999))),
        ("", 1_000, None),
    ] {
        let declared = " } \\functions { int f(int); } \\problem { ";
        let before = joined(
            rt.alloc(),
            &["\\universalConstants { ", universals, declared],
        )?;
        let text = chain(rt.alloc(), before.as_str(), "f(0) + ", functions, "0 = 0 }")?;
        assert_eq!(rt; measured(rt.alloc(), text.as_str()), wanted);
    }
    Ok(())
}

#[test]
fn numbers_stay_in_the_range(rt: HostRuntime) -> Result<(), Fail> {
    const MAX: &str = "170141183460469231731687303715884105727";
    for (before, behind, wanted) in [
        ("", " = 0", "Eq(+170141183460469231731687303715884105727)"),
        (
            "-",
            " >= 0",
            "Geq(-170141183460469231731687303715884105727)",
        ),
        // s - t
        (
            "",
            " = -1",
            "Overflow +1 +170141183460469231731687303715884105727 -1 -1",
        ),
        // s - t - 1
        (
            "-",
            " > 0",
            "Overflow +1 -170141183460469231731687303715884105727 +1 -1",
        ),
        // a multiple, on each side
        (
            "2 * ",
            " = 0",
            "Overflow +2 +170141183460469231731687303715884105727 +0 +0",
        ),
        (
            "(x * 2) * ",
            " = 0",
            "Overflow +170141183460469231731687303715884105727 +2 +0 +0",
        ),
        // a sum and a difference
        (
            "",
            " + 1 = 0",
            "Overflow +1 +170141183460469231731687303715884105727 +1 +1",
        ),
        (
            "-",
            " - 1 = 0",
            "Overflow +1 -170141183460469231731687303715884105727 -1 +1",
        ),
        // what stands after a member that decides the conjunction counts too
        (
            "false & ",
            " + 1 = 0",
            "Overflow +1 +170141183460469231731687303715884105727 +1 +1",
        ),
    ] {
        let declared = "\\existentialConstants { int x; } \\problem { ";
        let text = joined(rt.alloc(), &[declared, before, MAX, behind, " }"])?;
        is_encoded(&rt, rt.alloc(), text.as_str(), wanted)?;
    }
    Ok(())
}
