// A formula with some of the problem's constants under quantifiers.

ghost use Rattle.base_limits.specs.Limits.{most_constants};
ghost use Rattle.std.specs.Prelude.{◌≡◌, ◌&&◌, ◌++◌, ◌<◌, ◌≤◌, ◌∷◌, [], cond, not, false, IfOk, OnOk, length, map};
ghost use Rattle.std.specs.List.{filter};
ghost use Rattle.form_typed.specs.Formula.{formula};
ghost use Rattle.pri_typing.specs.Problems.{assumed_by};
ghost use Rattle.pri_typing.specs.WellFormed.{IsWellFormed};
ghost use Rattle.form_encoding.specs.Meaning.{type_at};
ghost use Rattle.form_encoding.specs.Problems.{constants, types};
ghost use Rattle.function_encoding.specs.Marks.{is_marked};
ghost use Rattle.itp_sides.specs.Closing as closing;
ghost use Rattle.itp_sides.specs.Closing.{numbers_from};

use crate::copying::renamed;
use form_typed::{Sort, Typed};
use function_encoding::marks_of;
use linear_term::Memory;
use pri_typing::Problem;
use sqlite_items::Boxed;
use std::alloc::Global;

/// Whether the constant has a mark in the first list and none in the second.
fn is_only_first(first: &[bool], second: &[bool], x: usize) -> bool
    requires within { x < length first.now }
    requires same { length second.now ≡ length first.now }
    ensures { result ≡ (is_marked first.now x && not (is_marked second.now x)) }
{
    first[x] && !second[x]
}

/// Puts a number after others, if it is kept.
fn put_kept(kept: bool, x: u32, out: &mut Vec<u32>) -> Result<(), Memory>
    ensures { OnOk result (out.new.items ≡ out.old.items ++ cond kept (x ∷ []) []) }
{
    if kept {
        out.push(x)?;
    }
    Ok(())
}

/// The constants, in their order, that have a mark in the first list and none in the second.
fn only_first(alloc: Global, first: &[bool], second: &[bool]) -> Result<Vec<u32>, Memory>
    requires few { length first.now ≤ most_constants }
    requires same { length second.now ≡ length first.now }
    ensures { IfOk result (λ v. v.items ≡ filter (λ x. is_marked first.now x && not (is_marked second.now x)) (numbers_from 0 (length first.now))) }
{
    let mut own = Vec::new(alloc);
    for x in 0..first.len() {
        put_kept(is_only_first(first, second, x), x as u32, &mut own)?;
    }
    Ok(own)
}

/// The constants, in their order, that stand in what the first set of parts assumes and not in what the second does.
pub fn own_constants(
    alloc: Global,
    p: &Problem,
    first: &[u32],
    second: &[u32],
) -> Result<Vec<u32>, Memory>
    requires { IsWellFormed p.now }
    ensures own { IfOk result (λ v. v.items ≡ closing.own_constants (constants p.now) (assumed_by p.now first.now) (assumed_by p.now second.now)) }
    ensures few { IfOk result (λ v. length v.items ≤ most_constants) }
{
    let own = marks_of(alloc, p, first)?;
    let others = marks_of(alloc, p, second)?;
    only_first(alloc, &own, &others)
}

/// Where one of n constants goes when those in the list get quantifiers, outermost the first.
fn rebound(n: u32, own: &[u32], x: u32) -> u32
    requires within { x < n }
    requires constants { n ≤ most_constants }
    requires few { length own.now ≤ most_constants }
    ensures { result ≡ closing.rebound n own.now x }
{
    for i in 0..own.len() {
        if own[i] == x {
            return n + i as u32;
        }
    }
    x
}

/// The same of each of the n constants.
fn table_of(alloc: Global, n: u32, own: &[u32]) -> Result<Vec<u32>, Memory>
    requires constants { n ≤ most_constants }
    requires few { length own.now ≤ most_constants }
    ensures { IfOk result (λ v. v.items ≡ map (closing.rebound n own.now) (numbers_from 0 n)) }
{
    let mut table = Vec::new(alloc);
    for x in 0..n {
        table.push(rebound(n, own, x))?;
    }
    Ok(table)
}

/// The type of a constant; of one that the problem has not it is `int`.
fn sort_at(p: &Problem, x: usize) -> Sort
    ensures { result ≡ type_at (types p.now) x }
{
    let first = p.existential_types.as_slice();
    let last = p.universal_types.as_slice();
    if x < first.len() {
        first[x]
    } else if x - first.len() < last.len() {
        last[x - first.len()]
    } else {
        Sort::Int
    }
}

/// The types of some constants.
fn sorts_of(alloc: Global, p: &Problem, own: &[u32]) -> Result<Vec<Sort>, Memory>
    ensures { IfOk result (λ v. v.items ≡ closing.types_of p.now own.now) }
{
    let mut sorts = Vec::new(alloc);
    for x in own {
        sorts.push(sort_at(p, *x as usize))?;
    }
    Ok(sorts)
}

/// The formula under a quantifier of this type.
fn bound(all: bool, sort: Sort, body: Boxed<Typed>) -> Typed
    ensures { formula result ≡ closing.quantified all (sort ∷ []) (formula body) }
{
    if all {
        Typed::Forall(sort, body)
    } else {
        Typed::Exists(sort, body)
    }
}

/// The formula under a quantifier of each of these types, the first one outermost.
fn quantified(alloc: Global, all: bool, sorts: &[Sort], body: Typed) -> Result<Typed, Memory>
    ensures { IfOk result (λ f. formula f ≡ closing.quantified all sorts.now (formula body)) }
{
    let mut whole = body;
    let mut outer = sorts;
    while let Some((last, rest)) = outer.split_last() {
        whole = bound(all, *last, Boxed::new(alloc, whole)?);
        outer = rest;
    }
    Ok(whole)
}

/// The formula under a quantifier for each of these constants of the problem.
pub fn closed(
    alloc: Global,
    p: &Problem,
    all: bool,
    own: &[u32],
    f: &Typed,
) -> Result<Typed, Memory>
    requires formed { IsWellFormed p.now }
    requires few { length own.now ≤ most_constants }
    ensures { IfOk result (λ g. formula g ≡ closing.closed all p.now own.now (formula f.now)) }
{
    let n = p.existentials.len() as u32 + p.universals.len() as u32;
    let table = table_of(alloc, n, own)?;
    let sorts = sorts_of(alloc, p, own)?;
    let body = renamed(alloc, &table, own.len() as u32, f)?;
    quantified(alloc, all, &sorts, body)
}
