// Formulas of the calculus as text, and what is said of the text of a file.

ghost use Rattle.std.specs.Prelude.{IfOk, IfSome};
ghost use Rattle.pri_typing.specs.WellFormed.{IsWellFormed};

use formula::Core;
use function_encoding::{EncodeRefusal, Encoded, encode, encode_parts};
use linear_term::Term;
use pri_reader::read;
use pri_typing::{Problem, TypeRefusal, resolve};
use sqlite_items::Boxed;
use std::alloc::{AllocError, Global};
use std::process::Abort;
use std::test::Fail;

/// The pieces in one text.
pub fn joined(alloc: Global, pieces: &[&str]) -> Result<String, AllocError> {
    let mut text = String::new(alloc);
    for piece in pieces {
        text.push_str(piece)?;
    }
    Ok(text)
}

/// `+2x0-1x1+3`.
fn push_term(alloc: Global, out: &mut String, t: &Term) -> Result<(), AllocError> {
    for (x, k) in t.pairs() {
        push_number(alloc, out, *k)?;
        out.push_str("x")?;
        push_digits(alloc, out, *x as i128)?;
    }
    push_number(alloc, out, t.constant())
}

fn push_number(alloc: Global, out: &mut String, k: i128) -> Result<(), AllocError> {
    if k >= 0 {
        out.push_str("+")?;
    }
    push_digits(alloc, out, k)
}

fn push_digits(alloc: Global, out: &mut String, k: i128) -> Result<(), AllocError> {
    let digits = k.to_string(alloc)?;
    out.push_str(digits.as_str())
}

/// `before(+1x0+0,+1x1+0`.
fn push_terms(
    alloc: Global,
    out: &mut String,
    before: &str,
    p: u32,
    terms: &[Term],
) -> Result<(), AllocError> {
    out.push_str(before)?;
    push_digits(alloc, out, p as i128)?;
    out.push_str("(")?;
    let mut first = true;
    for t in terms {
        if !first {
            out.push_str(",")?;
        }
        first = false;
        push_term(alloc, out, t)?;
    }
    Ok(())
}

fn push_predicate(
    alloc: Global,
    out: &mut String,
    before: &str,
    p: u32,
    terms: &[Term],
) -> Result<(), AllocError> {
    push_terms(alloc, out, before, p, terms)?;
    out.push_str(")")
}

fn push_graph(
    alloc: Global,
    out: &mut String,
    g: u32,
    terms: &[Term],
    u: &Term,
) -> Result<(), AllocError> {
    push_terms(alloc, out, "F", g, terms)?;
    push_atom(alloc, out, ";", u)
}

#[cycle(shown)]
fn push_core(alloc: Global, out: &mut String, f: &Core) -> Result<(), AllocError> {
    match f {
        Core::Eq(t) => push_atom(alloc, out, "Eq(", t),
        Core::Neq(t) => push_atom(alloc, out, "Neq(", t),
        Core::Geq(t) => push_atom(alloc, out, "Geq(", t),
        Core::Pred(p, ts) => push_predicate(alloc, out, "P", *p, ts.as_slice()),
        Core::NotPred(p, ts) => push_predicate(alloc, out, "!P", *p, ts.as_slice()),
        Core::NotFun(g, ts, u) => push_graph(alloc, out, *g, ts.as_slice(), u),
        Core::And(fs) => push_all(alloc, out, "And[", fs.as_slice()),
        Core::Or(fs) => push_all(alloc, out, "Or[", fs.as_slice()),
        Core::Forall(g) => push_body(alloc, out, "All[", g.get()),
        Core::Exists(g) => push_body(alloc, out, "Ex[", g.get()),
    }
}

#[cycle(shown)]
fn push_body(alloc: Global, out: &mut String, before: &str, g: &Core) -> Result<(), AllocError> {
    out.push_str(before)?;
    push_core(alloc, out, g)?;
    out.push_str("]")
}

#[cycle(shown)]
fn push_all(alloc: Global, out: &mut String, before: &str, fs: &[Core]) -> Result<(), AllocError> {
    out.push_str(before)?;
    let mut first = true;
    for f in fs {
        if !first {
            out.push_str(",")?;
        }
        first = false;
        push_core(alloc, out, f)?;
    }
    out.push_str("]")
}

fn push_atom(alloc: Global, out: &mut String, before: &str, t: &Term) -> Result<(), AllocError> {
    out.push_str(before)?;
    push_term(alloc, out, t)?;
    out.push_str(")")
}

fn push_refusal(alloc: Global, out: &mut String, refusal: EncodeRefusal) -> Result<(), AllocError> {
    match refusal {
        EncodeRefusal::Large => out.push_str("Large"),
        EncodeRefusal::Overflow(p) => {
            out.push_str("Overflow")?;
            for k in [p.m, p.a, p.n, p.b] {
                out.push_str(" ")?;
                push_number(alloc, out, k)?;
            }
            Ok(())
        }
        EncodeRefusal::Memory => out.push_str("Memory"),
    }
}

/// The formula, or why there is none.
fn shown(alloc: Global, made: Result<Boxed<Core>, EncodeRefusal>) -> Result<String, AllocError> {
    let mut out = String::new(alloc);
    match made {
        Ok(f) => push_core(alloc, &mut out, f.get())?,
        Err(refusal) => push_refusal(alloc, &mut out, refusal)?,
    }
    Ok(out)
}

/// A problem that is posed, on the heap.
fn posed(alloc: Global, resolved: Result<Problem, TypeRefusal>) -> Option<Boxed<Problem>>
    requires { IfOk resolved IsWellFormed }
    ensures { IfSome result IsWellFormed }
{
    match resolved {
        Ok(p) => Boxed::new(alloc, p).ok(),
        Err(_) => None,
    }
}

/// The problem of a file; none where it poses none.
#[tactic(auto, using(pri_typing::proofs::Answered::file_resolvable))]
fn problem(alloc: Global, text: &str) -> Option<Boxed<Problem>>
    ensures { IfSome result IsWellFormed }
{
    if text.len() >= 4_294_967_296 {
        return None;
    }
    match read(alloc, text.as_bytes()) {
        Ok(file) => posed(alloc, resolve(alloc, &file)),
        Err(_) => None,
    }
}

/// The root of the encoded problem, on the heap.
fn root(alloc: Global, p: &Problem) -> Result<Boxed<Core>, EncodeRefusal>
    requires { IsWellFormed p.now }
{
    let Encoded {
        root,
        constants: _,
        pure: _,
    } = encode(alloc, p)?;
    Ok(Boxed::new(alloc, root)?)
}

/// What these parts of the problem assume, on the heap.
fn parts(alloc: Global, p: &Problem, set: &[u32]) -> Result<Boxed<Core>, EncodeRefusal>
    requires { IsWellFormed p.now }
{
    let all = encode_parts(alloc, p, set)?;
    Ok(Boxed::new(alloc, all)?)
}

/// The encoded problem of a file, or why there is none.
fn encoded(alloc: Global, text: &str) -> Result<String, AllocError> {
    match problem(alloc, text) {
        Some(p) => shown(alloc, root(alloc, p.get())),
        None => Ok(String::new(alloc)),
    }
}

/// What the parts with these numbers assume in the problem of a file, or why it is not encoded.
fn assumed(alloc: Global, text: &str, set: &[u32]) -> Result<String, AllocError> {
    match problem(alloc, text) {
        Some(p) => shown(alloc, parts(alloc, p.get(), set)),
        None => Ok(String::new(alloc)),
    }
}

/// How many constants an encoded problem of a file has, and whether it is pure.
pub fn counted(alloc: Global, text: &str) -> Option<(u32, bool)> {
    let p = problem(alloc, text)?;
    match encode(alloc, p.get()) {
        Ok(e) => Some((e.constants, e.pure)),
        Err(_) => None,
    }
}

/// Nodes and depth of the encoded problem of a file; none where it is too large.
pub fn measured(alloc: Global, text: &str) -> Option<(u64, u32)> {
    let Some(p) = problem(alloc, text) else {
        return Some((0, 0));
    };
    match root(alloc, p.get()) {
        Ok(f) => Some((formula::size(f.get()), formula::depth(f.get()))),
        Err(EncodeRefusal::Large) => None,
        Err(_) => Some((0, 0)),
    }
}

fn is(rt: &impl Abort, text: &str, found: &str, wanted: &str) -> Result<(), Fail> {
    assert_eq!(rt; found, wanted, "at {text}");
    Ok(())
}

/// Tests what the encoded problem of a file is.
pub fn is_encoded(rt: &impl Abort, alloc: Global, text: &str, wanted: &str) -> Result<(), Fail> {
    let found = encoded(alloc, text)?;
    is(rt, text, found.as_str(), wanted)
}

/// Tests what these parts of the problem of a file assume.
pub fn is_assumed(
    rt: &impl Abort,
    alloc: Global,
    text: &str,
    set: &[u32],
    wanted: &str,
) -> Result<(), Fail> {
    let found = assumed(alloc, text, set)?;
    is(rt, text, found.as_str(), wanted)
}
