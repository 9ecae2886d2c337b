// Scripts with commands that are short for others, beside what these are written out to.

use linear_term::Memory;
use smt_lists::{AtomKind, ReadRefusal, Sexp, lists};
use smt_shorthand::written_out;
use std::alloc::Global;
use std::test::Fail;

/// The text of an S-expression.
#[cycle(showing)]
fn push_expression(out: &mut Vec<u8>, e: &Sexp) -> Result<(), Memory> {
    match e {
        Sexp::Atom(a) => match &a.kind {
            AtomKind::Symbol(text) => out.extend_from_slice(text.as_slice())?,
            AtomKind::Numeral(value) => out.push(if *value == 0 { b'0' } else { b'1' })?,
            AtomKind::Keyword(_) => out.push(b':')?,
            AtomKind::LargeNumeral
            | AtomKind::Decimal
            | AtomKind::Hash
            | AtomKind::StringLiteral(_) => out.push(b'?')?,
        },
        Sexp::List(_, members) => {
            out.push(b'(')?;
            push_expressions(out, members.as_slice())?;
            out.push(b')')?;
        }
    }
    Ok(())
}

/// The texts of S-expressions, each after a blank.
#[cycle(showing)]
fn push_expressions(out: &mut Vec<u8>, es: &[Sexp]) -> Result<(), Memory> {
    for e in es {
        out.push(b' ')?;
        push_expression(out, e)?;
    }
    Ok(())
}

/// The lists of a script.
fn shown(alloc: Global, es: &[Sexp]) -> Result<Vec<u8>, Memory> {
    let mut out = Vec::new(alloc);
    push_expressions(&mut out, es)?;
    Ok(out)
}

/// Whether a script is written out to this one.
fn is_short_for(alloc: Global, script: &str, wanted: &str) -> Result<bool, ReadRefusal> {
    let Ok(made) = written_out(alloc, lists(alloc, script.as_bytes())?) else {
        return Err(ReadRefusal::Memory);
    };
    let wanted = lists(alloc, wanted.as_bytes())?;
    let (Ok(made), Ok(wanted)) = (
        shown(alloc, made.as_slice()),
        shown(alloc, wanted.as_slice()),
    ) else {
        return Err(ReadRefusal::Memory);
    };
    Ok(made == wanted)
}

#[test]
fn scripts_are_written_out(rt: HostRuntime) -> Result<(), Fail> {
    let alloc = rt.alloc();
    for (script, wanted) in [
        (
            "(define-sort I () Int)(declare-fun f (I Bool I) I)(assert (forall ((x I) (b Bool)) (! (let ((I (f x b x))) (= I 1)) :pattern ((f x b x)))))",
            "(declare-fun f (Int Bool Int) Int)(assert (forall ((x Int) (b Bool)) (! (let ((I (f x b x))) (= I 1)) :pattern ((f x b x)))))",
        ),
        (
            "(define-sort P (A B) B)(define-sort Q () (P Bool Int))(define-fun f ((x Q)) (P Int Bool) (exists ((y Q)) (< x y)))",
            "(define-fun f ((x Int)) Bool (exists ((y Int)) (< x y)))",
        ),
        (
            "(push 1)(define-sort I () Int)(declare-const c I)(pop 1)(declare-const d I)",
            "(push 1)(declare-const c Int)(pop 1)(declare-const d I)",
        ),
        (
            "(define-sort I () Int)(define-sort I () Bool)(define-sort Int () Bool)(define-sort J (A A) A)(define-sort K (A) A)(declare-const c (K))(declare-const d (K I I))(declare-const e (K Real))",
            "(define-sort I () Bool)(define-sort Int () Bool)(define-sort J (A A) A)(declare-const c (K))(declare-const d (K I I))(declare-const e (K Real))",
        ),
        (
            "(define-sort I () Int)(define-fun-rec f ((x I) (y I)) I (ite (< x y) (f y x) 1))(define-fun-rec c () I 1)",
            "(declare-fun f (Int Int) Int)(assert (forall ((x Int) (y Int)) (= (f x y) (ite (< x y) (f y x) 1))))(declare-fun c () Int)(assert (= c 1))",
        ),
        (
            "(define-funs-rec ((even ((n Int)) Bool) (odd ((n Int)) Bool)) ((or (= n 0) (odd n)) (and (= n 1) (even n))))",
            "(declare-fun even (Int) Bool)(declare-fun odd (Int) Bool)(assert (forall ((n Int)) (= (even n) (or (= n 0) (odd n)))))(assert (forall ((n Int)) (= (odd n) (and (= n 1) (even n)))))",
        ),
        (
            "(define-fun-rec f ((f Int)) Int f)(define-fun-rec g ((x Int) (x Int)) Int x)(define-fun-rec h ((= Int)) Int 1)(define-funs-rec () ())(define-funs-rec ((f () Int)) ())(assert)",
            "(define-fun-rec f ((f Int)) Int f)(define-fun-rec g ((x Int) (x Int)) Int x)(define-fun-rec h ((= Int)) Int 1)(define-funs-rec () ())(define-funs-rec ((f () Int)) ())(assert)",
        ),
        (
            "(declare-const x Int)(assert (= x 1))(check-sat)",
            "(declare-const x Int)(assert (= x 1))(check-sat)",
        ),
    ] {
        assert!(rt; is_short_for(alloc, script, wanted)?);
    }
    Ok(())
}
