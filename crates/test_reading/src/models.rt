// The responses to `get-model` and `get-value`, worked out by hand.

use linear_term::Memory;
use model_table::{FunctionModel, Model, PredicateModel, TruthEntry, ValueEntry};
use smt_models::{definitions_law, model_text, put_values_of, symbol_values, values_law};
use smt_reader::{Script, script};
use sqlite_items::Items;
use std::alloc::Global;
use std::test::Fail;

/// A row of a function.
fn value_row(alloc: Global, at: &[i128], value: i128) -> Result<ValueEntry, Memory> {
    Ok(ValueEntry {
        at: Items::from_slice(alloc, at)?,
        value,
    })
}

/// A row of a predicate.
fn truth_row(alloc: Global, at: &[i128], truth: bool) -> Result<TruthEntry, Memory> {
    Ok(TruthEntry {
        at: Items::from_slice(alloc, at)?,
        truth,
    })
}

/// Tables of a function of two integers, and of a predicate without arguments and one of one integer.
fn model(alloc: Global) -> Result<Model, Memory> {
    let mut model = Model::empty(alloc);
    let mut rows = Items::new(alloc);
    rows.push(value_row(alloc, &[1, 2], 7)?)?;
    rows.push(value_row(alloc, &[-3, 0], i128::MIN)?)?;
    model.functions.push(FunctionModel { rows, default: 0 })?;
    let mut truths = Items::new(alloc);
    truths.push(truth_row(alloc, &[], true)?)?;
    model.predicates.push(PredicateModel {
        rows: truths,
        default: false,
    })?;
    let mut truths = Items::new(alloc);
    truths.push(truth_row(alloc, &[4], false)?)?;
    model.predicates.push(PredicateModel {
        rows: truths,
        default: true,
    })?;
    Ok(model)
}

/// The response at a model and values, for the check of a script; empty where it is no script with one check.
fn response(alloc: Global, text: &str, model: &Model, values: &[i128]) -> Result<Vec<u8>, Memory> {
    let Ok(Script { checks, .. }) = script(alloc, text.as_bytes()) else {
        return Ok(Vec::new(alloc));
    };
    match checks.as_slice().split_first() {
        Some((problem, _more)) if problem.universals.len() == values.len() => {
            model_text(alloc, problem, model, values)
        }
        _ => Ok(Vec::new(alloc)),
    }
}

#[test]
fn a_model_is_printed_as_definitions(rt: HostRuntime) -> Result<(), Fail> {
    let alloc = rt.alloc();
    let text =
        "(declare-const c Int)(declare-fun f (Int Int) Int)(declare-fun p () Bool)(declare-const |two words| Int)\
(declare-fun q (Int) Bool)(declare-fun |let| (Int) Int)(declare-const |1a| Int)(declare-const r Bool)(check-sat)";
    let wanted =
        "(\n  (define-fun c () Int 5)\n  (define-fun |two words| () Int (- 3))\n  (define-fun |1a| () Int 0)\n  \
(define-fun f ((x!0 Int) (x!1 Int)) Int (ite (and (= x!0 1) (= x!1 2)) 7 (ite (and (= x!0 (- 3)) (= x!1 0)) (- 170141183460469231731687303715884105728) 0)))\n  \
(define-fun |let| ((x!0 Int)) Int 0)\n  (define-fun p () Bool true)\n  (define-fun q ((x!0 Int)) Bool (ite (= x!0 4) false true))\n  \
(define-fun r () Bool false)\n)\n";
    let model = model(alloc)?;
    let found = response(alloc, text, &model, &[5, -3, 0])?;
    assert!(rt; found.as_slice() == wanted.as_bytes());
    Ok(())
}

#[test]
fn a_model_without_symbols_is_empty(rt: HostRuntime) -> Result<(), Fail> {
    let alloc = rt.alloc();
    let found = response(alloc, "(check-sat)", &Model::empty(alloc), &[])?;
    assert!(rt; found.as_slice() == b"(\n)\n".as_slice());
    definitions_law();
    values_law();
    Ok(())
}

/// The response for these names at a model and values, for the check of a script; empty where it is no script with one check.
fn values(
    alloc: Global,
    text: &str,
    model: &Model,
    integers: &[i128],
    names: &[&str],
) -> Result<Vec<u8>, Memory> {
    let mut out = Vec::new(alloc);
    let mut asked = Items::new(alloc);
    for name in names {
        asked.push(Items::from_slice(alloc, name.as_bytes())?)?;
    }
    let Ok(Script { checks, .. }) = script(alloc, text.as_bytes()) else {
        return Ok(out);
    };
    match checks.as_slice().split_first() {
        Some((problem, _more)) if problem.universals.len() == integers.len() => {
            let values = symbol_values(alloc, problem, model, integers)?;
            put_values_of(values.as_slice(), asked.as_slice(), &mut out)?;
            Ok(out)
        }
        _ => Ok(out),
    }
}

#[test]
fn values_are_those_of_the_model(rt: HostRuntime) -> Result<(), Fail> {
    let alloc = rt.alloc();
    let text =
        "(declare-const c Int)(declare-fun f (Int Int) Int)(declare-fun p () Bool)(declare-fun q (Int) Bool)\
(declare-const |a b| Int)(declare-const r Bool)(check-sat)";
    let model = model(alloc)?;
    for (names, wanted) in [
        (["c", "p"].as_slice(), "((c 5) (p true))\n"),
        (
            ["|", "c"].as_slice(),
            "(error \"there is no value of one of these symbols\")\n",
        ),
        (
            ["a b", "a b", "r"].as_slice(),
            "((|a b| (- 3)) (|a b| (- 3)) (r false))\n",
        ),
        (
            ["f"].as_slice(),
            "(error \"there is no value of one of these symbols\")\n",
        ),
        (
            ["q"].as_slice(),
            "(error \"there is no value of one of these symbols\")\n",
        ),
    ] {
        let found = values(alloc, text, &model, &[5, -3], names)?;
        assert!(rt; found.as_slice() == wanted.as_bytes());
    }
    Ok(())
}
