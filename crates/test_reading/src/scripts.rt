// What is taken and refused of a whole script, by a call that only reads it; and the laws of scripts.

use smt_commands::{ScriptRefusal, least_law};
use smt_lists::one_script_law;
use smt_reader::{Reply, answers_law, checks_law, problem_law, read, script, sizes_law};
use smt_sizes::size_law;
use smt_typing::Typing;
use std::alloc::{AllocError, Global};
use std::test::Fail;

fn refusal(alloc: Global, text: &str) -> Option<ScriptRefusal> {
    read(alloc, &Typing, text.as_bytes()).err()
}

#[test]
fn scripts_are_taken_or_refused(rt: HostRuntime) -> Result<(), Fail> {
    let alloc = rt.alloc();
    let mut deep = String::new(alloc);
    for _ in 0..201 {
        deep.push_str("(")?;
    }
    for (text, wanted) in [
        ("", None),
        ("(declare-const x Int)(assert (= x 1))(check-sat)", None),
        ("(exit)(declare-const x)", None),
        ("(check-sat", Some(ScriptRefusal::Syntax(10))),
        (deep.as_str(), Some(ScriptRefusal::Deep(200))),
        (
            "(foo)(declare-const + Real)",
            Some(ScriptRefusal::Profile(0)),
        ),
        (
            "(declare-const + Real)(foo)",
            Some(ScriptRefusal::Redeclared(15)),
        ),
        ("(foo) bar", Some(ScriptRefusal::Syntax(6))),
        ("(assert y)", Some(ScriptRefusal::Undeclared(8))),
        (
            "(declare-const x Int)(assert x)",
            Some(ScriptRefusal::Kind(29)),
        ),
    ] {
        assert!(rt; refusal(alloc, text) == wanted);
    }
    one_script_law();
    least_law();
    checks_law();
    sizes_law();
    problem_law();
    answers_law();
    size_law();
    Ok(())
}

// The letters of what a script asks to be told: a check, a model, values or a line; or that the assertions or the symbols change.
fn asked(alloc: Global, text: &str) -> Result<String, AllocError> {
    let mut letters = String::new(alloc);
    let Ok(script) = script(alloc, text.as_bytes()) else {
        return Ok(letters);
    };
    for reply in script.replies.as_slice() {
        letters.push_str(match reply {
            Reply::Check => "c",
            Reply::Reason => "r",
            Reply::Model => "m",
            Reply::Values(_) => "v",
            Reply::Says(_) => "s",
            Reply::Change => "x",
        })?;
    }
    Ok(letters)
}

#[test]
fn get_model_asks_for_a_model(rt: HostRuntime) -> Result<(), Fail> {
    let alloc = rt.alloc();
    for (text, wanted) in [
        ("(get-model)", "m"),
        ("(check-sat)(get-model)(get-model)", "cmm"),
        ("(check-sat)(get-value (x))(get-model)", "cvm"),
        ("(check-sat)(get-value ((+ x 1)))(get-model)", "csm"),
        ("(check-sat)(get-value ())", ""),
        ("(get-info :reason-unknown)(get-info :version)", "rs"),
        ("(declare-const x Int)(check-sat)(push)(get-model)", "xcxm"),
        ("(check-sat)(exit)(get-model)", "c"),
        ("(get-model x)", ""),
    ] {
        assert!(rt; asked(alloc, text)?.as_str() == wanted);
    }
    Ok(())
}
