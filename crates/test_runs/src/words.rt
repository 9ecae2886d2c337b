// Each rule of the words, with a row on each side of it.

use base_answers::ProofForm;
use job_words::{Job, WordsFault, job};
use std::alloc::Global;
use std::process::Abort;
use std::test::Fail;

// The job that the words name, as a text.
fn named(alloc: Global, words: &[&str]) -> Result<String, Fail> {
    let mut given = Vec::new(alloc);
    for word in words {
        given.push(String::from_str(alloc, word)?)?;
    }
    match job(alloc, given.as_slice()) {
        Ok(
            Job::Solve {
                file,
                budget,
                asked,
                calculus,
                shows,
            },
        ) => Ok(format!(in alloc;
            "solve {file} {budget} {}{}{}",
            form(asked),
            way(calculus),
            behind(shows)
        )?),
        Ok(Job::Elim { file, budget }) => Ok(format!(in alloc; "elim {file} {budget}")?),
        Ok(Job::Least { file, term, budget }) => Ok(format!(in alloc;
            "least {file} {term} {budget}"
        )?),
        Ok(Job::Drill { count, budget }) => Ok(format!(in alloc; "drill {count} {budget}")?),
        Ok(
            Job::Find {
                file,
                budget,
                proves,
            },
        ) => Ok(format!(in alloc; "find {file} {budget}{}", proof(proves))?),
        Ok(Job::Smt { file, budget }) => Ok(format!(in alloc; "smt {file} {budget}")?),
        Ok(Job::Check { file, proof }) => Ok(format!(in alloc; "check {file} {proof}")?),
        Err(WordsFault::Words) => Ok(String::from_str(alloc, "no job")?),
        Err(WordsFault::Memory) => Ok(String::from_str(alloc, "no memory")?),
    }
}

// The form of the proof that is asked for.
fn form(asked: Option<ProofForm>) -> &'static str {
    match asked {
        None => "plain",
        Some(ProofForm::Whole) => "whole",
        Some(ProofForm::Short) => "short",
    }
}

// Whether the calculus alone is asked for.
fn way(calculus: bool) -> &'static str {
    if calculus { " calculus" } else { "" }
}

// Whether a counterexample is asked for.
fn behind(shows: bool) -> &'static str {
    if shows { " counterexample" } else { "" }
}

// Whether the proof is asked for.
fn proof(proves: bool) -> &'static str {
    if proves { " proof" } else { "" }
}

fn check(rt: &impl Abort, alloc: Global, rows: &[(&[&str], &str)]) -> Result<(), Fail> {
    for (words, expected) in rows {
        let answer = named(alloc, words)?;
        assert_eq!(rt; answer.as_str(), *expected, "words {words:?}");
    }
    Ok(())
}

#[test]
fn words_name_jobs(rt: HostRuntime) -> Result<(), Fail> {
    let rows: [(&[&str], &str); 45] = [
        (&["solve", "f"], "solve f 50000000 plain"),
        (&["elim", "f"], "elim f 50000000"),
        (&["solve", "f", "--budget", "1"], "solve f 1 plain"),
        (
            &["elim", "--budget", "1000000000", "f"],
            "elim f 1000000000",
        ),
        (&["solve", "--budget=0000000007", "f"], "solve f 7 plain"),
        (&["solve", "-"], "solve - 50000000 plain"),
        (&["solve", ""], "solve  50000000 plain"),
        (&["solve", "solve"], "solve solve 50000000 plain"),
        (&["solve", "--", "f"], "solve f 50000000 plain"),
        (&["solve", "f", "--"], "solve f 50000000 plain"),
        (&["solve", "--", "--"], "solve -- 50000000 plain"),
        (&["solve", "--", "-x"], "solve -x 50000000 plain"),
        (&["elim", "--", "--budget"], "elim --budget 50000000"),
        (
            &["elim", "--budget", "5", "--", "--budget=6"],
            "elim --budget=6 5",
        ),
        (&["solve", "f=g", "--budget=5"], "solve f=g 5 plain"),
        (&["solve", "--proof", "f"], "solve f 50000000 whole"),
        (
            &["solve", "--budget", "5", "f", "--proof", "--"],
            "solve f 5 whole",
        ),
        (&["solve", "--", "--proof"], "solve --proof 50000000 plain"),
        (&["solve", "--short", "f"], "solve f 50000000 short"),
        (&["solve", "f", "--short", "--budget=5"], "solve f 5 short"),
        (&["solve", "--", "--short"], "solve --short 50000000 plain"),
        (
            &["solve", "--calculus", "f"],
            "solve f 50000000 plain calculus",
        ),
        (
            &["solve", "f", "--proof", "--calculus"],
            "solve f 50000000 whole calculus",
        ),
        (
            &["solve", "--", "--calculus"],
            "solve --calculus 50000000 plain",
        ),
        (
            &["solve", "--counterexample", "f"],
            "solve f 50000000 plain counterexample",
        ),
        (
            &["solve", "--calculus", "f", "--short", "--counterexample"],
            "solve f 50000000 short calculus counterexample",
        ),
        (
            &["solve", "--", "--counterexample"],
            "solve --counterexample 50000000 plain",
        ),
        (&["least", "f", "a + 2*b"], "least f a + 2*b 50000000"),
        (&["least", "f", "--", "-a"], "least f -a 50000000"),
        (&["least", "--", "f", "-a"], "least f -a 50000000"),
        (&["least", "f", "--budget=9", "a"], "least f a 9"),
        (&["least", "--budget", "9", "f", ""], "least f  9"),
        (&["find", "f"], "find f 50000000"),
        (&["find", "--budget=3", "--", "-f"], "find -f 3"),
        (&["find", "--proof", "f"], "find f 50000000 proof"),
        (&["smt", "f"], "smt f 50000000"),
        (&["smt", "-", "--budget", "5"], "smt - 5"),
        (
            &["smt", "--budget=1000000000", "--", "-f"],
            "smt -f 1000000000",
        ),
        (&["smt", "smt"], "smt smt 50000000"),
        (&["check", "f", "g"], "check f g"),
        (&["check", "--", "g", "-f"], "check g -f"),
        (&["check", "-", "-"], "check - -"),
        (&["drill", "1"], "drill 1 50000000"),
        (&["drill", "--budget", "7", "0000001000"], "drill 1000 7"),
        (&["solve", "ä", "--budget=5"], "solve ä 5 plain"),
    ];
    check(&rt, rt.alloc(), &rows)
}

#[test]
fn words_name_none(rt: HostRuntime) -> Result<(), Fail> {
    let rows: [&[&str]; 75] = [
        &[],
        &["f"],
        &["f", "solve"],
        &["--", "solve", "f"],
        &["--budget", "1", "solve", "f"],
        &["sol", "f"],
        &["help"],
        &["--version"],
        &["solve"],
        &["solve", "--"],
        &["solve", "f", "g"],
        &["solve", "f", "--", "g"],
        &["solve", "-x"],
        &["solve", "f", "-h"],
        &["solve", "f", "--help"],
        &["solve", "f", "-ä"],
        &["solve", "f", "--steps"],
        &["elim", "f", "--calculus"],
        &["solve", "f", "--calculus", "--calculus"],
        &["find", "f", "--short"],
        &["find", "f", "--proof", "--proof"],
        &["find", "f", "g"],
        &["elim", "f", "--counterexample"],
        &["solve", "f", "--counterexample", "--counterexample"],
        &["solve", "f", "--budg", "1"],
        &["solve", "f", "--=1"],
        &["solve", "f", "--budget"],
        &["solve", "f", "--budget", "--"],
        &["solve", "--budget", "--", "1", "f"],
        &["solve", "f", "--budget", "-1"],
        &["solve", "f", "--budget", "-"],
        &["solve", "f", "--budget="],
        &["solve", "f", "--budget", ""],
        &["solve", "f", "--budget=0"],
        &["solve", "f", "--budget=+1"],
        &["solve", "f", "--budget=1_0"],
        &["solve", "f", "--budget=00000000001"],
        &["solve", "f", "--budget=1000000001"],
        &["solve", "f", "--budget", "1", "--budget", "1"],
        &["elim", "--budget=1", "f", "--budget=1"],
        &["drill"],
        &["drill", "0"],
        &["drill", "1001"],
        &["drill", "+1"],
        &["drill", "00000000001"],
        &["drill", "-1"],
        &["drill", "1", "2"],
        &["solve", "f", "--proof", "--proof"],
        &["solve", "f", "--proof="],
        &["solve", "f", "--proof=true"],
        &["solve", "f", "--pro"],
        &["solve", "f", "--proof", "--short"],
        &["solve", "--short", "f", "--proof"],
        &["solve", "f", "--short", "--short"],
        &["solve", "f", "--short=true"],
        &["elim", "f", "--proof"],
        &["elim", "f", "--short"],
        &["least", "f"],
        &["least", "f", "-a"],
        &["least", "f", "a", "b"],
        &["least", "f", "a", "--budget", "0"],
        &["least", "f", "a", "--budget=1", "--budget=1"],
        &["least", "f", "a", "--proof"],
        &["smt"],
        &["smt", "f", "g"],
        &["smt", "-f"],
        &["smt", "f", "--budget=0"],
        &["smt", "f", "--budget=1", "--budget=1"],
        &["smt", "f", "--proof"],
        &["smt", "f", "--short"],
        &["check", "f"],
        &["check", "f", "g", "h"],
        &["check", "f", "g", "--budget", "1"],
        &["check", "f", "--proof"],
        &["check", "f", "g", "--short"],
    ];
    for words in rows {
        check(&rt, rt.alloc(), &[(words, "no job")])?;
    }
    Ok(())
}
