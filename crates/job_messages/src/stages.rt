// The lines that tell what a run did, and how far it is.

use crate::quantifiers::put_instance_lines;
use crate::run_sentences as say;
use base_watch::{Progress, Stage};
use job_counts::{Counts, RunCounts, Statistics};
use linear_term::Memory;
use message_lines::{Messages, Page, Severity, Slip, Subject};
use std::alloc::Global;

/// The lines of `--stats`: one for each stage of the run, one for each of the quantifiers of the problem's file that were instantiated
/// most often, and one for the greatest memory in KiB, where the system tells that.
pub fn stats(
    alloc: Global,
    statistics: &Statistics,
    problem: Option<&[u8]>,
) -> Result<Vec<u8>, Memory> {
    let Statistics { counts, memory } = *statistics;
    let mut page = Page::new(alloc);
    if counts.runs > 0 {
        page.put(b"princess: canonical run: ")?;
        put_run(&mut page, &counts.canonical)?;
        page.put(b"\n")?;
    }
    if counts.searches > 0 {
        page.put(b"princess: clause search: ")?;
        put_search(&mut page, &counts.clauses)?;
        page.put(b"\n")?;
    }
    if let Some(text) = problem {
        let most = counts.most_instantiated();
        put_instance_lines(alloc, &mut page, text, most)?;
    }
    if counts.elimination_steps > 0 {
        put_steps(&mut page, b"elimination", counts.elimination_steps)?;
    }
    if counts.least_steps > 0 {
        put_steps(
            &mut page,
            b"elimination and least value",
            counts.least_steps,
        )?;
    }
    if let Some(kib) = memory {
        page.put(b"princess: memory: at most ")?;
        page.put_grouped(kib)?;
        page.put(b" KiB\n")?;
    }
    Ok(page.into_bytes())
}

/// A line that tells how far the stage in progress is, without its end.
pub fn progress_line(alloc: Global, counts: &Counts) -> Result<Vec<u8>, Memory> {
    let mut page = Page::new(alloc);
    match counts.stage() {
        Some(Stage::Clauses) => {
            page.put(b"princess: clause search: ")?;
            put_search(&mut page, &counts.search())?;
        }
        _ => {
            page.put(b"princess: canonical run: ")?;
            put_run(&mut page, &counts.last)?;
        }
    }
    page.put(b"; budget ")?;
    page.put_grouped(counts.budget())?;
    Ok(page.into_bytes())
}

/// Puts what the run that ended without an answer took, as notes on this file; nothing where no run ended.
pub(crate) fn put_taken(
    alloc: Global,
    messages: &mut Messages,
    file: &str,
    counts: &Counts,
) -> Result<(), Memory> {
    if counts.runs > 0 {
        let mut behind = Page::new(alloc);
        put_run(&mut behind, &counts.last)?;
        behind.put(b"; ")?;
        behind.put_number(percent(counts.last.constraint_steps, counts.last.steps))?;
        behind.put(b" % of the steps went to leaves and constraints")?;
        put_note(messages, file, say::RUN_TOOK, &behind)?;
    }
    if counts.searches > 0 {
        let mut behind = Page::new(alloc);
        put_search(&mut behind, &counts.clauses)?;
        behind.put(b", and found no answer")?;
        put_note(messages, file, say::SEARCH_TOOK, &behind)?;
    }
    Ok(())
}

fn put_note(
    messages: &mut Messages,
    file: &str,
    sentence: &'static str,
    behind: &Page,
) -> Result<(), Memory> {
    let subject = Subject {
        file,
        severity: Severity::Note,
        name: b"",
        spot: None,
    };
    messages.put_with(&subject, &Slip::new(sentence), behind.bytes())
}

/// How many hundredths of the whole a part is, rounded down.
fn percent(part: u64, whole: u64) -> u64 {
    if whole == 0 {
        return 0;
    }
    let hundredths = u128::from(part) * 100 / u128::from(whole);
    u64::try_from(hundredths).unwrap_or(100)
}

fn put_run(page: &mut Page, run: &RunCounts) -> Result<(), Memory> {
    put_count(page, run.steps, "step")?;
    page.put(b", ")?;
    put_count(page, run.rounds, "round")?;
    page.put(b", ")?;
    put_count(page, run.nodes, "node")?;
    page.put(b", ")?;
    put_count(page, run.leaves, "leaf")?;
    page.put(b", ")?;
    put_count(page, run.eliminations, "elimination")
}

fn put_search(page: &mut Page, search: &Progress) -> Result<(), Memory> {
    put_count(page, search.steps, "step")?;
    page.put(b", ")?;
    put_count(page, search.conflicts, "conflict")?;
    page.put(b", ")?;
    put_count(page, search.decisions, "decision")?;
    page.put(b", ")?;
    put_count(page, search.instances, "instance")
}

fn put_steps(page: &mut Page, what: &[u8], steps: u64) -> Result<(), Memory> {
    page.put(b"princess: ")?;
    page.put(what)?;
    page.put(b": ")?;
    put_count(page, steps, "step")?;
    page.put(b"\n")
}

/// Puts a number of things by their name.
fn put_count(page: &mut Page, count: u64, name: &str) -> Result<(), Memory> {
    page.put_grouped(count)?;
    page.put(b" ")?;
    match (name, count) {
        ("leaf", 1) => page.put(b"leaf"),
        ("leaf", _) => page.put(b"leaves"),
        (_, 1) => page.put_str(name),
        _ => {
            page.put_str(name)?;
            page.put(b"s")
        }
    }
}
