// Why a text proves nothing of a problem: the line of it that is refused.

use crate::run_sentences as say;
use linear_term::Memory;
use message_lines::{
    Messages, Page, Refusal, Severity, Slip, Spot, cut, is_among, line_at, numbered, numbered_line,
    put_refused,
};
use std::alloc::Global;

/// Where a node of a proof tree is written, and whether it is the conclusion.
#[derive(Clone, Copy)]
struct Node {
    at: usize,
    is_conclusion: bool,
}

/// Puts what is said of a refused proof, which stands in this file, for the problem in the file of that name.
pub(crate) fn put_proof_refusal(
    alloc: Global,
    messages: &mut Messages,
    name: &str,
    text: &[u8],
    problem: &str,
    refusal: &Refusal,
) -> Result<(), Memory> {
    let begin = begin_of_proof(text);
    let number = refusal.place.unwrap_or(0);
    let spot = |at: usize| Spot { name, text, at };
    match refusal.name {
        b"Syntax" => {
            let slip = Slip::new(syntax_sentence(text, begin, number as usize));
            put_refused(messages, &spot(number as usize), refusal.name, &slip)
        }
        b"Deep" => {
            let slip = Slip::new(say::PROOF_DEEP);
            put_refused(messages, &spot(number as usize), refusal.name, &slip)
        }
        _ if is_clause_proof(text, begin) => {
            let first = line_at(text, begin).number;
            let line = numbered_line(text, first.saturating_add(number).saturating_sub(1));
            let sentence = clause_sentence(refusal.name, number, line.is_there);
            let slip = Slip::named(sentence, problem.as_bytes());
            let name = numbered(alloc, refusal)?;
            put_refused(messages, &spot(line.from), name.bytes(), &slip)
        }
        _ => {
            let node = find_node(text, begin, number);
            put_node(
                alloc,
                messages,
                &spot(node.at),
                problem,
                refusal,
                node.is_conclusion,
            )
        }
    }
}

/// The offset of the line after which the proof begins: the first one that is `proof:`; 0 where there is none, and where
/// nothing stands after it.
fn begin_of_proof(text: &[u8]) -> usize {
    let mut from = 0;
    for _ in 0..text.len() {
        let Some((line, next)) = line_from(text, from) else {
            return 0;
        };
        if line == b"proof:".as_slice() {
            return if next < text.len() { next } else { 0 };
        }
        from = next;
    }
    0
}

/// The line that begins at this offset, and the offset after it; none where nothing is left.
fn line_from(text: &[u8], from: usize) -> Option<(&[u8], usize)> {
    let rest = text.get(from..)?;
    if rest.is_empty() {
        return None;
    }
    let line = cut(rest, b'\n').0;
    Some((line, from.saturating_add(line.len()).saturating_add(1)))
}

fn is_clause_proof(text: &[u8], begin: usize) -> bool {
    match line_from(text, begin) {
        Some((line, _)) => line == b"princess-proof 3".as_slice(),
        None => false,
    }
}

fn syntax_sentence(text: &[u8], begin: usize, place: usize) -> &'static str {
    if place <= begin {
        say::PROOF_SYNTAX_BEGIN
    } else if place.saturating_add(1) >= text.len() {
        say::PROOF_SYNTAX_END
    } else {
        say::PROOF_SYNTAX
    }
}

/// The sentence at a line of a clause proof, by its number in the text; after the last line the proof ends.
fn clause_sentence(name: &[u8], number: u64, is_there: bool) -> &'static str {
    match name {
        b"line" if !is_there => say::PROOF_CLAUSE_END,
        b"line" if number == 4 => say::PROOF_CLAUSE_VALUES,
        b"line" if number == 5 => say::PROOF_CLAUSE_ROOT,
        b"line" => say::PROOF_CLAUSE_LINE,
        b"cost" if number == 3 => say::PROOF_CLAUSE_PREPARATION,
        b"cost" => say::PROOF_CLAUSE_COST,
        _ => say::PROOF_CLAUSE_RANGE,
    }
}

/// Whether a line begins a node.
fn is_node(line: &[u8]) -> bool {
    is_among(
        cut(line, b' ').0,
        &["trivial", "alpha", "beta", "delta", "gamma", "close"],
    )
}

/// The line of a node by its number, from 0 on, or that of the conclusion; the last line where neither comes.
fn find_node(text: &[u8], begin: usize, number: u64) -> Node {
    let mut from = begin;
    let mut last = begin;
    let mut seen: u64 = 0;
    for _ in 0..text.len() {
        let Some((line, next)) = line_from(text, from) else {
            break;
        };
        if is_node(line) {
            if seen == number {
                return Node {
                    at: from,
                    is_conclusion: false,
                };
            }
            seen = seen.saturating_add(1);
        } else if is_among(cut(line, b' ').0, &["solution", "none"]) {
            return Node {
                at: from,
                is_conclusion: true,
            };
        }
        last = from;
        from = next;
    }
    Node {
        at: last,
        is_conclusion: false,
    }
}

/// Puts what is said of a node, and where its log and its constraint stand.
fn put_node(
    alloc: Global,
    messages: &mut Messages,
    spot: &Spot,
    problem: &str,
    refusal: &Refusal,
    is_conclusion: bool,
) -> Result<(), Memory> {
    let sentence = match refusal.name {
        b"node" if is_conclusion => say::PROOF_CONCLUSION,
        b"node" => say::PROOF_NODE,
        b"range" => say::PROOF_RANGE,
        _ => say::PROOF_COST,
    };
    let slip = Slip::named(sentence, problem.as_bytes());
    let name = numbered(alloc, refusal)?;
    let mut rest = Page::new(alloc);
    if !is_conclusion {
        put_rest(&mut rest, spot)?;
    }
    messages.put_with(
        &spot.subject(Severity::Error, name.bytes()),
        &slip,
        rest.bytes(),
    )
}

/// Puts where the log and the constraint of the node that begins at a spot stand, after its premises.
fn put_rest(page: &mut Page, spot: &Spot) -> Result<(), Memory> {
    let mut from = spot.at;
    let mut owed: u64 = 0;
    let mut log = None;
    let mut gives = from;
    for _ in 0..spot.text.len() {
        let Some((line, next)) = line_from(spot.text, from) else {
            break;
        };
        gives = from;
        if is_node(line) {
            owed = owed.saturating_add(1);
        } else if line.starts_with(b"log") && owed == 1 {
            log = Some(from);
        } else if line.starts_with(b"gives ") {
            owed = owed.saturating_sub(1);
            if owed == 0 {
                break;
            }
        }
        from = next;
    }
    if let Some(log) = log {
        page.put(b"; its log is line ")?;
        page.put_number(line_at(spot.text, log).number)?;
        page.put(b" and its constraint line ")?;
    } else {
        page.put(b"; its constraint is line ")?;
    }
    page.put_number(line_at(spot.text, gives).number)
}
