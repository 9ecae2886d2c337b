// Which quantifier of a problem's file has how many instances, as far as the symbols in it tell that.

use base_watch::Instances;
use linear_term::Memory;
use message_lines::{Messages, Page, Severity, Slip, Subject};
use message_problems::{Problem, is_block, is_quantifier};
use pri_tokens::{Terminal, lexemes};
use std::alloc::Global;

/// The bit of a set of symbols that stands for no single one.
const LAST: u32 = 63;

/// The most tokens of a file in which quantifiers are looked for.
const MOST_TOKENS: usize = 10_000;

/// A predicate or a function that a file declares.
#[derive(Clone, Copy)]
struct Symbol {
    /// The token of its name.
    token: usize,
    is_function: bool,
    /// How many of its kind are declared before it.
    number: u32,
}

/// Puts a note for each of these quantifiers: how many instances it has, which predicates and functions occur in it, and where it
/// stands in the file. The place is left out where several quantifiers could be meant.
pub(crate) fn put_instances(
    alloc: Global,
    messages: &mut Messages,
    file: &str,
    text: &[u8],
    most: &[Instances],
) -> Result<(), Memory> {
    let found = lexemes(alloc, text)?;
    let p = Problem {
        bytes: text,
        lexemes: found.as_slice(),
    };
    let symbols = declared(alloc, &p)?;
    for instances in most {
        if instances.count == 0 {
            continue;
        }
        let mut sentence = Page::new(alloc);
        put_quantifier(&mut sentence, &p, symbols.as_slice(), instances)?;
        let spot = match only_place(&p, symbols.as_slice(), instances) {
            Some(k) => Some((text, p.offset(k))),
            None => None,
        };
        let subject = Subject {
            file,
            severity: Severity::Note,
            name: b"",
            spot,
        };
        messages.put_with(&subject, &Slip::new(""), sentence.bytes())?;
    }
    Ok(())
}

/// Puts a line for each of these quantifiers, with the number of its line in the file.
pub(crate) fn put_instance_lines(
    alloc: Global,
    page: &mut Page,
    text: &[u8],
    most: &[Instances],
) -> Result<(), Memory> {
    let found = lexemes(alloc, text)?;
    let p = Problem {
        bytes: text,
        lexemes: found.as_slice(),
    };
    let symbols = declared(alloc, &p)?;
    for instances in most {
        if instances.count == 0 {
            continue;
        }
        page.put(b"princess: ")?;
        put_quantifier(page, &p, symbols.as_slice(), instances)?;
        if let Some(k) = only_place(&p, symbols.as_slice(), instances) {
            page.put(b" in line ")?;
            page.put_number(p.line(k))?;
        }
        page.put(b"\n")?;
    }
    Ok(())
}

fn put_quantifier(
    page: &mut Page,
    p: &Problem,
    symbols: &[Symbol],
    instances: &Instances,
) -> Result<(), Memory> {
    page.put_grouped(instances.count)?;
    if instances.count == 1 {
        page.put(b" instance of a quantifier")?;
    } else {
        page.put(b" instances of a quantifier")?;
    }
    let mut is_first = true;
    for symbol in symbols {
        if occurs(symbol, instances) {
            page.put_str(if is_first { " over " } else { ", " })?;
            page.put_short(p.text(symbol.token), 40)?;
            is_first = false;
        }
    }
    Ok(())
}

/// Whether a symbol occurs in the quantifier.
fn occurs(symbol: &Symbol, instances: &Instances) -> bool {
    let set = if symbol.is_function {
        instances.functions
    } else {
        instances.predicates
    };
    symbol.number < LAST && (set >> symbol.number) & 1 == 1
}

/// The quantifier of the file in whose reach all these symbols occur, where there is one alone.
fn only_place(p: &Problem, symbols: &[Symbol], instances: &Instances) -> Option<usize> {
    if p.len() > MOST_TOKENS {
        return None;
    }
    let mut only = None;
    for k in 0..p.len() {
        if is_quantifier(p.terminal(k)) && reaches_all(p, k, symbols, instances) {
            if only.is_some() {
                return None;
            }
            only = Some(k);
        }
    }
    only
}

/// Whether all these symbols occur between token k and the end of the brackets round it: a quantifier reaches no further.
fn reaches_all(p: &Problem, k: usize, symbols: &[Symbol], instances: &Instances) -> bool {
    let end = end_of_brackets(p, k);
    for symbol in symbols {
        if occurs(symbol, instances) && !is_within(p, p.text(symbol.token), k, end) {
            return false;
        }
    }
    true
}

/// The first token after token k that closes a bracket which was open there.
fn end_of_brackets(p: &Problem, k: usize) -> usize {
    let mut depth: usize = 0;
    for i in k..p.len() {
        match p.terminal(i) {
            Some(Terminal::OpenParenthesis | Terminal::OpenBracket | Terminal::OpenBrace) => {
                depth = depth.saturating_add(1);
            }
            Some(Terminal::CloseParenthesis | Terminal::CloseBracket | Terminal::CloseBrace) => {
                if depth == 0 {
                    return i;
                }
                depth -= 1;
            }
            _ => {}
        }
    }
    p.len()
}

/// Whether a token with this text stands between two tokens.
fn is_within(p: &Problem, name: &[u8], from: usize, end: usize) -> bool {
    for i in from..end {
        if p.text(i) == name {
            return true;
        }
    }
    false
}

/// The predicates and functions that a file declares, each kind numbered in its order.
fn declared(alloc: Global, p: &Problem) -> Result<Vec<Symbol>, Memory> {
    let mut symbols = Vec::new(alloc);
    let mut block = Terminal::Problem;
    let mut depth: usize = 0;
    let mut functions: u32 = 0;
    let mut predicates: u32 = 0;
    for k in 0..p.len() {
        match p.terminal(k) {
            Some(Terminal::OpenBrace | Terminal::OpenParenthesis | Terminal::OpenBracket) => {
                depth = depth.saturating_add(1);
            }
            Some(Terminal::CloseBrace | Terminal::CloseParenthesis | Terminal::CloseBracket) => {
                depth = depth.saturating_sub(1);
            }
            Some(Terminal::Identifier) if depth == 1 => {
                let (is_function, number) = match block {
                    Terminal::Functions => (true, &mut functions),
                    Terminal::Predicates => (false, &mut predicates),
                    _ => continue,
                };
                symbols.push(Symbol {
                    token: k,
                    is_function,
                    number: *number,
                })?;
                *number = number.saturating_add(1);
            }
            Some(found) if depth == 0 && is_block(Some(found)) => block = found,
            _ => {}
        }
    }
    Ok(symbols)
}
