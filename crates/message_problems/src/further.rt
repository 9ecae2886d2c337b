// More errors of a problem's file than the first. Where the first one is a slip whose right form is known, the file is read again with
// that form in place of it. Of a file that the grammar takes, all names and expressions are gone through.

use crate::faults::{Depth, Fault, list_faults};
use crate::problem::Problem;
use crate::problem_refusals::problem_slip;
use crate::repairs::{Repair, find_repair};
use linear_term::Memory;
use message_lines::{MOST, Messages, Spot, put_refused};
use pri_reader::{File, ReadRefusal, read};
use std::alloc::Global;

/// How many bytes a file has at most.
const FILE: usize = 1_048_576;

/// Puts the errors of a problem's file after its first one, which has this name and place.
pub(crate) fn put_further<'x>(
    alloc: Global,
    messages: &mut Messages,
    file: &'x str,
    text: &'x [u8],
    name: &[u8],
    at: usize,
) -> Result<(), Memory> {
    if text.len() > FILE {
        return Ok(());
    }
    match name {
        b"Syntax" => put_behind_slips(alloc, messages, file, text, at),
        b"Undeclared" | b"Redeclared" | b"Arity" | b"Kind" | b"NonLinear" => {
            match read(alloc, text) {
                Ok(tree) => put_faults(alloc, messages, file, text, &tree, at, Depth::All),
                Err(_) => Ok(()),
            }
        }
        _ => Ok(()),
    }
}

/// Puts the errors after slips of which each but the last one has a known form: the file is read again with it.
fn put_behind_slips<'x>(
    alloc: Global,
    messages: &mut Messages,
    file: &'x str,
    text: &'x [u8],
    at: usize,
) -> Result<(), Memory> {
    let mut changed = Vec::from_slice(alloc, text)?;
    let mut at = at;
    let mut keeps_names = true;
    for _ in 0..MOST {
        if messages.len() >= MOST {
            break;
        }
        let Some(repair) = repair_at(alloc, changed.as_slice(), at)? else {
            return Ok(());
        };
        keeps_names = keeps_names && repair.keeps_names;
        mend(&mut changed, &repair);
        if changed.len() > FILE {
            return Ok(());
        }
        let (name, next) = match read(alloc, changed.as_slice()) {
            Ok(tree) if keeps_names => {
                return put_faults(alloc, messages, file, text, &tree, FILE, Depth::Names);
            }
            Ok(_) => return Ok(()),
            Err(refusal) => refused_at(refusal),
        };
        if next <= at {
            return Ok(());
        }
        let spot = Spot {
            name: file,
            text,
            at: next,
        };
        put_slip_of(alloc, messages, &spot, changed.as_slice(), name)?;
        if name != b"Syntax".as_slice() {
            return Ok(());
        }
        at = next;
    }
    Ok(())
}

/// The name and the place of a refusal by the grammar; place 0 if memory runs out.
fn refused_at(refusal: ReadRefusal) -> (&'static [u8], usize) {
    match refusal {
        ReadRefusal::Syntax(at) => (b"Syntax", at as usize),
        ReadRefusal::Literal(at) => (b"Literal", at as usize),
        ReadRefusal::Deep(at) => (b"Deep", at as usize),
        ReadRefusal::Memory => (b"Syntax", 0),
    }
}

/// The repair of the slip at a place of a text, if its form is known.
fn repair_at(alloc: Global, text: &[u8], at: usize) -> Result<Option<Repair>, Memory> {
    let lexemes = pri_tokens::lexemes(alloc, text)?;
    let problem = Problem {
        bytes: text,
        lexemes: lexemes.as_slice(),
    };
    Ok(find_repair(&problem, problem.token_at(at)))
}

/// Puts the form of a repair in place of what stands there, and blanks where it is shorter.
fn mend(text: &mut Vec<u8>, repair: &Repair) {
    let form = repair.form.as_bytes();
    for i in 0..repair.to.saturating_sub(repair.from) {
        let byte = form.get(i).copied().unwrap_or(b' ');
        if let Some(place) = text.get_mut(repair.from.saturating_add(i)) {
            *place = byte;
        }
    }
}

/// Puts an error at a spot of a file, whose tokens are those of a changed text with the same places.
fn put_slip_of(
    alloc: Global,
    messages: &mut Messages,
    spot: &Spot,
    changed: &[u8],
    name: &[u8],
) -> Result<(), Memory> {
    let lexemes = pri_tokens::lexemes(alloc, changed)?;
    let problem = Problem {
        bytes: changed,
        lexemes: lexemes.as_slice(),
    };
    put_refused(messages, spot, name, &problem_slip(&problem, name, spot.at))
}

/// Puts the faults of a file that the grammar takes, but for the one at this place, which is told already.
fn put_faults<'x>(
    alloc: Global,
    messages: &mut Messages,
    file: &'x str,
    text: &'x [u8],
    tree: &File,
    told: usize,
    depth: Depth,
) -> Result<(), Memory> {
    let faults: Vec<Fault> = list_faults(alloc, tree, depth)?;
    for fault in faults.as_slice() {
        if messages.len() >= MOST {
            break;
        }
        if fault.at != told {
            let spot = Spot {
                name: file,
                text,
                at: fault.at,
            };
            put_slip_of(alloc, messages, &spot, text, fault.name)?;
        }
    }
    Ok(())
}
