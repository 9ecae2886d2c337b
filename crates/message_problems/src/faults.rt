// The faults of a file that the grammar takes: what is undeclared, declared twice, has another number of arguments, is of the other
// kind, or is no linear product. A name that is declared twice is not judged where it is used.

use crate::declared::{Found, Kind, Symbol, find_symbol, first_declaration};
use linear_term::Memory;
use message_lines::MOST;
use pri_reader::{Added, Block, Declared, Expr, File, Form, Name};
use std::alloc::Global;

/// A fault: its name, its place, and the name in the file that it is about.
#[derive(Clone, Copy)]
pub(crate) struct Fault<'a> {
    pub(crate) name: &'static [u8],
    pub(crate) at: usize,
    text: &'a [u8],
}

/// Which faults are listed.
#[derive(Clone, Copy, PartialEq, Eq)]
pub(crate) enum Depth {
    /// Those of names alone.
    Names,
    All,
}

/// The bound names at a place: those of the innermost quantifier, and those around it.
#[derive(Clone, Copy)]
enum Scope<'s> {
    Nothing,
    More(&'s [Declared], &'s Scope<'s>),
}

/// The faults that were found, and where they are looked for.
#[derive(Drop)]
struct Faults<'a> {
    file: &'a File,
    depth: Depth,
    list: Vec<Fault<'a>>,
    is_short: bool,
}

/// The first faults of a file, in the order of their places.
pub(crate) fn list_faults<'a>(
    alloc: Global,
    file: &'a File,
    depth: Depth,
) -> Result<Vec<Fault<'a>>, Memory> {
    let mut faults = Faults {
        file,
        depth,
        list: Vec::new(alloc),
        is_short: false,
    };
    for block in file.blocks.as_slice() {
        match block {
            Block::Universals(_, constants) | Block::Existentials(_, constants) => {
                for constant in constants.as_slice() {
                    faults.declare(&constant.name);
                }
            }
            Block::Functions(_, items) | Block::Predicates(_, items) => {
                for item in items.as_slice() {
                    faults.declare(&item.name);
                }
            }
            Block::Problem(_, formula) => {
                walk(
                    &mut faults,
                    &Scope::Nothing,
                    Kind::Formula,
                    formula.at,
                    formula,
                );
            }
            Block::Interpolant(_, _) => {}
        }
    }
    if faults.is_short {
        return Err(Memory);
    }
    Ok(faults.list)
}

impl<'a> Faults<'a> {
    /// Adds a fault in its place, as long as there are few.
    fn add(&mut self, name: &'static [u8], at: u64, text: &'a [u8]) {
        if self.list.len() > MOST {
            return;
        }
        let fault = Fault {
            name,
            at: at as usize,
            text,
        };
        if self.list.push(fault).is_err() {
            self.is_short = true;
        }
    }

    /// Notes a declaration of a name that an earlier one has.
    fn declare(&mut self, name: &'a Name) {
        let text = name.text.as_slice();
        if let Some(first) = first_declaration(self.file, text)
            && first != name.at
        {
            self.add(b"Redeclared", name.at, text);
        }
    }

    /// Notes a use of a name that stands for nothing, once.
    fn undeclared(&mut self, name: &'a Name) {
        let text = name.text.as_slice();
        for fault in self.list.as_slice() {
            if fault.name == b"Undeclared".as_slice() && fault.text == text {
                return;
            }
        }
        self.add(b"Undeclared", name.at, text);
    }

    /// Notes an expression of the other kind than is needed.
    fn kind(&mut self, want: Kind, is: Kind, at: u64) {
        if want != is && self.depth == Depth::All {
            self.add(b"Kind", at, b"");
        }
    }

    /// Judges the use of a name with this many arguments, whose first token is at this place, and answers whether it is known what it
    /// stands for.
    fn judge(
        &mut self,
        scope: &Scope,
        want: Kind,
        at: u64,
        name: &'a Name,
        arguments: usize,
    ) -> bool {
        let text = name.text.as_slice();
        let symbol = if is_bound(scope, text) {
            Symbol {
                kind: Kind::Term,
                arity: 0,
            }
        } else {
            match find_symbol(self.file, text) {
                Found::Nothing => {
                    self.undeclared(name);
                    return false;
                }
                Found::Twice => return false,
                Found::Once(symbol) => symbol,
            }
        };
        if symbol.arity != arguments {
            self.add(b"Arity", name.at, text);
        }
        self.kind(want, symbol.kind, at);
        true
    }
}

fn is_bound(scope: &Scope, text: &[u8]) -> bool {
    match scope {
        Scope::Nothing => false,
        Scope::More(names, outer) => {
            for bound in *names {
                if bound.name.text.as_slice() == text {
                    return true;
                }
            }
            is_bound(outer, text)
        }
    }
}

/// Whether an expression is built of numbers, sums, minus, products and parentheses alone.
#[cycle(numerals)]
fn is_built_of_numbers(expr: &Expr) -> bool {
    match &expr.form {
        Form::Number(_) => true,
        Form::Group(inner) | Form::Minus(inner) => is_built_of_numbers(inner.get()),
        Form::Product(left, _, right) => {
            is_built_of_numbers(left.get()) && is_built_of_numbers(right.get())
        }
        Form::Sum(first, more) => {
            is_built_of_numbers(first.get()) && are_built_of_numbers(more.as_slice())
        }
        _ => false,
    }
}

#[cycle(numerals)]
fn are_built_of_numbers(terms: &[Added]) -> bool {
    for added in terms {
        if !is_built_of_numbers(&added.term) {
            return false;
        }
    }
    true
}

/// Adds the faults of an expression where one of this kind is needed. Its first token, with the parentheses around it, is at this
/// place.
#[cycle(walk)]
fn walk<'a>(faults: &mut Faults<'a>, scope: &Scope, want: Kind, at: u64, expr: &'a Expr) {
    match &expr.form {
        Form::Use(name, arguments) => {
            let depth = faults.depth;
            if !faults.judge(scope, want, at, name, arguments.len()) {
                faults.depth = Depth::Names;
            }
            walk_all(faults, scope, Kind::Term, arguments.as_slice());
            faults.depth = depth;
        }
        Form::Group(inner) => walk(faults, scope, want, at, inner.get()),
        Form::Number(_)
        | Form::If(_, _, _)
        | Form::Abs(_)
        | Form::Min(_, _)
        | Form::Max(_, _)
        | Form::Minus(_)
        | Form::Product(_, _, _)
        | Form::Sum(_, _) => {
            faults.kind(want, Kind::Term, at);
            walk_term(faults, scope, expr);
        }
        _ => {
            faults.kind(want, Kind::Formula, at);
            walk_formula(faults, scope, expr);
        }
    }
}

/// Adds the faults of the operands of a term.
#[cycle(walk)]
fn walk_term<'a>(faults: &mut Faults<'a>, scope: &Scope, expr: &'a Expr) {
    match &expr.form {
        Form::If(condition, yes, no) => {
            walk_one(faults, scope, Kind::Formula, condition.get());
            walk_one(faults, scope, Kind::Term, yes.get());
            walk_one(faults, scope, Kind::Term, no.get());
        }
        Form::Abs(inner) | Form::Minus(inner) => {
            walk_one(faults, scope, Kind::Term, inner.get());
        }
        Form::Min(left, right) | Form::Max(left, right) => {
            walk_one(faults, scope, Kind::Term, left.get());
            walk_one(faults, scope, Kind::Term, right.get());
        }
        Form::Product(left, star, right) => {
            walk_one(faults, scope, Kind::Term, left.get());
            let is_linear = is_built_of_numbers(left.get()) || is_built_of_numbers(right.get());
            if !is_linear && faults.depth == Depth::All {
                faults.add(b"NonLinear", *star, b"");
            }
            walk_one(faults, scope, Kind::Term, right.get());
        }
        Form::Sum(first, more) => {
            walk_one(faults, scope, Kind::Term, first.get());
            for added in more.as_slice() {
                walk_one(faults, scope, Kind::Term, &added.term);
            }
        }
        _ => {}
    }
}

/// Adds the faults of the operands of a formula.
#[cycle(walk)]
fn walk_formula<'a>(faults: &mut Faults<'a>, scope: &Scope, expr: &'a Expr) {
    match &expr.form {
        Form::Compare(_, left, right) => {
            let depth = faults.depth;
            let told = faults.list.len();
            walk_one(faults, scope, Kind::Term, left.get());
            if faults.list.len() > told {
                faults.depth = Depth::Names;
            }
            walk_one(faults, scope, Kind::Term, right.get());
            faults.depth = depth;
        }
        Form::Not(inner) | Form::Part(_, inner) => {
            walk_one(faults, scope, Kind::Formula, inner.get());
        }
        Form::Quantified(_, names, body) => {
            let inside = Scope::More(names.as_slice(), &*scope);
            walk_one(faults, &inside, Kind::Formula, body.get());
        }
        Form::And(members) | Form::Or(members) => {
            walk_all(faults, scope, Kind::Formula, members.as_slice());
        }
        Form::Implies(left, right) | Form::Iff(left, right) => {
            walk_one(faults, scope, Kind::Formula, left.get());
            walk_one(faults, scope, Kind::Formula, right.get());
        }
        _ => {}
    }
}

#[cycle(walk)]
fn walk_one<'a>(faults: &mut Faults<'a>, scope: &Scope, want: Kind, expr: &'a Expr) {
    walk(faults, scope, want, expr.at, expr)
}

#[cycle(walk)]
fn walk_all<'a>(faults: &mut Faults<'a>, scope: &Scope, want: Kind, exprs: &'a [Expr]) {
    for expr in exprs {
        walk_one(faults, scope, want, expr);
    }
}
