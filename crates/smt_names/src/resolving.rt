// Terms with their names resolved. A name that stands for a leaf is replaced by it; another term that `let` binds gets a number.

ghost use Rattle.std.specs.Option.{IfSome};
ghost use Rattle.std.specs.Prelude.{◌≡◌, ◌+◌, ◌++◌, ◌∷◌, [], ℕ, List, IfOk, length, map};
ghost use Rattle.smt_terms.specs.Term.{phrase, phrases_of, bindings_of};
ghost use Rattle.smt_terms.specs.Evaluation.{names_of, texts_of, with_names};
ghost use Rattle.smt_terms.specs.Operators.{found, operator_of};
ghost use Rattle.smt_terms.specs.Translation.{a_formula, all_said, bindings_said, formula_in, said, use_said, Standing};
ghost use Rattle.smt_terms.specs.Translation as translation;
ghost use Rattle.smt_names.specs.Body.{shape, shapes_of};
ghost use Rattle.smt_names.specs.Resolving.{AreRead, Resolves};
ghost use Rattle.smt_names.specs.Saying.{Calls, bound_said, leaf_said, shape_said, shapes_said};
ghost use Rattle.smt_names.specs.Scopes.{AreLeavesWithin, IsLeafWithin, BoundNames, leaves_at, named_onto};
ghost use Rattle.smt_names.specs.Slots.{slots_onto};
ghost use Rattle.smt_names.specs.declared.body.Body.{Body};

use crate::binding::{bind, is_within};
use crate::body::{Body, Leaf};
use crate::operation::{operation, symbol};
use crate::scope::{Named, Scope, find};
use crate::symbols::Symbols;
use linear_term::Memory;
use smt_terms::{Binding, Term, Variable, named_operator};
use sqlite_items::{Boxed, Items};
use std::alloc::Global;

/// What names stand for, the bodies of those that stand for no other leaf, and how many names are bound with these.
#[derive(Drop)]
pub struct Read {
    pub leaves: Vec<Leaf>,
    pub kept: Items<Body>,
    pub count: u32,
}

/// Names that stand for the next bound names, and how many are bound with these.
#[derive(Drop)]
pub struct Next<'a> {
    pub names: Vec<Named<'a>>,
    pub count: u32,
}

/// The variables of a quantifier as the next bound names.
fn next_names<'a>(alloc: Global, variables: &'a [Variable], count: u32) -> Result<Next<'a>, Memory>
    ensures names { IfOk result (λ r. (outer : BoundNames) → named_onto r.names.items outer ≡ slots_onto count (texts_of variables.now) outer) }
    ensures count { IfOk result (λ r. r.count ≡ count + length variables.now) }
{
    let mut names = Vec::new(alloc);
    let mut next = count;
    for variable in variables {
        names.push(Named {
            text: variable.text.as_slice(),
            leaf: Leaf::Slot(next),
        })?;
        let Some(more) = next.checked_add(1) else {
            return Err(Memory)
        };
        next = more;
    }
    Ok(Next { names, count: next })
}

/// A leaf that needs no bound name from this number on.
fn leaf_within(body: &Body, count: u32) -> Option<Leaf>
    ensures { IfSome result (λ x. (body.now ≡ Body.Leaf x) × IsLeafWithin count x) }
{
    let Body::Leaf(leaf) = body else { return None };
    if is_within(*leaf, count) {
        Some(*leaf)
    } else {
        None
    }
}

/// One name more, bound to this body.
fn with_body(mut read: Read, body: Body) -> Result<Read, Memory>
    ensures length { IfOk result (λ r. length r.leaves.items ≡ length read.leaves.items + 1) }
    ensures count { IfOk result (λ r. read.count + length r.kept ≡ r.count + length read.kept) }
    ensures within { IfOk result (λ r. AreLeavesWithin read.count read.leaves.items → AreLeavesWithin r.count r.leaves.items) }
    ensures said { IfOk result (λ r. (D : Calls) (e : List Standing) → AreLeavesWithin read.count read.leaves.items → read.count ≡ length e + length read.kept
        → map (leaf_said (bound_said D e (shapes_of r.kept))) r.leaves.items
        ≡ map (leaf_said (bound_said D e (shapes_of read.kept))) read.leaves.items ++ shape_said D (bound_said D e (shapes_of read.kept)) (shape body) ∷ []) }
{
    if let Some(leaf) = leaf_within(&body, read.count) {
        read.leaves.push(leaf)?;
        return Ok(read);
    }
    let Some(more) = read.count.checked_add(1) else {
        return Err(Memory)
    };
    read.leaves.push(Leaf::Slot(read.count))?;
    read.kept.push(body)?;
    read.count = more;
    Ok(read)
}

/// The names of bindings, each with the leaf at its place.
fn named<'a>(
    alloc: Global,
    bindings: &'a [Binding],
    leaves: &[Leaf],
) -> Result<Vec<Named<'a>>, Memory>
    ensures texts { IfOk result (λ xs. length bindings.now ≡ length leaves.now → map (λ x. x.text.now) xs.items ≡ map (λ b. b.text) bindings.now) }
    ensures leaves { IfOk result (λ xs. length bindings.now ≡ length leaves.now → map (λ x. x.leaf) xs.items ≡ leaves.now) }
{
    let mut names = Vec::new(alloc);
    for i in 0..bindings.len() {
        if i < leaves.len() {
            names.push(Named {
                text: bindings[i].text.as_slice(),
                leaf: leaves[i],
            })?;
        }
    }
    Ok(names)
}

/// What a term says where these names are bound, this many of them by number.
#[cycle(resolve)]
pub(crate) fn resolve(
    alloc: Global,
    symbols: &Symbols,
    definitions: &[Body],
    scope: &Scope<'_>,
    count: u32,
    term: &Term,
) -> Result<Body, Memory>
    ensures { IfOk result (λ b. Resolves symbols.now definitions.now (leaves_at scope.now) count (λ D e. shape_said D e (shape b)) (λ W c. said W c (phrase term.now))) }
{
    match term {
        Term::Number(_, n) => Ok(Body::Leaf(Leaf::Number(*n))),
        Term::Large(_) => Ok(Body::Leaf(Leaf::Truth(false))),
        Term::Use(_, name, arguments) => {
            resolve_use(
                alloc,
                &*symbols,
                &*definitions,
                &*scope,
                count,
                name.text.as_slice(),
                arguments.as_slice(),
            )
        }
        Term::Let(_, bindings, body) => {
            resolve_let(
                alloc,
                &*symbols,
                &*definitions,
                &*scope,
                count,
                bindings.as_slice(),
                body.get(),
            )
        }
        Term::Quantified(_, all, variables, body) => {
            resolve_quantified(
                alloc,
                &*symbols,
                &*definitions,
                &*scope,
                count,
                *all,
                variables.as_slice(),
                body.get(),
            )
        }
        Term::Annotated(_, inner) => resolve(
            alloc,
            &*symbols,
            &*definitions,
            &*scope,
            count,
            inner.get(),
        ),
        Term::Ill(_) => Ok(Body::Leaf(Leaf::Truth(false))),
    }
}

/// What a symbol at its arguments says.
#[cycle(resolve)]
fn resolve_use(
    alloc: Global,
    symbols: &Symbols,
    definitions: &[Body],
    scope: &Scope<'_>,
    count: u32,
    text: &[u8],
    arguments: &[Term],
) -> Result<Body, Memory>
    ensures { IfOk result (λ b. Resolves symbols.now definitions.now (leaves_at scope.now) count (λ D e. shape_said D e (shape b))
        (λ W c. use_said W (found text.now c) (operator_of text.now) text.now (all_said W c (phrases_of arguments.now)))) }
{
    if let Some(leaf) = find(&*scope, &*text) {
        return Ok(Body::Leaf(leaf));
    }
    let arguments = resolve_all(alloc, &*symbols, &*definitions, &*scope, count, &*arguments)?;
    if let Some(known) = named_operator(&*text) {
        return Ok(operation(known, arguments));
    }
    symbol(alloc, &*symbols, &*definitions, &*text, arguments)
}

/// What each of several terms says.
#[cycle(resolve)]
fn resolve_all(
    alloc: Global,
    symbols: &Symbols,
    definitions: &[Body],
    scope: &Scope<'_>,
    count: u32,
    terms: &[Term],
) -> Result<Items<Body>, Memory>
    ensures { IfOk result (λ bs. Resolves symbols.now definitions.now (leaves_at scope.now) count (λ D e. shapes_said D e (shapes_of bs)) (λ W c. all_said W c (phrases_of terms.now))) }
{
    let mut out = Items::new(alloc);
    for term in terms {
        out.push(resolve(alloc, &*symbols, &*definitions, &*scope, count, term)?)?;
    }
    Ok(out)
}

/// The names that a `let` binds, with what they stand for.
#[cycle(resolve)]
fn resolve_bindings(
    alloc: Global,
    symbols: &Symbols,
    definitions: &[Body],
    scope: &Scope<'_>,
    count: u32,
    bindings: &[Binding],
) -> Result<Read, Memory>
    ensures { IfOk result (λ r. AreRead symbols.now definitions.now (leaves_at scope.now) count bindings.now r) }
{
    let mut read = Read {
        leaves: Vec::new(alloc),
        kept: Items::new(alloc),
        count,
    };
    for binding in bindings {
        let body = resolve(
            alloc,
            &*symbols,
            &*definitions,
            &*scope,
            read.count,
            &binding.term,
        )?;
        read = with_body(read, body)?;
    }
    Ok(read)
}

/// What a `let` says.
#[cycle(resolve)]
fn resolve_let(
    alloc: Global,
    symbols: &Symbols,
    definitions: &[Body],
    scope: &Scope<'_>,
    count: u32,
    bindings: &[Binding],
    body: &Term,
) -> Result<Body, Memory>
    ensures { IfOk result (λ b. Resolves symbols.now definitions.now (leaves_at scope.now) count (λ D e. shape_said D e (shape b))
        (λ W c. said W (with_names (names_of (bindings_of bindings.now)) (bindings_said W c (bindings_of bindings.now)) c) (phrase body.now))) }
{
    let Read {
        leaves,
        kept,
        count: deeper,
    } = resolve_bindings(alloc, &*symbols, &*definitions, &*scope, count, &*bindings)?;
    let names = named(alloc, &*bindings, leaves.as_slice())?;
    let inner = Scope::Names(names.as_slice(), &*scope);
    let inside = resolve(alloc, &*symbols, &*definitions, &inner, deeper, &*body)?;
    bind(alloc, count, kept, inside)
}

/// What a quantifier over variables says.
#[cycle(resolve)]
fn resolve_quantified(
    alloc: Global,
    symbols: &Symbols,
    definitions: &[Body],
    scope: &Scope<'_>,
    count: u32,
    all: bool,
    variables: &[Variable],
    body: &Term,
) -> Result<Body, Memory>
    ensures { IfOk result (λ b. Resolves symbols.now definitions.now (leaves_at scope.now) count (λ D e. shape_said D e (shape b))
        (λ W c n. a_formula (translation.bound_said all (texts_of variables.now) (λ d m. formula_in (said W d (phrase body.now) m)) c n))) }
{
    let Next {
        names,
        count: deeper,
    } = next_names(alloc, variables, count)?;
    let inner = Scope::Names(names.as_slice(), &*scope);
    let inside = resolve(alloc, &*symbols, &*definitions, &inner, deeper, &*body)?;
    Ok(Body::Quantified(all, deeper - count, Boxed::new(alloc, inside)?))
}
