// What the commands of a script come to, one after another.

ghost use Rattle.std.specs.Prelude.{◌≡◌, ◌≢◌, ◌++◌, ◌∷◌, [], IfOk, List, false, map};
ghost use Rattle.base_texts.specs.Texts.{is_among};
ghost use Rattle.smt_terms.specs.declared.operator.Sort.TheVariants as sort;
ghost use Rattle.smt_terms.specs.Evaluation as evaluation;
ghost use Rattle.smt_terms.specs.Scripts as scripts;
ghost use Rattle.smt_terms.specs.Scripts.{Command, State, after, after_declaration, claim};
ghost use Rattle.smt_terms.specs.Term.{phrase};
ghost use Rattle.smt_reader.specs.Effects.{command_is};
ghost use Rattle.smt_reader.specs.Commands.{state_of};
ghost use Rattle.smt_reader.specs.Following.{AreNew, FollowsState, IsNewSymbol, texts_behind};

use crate::effects::Effect;
use linear_term::Memory;
use pri_typing::Symbol;
use smt_names::{Body, Declared, Known};
use smt_sizes::{Forms, NOTHING, Size, beside};
use smt_terms::{Sort, Term, Variable};
use sqlite_items::Items;
use std::alloc::Global;

/// An asserted term: what it says over this many of the functions that are defined in the end.
#[derive(Drop)]
pub struct Assertion {
    pub body: Body,
    pub definitions: usize,
}

/// What the commands so far came to: the symbols, the Int constants, the functions and the predicates in the order of their
/// declarations, and what was asserted.
#[derive(Drop)]
pub struct Reading {
    pub known: Known,
    pub constants: Items<Items<u8>>,
    pub functions: Items<Symbol>,
    pub predicates: Items<Symbol>,
    pub claims: Items<Assertion>,
    /// How much each defined function writes.
    pub forms: Forms,
    /// How large the formulas of the assertions are together.
    pub size: Size,
}

/// Before all commands.
pub(crate) fn start(alloc: Global) -> Reading
    ensures follows { FollowsState result scripts.start }
    ensures texts { result.known.symbols.texts ≡ [] }
{
    Reading {
        known: Known::new(alloc),
        constants: Items::new(alloc),
        functions: Items::new(alloc),
        predicates: Items::new(alloc),
        claims: Items::new(alloc),
        forms: Forms::new(alloc),
        size: NOTHING,
    }
}

// A place in a list as the number of a symbol.
fn number(place: usize) -> Result<u32, Memory>
    ensures { IfOk result (λ n. n ≡ place) }
{
    if place > u32::MAX as usize {
        return Err(Memory);
    }
    Ok(place as u32)
}

// A symbol with this many arguments.
fn symbol(alloc: Global, text: &[u8], arity: u64) -> Result<Symbol, Memory>
    ensures { IfOk result (λ s. s ≡ record { name = text.now; arity = arity }) }
{
    if arity > u32::MAX as u64 {
        return Err(Memory);
    }
    Ok(Symbol {
        name: Items::from_slice(alloc, text)?,
        arity: arity as u32,
    })
}

// An Int constant more.
fn declare_constant(alloc: Global, reading: Reading, text: &[u8]) -> Result<Reading, Memory>
    ensures follows { IfOk result (λ r. (s : State) → FollowsState reading s → is_among text.now reading.known.symbols.texts ≡ false → FollowsState r (after_declaration s text.now 0 sort.Int)) }
    ensures texts { IfOk result (λ r. is_among text.now reading.known.symbols.texts ≡ false → r.known.symbols.texts ≡ reading.known.symbols.texts ++ text.now ∷ []) }
{
    let Reading {
        known,
        mut constants,
        functions,
        predicates,
        claims,
        forms,
        size,
    } = reading;
    let declared = Declared::Constant(number(constants.len())?);
    let known = known.declare(alloc, text, declared)?;
    constants.push(Items::from_slice(alloc, text)?)?;
    Ok(Reading {
        known,
        constants,
        functions,
        predicates,
        claims,
        forms,
        size,
    })
}

// A function with arguments more.
fn declare_function(
    alloc: Global,
    reading: Reading,
    text: &[u8],
    arity: u64,
) -> Result<Reading, Memory>
    requires { arity ≢ 0 }
    ensures follows { IfOk result (λ r. (s : State) → FollowsState reading s → is_among text.now reading.known.symbols.texts ≡ false → FollowsState r (after_declaration s text.now arity sort.Int)) }
    ensures texts { IfOk result (λ r. is_among text.now reading.known.symbols.texts ≡ false → r.known.symbols.texts ≡ reading.known.symbols.texts ++ text.now ∷ []) }
{
    let Reading {
        known,
        constants,
        mut functions,
        predicates,
        claims,
        forms,
        size,
    } = reading;
    let declared = Declared::Function(number(functions.len())?);
    let known = known.declare(alloc, text, declared)?;
    functions.push(symbol(alloc, text, arity)?)?;
    Ok(Reading {
        known,
        constants,
        functions,
        predicates,
        claims,
        forms,
        size,
    })
}

// A predicate more.
fn declare_predicate(
    alloc: Global,
    reading: Reading,
    text: &[u8],
    arity: u64,
) -> Result<Reading, Memory>
    ensures follows { IfOk result (λ r. (s : State) → FollowsState reading s → is_among text.now reading.known.symbols.texts ≡ false → FollowsState r (after_declaration s text.now arity sort.Bool)) }
    ensures texts { IfOk result (λ r. is_among text.now reading.known.symbols.texts ≡ false → r.known.symbols.texts ≡ reading.known.symbols.texts ++ text.now ∷ []) }
{
    let Reading {
        known,
        constants,
        functions,
        mut predicates,
        claims,
        forms,
        size,
    } = reading;
    let declared = Declared::Predicate(number(predicates.len())?);
    let known = known.declare(alloc, text, declared)?;
    predicates.push(symbol(alloc, text, arity)?)?;
    Ok(Reading {
        known,
        constants,
        functions,
        predicates,
        claims,
        forms,
        size,
    })
}

// A declared symbol more.
fn declare(
    alloc: Global,
    reading: Reading,
    text: &[u8],
    arity: u64,
    sort: Sort,
) -> Result<Reading, Memory>
    ensures follows { IfOk result (λ r. (s : State) → FollowsState reading s → is_among text.now reading.known.symbols.texts ≡ false → FollowsState r (after_declaration s text.now arity sort)) }
    ensures texts { IfOk result (λ r. is_among text.now reading.known.symbols.texts ≡ false → r.known.symbols.texts ≡ reading.known.symbols.texts ++ text.now ∷ []) }
{
    match sort {
        Sort::Int => {
            if arity == 0 {
                declare_constant(alloc, reading, text)
            } else {
                declare_function(alloc, reading, text, arity)
            }
        }
        Sort::Bool => declare_predicate(alloc, reading, text, arity),
    }
}

// The names of variables.
fn names(alloc: Global, variables: &[Variable]) -> Result<Items<Items<u8>>, Memory>
    ensures { IfOk result (λ xs. xs ≡ evaluation.texts_of variables.now) }
{
    let mut texts = Items::new(alloc);
    for variable in variables {
        texts.push(Items::from_slice(alloc, variable.text.as_slice())?)?;
    }
    Ok(texts)
}

// A defined function more.
fn define(
    alloc: Global,
    reading: Reading,
    text: &[u8],
    arguments: &[Variable],
    term: &Term,
) -> Result<Reading, Memory>
    ensures follows { IfOk result (λ r. (s : State) → FollowsState reading s → is_among text.now reading.known.symbols.texts ≡ false
        → FollowsState r (record s { globals = (text.now, evaluation.defined_by (evaluation.texts_of arguments.now) (phrase term.now)) ∷ s.globals })) }
    ensures texts { IfOk result (λ r. is_among text.now reading.known.symbols.texts ≡ false → r.known.symbols.texts ≡ reading.known.symbols.texts ++ text.now ∷ []) }
{
    let Reading {
        known,
        constants,
        functions,
        predicates,
        claims,
        forms,
        size,
    } = reading;
    let names = names(alloc, arguments)?;
    let parameters = number(names.len())?;
    let known = known.define(alloc, text, names.as_slice(), term)?;
    let forms = forms.define(alloc, known.definitions.as_slice(), parameters)?;
    Ok(Reading {
        known,
        constants,
        functions,
        predicates,
        claims,
        forms,
        size,
    })
}

// An assertion more.
fn claim(alloc: Global, reading: Reading, term: &Term) -> Result<Reading, Memory>
    ensures follows { IfOk result (λ r. (s : State) → FollowsState reading s → FollowsState r (record s { claims = s.claims ++ (record { globals = s.globals; term = phrase term.now }) ∷ [] })) }
    ensures texts { IfOk result (λ r. r.known.symbols.texts ≡ reading.known.symbols.texts) }
{
    let Reading {
        known,
        constants,
        functions,
        predicates,
        mut claims,
        forms,
        size,
    } = reading;
    let body = known.read(alloc, term)?;
    let one = forms.size(alloc, known.definitions.as_slice(), &body)?;
    let size = beside(size, one);
    let definitions = known.definitions.len();
    claims.push(Assertion { body, definitions })?;
    Ok(Reading {
        known,
        constants,
        functions,
        predicates,
        claims,
        forms,
        size,
    })
}

/// What comes of a command more.
pub(crate) fn follow(alloc: Global, reading: Reading, effect: &Effect) -> Result<Reading, Memory>
    ensures follows { IfOk result (λ r. (s : State) → FollowsState reading s → IsNewSymbol reading.known.symbols.texts (command_is effect.now) → FollowsState r (after s (command_is effect.now))) }
    ensures texts { IfOk result (λ r. IsNewSymbol reading.known.symbols.texts (command_is effect.now) → r.known.symbols.texts ≡ texts_behind reading.known.symbols.texts (command_is effect.now)) }
{
    match effect {
        Effect::Declare(text, arity, sort) => {
            declare(alloc, reading, text.as_slice(), *arity, *sort)
        }
        Effect::Define(text, arguments, _sort, term) => {
            define(alloc, reading, text.as_slice(), arguments.as_slice(), term)
        }
        Effect::Claim(term) => claim(alloc, reading, term),
    }
}

/// What comes of several commands, no symbol of which is declared or defined twice.
#[tactic(auto, using(crate::proofs::Replaying::replayed_on, crate::proofs::Replaying::replayed_start, crate::proofs::Replaying::replayed_all))]
pub(crate) fn follow_all(alloc: Global, effects: &[Effect]) -> Result<Reading, Memory>
    requires new { AreNew [] (map command_is effects.now) }
    ensures { IfOk result (λ r. FollowsState r (state_of (map command_is effects.now))) }
{
    let mut reading = start(alloc);
    let mut rest = effects;
    while let Some((effect, behind)) = rest.split_first() {
        reading = follow(alloc, reading, effect)?;
        rest = behind;
    }
    Ok(reading)
}

/// What comes of some assertions more.
pub(crate) fn assume(alloc: Global, reading: Reading, terms: &[Term]) -> Result<Reading, Memory>
    ensures { IfOk result (λ r. (cs : List Command) → FollowsState reading (state_of cs) → FollowsState r (state_of (cs ++ map claim (map phrase terms.now)))) }
{
    let mut reading = reading;
    let mut rest = terms;
    while let Some((term, behind)) = rest.split_first() {
        reading = claim(alloc, reading, term)?;
        rest = behind;
    }
    Ok(reading)
}
