// Scripts without `define-fun-rec` and `define-funs-rec` (SMT-LIB 2.6, section 4.2.3): each function is declared, and its
// equation is asserted for all arguments.

ghost use Rattle.smt_commands.specs.Commands.{members_of};
ghost use Rattle.smt_lists.specs.Expressions.{expr};
ghost use Rattle.smt_shorthand.specs.Functions.{are_proper, commands_by, defines_function, function_by, function_in, functions_by, functions_from, functions_of, functions_written_out, made, one_in, several_in, written, written_from};
ghost use Rattle.std.specs.List.{list_any};
ghost use Rattle.std.specs.Option.{option_map};
ghost use Rattle.std.specs.Prelude.{◌≡◌, [], IfOk, Some, map};

use crate::copying::copy;
use crate::defining::begins_with;
use crate::equations::{assertion, declaration, variable_of};
use base_texts::Texts;
use linear_term::Memory;
use smt_commands::{members, place, symbol};
use smt_lists::Sexp;
use sqlite_items::Items;
use std::alloc::Global;

/// The declaration of a function, and the assertion of its equation.
#[derive(Drop)]
pub struct Function {
    pub declaration: Sexp,
    pub assertion: Sexp,
}

/// The commands of a script with each recursive definition written out.
pub fn functions_written_out(alloc: Global, lists: Items<Sexp>) -> Result<Items<Sexp>, Memory>
    ensures { IfOk result (λ out. map expr out ≡ functions_written_out (map expr lists)) }
{
    if !some_defines_function(lists.as_slice()) {
        return Ok(lists);
    }
    write_functions_out(alloc, lists.as_slice())
}

/// Whether some command begins as a recursive definition.
fn some_defines_function(es: &[Sexp]) -> bool
    ensures { result ≡ list_any defines_function (map expr es.now) }
{
    for e in es {
        if defines_function(e) {
            return true;
        }
    }
    false
}

/// Whether a command begins as a recursive definition.
pub fn defines_function(e: &Sexp) -> bool
    ensures { result ≡ defines_function (expr e.now) }
{
    begins_with(e, b"define-fun-rec".as_slice()) || begins_with(e, b"define-funs-rec".as_slice())
}

/// The commands, each recursive definition written out.
#[tactic(auto, using(crate::proofs::OneFurther::written_on))]
fn write_functions_out(alloc: Global, es: &[Sexp]) -> Result<Items<Sexp>, Memory>
    ensures { IfOk result (λ out. map expr out ≡ written_from (map expr es.now)) }
{
    let mut out = Items::new(alloc);
    for e in es {
        out.append(written(alloc, e)?)?;
    }
    Ok(out)
}

/// The commands that a command is short for; the command itself, where it is short for none.
fn written(alloc: Global, e: &Sexp) -> Result<Items<Sexp>, Memory>
    ensures { IfOk result (λ out. map expr out ≡ written (expr e.now)) }
{
    match functions_of(alloc, e)? {
        Some(commands) => Ok(commands),
        None => {
            let mut out = Items::new(alloc);
            out.push(copy(alloc, e)?)?;
            Ok(out)
        }
    }
}

/// The commands that a recursive definition is short for.
fn functions_of(alloc: Global, e: &Sexp) -> Result<Option<Items<Sexp>>, Memory>
    ensures { IfOk result (λ cs. option_map (map expr) cs ≡ functions_of (expr e.now)) }
{
    let Some(members) = members(e) else {
        return Ok(None);
    };
    if begins_with(e, b"define-fun-rec".as_slice()) {
        return one_in(alloc, place(e), members);
    }
    if begins_with(e, b"define-funs-rec".as_slice()) {
        return several_in(alloc, place(e), members);
    }
    Ok(None)
}

/// The commands that a `define-fun-rec` of these members, at this offset, is short for.
fn one_in(alloc: Global, at: u64, members: &[Sexp]) -> Result<Option<Items<Sexp>>, Memory>
    ensures { IfOk result (λ cs. option_map (map expr) cs ≡ one_in at (map expr members.now)) }
{
    let [_, name, variables, sort, term] = members else {
        return Ok(None);
    };
    one_by(alloc, at, name, variables, sort, term)
}

/// The commands for one function.
fn one_by(
    alloc: Global,
    at: u64,
    name: &Sexp,
    variables: &Sexp,
    sort: &Sexp,
    term: &Sexp,
) -> Result<Option<Items<Sexp>>, Memory>
    ensures { IfOk result (λ cs. option_map (map expr) cs ≡ commands_by (function_by at (expr name.now) (expr variables.now) (expr sort.now) (expr term.now))) }
{
    let Some(function) = function_by(alloc, at, name, variables, sort, term)? else {
        return Ok(None);
    };
    let mut commands = Items::new(alloc);
    commands.push(function.declaration)?;
    commands.push(function.assertion)?;
    Ok(Some(commands))
}

/// The commands that a `define-funs-rec` of these members, at this offset, is short for.
fn several_in(alloc: Global, at: u64, members: &[Sexp]) -> Result<Option<Items<Sexp>>, Memory>
    ensures { IfOk result (λ cs. option_map (map expr) cs ≡ several_in at (map expr members.now)) }
{
    let [_, signatures, terms] = members else {
        return Ok(None);
    };
    several_by(alloc, at, signatures, terms)
}

/// The commands for the functions of a list of signatures and a list of terms.
fn several_by(
    alloc: Global,
    at: u64,
    signatures: &Sexp,
    terms: &Sexp,
) -> Result<Option<Items<Sexp>>, Memory>
    ensures { IfOk result (λ cs. option_map (map expr) cs ≡ functions_by at (members_of (expr signatures.now)) (members_of (expr terms.now))) }
{
    let Some(signatures) = members(signatures) else {
        return Ok(None);
    };
    let Some(terms) = members(terms) else {
        return Ok(None);
    };
    if signatures.is_empty() {
        return Ok(None);
    }
    functions(alloc, at, signatures, terms)
}

/// The declarations of functions, and after them the assertions of their equations; none where the terms are more or fewer.
#[tactic(auto, using(crate::proofs::OneFurther::functions_on, crate::proofs::OneFurther::functions_off, crate::proofs::OneFurther::functions_short, crate::proofs::OneFurther::functions_long, crate::proofs::OneFurther::functions_done))]
fn functions(
    alloc: Global,
    at: u64,
    signatures: &[Sexp],
    terms: &[Sexp],
) -> Result<Option<Items<Sexp>>, Memory>
    ensures { IfOk result (λ cs. option_map (map expr) cs ≡ functions_from at [] [] (map expr signatures.now) (map expr terms.now)) }
{
    let mut declarations = Items::new(alloc);
    let mut assertions = Items::new(alloc);
    let mut rest = signatures;
    let mut others = terms;
    while let Some((signature, behind)) = rest.split_first() {
        let Some((term, after)) = others.split_first() else {
            return Ok(None);
        };
        let Some(function) = function_of(alloc, at, signature, term)? else {
            return Ok(None);
        };
        let Function {
            declaration,
            assertion,
        } = function;
        declarations.push(declaration)?;
        assertions.push(assertion)?;
        rest = behind;
        others = after;
    }
    if !others.is_empty() {
        return Ok(None);
    }
    declarations.append(assertions)?;
    Ok(Some(declarations))
}

/// The function of a signature and its term.
fn function_of(
    alloc: Global,
    at: u64,
    signature: &Sexp,
    term: &Sexp,
) -> Result<Option<Function>, Memory>
    ensures { IfOk result (λ f. option_map made f ≡ function_in at (members_of (expr signature.now)) (expr term.now)) }
{
    let Some(members) = members(signature) else {
        return Ok(None);
    };
    function_in(alloc, at, members, term)
}

/// The function of a signature of these members, and its term.
fn function_in(
    alloc: Global,
    at: u64,
    members: &[Sexp],
    term: &Sexp,
) -> Result<Option<Function>, Memory>
    ensures { IfOk result (λ f. option_map made f ≡ function_in at (Some (map expr members.now)) (expr term.now)) }
{
    let [name, variables, sort] = members else {
        return Ok(None);
    };
    function_by(alloc, at, name, variables, sort, term)
}

/// The function of this name, these variables, this sort and this term.
fn function_by(
    alloc: Global,
    at: u64,
    name: &Sexp,
    list: &Sexp,
    sort: &Sexp,
    term: &Sexp,
) -> Result<Option<Function>, Memory>
    ensures { IfOk result (λ f. option_map made f ≡ function_by at (expr name.now) (expr list.now) (expr sort.now) (expr term.now)) }
{
    let Some(symbol) = symbol(name) else {
        return Ok(None);
    };
    let Some(variables) = members(list) else {
        return Ok(None);
    };
    if !are_proper(alloc, symbol.text, variables)? {
        return Ok(None);
    }
    Ok(Some(Function {
        declaration: declaration(alloc, at, name, variables, sort)?,
        assertion: assertion(alloc, at, name, list, variables, term)?,
    }))
}

/// Whether these are variables of different names, none of them this one or `=`.
fn are_proper(alloc: Global, text: &[u8], variables: &[Sexp]) -> Result<bool, Memory>
    ensures { IfOk result (λ b. b ≡ are_proper text.now (map expr variables.now)) }
{
    let mut seen = Texts::new(alloc);
    seen.add(alloc, text)?;
    seen.add(alloc, b"=".as_slice())?;
    for variable in variables {
        let Some(name) = variable_of(variable) else {
            return Ok(false);
        };
        if !seen.add(alloc, name.text)? {
            return Ok(false);
        }
    }
    Ok(true)
}
