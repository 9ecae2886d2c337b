// A problem with another formula, and its encoding.

ghost use Rattle.std.specs.Prelude.{◌≡◌, IfOk};
ghost use Rattle.form_typed.specs.Formula.{formula};
ghost use Rattle.function_encoding.specs.Encoded.{Encodes, root_of};
ghost use Rattle.pri_typing.specs.WellFormed.{IsWellFormed};
ghost use Rattle.itp_printer.specs.Replaced.{with_formula};
ghost use Rattle.pred_interpolant.specs.Fit.{IsFitFormula};
ghost use Rattle.pred_interpolant.specs.Replaced.{AreConstantsOf, AreOthersOf};
ghost use Rattle.pred_interpolant.specs.Middle.{IsObligation, obligation_root};

use form_typed::{Sort, Typed};
use function_encoding::{EncodeRefusal, Encoded, encode};
use linear_term::Memory;
use pri_typing::{Problem, Symbol, copy_symbols, copy_texts};
use sqlite_items::{Boxed, Items};
use std::alloc::Global;

/// The constants of a problem, with their types.
#[derive(Drop)]
struct Constants {
    existentials: Items<Items<u8>>,
    existential_types: Items<Sort>,
    universals: Items<Items<u8>>,
    universal_types: Items<Sort>,
}

fn constants_of(alloc: Global, p: &Problem) -> Result<Constants, Memory>
    ensures { IfOk result (AreConstantsOf p.now) }
{
    Ok(Constants {
        existentials: copy_texts(alloc, p.existentials.as_slice())?,
        existential_types: Items::from_slice(alloc, p.existential_types.as_slice())?,
        universals: copy_texts(alloc, p.universals.as_slice())?,
        universal_types: Items::from_slice(alloc, p.universal_types.as_slice())?,
    })
}

/// The other symbols of a problem, and the names of its parts.
#[derive(Drop)]
struct Others {
    functions: Items<Symbol>,
    predicates: Items<Symbol>,
    parts: Items<Items<u8>>,
}

fn others_of(alloc: Global, p: &Problem) -> Result<Others, Memory>
    ensures { IfOk result (AreOthersOf p.now) }
{
    Ok(Others {
        functions: copy_symbols(alloc, p.functions.as_slice())?,
        predicates: copy_symbols(alloc, p.predicates.as_slice())?,
        parts: copy_texts(alloc, p.parts.as_slice())?,
    })
}

/// The problem with this formula and without cuts.
fn replaced(alloc: Global, p: &Problem, f: Boxed<Typed>) -> Result<Problem, Memory>
    ensures { IfOk result (λ q. q ≡ with_formula p.now f) }
{
    let constants = constants_of(alloc, p)?;
    let others = others_of(alloc, p)?;
    Ok(Problem {
        existentials: constants.existentials,
        existential_types: constants.existential_types,
        universals: constants.universals,
        universal_types: constants.universal_types,
        functions: others.functions,
        predicates: others.predicates,
        parts: others.parts,
        formula: f.into_inner(),
        cuts: Items::new(alloc),
        first_application: None,
    })
}

/// The encoding of the problem with this formula.
pub fn encode_formula(alloc: Global, p: &Problem, f: Boxed<Typed>) -> Result<Encoded, EncodeRefusal>
    requires formed { IsWellFormed p.now }
    requires fit { IsFitFormula p.now (formula f) }
    ensures work { Encodes (obligation_root p.now (formula f)) (root_of result) }
    ensures encoded { IfOk result (λ e. IsObligation p.now (formula f) e) }
{
    let q = replaced(alloc, p, f)?;
    encode(alloc, &q)
}
