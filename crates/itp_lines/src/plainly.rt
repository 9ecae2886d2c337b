// Whether some component of a problem is plainly true.

ghost use Rattle.std.specs.Prelude.{◌≡◌};
ghost use Rattle.std.specs.List.{list_any};
ghost use Rattle.itp_lines.specs.Ends.{is_plainly_valid};
ghost use Rattle.pri_typing.specs.Problems.{is_plainly_true};
ghost use Rattle.pri_typing.specs.WellFormed.{all_formula_components, formula_components};
ghost use Rattle.form_typed.specs.Formula.{formula, formulas_of};

use form_typed::Typed;
use pri_typing::Problem;

/// Whether some component of the formula is plainly true, where it stands with this sign, true for plus.
#[cycle(plainly)]
#[tactic(auto, using(crate::proofs::Apart::plainly_both))]
fn has_plain(plus: bool, f: &Typed) -> bool
    ensures { result ≡ list_any is_plainly_true (formula_components plus (formula f.now)) }
{
    match f {
        Typed::Not(g) => has_plain(!plus, g.get()),
        Typed::Implies(g, h) => {
            if !plus {
                return false;
            }
            has_plain(false, g.get()) || has_plain(true, h.get())
        }
        Typed::Or(fs) => plus && have_plain(true, fs.as_slice()),
        Typed::And(fs) => !plus && have_plain(false, fs.as_slice()),
        Typed::Truth(b) => *b == plus,
        Typed::Part(_, _) => false,
        Typed::Rel(_, _, _) => false,
        Typed::Pred(_, _) => false,
        Typed::Iff(_, _) => false,
        Typed::Forall(_, _) => false,
        Typed::Exists(_, _) => false,
    }
}

#[cycle(plainly)]
#[tactic(auto, using(crate::proofs::Apart::plainly_both))]
fn have_plain(plus: bool, formulas: &[Typed]) -> bool
    ensures { result ≡ list_any is_plainly_true (all_formula_components plus (formulas_of formulas.now)) }
{
    for f in formulas {
        if has_plain(plus, f) {
            return true;
        }
    }
    false
}

/// Whether some component of the problem is `true` with plus or `false` with minus.
pub(crate) fn is_plainly_valid(p: &Problem) -> bool
    ensures { result ≡ is_plainly_valid p.now }
{
    has_plain(true, &p.formula)
}
