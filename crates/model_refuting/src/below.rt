// The body of an encoded problem without existential constants.

ghost use Rattle.form_encoding.specs.Problems as problems;
ghost use Rattle.formula.specs.Tree.{form};
ghost use Rattle.model_refuting.specs.Below as below;
ghost use Rattle.pri_problem.specs.Encoded.{IsEncoded};
ghost use Rattle.pri_typing.specs.WellFormed.{IsWellFormed};
ghost use Rattle.std.specs.Prelude.{◌≡◌, [], Some, IfSome};

use form_typed::Sort;
use formula::Core;
use function_encoding::Encoded;
use pri_typing::Problem;

/// The last member of a disjunction.
#[tactic(auto, using(formula::proofs::Building::formed, crate::proofs::Body::member))]
fn last_of(f: &Core) -> Option<&Core>
    ensures { IfSome result (λ g. below.last_of (form f.now) ≡ Some (form g.now)) }
{
    match f {
        Core::Or(fs) => match fs.as_slice().split_last() {
            Some((last, _)) => Some(last),
            None => None,
        },
        _ => None,
    }
}

/// What stands below a for-all over the values of a type, without what says that a value is none of the type.
#[tactic(auto, using(formula::proofs::Building::formed))]
fn below(f: &Core, sort: Sort) -> Option<&Core>
    ensures { IfSome result (λ g. below.below sort (form f.now) ≡ Some (form g.now)) }
{
    let Core::Forall(g) = f else {
        return None;
    };
    match sort {
        Sort::Int => Some(g.get()),
        Sort::Nat => last_of(g.get()),
        Sort::Range(_, _) => last_of(g.get()),
    }
}

/// The encoded formula below the for-alls of the universal constants.
#[tactic(auto, using(crate::proofs::Body::stripping))]
pub fn body_of<'a>(problem: &Problem, encoded: &'a Encoded) -> Option<&'a Core>
    requires well_formed { IsWellFormed problem.now }
    requires encoded { IsEncoded problem.now encoded.now }
    requires none { problem.now.existentials ≡ [] }
    ensures { IfSome result (λ f. form f.now ≡ (problems.body problem.now).value) }
{
    let mut f = &encoded.root;
    let mut types = problem.universal_types.as_slice();
    while let Some((sort, more)) = types.split_first() {
        let Some(g) = below(f, *sort) else {
            return None;
        };
        f = g;
        types = more;
    }
    Some(f)
}
