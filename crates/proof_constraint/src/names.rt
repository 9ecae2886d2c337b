// Names of a sum, read at once: most of a long constraint is these.

ghost use Rattle.proof_constraint.specs.Behind as b;
ghost use Rattle.proof_constraint.specs.Ranges.{IsRising};
ghost use Rattle.proof_constraint.specs.State as s;
ghost use Rattle.proof_constraint.specs.Steps.{ReachesState};
ghost use Rattle.proof_tokens.specs.Reading.{Cuts};
ghost use Rattle.proof_tokens.specs.declared.tokens.Token.TheVariants as t;
ghost use Rattle.std.specs.Prelude.{◌≤◌, ◌<◌, ◌∷◌, [], cond, length, IfOk, IfSome};

use crate::draft::Draft;
use crate::signs::sign_ahead;
use linear_term::Memory;
use proof_tokens::name_ahead;

/// Takes the names that come after a name, each with a sign between two blanks before it: the text after them.
pub fn take_names<'a>(draft: &mut Draft, text: &'a [u8]) -> Result<&'a [u8], Memory>
    requires open { IsRising draft.old }
    ensures exact { IfOk result (λ rest. ReachesState (s.Behind (b.Sum draft.old)) (s.Behind (b.Sum draft.new)) text.now rest.now) }
    ensures open { IfOk result (λ rest. IsRising draft.new) }
    ensures within { IfOk result (λ rest. length rest.now ≤ length text.now) }
{
    let mut rest = text;
    while let Some((minus, name, more)) = signed_name(rest) {
        if draft.least > u64::from(name) {
            return Ok(rest);
        }
        draft.add_name(minus, 1, name)?;
        rest = more;
    }
    Ok(rest)
}

/// The name after a sign between two blanks that the text begins with, whether the sign is `-`, and the text after it.
fn signed_name(text: &[u8]) -> Option<(bool, u32, &[u8])>
    ensures exact { IfSome result (λ x. Cuts (t.Blank ∷ cond x.0 t.Minus t.Plus ∷ t.Blank ∷ t.Name x.1 ∷ []) text.now x.2.now) }
    ensures shorter { IfSome result (λ x. length x.2.now < length text.now) }
{
    let (minus, behind) = sign_ahead(text)?;
    let (name, rest) = name_ahead(behind)?;
    Some((minus, name, rest))
}
