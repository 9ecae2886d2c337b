// Signs between two blanks at the front of a text, found without a look at other tokens.

ghost use Rattle.proof_tokens.specs.Reading.{Cuts};
ghost use Rattle.proof_tokens.specs.declared.tokens.Token.TheVariants as t;
ghost use Rattle.std.specs.Prelude.{◌≡◌, ◌<◌, ◌∷◌, [], cond, length, IfSome};

use proof_tokens::{name_ahead, number_ahead};

/// The byte between two blanks that the text begins with, and the text after them.
fn between_blanks(text: &[u8]) -> Option<(u8, &[u8])>
    ensures exact { IfSome result (λ x. text.now ≡ 32 ∷ x.0 ∷ 32 ∷ x.1.now) }
{
    let (first, behind) = text.split_first()?;
    let (byte, inner) = behind.split_first()?;
    let (last, rest) = inner.split_first()?;
    if *first == b' ' && *last == b' ' {
        Some((*byte, rest))
    } else {
        None
    }
}

/// Whether the sign between two blanks that the text begins with is `-`, not `+`, and the text after.
pub(crate) fn sign_ahead(text: &[u8]) -> Option<(bool, &[u8])>
    ensures exact { IfSome result (λ x. Cuts (t.Blank ∷ cond x.0 t.Minus t.Plus ∷ t.Blank ∷ []) text.now x.1.now) }
    ensures shorter { IfSome result (λ x. length x.1.now < length text.now) }
{
    let (sign, rest) = between_blanks(text)?;
    match sign {
        b'+' => Some((false, rest)),
        b'-' => Some((true, rest)),
        _ => None,
    }
}

/// Whether the sign between two blanks that the text begins with is `|`, not `&`, and the text after.
pub(crate) fn joint_ahead(text: &[u8]) -> Option<(bool, &[u8])>
    ensures exact { IfSome result (λ x. Cuts (t.Blank ∷ cond x.0 t.Or t.And ∷ t.Blank ∷ []) text.now x.1.now) }
    ensures shorter { IfSome result (λ x. length x.1.now < length text.now) }
{
    let (sign, rest) = between_blanks(text)?;
    match sign {
        b'&' => Some((false, rest)),
        b'|' => Some((true, rest)),
        _ => None,
    }
}

/// Whether the relation between two blanks that the text begins with is `>=`, not `=`, and the text after the 0 that follows.
pub(crate) fn relation_ahead(text: &[u8]) -> Option<(bool, &[u8])>
    ensures exact { IfSome result (λ x. Cuts (t.Blank ∷ cond x.0 t.AtLeast t.Equal ∷ t.Blank ∷ t.Number 0 ∷ []) text.now x.1.now) }
    ensures shorter { IfSome result (λ x. length x.1.now < length text.now) }
{
    let (bound, behind) = related(text)?;
    let (n, rest) = number_ahead(behind)?;
    if n == 0 { Some((bound, rest)) } else { None }
}

/// Whether the relation between two blanks that the text begins with is `>=`, not `=`, and the text after.
fn related(text: &[u8]) -> Option<(bool, &[u8])>
    ensures exact { IfSome result (λ x. Cuts (t.Blank ∷ cond x.0 t.AtLeast t.Equal ∷ t.Blank ∷ []) text.now x.1.now) }
    ensures shorter { IfSome result (λ x. length x.1.now < length text.now) }
{
    match between_blanks(text) {
        Some((b'=', rest)) => Some((false, rest)),
        _ => Some((true, at_least(text)?)),
    }
}

/// The text after the sign `>=` between two blanks.
fn at_least(text: &[u8]) -> Option<&[u8]>
    ensures exact { IfSome result (λ rest. text.now ≡ 32 ∷ 62 ∷ 61 ∷ 32 ∷ rest.now) }
{
    let (first, behind) = text.split_first()?;
    let (second, inner) = behind.split_first()?;
    let (third, more) = inner.split_first()?;
    let (last, rest) = more.split_first()?;
    if *first == b' ' && *second == b'>' && *third == b'=' && *last == b' ' {
        Some(rest)
    } else {
        None
    }
}

/// The name that begins a term, with a `-` directly before it or none, whether there is one, and the text after it.
pub(crate) fn first_ahead(text: &[u8]) -> Option<(bool, u32, &[u8])>
    ensures exact { IfSome result (λ x. Cuts (cond x.0 (t.Minus ∷ t.Name x.1 ∷ []) (t.Name x.1 ∷ [])) text.now x.2.now) }
    ensures shorter { IfSome result (λ x. length x.2.now < length text.now) }
{
    if let Some((b'-', behind)) = text.split_first() {
        let (name, rest) = name_ahead(behind)?;
        return Some((true, name, rest));
    }
    let (name, rest) = name_ahead(text)?;
    Some((false, name, rest))
}

/// The constant that ends a term, from 1 to 2^32 − 1, after a sign between two blanks, whether the sign is `-`, and the text after.
pub(crate) fn constant_ahead(text: &[u8]) -> Option<(bool, u32, &[u8])>
    ensures exact { IfSome result (λ x. Cuts (t.Blank ∷ cond x.0 t.Minus t.Plus ∷ t.Blank ∷ t.Number x.1 ∷ []) text.now x.2.now) }
    ensures some { IfSome result (λ x. 0 < x.1) }
    ensures shorter { IfSome result (λ x. length x.2.now < length text.now) }
{
    let (minus, behind) = sign_ahead(text)?;
    let (n, rest) = number_ahead(behind)?;
    if n == 0 { None } else { Some((minus, n, rest)) }
}
