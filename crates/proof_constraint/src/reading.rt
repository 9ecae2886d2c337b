// The line `gives`, read.

ghost use Rattle.proof_constraint.specs.Text.{AreClauses, gives_text};
ghost use Rattle.proof_tokens.specs.Reading.{Cuts, RefusesProof};
ghost use Rattle.std.specs.Prelude.{◌≡◌, ◌∷◌, ◌++◌, [], IfErr, IfOk, IfSome, List, MatchOption, ℕ, codes};

use crate::draft::Draft;
use crate::machine::step;
use crate::phrases::{end_ahead, skim};
use crate::place::{Last, Place, Progress};
use clause_set::Literal;
use linear_term::Memory;
use proof_tokens::{Refusal, Word, behind_bytes, next, word};
use sqlite_items::Items;
use std::alloc::Global;

/// The constraint that is true: one clause, of no literal.
fn one_true(alloc: Global) -> Result<Items<Items<Literal>>, Memory>
    ensures { IfOk result (λ clauses. clauses ≡ [] ∷ []) }
{
    let mut clauses = Items::new(alloc);
    clauses.push(Items::new(alloc))?;
    Ok(clauses)
}

/// The text after the line `gives true`; none where another line comes.
pub fn given_true(text: &[u8]) -> Option<&[u8]>
    ensures bytes { MatchOption result ((rest : List ℕ) → text.now ≡ codes "gives true\n" ++ rest → ⊥) (λ rest. text.now ≡ codes "gives true\n" ++ rest.now) }
    ensures tokens { IfSome result (λ rest. Cuts (gives_text ([] ∷ [])) text.now rest.now) }
{
    let rest = behind_bytes(text, b"gives true\n".as_slice())?;
    Some(rest)
}

/// The line `gives`: its clauses, and the text after it.
pub fn given(alloc: Global, text: &[u8]) -> Result<(Items<Items<Literal>>, &[u8]), Refusal>
    ensures found { IfOk result (λ x. AreClauses x.0 × Cuts (gives_text x.0) text.now x.1.now) }
    ensures first { IfErr result (RefusesProof AreClauses gives_text text.now) }
{
    if let Some(rest) = given_true(text) {
        let clauses = one_true(alloc)?;
        return Ok((clauses, rest));
    }
    any_given(alloc, text)
}

/// The line `gives`, whatever it says: its clauses, and the text after it.
fn any_given(alloc: Global, text: &[u8]) -> Result<(Items<Items<Literal>>, &[u8]), Refusal>
    ensures found { IfOk result (λ x. AreClauses x.0 × Cuts (gives_text x.0) text.now x.1.now) }
    ensures first { IfErr result (RefusesProof AreClauses gives_text text.now) }
{
    let mut rest = word(text, Word::Gives)?;
    let mut draft = Draft::new(alloc);
    let mut place = Place::Behind(Last::Start);
    'tokens: loop {
        let (at, ahead) = skim(alloc, &mut draft, place, rest)?;
        if ahead.len() < rest.len() {
            place = at;
            rest = ahead;
            continue;
        }
        if let Some(more) = end_ahead(at, ahead) {
            draft.end_clause(alloc)?;
            return Ok((draft.clauses, more));
        }
        let Some((token, more)) = next(ahead) else {
            return Err(Refusal::Syntax(0));
        };
        match step(alloc, &mut draft, at, token)? {
            Progress::Bad => return Err(Refusal::Syntax(ahead.len())),
            Progress::On(then) => place = then,
            Progress::Done => return Ok((draft.clauses, more)),
        }
        rest = more;
    }
}
