// Numbers among the words.

ghost use Rattle.job_words.specs.Jobs.{IsNumber};
ghost use Rattle.std.specs.Prelude.{ℕ, MatchOption};

// The number that a text of 1 to 10 decimal digits writes, where it lies from 1 to `most`.
pub(crate) fn number(text: &str, most: u64) -> Option<u64>
    ensures { MatchOption result ((n : ℕ) → IsNumber most text.now n → ⊥) (λ n. IsNumber most text.now n) }
{
    if text.len() > 10 || text.starts_with('+') {
        return None;
    }
    match text.parse::<u64>() {
        Ok(n) if 1 <= n && n <= most => Some(n),
        _ => None,
    }
}
