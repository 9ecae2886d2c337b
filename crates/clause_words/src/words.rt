// The first token of a text.

ghost use Rattle.std.specs.List.{prefix_len};
ghost use Rattle.std.specs.Prelude.{◌≡◌, ◌≤◌, ◌<◌, length, true, false, IfOk};
ghost use Rattle.clause_words.specs.Reading.{blank_first, feed_first, GivesValue, joint};
ghost use Rattle.clause_words.specs.Tokens.{in_word, is_separator, stops, tokens, with_word};

use proof_tokens::Refusal;

/// How many bytes at the front are those of a word.
#[tactic(auto, using(proof_tokens::proofs::Runs::runs))]
fn word_len(text: &[u8]) -> usize
    ensures exact { result ≡ prefix_len in_word text.now }
    ensures within { result ≤ length text.now }
{
    text.iter()
        .take_while(|byte| **byte != b' ' && **byte != b'\n')
        .count()
}

/// The word that the text begins with, which is empty where none does, and the text after it.
#[tactic(auto, using(crate::proofs::Splitting::split_is, crate::proofs::Splitting::rest_stops, crate::proofs::Splitting::split_plain))]
pub fn split_word(text: &[u8]) -> (&[u8], &[u8])
    ensures parts { tokens text.now ≡ with_word result.0.now (tokens result.1.now) }
    ensures plain { is_separator result.0.now ≡ false }
    ensures stops { stops result.1.now ≡ true }
    ensures within { length result.1.now ≤ length text.now }
{
    text.split_at(word_len(text))
}

/// Whether a blank comes first, not a line feed, and the text after it.
#[tactic(auto, using(crate::proofs::Splitting::none_joint))]
pub fn joint(text: &[u8]) -> Result<(bool, &[u8]), Refusal>
    ensures exact { GivesValue (λ x. (x.0, tokens x.1.now)) result (joint (tokens text.now)) }
    ensures shorter { IfOk result (λ x. length x.1.now < length text.now) }
{
    let Some((first, rest)) = text.split_first() else {
        return Err(Refusal::Syntax(0));
    };
    if *first == b' ' {
        return Ok((true, rest));
    }
    if *first == b'\n' {
        return Ok((false, rest));
    }
    Err(Refusal::Syntax(text.len()))
}

/// The text after a blank.
#[tactic(auto, using(crate::proofs::Splitting::size_is), unfolding(crate::specs::Reading::blank_first))]
pub fn blank_first(text: &[u8]) -> Result<&[u8], Refusal>
    ensures exact { GivesValue (λ x. tokens x.now) result (blank_first (tokens text.now)) }
    ensures shorter { IfOk result (λ x. length x.now < length text.now) }
{
    let (more, rest) = joint(text)?;
    if more {
        Ok(rest)
    } else {
        Err(Refusal::Syntax(text.len()))
    }
}

/// The text after a line feed.
#[tactic(auto, using(crate::proofs::Splitting::size_is), unfolding(crate::specs::Reading::feed_first))]
pub fn feed_first(text: &[u8]) -> Result<&[u8], Refusal>
    ensures exact { GivesValue (λ x. tokens x.now) result (feed_first (tokens text.now)) }
{
    let (more, rest) = joint(text)?;
    if more {
        Err(Refusal::Syntax(text.len()))
    } else {
        Ok(rest)
    }
}
