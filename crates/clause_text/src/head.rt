// The first lines of a proof: its format, what its check may charge, the preparation of its root, values, and the root.

ghost use Rattle.clause_text.specs.Head.{charges_line, format_line, format_said, head_of, head_text, IsHead, list_said, one_said, prepared_line, RefusesHead, root_line, unsaid, values_line};
ghost use Rattle.clause_text.specs.HeadWords.{is_label};
ghost use Rattle.std.specs.Prelude.{◌≡◌, ◌++◌, true, IfErr, IfOk, List, ℕ};
ghost use Rattle.clause_words.specs.Reading.{done, GivesValue, word_as};
ghost use Rattle.clause_words.specs.Spelling.{is_plain};
ghost use Rattle.clause_words.specs.Tokens.{spelled, tokens};

use crate::charge::Charge;
use crate::line_words::{field, fields};
use clause_proof::Literal;
use clause_words::{blank_first, feed_first, split_word};
use proof_tokens::Refusal;
use sqlite_items::Items;
use std::alloc::Global;

/// The first lines of a proof.
#[derive(Drop)]
pub struct Head {
    /// How many steps the checker may charge.
    pub charges: Charge,
    /// How many steps the preparation of the root may take; 0 where the root is as the encoding makes it.
    pub prepared: u32,
    /// LineValues of the existential constants.
    pub values: Items<i128>,
    pub root: Literal,
}

/// The text after this word.
fn label<'a>(text: &'a [u8], label: &[u8]) -> Result<&'a [u8], Refusal>
    requires { is_plain label.now ≡ true }
    ensures { GivesValue (λ x. unsaid (tokens x.now)) result (word_as (is_label label.now) (tokens text.now)) }
{
    let (word, rest) = split_word(text);
    if word == label {
        Ok(rest)
    } else {
        Err(Refusal::Syntax(text.len()))
    }
}

/// The line that says the format.
fn format(text: &[u8]) -> Result<&[u8], Refusal>
    ensures { GivesValue (λ x. format_said (tokens x.now)) result (format_line (tokens text.now)) }
{
    let inner = label(text, b"princess-proof")?;
    let number = blank_first(inner)?;
    let end = label(number, b"3")?;
    let rest = feed_first(end)?;
    Ok(rest)
}

/// How many steps the checker may charge.
fn charges(alloc: Global, text: &[u8]) -> Result<(Charge, &[u8]), Refusal>
    ensures { GivesValue (λ x. one_said x.0 (tokens x.1.now)) result (charges_line (tokens text.now)) }
{
    let inner = label(text, b"charges")?;
    let (charge, rest) = field(alloc, inner)?;
    let rest = feed_first(rest)?;
    Ok((charge, rest))
}

/// How many steps the preparation of the root may take.
fn prepared(alloc: Global, text: &[u8]) -> Result<(u32, &[u8]), Refusal>
    ensures { GivesValue (λ x. one_said x.0 (tokens x.1.now)) result (prepared_line (tokens text.now)) }
{
    let inner = label(text, b"prepared")?;
    let (steps, rest) = field(alloc, inner)?;
    let rest = feed_first(rest)?;
    Ok((steps, rest))
}

/// LineValues of the existential constants.
fn values(alloc: Global, text: &[u8]) -> Result<(Items<i128>, &[u8]), Refusal>
    ensures { GivesValue (λ x. list_said x.0 (tokens x.1.now)) result (values_line (tokens text.now)) }
{
    let inner = label(text, b"values")?;
    fields(alloc, inner)
}

/// The literal of the root.
fn root(alloc: Global, text: &[u8]) -> Result<(Literal, &[u8]), Refusal>
    ensures { GivesValue (λ x. one_said x.0 (tokens x.1.now)) result (root_line (tokens text.now)) }
{
    let inner = label(text, b"root")?;
    let (literal, rest) = field(alloc, inner)?;
    let rest = feed_first(rest)?;
    Ok((literal, rest))
}

/// The first lines of the text, and the text after them.
#[tactic(auto, unfolding(crate::specs::Head::head_of))]
fn any_head(alloc: Global, text: &[u8]) -> Result<(Head, &[u8]), Refusal>
    ensures { GivesValue (λ x. (x.0, tokens x.1.now)) result (head_of (tokens text.now)) }
{
    let rest = format(text)?;
    let (charges, rest) = charges(alloc, rest)?;
    let (prepared, rest) = prepared(alloc, rest)?;
    let (values, rest) = values(alloc, rest)?;
    let (root, rest) = root(alloc, rest)?;
    let head = Head {
        charges,
        prepared,
        values,
        root,
    };
    Ok((head, rest))
}

/// The first lines of the text, and the text after them.
pub fn read_head(alloc: Global, text: &[u8]) -> Result<(Head, &[u8]), Refusal>
    // What is read is the text of first lines, each byte of it.
    ensures found { IfOk result (λ x. IsHead x.0 × (text.now ≡ spelled (head_text x.0) ++ x.1.now)) }
    // It is read as those, unless memory runs out, whatever stands after it.
    ensures only { (head : Head) (rest : List ℕ) → IsHead head → text.now ≡ spelled (head_text head) ++ rest → GivesValue (λ x. (x.0, tokens x.1.now)) result (done head (tokens rest)) }
    // A refusal is at the first token with which no such text goes on.
    ensures first { IfErr result (RefusesHead text.now) }
{
    any_head(alloc, text)
}
